// Numbers in decimal digits, and figures in kilograms.
ghost use Rattle.std.specs.Prelude.{◌≡◌, ◌∷◌, ◌+◌, ◌++◌, ◌≤◌, length};
ghost use Rattle.text.specs.Number.{space, decimal, figure_text};
ghost use Rattle.text.specs.Writing.{most_bytes};

use crate::writing::{Text, push};
use itoa::Buffer;

// In micrograms.
const KG: u64 = 1_000_000_000;

#[tactic(auto, using(crate::proofs::number::Laws::decimal_is))]
pub(crate) fn push_decimal(text: &mut Text, x: u64)
    requires { length text.old.items + 20 ≤ most_bytes }
    ensures text { text.new.items ≡ text.old.items ++ decimal x }
    ensures short { length text.new.items ≤ length text.old.items + 20 }
{
    push(text, Buffer::new().format(x).as_bytes());
}

// Behind a space.
pub(crate) fn push_field(text: &mut Text, x: u64)
    requires { length text.old.items + 21 ≤ most_bytes }
    ensures text { text.new.items ≡ text.old.items ++ (space ∷ decimal x) }
    ensures short { length text.new.items ≤ length text.old.items + 21 }
{
    push(text, b" ");
    push_decimal(text, x);
}

// A figure in kilograms, behind a space: whole, but with one decimal under 10 kg.
pub(crate) fn push_figure(text: &mut Text, figure: u64)
    requires { length text.old.items + 23 ≤ most_bytes }
    ensures text { text.new.items ≡ text.old.items ++ (space ∷ figure_text figure) }
    ensures short { length text.new.items ≤ length text.old.items + 12 }
{
    push_field(text, figure / KG);
    if figure < 10 * KG {
        push(text, b".");
        push_decimal(text, figure / (KG / 10) % 10);
    }
}
