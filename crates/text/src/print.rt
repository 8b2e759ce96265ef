// What is printed of a journal: the return of its book, or the line of the block that was refused.
ghost use Rattle.std.specs.Prelude.{◌≡◌, ◌≤◌, [], length};
ghost use Rattle.text.specs.Line.{refused_text};
ghost use Rattle.text.specs.Print.{return_text};
ghost use Rattle.text.specs.Writing.{most_bytes};

use crate::line::push_line;
use crate::number::push_field;
use crate::writing::{Text, push};
use book::site::Book;
use report::report::report_of;

// The return of a book: the title and the line of each substance.
#[tactic(auto, using(std::proofs::Common::append_assoc), unfolding(crate::specs::Print::lines_to, report::specs::Report::report_of, amounts::specs::Decline::checked))]
pub fn return_of(b: &Book) -> Text
    ensures text { result.items ≡ return_text b.now }
    ensures short { length result.items ≤ most_bytes }
{
    let mut text = Text::new();
    push(
        &mut text,
        b"substance handled due air water soil land sewer offsite\n",
    );
    // By place, as the definition has its lines.
    for i in 0..usize::from(b.setup().outline.substances) {
        push_line(&mut text, &report_of(b, i).unwrap());
    }
    text
}

// The line of a block that was refused, by its place from 0 and the decline's number: a `Decline` would ask more of callers.
#[tactic(auto, using(std::proofs::Common::append_assoc), unfolding(crate::specs::Line::refused_text))]
pub fn refusal_of(place: u32, number: u8) -> Text
    ensures text { result.items ≡ refused_text place number }
    ensures short { length result.items ≤ most_bytes }
{
    let mut text = Text::new();
    push(&mut text, b"refused");
    push_field(&mut text, u64::from(place));
    push_field(&mut text, u64::from(number));
    push(&mut text, b"\n");
    text
}
