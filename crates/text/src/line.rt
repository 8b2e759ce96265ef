// The line of a substance. Each call asks for its own room, so that no struct could say it once.
ghost use Rattle.std.specs.Prelude.{◌≡◌, ◌+◌, ◌++◌, ◌≤◌, length};
ghost use Rattle.text.specs.Line.{filing_text, line_text};
ghost use Rattle.text.specs.Writing.{most_bytes};

use crate::number::{push_decimal, push_field, push_figure};
use crate::writing::{Text, push};
use report::fate::Headings;
use report::report::Report;

fn push_filing(text: &mut Text, filed: Option<Headings>)
    requires { length text.old.items + 90 ≤ most_bytes }
    ensures text { text.new.items ≡ text.old.items ++ filing_text filed }
    ensures short { length text.new.items ≤ length text.old.items + 72 }
{
    match filed {
        Some(h) => {
            push_figure(text, h.air);
            push_figure(text, h.water);
            push_figure(text, h.soil);
            push_figure(text, h.land);
            push_figure(text, h.sewer);
            push_figure(text, h.offsite);
        }
        None => push(text, b" - - - - - -"),
    }
}

// The line of a substance is no longer than 160 bytes.
#[tactic(auto, using(std::proofs::Common::append_assoc), unfolding(crate::specs::Line::line_text))]
pub(crate) fn push_line(text: &mut Text, r: &Report)
    requires { length text.old.items + 160 ≤ most_bytes }
    ensures text { text.new.items ≡ text.old.items ++ line_text r.now }
    ensures short { length text.new.items ≤ length text.old.items + 160 }
{
    push_decimal(text, u64::from(r.number));
    push_field(text, r.handled);
    push(text, if r.due { b" Y" } else { b" N" });
    push_filing(text, r.filed);
    push(text, b"\n");
}
