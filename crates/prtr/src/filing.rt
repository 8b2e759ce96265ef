// The return of a journal in memory.
ghost use Rattle.std.specs.Prelude.{◌≡◌};
ghost use Rattle.text.specs.Writing.{copied_into};
ghost use Rattle.journal.specs.Reading.{printed_of};
ghost use Rattle.prtr.specs.Host.{length_in};

use journal::reading::text_of_journal;
use text::writing::{ROOM, copy_out};

// What `filing` prints of a journal, at the start of a lent buffer where 1,336 bytes are free: its length, which is never 0, or 0 where fewer are, and then the buffer is as before.
#[tactic(auto, unfolding(text::specs::Writing::copied_into, text::specs::Writing::length_copied, crate::specs::Host::length_in))]
#[unsafe(no_mangle)]
pub extern "C" fn prtr_filing(journal: &[u8], out: &mut [u8]) -> usize
    ensures value { result ≡ length_in out.old (printed_of journal.now) }
    ensures out_after { out.new ≡ copied_into out.old (printed_of journal.now) }
{
    // No journal is read for a buffer without the room.
    if out.len() < ROOM {
        return 0;
    }
    copy_out(text_of_journal(journal).as_slice(), out).unwrap_or(0)
}
