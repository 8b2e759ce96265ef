// A text as it grows, and its copy at the start of a lent buffer.
ghost use Rattle.std.specs.Prelude.{◌≡◌, ◌+◌, ◌<◌, ◌≤◌, ◌++◌, length};
ghost use Rattle.text.specs.Writing.{most_bytes, copied_into, length_copied};

use arrayvec::ArrayVec;

// The title and eight lines are no longer. A buffer that a text is copied into has to have as many bytes, however short the text.
pub const ROOM: usize = 1336;

// A text of at most as many bytes, in fixed memory.
pub type Text = ArrayVec<u8, ROOM>;

// Bytes are pushed, not formatted: `write!` promises its text only where it answers `Ok`, and not that it does where there is room.
pub(crate) fn push(text: &mut Text, more: &[u8])
    requires { length text.old.items + length more.now ≤ most_bytes }
    ensures { text.new.items ≡ text.old.items ++ more.now }
{
    text.try_extend_from_slice(more).unwrap();
}

// The text goes to the start of a buffer with room for the longest, and its length is answered. Into a shorter buffer, and of a text that is longer than any, nothing goes.
#[tactic(auto, unfolding(crate::specs::Writing::copied_into, crate::specs::Writing::length_copied))]
pub fn copy_out(text: &[u8], out: &mut [u8]) -> Option<usize>
    ensures text_in { length text.now ≤ most_bytes → out.new ≡ copied_into out.old text.now }
    ensures answer { length text.now ≤ most_bytes → result ≡ length_copied out.old text.now }
    ensures too_long_stays { most_bytes < length text.now → out.new ≡ out.old }
    ensures too_long_told { most_bytes < length text.now → result ≡ None }
{
    if text.len() > ROOM || out.len() < ROOM {
        return None;
    }
    out[..text.len()].copy_from_slice(text);
    Some(text.len())
}
