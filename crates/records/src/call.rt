// A record as a call of a writer.
ghost use Rattle.pages.specs.Calls.{answer_to};
ghost use Rattle.records.specs.Records.{record_of, set_up_of};
ghost use Rattle.records.specs.Batch.{record_on, next_on};
ghost use Rattle.records.specs.Recorder.{Follows};

use crate::record::Record;
use crate::recorder::Recorder;
use crate::refusal::Refusal;
use amounts::decline::Decline;
use encoding::bytes;

// A set-up block: byte 0 its kind, byte 1 its count, the rest its body.
fn take_set_up<R: Recorder>(recorder: &mut R, s: &[u8]) -> Result<(), Decline>
    ensures { Follows R.lent R.is_at (λ p. answer_to p (set_up_of s.now)) recorder.old recorder.new result }
{
    recorder.set_up(
        bytes::byte_at(s, 0),
        bytes::byte_at(s, 1),
        bytes::tail(s, 2),
    )
}

// A record of any tag and bytes.
pub fn take<R: Recorder>(recorder: &mut R, tag: u8, s: &[u8]) -> Result<(), Refusal>
    ensures { Follows R.lent R.is_at (λ p. record_on p (record_of tag s.now)) recorder.old recorder.new result }
{
    // A writer's tag is read nowhere else, so that each letter stands here alone, and not in an enum.
    match tag {
        b'S' => take_set_up(recorder, s).map_err(Refusal::from),
        b'P' => recorder.post(s).map_err(Refusal::from),

        // An end: the posts that wait are written as a block.
        b'E' => {
            recorder.end();
            Ok(())
        }
        _ => Err(Refusal::Malformed),
    }
}

// The next record of a list, where it is there as a whole.
pub(crate) fn take_next<R: Recorder>(
    recorder: &mut R,
    next: Result<Record<'_>, Refusal>,
) -> Result<(), Refusal>
    ensures { Follows R.lent R.is_at (λ p. next_on p next.entry) recorder.old recorder.new result }
{
    let Record { tag, body } = next?;
    take(recorder, tag, body)
}
