// A list of records in memory, written as a journal: first each record is counted without being written, so that a stop leaves the buffer.
ghost use Rattle.std.specs.Prelude.{◌≡◌, ℕ, List, length};
ghost use Rattle.records.specs.Batch.{written_in, end_of, left_in};
ghost use Rattle.records.specs.Recorder.{TakesAll};

use crate::call;
use crate::record::Records;
use crate::recorder::Recorder;
use crate::refusal::Refusal;
use pages::counter::Counter;
use writer::writer::Writer;

// The first record that isn't taken: why, and its place from 0.
#[derive(Clone, Copy)]
pub struct Stopped {
    pub refusal: Refusal,
    pub place: usize,
}

// The records in turn, up to the first that isn't taken, and an end. How many bytes are filled then.
fn take_all<R: Recorder>(recorder: &mut R, records: &[u8]) -> Result<usize, Stopped>
    ensures { TakesAll R.lent R.is_at records.now recorder.old recorder.new result }
{
    for (place, record) in Records::new(records).enumerate() {
        if let Err(refusal) = call::take_next(recorder, record) {
            return Err(Stopped { refusal, place });
        }
    }
    Ok(recorder.end())
}

// How many bytes the journal of the records would fill in a buffer of so many bytes, or the first record that isn't taken.
#[tactic(auto, unfolding(crate::specs::Recorder::StandsFor))]
fn count_records(records: &[u8], room: usize) -> Result<usize, Stopped>
    ensures { (lent : List ℕ) → length lent ≡ room → result ≡ end_of (written_in lent records.now) }
{
    take_all(&mut Counter::new(room), records)
}

// The journal of the records at the start of the buffer, and how many bytes it fills; where a record isn't taken, the buffer is as before.
pub fn write_records(records: &[u8], buffer: &mut [u8]) -> Result<usize, Stopped>
    ensures value { result ≡ end_of (written_in buffer.old records.now) }
    ensures buffer_after { buffer.new ≡ left_in buffer.old (written_in buffer.old records.now) }
{
    count_records(records, buffer.len())?;
    take_all(&mut Writer::new(buffer), records)
}
