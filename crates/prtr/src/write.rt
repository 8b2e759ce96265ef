// A journal written from a list of records in memory. The C interface has each place loose.
ghost use Rattle.std.specs.Prelude.{◌≡◌};
ghost use Rattle.records.specs.Batch.{written_in, left_in};
ghost use Rattle.prtr.specs.Write.{status_of, length_or, place_or};

use records::batch::write_records;

// The journal of the records at the start of a lent buffer: 0, and its length in a lent place. Or the decline's number, or 255, of the first record that isn't taken, and
// its place from 0 in the other lent place; then the buffer is as before.
#[unsafe(no_mangle)]
pub extern "C" fn prtr_write(
    records: &[u8],
    journal: &mut [u8],
    written: &mut usize,
    place: &mut usize,
) -> u8
    ensures value { result ≡ status_of (written_in journal.old records.now) }
    ensures journal_after { journal.new ≡ left_in journal.old (written_in journal.old records.now) }
    ensures written_after { written.new ≡ length_or written.old (written_in journal.old records.now) }
    ensures place_after { place.new ≡ place_or place.old (written_in journal.old records.now) }
{
    match write_records(records, journal) {
        Ok(n) => {
            *written = n;
            0
        }
        Err(stopped) => {
            *place = stopped.place;
            stopped.refusal.number()
        }
    }
}
