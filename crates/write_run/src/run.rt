// A journal from records: a list of records is read from an input, and the journal of those that are taken written on an output.
ghost use Rattle.std.specs.Prelude.{◌≡◌, IfOk, OnOk, IfSome, IsErrOf, true};
ghost use Rattle.std.specs.Io.KnownBytes.{Appends};
ghost use Rattle.streams.specs.Input.{bytes_left};
ghost use Rattle.streams.specs.Output.{has_failed, bytes_in};
ghost use Rattle.records.specs.Records.{records_in};
ghost use Rattle.writer.specs.Writer.{page};
ghost use Rattle.write_run.specs.Run.{line_of, made_by, what_follows, page_after, page_of, journal_of};

use records::call;
use records::refusal::Refusal;
use std::io;
use std::io::{ErrorKind, Read, Write};
use std::ops::ControlFlow;
use streams::input::Input;
use streams::output::Output;
use streams::record::{Record, RecordError};
use streams::trouble::Trouble;
use streams::writing;
use writer::writer::Writer;

/// The line of a record that isn't taken. Each piece is tried, whatever became of the one before.
fn tell<E: Write>(errors: &mut E, place: u64, refusal: Refusal) -> io::Result<()>
    ensures { OnOk result (Appends (E.contents errors.old) (E.contents errors.new) (line_of place refusal)) }
{
    let name = writing::all(errors, b"record ");
    let number = writing::number(errors, place);
    match refusal {
        Refusal::Declined(decline) => {
            let space = writing::all(errors, b" ");
            let why = writing::number(errors, u64::from(decline.number()));
            let end = writing::all(errors, b"\n");
            name.and(number).and(space).and(why).and(end)
        }
        Refusal::Malformed => {
            let end = writing::all(errors, b" malformed\n");
            name.and(number).and(end)
        }
    }
}

/// What a record that was read makes of the writer, or what there was in its place: none follows the input's end, a malformed one or a read that failed.
fn answer<E: Write>(
    read: Result<Option<Record<'_>>, RecordError>,
    writer: &mut Writer<'_>,
    place: u64,
    errors: &mut E,
) -> ControlFlow<io::Result<()>>
    ensures lent { writer.new.buffer.ghost_name ≡ writer.old.buffer.ghost_name }
    ensures made { page writer.new ≡ made_by (page writer.old) read.entry }
    ensures follows { result ≡ what_follows (page writer.old) read.entry }
{
    let taken = match read {
        Ok(None) => return ControlFlow::Break(Ok(())),
        Ok(Some(record)) => call::take(writer, record.tag, record.body),
        Err(RecordError::Malformed) => Err(Refusal::Malformed),
        Err(RecordError::Unread(e)) => return ControlFlow::Break(Err(e)),
    };
    if let Err(refusal) = taken {
        let _ = tell(errors, place, refusal);
        if refusal == Refusal::Malformed {
            return ControlFlow::Break(Ok(()));
        }
    }
    ControlFlow::Continue(())
}

/// Takes the records up to the end of the input or to a malformed one, and tells of those that aren't taken.
fn take_records<R: Read, E: Write>(
    input: &mut Input<R>,
    writer: &mut Writer<'_>,
    errors: &mut E,
) -> io::Result<()>
    ensures lent { writer.new.buffer.ghost_name ≡ writer.old.buffer.ghost_name }
    ensures taken { IfOk result (λ _. IfSome (bytes_left R.remaining input.old) (λ s. page writer.new ≡ page_after (page writer.old) (records_in s))) }
{
    let mut space = [0; 65536];
    for place in 0..u64::MAX {
        let read = input.read_record(&mut space);
        if let ControlFlow::Break(end) = answer(read, writer, place, errors) {
            return end;
        }
    }
    Err(ErrorKind::Other.into())
}

/// Writes the journal of the records that are taken, made in a lent buffer; nothing where the input can't be read.
pub fn write_journal<R: Read, W: Write, E: Write>(
    input: &mut Input<R>,
    output: &mut Output<W>,
    errors: &mut E,
    buffer: &mut [u8],
) -> Result<(), Trouble>
    ensures written { OnOk result (IfSome (bytes_left R.remaining input.old)
        (λ s. Appends (bytes_in W.contents output.old) (bytes_in W.contents output.new) (journal_of buffer.old s))) }
    ensures lent { IfSome (bytes_left R.remaining input.old) (λ s. (IsErrOf result Trouble.Unread → ⊥) → buffer.new ≡ (page_of buffer.old s).bytes) }
    ensures unread { IsErrOf result Trouble.Unread → output.new ≡ output.old }
    ensures unwritten { IsErrOf result Trouble.Unwritten → has_failed output.new ≡ true }
{
    let mut writer = Writer::new(buffer);
    take_records(input, &mut writer, errors).map_err(|_| Trouble::Unread)?;
    let filled = writer.end();

    // What is filled is within the buffer, which the writer lends until its end and then no more.
    if let Some(journal) = buffer.get(..filled) {
        output.write_all(journal).map_err(|_| Trouble::Unwritten)?;
    }
    Ok(())
}
