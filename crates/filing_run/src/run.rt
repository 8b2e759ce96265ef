// The return of a journal: a journal is read from an input, and the return printed on an output.
ghost use Rattle.std.specs.Prelude.{◌≡◌, IfOk, OnOk, IfSome, IsErrOf, true};
ghost use Rattle.std.specs.Io.KnownBytes.{Appends};
ghost use Rattle.streams.specs.Input.{bytes_left};
ghost use Rattle.streams.specs.Output.{has_failed, bytes_in};
ghost use Rattle.journal.specs.Reading.{text_of, printed_of};

use journal::reading::Reading;
use std::io;
use std::io::{Read, Write};
use streams::input::Input;
use streams::output::Output;
use streams::trouble::Trouble;

/// What was read up to the end of the input or to the first decline. The loop ends by what the reading says of a part, and no iterator has that.
fn read_journal<R: Read>(input: &mut Input<R>) -> io::Result<Reading>
    ensures { IfOk result (λ reading. IfSome (bytes_left R.remaining input.old) (λ s. text_of reading ≡ printed_of s)) }
{
    let mut reading = Reading::new();
    let mut space = [0; 512];
    while !reading.has_stopped() {
        let n = input.read_part(&mut space)?;
        if n == 0 {
            return Ok(reading);
        }
        reading.feed(&space[..n]);
    }
    Ok(reading)
}

/// Prints the return of a journal; nothing where the journal can't be read.
pub fn print_return<R: Read, W: Write>(
    input: &mut Input<R>,
    output: &mut Output<W>,
) -> Result<(), Trouble>
    ensures printed { OnOk result (IfSome (bytes_left R.remaining input.old)
        (λ s. Appends (bytes_in W.contents output.old) (bytes_in W.contents output.new) (printed_of s))) }
    ensures unread { IsErrOf result Trouble.Unread → output.new ≡ output.old }
    ensures unwritten { IsErrOf result Trouble.Unwritten → has_failed output.new ≡ true }
{
    let reading = read_journal(input).map_err(|_| Trouble::Unread)?;
    output
        .write_all(reading.text().as_slice())
        .map_err(|_| Trouble::Unwritten)
}
