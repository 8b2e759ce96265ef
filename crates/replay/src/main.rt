// A list of calls from standard input, each on the book that the one before it left: a line for each.
#![tactic(auto)]

mod call;
mod line;

use book::site::Book;
use call::Call;
use std::io::{Read, Write};
use streams::input::Input;
use streams::output::Output;
use streams::record::RecordError;
use streams::trouble::Trouble;

/// Up to the end of the input, or to a record that is malformed or no call. Each record is read into the same space, which no iterator lends out.
fn run<R: Read, W: Write>(from: &mut R, to: &mut W) -> Result<(), Trouble> {
    let mut book = Book::new();
    let mut input = Input::new(from);
    let mut output = Output::new(to);
    let mut space = [0; 65536];
    loop {
        let call = match input.read_record(&mut space) {
            Ok(None) => return Ok(()),
            Ok(Some(record)) => Call::of(record),
            Err(RecordError::Malformed) => None,
            Err(RecordError::Unread(_)) => return Err(Trouble::Unread),
        };
        let Some(call) = call else {
            return writeln!(output, "malformed").map_err(|_| Trouble::Unwritten);
        };
        call.answer(&mut book, &mut output)
            .map_err(|_| Trouble::Unwritten)?;
    }
}

fn main(rt: HostRuntime) {
    if let Err(trouble) = run(&mut rt.stdin(), &mut rt.stdout()) {
        let _ = trouble.tell("replay", &mut rt.stderr());
    }
}
