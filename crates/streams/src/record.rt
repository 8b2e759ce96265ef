// The records of an input: a tag byte, a length in 16 bits with the low byte first, and that many bytes.
ghost use Rattle.std.specs.Prelude.{◌≡◌, ◌+◌, ◌<◌, IfOk, OnSome, IsErr, length};
ghost use Rattle.streams.specs.Input.{parts_left, bytes_left};
ghost use Rattle.streams.specs.Record.{head_of, start_of, record_of, RecordTook};

use crate::input::Input;
use std::io;
use std::io::Read;
use std::ops::ControlFlow;

#[derive(Clone, Copy)]
pub struct Record<'a> {
    pub tag: u8,
    pub body: &'a [u8],
}

/// Why there is no record where the input isn't at its end.
#[derive(Drop)]
pub enum RecordError {
    /// It is cut short, or its body is longer than the space that was lent.
    Malformed,
    Unread(io::Error),
}

impl From<io::Error> for RecordError {
    ghost use Rattle.streams.specs.declared.record.RecordError.TheVariants.{Unread};

    ghost from_gives = { λ e r. r ≡ Unread e };

    fn from(e: io::Error) -> RecordError {
        RecordError::Unread(e)
    }
}

/// A record's head: its tag, and the length of its body.
#[derive(Clone, Copy)]
struct Head {
    tag: u8,
    size: usize,
}

/// A tag byte, and a length in 16 bits with the low byte first.
fn head_of(bytes: [u8; 3]) -> Head
    ensures value { result ≡ head_of bytes }
    ensures upper_bound { result.size < 65536 }
{
    let [tag, low, high] = bytes;
    Head {
        tag,
        size: usize::from(u16::from_le_bytes([low, high])),
    }
}

/// By what became of the part that is a record's head.
fn start_of<'a>(
    part: io::Result<usize>,
    head: Head,
    room: usize,
) -> ControlFlow<Result<Option<Record<'a>>, RecordError>, Head>
    ensures { result ≡ start_of room head part }
{
    match part {
        Ok(0) => ControlFlow::Break(Ok(None)),
        Ok(n) if n < 3 || head.size > room => ControlFlow::Break(Err(RecordError::Malformed)),
        Ok(_) => ControlFlow::Continue(head),
        Err(e) => ControlFlow::Break(Err(RecordError::Unread(e))),
    }
}

/// By what became of the part that is its body.
fn record_of<'a>(
    tag: u8,
    body: &'a [u8],
    part: io::Result<usize>,
) -> Result<Option<Record<'a>>, RecordError>
    ensures { result ≡ record_of tag body.entry part }
{
    if part? < body.len() {
        return Err(RecordError::Malformed);
    }
    Ok(Some(Record { tag, body }))
}

impl<R: Read> Input<R> {
    /// Reads the next record into the space that is lent; none is left at the input's end.
    pub fn read_record<'a>(
        &mut self,
        space: &'a mut [u8],
    ) -> Result<Option<Record<'a>>, RecordError>
        ensures took { RecordTook (bytes_left R.remaining self.old) (bytes_left R.remaining self.new) (length space.old) result }
        ensures counted { IfOk result (λ r. OnSome r (parts_left self.new + 2 ≡ parts_left self.old)) }
        ensures spent { parts_left self.old ≡ 0 → IsErr result }
    {
        let mut bytes = [0; 3];
        let part = self.read_part(&mut bytes);
        let head = match start_of(part, head_of(bytes), space.len()) {
            ControlFlow::Continue(head) => head,
            ControlFlow::Break(answer) => return answer,
        };
        let body = &mut space[..head.size];
        let part = self.read_part(body);
        record_of(head.tag, body, part)
    }
}
