// The records of bytes: each a tag byte, a length in 16 bits, and that many bytes.
ghost use Rattle.std.specs.Prelude.{◌≡◌};
ghost use Rattle.records.specs.Records.{span_of, IsFirst};

use crate::refusal::Refusal;
use encoding::bytes;

// A record that is there as a whole: its tag, and what follows its length.
#[derive(Clone, Copy)]
pub(crate) struct Record<'a> {
    pub(crate) tag: u8,
    pub(crate) body: &'a [u8],
}

// The records of bytes in turn. One that is cut short is malformed, and the last.
#[derive(Drop)]
pub(crate) struct Records<'a> {
    rest: &'a [u8],
}

impl<'a> Records<'a> {
    pub(crate) fn new(bytes: &'a [u8]) -> Records<'a>
        ensures { result.rest.now ≡ bytes.now }
    {
        Records { rest: bytes }
    }
}

impl<'a> Iterator for Records<'a> {
    ghost use Rattle.std.specs.Prelude.{length};
    ghost use Rattle.std.specs.Iterator.{at_most};
    ghost use Rattle.records.specs.Records.{GivesRecord};

    type Item = Result<Record<'a>, Refusal>;

    ghost next_gives = { GivesRecord };

    ghost remaining = { λ records. at_most (length records.rest.now) };

    fn next(&mut self) -> Option<Result<Record<'a>, Refusal>> {
        if self.rest.is_empty() {
            return None;
        }
        let first = first_of(self.rest);
        self.rest = bytes::tail(self.rest, span_of(self.rest));
        Some(first)
    }
}

// How many bytes the first record takes, its tag and length with it.
fn span_of(s: &[u8]) -> usize
    ensures { result ≡ span_of s.now }
{
    3 + usize::from(bytes::le16(s, 1))
}

// The first record, where it is there as a whole.
#[tactic(auto, using(crate::proofs::record::Laws::first_short, crate::proofs::record::Laws::first_complete))]
fn first_of(s: &[u8]) -> Result<Record<'_>, Refusal>
    ensures { IsFirst s.now result }
{
    let span = span_of(s);
    if span > s.len() {
        return Err(Refusal::Malformed);
    }
    Ok(Record {
        tag: bytes::byte_at(s, 0),
        body: bytes::between(s, 3, span),
    })
}
