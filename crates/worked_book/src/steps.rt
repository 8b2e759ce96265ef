// The steps that a section takes: a row for each.
use crate::blocks::{Kind, Part};
use crate::changes::Change;
use crate::posts::{Entry, Field};
use crate::sites::Start;

#[derive(Clone, Copy)]
pub(crate) enum Step {
    Title(&'static str),
    // A text before the next line.
    Word(&'static str),
    // Goes on with another book.
    On(Start),
    Post(Entry),
    // The good post of a kind, with a field changed.
    Try(u8, Field),
    // The same of each kind from one to another.
    TryKinds(u8, u8, Field),
    // A post of any bytes.
    Bytes(&'static [u8]),
    // The first bytes of a good post with zeros behind it.
    Length(usize),
    SetUp(u8, &'static [Part]),
    Describe(u8, &'static [Part]),
    // The first bytes of a body with a zero behind it, by their layout alone, since they are no block's.
    Cut(Kind, u8, &'static [Part], usize),
    // The good set-up with each change alone, by the count of substances.
    SetUps(u8, &'static [Change]),
    // The good first stage with each change alone.
    Stages(&'static [Change]),
    // The place of a substance.
    Report(usize),
    // Of two substances.
    Reports,
    // The grams counted of a material.
    Stock(usize, u64),
}
