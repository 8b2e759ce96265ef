// Kind 2: a body that is taken, each rule of its layout broken alone, and stages out of their turn.
use crate::blocks::Kind;
use crate::changes::Change;
use crate::changes::Change::{Byte, Rates};
use crate::posts::Entry::Opening;
use crate::sites::{STAGE, Start};
use crate::steps::Step;
use crate::steps::Step::{Cut, Describe, On, Post, Reports, Stages, Title, Word};

const CHANGES: [Change; 18] = [
    // Where water and residues go.
    Byte(0, 1),
    Byte(0, 0),
    Byte(0, 2),
    Byte(0, 3),
    Byte(1, 0),
    Byte(1, 1),
    Byte(1, 3),
    // Sides.
    Byte(2, 0),
    Byte(2, 2),
    Byte(2, 3),
    Byte(19, 0),
    Byte(19, 1),
    Byte(19, 255),
    // A third and an eighth substance, and bytes not named.
    Byte(36, 1),
    Byte(37, 1),
    Byte(137, 1),
    Byte(138, 1),
    Byte(499, 1),
];

const RATES: [Change; 6] = [
    Rates([1_000_000, 1_000_000, 1_000_000, 1_000_000]),
    Rates([1_000_001, 0, 0, 0]),
    Rates([0, 1_000_001, 0, 0]),
    Rates([0, 0, 1_000_001, 0]),
    Rates([0, 0, 0, 1_000_001]),
    Rates([0, 0, 0, 4_294_967_295]),
];

pub(crate) const CHANGED: [Step; 3] = [Title("stages"), Stages(&CHANGES), Stages(&RATES)];

// 6 for a length; 4 before the set-up, or for another stage than the next, whatever the body; and for a post before the last.
pub(crate) const TURNS: [Step; 16] = [
    Describe(0, &STAGE),
    On(Start::SetUp),
    Cut(Kind::Stage, 0, &STAGE, 499),
    Describe(1, &STAGE),
    Describe(0, &STAGE),
    Describe(0, &STAGE),
    Cut(Kind::Stage, 2, &[], 0),
    Post(Opening(0, 1)),
    Reports,
    Describe(1, &STAGE),
    Describe(2, &STAGE),
    Post(Opening(0, 1)),
    Reports,
    Word("closed "),
    On(Start::Closed),
    Describe(2, &STAGE),
];
