// Kind 1: a body that is taken, and each rule of its layout broken alone.
use crate::blocks::Kind;
use crate::changes::Change;
use crate::changes::Change::{Byte, Contents, Numbers};
use crate::sites::{PLANT, Start};
use crate::steps::Step;
use crate::steps::Step::{Cut, On, Reports, SetUp, SetUps, Title, Word};

// The good body as it is, with each count of substances.
pub(crate) const COUNTS: [Step; 7] = [
    Title("set-ups"),
    SetUps(2, &[SAME]),
    SetUps(0, &[SAME]),
    SetUps(1, &[SAME]),
    SetUps(3, &[SAME]),
    SetUps(9, &[SAME]),
    SetUps(255, &[SAME]),
];

// The first byte of the good body as it is.
const SAME: Change = Byte(0, 2);

const CHANGES: [Change; 26] = [
    // Materials: a third and a twelfth without content are taken, and one too few leaves contents in an unused place.
    Byte(0, 0),
    Byte(0, 1),
    Byte(0, 3),
    Byte(0, 12),
    Byte(0, 13),
    // Stages.
    Byte(1, 0),
    Byte(1, 1),
    Byte(1, 8),
    Byte(1, 9),
    // Unused numbers.
    Byte(6, 1),
    Byte(17, 1),
    // Classes, and unused ones.
    Byte(18, 0),
    Byte(18, 2),
    Byte(18, 3),
    Byte(19, 0),
    Byte(19, 1),
    Byte(19, 255),
    Byte(20, 1),
    Byte(25, 2),
    // A ppm more in the first material, which is full.
    Byte(26, 129),
    // A third and an eighth substance, a third and a twelfth material.
    Byte(66, 1),
    Byte(86, 1),
    Byte(90, 1),
    Byte(409, 1),
    // Bytes not named.
    Byte(410, 1),
    Byte(499, 1),
];

const PAIRS: [Change; 13] = [
    Numbers(1, 2),
    Numbers(0, 81),
    Numbers(81, 81),
    Numbers(82, 81),
    // The lower byte rises and the number falls; and the other way.
    Numbers(256, 255),
    Numbers(255, 256),
    Numbers(65_534, 65_535),
    Contents(0, 0),
    Contents(1_000_000, 0),
    Contents(1_000_000, 1),
    Contents(1_000_001, 0),
    // Sums past 32 bits.
    Contents(4_294_967_295, 1),
    Contents(2_147_483_648, 2_147_483_648),
];

pub(crate) const CHANGED: [Step; 2] = [SetUps(2, &CHANGES), SetUps(2, &PAIRS)];

// 6 for a length; 4 once set up, whatever the body, and on a closed book.
pub(crate) const TURNS: [Step; 12] = [
    Cut(Kind::SetUp, 2, &PLANT, 499),
    Cut(Kind::SetUp, 2, &[], 501),
    Reports,
    SetUp(2, &PLANT),
    Reports,
    SetUp(2, &PLANT),
    Cut(Kind::SetUp, 9, &[], 0),
    Reports,
    Word("closed "),
    On(Start::Closed),
    SetUp(2, &PLANT),
    Reports,
];
