// Declines 4, 5, 8, 9, 11 and 12, with the reports before and after.
use crate::patterns::{BILLION, HALF, ONE};
use crate::posts::Entry::{
    Close, Consumed, Formed, Gas, Issued, Landfill, OffSite, Opening, Shipped, Soil, Vapour, Water,
};
use crate::sites;
use crate::sites::Start;
use crate::steps::Step;
use crate::steps::Step::{Bytes, Describe, On, Post, Report, Reports, Title};

// 4: a post, the close or no bytes before the last stage is described.
const TRIED_EARLY: [Step; 5] = [
    Reports,
    Post(Opening(0, 1)),
    Post(Close),
    Bytes(&[]),
    Reports,
];

pub(crate) const TURNS: [&[Step]; 6] = [
    &[Title("a fresh book")],
    &TRIED_EARLY,
    &[Title("a book with no stage described"), On(Start::SetUp)],
    &TRIED_EARLY,
    &[
        Title("a book with one of two stages described"),
        On(Start::SetUp),
        Describe(0, &sites::STAGE),
    ],
    &TRIED_EARLY,
];

// 5: a good post, a second close, no bytes, and a post that breaks every rule.
pub(crate) const CLOSED: [Step; 8] = [
    Title("a closed book"),
    On(Start::Closed),
    Reports,
    Post(Opening(0, 1)),
    Post(Close),
    Bytes(&[]),
    Bytes(&[255; 48]),
    Reports,
];

// 8: forms 1 and 2 of 81, where the loss is 0 too; form 3 needs no row. 9: the floats above 2,000,000 kg, which 2,000,000 kg are not.
pub(crate) const LOSSES: [Step; 15] = [
    Title("no coefficient row"),
    On(Start::Standing),
    Post(Formed(1, 0, 2_000_000_000_000_000)),
    Reports,
    Post(Vapour(1, 0, 1, [ONE, 0, 0, 0])),
    Post(Vapour(2, 0, 1, [0, 0, ONE, 0])),
    Reports,
    Post(Vapour(3, 0, 1, [ONE, ONE, 0, 0])),
    Reports,
    Title("losses over 2,000,000 kg"),
    Post(Vapour(3, 1, 0, [0x413e848000000001, ONE, 0, 0])),
    Post(Vapour(3, 1, 0, [BILLION, ONE, ONE, ONE])),
    Reports,
    Post(Vapour(3, 1, 0, [0x413e848000000000, ONE, 0, 0])),
    Reports,
];

// 11: a gram more than the store holds, or a store that holds nothing. All of it may leave.
pub(crate) const STORES: [Step; 10] = [
    Title("a store holds less"),
    On(Start::Standing),
    Reports,
    Post(Issued(0, 0, 601)),
    Post(Issued(1, 0, 1)),
    Post(Issued(0, 1, 2_000_000_000)),
    Reports,
    Post(Issued(0, 1, 600)),
    Post(Issued(0, 1, 1)),
    Reports,
];

// 11: each kind that takes from a holding, of which there are 160 g. All of it may leave.
pub(crate) const HOLDINGS: [Step; 15] = [
    Title("a holding is less"),
    On(Start::Standing),
    Reports,
    Post(Shipped(0, 0, 1_000_000, 161)),
    Post(OffSite(0, 0, 160_001, 1_000)),
    Post(Landfill(0, 0, 1, 160_000_001)),
    Post(Soil(1, 0, 1, 1)),
    Post(Consumed(1, 1, 1_000_000, 2_000_000_000)),
    Post(Gas(0, 0, 1_000_000, 161)),
    Post(Water(0, 1, 1_000_000, 500_241)),
    // 0.5 kg.
    Post(Vapour(3, 0, 0, [ONE, HALF, 0, 0])),
    Reports,
    Post(Shipped(0, 0, 160_000, 1_000)),
    Post(Shipped(0, 0, 1, 1)),
    Reports,
];

// 12: a place at the count of substances or above.
pub(crate) const UNKNOWN: [Step; 8] = [
    Title("substances that the book hasn't"),
    Report(0),
    On(Start::Standing),
    Report(1),
    Report(2),
    Report(8),
    Report(256),
    Report(18_446_744_073_709_551_615),
];
