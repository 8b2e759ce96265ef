// The stock takers' sheet, worked from the posts, in g. The book has two materials:
//   the first has 3,000 opened, 2,500 bought and 1,200 issued, so that 3,000 + 2,500 - 1,200 = 4,300 are in store, and the second nothing;
//   of the first 4,300 are as many, 4,301 one more, 4,299 one less, and 0 are 4,300 less; 8×10^12 are 7,999,999,995,700 more;
//   of the second 0 are as many and 8×10^12 all more. A gram above that, 2^64 - 1 and a third material are declined by 14;
//   a full book: 4,000 posts of 2,000,000,000 bought of the second are 8×10^12 in store, of which 0 counted are all less.
use crate::posts::Entry::{Bought, Close, Issued, Opening};
use crate::sites::Start;
use crate::steps::Step;
use crate::steps::Step::{On, Post, Reports, Stock, Title};

const MOST: u64 = 8_000_000_000_000;

// Each material that a book may have and one past them, of which nothing is counted.
const NONE_COUNTED: [Step; 5] = [
    Stock(0, 0),
    Stock(1, 0),
    Stock(2, 0),
    Stock(11, 0),
    Stock(12, 0),
];

// The second material, up to the most that is compared and past it.
const SECOND: [Step; 6] = [
    Stock(1, 0),
    Stock(1, 1),
    Stock(1, MOST - 1),
    Stock(1, MOST),
    Stock(1, MOST + 1),
    Stock(1, 18_446_744_073_709_551_615),
];

const FIRST: [Step; 6] = [
    Stock(0, 4_300),
    Stock(0, 4_301),
    Stock(0, 4_299),
    Stock(0, 0),
    Stock(0, MOST),
    Stock(0, MOST + 1),
];

const STORED: [Step; 6] = [
    Title("counts against a store"),
    On(Start::Described),
    Post(Opening(0, 3_000)),
    Post(Bought(0, 2_500)),
    Post(Issued(0, 1, 1_200)),
    Reports,
];

// Before and after the kind 1 block, with posts, and closed. The book isn't altered: the reports are as before the counts.
pub(crate) const COUNTED: [&[Step]; 9] = [
    &[Title("counts on a fresh book")],
    &NONE_COUNTED,
    &[
        Title("counts on a book with no stage described"),
        On(Start::SetUp),
    ],
    &NONE_COUNTED,
    &STORED,
    &FIRST,
    &SECOND,
    &[Stock(2, 0), Reports, Post(Close)],
    &FIRST,
];

// 4,000 posts, and the close past them.
pub(crate) const FULL: [&[Step]; 5] = [
    &[Title("counts on a full book"), On(Start::Full), Reports],
    &SECOND,
    &[Post(Close)],
    &SECOND,
    &[Stock(0, MOST)],
];
