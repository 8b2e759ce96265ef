// Slips of the trade, thresholds, and a loss of nothing.
use crate::blocks::Part::{Content, Counts, Substance, Treated, Ways};
use crate::blocks::{Part, ResiduesTo, Side, WaterTo};
use crate::patterns::ONE;
use crate::posts::Entry::{Bought, Close, Consumed, Formed, Gas, Issued, Shipped, Vapour};
use crate::sites::Start;
use crate::steps::Step;
use crate::steps::Step::{Describe, On, Post, Report, Reports, SetUp, Title};

// One substance in class 1, pure, and no treatment.
const PURE: [Part; 3] = [Counts(1, 2), Substance(0, 80, 1), Content(0, 0, 1_000_000)];

const UNTREATED: [Part; 2] = [
    Ways(WaterTo::Public, ResiduesTo::OffSite),
    Treated(0, Side::Gas, [0; 4]),
];

// 14.4 and 14.4 kg from two stages are filed as 29 kg and not as 28.
pub(crate) const TWO_STAGES: [Step; 13] = [
    Title("14.4 and 14.4 kg"),
    SetUp(1, &PURE),
    Describe(0, &UNTREATED),
    Describe(1, &UNTREATED),
    Post(Bought(0, 2_000_000)),
    Post(Issued(0, 0, 800_000)),
    Post(Issued(0, 1, 800_000)),
    Post(Shipped(0, 0, 1_000_000, 785_600)),
    Post(Consumed(1, 0, 1_000_000, 785_600)),
    Post(Gas(0, 0, 1_000_000, 14_400)),
    Report(0),
    Post(Close),
    Report(0),
];

// The split is made on the year's totals: two posts of 1 microgram at half removed are one removed.
pub(crate) const SPLIT_ONCE: [Step; 9] = [
    Title("2 micrograms in two posts"),
    On(Start::Described),
    Post(Formed(0, 0, 7)),
    Post(Gas(0, 0, 1, 1)),
    Report(0),
    Post(Gas(0, 0, 1, 1)),
    Report(0),
    Post(Close),
    Report(0),
];

// A loss of 0 leaves a holding of 0 and counts as a post. A microgram below the threshold of each class, and at it.
pub(crate) const THRESHOLDS: [Step; 14] = [
    Title("losses of 0"),
    On(Start::Described),
    Post(Vapour(1, 1, 0, [ONE, 0, 0, 0])),
    Post(Vapour(3, 0, 1, [0, 0, 0, 0])),
    Reports,
    Title("thresholds"),
    Post(Formed(0, 0, 999_999_999_999)),
    Post(Formed(1, 1, 499_999_999_999)),
    Reports,
    Post(Formed(1, 0, 1)),
    Post(Formed(0, 1, 1)),
    Reports,
    Post(Close),
    Reports,
];
