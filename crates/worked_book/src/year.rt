// A year of three substances (80 and 300 in class 1, 400 in class 2), three materials and two stages.
use crate::blocks::Part::{Content, Counts, Substance, Treated, Ways};
use crate::blocks::{Part, ResiduesTo, Side, WaterTo};
use crate::patterns::ONE;
use crate::posts::Entry::{
    Bought, Close, Consumed, Formed, Gas, Issued, Landfill, OffSite, Opening, Shipped, Soil,
    Vapour, Water,
};
use crate::steps::Step;
use crate::steps::Step::{Describe, Post, Report, Reports, SetUp, Title};

const VOLUME: u64 = 0x409f400000000000;

const PARTIAL: u64 = 0x4094c80000000000;

const TANK: u64 = 0x40f7f34000000000;

const DIAMETER: u64 = 0x402c000000000000;

const PERCENT: u64 = 0x4023cccccccccccd;

const DRAWN: u64 = 0x4097700000000000;

const RECEIVED: u64 = 0x4062c00000000000;

const FILLING: u64 = 0x3f6606317268d328;

const DISPENSED: u64 = 0x4061c00000000000;

const FUELING: u64 = 0x3f6bbc1e28dff31a;

// The first material's 9,999 ppm of 300 and 999 ppm of 400 do not count; the third holds nothing.
const PLANT: [Part; 10] = [
    Counts(3, 2),
    Substance(0, 80, 1),
    Substance(1, 300, 1),
    Substance(2, 400, 2),
    Content(0, 0, 450_000),
    Content(0, 1, 9_999),
    Content(0, 2, 999),
    Content(1, 0, 10_000),
    Content(1, 1, 500_000),
    Content(1, 2, 1_000),
];

const FIRST_STAGE: [Part; 4] = [
    Ways(WaterTo::Public, ResiduesTo::OffSite),
    Treated(0, Side::Gas, [900_000, 400_000, 500_000, 250_000]),
    Treated(1, Side::WasteWater, [333_333, 666_667, 800_000, 0]),
    Treated(2, Side::Gas, [999_999, 999_999, 1_000_000, 500_000]),
];

const SECOND_STAGE: [Part; 4] = [
    Ways(WaterTo::Sewer, ResiduesTo::Landfill),
    Treated(0, Side::WasteWater, [123_456, 654_321, 700_000, 300_000]),
    Treated(1, Side::Gas, [1_000_000, 1_000_000, 1, 1]),
    Treated(2, Side::WasteWater, [0, 1_000_000, 500_000, 500_000]),
];

const OPENED: [Step; 6] = [
    Title("a year"),
    SetUp(3, &PLANT),
    Describe(0, &FIRST_STAGE),
    Describe(1, &SECOND_STAGE),
    Reports,
    Report(2),
];

// Kinds 1 to 4: into the stores, from them to the stages, and what is formed there.
const STORED: [Step; 15] = [
    Post(Opening(0, 3_000_000)),
    Post(Bought(0, 2_000_000)),
    Post(Bought(1, 4_000_001)),
    Post(Bought(2, 500)),
    Post(Issued(0, 0, 2_500_000)),
    Post(Issued(0, 1, 1_200_003)),
    Post(Issued(1, 0, 1_500_007)),
    Post(Issued(1, 1, 2_000_000)),
    Post(Issued(2, 0, 100)),
    // An opening may come at any time.
    Post(Opening(1, 1_000_000)),
    Reports,
    Report(2),
    Post(Formed(0, 2, 700_000_000_000)),
    Post(Formed(1, 2, 1)),
    Post(Formed(1, 0, 123_456_789_012)),
];

// Kinds 5 to 9. The 5 ppm of 300 and the 999 ppm of 400 are taken as stated.
const MOVED: [Step; 10] = [
    Post(Shipped(0, 0, 450_000, 1_000_000)),
    Post(OffSite(0, 1, 5, 100_003)),
    Post(OffSite(1, 0, 123_457, 10_001)),
    Post(Landfill(1, 0, 1_000_000, 33_333)),
    Post(Landfill(0, 1, 20_000, 77_777)),
    Post(Soil(1, 1, 9_999, 54_321)),
    Post(Soil(0, 0, 1, 1)),
    Post(Consumed(0, 2, 999, 300_000_001)),
    Reports,
    Report(2),
];

// Kinds 10 to 12. 80 leaves the first stage by vapour beside its gas: 2,000 m³ at 1,330 of 98,100 Pa. 300 goes through a floating
// roof of 14 m, 9.9 % of 1,500 kL. 400 leaves a station that received 150 kL and dispensed 142.
const EMITTED: [Step; 11] = [
    Post(Gas(0, 0, 450_001, 200_003)),
    Post(Gas(1, 0, 333_333, 99_999)),
    Post(Gas(0, 1, 71, 1_000_003)),
    Post(Gas(1, 2, 7, 142)),
    Post(Water(0, 0, 12_345, 67_891)),
    Post(Water(1, 0, 98_765, 432_101)),
    Post(Water(1, 1, 250_000, 2_000_001)),
    Post(Water(0, 2, 30, 70_001)),
    Post(Vapour(2, 0, 0, [VOLUME, PARTIAL, TANK, ONE])),
    Post(Vapour(1, 0, 1, [DIAMETER, PERCENT, DRAWN, 0])),
    Post(Vapour(3, 1, 2, [RECEIVED, FILLING, DISPENSED, FUELING])),
];

const ENDED: [Step; 6] = [
    Reports,
    Report(2),
    Post(Close),
    Reports,
    Report(2),
    Report(3),
];

pub(crate) const ALL: [&[Step]; 5] = [&OPENED, &STORED, &MOVED, &EMITTED, &ENDED];
