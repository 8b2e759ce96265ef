// A list of posts, refused ones among them, worked from the posts. Two substances, 300 in class 1 and 400 in class 2; two materials; two stages.
// All in kg; what a material holds below 10,000 ppm of 300 or 1,000 ppm of 400 does not count.
//
//   300: opening 200, bought 800, issued 600 and 200, so 200 + 800 - 800 = 200 stay in store; formed 300; handled 800 + 300 = 1,100, due from 1,000.
//     First stage: came 600 + 300; left 200 shipped, 5 off site, 95 consumed, 50 to gas, 50 vapour; 900 - 400 = 500 remain, and close to gas.
//       Gas 50 + 500 = 550: removed a half, 275; released 275; destroyed a quarter of the removed, 68.75; residue 206.25, off site.
//     Second: came 200; left 5 to landfill, 0.01 to soil, 10 to waste water; 200 - 15.01 = 184.99 remain, and close to waste water.
//       Waste water 10 + 184.99 = 194.99: removed two fifths, 77.996; released 116.994, to the sewer; destroyed half of the removed, 38.998; residue 38.998, to landfill.
//     Air 275 + 50 = 325, soil 0.01, landfill 5 + 38.998 = 43.998, sewer 116.994, off site 5 + 206.25 = 211.25; shipped 200, consumed 95, destroyed 68.75 + 38.998 = 107.748.
//     They add up to 1,100; filed 330, 0.0, 44, 120 and 210.
//   400: bought 1,000, issued 750, so 250 stay in store; handled 750, due from 500.
//     Second stage: came 750; left 150 to gas, 400 shipped; 200 remain, and close to gas.
//       Gas 150 + 200 = 350: removed nine tenths, 315, none destroyed; released 35, to air; residue 315, to landfill.
//     They add up to 750 with the 400 shipped; filed 35 and 320.
use crate::blocks::Part::{Content, Counts, Substance, Treated, Ways};
use crate::blocks::{Part, ResiduesTo, Side, WaterTo};
use crate::patterns::{HALF, HUNDRED};
use crate::posts::Entry::{
    Bought, Close, Consumed, Formed, Gas, Issued, Landfill, OffSite, Opening, Shipped, Soil,
    Vapour, Water,
};
use crate::steps::Step;
use crate::steps::Step::{Describe, Post, Reports, SetUp, Title};

const PLANT: [Part; 7] = [
    Counts(2, 2),
    Substance(0, 300, 1),
    Substance(1, 400, 2),
    Content(0, 0, 200_000),
    Content(0, 1, 999),
    Content(1, 0, 9_999),
    Content(1, 1, 500_000),
];

const FIRST: [Part; 3] = [
    Ways(WaterTo::Public, ResiduesTo::OffSite),
    Treated(0, Side::Gas, [500_000, 250_000, 200_000, 0]),
    Treated(1, Side::WasteWater, [0, 0, 750_000, 500_000]),
];

const SECOND: [Part; 3] = [
    Ways(WaterTo::Sewer, ResiduesTo::Landfill),
    Treated(0, Side::WasteWater, [100_000, 1_000_000, 400_000, 500_000]),
    Treated(1, Side::Gas, [900_000, 0, 0, 0]),
];

const OPENED: [Step; 4] = [
    Title("a list worked from its posts"),
    SetUp(2, &PLANT),
    Describe(0, &FIRST),
    Describe(1, &SECOND),
];

// The second issue of the first material to the first stage is more than is there.
const RECEIVED: [Step; 8] = [
    Post(Opening(0, 1_000_000)),
    Post(Bought(0, 4_000_000)),
    Post(Bought(1, 2_000_000)),
    Post(Issued(0, 0, 3_000_000)),
    Post(Issued(0, 1, 1_000_000)),
    Post(Issued(0, 0, 2_000_000)),
    Post(Issued(1, 1, 1_500_000)),
    Post(Formed(0, 0, 300_000_000_000)),
];

// The second post to gas states no content.
const MOVED: [Step; 11] = [
    Post(Shipped(0, 0, 200_000, 1_000_000)),
    Post(OffSite(0, 0, 50_000, 100_000)),
    Post(Landfill(1, 0, 100_000, 50_000)),
    Post(Soil(1, 0, 10_000, 1_000)),
    Post(Consumed(0, 0, 95_000, 1_000_000)),
    Post(Gas(0, 0, 100_000, 500_000)),
    Post(Gas(0, 0, 0, 500_000)),
    Post(Water(1, 0, 50_000, 200_000)),
    Post(Vapour(3, 0, 0, [HUNDRED, HALF, 0, 0])),
    Post(Gas(1, 1, 500_000, 300_000)),
    Post(Shipped(1, 1, 400_000, 1_000_000)),
];

// What is bought after the close is refused.
const ENDED: [Step; 5] = [Reports, Post(Close), Reports, Post(Bought(0, 1)), Reports];

pub(crate) const LIST: [&[Step]; 4] = [&OPENED, &RECEIVED, &MOVED, &ENDED];
