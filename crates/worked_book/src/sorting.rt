// A sorting site that buys nothing, worked from its drums. Two substances, 80 in class 1, due from 1,000 kg, and 400 in class 2, due from 500;
// a material that holds neither; two stages, the residues of the first going to landfill. All in micrograms, grams times content as stated:
//
//   80: found 2,000,000 × 450,000 = 900,000,000,000 at the first stage and 4,619,151 × 21,649 = 99,999,999,999 at the second, a microgram below
//     1,000 kg: not due. A drum of 1 g at 1 ppm, far below the content from which a material's counts, brings the microgram: due, and filed as
//     1,000 kg off site, the step being 100.
//   400: found 500,000 × 999,999 = 499,999,500,000 and 499,999 × 1, which makes 499,999,999,999, a microgram below 500 kg: not due.
//   Nothing is held before or after, so that the close moves nothing.
use crate::blocks::Part::{Counts, Substance, Treated, Ways};
use crate::blocks::{Part, ResiduesTo, Side, WaterTo};
use crate::posts::Entry::{Close, Found};
use crate::steps::Step;
use crate::steps::Step::{Describe, Post, Reports, SetUp, Title};

const PLANT: [Part; 3] = [Counts(1, 2), Substance(0, 80, 1), Substance(1, 400, 2)];

const FIRST: [Part; 3] = [
    Ways(WaterTo::Public, ResiduesTo::Landfill),
    Treated(0, Side::Gas, [0; 4]),
    Treated(1, Side::Gas, [0; 4]),
];

const SECOND: [Part; 3] = [
    Ways(WaterTo::Sewer, ResiduesTo::OffSite),
    Treated(0, Side::WasteWater, [0; 4]),
    Treated(1, Side::WasteWater, [0; 4]),
];

pub(crate) const YEAR: [Step; 14] = [
    Title("a sorting site"),
    SetUp(2, &PLANT),
    Describe(0, &FIRST),
    Describe(1, &SECOND),
    Post(Found(0, 0, 450_000, 2_000_000)),
    Post(Found(1, 0, 21_649, 4_619_151)),
    Post(Found(0, 1, 999_999, 500_000)),
    Post(Found(1, 1, 1, 499_999)),
    Reports,
    Post(Found(1, 0, 1, 1)),
    Reports,
    Post(Close),
    Post(Found(1, 1, 1, 1)),
    Reports,
];
