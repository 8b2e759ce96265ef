// The paper's year of xylene, worked from its posts, in kg of xylene (g times 450,000 ppm):
//   opening 225, bought 1,125, issued 1,215, so 225 + 1,125 - 1,215 = 135 stay in store;
//   handled: issued 1,215 and nothing formed, which is due in class 1 from 1,000;
//   shipped 990, so the stage holds 1,215 - 990 = 225 until the close moves them to gas, its side;
//   with all rates 0 the 225 are released to air, and filed as 230, the step being 10.
use crate::blocks::Part::{Content, Counts, Substance, Treated, Ways};
use crate::blocks::{Part, ResiduesTo, Side, WaterTo};
use crate::posts::Entry::{Bought, Close, Issued, Opening, Shipped};
use crate::steps::Step;
use crate::steps::Step::{Describe, Post, Report, SetUp, Title};

const PLANT: [Part; 3] = [Counts(1, 1), Substance(0, 80, 1), Content(0, 0, 450_000)];

const STAGE: [Part; 2] = [
    Ways(WaterTo::Public, ResiduesTo::OffSite),
    Treated(0, Side::Gas, [0; 4]),
];

pub(crate) const YEAR: [Step; 11] = [
    Title("xylene"),
    SetUp(1, &PLANT),
    Describe(0, &STAGE),
    Report(0),
    Post(Opening(0, 500_000)),
    Post(Bought(0, 2_500_000)),
    Post(Issued(0, 0, 2_700_000)),
    Post(Shipped(0, 0, 450_000, 2_200_000)),
    Report(0),
    Post(Close),
    Report(0),
];
