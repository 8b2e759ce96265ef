// The fate of a substance: what a report shows of it but the store, at a stage and over all stages.
ghost use Rattle.std.specs.Prelude.{◌≡◌, ◌^◌, ◌≤◌, ◌<◌};
ghost use Rattle.amounts.specs.Treatment.{parts_of};
ghost use Rattle.book.specs.Ledger.{cell};
ghost use Rattle.book.specs.Site.{Sound};
ghost use Rattle.report.specs.Fate.{to_sewer, to_public_water, cells_of, fate_from, stage_fate, fate_to, weigh};

use amounts::filed::filed_figure;
use amounts::treatment::{Parts, Rate, split_total};
use book::site::{Book, Year};
use kinds::account::Account;
use plant::setup::Stage;
use std::fmt;

// What is released under the six headings of a return, in micrograms.
#[derive(Clone, Copy, Default)]
pub struct Headings {
    pub air: u64,
    pub water: u64,
    pub soil: u64,
    pub land: u64,
    pub sewer: u64,
    pub offsite: u64,
}

impl Headings {
    ghost use Rattle.std.specs.Prelude.{◌≡◌, ◌+◌, ◌^◌, ◌<◌};
    ghost use Rattle.amounts.specs.Filed.{filed_of};
    ghost use Rattle.report.specs.Fate.{six_of, map_headings};
    ghost use Rattle.report.specs.Steps.{add_headings};

    // Each heading by its filed figure.
    pub(crate) fn filed(self) -> Headings
        ensures { result ≡ map_headings filed_of self }
    {
        Headings {
            air: filed_figure(self.air),
            water: filed_figure(self.water),
            soil: filed_figure(self.soil),
            land: filed_figure(self.land),
            sewer: filed_figure(self.sewer),
            offsite: filed_figure(self.offsite),
        }
    }

    // Heading by heading. It is private and no `Add`: a public operator may ask nothing of its callers, and the sums must fit.
    fn plus(self, other: Headings) -> Headings
        requires { six_of self + six_of other < 2 ^ 64 }
        ensures { result ≡ add_headings self other }
    {
        Headings {
            air: self.air + other.air,
            water: self.water + other.water,
            soil: self.soil + other.soil,
            land: self.land + other.land,
            sewer: self.sewer + other.sewer,
            offsite: self.offsite + other.offsite,
        }
    }
}

// Micrograms in the order of the fields, with a space between two.
impl fmt::Display for Headings {
    ghost use Rattle.std.specs.Prelude.{Some};
    ghost use Rattle.report.specs.Fate.{text_of};

    ghost output = { λ h. Some (text_of h) };

    #[tactic(auto, using(std::proofs::Common::append_assoc))]
    fn fmt<W: fmt::Write>(&self, f: &mut fmt::Formatter<W>) -> fmt::Result {
        let Headings {
            air,
            water,
            soil,
            land,
            sewer,
            offsite,
        } = *self;
        write!(f, "{air} {water} {soil} {land} {sewer} {offsite}")
    }
}

// What a report shows of a substance but the store, in micrograms.
#[derive(Clone, Copy, Default)]
pub struct Fate {
    pub held: u64,
    pub shipped: u64,
    pub consumed: u64,
    pub destroyed: u64,
    pub headings: Headings,
}

impl Fate {
    ghost use Rattle.std.specs.Prelude.{◌≡◌, ◌+◌, ◌^◌, ◌<◌};
    ghost use Rattle.report.specs.Fate.{weigh};
    ghost use Rattle.report.specs.Steps.{add_fates};

    // As of headings.
    fn plus(self, other: Fate) -> Fate
        requires { weigh self + weigh other < 2 ^ 64 }
        ensures { result ≡ add_fates self other }
    {
        Fate {
            held: self.held + other.held,
            shipped: self.shipped + other.shipped,
            consumed: self.consumed + other.consumed,
            destroyed: self.destroyed + other.destroyed,
            headings: self.headings.plus(other.headings),
        }
    }
}

// What a stage's accounts hold of a substance.
#[derive(Clone, Copy)]
struct Cells {
    held: u64,
    shipped: u64,
    off_site: u64,
    landfill: u64,
    soil: u64,
    consumed: u64,
    gas: u64,
    water: u64,
    vapour: u64,
}

// A year's sum under an account, of a stage and a substance. The place is worked out as in `book::ledger`, whose own function asks that it is there and so is private to
// its crate.
#[tactic(auto, using(kinds::proofs::account::Laws::place_few))]
fn cell(year: &Year, account: Account, stage: usize, s: usize) -> u64
    requires { (stage < 8) × (s < 8) }
    ensures { result ≡ cell year.now.sums account stage s }
{
    year.sums[account as usize * 64 + (stage * 8 + s)]
}

fn cells_of(year: &Year, stage: usize, s: usize) -> Cells
    requires { (stage < 8) × (s < 8) }
    ensures { result ≡ cells_of year.now.sums stage s }
{
    Cells {
        held: cell(year, Account::Held, stage, s),
        shipped: cell(year, Account::Shipped, stage, s),
        off_site: cell(year, Account::OffSite, stage, s),
        landfill: cell(year, Account::Landfill, stage, s),
        soil: cell(year, Account::Soil, stage, s),
        consumed: cell(year, Account::Consumed, stage, s),
        gas: cell(year, Account::Gas, stage, s),
        water: cell(year, Account::Water, stage, s),
        vapour: cell(year, Account::Vapour, stage, s),
    }
}

// A split at rates that a set-up has, which is never declined: the one place that tells.
#[tactic(auto, unfolding(amounts::specs::Treatment::split_of, amounts::specs::Decline::checked))]
fn parts_of(total: u64, rate: Rate) -> Parts
    requires { (rate.removal ≤ 1000000) × (rate.destruction ≤ 1000000) }
    ensures { result ≡ parts_of total rate.removal rate.destruction }
{
    split_total(total, rate).unwrap()
}

// An amount goes to the first of two destinations, or to the second, by a flag, as the set-up keeps it.
fn divided(to_first: bool, n: u64) -> (u64, u64)
    ensures first { result.0 ≡ to_sewer to_first n }
    ensures second { result.1 ≡ to_public_water to_first n }
{
    if to_first { (n, 0) } else { (0, n) }
}

// At a stage, with its gas and its waste water as split.
#[tactic(auto, using(crate::proofs::fate::Laws::residue_goes))]
fn fate_from(c: Cells, gas: Parts, water: Parts, sewered: bool, landfilled: bool) -> Fate
    requires { weigh (fate_from c gas water sewered landfilled) < 2 ^ 64 }
    ensures { result ≡ fate_from c gas water sewered landfilled }
{
    let (sewer, public) = divided(sewered, water.released);
    let (landfill, off_site) = divided(landfilled, gas.residue + water.residue);
    Fate {
        held: c.held,
        shipped: c.shipped,
        consumed: c.consumed,
        destroyed: gas.destroyed + water.destroyed,
        headings: Headings {
            air: gas.released + c.vapour,
            water: public,
            soil: c.soil,
            land: c.landfill + landfill,
            sewer,
            offsite: c.off_site + off_site,
        },
    }
}

// The rates of a book's set-up are within the whole, and no heading passes 64 bits, since the book is sound.
fn stage_fate(b: &Book, s: usize, stage: usize) -> Fate
    requires { (stage < 8) × (s < 8) }
    ensures value { result ≡ stage_fate b.now.year.sums b.now.setup s stage }
    ensures sound { Sound b.now }
{
    let setup = b.setup();
    let cells = cells_of(b.year(), stage, s);
    let rates = setup.pairs[stage * 8 + s].rates;
    let Stage {
        to_sewer,
        to_landfill,
    } = setup.stages[stage];
    let gas = parts_of(cells.gas, rates.gas);
    let water = parts_of(cells.water, rates.water);
    fate_from(cells, gas, water, to_sewer, to_landfill)
}

// Over all stages, added up.
#[tactic(auto, using(crate::proofs::fate::Laws::fate_none))]
pub(crate) fn fate_to(b: &Book, s: usize) -> Fate
    requires { s < 8 }
    ensures { result ≡ fate_to b.now.year.sums b.now.setup s 8 }
{
    let mut fate = Fate::default();
    // By place, as the definition adds.
    for stage in 0..8usize {
        fate = fate.plus(stage_fate(b, s, stage));
    }
    fate
}
