// The report of a substance.
ghost use Rattle.std.specs.Prelude.{◌≡◌, ◌^◌, ◌<◌};
ghost use Rattle.book.specs.Site.{stored_to};
ghost use Rattle.report.specs.Report.{filing_of, report_at, report_of};

use crate::fate::{Fate, Headings, fate_to};
use amounts::decline::{Decline, check};
use amounts::threshold::is_due;
use book::site::Book;

// Amounts are in micrograms. That a substance is due stands beside its filed figures, which only such a one has, since a report says both; read off the figures, it
// would be no plainer.
#[derive(Clone, Copy)]
pub struct Report {
    pub posts: u32,
    pub number: u16,
    pub handled: u64,
    pub due: bool,
    pub store: u64,
    pub fate: Fate,
    pub filed: Option<Headings>,
}

// The store of a substance, by the counted contents.
fn stored_of(store: &[u64; 12], counted: &[u32; 96], s: usize) -> u64
    requires { (s < 8) × (stored_to store.now counted.now s 12 < 2 ^ 64) }
    ensures { result ≡ stored_to store.now counted.now s 12 }
{
    let mut sum = 0;
    // By place, as the definition adds: two lists are reached by it.
    for m in 0..12usize {
        sum += store[m] * u64::from(counted[m * 8 + s]);
    }
    sum
}

fn filing_of(due: bool, headings: Headings) -> Option<Headings>
    ensures { result ≡ filing_of due headings }
{
    if due { Some(headings.filed()) } else { None }
}

// The report of a substance that the book has.
#[tactic(auto, using(crate::proofs::report::Laws::stored_fits))]
fn report_at(b: &Book, place: usize) -> Report
    requires { place < b.now.setup.outline.substances }
    ensures { result ≡ report_at b.now place }
{
    let setup = b.setup();
    let year = b.year();
    let handled = year.handled[place];
    // A class that is none is never due.
    let due = is_due(setup.classes[place], handled).unwrap_or(false);
    let fate = fate_to(b, place);
    Report {
        posts: year.posts,
        number: setup.numbers[place],
        handled,
        due,
        store: stored_of(&year.store, &setup.counted, place),
        fate,
        filed: filing_of(due, fate.headings),
    }
}

// The report of the substance at a place, from 0.
#[tactic(auto, unfolding(crate::specs::Report::report_of, amounts::specs::Decline::checked))]
pub fn report_of(b: &Book, place: usize) -> Result<Report, Decline>
    ensures { result ≡ report_of b.now place }
{
    check(
        place < usize::from(b.setup().outline.substances),
        Decline::NoSubstance,
    )?;
    Ok(report_at(b, place))
}
