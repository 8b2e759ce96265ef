// A site's book through the library's calls: what each call answers and what the reports show, a line for each.
#![tactic(auto)]

mod blocks;
mod changes;
mod counts;
mod declines;
mod desk;
mod fields;
mod floats;
mod limit;
mod line;
mod orders;
mod patterns;
mod posts;
mod setups;
mod sites;
mod slips;
mod sorting;
mod stages;
mod steps;
mod weighed;
mod xylene;
mod year;

use steps::Step;

// Each begins on a fresh book.
const SECTIONS: [&[&[Step]]; 31] = [
    &[&xylene::YEAR],
    &weighed::LIST,
    &year::ALL,
    &[&sorting::YEAR],
    &declines::TURNS,
    &[&declines::CLOSED],
    &[&declines::LOSSES],
    &[&declines::STORES],
    &[&declines::HOLDINGS],
    &[&declines::UNKNOWN],
    &[&fields::LENGTHS],
    &[&fields::KINDS],
    &[&fields::UNUSED],
    &[&fields::INDICES],
    &[&fields::LIMITS],
    &[&floats::UNUSED],
    &[&floats::FIRST_FORM],
    &[&floats::OTHER_FORMS],
    &[&orders::LAYOUT_FIRST],
    &[&orders::FLOATS_FIRST],
    &[&setups::COUNTS],
    &[&setups::CHANGED],
    &[&setups::TURNS],
    &[&stages::CHANGED],
    &[&stages::TURNS],
    &[&slips::TWO_STAGES],
    &[&slips::SPLIT_ONCE],
    &[&slips::THRESHOLDS],
    &[&limit::REACHED],
    &counts::COUNTED,
    &counts::FULL,
];

fn main(rt: HostRuntime) {
    for section in SECTIONS {
        desk::run(rt.stdout(), section);
    }
}
