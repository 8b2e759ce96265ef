// The papers' worked losses and figures, and the ends of every range: the library's answers, a line for each case.
#![tactic(auto)]

mod contents;
mod figures;
mod line;
mod mixtures;
mod patterns;
mod readings;
mod splits;
mod thresholds;
mod vapour;

fn main(rt: HostRuntime) {
    let out = rt.stdout();
    vapour::show_all(out);
    mixtures::show_all(out);
    figures::show_all(out);
    splits::show_all(out);
    thresholds::show_all(out);
    contents::show_all(out);
    readings::show_all(out);
}
