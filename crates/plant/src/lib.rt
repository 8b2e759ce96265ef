// The plant as its set-up blocks describe it: the set-up that the bodies of kinds 1 and 2 make.
#![tactic(auto)]

pub mod part;
pub mod setup;
pub mod stage;
