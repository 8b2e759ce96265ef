// What the bodies of set-up blocks say without a set-up: kind 1's and kind 2's turns and limits. A writer of journals needs no more.
#![tactic(auto)]

pub mod part;
pub mod setup;
pub mod stage;
