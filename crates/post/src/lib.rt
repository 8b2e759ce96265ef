// What a post does, read from its bytes, and whether it is admitted.
#![tactic(auto)]

pub mod admission;
pub mod moves;
