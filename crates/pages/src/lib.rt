// How far a writer of a journal has come, and what its calls answer by the checks that need no book. None of it needs the bytes.
#![tactic(auto)]

pub mod counter;
pub mod tally;
