// The three forms of a vapour loss, and the floats from bit patterns that are their inputs.
#![tactic(auto)]

pub mod form;
pub mod pattern;
