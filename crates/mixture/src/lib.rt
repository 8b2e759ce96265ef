// The partial pressure of a mixture's part.
#![tactic(auto)]

pub mod pressure;
