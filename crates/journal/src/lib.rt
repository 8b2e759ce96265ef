// Journals: what they print, read part by part or whole.
#![tactic(auto)]

pub mod reading;
