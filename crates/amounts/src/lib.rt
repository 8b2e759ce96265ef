// Amounts: counted contents, thresholds, treatment, filed figures and the declines.
#![tactic(auto)]

pub mod class;
pub mod content;
pub mod decline;
pub mod filed;
pub mod threshold;
pub mod treatment;
