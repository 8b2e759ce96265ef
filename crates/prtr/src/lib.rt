// For programs in other languages: numbers and lent bytes in, document 01's number or the length of a text out.
#![tactic(auto)]

pub mod filing;
pub mod leaf;
pub mod write;
