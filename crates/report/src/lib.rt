// The report of a substance, read from a book.
#![tactic(auto)]

pub mod fate;
pub mod report;
