// The stock takers' sheet: what was counted against a book.
#![tactic(auto)]

pub mod sheet;
