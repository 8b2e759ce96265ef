// The writer of journals, a set-up block or a post at a time into a lent buffer.
#![tactic(auto)]

pub mod draft;
pub mod writer;
