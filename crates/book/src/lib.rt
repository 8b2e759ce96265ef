// The book of one site for one year: its set-up, its posts, its blocks and whole journals.
#![tactic(auto)]

pub mod block;
pub mod blocks;
pub mod entry;
pub mod ledger;
pub mod posts;
pub mod site;
