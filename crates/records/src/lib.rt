// Journals from a list of records in memory: each record a call of a writer.
#![tactic(auto)]

pub mod batch;
pub mod call;
pub mod record;
pub mod recorder;
pub mod refusal;
