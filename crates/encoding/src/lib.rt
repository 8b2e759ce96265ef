// Numbers, zero runs and parts in bytes of any length.
#![tactic(auto)]

pub mod bytes;
