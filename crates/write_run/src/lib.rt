// What the program `write` does, over any reader and writers.
#![tactic(auto)]

pub mod run;
