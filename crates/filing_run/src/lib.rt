// What the program `filing` does, over any reader and writer.
#![tactic(auto)]

pub mod run;
