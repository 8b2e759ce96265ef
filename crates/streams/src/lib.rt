// What every program does with its input and output: parts and records are read, bytes are written, and a text tells which of the two failed.
#![tactic(auto)]

pub mod input;
pub mod output;
pub mod record;
#[cfg(test)]
mod tests;
pub mod trouble;
pub mod writing;
