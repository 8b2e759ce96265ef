// The text of the return, in ASCII, and its copy in a buffer that the caller lends.
#![tactic(auto)]

pub mod line;
pub mod number;
pub mod print;
pub mod writing;
