// A post's fields as its bytes have them, the kinds of posts as a table of rows, and the accounts that these name.
#![tactic(auto)]

pub mod account;
pub mod fields;
pub mod kind;
