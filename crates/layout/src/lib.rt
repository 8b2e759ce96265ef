// What a block's frame and a block of posts say, their turns and limits, without a book.
#![tactic(auto)]

pub mod frame;
pub mod holds;
pub mod outline;
pub mod posts;
