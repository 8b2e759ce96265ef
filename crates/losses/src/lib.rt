// Vapour losses, with the coefficient rows and the whole numbers that they are worked out from.
#![tactic(auto)]

pub mod coefficient;
pub mod loss;
pub mod whole;
