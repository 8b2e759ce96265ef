// Whether a substance is due to be filed.
ghost use Rattle.std.specs.Prelude.{◌≡◌};
ghost use Rattle.amounts.specs.Threshold.{due_from, due_of};

use crate::class::Class;
use crate::decline::Decline;

impl Class {
    // In micrograms.
    #[inline(always)]
    fn due_from(self) -> u64
        ensures { result ≡ due_from self }
    {
        match self {
            Class::One => 1_000_000_000_000,
            Class::SpecificOne => 500_000_000_000,
        }
    }
}

// Whether a substance of the class, by its number, as a host and a set-up have it, is due at an amount handled, in micrograms.
#[tactic(auto, unfolding(crate::specs::Threshold::due_of))]
pub fn is_due(class: u8, handled: u64) -> Result<bool, Decline>
    ensures { result ≡ due_of class handled }
{
    Ok(Class::try_from(class)?.due_from() <= handled)
}
