// The content of a substance in a material that is counted.
ghost use Rattle.std.specs.Prelude.{◌≡◌};
ghost use Rattle.amounts.specs.Content.{counted_from, counted_of};

use crate::class::Class;
use crate::decline::{Decline, check};

impl Class {
    // In ppm. Another type and other constants than `due_from`'s: one function for both would be longer.
    #[inline(always)]
    fn counted_from(self) -> u32
        ensures { result ≡ counted_from self }
    {
        match self {
            Class::One => 10_000,
            Class::SpecificOne => 1_000,
        }
    }
}

// The content in ppm that counts for a substance of the class, by its number, as a host and a body's bytes have it.
#[tactic(auto, unfolding(crate::specs::Content::counted_of, crate::specs::Decline::checked))]
pub fn counted_content(class: u8, ppm: u32) -> Result<u32, Decline>
    ensures { result ≡ counted_of class ppm }
{
    let class = Class::try_from(class)?;
    check(ppm <= 1_000_000, Decline::Layout)?;
    Ok(if class.counted_from() <= ppm { ppm } else { 0 })
}
