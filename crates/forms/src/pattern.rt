// Floats from bit patterns that nobody vouches for.
ghost use Rattle.std.specs.Prelude.{◌≡◌};
ghost use Rattle.forms.specs.Binary64.{value_of};
ghost use Rattle.forms.specs.Pattern.{◌to◌, in_range, reading_of};

use amounts::decline::{Decline, check};

// Both ends belong to a range. It is no `RangeInclusive`, which isn't `Copy`: the constants would be cloned for each reading.
#[derive(Clone, Copy, Debug, PartialEq)]
pub struct Range {
    pub low: f64,
    pub high: f64,
}

// The value of a pattern that is finite and in the range.
#[tactic(auto, using(crate::proofs::pattern::Laws::finiteness), unfolding(crate::specs::Pattern::in_range, crate::specs::Pattern::reading_of, amounts::specs::Decline::checked))]
pub fn read_float(bits: u64, range: Range) -> Result<f64, Decline>
    ensures { result ≡ reading_of range (value_of bits) }
{
    // Without its sign, a pattern from 0x7ff0_0000_0000_0000 on is an infinity's or a NaN's.
    check(
        bits % 0x8000_0000_0000_0000 < 0x7ff0_0000_0000_0000,
        Decline::OutOfRange,
    )?;
    let x = f64::from_bits(bits);
    check(range.low <= x && x <= range.high, Decline::OutOfRange)?;
    Ok(x)
}

// Whether a float is zero, of either sign, by its bits, as most posts are asked for four: "an unused float has zero as its whole range".
#[tactic(auto, using(crate::proofs::pattern::Laws::zero_pattern))]
pub fn is_zero(bits: u64) -> bool
    ensures { result ≡ in_range (0 to 0) (value_of bits) }
{
    bits % 0x8000_0000_0000_0000 == 0
}
