// The whole part of a float, worked out from its bits, as document 01 asks of this library.
ghost use Rattle.std.specs.Prelude.{◌≡◌};
ghost use Rattle.losses.specs.Whole.{whole_part};

// x without its fraction: 0 for what is negative and for a NaN, and the largest u64 from 2^64 on.
#[tactic(auto, using(crate::proofs::whole::Laws::by_bits))]
pub fn whole_part(x: f64) -> u64
    ensures { result ≡ whole_part x }
{
    if x >= 0.0 {
        if x < 18446744073709551616.0 {
            // From 1 on, x is digits * 2 ^ (exponent - 1075); below it, all 53 digits go, so that no jump tells the two apart. The sign of -0.0 is left out.
            let bits = f64::to_bits(x);
            let exponent = ((bits >> 52) % 2048) as u32;
            let digits = (bits & 0xf_ffff_ffff_ffff) | 0x10_0000_0000_0000;
            if exponent <= 1075 {
                digits.unbounded_shr(1075 - exponent)
            } else {
                digits << (exponent - 1075)
            }
        } else {
            u64::MAX
        }
    } else {
        0
    }
}
