// What a treatment makes of a gas or waste-water total.
ghost use Rattle.std.specs.Prelude.{◌≡◌, ◌≤◌};
ghost use Rattle.amounts.specs.Treatment.{share_of, split_of};

use crate::decline::{Decline, check};

// In micrograms.
#[derive(Clone, Copy, Debug, PartialEq, Eq)]
pub struct Parts {
    pub released: u64,
    pub destroyed: u64,
    pub residue: u64,
}

// A removal, and the destruction of what is removed, in ppm.
#[derive(Clone, Copy, Debug, Default, PartialEq, Eq)]
pub struct Rate {
    pub removal: u32,
    pub destruction: u32,
}

impl Rate {
    ghost use Rattle.std.specs.Prelude.{◌≡◌};
    ghost use Rattle.amounts.specs.Treatment.{is_rate};

    // Whether neither exceeds the whole.
    pub fn is_valid(self) -> bool
        ensures { result ≡ is_rate self }
    {
        self.removal <= 1_000_000 && self.destruction <= 1_000_000
    }
}

// The millions of the amount and what is left are taken apart, so that no product passes 64 bits.
fn share(amount: u64, rate: u64) -> u64
    requires { rate ≤ 1000000 }
    ensures { result ≡ share_of amount rate }
{
    (amount / 1_000_000) * rate + (amount % 1_000_000) * rate / 1_000_000
}

// The parts of a total in micrograms.
#[tactic(auto, using(crate::proofs::treatment::Laws::share_le), unfolding(crate::specs::Treatment::split_of, crate::specs::Decline::checked))]
pub fn split_total(total: u64, rate: Rate) -> Result<Parts, Decline>
    ensures { result ≡ split_of total rate.removal rate.destruction }
{
    check(rate.is_valid(), Decline::Layout)?;
    let removed = share(total, u64::from(rate.removal));
    let destroyed = share(removed, u64::from(rate.destruction));
    Ok(Parts {
        released: total - removed,
        destroyed,
        residue: removed - destroyed,
    })
}
