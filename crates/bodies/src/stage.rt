// Kind 2: what a body says of a stage's destinations and of each substance's side and rates without a set-up, its turn and its limits.
ghost use Rattle.std.specs.Prelude.{◌≡◌, false, ◌&&◌, ◌+◌, ◌*◌, drop};
ghost use Rattle.amounts.specs.Decline.{is_taken, checked, passes, value_or};
ghost use Rattle.encoding.specs.Bytes.{all_zero};
ghost use Rattle.bodies.specs.Stage.{second_of, water_in, residue_in, rates_at, pair_fits, all_pairs_fit, stage_limits, stage_checks};

use amounts::decline::{Decline, check};
use amounts::treatment::Rate;
use encoding::bytes;
use layout::outline::Outline;

// Of the gas and of the waste water.
#[derive(Clone, Copy, Default)]
pub struct Rates {
    pub gas: Rate,
    pub water: Rate,
}

// Whether a byte names one of two cases, 1 and 2: one reading for three fields, which an enum for each would do three times.
#[tactic(auto, unfolding(crate::specs::Stage::second_of))]
fn is_named(byte: u8) -> bool
    ensures { result ≡ is_taken (second_of byte) }
{
    byte == 1 || byte == 2
}

// Which of the two, where a byte that names neither counts as the first.
#[tactic(auto, unfolding(crate::specs::Stage::second_of))]
pub fn is_second(byte: u8) -> bool
    ensures { result ≡ value_or false (second_of byte) }
{
    byte == 2
}

// The rates of the row that stands from a place on, behind its side.
#[tactic(auto, unfolding(crate::specs::Stage::rates_at))]
pub fn rates_at(s: &[u8], at: usize) -> Rates
    ensures { result ≡ rates_at (drop at s.now) }
{
    let row = bytes::tail(s, at);
    Rates {
        gas: Rate {
            removal: bytes::le32(row, 1),
            destruction: bytes::le32(row, 5),
        },
        water: Rate {
            removal: bytes::le32(row, 9),
            destruction: bytes::le32(row, 13),
        },
    }
}

fn pair_fits(side: u8, r: Rates) -> bool
    ensures { result ≡ pair_fits (second_of side) r }
{
    is_named(side) && r.gas.is_valid() && r.water.is_valid()
}

fn all_pairs_fit(s: &[u8], n: u8) -> bool
    ensures { result ≡ all_pairs_fit n s.now }
{
    (0..usize::from(n)).all(|i| pair_fits(bytes::byte_at(s, i * 17), rates_at(s, i * 17)))
}

// Whether a body's first two bytes name where the stage's water and its residues go.
fn head_fits(body: &[u8]) -> bool
    ensures { result ≡ (is_taken (water_in body.now) && is_taken (residue_in body.now)) }
{
    is_named(bytes::byte_at(body, 0)) && is_named(bytes::byte_at(body, 1))
}

// Whether a body's pairs fit, and the bytes behind them are zero.
fn rest_fits(substances: u8, body: &[u8]) -> bool
    ensures { result ≡ (all_pairs_fit substances (drop 2 body.now) && all_zero (drop (2 + substances * 17) body.now)) }
{
    all_pairs_fit(bytes::tail(body, 2), substances)
        && bytes::zero_from(body, 2 + usize::from(substances) * 17)
}

// Whether a body is within its limits. One that isn't breaks the layout.
fn is_within_limits(o: Outline, body: &[u8]) -> bool
    ensures { result ≡ passes (stage_limits o body.now) }
{
    body.len() == 500
        && o.substances <= 8
        && o.stages <= 8
        && head_fits(body)
        && rest_fits(o.substances, body)
}

// Whether a kind 2 block's body is in its turn and within its limits, by the outline, which is `layout`'s, and the bytes alone.
#[tactic(auto, unfolding(amounts::specs::Decline::checked))]
pub fn check_stage(o: Outline, stage: u8, body: &[u8]) -> Result<(), Decline>
    ensures { result ≡ checked (stage_checks o stage body.now) (tt {0}) }
{
    check(o.may_describe(stage), Decline::OutOfTurn)?;
    check(is_within_limits(o, body), Decline::Layout)
}
