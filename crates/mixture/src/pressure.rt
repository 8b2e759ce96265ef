// The partial pressure of a mixture's named part.
ghost use Rattle.std.specs.Prelude.{◌≡◌, ◌<◌, map, length, Float, Ok};
ghost use Rattle.std.specs.List.{list_all};
ghost use Rattle.forms.specs.Binary64.{value_of};
ghost use Rattle.forms.specs.Pattern.{in_range};
ghost use Rattle.mixture.specs.Pressure.{floats_of, part_fits, quotient_of, sum_of, mixed, partial_of, Bounded};
ghost use Rattle.mixture.specs.Steps.{parts_of, part_at, plus};

use amounts::decline::{Decline, check};
use forms::pattern;
use forms::pattern::Range;

const CONTENTS: Range = Range {
    low: 0.0001,
    high: 100.0,
};

const WEIGHTS: Range = Range {
    low: 1.0,
    high: 1000.0,
};

const PRESSURES: Range = Range {
    low: 0.0,
    high: 1000000000.0,
};

// The value of a pattern that is finite and in the range.
#[tactic(auto, unfolding(forms::specs::Pattern::reading_of, amounts::specs::Decline::checked))]
fn read(bits: u64, range: Range) -> Result<f64, Decline>
    ensures { result ≡ mixed (in_range range (value_of bits)) (value_of bits) }
{
    pattern::read_float(bits, range).or(Err(Decline::Mixture))
}

// The content by the M of the part at a place.
#[tactic(auto, using(crate::proofs::Numerals::ends), unfolding(amounts::specs::Decline::checked))]
fn quotient(contents: &[u64], weights: &[u64], place: usize) -> Result<f64, Decline>
    requires content_there { place < length contents.now }
    requires weight_there { place < length weights.now }
    ensures { result ≡ mixed (part_fits (part_at contents.now weights.now place)) (quotient_of (part_at contents.now weights.now place)) }
{
    let content = read(contents[place], CONTENTS)?;
    let weight = read(weights[place], WEIGHTS)?;
    Ok(content / weight)
}

// The sum with a quotient more: it starts with the first.
fn plus(sum: Option<f64>, quotient: f64) -> f64
    ensures { result ≡ plus sum quotient }
{
    match sum {
        Some(before) => before + quotient,
        None => quotient,
    }
}

// The sum of the parts' quotients, from the first to the last, and 0 of no part.
#[tactic(auto, unfolding(amounts::specs::Decline::checked))]
fn sum_of(contents: &[u64], weights: &[u64]) -> Result<f64, Decline>
    requires { length weights.now ≡ length contents.now }
    ensures { result ≡ mixed (list_all part_fits (parts_of contents.now weights.now)) (sum_of (map quotient_of (parts_of contents.now weights.now))) }
{
    let mut sum = None;
    for place in 0..contents.len() {
        sum = Some(plus(sum, quotient(contents, weights, place)?));
    }
    Ok(sum.unwrap_or(0.0))
}

// The partial pressure in Pa of the part at a place from 0, by the contents in weight percent and the molecular weights of a mixture's parts and the named part's vapour
// pressure in Pa, all by their bit patterns.
#[tactic(auto, using(crate::proofs::Numerals::ends), unfolding(crate::specs::Pressure::partial_of, amounts::specs::Decline::checked))]
pub fn partial_pressure(
    contents: &[u64],
    weights: &[u64],
    named: usize,
    pressure: u64,
) -> Result<f64, Decline>
    ensures value { result ≡ partial_of (floats_of contents.now) (floats_of weights.now) named (value_of pressure) }
    ensures bounded { (x : Float) → result ≡ Ok x → Bounded x }
{
    check(
        !contents.is_empty() && contents.len() <= 8,
        Decline::Mixture,
    )?;
    check(weights.len() == contents.len(), Decline::Mixture)?;
    check(named < contents.len(), Decline::Mixture)?;
    let pressure = read(pressure, PRESSURES)?;
    let own = quotient(contents, weights, named)?;
    let sum = sum_of(contents, weights)?;
    Ok((pressure * own) / sum)
}
