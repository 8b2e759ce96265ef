// The figure that is filed for an amount.
ghost use Rattle.std.specs.Prelude.{◌≡◌};
ghost use Rattle.amounts.specs.Filed.{case_of, step_of, filed_of};

// A case of rounding: its number, from 0, and its step in micrograms.
#[derive(Clone, Copy, Debug, PartialEq, Eq)]
pub struct Case {
    pub number: u8,
    pub step: u64,
}

// The amounts from which the cases hold, the first case aside, which holds below them: from 10^10 micrograms one a decade, the last from 10^19.
const BOUNDS: [u64; 10] = [
    10_000_000_000, // from 10 kg
    100_000_000_000, // from 100 kg
    1_000_000_000_000, // from 1 t
    10_000_000_000_000, // from 10 t
    100_000_000_000_000, // from 100 t
    1_000_000_000_000_000, // from 1,000 t
    10_000_000_000_000_000, // from 10,000 t
    100_000_000_000_000_000, // from 100,000 t
    1_000_000_000_000_000_000, // from 1,000,000 t
    10_000_000_000_000_000_000, // from 10,000,000 t
];

// The steps of the eleven cases, in micrograms.
const STEPS: [u64; 11] = [
    100_000_000, // case 0: steps of 0.1 kg
    1_000_000_000, // case 1: steps of 1 kg
    10_000_000_000, // case 2: steps of 10 kg
    100_000_000_000, // case 3: steps of 100 kg
    1_000_000_000_000, // case 4: steps of 1 t
    10_000_000_000_000, // case 5: steps of 10 t
    100_000_000_000_000, // case 6: steps of 100 t
    1_000_000_000_000_000, // case 7: steps of 1,000 t
    10_000_000_000_000_000, // case 8: steps of 10,000 t
    100_000_000_000_000_000, // case 9: steps of 100,000 t
    1_000_000_000_000_000_000, // case 10: steps of 1,000,000 t
];

// The case of an amount in micrograms: that of the last bound which it reaches. The search halves the bounds, without a jump for each, which a `match` on their
// ranges makes: those jumps take longer than all else that a step is had by.
pub fn case_of(amount: u64) -> Case
    ensures { result ≡ case_of amount }
{
    let bounds = &BOUNDS;
    let steps = &STEPS;
    let number = bounds.partition_point(|from| *from <= amount);
    Case {
        number: number as u8,
        step: steps[number],
    }
}

// The step to which an amount in micrograms is rounded.
#[tactic(auto, unfolding(crate::specs::Filed::step_of))]
pub fn step_of(amount: u64) -> u64
    ensures { result ≡ step_of amount }
{
    case_of(amount).step
}

// The amount rounded half up to its step: the remainder is compared with half the step, so that no sum passes 64 bits.
pub fn filed_figure(amount: u64) -> u64
    ensures { result ≡ filed_of amount }
{
    let step = step_of(amount);
    let steps = amount / step;
    if amount % step < step / 2 {
        steps * step
    } else {
        (steps + 1) * step
    }
}
