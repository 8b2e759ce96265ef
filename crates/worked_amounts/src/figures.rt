// The filed figure: an amount in micrograms, the number of its case, its step, and the figure.
use crate::line;
use amounts::filed::{case_of, filed_figure, step_of};
use std::io::Stdout;

const AMOUNTS: [u64; 62] = [
    // Slips of the trade.
    // 14.4 and 14.4 kg from two stages are filed as 29 kg and not as 28.
    14_400_000_000,
    28_800_000_000,
    // 9.95 kg is filed as 10 kg; its step is still 0.1 kg.
    9_949_999_999,
    9_950_000_000,
    9_999_999_999,
    10_000_000_000,
    // Document 004, example 2: the station's 8.84 kg.
    8_840_302_000,
    // F6 to F9.
    99_500_000_000,
    102_000_000_000,
    225_000_000_000,
    588_000_000_000,
    // Document 004, example 1, step 4: 543 kg of toluene are filed as 540.
    543_000_000_000,
    // Case 0: nothing, and about half a step and a step and a half.
    0,
    1,
    49_999_999,
    50_000_000,
    149_999_999,
    150_000_000,
    // Cases 1 to 4, from 10^10 to 10^13: the amount below the first, the first, and two inside, about half a step above it.
    9_999_999_999,
    10_000_000_000,
    10_499_999_999,
    10_500_000_000,
    99_999_999_999,
    100_000_000_000,
    104_999_999_999,
    105_000_000_000,
    999_999_999_999,
    1_000_000_000_000,
    1_049_999_999_999,
    1_050_000_000_000,
    9_999_999_999_999,
    10_000_000_000_000,
    10_499_999_999_999,
    10_500_000_000_000,
    // Cases 5 to 7, from 10^14 to 10^16, alike.
    99_999_999_999_999,
    100_000_000_000_000,
    104_999_999_999_999,
    105_000_000_000_000,
    999_999_999_999_999,
    1_000_000_000_000_000,
    1_049_999_999_999_999,
    1_050_000_000_000_000,
    9_999_999_999_999_999,
    10_000_000_000_000_000,
    10_499_999_999_999_999,
    10_500_000_000_000_000,
    // Cases 8 to 10, from 10^17 to 10^19, alike.
    99_999_999_999_999_999,
    100_000_000_000_000_000,
    104_999_999_999_999_999,
    105_000_000_000_000_000,
    999_999_999_999_999_999,
    1_000_000_000_000_000_000,
    1_049_999_999_999_999_999,
    1_050_000_000_000_000_000,
    9_999_999_999_999_999_999,
    10_000_000_000_000_000_000,
    10_499_999_999_999_999_999,
    10_500_000_000_000_000_000,
    // The largest amounts of 64 bits: 18.4 steps of 10^18 and what is over, which is less than half a step, so that 18 steps are filed.
    18_399_999_999_999_999_999,
    18_400_000_000_000_000_000,
    18_446_744_073_709_551_614,
    18_446_744_073_709_551_615,
];

fn show(out: Stdout, amount: u64) {
    let case = u64::from(case_of(amount).number);
    line::numbers(out, &[amount, case, step_of(amount)]);
    line::answer(out, Ok(filed_figure(amount)));
}

pub(crate) fn show_all(out: Stdout) {
    line::title(out, "figures: amount, case, step, figure");
    for amount in AMOUNTS {
        show(out, amount);
    }
}
