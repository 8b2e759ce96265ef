// Partial pressures: contents, molecular weights, the named part's place and its vapour pressure, floats by their bits; the partial pressure, and the micrograms that filling a
// tank loses of toluene at it.
use crate::line;
use crate::patterns::{
    ABOVE_BILLION, BELOW_ONE, BELOW_ZERO, BILLION, FIVE, HUNDRED, INFINITY, LEAST, MINUS_INFINITY,
    MINUS_ZERO, NAN, NAN_1, ONE, PRESSURE_3750, TANK, VOLUME, ZERO,
};
use forms::form::Inputs;
use losses::loss::vapour_loss;
use mixture::pressure::partial_pressure;
use std::io::Stdout;

// Document 004, example 1, tables 1-1-1 and 1-1-3: toluene, xylene and benzene, 40, 45 and 15 %, and their M.
const CONTENTS: [u64; 3] = [0x4044000000000000, 0x4046800000000000, 0x402e000000000000];

const WEIGHTS: [u64; 3] = [TOLUENE, XYLENE, BENZENE];

const TOLUENE: u64 = 0x4057066666666666;

const XYLENE: u64 = 0x405a8ccccccccccd;

const BENZENE: u64 = 0x4053866666666666;

// A molecular weight of 86.
const EIGHTY_SIX: u64 = 0x4055800000000000;

// 0.0001 %, and the float below it.
const LEAST_CONTENT: u64 = 0x3f1a36e2eb1c432d;

const BELOW_LEAST_CONTENT: u64 = 0x3f1a36e2eb1c432c;

const ABOVE_HUNDRED: u64 = 0x4059000000000001;

const THOUSAND: u64 = 0x408f400000000000;

const ABOVE_THOUSAND: u64 = 0x408f400000000001;

// 0.01 %.
const HUNDREDTH: u64 = 0x3f847ae147ae147b;

// Contents, molecular weights, the named part's place and its vapour pressure.
type Mixture = (&'static [u64], &'static [u64], usize, u64);

const WORKED: [Mixture; 8] = [
    // Document 004, example 1, step 3-1: of toluene 3,750 Pa × (0.43431 / (0.43431 + 0.42373 + 0.19206)) = 1,550.96 Pa, "1.55 × 10^3 Pa", and step 3-3: 119 kg.
    (&CONTENTS, &WEIGHTS, 0, PRESSURE_3750),
    // The same of xylene at 1,330 Pa and benzene at 13,300 Pa.
    (&CONTENTS, &WEIGHTS, 1, 0x4094c80000000000),
    (&CONTENTS, &WEIGHTS, 2, 0x40c9fa0000000000),
    // One part has its own pressure.
    (&[HUNDRED], &[TOLUENE], 0, PRESSURE_3750),
    // Eight parts alike: an eighth.
    (&[ONE; 8], &[HUNDRED; 8], 7, PRESSURE_3750),
    // 5, 5 and 90 % with M 92.1, 78.1 and 86: added from the last part, the last bit would be another.
    (
        &[FIVE, FIVE, 0x4056800000000000],
        &[TOLUENE, BENZENE, EIGHTY_SIX],
        0,
        PRESSURE_3750,
    ),
    // 5, 20 and 75 % with M 78.1, 86 and 106.2: multiplied last, or before the content is divided by M, it would be another.
    (
        &[FIVE, 0x4034000000000000, 0x4052c00000000000],
        &[BENZENE, EIGHTY_SIX, XYLENE],
        0,
        PRESSURE_3750,
    ),
    // 10^9 Pa over one part: a unit above 10^9, which form 2 declines.
    (&[HUNDREDTH], &[XYLENE], 0, BILLION),
];

// Each range's ends, and a float beyond each, of one part: its content, its molecular weight and its vapour pressure.
const ENDS: [(u64, u64, u64); 30] = [
    (LEAST_CONTENT, HUNDRED, PRESSURE_3750),
    (BELOW_LEAST_CONTENT, HUNDRED, PRESSURE_3750),
    (HUNDRED, HUNDRED, PRESSURE_3750),
    (ABOVE_HUNDRED, HUNDRED, PRESSURE_3750),
    (HUNDRED, ONE, PRESSURE_3750),
    (HUNDRED, BELOW_ONE, PRESSURE_3750),
    (HUNDRED, THOUSAND, PRESSURE_3750),
    (HUNDRED, ABOVE_THOUSAND, PRESSURE_3750),
    // Either sign of zero is 0, and is kept.
    (HUNDRED, HUNDRED, ZERO),
    (HUNDRED, HUNDRED, MINUS_ZERO),
    (HUNDRED, HUNDRED, LEAST),
    (HUNDRED, HUNDRED, BELOW_ZERO),
    (HUNDRED, HUNDRED, BILLION),
    (HUNDRED, HUNDRED, ABOVE_BILLION),
    (NAN, HUNDRED, PRESSURE_3750),
    (HUNDRED, NAN, PRESSURE_3750),
    (HUNDRED, HUNDRED, NAN),
    (NAN_1, HUNDRED, PRESSURE_3750),
    (HUNDRED, NAN_1, PRESSURE_3750),
    (HUNDRED, HUNDRED, NAN_1),
    (INFINITY, HUNDRED, PRESSURE_3750),
    (HUNDRED, INFINITY, PRESSURE_3750),
    (HUNDRED, HUNDRED, INFINITY),
    (MINUS_INFINITY, HUNDRED, PRESSURE_3750),
    (HUNDRED, MINUS_INFINITY, PRESSURE_3750),
    (HUNDRED, HUNDRED, MINUS_INFINITY),
    (LEAST, HUNDRED, PRESSURE_3750),
    (HUNDRED, LEAST, PRESSURE_3750),
    (MINUS_ZERO, HUNDRED, PRESSURE_3750),
    (HUNDRED, MINUS_ZERO, PRESSURE_3750),
];

// 18: no part, over eight, lists of different lengths, and a named part that isn't among them.
const DECLINES: [Mixture; 7] = [
    (&[], &[], 0, PRESSURE_3750),
    (&[ONE; 9], &[HUNDRED; 9], 0, PRESSURE_3750),
    (&CONTENTS, &[HUNDRED; 2], 0, PRESSURE_3750),
    (&CONTENTS, &[HUNDRED; 4], 0, PRESSURE_3750),
    (&CONTENTS, &WEIGHTS, 3, PRESSURE_3750),
    (&CONTENTS, &WEIGHTS, usize::MAX, PRESSURE_3750),
    // A part that isn't named is asked for its ranges too.
    (&[HUNDRED, ZERO], &[HUNDRED, HUNDRED], 0, PRESSURE_3750),
];

// Of toluene, by filling a tank.
fn show_loss(out: Stdout, u: u64) {
    line::floats(out, &[u]);
    let inputs = Inputs {
        w: VOLUME,
        u,
        p: TANK,
        q: ONE,
    };
    line::answer(out, vapour_loss(2, 300, inputs));
}

#[tactic(auto, using(mixture::proofs::pressure::Bound::is_number))]
fn show(out: Stdout, contents: &[u64], weights: &[u64], named: usize, pressure: u64) {
    line::floats(out, contents);
    line::word(out, "/ ");
    line::floats(out, weights);
    line::word(out, "/ ");
    line::numbers(out, &[named as u64]);
    line::floats(out, &[pressure]);
    match partial_pressure(contents, weights, named, pressure) {
        Ok(partial) => show_loss(out, f64::to_bits(partial)),
        Err(decline) => line::declined(out, decline),
    }
}

fn show_list(out: Stdout, mixtures: &[Mixture]) {
    for (contents, weights, named, pressure) in mixtures {
        show(out, contents, weights, *named, *pressure);
    }
}

fn show_ends(out: Stdout) {
    for (content, weight, pressure) in ENDS {
        show(out, &[content], &[weight], 0, pressure);
    }
}

pub(crate) fn show_all(out: Stdout) {
    line::title(
        out,
        "mixtures: contents / weights / named pressure, partial pressure micrograms",
    );
    show_list(out, &WORKED);
    show_ends(out);
    show_list(out, &DECLINES);
}
