// Losses called alone: the form, the management number and four floats by their bits, and the micrograms.
use crate::line;
use crate::patterns::{
    ABOVE_BILLION, BELOW_ONE, BELOW_ZERO, BILLION, EIGHTY_FIVE, ELEVEN_TENTHS, FIVE, HUNDRED,
    INFINITY, LEAST, MINUS_INFINITY, MINUS_ZERO, NAN, NAN_1, NINE, NINE_TENTHS, ONE, PRESSURE_3750,
    SEVEN_TENTHS, TANK, THREE, VOLUME, ZERO,
};
use forms::form::Inputs;
use losses::loss::vapour_loss;
use std::io::Stdout;

// Document 004, example 4, table 1-1-4: 14 m.
const DIAMETER: u64 = 0x402c000000000000;

// The same: 0.62 % of benzene.
const CONTENT: u64 = 0x3fe3d70a3d70a3d7;

// The same: 36,000 kL drawn.
const DRAWN: u64 = 0x40e1940000000000;

// The same, step 3-1: 1,550 Pa of toluene.
const PARTIAL: u64 = 0x4098380000000000;

// Document 004, example 2, table 1-1-2: 1,500 kL received.
const RECEIVED: u64 = 0x4097700000000000;

// The same, step 3: 0.0026885 kg of benzene per kL received.
const FILLING: u64 = 0x3f6606317268d328;

// The same, table 1-1-2: 1,420 kL dispensed.
const DISPENSED: u64 = 0x4096300000000000;

// The same, step 3: 0.0033856 kg of benzene per kL dispensed.
const FUELING: u64 = 0x3f6bbc1e28dff31a;

const VOLUME_41000: u64 = 0x40e4050000000000;

const TANK_1100: u64 = 0x4091300000000000;

// A form, a number and the floats w, u, p and q in the paper's order: named, as `Inputs` has them, a case would be six lines.
type Case = (u8, u16, [u64; 4]);

const WORKED: [Case; 18] = [
    // Document 004's examples 4, 1 and 2.
    // About 0.198 kg; the example's own method gives 0.3.
    (1, 400, [DIAMETER, CONTENT, DRAWN, ZERO]),
    // 119 kg.
    (2, 300, [VOLUME, PARTIAL, TANK, ONE]),
    // 4.03 kg and 4.81 kg: 8.84 kg.
    (3, 400, [RECEIVED, FILLING, DISPENSED, FUELING]),
    // Every coefficient row, at 14 m and 1,500 kL, with the industry's mean contents of document 004, table 1-1-2.
    // 1.2 %, 5.0 %, 9.9 %, 3.6 % and 0.63 %.
    (1, 53, [DIAMETER, 0x3ff3333333333333, RECEIVED, ZERO]),
    (1, 80, [DIAMETER, FIVE, RECEIVED, ZERO]),
    (1, 300, [DIAMETER, 0x4023cccccccccccd, RECEIVED, ZERO]),
    (1, 392, [DIAMETER, 0x400ccccccccccccd, RECEIVED, ZERO]),
    (1, 400, [DIAMETER, 0x3fe428f5c28f5c29, RECEIVED, ZERO]),
    // So much drawn that the float above k or M would give other micrograms, and then the float below it.
    // 5 m and 972,000,000 kL; 1 m and 361,000,000 kL.
    (1, 53, [FIVE, HUNDRED, 0x41ccf7c580000000, ZERO]),
    (1, 53, [ONE, HUNDRED, 0x41b5846c40000000, ZERO]),
    // 1 m and 318,000,000 kL; 1 m and 423,000,000 kL.
    (1, 80, [ONE, HUNDRED, 0x41b2f44b80000000, ZERO]),
    (1, 80, [ONE, HUNDRED, 0x41b93677c0000000, ZERO]),
    // 1 m and 77,000,000 kL; 5 m and 357,000,000 kL.
    (1, 300, [ONE, HUNDRED, 0x41925bb500000000, ZERO]),
    (1, 300, [FIVE, HUNDRED, 0x41b5476340000000, ZERO]),
    // 3 m and 36,000,000 kL; 9 m and 99,000,000 kL.
    (1, 392, [THREE, HUNDRED, 0x41812a8800000000, ZERO]),
    (1, 392, [NINE, HUNDRED, 0x41979a7b00000000, ZERO]),
    // 1 m and 28,000,000 kL; 3 m and 82,000,000 kL.
    (1, 400, [ONE, HUNDRED, 0x417ab3f000000000, ZERO]),
    (1, 400, [THREE, HUNDRED, 0x41938ce200000000, ZERO]),
];

// Inputs at which another order of the operations gives other micrograms.
const OPERATION_ORDERS: [Case; 3] = [
    // 1.1 m, 85 %, 66,000,000 kL.
    (
        1,
        400,
        [ELEVEN_TENTHS, EIGHTY_FIVE, 0x418f78a400000000, ZERO],
    ),
    // 41,000 m³, 3,750 Pa, 1,100 Pa, 0.9.
    (
        2,
        300,
        [VOLUME_41000, PRESSURE_3750, TANK_1100, NINE_TENTHS],
    ),
    // 1,500 kL and 1,420 kL, each at 0.7 kg: here a product and the sum rounded as one would show.
    (3, 7, [RECEIVED, SEVEN_TENTHS, DISPENSED, SEVEN_TENTHS]),
];

const PRESSURES: [Case; 3] = [
    // Document 004, table 1-1-1: xylene at 1,330 Pa and benzene at 13,300 Pa.
    (2, 80, [VOLUME, 0x4094c80000000000, TANK, ONE]),
    (2, 400, [VOLUME, 0x40c9fa0000000000, TANK, ONE]),
    // A partial pressure of 200,000 Pa, above the tank's 100,000.
    (2, 300, [ONE, 0x41086a0000000000, 0x40f86a0000000000, ONE]),
];

// Each end of form 1's ranges, and the float beyond it.
const FLOATING_ROOF_ENDS: [Case; 16] = [
    // w: 1 and 1,000.
    (1, 400, [ONE, CONTENT, DRAWN, ZERO]),
    (1, 400, [BELOW_ONE, CONTENT, DRAWN, ZERO]),
    (1, 400, [0x408f400000000000, CONTENT, DRAWN, ZERO]),
    (1, 400, [0x408f400000000001, CONTENT, DRAWN, ZERO]),
    // u: 0 and 100.
    (1, 400, [DIAMETER, ZERO, DRAWN, ZERO]),
    (1, 400, [DIAMETER, BELOW_ZERO, DRAWN, ZERO]),
    (1, 400, [DIAMETER, HUNDRED, DRAWN, ZERO]),
    (1, 400, [DIAMETER, 0x4059000000000001, DRAWN, ZERO]),
    // p: 0 and 10^9.
    (1, 400, [DIAMETER, CONTENT, ZERO, ZERO]),
    (1, 400, [DIAMETER, CONTENT, BELOW_ZERO, ZERO]),
    (1, 400, [DIAMETER, CONTENT, BILLION, ZERO]),
    (1, 400, [DIAMETER, CONTENT, ABOVE_BILLION, ZERO]),
    // q: 0 is either end.
    (1, 400, [DIAMETER, CONTENT, DRAWN, ZERO]),
    (1, 400, [DIAMETER, CONTENT, DRAWN, BELOW_ZERO]),
    (1, 400, [DIAMETER, CONTENT, DRAWN, ZERO]),
    (1, 400, [DIAMETER, CONTENT, DRAWN, LEAST]),
];

// The same of form 2.
const FIXED_ROOF_ENDS: [Case; 16] = [
    // w: 0 and 10^9.
    (2, 300, [ZERO, PARTIAL, TANK, ONE]),
    (2, 300, [BELOW_ZERO, PARTIAL, TANK, ONE]),
    (2, 300, [BILLION, PARTIAL, TANK, ONE]),
    (2, 300, [ABOVE_BILLION, PARTIAL, TANK, ONE]),
    // u: 0 and 10^9.
    (2, 300, [VOLUME, ZERO, TANK, ONE]),
    (2, 300, [VOLUME, BELOW_ZERO, TANK, ONE]),
    (2, 300, [VOLUME, BILLION, TANK, ONE]),
    (2, 300, [VOLUME, ABOVE_BILLION, TANK, ONE]),
    // p: 1 and 10^9.
    (2, 300, [VOLUME, PARTIAL, ONE, ONE]),
    (2, 300, [VOLUME, PARTIAL, BELOW_ONE, ONE]),
    (2, 300, [VOLUME, PARTIAL, BILLION, ONE]),
    (2, 300, [VOLUME, PARTIAL, ABOVE_BILLION, ONE]),
    // q: 0 and 1.
    (2, 300, [VOLUME, PARTIAL, TANK, ZERO]),
    (2, 300, [VOLUME, PARTIAL, TANK, BELOW_ZERO]),
    (2, 300, [VOLUME, PARTIAL, TANK, ONE]),
    (2, 300, [VOLUME, PARTIAL, TANK, 0x3ff0000000000001]),
];

// The same of form 3: 0 and 10^9 for each float. 7 has no coefficient row.
const STATION_ENDS: [Case; 16] = [
    (3, 7, [ZERO, FILLING, DISPENSED, FUELING]),
    (3, 7, [BELOW_ZERO, FILLING, DISPENSED, FUELING]),
    (3, 7, [BILLION, FILLING, DISPENSED, FUELING]),
    (3, 7, [ABOVE_BILLION, FILLING, DISPENSED, FUELING]),
    (3, 7, [RECEIVED, ZERO, DISPENSED, FUELING]),
    (3, 7, [RECEIVED, BELOW_ZERO, DISPENSED, FUELING]),
    (3, 7, [RECEIVED, BILLION, DISPENSED, FUELING]),
    (3, 7, [RECEIVED, ABOVE_BILLION, DISPENSED, FUELING]),
    (3, 7, [RECEIVED, FILLING, ZERO, FUELING]),
    (3, 7, [RECEIVED, FILLING, BELOW_ZERO, FUELING]),
    (3, 7, [RECEIVED, FILLING, BILLION, FUELING]),
    (3, 7, [RECEIVED, FILLING, ABOVE_BILLION, FUELING]),
    (3, 7, [RECEIVED, FILLING, DISPENSED, ZERO]),
    (3, 7, [RECEIVED, FILLING, DISPENSED, BELOW_ZERO]),
    (3, 7, [RECEIVED, FILLING, DISPENSED, BILLION]),
    (3, 7, [RECEIVED, FILLING, DISPENSED, ABOVE_BILLION]),
];

const ODD_FLOATS: [Case; 19] = [
    // Either sign of zero passes where 0 is in the range, and an unused float may be -0.0.
    (1, 400, [DIAMETER, MINUS_ZERO, DRAWN, MINUS_ZERO]),
    (2, 300, [MINUS_ZERO, MINUS_ZERO, TANK, MINUS_ZERO]),
    (3, 7, [MINUS_ZERO, MINUS_ZERO, MINUS_ZERO, MINUS_ZERO]),
    // Either fails where the range starts at 1.
    (1, 400, [MINUS_ZERO, CONTENT, DRAWN, ZERO]),
    (2, 300, [VOLUME, PARTIAL, ZERO, ONE]),
    (2, 300, [VOLUME, PARTIAL, MINUS_ZERO, ONE]),
    // Quiet and signalling NaNs, with payloads and of either sign.
    (3, 7, [NAN, ONE, ONE, ONE]),
    (3, 7, [NAN_1, ONE, ONE, ONE]),
    (3, 7, [0x7ff0000000000001, ONE, ONE, ONE]),
    (3, 7, [0xfff8deadbeef0001, ONE, ONE, ONE]),
    (3, 7, [0xffffffffffffffff, ONE, ONE, ONE]),
    (1, 400, [DIAMETER, CONTENT, DRAWN, NAN_1]),
    (2, 300, [INFINITY, PARTIAL, TANK, ONE]),
    (2, 300, [VOLUME, MINUS_INFINITY, TANK, ONE]),
    (3, 7, [ONE, ONE, ONE, INFINITY]),
    // In a range from 0: the least float, and the largest subnormal one.
    (3, 7, [LEAST, ONE, 0x000fffffffffffff, ONE]),
    (1, 400, [DIAMETER, LEAST, DRAWN, ZERO]),
    // Outside a range that is zero alone.
    (1, 400, [DIAMETER, CONTENT, DRAWN, LEAST]),
    (1, 400, [DIAMETER, CONTENT, DRAWN, BELOW_ZERO]),
];

const DECLINES: [Case; 21] = [
    // 6 before 7: a form outside 1 to 3, or number 0.
    (0, 400, [DIAMETER, CONTENT, DRAWN, ZERO]),
    (4, 400, [DIAMETER, CONTENT, DRAWN, ZERO]),
    (255, 400, [NAN, CONTENT, DRAWN, ZERO]),
    (3, 0, [NAN, ONE, ONE, ONE]),
    // 7 before 8.
    (1, 81, [NAN, CONTENT, DRAWN, ZERO]),
    // 8 before 9, and where the loss would be 0.
    (2, 81, [BILLION, BILLION, ONE, ONE]),
    (2, 81, [ZERO, ZERO, ONE, ZERO]),
    // Form 3 needs no row.
    (3, 81, [ONE, ONE, ZERO, ZERO]),
    // The numbers beside those that have a row.
    (2, 52, [ONE, ONE, ONE, ONE]),
    (2, 54, [ONE, ONE, ONE, ONE]),
    (2, 401, [ONE, ONE, ONE, ONE]),
    // 2,000,000 kg are taken.
    (3, 7, [0x413e848000000000, ONE, ZERO, ZERO]),
    // The floats above are not, though the first three come to 2 × 10^15 micrograms too.
    (3, 7, [0x413e848000000001, ONE, ZERO, ZERO]),
    (3, 7, [0x413e848000000002, ONE, ZERO, ZERO]),
    (3, 7, [0x413e848000000003, ONE, ZERO, ZERO]),
    (3, 7, [0x413e848000000004, ONE, ZERO, ZERO]),
    (3, 7, [0x413e848000000005, ONE, ZERO, ZERO]),
    (3, 7, [BILLION, BILLION, BILLION, BILLION]),
    // The fraction is cut: 10^-9 kg and the float below it, and 3.9999 × 10^-9 kg.
    (3, 7, [0x3e112e0be826d695, ONE, ZERO, ZERO]),
    (3, 7, [0x3e112e0be826d694, ONE, ZERO, ZERO]),
    (3, 7, [0x3e312defc2646e4b, ONE, ZERO, ZERO]),
];

const LISTS: [&[Case]; 8] = [
    &WORKED,
    &OPERATION_ORDERS,
    &PRESSURES,
    &FLOATING_ROOF_ENDS,
    &FIXED_ROOF_ENDS,
    &STATION_ENDS,
    &ODD_FLOATS,
    &DECLINES,
];

fn show(out: Stdout, case: Case) {
    let (form, number, floats) = case;
    let [w, u, p, q] = floats;
    line::numbers(out, &[u64::from(form), u64::from(number)]);
    line::floats(out, &floats);
    line::answer(out, vapour_loss(form, number, Inputs { w, u, p, q }));
}

fn show_list(out: Stdout, cases: &[Case]) {
    for case in cases {
        show(out, *case);
    }
}

pub(crate) fn show_all(out: Stdout) {
    line::title(out, "losses: form number w u p q, micrograms");
    for list in LISTS {
        show_list(out, list);
    }
}
