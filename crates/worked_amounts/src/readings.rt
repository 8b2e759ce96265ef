// A float read from its bits, in a range from 0 that has no end, and its whole part.
use crate::line;
use crate::patterns::{
    BELOW_ONE, BELOW_ZERO, INFINITY, LEAST, MINUS_INFINITY, MINUS_ZERO, NAN, ONE, ZERO,
};
use forms::pattern::{Range, read_float};
use losses::whole::whole_part;
use std::io::Stdout;

const PATTERNS: [u64; 21] = [
    // Zero of either sign, and the least float.
    ZERO,
    MINUS_ZERO,
    LEAST,
    // About 1, and the float below 2.
    BELOW_ONE,
    ONE,
    0x3fffffffffffffff,
    // 2^52 - 0.5, the largest float with a fraction, and 2^52.
    0x432fffffffffffff,
    0x4330000000000000,
    // 2^53 - 1, 2^53 and 2^53 + 2: from 2^53 on the digits are shifted up.
    0x433fffffffffffff,
    0x4340000000000000,
    0x4340000000000001,
    // 2^54 + 4 and 2^63.
    0x4350000000000001,
    0x43e0000000000000,
    // The float below 2^64, and two that 64 bits do not hold.
    0x43efffffffffffff,
    0x43f0000000000000,
    0x7fefffffffffffff,
    // 7: infinities and a NaN, though the range has no end, and two floats below 0.
    INFINITY,
    MINUS_INFINITY,
    NAN,
    0xbff0000000000000,
    BELOW_ZERO,
];

// A range from 0 that has no end.
const FROM_ZERO: Range = Range {
    low: 0.0,
    high: f64::INFINITY,
};

fn show(out: Stdout, bits: u64) {
    line::floats(out, &[bits]);
    line::answer(out, read_float(bits, FROM_ZERO).map(whole_part));
}

pub(crate) fn show_all(out: Stdout) {
    line::title(out, "readings: pattern, whole part in a range from 0");
    for bits in PATTERNS {
        show(out, bits);
    }
}
