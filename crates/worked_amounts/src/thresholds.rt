// The threshold: the class and the micrograms handled, and whether the substance is due.
use crate::line;
use amounts::threshold::is_due;
use std::io::Stdout;

// A class and the micrograms handled.
const CASES: [(u8, u64); 10] = [
    // One microgram below the threshold is not due, though it rounds to it.
    (1, 999_999_999_999),
    (1, 1_000_000_000_000),
    (2, 499_999_999_999),
    (2, 500_000_000_000),
    // 1.485 t, which document 004 rounds to 1.49 before it is compared.
    (1, 1_485_000_000_000),
    // Ends of the ranges.
    (1, 0),
    (2, 18_446_744_073_709_551_615),
    // 6: another class.
    (0, 1_000_000_000_000),
    (3, 1_000_000_000_000),
    (255, 0),
];

fn show(out: Stdout, class: u8, handled: u64) {
    line::numbers(out, &[u64::from(class), handled]);
    match is_due(class, handled) {
        Ok(due) => line::title(out, if due { "Y" } else { "N" }),
        Err(decline) => line::declined(out, decline),
    }
}

pub(crate) fn show_all(out: Stdout) {
    line::title(out, "thresholds: class handled, due");
    for (class, handled) in CASES {
        show(out, class, handled);
    }
}
