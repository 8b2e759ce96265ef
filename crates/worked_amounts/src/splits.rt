// The treatment split: a total in micrograms, the removal and the destruction in ppm, and the three parts.
use crate::line;
use amounts::treatment::{Rate, split_total};
use std::io::Stdout;

// A total, its removal and its destruction.
const CASES: [(u64, u32, u32); 15] = [
    // What is removed and not destroyed leaves as residue.
    // F12.
    (7, 500_000, 500_000),
    (1_000_000, 900_000, 400_000),
    // F13.
    (1, 999_999, 0),
    (1, 1_000_000, 999_999),
    (999_999, 999_999, 999_999),
    // The ends of the rates, at the largest total of 64 bits, and no total.
    (18_446_744_073_709_551_615, 0, 0),
    (18_446_744_073_709_551_615, 0, 1_000_000),
    (18_446_744_073_709_551_615, 1_000_000, 0),
    (18_446_744_073_709_551_615, 1_000_000, 1_000_000),
    (18_446_744_073_709_551_615, 999_999, 999_999),
    (18_446_744_073_709_551_615, 1, 1),
    (0, 500_000, 500_000),
    // 6: a rate over 1,000,000 ppm.
    (7, 1_000_001, 0),
    (7, 0, 1_000_001),
    (7, 4_294_967_295, 4_294_967_295),
];

fn show(out: Stdout, total: u64, rate: Rate) {
    line::numbers(
        out,
        &[total, u64::from(rate.removal), u64::from(rate.destruction)],
    );
    match split_total(total, rate) {
        Ok(parts) => {
            line::numbers(out, &[parts.released, parts.destroyed]);
            line::answer(out, Ok(parts.residue));
        }
        Err(decline) => line::declined(out, decline),
    }
}

pub(crate) fn show_all(out: Stdout) {
    line::title(
        out,
        "splits: total removal destruction, released destroyed residue",
    );
    for (total, removal, destruction) in CASES {
        show(
            out,
            total,
            Rate {
                removal,
                destruction,
            },
        );
    }
}
