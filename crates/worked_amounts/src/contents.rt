// Counted content: the class and the ppm, and what counts.
use crate::line;
use amounts::content::counted_content;
use std::io::Stdout;

// A class and a content in ppm.
const CASES: [(u8, u32); 14] = [
    // Document 000, 1.1.3: from 10,000 ppm in class 1 and from 1,000 ppm in class 2.
    (1, 9_999),
    (1, 10_000),
    (2, 999),
    (2, 1_000),
    // Each at the other's limit.
    (1, 1_000),
    (2, 9_999),
    // Ends of the ranges.
    (1, 0),
    (2, 0),
    (1, 1_000_000),
    (2, 1_000_000),
    // 6: another class, or more than 1,000,000 ppm.
    (0, 10_000),
    (3, 10_000),
    (1, 1_000_001),
    (2, 4_294_967_295),
];

fn show(out: Stdout, class: u8, ppm: u32) {
    line::numbers(out, &[u64::from(class), u64::from(ppm)]);
    line::answer(out, counted_content(class, ppm).map(u64::from));
}

pub(crate) fn show_all(out: Stdout) {
    line::title(out, "contents: class ppm, counted");
    for (class, ppm) in CASES {
        show(out, class, ppm);
    }
}
