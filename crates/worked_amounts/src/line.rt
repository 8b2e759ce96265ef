// What lines say, piece by piece, which the check goes through faster than formats of many arguments. `worked_book` has lines of its own: a program
// isn't linked by another, and a few short functions are no library.
use amounts::decline::Decline;
use std::io::{Print, Stdout};

// A text alone: the line over a group of cases, or the end of one.
pub(crate) fn title(out: Stdout, title: &str) {
    let _ = println!(out; "{title}");
}

// A text that a line goes on behind.
pub(crate) fn word(out: Stdout, text: &str) {
    let _ = print!(out; "{text}");
}

// Numbers with a space behind each.
pub(crate) fn numbers(out: Stdout, numbers: &[u64]) {
    for number in numbers {
        let _ = print!(out; "{number} ");
    }
}

// Floats by their bits, alike.
pub(crate) fn floats(out: Stdout, floats: &[u64]) {
    for float in floats {
        let _ = print!(out; "{float:016x} ");
    }
}

pub(crate) fn declined(out: Stdout, decline: Decline) {
    let _ = println!(out; "declined {decline}");
}

// The end of a line: what was asked for, or its decline.
pub(crate) fn answer(out: Stdout, answer: Result<u64, Decline>) {
    match answer {
        Ok(value) => {
            let _ = println!(out; "{value}");
        }
        Err(decline) => declined(out, decline),
    }
}
