// What lines say, piece by piece, which the check goes through faster than formats of many arguments. `worked_amounts` and `replay` have lines of
// their own: a program isn't linked by another, and the libraries print none.
use amounts::decline::Decline;
use report::report::Report;
use std::io::{Print, Stdout};

// A text alone: a line over a group of calls.
pub(crate) fn title(out: Stdout, title: &str) {
    let _ = println!(out; "{title}");
}

// A text that a line goes on behind.
pub(crate) fn word(out: Stdout, text: &str) {
    let _ = print!(out; "{text}");
}

// A word, and numbers with a space before each.
pub(crate) fn begin(out: Stdout, text: &str, numbers: &[u64]) {
    word(out, text);
    list(out, numbers);
}

pub(crate) fn list(out: Stdout, numbers: &[u64]) {
    for number in numbers {
        let _ = print!(out; " {number}");
    }
}

// Floats by their bits.
pub(crate) fn floats(out: Stdout, floats: &[u64]) {
    for float in floats {
        let _ = print!(out; " {float:016x}");
    }
}

// The end of a line of a call that is taken or declined.
pub(crate) fn verdict(out: Stdout, answer: Result<(), Decline>) {
    match answer {
        Ok(()) => title(out, ": accepted"),
        Err(decline) => declined(out, decline),
    }
}

fn declined(out: Stdout, decline: Decline) {
    let _ = println!(out; ": declined {decline}");
}

// A difference in grams: 0, or with its sign.
pub(crate) fn difference(out: Stdout, answer: Result<i64, Decline>) {
    match answer {
        Ok(0) => title(out, ": 0"),
        Ok(grams) => {
            let _ = println!(out; ": {grams:+}");
        }
        Err(decline) => declined(out, decline),
    }
}

// Posts, number, handled, due, store, held, shipped, consumed, destroyed, the six headings and the six figures.
fn known(out: Stdout, r: Report) {
    begin(
        out,
        ":",
        &[u64::from(r.posts), u64::from(r.number), r.handled],
    );
    word(out, if r.due { " Y" } else { " N" });
    let fate = r.fate;
    list(
        out,
        &[
            r.store,
            fate.held,
            fate.shipped,
            fate.consumed,
            fate.destroyed,
        ],
    );
    let _ = print!(out; " {}", fate.headings);
    match r.filed {
        Some(figures) => {
            let _ = println!(out; " {figures}");
        }
        None => title(out, " - - - - - -"),
    }
}

pub(crate) fn report(out: Stdout, answer: Result<Report, Decline>) {
    match answer {
        Ok(report) => known(out, report),
        Err(decline) => declined(out, decline),
    }
}
