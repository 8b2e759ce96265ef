// The lines. A field of a report has a space before it. `worked_book` has lines of its own: a program isn't linked by another, and the libraries print none.
use amounts::decline::Decline;
use report::report::Report;
use std::io;
use std::io::Write;
use streams::output::Output;

/// 0 where the call was accepted, and else the decline's number.
fn verdict(answer: Result<(), Decline>) -> u8 {
    answer.err().map_or(0, Decline::number)
}

pub(crate) fn post<W: Write>(out: &mut Output<W>, answer: Result<(), Decline>) -> io::Result<()> {
    writeln!(out, "post {}", verdict(answer))
}

pub(crate) fn block<W: Write>(out: &mut Output<W>, answer: Result<(), Decline>) -> io::Result<()> {
    writeln!(out, "block {}", verdict(answer))
}

pub(crate) fn stock<W: Write>(out: &mut Output<W>, answer: Result<i64, Decline>) -> io::Result<()> {
    write!(out, "stock ")?;
    match answer {
        Ok(0) => writeln!(out, "{}", 0),
        Ok(grams) => writeln!(out, "{grams:+}"),
        Err(decline) => writeln!(out, "declined {decline}"),
    }
}

fn known<W: Write>(out: &mut Output<W>, r: Report) -> io::Result<()> {
    let Report {
        posts,
        number,
        handled,
        due,
        store,
        fate,
        filed,
    } = r;
    let due = if due { " Y" } else { " N" };
    write!(out, " {posts} {number} {handled}{due} {store}")?;
    write!(
        out,
        " {} {} {} {}",
        fate.held, fate.shipped, fate.consumed, fate.destroyed
    )?;
    write!(out, " {}", fate.headings)?;
    match filed {
        Some(figures) => write!(out, " {figures}")?,
        None => write!(out, " - - - - - -")?,
    }
    writeln!(out)
}

pub(crate) fn report<W: Write>(
    out: &mut Output<W>,
    place: u8,
    answer: Result<Report, Decline>,
) -> io::Result<()> {
    write!(out, "report")?;
    write!(out, " {place}")?;
    match answer {
        Ok(report) => known(out, report),
        Err(decline) => writeln!(out, " {decline}"),
    }
}
