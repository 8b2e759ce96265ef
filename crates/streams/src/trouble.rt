// Why a program stops.
ghost use Rattle.std.specs.Prelude.{OnOk};
ghost use Rattle.std.specs.Io.KnownBytes.{Appends};
ghost use Rattle.streams.specs.Trouble.{line_of};

use crate::writing;
use std::error::Error;
use std::io::Write;
use std::{fmt, io};

/// Which of a program's streams failed. Its text is what the line on standard error says.
#[derive(Clone, Copy, Debug)]
pub enum Trouble {
    Unread,
    Unwritten,
}

impl fmt::Display for Trouble {
    ghost use Rattle.streams.specs.Trouble.{text_of};
    ghost use Rattle.std.specs.Prelude.{Some};

    ghost output = { λ t. Some (text_of t) };

    fn fmt<W: fmt::Write>(&self, f: &mut fmt::Formatter<W>) -> fmt::Result {
        match self {
            Trouble::Unread => write!(f, "standard input can't be read"),
            Trouble::Unwritten => write!(f, "standard output can't be written"),
        }
    }
}

impl Error for Trouble {}

impl Trouble {
    /// The line on standard error: the program's name, and what failed. Each of the two is tried, whatever became of the other.
    pub fn tell<E: Write>(self, program: &str, errors: &mut E) -> io::Result<()>
        ensures { OnOk result (Appends (E.contents errors.old) (E.contents errors.new) (line_of program.now self)) }
    {
        let name = writing::all(errors, program.as_bytes());
        match self {
            Trouble::Unread => name.and(writing::all(errors, b": standard input can't be read\n")),
            Trouble::Unwritten => {
                name.and(writing::all(errors, b": standard output can't be written\n"))
            }
        }
    }
}
