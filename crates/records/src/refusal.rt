// Why a record isn't taken.
ghost use Rattle.std.specs.Prelude.{◌≡◌};
ghost use Rattle.records.specs.Refusal.{number};
ghost use Rattle.records.specs.declared.refusal.Refusal.TheVariants.{Declined};

use amounts::decline::Decline;
use std::error::Error;
use std::fmt;

#[derive(Clone, Copy, Debug, PartialEq, Eq)]
pub enum Refusal {
    Declined(Decline),

    // Cut short, or of another tag.
    Malformed,
}

impl From<Decline> for Refusal {
    ghost from_gives = { λ decline refusal. refusal ≡ Declined decline };

    fn from(decline: Decline) -> Refusal {
        Refusal::Declined(decline)
    }
}

impl Refusal {
    // The decline's number, or 255.
    pub fn number(self) -> u8
        ensures { result ≡ number self }
    {
        match self {
            Refusal::Declined(decline) => decline.number(),
            Refusal::Malformed => 255,
        }
    }
}

// The decline's number, or that the record is malformed.
impl fmt::Display for Refusal {
    ghost use Rattle.std.specs.Prelude.{Some};
    ghost use Rattle.records.specs.Refusal.{text_of};

    ghost output = { λ refusal. Some (text_of refusal) };

    fn fmt<W: fmt::Write>(&self, f: &mut fmt::Formatter<W>) -> fmt::Result {
        match self {
            Refusal::Declined(decline) => fmt::Display::fmt(decline, f),
            Refusal::Malformed => f.write_str("malformed"),
        }
    }
}

impl Error for Refusal {}
