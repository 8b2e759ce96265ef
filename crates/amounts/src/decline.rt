// Why a call is declined, and the check that declines it.
ghost use Rattle.std.specs.Prelude.{◌≡◌, cond, Ok, Err};
ghost use Rattle.amounts.specs.Decline.{number};

use std::fmt;

// By the papers' numbers, which leave some out.
#[derive(Clone, Copy, Debug, PartialEq, Eq)]
pub enum Decline {
    // The block isn't 512 bytes or lacks "PRTR".
    NotABlock = 1,

    // A check sum differs.
    CheckSum = 2,

    // The kind isn't 1 to 3 or the block number isn't the next.
    NotNext = 3,

    // A set-up comes out of its turn, or a post before the last stage is described.
    OutOfTurn = 4,

    // The book is closed.
    Closed = 5,

    // A length, kind, form, index, count, limit, order or zero place breaks the layout, floats aside.
    Layout = 6,

    // A float is not finite or outside its range.
    OutOfRange = 7,

    // Form 1 or 2 names a substance without a coefficient row.
    NoRow = 8,

    // The loss exceeds 2,000,000 kg.
    Excess = 9,

    // 4,000 posts are accepted and this isn't the close.
    Full = 10,

    // A store or holding is less than what leaves it.
    Short = 11,

    // A report names a substance that the book hasn't.
    NoSubstance = 12,

    // A set-up block or a post that begins a block finds fewer than 512 bytes left or 65,536 blocks written.
    NoRoom = 13,

    // The counted grams exceed 8×10^12 or the material isn't in the book.
    StockCount = 14,

    // A mixture has no part or over eight, the named part isn't among them, a value is outside its range, or its lists have different lengths.
    Mixture = 18,
}

impl Decline {
    pub fn number(self) -> u8
        ensures { result ≡ number self }
    {
        self as u8
    }
}

// As the papers write it: by its number.
impl fmt::Display for Decline {
    ghost use Rattle.std.specs.Fmt.{decimal};
    ghost use Rattle.std.specs.Prelude.{Some};

    ghost output = { λ d. Some (decimal (number d)) };

    fn fmt<W: fmt::Write>(&self, f: &mut fmt::Formatter<W>) -> fmt::Result {
        write!(f, "{}", self.number())
    }
}

// Declines where a check fails.
pub fn check(ok: bool, decline: Decline) -> Result<(), Decline>
    ensures { result ≡ cond ok (Ok (tt {0})) (Err decline) }
{
    if ok { Ok(()) } else { Err(decline) }
}
