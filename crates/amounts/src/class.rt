// A substance's class.
use crate::decline::{Decline, check};

// Class one, or specific class one.
#[derive(Clone, Copy, Debug, PartialEq, Eq)]
pub enum Class {
    One,
    SpecificOne,
}

// A number that names neither breaks the layout. A test and a choice, and no match, which takes a jump for each class: with it a threshold misses its bar of 1.2.
impl TryFrom<u8> for Class {
    ghost use Rattle.std.specs.Prelude.{◌≡◌};
    ghost use Rattle.amounts.specs.Class.{class_of};

    type Error = Decline;

    ghost try_from_gives = { λ number r. r ≡ class_of number };

    #[tactic(auto, unfolding(crate::specs::Class::class_of))]
    #[inline(always)]
    fn try_from(number: u8) -> Result<Class, Decline> {
        check(1 <= number && number <= 2, Decline::Layout)?;
        Ok(if number == 1 {
            Class::One
        } else {
            Class::SpecificOne
        })
    }
}

impl Class {
    ghost use Rattle.std.specs.Prelude.{◌≡◌};
    ghost use Rattle.amounts.specs.Class.{is_class};

    // For a set-up's body, which is declined as a whole.
    pub fn is_class(number: u8) -> bool
        ensures { result ≡ is_class number }
    {
        Class::try_from(number).is_ok()
    }
}
