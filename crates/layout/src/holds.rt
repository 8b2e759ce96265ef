// What a block holds, by its kind: a part of the set-up, or posts.
ghost use Rattle.std.specs.Prelude.{◌≡◌};
ghost use Rattle.amounts.specs.Decline.{is_taken};
ghost use Rattle.layout.specs.Holds.{holds_of};

use amounts::decline::Decline;

// The substances and materials, or a stage.
#[derive(Clone, Copy)]
pub enum SetupPart {
    Materials,
    Stage,
}

#[derive(Clone, Copy)]
pub enum Holds {
    SetUp(SetupPart),
    Posts,
}

// What a block of a kind holds. A kind that has no row is never the next.
impl TryFrom<u8> for Holds {
    type Error = Decline;

    ghost try_from_gives = { λ kind r. r ≡ holds_of kind };

    #[tactic(auto, unfolding(crate::specs::Holds::holds_of, crate::specs::Holds::find, crate::specs::Holds::rows))]
    fn try_from(kind: u8) -> Result<Holds, Decline> {
        match kind {
            1 => Ok(Holds::SetUp(SetupPart::Materials)),
            2 => Ok(Holds::SetUp(SetupPart::Stage)),
            3 => Ok(Holds::Posts),
            _ => Err(Decline::NotNext),
        }
    }
}

// For the frame, which is checked as a whole.
pub fn is_kind(kind: u8) -> bool
    ensures { result ≡ is_taken (holds_of kind) }
{
    Holds::try_from(kind).is_ok()
}
