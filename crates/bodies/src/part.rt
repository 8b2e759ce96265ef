// What is asked of a set-up block's body, by what the block holds.
ghost use Rattle.std.specs.Prelude.{◌≡◌};
ghost use Rattle.amounts.specs.Decline.{checked};
ghost use Rattle.bodies.specs.Part.{part_checks};

use crate::{setup, stage};
use amounts::decline::Decline;
use layout::holds::SetupPart;
use layout::outline::Outline;

// A match on what a block holds, of which there are two kinds.
pub fn check_part(o: Outline, part: SetupPart, count: u8, body: &[u8]) -> Result<(), Decline>
    ensures { result ≡ checked (part_checks o part count body.now) (tt {0}) }
{
    match part {
        SetupPart::Materials => setup::check_setup(o, count, body),
        SetupPart::Stage => stage::check_stage(o, count, body),
    }
}
