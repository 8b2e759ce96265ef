// A part of the set-up more, by what its block holds.
ghost use Rattle.std.specs.Prelude.{◌≡◌};
ghost use Rattle.amounts.specs.Decline.{value_or, verdict_of};
ghost use Rattle.plant.specs.Part.{setup_by};

use crate::setup::Setup;
use amounts::decline::Decline;
use layout::holds::SetupPart;

impl Setup {
    // A match on what a block holds, of which there are two kinds.
    pub fn add_part(&mut self, part: SetupPart, count: u8, body: &[u8]) -> Result<(), Decline>
        ensures verdict { result ≡ verdict_of (setup_by self.old part count body.now) }
        ensures setup { self.new ≡ value_or self.old (setup_by self.old part count body.now) }
    {
        match part {
            SetupPart::Materials => self.set_up(count, body),
            SetupPart::Stage => self.describe(count, body),
        }
    }
}
