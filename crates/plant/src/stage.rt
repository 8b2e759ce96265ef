// Kind 2: the set-up with a stage described as a body says.
ghost use Rattle.std.specs.Prelude.{◌≡◌, ◌+◌, ◌*◌, ◌≤◌, ◌<◌, length, drop, get_or};
ghost use Rattle.amounts.specs.Decline.{value_or, verdict_of};
ghost use Rattle.bodies.specs.Stage.{second_of, rates_at};
ghost use Rattle.plant.specs.Stage.{pair_of, stage_of, with_stage, described_on};

use crate::setup::{Pair, Setup, Stage};
use amounts::decline::Decline;
use bodies::stage::{check_stage, is_second, rates_at};
use encoding::bytes;

// The pair of the row that stands from a place on.
fn pair_at(s: &[u8], at: usize) -> Pair
    ensures { result ≡ pair_of (second_of (get_or s.now at 0)) (rates_at (drop at s.now)) }
{
    Pair {
        to_water: is_second(bytes::byte_at(s, at)),
        rates: rates_at(s, at),
    }
}

// A stage as its body's first two bytes have it.
fn stage_of(body: &[u8]) -> Stage
    ensures { result ≡ stage_of body.now }
{
    Stage {
        to_sewer: is_second(bytes::byte_at(body, 0)),
        to_landfill: is_second(bytes::byte_at(body, 1)),
    }
}

impl Setup {
    // A stage as the body says. A pair's place and its row's go by one index.
    #[tactic(auto, using(crate::proofs::stage::Laws::paired_more), unfolding(encoding::specs::Each::put_to))]
    fn add_stage(&mut self, stage: u8, body: &[u8])
        requires { (stage < 8) × (self.old.outline.substances ≤ 8) × (length body.now ≡ 500) }
        ensures { self.new ≡ with_stage self.old stage body.now }
    {
        let k = usize::from(stage);
        let rows = bytes::tail(body, 2);
        for i in 0..usize::from(self.outline.substances) {
            self.pairs[k * 8 + i] = pair_at(rows, i * 17);
        }
        self.stages[k] = stage_of(body);
        self.outline.described = stage + 1;
    }

    // One stage more, described by a kind 2 block.
    pub fn describe(&mut self, stage: u8, body: &[u8]) -> Result<(), Decline>
        ensures verdict { result ≡ verdict_of (described_on self.old stage body.now) }
        ensures setup { self.new ≡ value_or self.old (described_on self.old stage body.now) }
    {
        check_stage(self.outline, stage, body)?;
        self.add_stage(stage, body);
        Ok(())
    }
}
