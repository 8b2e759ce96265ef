// How far a writer has come.
ghost use Rattle.std.specs.Prelude.{◌≡◌, ◌<◌, true};
ghost use Rattle.layout.specs.Outline.{may_describe};
ghost use Rattle.layout.specs.declared.holds.SetupPart.TheVariants.{Stage};
ghost use Rattle.pages.specs.Tally.{outline_after, set_up, finished, posted, ended};

use bodies::setup;
use layout::holds::SetupPart;
use layout::outline::Outline;

// The outline of the set-up blocks that are written, the posts that wait for their block, and the blocks that are written.
#[derive(Clone, Copy, Default)]
pub struct Tally {
    pub outline: Outline,
    pub waiting: u8,
    pub blocks: u32,
}

// That a number is free is what the checks before a step find, and so is asked of each step.
impl Tally {
    // After a part of the set-up.
    #[tactic(auto, unfolding(crate::specs::Tally::set_up))]
    pub(crate) fn set_up(self, part: SetupPart, count: u8, body: &[u8]) -> Tally
        requires in_turn { part ≡ Stage → may_describe self.outline count ≡ true }
        requires number_bound { self.blocks < 65536 }
        ensures { result ≡ set_up self part count body.now }
    {
        Tally {
            outline: outline_after(self.outline, part, count, body),
            blocks: self.blocks + 1,
            ..self
        }
    }

    // A block of posts is written.
    fn finished(self) -> Tally
        requires { self.blocks < 65536 }
        ensures { result ≡ finished self }
    {
        Tally {
            waiting: 0,
            blocks: self.blocks + 1,
            ..self
        }
    }

    // After a post: the tenth makes a block.
    #[tactic(auto, unfolding(crate::specs::Tally::posted))]
    pub(crate) fn posted(self) -> Tally
        requires few { self.waiting < 10 }
        requires number_bound { self.blocks < 65536 }
        ensures { result ≡ posted self }
    {
        if self.waiting == 9 {
            self.finished()
        } else {
            Tally {
                waiting: self.waiting + 1,
                ..self
            }
        }
    }

    // After an end: the posts that wait, if any, are a block.
    #[tactic(auto, unfolding(crate::specs::Tally::ended))]
    pub(crate) fn ended(self) -> Tally
        requires { 0 < self.waiting → self.blocks < 65536 }
        ensures { result ≡ ended self }
    {
        if self.waiting == 0 {
            self
        } else {
            self.finished()
        }
    }
}

// A match on what a block holds, of which there are two kinds.
fn outline_after(o: Outline, part: SetupPart, count: u8, body: &[u8]) -> Outline
    requires { part ≡ Stage → may_describe o count ≡ true }
    ensures { result ≡ outline_after o part count body.now }
{
    match part {
        SetupPart::Materials => setup::outline_of(count, body),
        SetupPart::Stage => Outline {
            described: o.described + 1,
            ..o
        },
    }
}
