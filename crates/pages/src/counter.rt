// A writer that writes nothing: its calls answer as they do of a writer over a buffer of so many bytes.
ghost use Rattle.std.specs.Prelude.{◌≡◌, ◌*◌, MatchResult};
ghost use Rattle.amounts.specs.Decline.{checked, verdict_of};
ghost use Rattle.amounts.specs.declared.decline.Decline.TheVariants.{NoRoom};
ghost use Rattle.pages.specs.Tally.{fresh_tally, is_free, part_of_kind, set_up_checks, may_begin, post_answer};
ghost use Rattle.pages.specs.Tally.{set_up_on, post_on, ended, Sound, Counts};

use crate::tally::Tally;
use amounts::decline::{Decline, check};
use bodies::part::check_part;
use layout::holds::{Holds, SetupPart};
use post::moves;

pub const BLOCK_SIZE: usize = 512;

// How far it has come, of so many bytes.
#[derive(Clone, Copy)]
pub struct Counter {
    pub room: usize,
    pub tally: Tally,
    pub ghost sound: { Sound room tally },
}

impl Counter {
    pub fn new(room: usize) -> Counter
        ensures room_is { result.room ≡ room }
        ensures nothing_yet { result.tally ≡ fresh_tally }
    {
        Counter {
            room,
            tally: Tally::default(),
        }
    }

    // How many bytes are filled.
    pub fn filled(&self) -> usize
        ensures { result ≡ self.now.tally.blocks * 512 }
    {
        self.tally.blocks as usize * BLOCK_SIZE
    }

    // Whether there are a number and 512 bytes for a block more.
    fn is_free(&self) -> bool
        ensures { result ≡ is_free self.now.room self.now.tally }
    {
        self.tally.blocks < 65536 && self.room / BLOCK_SIZE > self.tally.blocks as usize
    }

    fn may_begin(&self) -> bool
        ensures { result ≡ may_begin self.now.room self.now.tally }
    {
        self.tally.waiting != 0 || self.is_free()
    }

    fn check_set_up(&self, part: SetupPart, count: u8, body: &[u8]) -> Result<(), Decline>
        ensures { result ≡ checked (set_up_checks self.now.room self.now.tally part count body.now) (tt {0}) }
    {
        check_part(self.tally.outline, part, count, body)?;
        check(self.is_free(), Decline::NoRoom)
    }

    #[tactic(auto, using(crate::proofs::tally::Laws::post_verdict), unfolding(amounts::specs::Decline::checked))]
    fn check_post(&self, post: &[u8]) -> Result<(), Decline>
        ensures { result ≡ verdict_of (post_answer self.now.room self.now.tally post.now) }
    {
        check(self.tally.outline.may_post(), Decline::OutOfTurn)?;
        moves::check_post(self.tally.outline, post)?;
        check(self.may_begin(), Decline::NoRoom)
    }

    // As far along in another room, where that holds the blocks that are written and the one that posts wait for.
    pub fn with_room(self, room: usize) -> Result<Counter, Decline>
        ensures { MatchResult result (λ moved. (moved.room ≡ room) × (moved.tally ≡ self.tally)) (λ why. (Sound room self.tally → ⊥) × (why ≡ NoRoom)) }
    {
        let begun = self.tally.blocks as usize + usize::from(self.tally.waiting != 0);
        check(begun <= room / BLOCK_SIZE, Decline::NoRoom)?;
        Ok(Counter {
            room,
            tally: self.tally,
        })
    }

    // A set-up block of any kind, count and body.
    pub fn set_up(&mut self, kind: u8, count: u8, body: &[u8]) -> Result<(), Decline>
        ensures room_stays { self.new.room ≡ self.old.room }
        ensures counts { Counts self.old.tally (set_up_on self.old.room self.old.tally kind count body.now) result self.new.tally }
    {
        let part = part_of_kind(kind)?;
        self.check_set_up(part, count, body)?;
        self.tally = self.tally.set_up(part, count, body);
        Ok(())
    }

    // A post of any bytes.
    #[tactic(auto, using(crate::proofs::tally::Laws::post_on_is))]
    pub fn post(&mut self, post: &[u8]) -> Result<(), Decline>
        ensures room_stays { self.new.room ≡ self.old.room }
        ensures counts { Counts self.old.tally (post_on self.old.room self.old.tally post.now) result self.new.tally }
    {
        self.check_post(post)?;
        self.tally = self.tally.posted();
        Ok(())
    }

    // An end: the posts that wait, if any, are a block. How many bytes are filled then.
    pub fn end(&mut self) -> usize
        ensures room_stays { self.new.room ≡ self.old.room }
        ensures ends { self.new.tally ≡ ended self.old.tally }
        ensures filled { result ≡ self.new.tally.blocks * 512 }
    {
        self.tally = self.tally.ended();
        self.filled()
    }
}

// A kind that holds posts, or that is none, is no part of the set-up.
#[tactic(auto, unfolding(crate::specs::Tally::part_of_kind))]
fn part_of_kind(kind: u8) -> Result<SetupPart, Decline>
    ensures { result ≡ part_of_kind kind }
{
    match Holds::try_from(kind) {
        Ok(Holds::SetUp(part)) => Ok(part),
        _ => Err(Decline::Layout),
    }
}
