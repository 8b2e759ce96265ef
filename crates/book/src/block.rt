// A block on a book.
ghost use Rattle.std.specs.Prelude.{◌≡◌, OnOk, OnErr};
ghost use Rattle.amounts.specs.Decline.{value_or, verdict_of};
ghost use Rattle.book.specs.Block.{block_on};

use crate::site::Book;
use amounts::decline::Decline;
use layout::frame::read_frame;
use layout::holds::Holds;

impl Book {
    // One block of any bytes, in place: a decline leaves the posts before it.
    pub(crate) fn enter_block(&mut self, s: &[u8]) -> Result<(), Decline>
        ensures verdict { result ≡ verdict_of (block_on self.old s.now) }
        ensures taken { OnOk result (block_on self.old s.now ≡ Ok self.new) }
        ensures kept { OnErr result ((self.new.setup ≡ self.old.setup) × (self.new.blocks ≡ self.old.blocks)) }
    {
        let held = read_frame(self.blocks, s)?;
        let count = s[5];
        let body = &s[8..508];
        match held {
            Holds::SetUp(part) => self.setup.add_part(part, count, body)?,
            Holds::Posts => self.take_posts(count, body)?,
        }
        self.blocks += 1;
        Ok(())
    }

    // One block of any bytes.
    pub fn take_block(&mut self, s: &[u8]) -> Result<(), Decline>
        ensures verdict { result ≡ verdict_of (block_on self.old s.now) }
        ensures book { self.new ≡ value_or self.old (block_on self.old s.now) }
    {
        let year = self.year;
        let answer = self.enter_block(s);
        if answer.is_err() {
            self.year = year;
        }
        answer
    }
}
