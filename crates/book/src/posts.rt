// Posts on a book, one by one and as a block of them.
ghost use Rattle.std.specs.Prelude.{◌≡◌, OnOk};
ghost use Rattle.amounts.specs.Decline.{value_or, verdict_of};
ghost use Rattle.book.specs.Posts.{posts_on, single_on};

use crate::site::Book;
use amounts::decline::Decline;
use layout::posts::POST_SIZE;
use post::admission::admit;

impl Book {
    // One post of any bytes.
    pub fn take_post(&mut self, s: &[u8]) -> Result<(), Decline>
        ensures verdict { result ≡ verdict_of (single_on self.old s.now) }
        ensures book { self.new ≡ value_or self.old (single_on self.old s.now) }
    {
        let m = admit(
            self.setup.outline,
            &self.setup.numbers,
            self.year.closed,
            self.year.posts,
            s,
        )?;
        self.year.enter(&self.setup, m)
    }

    // The posts of a kind 3 block, in place: a decline leaves those before it.
    pub(crate) fn take_posts(&mut self, count: u8, body: &[u8]) -> Result<(), Decline>
        ensures verdict { result ≡ verdict_of (posts_on self.old.setup self.old.year count body.now) }
        ensures taken { OnOk result (posts_on self.old.setup self.old.year count body.now ≡ Ok self.new.year) }
        ensures kept { (self.new.setup ≡ self.old.setup) × (self.new.blocks ≡ self.old.blocks) }
    {
        self.setup
            .outline
            .check_posts(self.year.closed, count, body)?;
        // By place, as the definition has the posts.
        for i in 0..usize::from(count) {
            let at = i * POST_SIZE;
            self.take_post(&body[at..at + POST_SIZE])?;
        }
        Ok(())
    }
}
