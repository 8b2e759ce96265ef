// What a journal prints: fed one part of the input at a time, or whole.
ghost use Rattle.std.specs.Prelude.{◌≡◌};
ghost use Rattle.journal.specs.Reading.{printed_of};

use amounts::decline::Decline;
use book::blocks::take_blocks;
use book::site::Book;
use text::print::{refusal_of, return_of};
use text::writing::Text;

// A journal as far as it was fed: the book after the blocks that it took, and why the block after them was declined, if it was.
#[derive(Clone, Copy)]
pub struct Reading {
    book: Book,
    stopped: Option<Decline>,
}

impl Reading {
    ghost use Rattle.book.specs.Site.{Sound};
    ghost use Rattle.journal.specs.Reading.{started, fed, has_stopped, text_of, Advances};

    pub fn new() -> Reading
        ensures value { result ≡ started }
        ensures sound { Sound result.book }
    {
        Reading {
            book: Book::new(),
            stopped: None,
        }
    }

    // One part more: 512 bytes, or a shorter last part. After a decline nothing changes.
    pub fn feed(&mut self, part: &[u8])
        ensures value { self.new ≡ fed self.old part.now }
        ensures sound { Sound self.new.book }
        ensures advances { Advances self.old self.new }
    {
        if self.stopped.is_none() {
            self.stopped = self.book.take_block(part).err();
        }
        // Sound: reading the book tells it.
        prove!(self.book.block_number() <= 65536);
    }

    // Whether a part was declined, after which no other counts.
    pub fn has_stopped(&self) -> bool
        ensures { result ≡ has_stopped self.now }
    {
        self.stopped.is_some()
    }

    // What there is to print after the parts that were fed.
    pub fn text(&self) -> Text
        ensures { result.items ≡ text_of self.now }
    {
        match self.stopped {
            None => return_of(&self.book),
            Some(decline) => refusal_of(self.book.block_number(), decline.number()),
        }
    }
}

// What a whole journal in memory prints.
pub fn text_of_journal(journal: &[u8]) -> Text
    ensures { result.items ≡ printed_of journal.now }
{
    match take_blocks(journal) {
        Ok(book) => return_of(&book),
        Err(refused) => refusal_of(refused.place, refused.decline.number()),
    }
}
