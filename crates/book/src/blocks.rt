// A whole journal on a fresh book.
ghost use Rattle.std.specs.Prelude.{◌≡◌};
ghost use Rattle.book.specs.Site.{Sound, fresh_book};
ghost use Rattle.book.specs.Blocks.{parts_in, read_all};

use crate::site::Book;
use amounts::decline::Decline;

// The first block that is declined, by its place from 0, and why.
#[derive(Clone, Copy)]
pub struct Refused {
    pub place: u32,
    pub decline: Decline,
}

impl Refused {
    // A journal that is refused leaves a fresh book.
    #[tactic(auto, using(crate::proofs::site::Laws::sound_fresh))]
    pub fn book(self) -> Book
        ensures value { result ≡ fresh_book }
        ensures sound { Sound result }
    {
        Book::new()
    }
}

// The book after the blocks of a journal, or the first that is declined. No block copies the book.
pub fn take_blocks(journal: &[u8]) -> Result<Book, Refused>
    ensures { result ≡ read_all fresh_book 0 (parts_in journal.now) }
{
    let mut book = Book::new();
    for part in journal.chunks(512) {
        let place = book.block_number();
        // With `map_err` and `?` the proof isn't told what the closure answers.
        if let Err(decline) = book.enter_block(part) {
            return Err(Refused { place, decline });
        }
    }
    Ok(book)
}
