// The book of a site: its set-up, its year, which posts change, and its count of blocks.
ghost use Rattle.std.specs.Prelude.{◌≡◌};
ghost use Rattle.book.specs.Site.{Sound, fresh_book, fresh_year};

use plant::setup::Setup;
use std::marker::Model;

// The store in grams by material; the ledger's sums in micrograms, at account * 64 + stage * 8 + substance; what was handled of each
// substance; the posts accepted; and whether the close is among them. The sums are one list, so that one law of a cell and one of a total serve all accounts.
#[derive(Clone, Copy)]
pub struct Year {
    pub store: [u64; 12],
    pub sums: [u64; 576],
    pub handled: [u64; 8],
    pub posts: u32,
    pub closed: bool,
}

impl Year {
    fn new() -> Year
        ensures { result ≡ fresh_year }
    {
        Year {
            store: [0; 12],
            sums: [0; 576],
            handled: [0; 8],
            posts: 0,
            closed: false,
        }
    }
}

// A book is sound at every moment, whatever calls made it.
#[derive(Clone, Copy)]
pub struct Book {
    pub(crate) setup: Setup,
    pub(crate) year: Year,
    pub(crate) blocks: u32,
}

impl Model for Book {
    ghost use Rattle.book.specs.Site.{Book, Sound, book_with};

    ghost Value = { Book };

    ghost view = { λ b. book_with b.setup b.year b.blocks };

    ghost invariant = { λ b. Sound (book_with b.setup b.year b.blocks) };

    ghost inverse = { λ b. record { setup = b.setup; year = b.year; blocks = b.blocks } };
}

impl Book {
    // A fresh book.
    #[tactic(auto, using(crate::proofs::site::Laws::sound_fresh))]
    pub fn new() -> Book
        ensures { result ≡ fresh_book }
    {
        Book {
            setup: Setup::new(),
            year: Year::new(),
            blocks: 0,
        }
    }

    // How many blocks the book has taken, which is the number of the next.
    pub fn block_number(&self) -> u32
        ensures value { result ≡ self.now.blocks }
        ensures sound { Sound self.now }
    {
        self.blocks
    }

    pub fn setup(&self) -> &Setup
        ensures value { result.now ≡ self.now.setup }
        ensures sound { Sound self.now }
    {
        &self.setup
    }

    pub fn year(&self) -> &Year
        ensures value { result.now ≡ self.now.year }
        ensures sound { Sound self.now }
    {
        &self.year
    }
}
