// The books that steps begin on: 80 in class 1 and 81, which has no coefficient row, in class 2.
use crate::blocks::{Body, Kind, Part, ResiduesTo, Side, WaterTo};
use crate::posts::Entry;
use crate::{blocks, posts};
use book::site::Book;

// The first material is full, the second holds 81 only.
pub(crate) const PLANT: [Part; 6] = [
    Part::Counts(2, 2),
    Part::Substance(0, 80, 1),
    Part::Substance(1, 81, 2),
    Part::Content(0, 0, 400_000),
    Part::Content(0, 1, 600_000),
    Part::Content(1, 1, 1_000),
];

pub(crate) const STAGE: [Part; 3] = [
    Part::Ways(WaterTo::Public, ResiduesTo::Landfill),
    Part::Treated(0, Side::Gas, [500_000, 250_000, 0, 0]),
    Part::Treated(1, Side::WasteWater, [0, 0, 125_000, 1_000_000]),
];

#[derive(Clone, Copy)]
pub(crate) enum Start {
    Fresh,
    // No stage is described.
    SetUp,
    Described,
    Standing,
    Closed,
    // A post is left to the limit.
    Filled,
    // As many posts as a book takes, 2,000,000,000 bought of the second material with each.
    Full,
}

// The body that a kind's changes are tried on.
pub(crate) fn good(kind: Kind) -> Body {
    match kind {
        Kind::SetUp => blocks::body_of(&PLANT),
        Kind::Stage => blocks::body_of(&STAGE),
    }
}

fn set_up() -> Book {
    let mut book = Book::new();
    let _ = blocks::give(&mut book, Kind::SetUp, 2, &good(Kind::SetUp));
    book
}

fn described() -> Book {
    let mut book = set_up();
    for place in 0..2 {
        let _ = blocks::give(&mut book, Kind::Stage, place, &good(Kind::Stage));
    }
    book
}

fn repeat(book: &mut Book, entry: Entry, times: u32) {
    let post = posts::encode(entry.post());
    for _ in 0..times {
        let _ = book.take_post(&post);
    }
}

// 600 g of the first material in store; 160 g of 80 and 500,240 g of 81 held by the first stage.
fn standing() -> Book {
    let mut book = described();
    repeat(&mut book, Entry::Opening(0, 1_000), 1);
    repeat(&mut book, Entry::Issued(0, 0, 400), 1);
    repeat(&mut book, Entry::Formed(0, 1, 500_000_000_000), 1);
    book
}

fn closed() -> Book {
    let mut book = standing();
    repeat(&mut book, Entry::Close, 1);
    book
}

// 3,999 posts, of the most that one may bring.
fn filled() -> Book {
    let mut book = described();
    let micrograms = 2_000_000_000_000_000;
    repeat(&mut book, Entry::Formed(1, 1, micrograms), 2_000);
    repeat(&mut book, Entry::Formed(0, 0, micrograms), 1_998);
    repeat(&mut book, Entry::Bought(0, 2_000_000_000), 1);
    book
}

fn full() -> Book {
    let mut book = described();
    repeat(&mut book, Entry::Bought(1, 2_000_000_000), 4_000);
    book
}

impl Start {
    pub(crate) fn book(self) -> Book {
        match self {
            Start::Fresh => Book::new(),
            Start::SetUp => set_up(),
            Start::Described => described(),
            Start::Standing => standing(),
            Start::Closed => closed(),
            Start::Filled => filled(),
            Start::Full => full(),
        }
    }
}
