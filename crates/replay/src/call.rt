// The calls of a book, as records ask for them and as lines answer them.
use crate::line;
use book::site::Book;
use encoding::bytes;
use report::report::report_of;
use std::io;
use std::io::Write;
use stock::sheet::difference_of;
use streams::output::Output;
use streams::record::Record;

#[derive(Clone, Copy)]
pub(crate) enum Call<'a> {
    Post(&'a [u8]),
    Block(&'a [u8]),
    /// The place of a substance.
    Report(u8),
    /// A line of the stock takers' sheet.
    Stock { material: u8, grams: u64 },
}

impl<'a> Call<'a> {
    /// None where a record has another tag, or not the bytes of its tag. A tag is read here alone, so that each letter stands here, and not in an enum.
    pub(crate) fn of(record: Record<'a>) -> Option<Call<'a>> {
        let Record { tag, body } = record;
        match (tag, body) {
            (b'P', _) => Some(Call::Post(body)),
            (b'B', _) => Some(Call::Block(body)),
            (b'R', [place]) => Some(Call::Report(*place)),
            (b'S', [material, grams @ ..]) if grams.len() == 8 => Some(Call::Stock {
                material: *material,
                grams: bytes::le64(grams, 0),
            }),
            _ => None,
        }
    }

    /// Writes the line of what the book answers.
    pub(crate) fn answer<W: Write>(self, book: &mut Book, out: &mut Output<W>) -> io::Result<()> {
        match self {
            Call::Post(s) => line::post(out, book.take_post(s)),
            Call::Block(s) => line::block(out, book.take_block(s)),
            Call::Report(place) => line::report(out, place, report_of(book, usize::from(place))),
            Call::Stock { material, grams } => {
                line::stock(out, difference_of(book, usize::from(material), grams))
            }
        }
    }
}
