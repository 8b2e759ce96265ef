// The desk at which steps are taken: each call on its book is a line.
use crate::blocks::{Body, Kind};
use crate::changes::Change;
use crate::posts::{Field, VAPOUR};
use crate::sites::Start;
use crate::steps::Step;
use crate::{blocks, line, posts, sites};
use bodies::setup::check_setup;
use bodies::stage::check_stage;
use book::site::Book;
use encoding::bytes;
use kinds::fields::Post;
use report::report::report_of;
use std::io::Stdout;
use stock::sheet::difference_of;

#[derive(Drop)]
struct Desk {
    out: Stdout,
    book: Book,
}

fn named(kind: Kind) -> &'static str {
    match kind {
        Kind::SetUp => "set-up",
        Kind::Stage => "stage",
    }
}

impl Desk {
    // Kind, material, stage, substance, content and quantity, and the floats of vapour or where one is not zero.
    fn post(&mut self, p: Post) {
        let places = [p.kind, p.material, p.stage, p.substance].map(u64::from);
        line::begin(self.out, "post", &places);
        line::list(self.out, &[u64::from(p.content), p.quantity]);
        if p.kind == VAPOUR || (p.w | p.u | p.p | p.q) != 0 {
            line::floats(self.out, &[p.w, p.u, p.p, p.q]);
        }
        line::verdict(self.out, self.book.take_post(&posts::encode(p)));
    }

    fn try_kinds(&mut self, first: u8, last: u8, field: Field) {
        for kind in first..=last {
            self.post(posts::tried(kind, field));
        }
    }

    // A post of any bytes, named by how many they are.
    fn bytes(&mut self, s: &[u8]) {
        line::begin(self.out, "bytes", &[s.len() as u64]);
        line::verdict(self.out, self.book.take_post(s));
    }

    fn length(&mut self, n: usize) {
        let mut all = [0; 96];
        bytes::put(
            &mut all,
            0,
            &posts::encode(posts::tried(posts::OPENING, Field::Same)),
        );
        self.bytes(bytes::between(&all, 0, n));
    }

    fn block(&mut self, kind: Kind, count: u8, body: &Body) {
        line::begin(self.out, named(kind), &[u64::from(count)]);
        line::verdict(self.out, blocks::give(&mut self.book, kind, count, body));
    }

    fn cut(&self, kind: Kind, count: u8, body: &Body, n: usize) {
        let mut all = [0; 501];
        bytes::put(&mut all, 0, body);
        let cut = bytes::between(&all, 0, n);
        let outline = self.book.setup().outline;
        line::begin(self.out, named(kind), &[u64::from(count)]);
        line::verdict(
            self.out,
            match kind {
                Kind::SetUp => check_setup(outline, count, cut),
                Kind::Stage => check_stage(outline, count, cut),
            },
        );
    }

    // Each change of the good body alone, on a book of its own.
    fn changed(&mut self, start: Start, kind: Kind, count: u8, changes: &[Change]) {
        for change in changes {
            let mut body = sites::good(kind);
            change.write(&mut body);
            change.show(self.out);
            self.book = start.book();
            self.block(kind, count, &body);
        }
    }

    fn report(&self, place: usize) {
        line::begin(self.out, "report", &[place as u64]);
        line::report(self.out, report_of(&self.book, place));
    }

    fn stock(&self, material: usize, grams: u64) {
        line::begin(self.out, "stock", &[material as u64, grams]);
        line::difference(self.out, difference_of(&self.book, material, grams));
    }

    fn take(&mut self, step: Step) {
        match step {
            Step::Title(title) => line::title(self.out, title),
            Step::Word(text) => line::word(self.out, text),
            Step::On(start) => self.book = start.book(),
            Step::Post(entry) => self.post(entry.post()),
            Step::Try(kind, field) => self.post(posts::tried(kind, field)),
            Step::TryKinds(first, last, field) => self.try_kinds(first, last, field),
            Step::Bytes(s) => self.bytes(s),
            Step::Length(n) => self.length(n),
            Step::SetUp(count, parts) => self.block(Kind::SetUp, count, &blocks::body_of(parts)),
            Step::Describe(place, parts) => self.block(Kind::Stage, place, &blocks::body_of(parts)),
            Step::Cut(kind, count, parts, n) => {
                self.cut(kind, count, &blocks::body_of(parts), n);
            }
            Step::SetUps(count, changes) => self.changed(Start::Fresh, Kind::SetUp, count, changes),
            Step::Stages(changes) => self.changed(Start::SetUp, Kind::Stage, 0, changes),
            Step::Report(place) => self.report(place),
            Step::Reports => {
                self.report(0);
                self.report(1);
            }
            Step::Stock(material, grams) => self.stock(material, grams),
        }
    }

    fn take_all(&mut self, steps: &[Step]) {
        for step in steps {
            self.take(*step);
        }
    }
}

// From a fresh book on.
pub(crate) fn run(out: Stdout, lists: &[&[Step]]) {
    let mut desk = Desk {
        out,
        book: Book::new(),
    };
    for list in lists {
        desk.take_all(list);
    }
}
