// What takes a writer's calls: a writer, or a counter that answers as a writer does.
ghost use Rattle.std.specs.Prelude.{◌≡◌, ℕ, Ok};
ghost use Rattle.pages.specs.Page.{Page, set_up_on, post_on};
ghost use Rattle.records.specs.Recorder.{Follows, ends, StandsFor};
ghost use Rattle.writer.specs.Writer.{page};

use amounts::decline::Decline;
use pages::counter::Counter;
use writer::writer::Writer;

pub trait Recorder {
    // The pages that it may stand for: a writer its own, a counter each over a buffer of so many bytes that has come as far.
    ghost is_at: { Self → Page → Type 0 };

    // The ghost name of the buffer that was lent, if one was.
    ghost lent: { Self → ℕ };

    fn set_up(&mut self, kind: u8, count: u8, body: &[u8]) -> Result<(), Decline>
        ensures { Follows lent is_at (λ p. set_up_on p kind count body.now) self.old self.new result };

    fn post(&mut self, post: &[u8]) -> Result<(), Decline>
        ensures { Follows lent is_at (λ p. post_on p post.now) self.old self.new result };

    // How many bytes are filled then.
    fn end(&mut self) -> usize
        ensures follows { Follows lent is_at ends self.old self.new (Ok (tt {0})) }
        ensures filled { (p : Page) → is_at self.new p → result ≡ p.filled };
}

// Each call is the counter's own, and below the writer's: the trait asks for them by name.
impl Recorder for Counter {
    ghost is_at = { StandsFor };

    ghost lent = { λ _. 0 };

    fn set_up(&mut self, kind: u8, count: u8, body: &[u8]) -> Result<(), Decline> {
        self.set_up(kind, count, body)
    }

    fn post(&mut self, post: &[u8]) -> Result<(), Decline> {
        self.post(post)
    }

    fn end(&mut self) -> usize {
        self.end()
    }
}

impl<'a> Recorder for Writer<'a> {
    ghost is_at = { λ writer p. page writer ≡ p };

    ghost lent = { λ writer. writer.buffer.ghost_name };

    fn set_up(&mut self, kind: u8, count: u8, body: &[u8]) -> Result<(), Decline> {
        self.set_up(kind, count, body)
    }

    fn post(&mut self, post: &[u8]) -> Result<(), Decline> {
        self.post(post)
    }

    fn end(&mut self) -> usize {
        self.end()
    }
}
