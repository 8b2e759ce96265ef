// A writer over a lent buffer: a counter, whose blocks stand at the start of the buffer, and the block that is being filled.
ghost use Rattle.std.specs.Prelude.{◌≡◌, ◌+◌, ◌*◌, ◌≤◌, ◌<◌, length, replicate};
ghost use Rattle.layout.specs.Frame.{body_of, block_of};
ghost use Rattle.encoding.specs.Bytes.{placed};

use crate::draft::Draft;
use amounts::decline::Decline;
use encoding::bytes;
use layout::frame;
use layout::posts::POST_SIZE;
use pages::counter::{BLOCK_SIZE, Counter};

// The block holds the posts that wait, and zeros behind them: it is written whole, so that it is an array and not a list of posts. The buffer is lent by the host.
#[derive(Drop)]
pub struct Writer<'a> {
    buffer: &'a mut [u8],
    counter: Counter,
    block: [u8; 512],
    pub ghost room_is: { counter.room ≡ length buffer.now },
}

impl<'a> Writer<'a> {
    ghost use Rattle.pages.specs.Page.{posts_block, set_up_on, post_on, ended, Answers};
    ghost use Rattle.writer.specs.Writer.{page, draft, IsNew, Resumes, Kept};

    pub fn new(buffer: &'a mut [u8]) -> Writer<'a>
        ensures { IsNew buffer.entry result }
    {
        let counter = Counter::new(buffer.len());
        Writer {
            buffer,
            counter,
            block: [0; 512],
        }
    }

    // How many bytes are filled.
    pub fn filled(&self) -> usize
        ensures { result ≡ (page self.now).filled }
    {
        self.counter.filled()
    }

    // How far the writer has come, to go on from there later.
    pub fn draft(&self) -> Draft
        ensures { draft result ≡ (page self.now).draft }
    {
        Draft {
            counter: self.counter,
            block: self.block,
        }
    }

    // The writer goes on from an earlier draft, its own or another's, where the buffer has room for it. The draft's blocks are taken to stand in the buffer.
    pub fn resume(&mut self, earlier: Draft) -> Result<(), Decline>
        ensures kept { Kept self.old self.new }
        ensures resumes { Resumes (page self.old) (draft earlier) result (page self.new) }
    {
        let Draft { counter, block } = earlier;
        self.counter = counter.with_room(self.counter.room)?;
        self.block = block;
        Ok(())
    }

    // A set-up block of any kind, count and body.
    pub fn set_up(&mut self, kind: u8, count: u8, body: &[u8]) -> Result<(), Decline>
        ensures kept { Kept self.old self.new }
        ensures answers { Answers (page self.old) (set_up_on (page self.old) kind count body.now) result (page self.new) }
    {
        let number = self.counter.tally.blocks;
        self.counter.set_up(kind, count, body)?;
        let mut block = [0; 512];
        bytes::put(&mut block, 8, body);
        put_block(self.buffer, number, kind, count, block);
        Ok(())
    }

    // The block with so many posts is written at its number, and the next one begun. The kind of posts is 3: in a block a kind is a byte.
    fn write_posts(&mut self, number: u32, count: u8)
        requires number_bound { number < 65536 }
        requires within { number * 512 + 512 ≤ length self.old.buffer.now }
        ensures kept { Kept self.old self.new }
        ensures counter_stays { self.new.counter ≡ self.old.counter }
        ensures begun { self.new.block ≡ replicate 512 0 }
        ensures written { self.new.buffer.now ≡ placed self.old.buffer.now (number * 512) (posts_block count number self.old.block) }
    {
        put_block(self.buffer, number, 3, count, self.block);
        self.block = [0; 512];
    }

    // A post of any bytes. The tenth of a block writes it.
    pub fn post(&mut self, post: &[u8]) -> Result<(), Decline>
        ensures kept { Kept self.old self.new }
        ensures answers { Answers (page self.old) (post_on (page self.old) post.now) result (page self.new) }
    {
        let before = self.counter.tally;
        self.counter.post(post)?;
        bytes::put(
            &mut self.block,
            8 + usize::from(before.waiting) * POST_SIZE,
            post,
        );
        if before.waiting == 9 {
            self.write_posts(before.blocks, 10);
        }
        Ok(())
    }

    // The posts that wait are written. How many bytes are filled.
    pub fn end(&mut self) -> usize
        ensures kept { Kept self.old self.new }
        ensures ends { page self.new ≡ ended (page self.old) }
        ensures filled { result ≡ (page self.new).filled }
    {
        let before = self.counter.tally;
        let filled = self.counter.end();
        if before.waiting != 0 {
            self.write_posts(before.blocks, before.waiting);
        }
        filled
    }
}

// The block of a body and a number is put in its place. Its kind is a byte, as in the block.
fn put_block(buffer: &mut [u8], number: u32, kind: u8, count: u8, block: [u8; 512])
    requires number_bound { number < 65536 }
    requires within { number * 512 + 512 ≤ length buffer.old }
    ensures { buffer.new ≡ placed buffer.old (number * 512) (block_of kind count number (body_of block)) }
{
    let framed = frame::framed(block, kind, count, number as u16);
    bytes::put(buffer, number as usize * BLOCK_SIZE, &framed);
}
