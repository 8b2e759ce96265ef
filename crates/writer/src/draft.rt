// What a writer has besides its buffer. A call over any buffer from a draft that was kept is a new writer's `resume`, the call, and `filled` and `draft`.
use pages::counter::Counter;

// How far the writer has come, and the block with the posts that wait.
#[derive(Clone, Copy)]
pub struct Draft {
    pub(crate) counter: Counter,
    pub(crate) block: [u8; 512],
}
