// An input, a part at a time.
ghost use Rattle.std.specs.Prelude.{◌≡◌, ◌+◌, ◌-◌, ◌^◌, ◌<◌, ◌≤◌, ◌↔◌, IfOk, IsErr, IsTrue, length, drop};
ghost use Rattle.std.specs.Io.{ReadsAtMost};
ghost use Rattle.std.specs.Io.KnownBytes.{ReadConsumes};
ghost use Rattle.streams.specs.Input.{IsInterrupted, Retried, Behind, after_read, GoesOn, PartTook, most_parts, parts_left, reader_of, bytes_left};

use std::io;
use std::io::{ErrorKind, Read};
use std::ops::ControlFlow;

/// An input, and how many parts may still be asked for: a program ends, and nothing says that its input does.
#[derive(Clone, Copy, Drop)]
pub struct Input<R> {
    from: R,
    left: u64,
}

impl<R> Input<R> {
    pub fn new(from: R) -> Self
        ensures parts { parts_left result ≡ most_parts }
        ensures from { reader_of result ≡ from }
    {
        Input {
            from,
            left: u64::MAX,
        }
    }
}

impl<R: Read> Input<R> {
    /// Reads the next part: as many bytes as are lent, or fewer, which are the last ones.
    pub fn read_part(&mut self, part: &mut [u8]) -> io::Result<usize>
        ensures bound { ReadsAtMost result part.new }
        ensures took { PartTook (bytes_left R.remaining self.old) (bytes_left R.remaining self.new) part.new result }
        ensures counted { parts_left self.new ≡ parts_left self.old - 1 }
        ensures spent { parts_left self.old ≡ 0 → IsErr result }
    {
        self.left = self.left.checked_sub(1).ok_or(ErrorKind::Other)?;
        fill(&mut self.from, part)
    }
}

/// How often a call that a signal interrupts is made.
const TRIES: u32 = 100;

/// Whether a signal interrupted the call that gave this error.
fn is_interrupted(e: &io::Error) -> bool
    ensures { IsTrue result ↔ IsInterrupted e.now }
{
    e.kind() == ErrorKind::Interrupted
}

/// A call, made again where a signal interrupted it.
fn retry<T, F: FnMut() -> io::Result<T>>(call: &mut F) -> io::Result<T>
    requires { F.IsAlwaysCallable call.old }
    ensures { Retried F.step TRIES call.old result call.new }
{
    for _made in 1..TRIES {
        match call() {
            Err(e) if is_interrupted(&e) => {}
            answer => return answer,
        }
    }
    call()
}

/// One read.
fn read_once<R: Read>(from: &mut R, free: &mut [u8]) -> io::Result<usize>
    ensures bound { ReadsAtMost result free.new }
    ensures took { ReadConsumes (R.remaining from.old) (R.remaining from.new) result free.new }
{
    retry(&mut || from.read(free))
}

/// One read of what follows the bytes that are there.
fn read_behind<R: Read>(from: &mut R, part: &mut [u8], done: usize) -> io::Result<usize>
    requires { done ≤ length part.old }
    ensures behind { Behind done part.old part.new result }
    ensures took { ReadConsumes (R.remaining from.old) (R.remaining from.new) result (drop done part.new) }
{
    read_once(from, &mut part[done..])
}

/// By what a read behind so many bytes answered.
fn after_read(done: usize, got: io::Result<usize>) -> ControlFlow<io::Result<usize>, usize>
    requires { IfOk got (λ n. done + n < 2 ^ 64) }
    ensures { result ≡ after_read done got }
{
    match got {
        Ok(0) => ControlFlow::Break(Ok(done)),
        Ok(n) => ControlFlow::Continue(done + n),
        Err(e) => ControlFlow::Break(Err(e)),
    }
}

/// A part that goes on, of which so many bytes are there, with one read more.
fn read_on<R: Read>(
    from: &mut R,
    part: &mut [u8],
    done: usize,
) -> ControlFlow<io::Result<usize>, usize>
    requires { done < length part.old }
    ensures { GoesOn (R.remaining from.old) (R.remaining from.new) done part.old part.new result }
{
    let got = read_behind(from, part, done);
    after_read(done, got)
}

/// Reads until the part is full, the input ends or a read fails. The loop goes on by what a read gave, and no iterator has that.
fn fill<R: Read>(from: &mut R, part: &mut [u8]) -> io::Result<usize>
    ensures bound { ReadsAtMost result part.new }
    ensures took { PartTook (R.remaining from.old) (R.remaining from.new) part.new result }
{
    let mut done = 0;
    while done < part.len() {
        match read_on(from, part, done) {
            ControlFlow::Continue(more) => done = more,
            ControlFlow::Break(answer) => return answer,
        }
    }
    Ok(done)
}
