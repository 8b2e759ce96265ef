// An output. Behind a write that failed nothing more is written.
ghost use Rattle.std.specs.Prelude.{◌≡◌, ◌<◌, length, true, false, IfOk, IfSome, OnOk, IsErr, is_err};
ghost use Rattle.std.specs.Io.{WritesAtMost};
ghost use Rattle.std.specs.Io.KnownBytes.{Appends, Keeps, WriteAppends};
ghost use Rattle.streams.specs.Output.{Stays, has_failed, writer_of, bytes_in};

use crate::writing;
use std::fmt::Display;
use std::io;
use std::io::{ErrorKind, Write};

/// A flag, and not an `Option` of the writer: what is known of a writer's bytes stays known behind a failure.
#[derive(Clone, Copy, Drop)]
pub struct Output<W> {
    to: W,
    has_failed: bool,
}

impl<W> Output<W> {
    pub fn new(to: W) -> Self
        ensures to { writer_of result ≡ to }
        ensures open { has_failed result ≡ false }
    {
        Output {
            to,
            has_failed: false,
        }
    }

    /// Whether more may be written.
    fn check(&self) -> io::Result<()>
        ensures { is_err result ≡ has_failed self.now }
    {
        if self.has_failed {
            return Err(ErrorKind::BrokenPipe.into());
        }
        Ok(())
    }
}

impl<W: Write> Output<W> {
    /// What `write!` and `writeln!` call: a text in its pieces, up to the first that fails.
    pub fn write_fmt<D: Display + Drop>(&mut self, text: D) -> io::Result<()>
        ensures bytes { OnOk result (IfSome (D.output text) (Appends (bytes_in W.contents self.old) (bytes_in W.contents self.new))) }
        ensures told { has_failed self.new ≡ is_err result }
        ensures stays { Stays self.old result self.new }
    {
        Output::check(self)?;
        let answer = Write::write_fmt(self, text);
        self.has_failed = answer.is_err();
        answer
    }
}

impl<W: Write> Write for Output<W> {
    ghost contents = { bytes_in W.contents };

    /// A write that takes none of the bytes has failed.
    fn write(&mut self, bytes: &[u8]) -> io::Result<usize>
        ensures bound { WritesAtMost result bytes.now }
        ensures bytes { WriteAppends (bytes_in W.contents self.old) (bytes_in W.contents self.new) result bytes.now }
        ensures some { IfOk result (λ n. 0 < length bytes.now → 0 < n) }
        ensures told { has_failed self.new ≡ is_err result }
        ensures stays { Stays self.old result self.new }
    {
        self.check()?;
        let written = match self.to.write(bytes) {
            Ok(0) if !bytes.is_empty() => Err(ErrorKind::WriteZero.into()),
            written => written,
        };
        self.has_failed = written.is_err();
        written
    }

    fn flush(&mut self) -> io::Result<()>
        ensures bytes { Keeps (bytes_in W.contents self.old) (bytes_in W.contents self.new) }
        ensures told { has_failed self.new ≡ is_err result }
        ensures stays { Stays self.old result self.new }
    {
        self.check()?;
        let flushed = self.to.flush();
        self.has_failed = flushed.is_err();
        flushed
    }

    /// A write that a signal interrupts has failed, and isn't tried again.
    fn write_all(&mut self, bytes: &[u8]) -> io::Result<()>
        ensures bytes { OnOk result (Appends (bytes_in W.contents self.old) (bytes_in W.contents self.new) bytes.now) }
        ensures told { has_failed self.new ≡ is_err result }
        ensures stays { Stays self.old result self.new }
    {
        self.check()?;
        let all = writing::all(&mut self.to, bytes);
        self.has_failed = all.is_err();
        all
    }
}
