// Pieces of a line, to a writer that may fail at one and take the next. A write that fails, is interrupted or takes nothing is a piece's last.
ghost use Rattle.std.specs.Prelude.{OnOk, decimal};
ghost use Rattle.std.specs.Io.KnownBytes.{Appends};

use itoa::Buffer;
use std::io;
use std::io::{ErrorKind, Write};

/// All the bytes. std's `write_all` makes an interrupted write again without end. The loop goes on by what a write took, and no iterator has that.
pub fn all<W: Write>(to: &mut W, bytes: &[u8]) -> io::Result<()>
    ensures { OnOk result (Appends (W.contents to.old) (W.contents to.new) bytes.now) }
{
    let mut rest = bytes;
    while !rest.is_empty() {
        let n = to.write(rest)?;
        if n == 0 {
            return Err(ErrorKind::WriteZero.into());
        }
        rest = &rest[n..];
    }
    Ok(())
}

/// A number in decimal digits.
pub fn number<W: Write>(to: &mut W, n: u64) -> io::Result<()>
    ensures { OnOk result (Appends (W.contents to.old) (W.contents to.new) (decimal n)) }
{
    all(to, Buffer::new().format(n).as_bytes())
}
