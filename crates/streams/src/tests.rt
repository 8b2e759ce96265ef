// What no clause says: a failure that is told was one, how often a read is tried, that nothing reaches an output that failed, and that each piece of a line on
// standard error is tried.
use crate::input::Input;
use crate::output::Output;
use crate::record::{Record, RecordError};
use crate::trouble::Trouble;
use std::io;
use std::io::{ErrorKind, Read, Write};

/// A stream whose calls move a byte each, but for those behind the first `whole`, which fail so many times.
#[derive(Drop)]
struct Faulty {
    whole: u32,
    times: u32,
    kind: ErrorKind,
    calls: u32,
}

impl Faulty {
    fn new(whole: u32, times: u32, kind: ErrorKind) -> Faulty {
        Faulty {
            whole,
            times,
            kind,
            calls: 0,
        }
    }

    fn call(&mut self) -> io::Result<()> {
        let before = self.calls;
        self.calls = before.saturating_add(1);
        if before >= self.whole && before - self.whole < self.times {
            return Err(self.kind.into());
        }
        Ok(())
    }
}

impl Read for Faulty {
    fn read(&mut self, buf: &mut [u8]) -> io::Result<usize> {
        self.call()?;
        match buf.first_mut() {
            Some(first) => *first = 1,
            None => return Ok(0),
        }
        Ok(1)
    }
}

impl Write for Faulty {
    fn write(&mut self, buf: &[u8]) -> io::Result<usize> {
        self.call()?;
        Ok(buf.len().min(1))
    }

    fn flush(&mut self) -> io::Result<()> {
        self.call()
    }
}

#[test]
fn tells_a_failed_read(rt: HostRuntime) {
    let interrupted = ErrorKind::Interrupted;
    let other = ErrorKind::Other;
    let cases = [
        (0, 99, interrupted, 102, None),
        (0, 100, interrupted, 100, Some(interrupted)),
        (2, 99, interrupted, 102, None),
        (2, 100, interrupted, 102, Some(interrupted)),
        (0, 1, other, 1, Some(other)),
        (2, 1, other, 3, Some(other)),
        (3, 1, other, 3, None),
    ];
    for (whole, times, kind, calls, want) in cases {
        let mut from = Faulty::new(whole, times, kind);
        let mut part = [0; 3];
        let told = Input::new(&mut from).read_part(&mut part);
        assert_eq!(rt; told.as_ref().err().map(|e| e.kind()), want);
        assert_eq!(rt; from.calls, calls);
    }
}

#[test]
fn reads_records(rt: HostRuntime) {
    let mut space = [0; 2];
    let mut input = Input::new(&b"A\x02\x00xyB\x00\x00C\x03\x00"[..]);
    let first = input.read_record(&mut space);
    assert!(rt;
        matches!(
            first,
            Ok(Some(Record {
                tag: b'A',
                body: b"xy"
            }))
        )
    );
    let second = input.read_record(&mut space);
    assert!(rt;
        matches!(
            second,
            Ok(Some(Record {
                tag: b'B',
                body: []
            }))
        )
    );
    let third = input.read_record(&mut space);
    assert!(rt; matches!(third, Err(RecordError::Malformed)));
    let end = input.read_record(&mut space);
    assert!(rt; matches!(end, Ok(None)));
    let mut from = Faulty::new(4, 1, ErrorKind::Other);
    let mut space = [0; 257];
    let failed = Input::new(&mut from).read_record(&mut space);
    assert!(rt; matches!(failed, Err(RecordError::Unread(_))));
}

#[test]
fn writes_nothing_behind_a_failure(rt: HostRuntime) {
    for (whole, kind) in [(0, ErrorKind::Other), (2, ErrorKind::Interrupted)] {
        let mut to = Faulty::new(whole, 1, kind);
        let mut output = Output::new(&mut to);
        assert_eq!(rt;
            output.write_all(b"abc").err().map(|e| e.kind()),
            Some(kind)
        );
        assert!(rt; output.write_all(b"d").is_err());
        assert!(rt; output.flush().is_err());
        assert_eq!(rt; to.calls, whole + 1);
    }
    let mut to = Faulty::new(3, 1, ErrorKind::Other);
    let mut output = Output::new(&mut to);
    assert!(rt; write!(output, "{}{}", 1, "ab").is_ok());
    assert_eq!(rt; to.calls, 3);
}

#[test]
fn tells_what_failed_behind_a_name_that_failed(rt: HostRuntime) {
    let mut to = Faulty::new(0, 1, ErrorKind::Other);
    let told = Trouble::Unread.tell("filing", &mut to);
    assert!(rt; told.is_err());
    assert_eq!(rt; to.calls, 1 + 31);
    // An interrupted write isn't made again: each piece is given up, and the next one tried.
    let mut to = Faulty::new(0, u32::MAX, ErrorKind::Interrupted);
    let told = Trouble::Unread.tell("filing", &mut to);
    assert!(rt; told.is_err());
    assert_eq!(rt; to.calls, 2);
}

#[test]
fn copies_inputs_and_outputs(rt: HostRuntime) {
    let input = Input::new(rt.stdin());
    for mut copy in [input, input] {
        assert!(rt; matches!(copy.read_part(&mut []), Ok(0)));
    }
    let output = Output::new(rt.stdout());
    for mut copy in [output, output] {
        assert!(rt; copy.write_all(&[]).is_ok());
    }
}
