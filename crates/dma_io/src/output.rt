//! Writes a whole output.
ghost use Rattle.std.specs.Prelude.{◌≡◌, ◌<◌, length, IfOk, OnOk, OnErr};
ghost use Rattle.std.specs.Io.KnownBytes.{WriteAppends, Appends};
ghost use Rattle.std.specs.Io.{WritesAtMost};

use std::io;
use std::io::{Stderr, Stdout, Write};

/// A writer whose contract says whether a write of it has failed or taken no byte.
pub trait Sink: Write {
    // A write has failed or taken no byte, now or before. The default always holds: such a writer may have failed at
    // any time.
    ghost has_failed: { Self → Type 0 } = { λ _. Unit {0} };

    /// Writes from the front of `buf`, which has at least one byte, by one plain write, and returns the number of bytes
    /// that it took. A write that takes no byte counts as a failure.
    fn put(&mut self, buf: &[u8]) -> io::Result<usize>
        requires { 0 < length buf.now }
        ensures bound { WritesAtMost result buf.now }
        ensures bytes { WriteAppends (Self.contents self.old)
            (Self.contents self.new) result buf.now }
        ensures fault { OnErr result (has_failed self.new) }
        ensures none_taken { IfOk result (λ n. n ≡ 0 → has_failed self.new) }
        ensures some_taken { IfOk result
            (λ n. 0 < n → has_failed self.new → has_failed self.old) }
        ensures lasting { has_failed self.old → has_failed self.new };
}

// Contracts don't know what standard output and standard error take, so they may have failed at any time.
impl Sink for Stdout {
    fn put(&mut self, buf: &[u8]) -> io::Result<usize> {
        self.write(buf)
    }
}

impl Sink for Stderr {
    fn put(&mut self, buf: &[u8]) -> io::Result<usize> {
        self.write(buf)
    }
}

/// A write failed, or took no byte.
#[derive(Clone, Copy, Debug, PartialEq, Eq)]
pub struct OutputFailed;

/// Writes all of the text by plain writes. Fails at the first write that fails or takes no byte, and makes no further
/// write.
pub fn write_output<W: Sink>(writer: &mut W, text: &[u8]) -> Result<(), OutputFailed>
    ensures ok { OnOk result (Appends (W.contents writer.old) (W.contents writer.new) text.now) }
    ensures unfailed { OnOk result (W.has_failed writer.new → W.has_failed writer.old) }
    ensures err { OnErr result (W.has_failed writer.new) }
{
    let mut rest = text;
    while !rest.is_empty() {
        match writer.put(rest) {
            Ok(0) => return Err(OutputFailed),
            Ok(count) => rest = &rest[count..],
            Err(_) => return Err(OutputFailed),
        }
    }
    Ok(())
}
