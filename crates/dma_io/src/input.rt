//! Reads a whole input.
ghost use Rattle.std.specs.Prelude.{◌≡◌, ◌≢◌, ◌<◌, ◌≤◌, ◌+◌, length, Err, IfOk, OnOk, OnErr, IfSome, IsErrOf, vec_len};
ghost use Rattle.std.specs.Io.KnownBytes.{ReadConsumes};
ghost use Rattle.std.specs.Io.{ReadsAtMost};
ghost use Rattle.dma_io.specs.Command.{longest_input};

use std::alloc::Global;
use std::io;
use std::io::{Read, Stdin};

/// The length of the longest input that is accepted, in bytes (profile).
pub const LONGEST_INPUT: usize = 4_194_304;

/// For how many bytes of an input at most lists are reserved before they grow. Longer lists than these grow without
/// being copied, since the system moves their pages.
pub const MOST_RESERVED: usize = 131_072;

/// The most bytes of one read.
const READ_SIZE: usize = 65_536;

/// A reader whose contract says whether a read of it has failed.
pub trait Source: Read {
    ghost use Rattle.std.specs.Prelude.{ℕ};

    // A read has failed, now or before. The default always holds: such a reader may have failed at any time.
    ghost has_failed: { Self → Type 0 } = { λ _. Unit {0} };

    // The number of reads so far, if the reader counts them.
    ghost reads: { Self → ℕ } = { λ _. 0 };

    /// Reads bytes to the front of `buf` by one plain read, and returns their number.
    fn fetch(&mut self, buf: &mut [u8]) -> io::Result<usize>
        ensures bound { ReadsAtMost result buf.new }
        ensures bytes { ReadConsumes (Self.remaining self.old)
            (Self.remaining self.new) result buf.new }
        ensures fault { OnErr result (has_failed self.new) }
        ensures no_fault { OnOk result (has_failed self.new → has_failed self.old) }
        ensures lasting { has_failed self.old → has_failed self.new }
        ensures counted { reads self.new ≤ reads self.old + 1 };
}

impl Source for &[u8] {
    ghost has_failed = { λ _. ⊥ };

    fn fetch(&mut self, buf: &mut [u8]) -> io::Result<usize> {
        self.read(buf)
    }
}

// Contracts don't know what standard input returns, so it may have failed at any time.
impl Source for Stdin {
    fn fetch(&mut self, buf: &mut [u8]) -> io::Result<usize> {
        self.read(buf)
    }
}

/// Why the input was not read.
#[derive(Clone, Copy, Debug, PartialEq, Eq)]
pub enum InputError {
    /// A read failed.
    Failed,
    /// The input has more than `LONGEST_INPUT` bytes.
    TooLong,
    /// Out of memory.
    NoMemory,
}

/// Reads to the end of the input by plain reads, and returns all of its bytes.
///
/// A read that returns no byte is the end. Makes at most [`LONGEST_INPUT`] + 1 reads. Fails with `Failed` at the first
/// read that fails; with `TooLong` for an input of more than [`LONGEST_INPUT`] bytes; or with `NoMemory`. Unless it
/// fails with `Failed`, no read has failed.
pub fn read_input<R: Source>(alloc: Global, reader: &mut R) -> Result<Vec<u8>, InputError>
    ensures input { IfOk result
        (λ v. IfSome (R.remaining reader.old) (λ input. v.items ≡ input)) }
    ensures within { IfOk result (λ v. vec_len v ≤ longest_input) }
    ensures too_long { IsErrOf result InputError.TooLong
        → IfSome (R.remaining reader.old) (λ input. longest_input < length input) }
    ensures failed { IsErrOf result InputError.Failed → R.has_failed reader.new }
    ensures unfailed { result ≢ Err InputError.Failed
        → R.has_failed reader.new → R.has_failed reader.old }
    ensures reads { R.reads reader.new ≤ R.reads reader.old + (longest_input + 1) }
{
    let mut input = Vec::new(alloc);
    let mut buf = [0u8; READ_SIZE];
    for _turn in 0..=LONGEST_INPUT {
        let Ok(count) = reader.fetch(&mut buf) else {
            return Err(InputError::Failed);
        };
        if count == 0 {
            return Ok(input);
        }
        if input.extend_from_slice(&buf[..count]).is_err() {
            return Err(InputError::NoMemory);
        }
        if input.len() > LONGEST_INPUT {
            return Err(InputError::TooLong);
        }
    }
    Err(InputError::TooLong)
}
