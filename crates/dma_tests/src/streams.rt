//! A command over a reader and a writer in memory, whose bytes and failures contracts know.

ghost use Rattle.std.specs.Prelude.{Some, IsTrue};

use dma_io::command::{Command, SUCCESS, serve};
use dma_io::input::Source;
use dma_io::output::Sink;
use dma_io::printing::print_line;
use std::alloc::{AllocError, Global};
use std::io;
use std::io::{ErrorKind, Read, Write};

/// Returns these bytes, at most two of them per read, until a read fails.
#[derive(Drop)]
pub struct Bytes<'a> {
    pub rest: &'a [u8],
    /// The number of reads before the one that fails.
    pub left: u32,
    pub failed: bool,
}

impl Read for Bytes<'_> {
    ghost remaining = { λ r. Some r.rest.now };

    fn read(&mut self, buf: &mut [u8]) -> io::Result<usize> {
        self.fetch(buf)
    }
}

impl Source for Bytes<'_> {
    ghost has_failed = { λ r. IsTrue r.failed };

    fn fetch(&mut self, buf: &mut [u8]) -> io::Result<usize> {
        if self.left == 0 {
            self.failed = true;
            return Err(io::Error::from(ErrorKind::Interrupted));
        }
        self.left -= 1;
        let count = buf.len().min(self.rest.len()).min(2);
        let (given, rest) = self.rest.split_at(count);
        buf[..count].copy_from_slice(given);
        self.rest = rest;
        Ok(count)
    }
}

/// Keeps what is written, at most two bytes per write, until a write fails.
#[derive(Drop)]
pub struct Kept {
    pub bytes: Vec<u8>,
    /// The number of writes before the one that fails.
    pub left: u32,
    pub failed: bool,
}

impl Write for Kept {
    ghost contents = { λ w. Some w.bytes.items };

    fn write(&mut self, buf: &[u8]) -> io::Result<usize> {
        if buf.is_empty() {
            return Ok(0);
        }
        self.put(buf)
    }

    fn flush(&mut self) -> io::Result<()> {
        Ok(())
    }
}

impl Sink for Kept {
    ghost has_failed = { λ w. IsTrue w.failed };

    fn put(&mut self, buf: &[u8]) -> io::Result<usize> {
        let count = buf.len().min(2);
        if self.left == 0 || self.bytes.extend_from_slice(&buf[..count]).is_err() {
            self.failed = true;
            return Err(io::Error::from(ErrorKind::Interrupted));
        }
        self.left -= 1;
        Ok(count)
    }
}

// Prints its input as one line.
#[derive(Drop)]
struct Echo;

impl Command for Echo {
    ghost use Rattle.std.specs.Prelude.{[], ◌∷◌, ◌≡◌, refl};
    ghost use Rattle.std.proofs.Common.{lit<};

    ghost may_print = { λ input p. p ≡ record { groups = (input ∷ []) ∷ []; status = 0 } };

    fn answer(&self, _alloc: Global, input: &[u8], out: &mut Vec<u8>) -> Result<u8, AllocError> {
        print_line(out, &input)?;
        Ok(SUCCESS)
    }

    ghost some_print = { λ input. (record { groups = (input ∷ []) ∷ []; status = 0 }, refl, lit< tt) };
}

// Returns the status and the output of a command of which read number `reads` and write number `writes`, from 0 on, and
// all after them fail.
fn served(alloc: Global, reads: u32, writes: u32) -> (u8, Vec<u8>) {
    let mut reader = Bytes {
        rest: b"abc",
        left: reads,
        failed: false,
    };
    let mut writer = Kept {
        bytes: Vec::new(alloc),
        left: writes,
        failed: false,
    };
    let status = serve(&Echo, alloc, &mut reader, &mut writer);
    (status, writer.bytes)
}

#[test]
fn a_read_or_a_write_fails(rt: HostRuntime) {
    let rows: [(u32, u32, u8, &[u8]); 5] = [
        (3, 2, 0, b"abc\n"),
        (3, 1, 1, b"ab"),
        (3, 0, 1, b""),
        (2, 7, 1, b"input failed\n"),
        (0, 2, 1, b"inpu"),
    ];
    for (reads, writes, wanted, text) in rows {
        let (status, bytes) = served(rt.alloc(), reads, writes);
        assert!(rt; status == wanted && bytes.as_slice() == text);
    }
}
