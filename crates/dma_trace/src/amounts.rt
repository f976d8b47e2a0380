//! Offsets, numbers of bytes and instructions, and ranges of addresses, as text.
#![tactic(auto, using(dma_text::proofs::Begun::begun))]

ghost use Rattle.std.specs.Prelude.{◌≡◌};
ghost use Rattle.dma_trace.specs.Words.{bytes_text, count_text, offset_text, range_text, times_text};

use dma_explain::explain::Repeated;
use dma_text::text::{Address, HexByte, Text};
use std::alloc::AllocError;

/// An offset in a program, in four hexadecimal digits.
#[derive(Drop)]
pub struct Offset(pub u32);

impl Text for Offset {
    ghost text = { λ offset. offset_text offset.0 };

    fn push(&self, out: &mut Vec<u8>) -> Result<(), AllocError> {
        let high = (self.0 / 256 % 256) as u8;
        let low = (self.0 % 256) as u8;
        ("0x", HexByte(high), HexByte(low)).push(out)
    }
}

/// A number of bytes.
#[derive(Drop)]
pub struct Bytes(pub u64);

impl Text for Bytes {
    ghost text = { λ bytes. bytes_text bytes.0 };

    fn push(&self, out: &mut Vec<u8>) -> Result<(), AllocError> {
        let unit = if self.0 == 1 { " byte" } else { " bytes" };
        (self.0, unit).push(out)
    }
}

/// A number of instructions.
#[derive(Drop)]
pub struct Instructions(pub u64);

impl Text for Instructions {
    ghost text = { λ count. count_text count.0 };

    fn push(&self, out: &mut Vec<u8>) -> Result<(), AllocError> {
        let unit = if self.0 == 1 {
            " instruction"
        } else {
            " instructions"
        };
        (self.0, unit).push(out)
    }
}

/// How often a range is read, after the range.
#[derive(Drop)]
struct Times(u32);

impl Text for Times {
    ghost text = { λ times. times_text times.0 };

    fn push(&self, out: &mut Vec<u8>) -> Result<(), AllocError> {
        if self.0 == 1 {
            return Ok(());
        }
        (", ", self.0, " times").push(out)
    }
}

/// A range of addresses, and how often it is read or written.
#[derive(Drop)]
pub struct Range(pub Repeated);

impl Text for Range {
    ghost text = { λ range. range_text range.0.addr range.0.len range.0.times };

    #[tactic(auto, unfolding(crate::specs::Words::range_text))]
    fn push(&self, out: &mut Vec<u8>) -> Result<(), AllocError> {
        let Repeated { addr, len, times } = self.0;
        let len = Bytes(u64::from(len));
        ("0x", Address(addr), (" + ", len), Times(times)).push(out)
    }
}
