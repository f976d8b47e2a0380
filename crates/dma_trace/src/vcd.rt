//! Values of signals in a Value Change Dump.
#![tactic(auto, using(dma_text::proofs::Begun::begun))]

ghost use Rattle.std.specs.Prelude.{◌≡◌, ◌+◌, ◌/◌, ◌%◌, ◌^◌};
ghost use Rattle.dma_trace.specs.Vcd.{bits_text, signal_line, value_text};

use dma_text::text::Text;
use std::alloc::AllocError;

// Returns a bit of a number as a digit.
fn digit(value: u32, bit: u32) -> u8
    ensures { result ≡ 48 + value / 2 ^ bit % 2 }
{
    match value.checked_shr(bit) {
        Some(rest) => b'0' + (rest % 2) as u8,
        None => b'0',
    }
}

/// The lowest `width` bits of a number, the highest first.
#[derive(Drop)]
struct Bits {
    width: u32,
    value: u32,
}

impl Text for Bits {
    ghost text = { λ bits. bits_text bits.width bits.value };

    fn push(&self, out: &mut Vec<u8>) -> Result<(), AllocError> {
        let Bits { width, value } = *self;
        for done in 0..width {
            out.push(digit(value, width - done - 1))?;
        }
        Ok(())
    }
}

/// A value of a signal of a width.
#[derive(Drop)]
struct Value {
    width: u32,
    value: u32,
}

impl Text for Value {
    ghost text = { λ v. value_text v.width v.value };

    #[tactic(auto, unfolding(crate::specs::Vcd::value_text))]
    fn push(&self, out: &mut Vec<u8>) -> Result<(), AllocError> {
        let bits = Bits {
            width: self.width,
            value: self.value,
        };
        if self.width == 1 {
            return bits.push(out);
        }
        ("b", bits, " ").push(out)
    }
}

/// The line of a signal with this code, if it has changed or all signals have a line.
#[derive(Drop)]
pub struct SignalLine {
    pub all: bool,
    pub code: &'static str,
    pub width: u32,
    pub before: u32,
    pub after: u32,
}

impl Text for SignalLine {
    ghost text = { λ s. signal_line s.all s.code.now s.width s.before s.after };

    #[tactic(auto, using(dma_text::proofs::Begun::begun), unfolding(crate::specs::Vcd::signal_line))]
    fn push(&self, out: &mut Vec<u8>) -> Result<(), AllocError> {
        if !self.all && self.before == self.after {
            return Ok(());
        }
        let value = Value {
            width: self.width,
            value: self.after,
        };
        (value, self.code, "\n").push(out)
    }
}
