//! Numbers, instructions and registers in columns.
#![tactic(auto, using(dma_text::proofs::Begun::begun))]

ghost use Rattle.std.specs.Prelude.{◌≡◌, ◌++◌, OnOk};
ghost use Rattle.dma_text.specs.Text.{Begins};
ghost use Rattle.dma_trace.specs.Columns.{aligned, insn_column, spaces};
ghost use Rattle.dma_trace.specs.Words.{front_text};

use crate::words::Front;
use dma_insn::chip::ChipInsn;
use dma_manual::manual::Manual;
use dma_text::text::{Address, Text};
use itoa::Buffer;
use std::alloc::AllocError;

/// The width of the longest instruction, a DMAMOV CCR with all its fields.
const INSN_WIDTH: usize = 58;

// Appends spaces.
fn push_spaces(out: &mut Vec<u8>, count: usize) -> Result<(), AllocError>
    ensures ok { OnOk result (out.new.items ≡ out.old.items ++ spaces count) }
    ensures begins { Begins out.new.items out.old.items }
{
    let Some(len) = out.len().checked_add(count) else {
        return Err(AllocError);
    };
    out.resize(len, b' ')
}

/// A number, with spaces before it up to a width.
#[derive(Drop)]
pub struct Aligned {
    pub number: u64,
    pub width: usize,
}

impl Text for Aligned {
    ghost text = { λ a. aligned a.width a.number };

    fn push(&self, out: &mut Vec<u8>) -> Result<(), AllocError> {
        let mut buffer = Buffer::new();
        let digits = buffer.format(self.number).as_bytes();
        push_spaces(out, self.width.saturating_sub(digits.len()))?;
        digits.push(out)
    }
}

/// An instruction, with spaces after it up to the width of the longest one.
#[derive(Drop)]
pub struct InsnColumn(pub ChipInsn);

impl Text for InsnColumn {
    ghost text = { λ insn. insn_column insn.0 };

    fn push(&self, out: &mut Vec<u8>) -> Result<(), AllocError> {
        let start = out.len();
        Manual(self.0).push(out)?;
        let width = out.len() - start;
        push_spaces(out, INSN_WIDTH.saturating_sub(width))
    }
}

/// The addresses, the loop counters and the buffer. Each decimal number has spaces before it up to a width.
#[derive(Drop)]
pub struct FrontColumns<'a> {
    pub front: &'a Front,
    pub width: usize,
}

impl Text for FrontColumns<'_> {
    ghost text = { λ r. front_text r.width r.front.now };

    #[tactic(auto, using(dma_text::proofs::Begun::begun), unfolding(crate::specs::Words::front_text))]
    fn push(&self, out: &mut Vec<u8>) -> Result<(), AllocError> {
        let FrontColumns { front, width } = *self;
        let registers = &front.registers;
        let column = |number: u32| Aligned {
            number: u64::from(number),
            width,
        };
        (
            ("SAR 0x", Address(registers.sar)),
            (" DAR 0x", Address(registers.dar)),
            (
                " LC0 ",
                column(u32::from(registers.lc0)),
                " LC1 ",
                column(u32::from(registers.lc1)),
            ),
            (" buffer ", column(front.held)),
        )
            .push(out)
    }
}
