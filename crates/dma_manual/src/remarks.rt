//! What the comments of a listing say besides addresses and bytes.

ghost use Rattle.std.specs.Prelude.{◌≡◌, ◌++◌, ◌+◌, ◌-◌, ◌%◌, ◌^◌};
ghost use Rattle.dma_manual.specs.Listing.{mark, remarks_of, target_by, target_of, target_text};

use crate::insns::{ManualInsn, OtherInsn};
use crate::listing::{address_of, label_before};
use dma_insn::chip::ChipInsn;
use dma_text::text::{Address, Text};
use std::alloc::AllocError;

// Returns the address this many bytes before another.
fn address_before(address: u32, back: u8) -> u32
    ensures { result ≡ (address + 2 ^ 32 - back) % 2 ^ 32 }
{
    ((u64::from(address) + 0x1_0000_0000 - u64::from(back)) % 0x1_0000_0000) as u32
}

// Returns the address to which a DMALPEND at an address jumps, unless it has a label.
fn target_by(label: Option<usize>, here: u32, back: u8) -> Option<u32>
    ensures { result ≡ target_by label here back }
{
    match label {
        Some(_) => None,
        None => Some(address_before(here, back)),
    }
}

// Returns the address to which an instruction jumps, if it is a DMALPEND that jumps to no label.
fn target_of(labels: &[usize], at: u32, offset: usize, insn: &ManualInsn) -> Option<u32>
    ensures { result ≡ target_of labels.now at offset insn.now }
{
    let here = address_of(at, offset);
    match *insn {
        ManualInsn::Chip(ChipInsn::LpEnd { back, .. })
        | ManualInsn::Other(OtherInsn::LpEndIf { back, .. }) => {
            target_by(label_before(labels, offset, usize::from(back)), here, back)
        }
        ManualInsn::Chip(ChipInsn::LoopAgain { back, .. })
        | ManualInsn::Other(OtherInsn::LoopAgainIf { back, .. }) => target_by(None, here, back),
        _ => None,
    }
}

/// What the comment of an instruction says besides its address and its bytes.
#[derive(Clone, Copy)]
pub struct Remarks {
    /// The address to which a DMALPEND without a label jumps.
    pub target: Option<u32>,
    /// Whether some channel of the model executes the instruction.
    pub executed: bool,
}

impl Text for Remarks {
    ghost text = { λ remarks. target_text remarks.target ++ mark remarks.executed };

    fn push(&self, out: &mut Vec<u8>) -> Result<(), AllocError> {
        if let Some(address) = self.target {
            (", jumps to 0x", Address(address)).push(out)?;
        }
        if !self.executed {
            ", not executed by this model".push(out)?;
        }
        Ok(())
    }
}

/// Returns what the comment of an instruction says besides its address and its bytes.
pub fn remarks_of(labels: &[usize], at: u32, offset: usize, insn: &ManualInsn) -> Remarks
    ensures { result ≡ remarks_of labels.now at offset insn.now }
{
    Remarks {
        target: target_of(labels, at, offset, insn),
        executed: matches!(*insn, ManualInsn::Chip(_)),
    }
}
