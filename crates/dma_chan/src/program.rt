//! Programs.

ghost use Rattle.std.specs.Prelude.{◌≡◌, ◌≤◌, ◌<◌, length, None, IfOk, IfErr, OnOk};
ghost use Rattle.dma_insn.specs.AssemblyText.{most_program_bytes};
ghost use Rattle.dma_chan.specs.Programs.{program_fault};

pub use dma_insn::assembler::MAX_PROGRAM_BYTES;
use std::alloc::Global;
use std::marker::Model;
use thiserror::Error;

/// Why bytes aren't accepted as a program.
#[derive(Clone, Copy, Debug, PartialEq, Eq, Error)]
pub enum ProgramFault {
    #[error("the program has more than {} bytes", MAX_PROGRAM_BYTES)]
    ProgramTooLong,
    #[error("out of memory")]
    NoMemory,
}

/// The bytes of a program, at most [`MAX_PROGRAM_BYTES`], and for a compiled program how many instructions it executes.
#[derive(Drop)]
pub struct Program {
    bytes: Vec<u8>,
    cost: Option<u32>,
}

impl Model for Program {
    ghost use Rattle.std.specs.Prelude.{◌≤◌, length};
    ghost use Rattle.dma_insn.specs.AssemblyText.{most_program_bytes};
    ghost use Rattle.dma_chan.specs.Programs.{ProgramValue};

    ghost Value = { ProgramValue };

    ghost view = { λ p. record { bytes = p.bytes.items; cost = p.cost } };

    ghost invariant = { λ p. length p.bytes.items ≤ most_program_bytes };
}

impl Program {
    /// Returns the program of these bytes, which need not be instructions. It has no cost.
    ///
    /// The error is `ProgramTooLong` above [`MAX_PROGRAM_BYTES`], else `NoMemory`.
    pub fn from_bytes(alloc: Global, bytes: &[u8]) -> Result<Program, ProgramFault>
        ensures ok { IfOk result
            (λ program. program ≡ record { bytes = bytes.now; cost = None }) }
        ensures fits { OnOk result (length bytes.now ≤ most_program_bytes) }
        ensures err { IfErr result (λ fault. fault ≡ program_fault bytes.now) }
    {
        if bytes.len() > MAX_PROGRAM_BYTES {
            return Err(ProgramFault::ProgramTooLong);
        }
        let Ok(bytes) = Vec::from_slice(alloc, bytes) else {
            return Err(ProgramFault::NoMemory);
        };
        Ok(Program::of_vec(bytes, None))
    }

    // Returns the program of these bytes, with this cost.
    pub(crate) fn of_vec(bytes: Vec<u8>, cost: Option<u32>) -> Program
        requires { length bytes.items ≤ most_program_bytes }
        ensures { result ≡ record { bytes = bytes.items; cost = cost } }
    {
        Program { bytes, cost }
    }

    /// Returns the bytes of the program.
    pub fn bytes(&self) -> &[u8]
        ensures value { result.now ≡ self.now.bytes }
        ensures limit { length result.now ≤ most_program_bytes }
    {
        self.bytes.as_slice()
    }

    /// Returns how many instructions the program executes, if it was compiled.
    pub fn cost(&self) -> Option<u32>
        ensures { result ≡ self.now.cost }
    {
        self.cost
    }
}
