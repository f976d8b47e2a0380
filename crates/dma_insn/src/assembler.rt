//! Assembles the text of a program into its bytes.

ghost use Rattle.std.specs.Prelude.{◌≡◌, ℕ, List, MatchResult, IfOk, IfErr};
ghost use Rattle.dma_insn.specs.AssemblyText.{Assembles, IsFirstFault};
ghost use Rattle.dma_insn.specs.LineReading.{ResultIsOrNoMemory, ReadingReports, ResultIs, after_line, assembled};
ghost use Rattle.dma_insn.specs.declared.assembler.AsmFault.TheVariants.{NoMemory};

use crate::codec::encode;
use crate::line::{is_skipped, read_line};
use arrayvec::ArrayVec;
use dma_text::lines::split_line;
use std::alloc::{AllocError, Global};
use thiserror::Error;

/// The most bytes that a program has (profile).
pub const MAX_PROGRAM_BYTES: usize = 8192;

/// Why a line of assembly text is not an instruction, in the order in which the causes are tested.
#[derive(Clone, Copy, PartialEq, Eq, Debug, Error)]
pub enum AsmCause {
    /// The first word is not the name of an instruction. It is empty if the line begins with a space.
    #[error("no instruction has this name")]
    Mnemonic,
    /// The number of words is wrong, a word is not a register, a word is not a number in the required form, or the
    /// third word of DMAWFE is not `invalid`.
    #[error("an operand is missing, of a wrong form, or one too many")]
    Operand,
    /// A decimal number is outside its range.
    #[error("a number is outside its range")]
    Range,
}

/// Why a text was not assembled: its first fault, with the number of its line from 1, or `NoMemory` if it has no fault.
#[derive(Clone, Copy, PartialEq, Eq, Debug, Error)]
pub enum AsmFault {
    #[error("line {n}: {cause}")]
    Line { n: usize, cause: AsmCause },
    /// With this line the program would be longer than 8,192 bytes.
    #[error("line {0}: the program is longer than {max} bytes", max = MAX_PROGRAM_BYTES)]
    ProgramTooLong(usize),
    #[error("out of memory")]
    NoMemory,
}

impl From<AllocError> for AsmFault {
    ghost use Rattle.std.specs.Prelude.{◌≡◌};
    ghost use Rattle.dma_insn.specs.declared.assembler.AsmFault.TheVariants.{NoMemory};

    ghost from_gives = { λ _ e. e ≡ NoMemory };

    fn from(_e: AllocError) -> AsmFault {
        AsmFault::NoMemory
    }
}

/// Returns the bytes of the program that a text describes, or the text's first fault.
///
/// A line that is empty, has only spaces or begins with `#` is skipped, but counted. Every other line is one
/// instruction. Fails with `NoMemory` only if the text has no fault.
pub fn assemble(alloc: Global, text: &[u8]) -> Result<Vec<u8>, AsmFault>
    // The text assembles to the returned bytes.
    ensures program { IfOk result (λ program. Assembles text.now program.items) }
    // The line that the fault names has it, and no line before has a fault. `NoMemory` means that no line has a fault.
    ensures fault { IfErr result (λ fault. IsFirstFault text.now fault) }
    // A text that assembles fails only with `NoMemory`.
    ensures only { (bytes : List ℕ) → Assembles text.now bytes
        → MatchResult result (λ program. program.items ≡ bytes) (λ fault. fault ≡ NoMemory) }
    // The result as a function of the text, except that `NoMemory` may take the place of the bytes.
    ensures exact { ResultIsOrNoMemory (λ program. program.items) result (assembled text.now) }
{
    let program = read_text(text)?;
    let bytes = program.as_slice().to_vec(alloc)?;
    Ok(bytes)
}

/// Law: for every text, the function `assembled` agrees with the relations `Assembles` and `IsFirstFault`. It gives
/// bytes exactly if the text assembles to them, and a fault exactly if it is the text's first fault and is not
/// `NoMemory`.
#[tactic(auto, using(crate::proofs::ProgramLaws::reading_reports))]
pub fn reading_reports()
    ensures { ReadingReports }
{}

// Assembles a whole text, line by line, without allocating.
fn read_text(text: &[u8]) -> Result<ArrayVec<u8, MAX_PROGRAM_BYTES>, AsmFault>
    ensures { ResultIs (λ program. program.items) result (assembled text.now) }
{
    let mut program = ArrayVec::new();
    let mut rest = text;
    let mut number = 0usize;
    while !rest.is_empty() {
        let (line, after) = split_line(rest);
        number += 1;
        add_line(&mut program, number, line)?;
        rest = after;
    }
    Ok(program)
}

// Appends the instruction of line `n`, unless the line is skipped.
#[tactic(auto, unfolding(crate::specs::LineReading::after_line))]
fn add_line(
    program: &mut ArrayVec<u8, MAX_PROGRAM_BYTES>,
    n: usize,
    line: &[u8],
) -> Result<(), AsmFault>
    ensures { ResultIs (λ _. program.new.items) result (after_line n program.old.items line.now) }
{
    if is_skipped(line) {
        return Ok(());
    }
    let insn = read_line(line).map_err(|cause| AsmFault::Line { n, cause })?;
    let mut code = [0; 6];
    let len = encode(insn, &mut code);
    program
        .try_extend_from_slice(&code[..len])
        .map_err(|_| AsmFault::ProgramTooLong(n))
}
