//! The command `asm`: prints the bytes of the program that an assembly text describes.
ghost use Rattle.std.specs.Prelude.{◌≡◌, ◌≤◌, ◌+◌, IfSome};
ghost use Rattle.dma_io.specs.Command.{Ends, failures, longest_input, printed_within};
ghost use Rattle.dma_commands.specs.Assembled.{AsmPrints, asm_printed, cause_name};

use dma_insn::assembler::{AsmCause, AsmFault, assemble};
use dma_io::command::{Command, SUCCESS, refuse, serve};
use dma_io::input::Source;
use dma_io::output::Sink;
use dma_io::printing::ProgramLines;
use dma_text::text::print;
use std::alloc::{AllocError, Global};

/// Returns the name of a cause.
fn cause_name(cause: AsmCause) -> &'static str
    ensures { result.now ≡ cause_name cause }
{
    match cause {
        AsmCause::Mnemonic => "mnemonic",
        AsmCause::Operand => "operand",
        AsmCause::Range => "range",
    }
}

/// The command `asm`.
#[derive(Drop)]
struct Asm;

impl Command for Asm {
    ghost use Rattle.std.specs.Prelude.{◌≡◌, ◌<◌, length, Ok, Err, refl};
    ghost use Rattle.std.proofs.Math.Nat.{zero-lt-suc};
    ghost use Rattle.dma_insn.specs.LineReading.{assembled};
    ghost use Rattle.dma_commands.specs.Assembled.{asm_printed, asm_printed_of};

    ghost may_print = { λ input p. p ≡ asm_printed input };

    fn answer(&self, alloc: Global, input: &[u8], out: &mut Vec<u8>) -> Result<u8, AllocError> {
        match assemble(alloc, input) {
            Ok(program) => {
                print(out, &ProgramLines(&program))?;
                Ok(SUCCESS)
            }
            Err(AsmFault::Line { n, cause }) => refuse(out, &("line ", n, ": ", cause_name(cause))),
            Err(AsmFault::ProgramTooLong(n)) => refuse(out, &("line ", n, ": ProgramTooLong")),
            Err(AsmFault::NoMemory) => Err(AllocError),
        }
    }

    ghost some_print = { λ input. (
      asm_printed input,
      refl,
      elim (assembled input) as (λ read. 0 < length (asm_printed_of read).groups) [
        | Ok program ↦ zero-lt-suc _
        | Err fault ↦ zero-lt-suc _
      ],
    ) };
}

/// Law: what `asm` prints follows from the relations between texts and programs alone.
pub fn asm_prints()
    ensures { AsmPrints }
{}

/// Reads an assembly text, writes the bytes of its program or the line of its first fault and nothing else, and
/// returns the exit status: 0 on success, 1 for a fault of the text or a failing stream, 3 if out of memory, in which
/// case nothing is written.
pub fn asm_main<R: Source, W: Sink>(alloc: Global, reader: &mut R, writer: &mut W) -> u8
    ensures ends { IfSome (R.remaining reader.old) (λ input. Ends
        (failures R.has_failed reader.old reader.new) (failures W.has_failed writer.old writer.new)
        (printed_within asm_printed input) (W.contents writer.old) (W.contents writer.new) result) }
    ensures reads { R.reads reader.new ≤ R.reads reader.old + (longest_input + 1) }
{
    serve(&Asm, alloc, reader, writer)
}
