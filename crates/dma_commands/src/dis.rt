//! The command `dis`: prints the disassembled text of a program's bytes.
ghost use Rattle.std.specs.Prelude.{◌≤◌, ◌+◌, IfSome};
ghost use Rattle.dma_io.specs.Command.{Answers, Ends, failures, longest_input, printed_within, refusal};
ghost use Rattle.dma_commands.specs.Disassembled.{DisPrints, decode_fault_line, dis_printed, lines_from, lines_printed};

use dma_insn::codec::DecodeFault;
use dma_insn::disassembler::{DisFault, disassemble};
use dma_io::command::{Command, SUCCESS, refuse, serve};
use dma_io::input::Source;
use dma_io::output::Sink;
use dma_script::pairs::read_pairs;
use dma_text::text::{HexByte, print};
use std::alloc::{AllocError, Global};

/// Appends the line of a decoding fault and returns the status, or appends nothing and fails if memory runs out.
fn refuse_decoding(out: &mut Vec<u8>, offset: usize, fault: DecodeFault) -> Result<u8, AllocError>
    ensures { Answers (refusal (decode_fault_line offset fault)) result
        out.old.items out.new.items }
{
    match fault {
        DecodeFault::Cut => refuse(out, &("offset ", offset, ": Cut")),
        DecodeFault::Unknown(byte) => {
            refuse(out, &("offset ", offset, ": Unknown ", HexByte(byte)))
        }
        DecodeFault::BadField => refuse(out, &("offset ", offset, ": BadField")),
    }
}

/// Appends the text of a program's bytes, or the line of their first fault, and returns the status. Appends nothing
/// and fails if memory runs out.
fn print_text(alloc: Global, out: &mut Vec<u8>, bytes: &[u8]) -> Result<u8, AllocError>
    ensures { Answers (lines_printed (lines_from 0 0 bytes.now)) result
        out.old.items out.new.items }
{
    match disassemble(alloc, bytes) {
        Ok(text) => {
            // A long text is not copied.
            if out.is_empty() {
                *out = text;
            } else {
                print(out, &text.as_slice())?;
            }
            Ok(SUCCESS)
        }
        Err(DisFault::Decode { offset, fault }) => refuse_decoding(out, offset, fault),
        Err(DisFault::NoMemory) => Err(AllocError),
    }
}

/// The command `dis`.
#[derive(Drop)]
struct Dis;

impl Command for Dis {
    ghost use Rattle.std.specs.Prelude.{◌≡◌, ◌<◌, length, Ok, Err, refl};
    ghost use Rattle.std.proofs.Math.Nat.{zero-lt-suc};
    ghost use Rattle.dma_script.specs.Pairs.{pairs_of};
    ghost use Rattle.dma_commands.specs.Disassembled.{dis_printed, dis_printed_of, lines_from, lines_printed};

    ghost may_print = { λ input p. p ≡ dis_printed input };

    fn answer(&self, alloc: Global, input: &[u8], out: &mut Vec<u8>) -> Result<u8, AllocError> {
        match read_pairs(alloc, input) {
            Ok(bytes) => print_text(alloc, out, &bytes),
            Err(error) => refuse(out, &error),
        }
    }

    ghost some_print = { λ input. (
      dis_printed input,
      refl,
      elim (pairs_of input) as (λ read. 0 < length (dis_printed_of read).groups) [
        | Ok bytes ↦ elim (lines_from 0 0 bytes) as (λ read. 0 < length (lines_printed read).groups) [
          | Ok lines ↦ zero-lt-suc _
          | Err fault ↦ zero-lt-suc _
        ]
        | Err fault ↦ zero-lt-suc _
      ],
    ) };
}

/// Law: what `dis` prints for pairs of digits follows from the relations between bytes and texts alone.
pub fn dis_prints()
    ensures { DisPrints }
{}

/// Reads pairs of hexadecimal digits, writes the text of the program that they spell or the line of the first fault
/// and nothing else, and returns the exit status: 0 on success, 1 for a fault of the input or a failing stream, 3 if
/// out of memory, in which case nothing is written.
pub fn dis_main<R: Source, W: Sink>(alloc: Global, reader: &mut R, writer: &mut W) -> u8
    ensures ends { IfSome (R.remaining reader.old) (λ input. Ends
        (failures R.has_failed reader.old reader.new) (failures W.has_failed writer.old writer.new)
        (printed_within dis_printed input) (W.contents writer.old) (W.contents writer.new) result) }
    ensures reads { R.reads reader.new ≤ R.reads reader.old + (longest_input + 1) }
{
    serve(&Dis, alloc, reader, writer)
}
