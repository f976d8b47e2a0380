//! The command `plan`: prints the program of a transfer and its cost.
ghost use Rattle.std.specs.Prelude.{◌≤◌, ◌+◌, IfSome};
ghost use Rattle.dma_mem.specs.Refusals.{refusal_of};
ghost use Rattle.dma_io.specs.Command.{Answers, Ends, failures, longest_input, printed_within, text_of};
ghost use Rattle.dma_commands.specs.Planned.{plan_printed, program_printed, transfer_printed};
ghost use Rattle.dma_commands.specs.Transfers.{transfer_of};

use crate::printing::Shown;
use crate::transfers::transfer_of;
use dma_chan::compile::compile;
use dma_chan::program::Program;
use dma_io::command::{Command, SUCCESS, refuse, serve};
use dma_io::input::Source;
use dma_io::output::Sink;
use dma_io::printing::ProgramLines;
use dma_script::transfer_line::{PlanLine, read_plan};
use dma_text::text::{Text, print};
use std::alloc::{AllocError, Global};

// The printed lines of a program: its bytes, their number, and its cost if it has one.
impl Text for Shown<&Program> {
    ghost text = { λ program. text_of (program_printed program.0.now) };

    fn push(&self, out: &mut Vec<u8>) -> Result<(), AllocError> {
        let bytes = self.0.bytes();
        (ProgramLines(bytes), "bytes ", bytes.len(), "\n").push(out)?;
        match self.0.cost() {
            Some(cost) => ("cost ", cost, "\n").push(out),
            None => Ok(()),
        }
    }
}

/// Appends the program of a transfer, or the line of the first rule that it breaks, and returns the status. Appends
/// nothing and fails if memory runs out.
fn print_transfer(alloc: Global, out: &mut Vec<u8>, line: PlanLine) -> Result<u8, AllocError>
    ensures { Answers (transfer_printed line (refusal_of (transfer_of line.transfer)))
        result out.old.items out.new.items }
{
    let PlanLine {
        line: number,
        transfer: words,
    } = line;
    match transfer_of(words) {
        Ok(transfer) => {
            let Ok(program) = compile(alloc, &transfer) else {
                return Err(AllocError);
            };
            print(out, &Shown(&program))?;
            Ok(SUCCESS)
        }
        Err(fault) => refuse(out, &("line ", number, ": ", Shown(fault))),
    }
}

/// The command `plan`.
#[derive(Drop)]
struct Plan;

impl Command for Plan {
    ghost use Rattle.std.specs.Prelude.{◌≡◌, ◌<◌, length, Some, None, Ok, Err, refl};
    ghost use Rattle.std.proofs.Math.Nat.{zero-lt-suc};
    ghost use Rattle.dma_mem.specs.Refusals.{refusal_of};
    ghost use Rattle.dma_script.specs.Plan.{plan_of};
    ghost use Rattle.dma_commands.specs.Planned.{plan_printed, plan_printed_of, transfer_printed};
    ghost use Rattle.dma_commands.specs.Transfers.{transfer_of};

    ghost may_print = { λ input p. p ≡ plan_printed input };

    fn answer(&self, alloc: Global, input: &[u8], out: &mut Vec<u8>) -> Result<u8, AllocError> {
        match read_plan(alloc, input) {
            Ok(line) => print_transfer(alloc, out, line),
            Err(error) => refuse(out, &error),
        }
    }

    ghost some_print = { λ input. (
      plan_printed input,
      refl,
      elim (plan_of input) as (λ read. 0 < length (plan_printed_of read).groups) [
        | Ok line ↦ elim (refusal_of (transfer_of line.transfer)) as (λ unfit. 0 < length (transfer_printed line unfit).groups) [
          | None ↦ zero-lt-suc _
          | Some fault ↦ zero-lt-suc _
        ]
        | Err fault ↦ zero-lt-suc _
      ],
    ) };
}

/// Reads the line of a transfer, writes its program or the line of the first fault and nothing else, and returns the
/// exit status: 0 on success, 1 for a fault of the input or a failing stream, 3 if out of memory, in which case
/// nothing is written.
pub fn plan_main<R: Source, W: Sink>(alloc: Global, reader: &mut R, writer: &mut W) -> u8
    ensures ends { IfSome (R.remaining reader.old) (λ input. Ends
        (failures R.has_failed reader.old reader.new) (failures W.has_failed writer.old writer.new)
        (printed_within plan_printed input) (W.contents writer.old) (W.contents writer.new) result) }
    ensures reads { R.reads reader.new ≤ R.reads reader.old + (longest_input + 1) }
{
    serve(&Plan, alloc, reader, writer)
}
