//! Commands: what one may print for an input, and how it runs on a reader and a writer.
ghost use Rattle.std.specs.Prelude.{◌≡◌, ◌+◌, ◌≤◌, ◌<◌, List, ℕ, IfErr, IfOk, OnErr, OnOk, IfSome, length, vec_len};
ghost use Rattle.dma_io.specs.Command.{Answers, Ends, EndsUnread, MayAnswer, Printed, Wrote, failures, longest_input, may_print_within, refusal};

use crate::input::{InputError, LONGEST_INPUT, Source, read_input};
use crate::output::{Sink, write_output};
use crate::printing::print_line;
use dma_text::text::Text;
use std::alloc::{AllocError, Global};

/// The exit status of a call that succeeded.
pub const SUCCESS: u8 = 0;

/// The exit status of a call whose input has a fault, or for which a read or a write failed.
pub const FAULT: u8 = 1;

/// The exit status of a call that is out of memory.
pub const OUT_OF_MEMORY: u8 = 3;

/// A command. For an input it may print exactly one text or, if it starts threads, whose order isn't determined, one of
/// several.
pub trait Command {
    // What may be printed for an input that is not too long.
    ghost may_print: { List ℕ → Printed → Type 0 };

    // When it can answer.
    ghost is_ready: { Self → Type 0 } = { λ _. Unit {0} };

    /// Appends a text that may be printed and returns its exit status. If it is out of memory, appends exactly the text
    /// of the first groups of such a text, with at least one group missing.
    fn answer(&self, alloc: Global, input: &[u8], out: &mut Vec<u8>) -> Result<u8, AllocError>
        requires ready { is_ready self.now }
        requires short { length input.now ≤ longest_input }
        ensures { MayAnswer (may_print input.now) result out.old.items out.new.items };

    // Among the texts that may be printed for an input, one has at least one group, maybe an empty one. So a group can
    // be missing if the command is out of memory.
    ghost some_print: { (input : List ℕ)
        → (printed : Printed) × may_print input printed × (0 < length printed.groups) };
}

/// Appends the line of a fault and returns the exit status `FAULT`. Appends nothing if the fault can't be printed or
/// memory runs out.
pub fn refuse<T: Text>(out: &mut Vec<u8>, fault: &T) -> Result<u8, AllocError>
    ensures answer { Answers (refusal (T.text fault.now)) result out.old.items out.new.items }
    ensures printed { OnOk result (T.is_printed fault.now) }
{
    print_line(out, fault)?;
    Ok(FAULT)
}

/// Writes the text and returns `status`, or `FAULT` if a write fails.
pub fn finish<W: Sink>(writer: &mut W, text: &[u8], status: u8) -> u8
    ensures { Wrote (failures W.has_failed writer.old writer.new)
        (W.contents writer.old) (W.contents writer.new) text.now status result }
{
    match write_output(writer, text) {
        Ok(()) => status,
        Err(_) => FAULT,
    }
}

/// Returns the whole input. If it can't be read, writes the line that reports this, except if it is out of memory, and
/// fails with the exit status.
fn input_of<R: Source, W: Sink>(
    alloc: Global,
    reader: &mut R,
    writer: &mut W,
) -> Result<Vec<u8>, u8>
    ensures input { IfOk result
        (λ v. IfSome (R.remaining reader.old) (λ input. v.items ≡ input)) }
    ensures within { IfOk result (λ v. vec_len v ≤ longest_input) }
    ensures unfailed { OnOk result (R.has_failed reader.new → R.has_failed reader.old) }
    ensures unwritten { OnOk result (writer.new ≡ writer.old) }
    ensures unread { IfErr result (λ status. EndsUnread (R.remaining reader.old)
        (failures R.has_failed reader.old reader.new) (failures W.has_failed writer.old writer.new)
        (W.contents writer.old) (W.contents writer.new) status) }
    ensures reads { R.reads reader.new ≤ R.reads reader.old + (longest_input + 1) }
{
    match read_input(alloc, reader) {
        Ok(input) => Ok(input),
        Err(InputError::Failed) => Err(finish(writer, b"input failed\n", FAULT)),
        Err(InputError::TooLong) => Err(finish(writer, b"line 0: InputTooLong\n", FAULT)),
        Err(InputError::NoMemory) => Err(OUT_OF_MEMORY),
    }
}

/// Reads the whole input, writes what the command prints for it and nothing else, and returns the exit status.
///
/// Makes at most [`LONGEST_INPUT`] + 1 reads. Never retries a read or a write that failed.
pub fn serve<C: Command, R: Source, W: Sink>(
    command: &C,
    alloc: Global,
    reader: &mut R,
    writer: &mut W,
) -> u8
    requires { C.is_ready command.now }
    ensures ends { IfSome (R.remaining reader.old) (λ input. Ends
        (failures R.has_failed reader.old reader.new) (failures W.has_failed writer.old writer.new)
        (may_print_within C.may_print input) (W.contents writer.old) (W.contents writer.new) result) }
    ensures reads { R.reads reader.new ≤ R.reads reader.old + (longest_input + 1) }
{
    let input = match input_of(alloc, reader, writer) {
        Ok(input) => input,
        Err(status) => return status,
    };
    let mut out = Vec::new(alloc);
    let answered = command.answer(alloc, &input, &mut out);
    finish(writer, &out, answered.unwrap_or(OUT_OF_MEMORY))
}
