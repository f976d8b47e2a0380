//! The command `run`: executes a script. Its lines become lists of calls, the engine's `run` replies to them, and the
//! replies become text. Consecutive lines share a list, but for `copy`, `fill` and `totals`, which depend on the engine.
ghost use Rattle.std.specs.Prelude.{◌≡◌, ◌≤◌, ◌+◌, ◌++◌, ◌∷◌, [], List, IfSome, OnErr, OnOk};
ghost use Rattle.dma_io.specs.Command.{Answers, AppendsGroups, Ends, failures, longest_input, printed_within, text_of};
ghost use Rattle.dma_script.specs.declared.statements.Statement.{Statement as TheStatement};
ghost use Rattle.dma_commands.specs.Run.{line_answer, lines_answered, printed};
ghost use Rattle.dma_commands.specs.inner.Listed.{AnswersLines, Reaches};

mod call_list;
mod calls;
mod copies;
mod left;
mod reused;
mod steps;

use crate::printing::Shown;
use crate::run::call_list::{CallList, MAX_CALLS};
use crate::run::calls::answer_totals;
use crate::run::copies::answer_copy;
pub use crate::run::left::{engine_after, new_engine};
use crate::run::steps::answer_steps;
use crate::transfers::transfer_of;
use dma_engine::{Call, Engine};
use dma_io::command::{Command, SUCCESS, refuse, serve};
use dma_io::input::{MOST_RESERVED, Source};
use dma_io::output::Sink;
use dma_io::printing::print_line;
use dma_script::statements::{Statement, Statements, read_run_script};
use dma_script::transfer_line::TransferLine;
use std::alloc::{AllocError, Global};

impl CallList {
    /// Takes a line that makes one call. It waits in the list, whose lines are executed first if it is full.
    // (Inlined, so that the call is made in its place.)
    #[inline(always)]
    fn take_call(
        &mut self,
        engine: &mut Engine,
        call: Call,
        out: &mut Vec<u8>,
    ) -> Result<(), AllocError>
        ensures ok { OnOk result ((behind : List TheStatement) → Reaches engine.old.view
            (self.old ++ Statement.Call call ∷ behind) out.old.items
            engine.new.view (self.new ++ behind) out.new.items) }
        ensures err { OnErr result ((behind : List TheStatement) → AppendsGroups
            (lines_answered engine.old.view (self.old ++ Statement.Call call ∷ behind))
            out.old.items out.new.items) }
    {
        self.make_room(engine, 1, out)?;
        self.push(call)
    }

    /// Takes a `step` line that may need memory. It waits in the list, unless it has too many steps for one.
    fn take_more_steps(
        &mut self,
        engine: &mut Engine,
        ch: u8,
        count: u32,
        out: &mut Vec<u8>,
    ) -> Result<(), AllocError>
        ensures ok { OnOk result ((behind : List TheStatement) → Reaches engine.old.view
            (self.old ++ Statement.Step ch count ∷ behind) out.old.items
            engine.new.view (self.new ++ behind) out.new.items) }
        ensures err { OnErr result ((behind : List TheStatement) → AppendsGroups
            (lines_answered engine.old.view (self.old ++ Statement.Step ch count ∷ behind))
            out.old.items out.new.items) }
    {
        if count > MAX_CALLS {
            self.execute(engine, out)?;
            return answer_steps(engine, ch, count, out);
        }
        self.make_room(engine, count, out)?;
        self.push_steps(ch, count)
    }

    /// Takes a `step` line. It waits in the list, unless it has too many steps for one.
    fn take_steps(
        &mut self,
        engine: &mut Engine,
        ch: u8,
        count: u32,
        out: &mut Vec<u8>,
    ) -> Result<(), AllocError>
        ensures ok { OnOk result ((behind : List TheStatement) → Reaches engine.old.view
            (self.old ++ Statement.Step ch count ∷ behind) out.old.items
            engine.new.view (self.new ++ behind) out.new.items) }
        ensures err { OnErr result ((behind : List TheStatement) → AppendsGroups
            (lines_answered engine.old.view (self.old ++ Statement.Step ch count ∷ behind))
            out.old.items out.new.items) }
    {
        if self.reuse_step(ch, count) {
            return Ok(());
        }
        self.take_more_steps(engine, ch, count, out)
    }

    /// Takes a `submit` line. If its transfer breaks a rule, it makes no call.
    // (Not inlined, so that no other line clears its locals.)
    #[inline(never)]
    fn take_submit(
        &mut self,
        engine: &mut Engine,
        ch: u8,
        words: TransferLine,
        out: &mut Vec<u8>,
    ) -> Result<(), AllocError>
        ensures ok { OnOk result ((behind : List TheStatement) → Reaches engine.old.view
            (self.old ++ Statement.Submit ch words ∷ behind) out.old.items
            engine.new.view (self.new ++ behind) out.new.items) }
        ensures err { OnErr result ((behind : List TheStatement) → AppendsGroups
            (lines_answered engine.old.view (self.old ++ Statement.Submit ch words ∷ behind))
            out.old.items out.new.items) }
    {
        match transfer_of(words) {
            Ok(transfer) => self.take_call(engine, Call::Submit { ch, transfer }, out),
            Err(fault) => {
                self.execute(engine, out)?;
                print_line(out, &("refused ", Shown(fault)))
            }
        }
    }

    /// Takes a `copy` or `fill` line. It is executed after those that wait.
    // (Not inlined, so that a line that waits takes fewer instructions.)
    #[inline(never)]
    fn take_copy(
        &mut self,
        engine: &mut Engine,
        words: TransferLine,
        out: &mut Vec<u8>,
    ) -> Result<(), AllocError>
        ensures ok { OnOk result ((behind : List TheStatement) → Reaches engine.old.view
            (self.old ++ Statement.Copy words ∷ behind) out.old.items
            engine.new.view (self.new ++ behind) out.new.items) }
        ensures err { OnErr result ((behind : List TheStatement) → AppendsGroups
            (lines_answered engine.old.view (self.old ++ Statement.Copy words ∷ behind))
            out.old.items out.new.items) }
    {
        self.execute(engine, out)?;
        answer_copy(engine, words, out)
    }

    /// Takes a `totals` line. It is executed after those that wait.
    // (Not inlined, as `take_copy` is not.)
    #[inline(never)]
    fn take_totals(&mut self, engine: &mut Engine, out: &mut Vec<u8>) -> Result<(), AllocError>
        ensures ok { OnOk result ((behind : List TheStatement) → Reaches engine.old.view
            (self.old ++ Statement.Totals ∷ behind) out.old.items
            engine.new.view (self.new ++ behind) out.new.items) }
        ensures err { OnErr result ((behind : List TheStatement) → AppendsGroups
            (lines_answered engine.old.view (self.old ++ Statement.Totals ∷ behind))
            out.old.items out.new.items) }
    {
        self.execute(engine, out)?;
        answer_totals(engine, out)
    }

    /// Takes a line, which waits in the list, or is executed after those that wait there. Appends what the lines print
    /// that were executed. If memory runs out, appends what the first of them print, but not all.
    fn take(
        &mut self,
        engine: &mut Engine,
        line: Statement,
        out: &mut Vec<u8>,
    ) -> Result<(), AllocError>
        ensures ok { OnOk result ((behind : List TheStatement) → Reaches engine.old.view
            (self.old ++ line ∷ behind) out.old.items
            engine.new.view (self.new ++ behind) out.new.items) }
        ensures err { OnErr result ((behind : List TheStatement) → AppendsGroups
            (lines_answered engine.old.view (self.old ++ line ∷ behind))
            out.old.items out.new.items) }
    {
        match line {
            Statement::Call(call) => {
                let call = call.into_call(*out.allocator())?;
                self.take_call(engine, call, out)
            }
            Statement::Step { ch, count } => self.take_steps(engine, ch, count, out),
            Statement::Submit { ch, transfer } => self.take_submit(
                engine,
                ch,
                transfer.into_inner(),
                out,
            ),
            Statement::Copy(transfer) => self.take_copy(engine, transfer.into_inner(), out),
            Statement::Totals => self.take_totals(engine, out),
        }
    }
}

/// Executes a line and appends what it prints. If memory runs out, appends nothing.
pub fn run_line(engine: &mut Engine, line: Statement, out: &mut Vec<u8>) -> Result<(), AllocError>
    ensures left { OnOk result
        (engine.new.view ≡ (line_answer engine.old.view line).1) }
    ensures text { OnOk result
        (out.new.items ≡ out.old.items ++ text_of (line_answer engine.old.view line).0) }
    ensures err { OnErr result (out.new.items ≡ out.old.items) }
{
    let mut list = CallList::new(*out.allocator());
    list.take(engine, line, out)?;
    list.execute(engine, out)
}

/// Executes the lines of a script, and appends what they print. Drops each line after it. If memory runs out, appends
/// what the first lines print, but not all.
fn execute_all(
    engine: &mut Engine,
    statements: Statements,
    out: &mut Vec<u8>,
) -> Result<(), AllocError>
    ensures ok { OnOk result (AnswersLines engine.old.view statements engine.new.view
        out.old.items out.new.items) }
    ensures err { OnErr result
        (AppendsGroups (lines_answered engine.old.view statements) out.old.items out.new.items) }
{
    let mut list = CallList::new(*out.allocator());
    let mut left = statements.into_vec().into_iter();
    while let Some(line) = left.next() {
        list.take(engine, line, out)?;
    }
    list.execute(engine, out)
}

/// Executes the lines of a script on an engine. Drops the engine at the end. Returns the exit status. If memory runs
/// out, the output keeps what the lines before printed.
pub fn run_statements(
    alloc: Global,
    engine: Engine,
    statements: Statements,
    out: &mut Vec<u8>,
) -> Result<u8, AllocError>
    ensures { Answers (record { groups = lines_answered engine.view statements; status = 0 })
        result out.old.items out.new.items }
{
    let mut engine = engine;
    let ran = execute_all(&mut engine, statements, out);
    drop(engine);
    ran?;
    Ok(SUCCESS)
}

/// How many bytes of a script are taken to add one entry to the history.
const BYTES_PER_ENTRY: usize = 14;

/// How many bytes a script is taken to print for each of its own bytes.
const PRINTED_PER_BYTE: usize = 4;

/// Reserves memory for the entries and the output of a script of this many bytes, so that they are copied less often
/// while they grow. Reserves nothing for a list for which memory runs out.
fn reserve_for(engine: &mut Engine, text_len: usize, out: &mut Vec<u8>)
    ensures view { engine.new.view ≡ engine.old.view }
    ensures printed { out.new.items ≡ out.old.items }
{
    let len = text_len.min(MOST_RESERVED);
    let _ = engine.reserve_entries(len / BYTES_PER_ENTRY);
    let _ = out.reserve(len * PRINTED_PER_BYTE);
}

/// The command `run`.
#[derive(Drop)]
struct Run;

impl Command for Run {
    ghost use Rattle.dma_script.specs.Statements.{run_script_of};
    ghost use Rattle.std.specs.Prelude.{◌≡◌, ◌<◌, length, Ok, Err, refl};
    ghost use Rattle.std.proofs.Math.Nat.{zero-lt-suc};
    ghost use Rattle.dma_commands.specs.Run.{printed, printed_of};

    ghost may_print = { λ input p. p ≡ printed input };

    fn answer(&self, alloc: Global, input: &[u8], out: &mut Vec<u8>) -> Result<u8, AllocError> {
        match read_run_script(alloc, input) {
            Ok(script) => {
                let mut engine = new_engine(alloc, &script)?;
                reserve_for(&mut engine, input.len(), out);
                run_statements(alloc, engine, script.statements, out)
            }
            Err(error) => refuse(out, &error),
        }
    }

    ghost some_print = { λ input. (
      printed input,
      refl,
      elim (run_script_of input) as (λ read. 0 < length (printed_of read).groups) [
        | Ok script ↦ zero-lt-suc _
        | Err fault ↦ zero-lt-suc _
      ],
    ) };
}

/// Reads a script, executes it, writes what it prints and nothing else, and returns the exit status: 0 on success, 1
/// for a fault of the script or a failing stream, 3 if out of memory.
pub fn run_script<R: Source, W: Sink>(alloc: Global, reader: &mut R, writer: &mut W) -> u8
    ensures ends { IfSome (R.remaining reader.old) (λ input. Ends
        (failures R.has_failed reader.old reader.new) (failures W.has_failed writer.old writer.new)
        (printed_within printed input) (W.contents writer.old) (W.contents writer.new) result) }
    ensures reads { R.reads reader.new ≤ R.reads reader.old + (longest_input + 1) }
{
    serve(&Run, alloc, reader, writer)
}
