//! The lines of a race script before `go`. They run on the desk before it gets its lock. A `status` line asks the
//! reader.
ghost use Rattle.std.specs.Prelude.{◌≡◌, OnOk, OnErr};
ghost use Rattle.std.specs.List.{All};
ghost use Rattle.dma_engine.specs.Laws.{IsQuiet};
ghost use Rattle.dma_script.specs.Race.{IsEarly};
ghost use Rattle.dma_commands.specs.Run.{line_answer};
ghost use Rattle.dma_commands.specs.inner.RunSteps.{RunsLine};
ghost use Rattle.dma_script.specs.Interpreted.{PrintsLine, PrintsLines};
ghost use Rattle.dma_commands.specs.Raced.{EarlyPrints};
ghost use Rattle.dmasim.specs.inner.RaceSteps.{PrintsFirst};

use dma_commands::printing::Shown;
use dma_commands::transfers::transfer_of;
use dma_engine::{Call, Reply};
use dma_io::printing::print_line;
use dma_script::interpreter::Interpreter;
use dma_script::statements::{Statement, Statements};
use dma_script::transfer_line::TransferLine;
use dma_work::{Desk, DeskName, StatusReader};
use std::alloc::AllocError;
use std::sync::Wait;

/// Makes a call that publishes nothing.
fn answer_quiet<N: DeskName>(
    desk: &mut Desk<N>,
    call: Call,
    out: &mut Vec<u8>,
) -> Result<(), AllocError>
    requires { IsQuiet call }
    ensures { RunsLine (line_answer desk.old.engine.view (Statement.Call call)) desk.new.engine.view
        result out.old.items out.new.items }
{
    let reply = desk.carry_out(&call);
    print_line(out, &Shown((&call, &reply)))
}

/// Executes `submit CH LIST to LIST [wait E] [signal E]` or `submit CH fill ADDR to LIST [wait E] [signal E]`, and
/// passes the ticket of the cookie to the reader.
fn answer_submit<N: DeskName, R: Wait>(
    rt: &R,
    desk: &mut Desk<N>,
    reader: &mut StatusReader,
    ch: u8,
    words: TransferLine,
    out: &mut Vec<u8>,
) -> Result<(), AllocError>
    requires follows { (N.log ≡ reader.old.log) × (N.base ≡ reader.old.base) }
    ensures line { RunsLine (line_answer desk.old.engine.view (Statement.Submit ch words))
        desk.new.engine.view result out.old.items out.new.items }
    ensures follows { (N.log ≡ reader.new.log) × (N.base ≡ reader.new.base) }
{
    let transfer = match transfer_of(words) {
        Ok(transfer) => transfer,
        Err(fault) => return print_line(out, &("refused ", Shown(fault))),
    };
    match desk.submit(rt, ch, transfer) {
        Ok(receipt) => {
            reader.learn(receipt.ticket);
            print_line(out, &("cookie ", receipt.cookie))
        }
        Err(refused) => print_line(out, &("refused ", Shown(refused.fault))),
    }
}

/// Executes `terminate CH`, and passes the ticket of the cookies that it ended to the reader.
fn answer_terminate<N: DeskName, R: Wait>(
    rt: &R,
    desk: &mut Desk<N>,
    reader: &mut StatusReader,
    ch: u8,
    out: &mut Vec<u8>,
) -> Result<(), AllocError>
    requires follows { (N.log ≡ reader.old.log) × (N.base ≡ reader.old.base) }
    ensures line { RunsLine (line_answer desk.old.engine.view (Statement.Call (Call.Terminate ch)))
        desk.new.engine.view result out.old.items out.new.items }
    ensures follows { (N.log ≡ reader.new.log) × (N.base ≡ reader.new.base) }
{
    match desk.terminate(rt, ch) {
        Ok(closed) => {
            reader.learn(closed.ticket);
            print_line(out, &("aborted ", closed.count))
        }
        Err(fault) => print_line(out, &("refused ", Shown(fault))),
    }
}

/// Executes `status CH COOKIE`, which asks the reader.
fn answer_status<N: DeskName>(
    desk: &Desk<N>,
    reader: &mut StatusReader,
    ch: u8,
    cookie: u32,
    out: &mut Vec<u8>,
) -> Result<(), AllocError>
    requires follows { (N.log ≡ reader.old.log) × (N.base ≡ reader.old.base) }
    ensures line { OnOk result (PrintsLine (EarlyPrints desk.now.engine.view
        (Statement.Call (Call.Status ch cookie))) desk.now.engine.view
        out.old.items out.new.items) }
    ensures err { OnErr result (out.new.items ≡ out.old.items) }
    ensures follows { (N.log ≡ reader.new.log) × (N.base ≡ reader.new.base) }
{
    match desk.status_by_reader(reader, ch, cookie) {
        None => print_line(out, &"status none"),
        Some(status) => {
            let call = Call::Status { ch, cookie };
            print_line(out, &Shown((&call, &Reply::State(status))))
        }
    }
}

/// Executes lines before `go` on a desk, and passes their tickets to its reader.
struct LinesOnDesk<'a, N: DeskName, R: Wait> {
    rt: &'a R,
    desk: Desk<N>,
    reader: StatusReader,
}

impl<N: DeskName, R: Wait> LinesOnDesk<'_, N, R> {
    /// Executes a line that makes one call.
    fn answer_call(&mut self, call: Call, out: &mut Vec<u8>) -> Result<(), AllocError>
        requires takes { IsEarly (Statement.Call call) }
        requires ready { (N.log ≡ self.old.reader.log) × (N.base ≡ self.old.reader.base) }
        ensures line { OnOk result (PrintsLine (EarlyPrints self.old.desk.engine.view
            (Statement.Call call)) self.new.desk.engine.view out.old.items out.new.items) }
        ensures err { OnErr result (out.new.items ≡ out.old.items) }
        ensures ready { (N.log ≡ self.new.reader.log) × (N.base ≡ self.new.reader.base) }
    {
        match call {
            Call::Terminate { ch } => {
                answer_terminate(self.rt, &mut self.desk, &mut self.reader, ch, out)
            }
            Call::Status { ch, cookie } => {
                answer_status(&self.desk, &mut self.reader, ch, cookie, out)
            }
            call => answer_quiet(&mut self.desk, call, out),
        }
    }
}

impl<N: DeskName, R: Wait> Interpreter for LinesOnDesk<'_, N, R> {
    ghost use Rattle.std.specs.Prelude.{◌≡◌};
    ghost use Rattle.dma_script.specs.Race.{IsEarly};
    ghost use Rattle.dma_commands.specs.Raced.{EarlyPrints};

    type Line = Statement;

    ghost takes = { IsEarly };

    ghost is_ready = { λ lines. (N.log ≡ lines.reader.log) × (N.base ≡ lines.reader.base) };

    ghost acts = { λ found line group left.
        EarlyPrints found.desk.engine.view line group left.desk.engine.view };

    fn interpret(&mut self, line: Statement, out: &mut Vec<u8>) -> Result<(), AllocError> {
        match line {
            Statement::Submit { ch, transfer } => answer_submit(
                self.rt,
                &mut self.desk,
                &mut self.reader,
                ch,
                transfer.into_inner(),
                out,
            ),
            Statement::Call(call) => self.answer_call(call.into_call(*out.allocator())?, out),
            _ => unreachable!(),
        }
    }
}

/// Executes the lines before `go`, dropping each one afterwards, and returns the desk. If memory runs out, the output
/// keeps what the lines before printed.
pub fn run_early_statements<N: DeskName, R: Wait>(
    rt: &R,
    desk: Desk<N>,
    reader: StatusReader,
    lines: Statements,
    out: &mut Vec<u8>,
) -> (Desk<N>, Result<(), AllocError>)
    requires follows { (N.log ≡ reader.log) × (N.base ≡ reader.base) }
    requires early { All IsEarly lines }
    ensures ok { OnOk result.1 (PrintsLines EarlyPrints desk.engine.view lines
        result.0.engine.view out.old.items out.new.items) }
    ensures err { OnErr result.1 (PrintsFirst desk.engine.view lines out.old.items out.new.items) }
{
    let mut early = LinesOnDesk { rt, desk, reader };
    let answer = lines.run(&mut early, out);
    let LinesOnDesk {
        rt: _,
        desk,
        reader: _,
    } = early;
    (desk, answer)
}
