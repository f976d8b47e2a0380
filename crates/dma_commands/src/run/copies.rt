//! The `copy` and `fill` lines of a script: their transfer is submitted to channel 0, issued, and stepped until an
//! answer is neither Started nor Moved. The submit and the issue are lists of one call; the steps are taken by `advance`,
//! which copies a transfer at once that starts and finishes in it.
ghost use Rattle.std.specs.Prelude.{◌≡◌, IfOk};
ghost use Rattle.dma_commands.specs.inner.RunSteps.{RunsLine};
ghost use Rattle.dma_commands.specs.Run.{CopiesEnd, copy_answer, is_in_use, is_refused, most_copy_steps, stepped_to_end, transfer_answer};
ghost use Rattle.dma_commands.specs.Transfers.{transfer_of};

use crate::printing::Shown;
use crate::run::calls::reply_to;
use crate::run::steps::step_reply;
use crate::transfers::transfer_of;
use dma_engine::{Call, Engine, Reply};
use dma_io::printing::print_line;
use dma_script::transfer_line::{Origin, TransferLine};
use std::alloc::{AllocError, Global};

/// A limit for the steps of a copy or a fill. It is at least the number of steps of any transfer: its start and fewer
/// than 2^19 instructions (`dma_chan::laws::costs_little`). So it cuts off no copy or fill, which is the law
/// `copies_end`.
pub const MAX_COPY_STEPS: u32 = 524_288;

/// Returns whether channel 0 has an unfinished cookie, or is paused or halted.
fn is_in_use(engine: &Engine) -> bool
    ensures { result ≡ is_in_use engine.now.view }
{
    engine.unfinished(0) > 0 || engine.paused(0) || engine.halted(0)
}

/// Returns whether a reply is a refusal.
fn is_refused(reply: &Reply) -> bool
    ensures { result ≡ is_refused reply.now }
{
    matches!(reply, Reply::Refused(_))
}

/// Steps channel 0 until an answer is neither Started nor Moved, and at most `MAX_COPY_STEPS` + 1 times. Returns the
/// last answer. Fails if memory runs out.
fn step_to_end(alloc: Global, engine: &mut Engine) -> Result<Reply, AllocError>
    ensures { IfOk result
        (λ reply. (reply, engine.new.view) ≡ stepped_to_end most_copy_steps engine.old.view) }
{
    match engine.advance(0, MAX_COPY_STEPS).last {
        Some(last) => step_reply(last),
        None => reply_to(alloc, engine, &Call::Step { ch: 0 }),
    }
}

/// Runs the transfer of a `copy` or `fill` line, and appends `start` and the last answer; or appends why it wasn't
/// run.
fn answer_transfer(
    engine: &mut Engine,
    start: &str,
    words: TransferLine,
    out: &mut Vec<u8>,
) -> Result<(), AllocError>
    ensures { RunsLine
        (transfer_answer engine.old.view start.now (transfer_of words)) engine.new.view
        result out.old.items out.new.items }
{
    let transfer = match transfer_of(words) {
        Ok(transfer) => transfer,
        Err(fault) => return print_line(out, &("refused ", Shown(fault))),
    };
    if is_in_use(engine) {
        return print_line(out, &"refused ChannelInUse");
    }
    let alloc = *out.allocator();
    let submitted = reply_to(alloc, engine, &Call::Submit { ch: 0, transfer })?;
    if is_refused(&submitted) {
        return print_line(out, &Shown(&submitted));
    }
    reply_to(alloc, engine, &Call::Issue { ch: 0 })?;
    let last = step_to_end(alloc, engine)?;
    print_line(out, &(start, Shown(&last)))
}

/// Executes `copy LIST to LIST` or `fill ADDR to LIST`.
pub fn answer_copy(
    engine: &mut Engine,
    words: TransferLine,
    out: &mut Vec<u8>,
) -> Result<(), AllocError>
    ensures { RunsLine (copy_answer engine.old.view words) engine.new.view
        result out.old.items out.new.items }
{
    let start = match words.src {
        Origin::List(_) => "copy ",
        Origin::Place(_) => "fill ",
    };
    answer_transfer(engine, start, words, out)
}

/// Law: the steps of a copy or a fill end with an answer that is neither Started nor Moved, and not because of the
/// loop's limit.
pub fn copies_end()
    ensures { CopiesEnd }
{}
