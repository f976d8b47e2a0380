//! A call that is made alone, and the line `totals`.
ghost use Rattle.std.specs.Prelude.{◌≡◌, IfOk};
ghost use Rattle.dma_engine.specs.Answer.{answer};
ghost use Rattle.dma_commands.specs.inner.RunSteps.{RunsLine};
ghost use Rattle.dma_commands.specs.Run.{line_answer};

use dma_engine::run::run;
use dma_engine::{Call, Engine, EngineFault, Reply};
use dma_io::printing::print_line;
use dma_script::statements::Statement;
use std::alloc::{AllocError, Global};
use std::slice;

/// Makes one call and returns its reply. Fails with `AllocError` if the call is out of memory.
pub(crate) fn reply_to(alloc: Global, engine: &mut Engine, call: &Call) -> Result<Reply, AllocError>
    ensures answer { IfOk result
        (λ reply. (reply, engine.new.view) ≡ answer engine.old.view call.now) }
{
    let Ok(mut replies) = run(alloc, engine, slice::from_ref(call)) else {
        return Err(AllocError);
    };
    match replies.pop() {
        None | Some(Reply::Refused(EngineFault::NoMemory)) => Err(AllocError),
        Some(reply) => Ok(reply),
    }
}

/// Executes `totals`.
pub(crate) fn answer_totals(engine: &Engine, out: &mut Vec<u8>) -> Result<(), AllocError>
    ensures { RunsLine (line_answer engine.now.view Statement.Totals) engine.now.view
        result out.old.items out.new.items }
{
    let counts = (
        "totals entries ",
        engine.history().len(),
        " steps ",
        engine.steps(),
    );
    print_line(out, &(counts, " running ", engine.running_count()))
}
