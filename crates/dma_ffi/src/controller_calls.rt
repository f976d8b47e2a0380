//! The calls on controllers. All but `dma330_open` and `dma330_close` return `NOT_OPEN` on one that isn't open, and
//! change nothing; on an open one they make the engine's own call, and return and write its answer.
#![tactic(auto, using(crate::proofs::Returns::returned))]

ghost use Rattle.std.specs.Prelude.{◌≡◌, None, length};
ghost use Rattle.dma_mem.specs.Places.{copying, filling};
ghost use Rattle.dma_ffi.specs.Codes.{event_of};
ghost use Rattle.dma_ffi.specs.Requests.{Opens, Returns, a_conflict, a_number, a_report, a_run, an_outcome, ask_call, ask_mark, ask_steps, ask_submit, ask_value, bytes_or_conflict, nothing, the_forgotten, the_history_bytes, the_history_entries, the_run, the_running_count, the_steps, the_unfinished};
ghost use Rattle.dma_ffi.specs.inner.Submits.{Submits};

use crate::codes::{
    ALREADY_OPEN, BAD_ACCESS, NO_MEMORY, NO_RESULT, NOT_OPEN, NOT_RUNNING, OK, answered,
    code_of_new, code_of_status, code_of_transfer, done, event_of, found, kind_of,
};
use crate::controller::Controller;
use crate::reports::{DmaConflict, DmaOutcome, DmaReport, done_unless, outcome_of, report_of};
use crate::steps::take_steps;
use dma_engine::{Call, Engine, Running};
use dma_mem::segment::Segment;
use dma_mem::transfer::{Transfer, TransferFault};
use std::alloc::Global;

/// Opens a controller: makes an engine with `channels` channels over a zeroed memory of `size` bytes. Fails if the
/// controller is open already, with the first fault of the arguments, or if out of memory.
#[unsafe(no_mangle)]
pub extern "C" fn dma330_open(
    alloc: Global,
    controller: &mut Controller,
    size: u32,
    channels: u8,
) -> i32
    ensures { Opens controller.old.engine.value size channels result controller.new.engine.value }
{
    let kept = controller.as_kept();
    if kept.is_open() {
        return ALREADY_OPEN;
    }
    let engine = match Engine::new(alloc, size, channels) {
        Ok(engine) => engine,
        Err(fault) => return code_of_new(fault),
    };
    match kept.open(alloc, engine) {
        Ok(()) => OK,
        Err(_) => NO_MEMORY,
    }
}

/// Closes a controller: frees its engine, if it has one.
#[unsafe(no_mangle)]
pub extern "C" fn dma330_close(alloc: Global, controller: &mut Controller)
    ensures { controller.new.engine.value ≡ None }
{
    controller.as_kept().close(alloc);
}

/// Writes bytes to the memory from `addr` on. If the call conflicts with a transfer, it writes that one to `conflict`.
#[unsafe(no_mangle)]
pub extern "C" fn dma330_write(
    controller: &mut Controller,
    addr: u32,
    bytes: &[u8],
    conflict: &mut DmaConflict,
) -> i32
    ensures { Returns controller.old.engine.value (ask_call (Call.Write addr bytes.now)) result
        (a_conflict conflict.old conflict.new) controller.new.engine.value }
{
    let Some(engine) = controller.get_mut() else {
        return NOT_OPEN;
    };
    done_unless(engine.write(addr, bytes), conflict)
}

/// Reads bytes of the memory from `addr` on, until `out` is full. If the call conflicts with a transfer, it writes that
/// one to `conflict`.
#[unsafe(no_mangle)]
pub extern "C" fn dma330_read(
    controller: &mut Controller,
    addr: u32,
    out: &mut [u8],
    conflict: &mut DmaConflict,
) -> i32
    ensures { Returns controller.old.engine.value (ask_call (Call.Read addr (length out.old)))
        result (bytes_or_conflict out.old out.new conflict.old conflict.new)
        controller.new.engine.value }
{
    let Some(engine) = controller.get_mut() else {
        return NOT_OPEN;
    };
    done_unless(engine.read_into(addr, out), conflict)
}

// Submits a transfer to a channel and writes its cookie, or returns the code of the fault for which no transfer was
// made.
fn submit(
    engine: &mut Engine,
    ch: u8,
    made: Result<Transfer, TransferFault>,
    cookie: &mut u32,
) -> i32
    ensures { Submits engine.old.view ch made result cookie.old cookie.new engine.new.view }
{
    match made {
        Ok(transfer) => answered(
            engine.submit(ch, transfer).map_err(|refused| refused.fault),
            cookie,
        ),
        Err(fault) => code_of_transfer(fault),
    }
}

/// Submits a copy to a channel, and writes its cookie. A negative `wait` or `signal` is no event.
#[unsafe(no_mangle)]
pub extern "C" fn dma330_submit(
    alloc: Global,
    controller: &mut Controller,
    ch: u8,
    src: &[Segment],
    dst: &[Segment],
    wait: i32,
    signal: i32,
    cookie: &mut u32,
) -> i32
    ensures { Returns controller.old.engine.value
        (ask_submit ch (copying src.now dst.now (event_of wait) (event_of signal))) result
        (a_number cookie.old cookie.new) controller.new.engine.value }
{
    let Some(engine) = controller.get_mut() else {
        return NOT_OPEN;
    };
    let made = Transfer::new(alloc, src, dst, event_of(wait), event_of(signal));
    submit(engine, ch, made, cookie)
}

/// Submits a fill to a channel, and writes its cookie. The byte at `src` is copied to every address of `dst`. A
/// negative `wait` or `signal` is no event.
#[unsafe(no_mangle)]
pub extern "C" fn dma330_submit_fill(
    alloc: Global,
    controller: &mut Controller,
    ch: u8,
    src: u32,
    dst: &[Segment],
    wait: i32,
    signal: i32,
    cookie: &mut u32,
) -> i32
    ensures { Returns controller.old.engine.value
        (ask_submit ch (filling src dst.now (event_of wait) (event_of signal))) result
        (a_number cookie.old cookie.new) controller.new.engine.value }
{
    let Some(engine) = controller.get_mut() else {
        return NOT_OPEN;
    };
    let made = Transfer::fill(alloc, src, dst, event_of(wait), event_of(signal));
    submit(engine, ch, made, cookie)
}

/// Issues all submitted cookies of a channel, and writes their number.
#[unsafe(no_mangle)]
pub extern "C" fn dma330_issue(controller: &mut Controller, ch: u8, count: &mut u32) -> i32
    ensures { Returns controller.old.engine.value (ask_call (Call.Issue ch)) result
        (a_number count.old count.new) controller.new.engine.value }
{
    let Some(engine) = controller.get_mut() else {
        return NOT_OPEN;
    };
    answered(engine.issue(ch), count)
}

/// Pauses a channel.
#[unsafe(no_mangle)]
pub extern "C" fn dma330_pause(controller: &mut Controller, ch: u8) -> i32
    ensures { Returns controller.old.engine.value (ask_call (Call.Pause ch)) result nothing
        controller.new.engine.value }
{
    let Some(engine) = controller.get_mut() else {
        return NOT_OPEN;
    };
    done(engine.pause(ch))
}

/// Ends the pause of a channel.
#[unsafe(no_mangle)]
pub extern "C" fn dma330_resume(controller: &mut Controller, ch: u8) -> i32
    ensures { Returns controller.old.engine.value (ask_call (Call.Resume ch)) result nothing
        controller.new.engine.value }
{
    let Some(engine) = controller.get_mut() else {
        return NOT_OPEN;
    };
    done(engine.resume(ch))
}

/// Aborts all unfinished cookies of a channel, and writes their number.
#[unsafe(no_mangle)]
pub extern "C" fn dma330_terminate(controller: &mut Controller, ch: u8, count: &mut u32) -> i32
    ensures { Returns controller.old.engine.value (ask_call (Call.Terminate ch)) result
        (a_number count.old count.new) controller.new.engine.value }
{
    let Some(engine) = controller.get_mut() else {
        return NOT_OPEN;
    };
    answered(engine.terminate(ch), count)
}

/// Takes steps of a channel, at most `most`, up to the first that neither starts a transfer nor moves, and writes a
/// report of them. See `steps::take_steps` for refused steps.
#[unsafe(no_mangle)]
pub extern "C" fn dma330_step(
    controller: &mut Controller,
    ch: u8,
    most: u32,
    report: &mut DmaReport,
) -> i32
    ensures { Returns controller.old.engine.value (ask_steps ch most) result
        (a_report report.old report.new) controller.new.engine.value }
{
    let Some(engine) = controller.get_mut() else {
        return NOT_OPEN;
    };
    let steps = take_steps(engine, ch, most);
    answered(steps.map(report_of), report)
}

/// Returns the status of a cookie as a code: 0 unknown, 1 in progress, 2 complete.
#[unsafe(no_mangle)]
pub extern "C" fn dma330_status(controller: &mut Controller, ch: u8, cookie: u32) -> i32
    ensures { Returns controller.old.engine.value (ask_call (Call.Status ch cookie)) result nothing
        controller.new.engine.value }
{
    let Some(engine) = controller.get_mut() else {
        return NOT_OPEN;
    };
    code_of_status(engine.status(ch, cookie))
}

/// Writes how a cookie finished. Fails if that isn't known.
#[unsafe(no_mangle)]
pub extern "C" fn dma330_result(
    controller: &mut Controller,
    ch: u8,
    cookie: u32,
    outcome: &mut DmaOutcome,
) -> i32
    ensures { Returns controller.old.engine.value (ask_call (Call.Result ch cookie)) result
        (an_outcome outcome.old outcome.new) controller.new.engine.value }
{
    let Some(engine) = controller.get_mut() else {
        return NOT_OPEN;
    };
    let known = engine.result(ch, cookie);
    found(known.map(outcome_of), outcome, NO_RESULT)
}

/// Writes what runs on a channel. Fails if nothing does.
#[unsafe(no_mangle)]
pub extern "C" fn dma330_running(controller: &mut Controller, ch: u8, run: &mut Running) -> i32
    ensures { Returns controller.old.engine.value (ask_value (the_run ch)) result
        (a_run run.old run.new) controller.new.engine.value }
{
    let Some(engine) = controller.get_mut() else {
        return NOT_OPEN;
    };
    found(engine.running(ch), run, NOT_RUNNING)
}

/// Writes the number of unfinished cookies of a channel.
#[unsafe(no_mangle)]
pub extern "C" fn dma330_unfinished(controller: &mut Controller, ch: u8, count: &mut u32) -> i32
    ensures { Returns controller.old.engine.value (ask_value (the_unfinished ch)) result
        (a_number count.old count.new) controller.new.engine.value }
{
    let Some(engine) = controller.get_mut() else {
        return NOT_OPEN;
    };
    *count = engine.unfinished(ch);
    OK
}

/// Writes the number of a channel's cookies whose results were forgotten by checkpoints.
#[unsafe(no_mangle)]
pub extern "C" fn dma330_forgotten(controller: &mut Controller, ch: u8, count: &mut u32) -> i32
    ensures { Returns controller.old.engine.value (ask_value (the_forgotten ch)) result
        (a_number count.old count.new) controller.new.engine.value }
{
    let Some(engine) = controller.get_mut() else {
        return NOT_OPEN;
    };
    *count = engine.forgotten(ch);
    OK
}

/// Injects errors into a range: bursts that read it (access 0) or write it (1) fail from then on. Fails for any other
/// access, or if the engine refuses the range.
#[unsafe(no_mangle)]
pub extern "C" fn dma330_inject_error(
    controller: &mut Controller,
    access: u32,
    range: Segment,
) -> i32
    ensures { Returns controller.old.engine.value (ask_mark access range) result nothing
        controller.new.engine.value }
{
    let Some(engine) = controller.get_mut() else {
        return NOT_OPEN;
    };
    match kind_of(access) {
        Some(kind) => done(engine.mark(kind, range)),
        None => BAD_ACCESS,
    }
}

/// Removes all injected errors.
#[unsafe(no_mangle)]
pub extern "C" fn dma330_uninject_errors(controller: &mut Controller) -> i32
    ensures { Returns controller.old.engine.value (ask_call Call.Unmark) result nothing
        controller.new.engine.value }
{
    let Some(engine) = controller.get_mut() else {
        return NOT_OPEN;
    };
    done(engine.unmark())
}

/// Sets the flag of an event.
#[unsafe(no_mangle)]
pub extern "C" fn dma330_raise(controller: &mut Controller, event: u8) -> i32
    ensures { Returns controller.old.engine.value (ask_call (Call.Raise event)) result nothing
        controller.new.engine.value }
{
    let Some(engine) = controller.get_mut() else {
        return NOT_OPEN;
    };
    done(engine.raise(event))
}

/// Makes the current state the base of the history, forgets the history before it, and frees the memory that it used.
/// If the call conflicts with a transfer, it writes that transfer to `conflict`.
#[unsafe(no_mangle)]
pub extern "C" fn dma330_checkpoint(controller: &mut Controller, conflict: &mut DmaConflict) -> i32
    ensures { Returns controller.old.engine.value (ask_call Call.Checkpoint) result
        (a_conflict conflict.old conflict.new) controller.new.engine.value }
{
    let Some(engine) = controller.get_mut() else {
        return NOT_OPEN;
    };
    done_unless(engine.checkpoint(), conflict)
}

/// Writes the step count.
#[unsafe(no_mangle)]
pub extern "C" fn dma330_steps(controller: &mut Controller, steps: &mut u64) -> i32
    ensures { Returns controller.old.engine.value (ask_value the_steps) result
        (a_number steps.old steps.new) controller.new.engine.value }
{
    let Some(engine) = controller.get_mut() else {
        return NOT_OPEN;
    };
    *steps = engine.steps();
    OK
}

/// Writes the number of entries in the history.
#[unsafe(no_mangle)]
pub extern "C" fn dma330_history_entries(controller: &mut Controller, count: &mut u64) -> i32
    ensures { Returns controller.old.engine.value (ask_value the_history_entries) result
        (a_number count.old count.new) controller.new.engine.value }
{
    let Some(engine) = controller.get_mut() else {
        return NOT_OPEN;
    };
    *count = engine.history().len() as u64;
    OK
}

/// Writes the number of bytes that the history keeps, of writes and of reads.
#[unsafe(no_mangle)]
pub extern "C" fn dma330_history_bytes(controller: &mut Controller, count: &mut u64) -> i32
    ensures { Returns controller.old.engine.value (ask_value the_history_bytes) result
        (a_number count.old count.new) controller.new.engine.value }
{
    let Some(engine) = controller.get_mut() else {
        return NOT_OPEN;
    };
    *count = engine.history_bytes();
    OK
}

/// Writes the number of running transfers.
#[unsafe(no_mangle)]
pub extern "C" fn dma330_running_count(controller: &mut Controller, count: &mut u32) -> i32
    ensures { Returns controller.old.engine.value (ask_value the_running_count) result
        (a_number count.old count.new) controller.new.engine.value }
{
    let Some(engine) = controller.get_mut() else {
        return NOT_OPEN;
    };
    *count = u32::from(engine.running_count());
    OK
}
