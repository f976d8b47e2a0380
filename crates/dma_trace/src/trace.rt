//! A program, executed over memory with a line for each instruction.
#![tactic(auto, using(dma_text::proofs::Begun::begun))]

ghost use Rattle.std.specs.Prelude.{◌≡◌, ◌≤◌, ◌<◌, ◌++◌, IsTrue, IsSome, IfOk, None, OnOk, OnErr, length, map, slice_get};
ghost use Rattle.dma_insn.specs.AssemblyText.{most_program_bytes};
ghost use Rattle.dma_mem.specs.Lent.{marks_at};
ghost use Rattle.dma_mem.specs.Regions.{in_order, pieces_of, read_only_of};
ghost use Rattle.dma_chan.specs.Channel.{last_count, loaded_on};
ghost use Rattle.dma_chan.specs.LentRegions.{segment_of, with_gaps_of};
ghost use Rattle.dma_chan.specs.Stepping.{after_step, answer_at};
ghost use Rattle.dma_text.specs.Text.{Begins};
ghost use Rattle.dma_trace.specs.Found.{ShowsRam};
ghost use Rattle.dma_trace.specs.Traced.{Shows, end_of, if_wave};
ghost use Rattle.dma_trace.specs.Wave.{executing, last_text};
ghost use Rattle.dma_trace.specs.inner.Running.{Ends, RunsOver, machine_over};

use crate::alone::trace_found;
use crate::amounts::Instructions;
use crate::failures::Failure;
use crate::lines::{push_dumps, push_step};
pub use crate::options::TraceOptions;
use crate::progress::report;
use crate::wave::{push_first, push_last, push_next};
use crate::words::{LongProgram, Place, Point, State, Why, first_byte};
use dma_chan::channel::Channel;
use dma_chan::exec::Registers;
use dma_chan::lent::step_regions;
use dma_chan::program::MAX_PROGRAM_BYTES;
use dma_chan::turn::ChanTurn;
use dma_explain::explain::Cause;
use dma_io::progress::Progress;
use dma_mem::events::Events;
use dma_mem::marks::{MarkKind, Marks};
use dma_mem::no_memory::NoMemory;
use dma_mem::regions::Region;
use dma_mem::segment::Segment;
use dma_text::text::Text;
use std::alloc::{AllocError, Global};

// Executes the next instruction of a channel over regions.
fn step(
    channel: &mut Channel,
    regions: &mut [Region<'_>],
    events: &mut Events,
    marks: &Marks,
) -> ChanTurn
    requires loaded { IsSome channel.old.program }
    requires count { channel.old.taken < last_count }
    requires order { IsTrue (in_order (pieces_of regions.old)) }
    ensures turn { result ≡ answer_at (with_gaps_of regions.old marks.now)
        (machine_over channel.old regions.old events.old) }
    ensures after { machine_over channel.new regions.new events.new
        ≡ after_step (with_gaps_of regions.old marks.now)
        (machine_over channel.old regions.old events.old) }
    ensures places { map segment_of regions.new ≡ map segment_of regions.old }
    ensures read_only { read_only_of regions.new ≡ read_only_of regions.old }
{
    let taken = step_regions(channel, regions, events, marks, 1);
    taken.last.unwrap()
}

// Returns marks at which loads and stores fail.
fn failing_marks(alloc: Global, failing: &[Segment]) -> Result<Marks, NoMemory>
    ensures { IfOk result (λ marks. marks ≡ marks_at failing.now) }
{
    let mut marks = Marks::new(alloc);
    for segment in failing {
        marks.add(MarkKind::Reading, *segment)?;
        marks.add(MarkKind::Writing, *segment)?;
    }
    Ok(marks)
}

// Appends how a run ends, by the answer of its last step, or `None` at the limit, and returns whether it succeeds.
// `stored` bytes were stored.
fn push_end(
    turn: &Option<ChanTurn>,
    first: Option<u8>,
    at: &Point,
    stored: u64,
    out: &mut Vec<u8>,
    err: &mut Vec<u8>,
) -> Result<bool, AllocError>
    ensures ok { IfOk result (λ good. Ends
        (end_of turn.now first at.now.ahead at.now.steps at.now.front stored) good
        out.old.items err.old.items out.new.items err.new.items) }
    ensures begins { Begins out.new.items out.old.items }
    ensures begins_err { Begins err.new.items err.old.items }
{
    let steps = at.steps;
    let state = State {
        front: &at.front,
        stored,
    };
    match *turn {
        Some(ChanTurn::Ended) => {
            let number = u64::from(steps) + 1;
            ("ended after ", Instructions(number), "\n").push(out)?;
            Ok(true)
        }
        Some(ChanTurn::Waiting(event)) => {
            let waits = ("waits for event ", event.number());
            let steps = Instructions(u64::from(steps));
            (waits, (" after ", steps), "\n").push(out)?;
            Ok(true)
        }
        Some(ChanTurn::Fault(kind)) => {
            let failure = Failure { kind, first, at };
            (Place { first, at }, failure, state).push(err)?;
            Ok(false)
        }
        Some(ChanTurn::Moved) | None => {
            let cause = Cause::NoEnd;
            let why = Why { cause, first, at };
            (Place { first, at }, why, state).push(err)?;
            Ok(false)
        }
    }
}

// Appends how a run ends, with the end of the waveform, and returns whether it succeeds.
fn finish(
    options: &TraceOptions,
    turn: &Option<ChanTurn>,
    program: &[u8],
    at: &Point,
    stored: u64,
    out: &mut Vec<u8>,
    err: &mut Vec<u8>,
    wave: &mut Vec<u8>,
) -> Result<bool, AllocError>
    ensures ok { let first = slice_get program.now at.now.front.registers.pc in
        IfOk result (λ good. Ends
        (end_of turn.now first at.now.ahead at.now.steps at.now.front stored) good
        out.old.items err.old.items out.new.items err.new.items) }
    ensures wave { OnOk result (wave.new.items ≡ wave.old.items ++ if_wave options.now
        (last_text (executing at.now) turn.now)) }
    ensures begins { Begins out.new.items out.old.items }
    ensures begins_err { Begins err.new.items err.old.items }
    ensures begins_wave { Begins wave.new.items wave.old.items }
{
    push_last(options, at, turn, wave)?;
    let first = first_byte(program, at.front.registers.pc);
    push_end(turn, first, at, stored, out, err)
}

// Executes a loaded program until it ends, waits or fails, or until the limit. Loads and stores fail at these marks.
// Appends the lines, the end and the waveform.
fn run<P: Progress>(
    alloc: Global,
    program: &[u8],
    channel: &mut Channel,
    marks: &Marks,
    regions: &mut [Region<'_>],
    options: &TraceOptions,
    out: &mut Vec<u8>,
    err: &mut Vec<u8>,
    wave: &mut Vec<u8>,
    progress: &mut P,
) -> Result<bool, AllocError>
    requires long { length program.now ≤ most_program_bytes }
    requires order { IsTrue (in_order (pieces_of regions.old)) }
    requires loaded { channel.old
        ≡ loaded_on options.now.bus (record { bytes = program.now; cost = None }) }
    ensures ok { IfOk result (λ good. RunsOver options.now (with_gaps_of regions.old marks.now)
        program.now regions.old regions.new good out.old.items err.old.items wave.old.items
        out.new.items err.new.items wave.new.items) }
    ensures places { map segment_of regions.new ≡ map segment_of regions.old }
    ensures begins { Begins out.new.items out.old.items }
    ensures begins_err { Begins err.new.items err.old.items }
    ensures begins_wave { Begins wave.new.items wave.old.items }
{
    let mut events = Events::from_bits(options.events);
    let mut at = Point::of(channel, 0);
    push_first(options, &at, wave)?;
    for steps in 0..options.limit {
        report(progress, steps);
        let stored = channel.stored();
        let turn = step(channel, regions, &mut events, marks);
        let ChanTurn::Moved = turn else {
            return finish(options, &Some(turn), program, &at, stored, out, err, wave);
        };
        let next = Point::of(channel, steps + 1);
        push_step(alloc, options, &at, &next.front, regions, out)?;
        push_next(options, &at, &next, wave)?;
        at = next;
    }
    let stored = channel.stored();
    finish(options, &None, program, &at, stored, out, err, wave)
}

// Traces a program. If memory runs out, it may have appended a part.
pub(crate) fn trace_all<P: Progress>(
    alloc: Global,
    program: &[u8],
    regions: &mut [Region<'_>],
    options: &TraceOptions,
    out: &mut Vec<u8>,
    err: &mut Vec<u8>,
    wave: &mut Vec<u8>,
    progress: &mut P,
) -> Result<bool, AllocError>
    requires order { IsTrue (in_order (pieces_of regions.old)) }
    ensures ok { IfOk result (λ good. Shows options.now program.now regions.old regions.new good
        out.old.items err.old.items wave.old.items out.new.items err.new.items wave.new.items) }
    ensures begins { Begins out.new.items out.old.items }
    ensures begins_err { Begins err.new.items err.old.items }
    ensures begins_wave { Begins wave.new.items wave.old.items }
{
    if program.len() > MAX_PROGRAM_BYTES {
        LongProgram.push(err)?;
        return Ok(false);
    }
    let Ok(marks) = failing_marks(alloc, &options.failing) else {
        return Err(AllocError);
    };
    let Ok(mut channel) = Channel::new(alloc) else {
        return Err(AllocError);
    };
    channel.load_bytes(program, Registers::start(options.bus));
    let good = run(
        alloc,
        program,
        &mut channel,
        &marks,
        regions,
        options,
        out,
        err,
        wave,
        progress,
    )?;
    push_dumps(alloc, regions, &options.dumps, out)?;
    Ok(good)
}

/// Executes a program over regions of memory, and appends to `out` a line for each instruction that `options` asks for,
/// how the program ended, and the memory that it asks for. Returns whether the program ended or waits. If it is too
/// long, fails, or reaches the limit, appends the reason to `err`. Appends the waveform of the whole run to `wave` if
/// `options` asks for it, with at most 120 bytes for each instruction.
///
/// Without regions, the memory is zeros at the ranges that `explain` finds. If it finds none, appends its message to
/// `err`, and returns false.
///
/// If memory runs out, it fails and appends nothing; the regions may have changed.
pub fn trace<P: Progress>(
    alloc: Global,
    program: &[u8],
    regions: &mut [Region<'_>],
    options: &TraceOptions,
    out: &mut Vec<u8>,
    err: &mut Vec<u8>,
    wave: &mut Vec<u8>,
    progress: &mut P,
) -> Result<bool, AllocError>
    requires order { IsTrue (in_order (pieces_of regions.old)) }
    ensures ok { IfOk result (λ good. ShowsRam options.now program.now regions.old regions.new good
        out.old.items err.old.items wave.old.items out.new.items err.new.items wave.new.items) }
    ensures out { OnErr result (out.new.items ≡ out.old.items) }
    ensures err { OnErr result (err.new.items ≡ err.old.items) }
    ensures wave { OnErr result (wave.new.items ≡ wave.old.items) }
{
    let (out_len, err_len, wave_len) = (out.len(), err.len(), wave.len());
    let result = if regions.is_empty() {
        trace_found(alloc, program, options, out, err, wave, progress)
    } else {
        trace_all(alloc, program, regions, options, out, err, wave, progress)
    };
    if result.is_err() {
        out.truncate(out_len);
        err.truncate(err_len);
        wave.truncate(wave_len);
    }
    result
}
