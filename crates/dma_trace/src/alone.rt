//! A trace to which no RAM is given.
#![tactic(auto, using(dma_text::proofs::Begun::begun))]

ghost use Rattle.std.specs.Prelude.{◌≡◌, IfOk, IsTrue, map};
ghost use Rattle.dma_mem.specs.Regions.{in_order};
ghost use Rattle.dma_text.specs.Text.{Begins};
ghost use Rattle.dma_trace.specs.Found.{ShowsAlone, needs_ram, zero_piece};
ghost use Rattle.dma_trace.specs.inner.Explaining.{ShowsOver};

use crate::explain::{USUAL_MOST, find};
use crate::options::TraceOptions;
use crate::ram::{ranges_found, regions_over, zeros_at};
use crate::trace::trace_all;
use dma_chan::exec::Registers;
use dma_chan::program::MAX_PROGRAM_BYTES;
use dma_explain::explain::known::Given;
use dma_io::progress::Progress;
use dma_mem::segment::Segment;
use dma_text::text::Text;
use std::alloc::{AllocError, Global};

// Returns the line after the message of `explain`.
fn needs_ram(program: &[u8]) -> &'static str
    ensures { result.now ≡ needs_ram program.now }
{
    if program.len() > MAX_PROGRAM_BYTES {
        return "";
    }
    "  (trace needs --ram here: without it, the RAM is the ranges that explain finds)\n"
}

// Traces a program over zeros at these ranges.
fn trace_over<P: Progress>(
    alloc: Global,
    program: &[u8],
    ranges: &[Segment],
    options: &TraceOptions,
    out: &mut Vec<u8>,
    err: &mut Vec<u8>,
    wave: &mut Vec<u8>,
    progress: &mut P,
) -> Result<bool, AllocError>
    requires order { IsTrue (in_order (map zero_piece ranges.now)) }
    ensures ok { IfOk result (λ good. ShowsOver options.now program.now ranges.now good
        out.old.items err.old.items wave.old.items out.new.items err.new.items wave.new.items) }
    ensures begins { Begins out.new.items out.old.items }
    ensures begins_err { Begins err.new.items err.old.items }
    ensures begins_wave { Begins wave.new.items wave.old.items }
{
    let mut bytes = zeros_at(alloc, ranges)?;
    let mut regions = regions_over(alloc, ranges, &mut bytes)?;
    trace_all(
        alloc,
        program,
        &mut regions,
        options,
        out,
        err,
        wave,
        progress,
    )
}

/// Traces a program over zeros at the ranges that `explain` finds, or appends its message to `err`. If memory runs out,
/// it may have appended a part.
pub(crate) fn trace_found<P: Progress>(
    alloc: Global,
    program: &[u8],
    options: &TraceOptions,
    out: &mut Vec<u8>,
    err: &mut Vec<u8>,
    wave: &mut Vec<u8>,
    progress: &mut P,
) -> Result<bool, AllocError>
    ensures ok { IfOk result (λ good. ShowsAlone options.now program.now good
        out.old.items err.old.items wave.old.items out.new.items err.new.items wave.new.items) }
    ensures begins { Begins out.new.items out.old.items }
    ensures begins_err { Begins err.new.items err.old.items }
    ensures begins_wave { Begins wave.new.items wave.old.items }
{
    // As many instructions as by `explain` alone, or the trace's limit if it is larger.
    let most = options.limit.max(USUAL_MOST);
    // A trace begins with registers that are 0.
    let given = Given::all(Registers::start(options.bus));
    match find(alloc, program, given, most, err, progress)? {
        Some(found) => {
            let ranges = ranges_found(alloc, &found)?;
            trace_over(alloc, program, &ranges, options, out, err, wave, progress)
        }
        None => {
            needs_ram(program).push(err)?;
            Ok(false)
        }
    }
}
