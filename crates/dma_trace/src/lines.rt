//! The lines of a trace.
#![tactic(auto, using(dma_text::proofs::Begun::begun))]

ghost use Rattle.std.specs.Prelude.{◌≡◌, ◌+◌, ◌++◌, ◌<◌, ◌^◌, OnOk, IfOk, take, flat_map};
ghost use Rattle.dma_text.specs.Text.{Begins};
ghost use Rattle.dma_chan.specs.inner.Spans.{IsBurst};
ghost use Rattle.dma_mem.specs.Regions.{pieces_of, run_from};
ghost use Rattle.dma_trace.specs.Traced.{burst_text, dump_text, line_text, moves_text, row_bytes, row_text, shown_line, step_text};

use crate::amounts::{Offset, Range};
use crate::columns::{Aligned, FrontColumns, InsnColumn};
use crate::options::TraceOptions;
use crate::words::{Front, Point};
use dma_chan::bursts::{Burst, destination_burst, source_burst};
use dma_explain::explain::tracer::read_of;
use dma_insn::chip::ChipInsn;
use dma_mem::regions::{Region, copy_run};
use dma_mem::segment::Segment;
use dma_text::text::{Address, SpacedBytes, Text};
use std::alloc::{AllocError, Global};

/// The most bytes that are printed of a burst, and in a row.
const ROW_BYTES: u32 = 16;

/// The width of an instruction's number.
const NUMBER_WIDTH: usize = 7;

/// The width of a loop counter, and of the number of bytes in the buffer.
const COUNTER_WIDTH: usize = 3;

// Returns the bytes from an address on, at most `most`, up to the first address that no region has.
fn bytes_from(
    alloc: Global,
    regions: &[Region<'_>],
    addr: u32,
    most: usize,
) -> Result<Vec<u8>, AllocError>
    ensures { IfOk result
        (λ bytes. bytes.items ≡ take most (run_from (pieces_of regions.now) addr)) }
{
    let mut bytes = Vec::with_capacity(alloc, most)?;
    copy_run(regions, addr, most, &mut bytes);
    Ok(bytes)
}

// Appends what a burst moved, with its first bytes.
#[tactic(auto, using(dma_text::proofs::Begun::begun), unfolding(crate::specs::Traced::burst_text))]
fn push_burst(
    alloc: Global,
    verb: &str,
    burst: Burst,
    regions: &[Region<'_>],
    out: &mut Vec<u8>,
) -> Result<(), AllocError>
    requires some { IsBurst burst }
    ensures ok { OnOk result
        (out.new.items ≡ out.old.items ++ burst_text verb.now burst (pieces_of regions.now)) }
    ensures begins { Begins out.new.items out.old.items }
{
    let span = burst.span();
    let bytes = bytes_from(alloc, regions, span.addr, span.len.min(ROW_BYTES) as usize)?;
    let more = if span.len > ROW_BYTES { " .." } else { "" };
    (
        verb,
        Range(read_of(burst)),
        (":", SpacedBytes(bytes.as_slice()), more),
    )
        .push(out)
}

// Appends what an instruction loaded or stored.
#[tactic(auto, using(dma_text::proofs::Begun::begun), unfolding(crate::specs::Traced::moves_text))]
fn push_moves(
    alloc: Global,
    insn: &ChipInsn,
    before: &Front,
    regions: &[Region<'_>],
    out: &mut Vec<u8>,
) -> Result<(), AllocError>
    ensures ok { OnOk result (out.new.items
        ≡ out.old.items ++ moves_text insn.now before.now (pieces_of regions.now)) }
    ensures begins { Begins out.new.items out.old.items }
{
    match *insn {
        ChipInsn::Ld => {
            let burst = source_burst(&before.registers);
            push_burst(alloc, "; loaded ", burst, regions, out)
        }
        ChipInsn::St | ChipInsn::StoreZeros => {
            let burst = destination_burst(&before.registers);
            push_burst(alloc, "; stored ", burst, regions, out)
        }
        _ => Ok(()),
    }
}

/// The first part of an instruction's line.
#[derive(Drop)]
struct Step<'a> {
    number: u64,
    insn: &'a ChipInsn,
    pc: u32,
    after: &'a Front,
}

impl Text for Step<'_> {
    ghost text = { λ s. step_text s.number s.insn.now s.pc s.after.now };

    #[tactic(auto, unfolding(crate::specs::Traced::step_text))]
    fn push(&self, out: &mut Vec<u8>) -> Result<(), AllocError> {
        let number = Aligned {
            number: self.number,
            width: NUMBER_WIDTH,
        };
        let registers = FrontColumns {
            front: self.after,
            width: COUNTER_WIDTH,
        };
        let place = (number, " ", Offset(self.pc));
        (place, (" ", InsnColumn(*self.insn)), ("; ", registers)).push(out)
    }
}

// Appends the line of an instruction.
fn push_line<'a>(
    alloc: Global,
    number: u64,
    insn: &'a ChipInsn,
    before: &Front,
    after: &'a Front,
    regions: &[Region<'_>],
    out: &mut Vec<u8>,
) -> Result<(), AllocError>
    ensures ok { OnOk result (out.new.items ≡ out.old.items
        ++ line_text number insn.now before.now after.now (pieces_of regions.now)) }
    ensures begins { Begins out.new.items out.old.items }
{
    let step = Step {
        number,
        insn,
        pc: before.registers.pc,
        after,
    };
    step.push(out)?;
    push_moves(alloc, insn, before, regions, out)?;
    "\n".push(out)
}

/// Appends the line of an instruction that was executed, if it is printed.
#[tactic(auto, using(dma_text::proofs::Begun::begun), unfolding(crate::specs::Traced::shown_line))]
pub fn push_step(
    alloc: Global,
    options: &TraceOptions,
    at: &Point,
    after: &Front,
    regions: &[Region<'_>],
    out: &mut Vec<u8>,
) -> Result<(), AllocError>
    ensures ok { OnOk result (out.new.items ≡ out.old.items ++ shown_line options.now
        (at.now.steps + 1) at.now.ahead at.now.front after.now (pieces_of regions.now)) }
    ensures begins { Begins out.new.items out.old.items }
{
    let steps = at.steps;
    let number = u64::from(steps) + 1;
    match &at.ahead {
        Ok(insn) => {
            if !options.shows(number) {
                return Ok(());
            }
            push_line(alloc, number, insn, &at.front, after, regions, out)
        }
        Err(_) => Ok(()),
    }
}

/// The bytes of a row, or that no region has its first address.
#[derive(Drop)]
struct RowBytes<'a>(&'a [u8]);

impl Text for RowBytes<'_> {
    ghost text = { λ row. row_bytes row.0.now };

    fn push(&self, out: &mut Vec<u8>) -> Result<(), AllocError> {
        let RowBytes(bytes) = *self;
        if bytes.is_empty() {
            return ": no RAM here".push(out);
        }
        SpacedBytes(bytes).push(out)
    }
}

// Appends a row of a range.
#[tactic(auto, using(dma_text::proofs::Begun::begun), unfolding(crate::specs::Traced::row_text))]
fn push_row(
    alloc: Global,
    regions: &[Region<'_>],
    segment: Segment,
    row: u64,
    out: &mut Vec<u8>,
) -> Result<(), AllocError>
    requires { row < 2 ^ 32 }
    ensures ok { OnOk result
        (out.new.items ≡ out.old.items ++ row_text (pieces_of regions.now) segment row) }
    ensures begins { Begins out.new.items out.old.items }
{
    let done = 16 * row;
    let addr = ((u64::from(segment.addr) + done) % (1 << 32)) as u32;
    let count = u64::from(segment.len).saturating_sub(done).min(16) as usize;
    let bytes = bytes_from(alloc, regions, addr, count)?;
    ("0x", Address(addr), (RowBytes(bytes.as_slice()), "\n")).push(out)
}

// Appends the rows of a range.
fn push_dump(
    alloc: Global,
    regions: &[Region<'_>],
    segment: Segment,
    out: &mut Vec<u8>,
) -> Result<(), AllocError>
    ensures ok { OnOk result
        (out.new.items ≡ out.old.items ++ dump_text (pieces_of regions.now) segment) }
    ensures begins { Begins out.new.items out.old.items }
{
    let rows = (u64::from(segment.len) + 15) / 16;
    for row in 0..rows {
        push_row(alloc, regions, segment, row, out)?;
    }
    Ok(())
}

/// Appends the rows of each range.
pub fn push_dumps(
    alloc: Global,
    regions: &[Region<'_>],
    dumps: &[Segment],
    out: &mut Vec<u8>,
) -> Result<(), AllocError>
    ensures ok { OnOk result
        (out.new.items ≡ out.old.items ++ flat_map (dump_text (pieces_of regions.now)) dumps.now) }
    ensures begins { Begins out.new.items out.old.items }
{
    for segment in dumps {
        push_dump(alloc, regions, *segment, out)?;
    }
    Ok(())
}
