//! Bursts of zeros.

ghost use Rattle.std.specs.Prelude.{◌≡◌, ◌+◌, ◌≤◌, ◌<◌, IsTrue, IsNone, length};
ghost use Rattle.dma_insn.specs.declared.chip.ChipInsn.TheVariants.{StoreZeros};
ghost use Rattle.dma_insn.specs.AssemblyText.{most_program_bytes};
ghost use Rattle.dma_mem.specs.Image.{put};
ghost use Rattle.dma_mem.specs.Lent.{Avoids, with_gaps};
ghost use Rattle.dma_chan.specs.Bursts.{burst_len, touched, zeros_of, reaches, span_of};
ghost use Rattle.dma_chan.specs.inner.Spans.{LieIn, IsBurst};
ghost use Rattle.dma_chan.specs.Exec.{destination_of, buffer_size};
ghost use Rattle.dma_chan.specs.Ready.{none_missing};
ghost use Rattle.dma_chan.specs.inner.Acts.{Executes, FaultsWith};

use crate::bursts::{Burst, destination_burst, may_touch};
use crate::exec::Executor;
use crate::turn::{ChanTurn, FaultKind};
use dma_mem::marks::{MarkKind, Marks};
use dma_mem::ram::Ram;

// Stores zeros as a burst.
fn zero_span<M: Ram>(burst: Burst, memory: &mut M)
    requires some { IsBurst burst }
    requires within { burst.addr + span_of burst ≤ length (M.paged memory.old).image }
    requires clear { Avoids (M.loan memory.old).gaps burst.addr (span_of burst) }
    requires ready { IsTrue (none_missing (M.paged memory.old) (touched burst)) }
    ensures written { (M.paged memory.new).image
        ≡ put (M.paged memory.old).image (zeros_of burst) }
    ensures pages { (M.paged memory.new).made ≡ (M.paged memory.old).made }
    ensures loan { M.loan memory.new ≡ M.loan memory.old }
{
    memory.fill(burst.addr, burst.span().len, 0);
}

// Returns the fault of DMASTZ. If it is `None`, the burst may touch its addresses.
pub(crate) fn zero_fault<M: Ram>(
    executor: &Executor,
    memory: &M,
    marks: &Marks,
) -> Option<FaultKind>
    ensures fault { FaultsWith (with_gaps (M.loan memory.now) marks.now) StoreZeros
        executor.now.registers executor.now.buffer (M.paged memory.now).image result }
    ensures reaches { IsNone result → IsTrue (reaches MarkKind.Writing
        (with_gaps (M.loan memory.now) marks.now) (length (M.paged memory.now).image)
        (touched (destination_of executor.now.registers))) }
    ensures lie { IsNone result → LieIn (M.loan memory.now) (M.paged memory.now)
        executor.now.registers.dar (span_of (destination_of executor.now.registers)) }
{
    let burst = destination_burst(&executor.registers);
    if !may_touch(MarkKind::Writing, marks, memory, burst) {
        return Some(FaultKind::DataWriteErr);
    }
    None
}

// Executes DMASTZ. Returns also how many bytes it stored.
pub(crate) fn zero_burst<M: Ram>(
    executor: &mut Executor,
    memory: &mut M,
    marks: &Marks,
) -> (ChanTurn, u32)
    requires pc { executor.old.registers.pc < most_program_bytes }
    requires ready { IsTrue
        (none_missing (M.paged memory.old) (touched (destination_of executor.old.registers))) }
    ensures exact { Executes (with_gaps (M.loan memory.old) marks.now) StoreZeros executor.old
        (M.paged memory.old).image result.0 executor.new (M.paged memory.new).image }
    ensures stored { result.0 ≡ ChanTurn.Moved
        → result.1 ≡ burst_len (destination_of executor.old.registers) }
    ensures limit { result.1 ≤ buffer_size }
    ensures pages { (M.paged memory.new).made ≡ (M.paged memory.old).made }
    ensures block { executor.new.block.items ≡ executor.old.block.items }
    ensures pc { executor.new.registers.pc ≤ executor.old.registers.pc + 1 }
    ensures loan { M.loan memory.new ≡ M.loan memory.old }
{
    if let Some(kind) = zero_fault(executor, memory, marks) {
        return (ChanTurn::Fault(kind), 0);
    }
    let burst = destination_burst(&executor.registers);
    zero_span(burst, memory);
    executor.registers.pc += 1;
    executor.registers.dar = executor.registers.dar.wrapping_add(burst.advance());
    (ChanTurn::Moved, burst.len())
}
