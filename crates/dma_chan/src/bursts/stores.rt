//! Stores of a channel: from its buffer to memory.

ghost use Rattle.std.specs.Prelude.{◌≡◌, ◌+◌, ◌≤◌, ◌<◌, IsTrue, IsNone, length, take, drop};
ghost use Rattle.dma_insn.specs.declared.chip.ChipInsn.TheVariants.{St};
ghost use Rattle.dma_insn.specs.AssemblyText.{most_program_bytes};
ghost use Rattle.dma_mem.specs.Image.{put};
ghost use Rattle.dma_mem.specs.Lent.{Avoids, with_gaps};
ghost use Rattle.dma_chan.specs.Bursts.{burst_len, touched, writes_of, reaches, span_of};
ghost use Rattle.dma_chan.specs.inner.Spans.{LieIn, IsBurst};
ghost use Rattle.dma_chan.specs.Exec.{destination_of, buffer_size};
ghost use Rattle.dma_chan.specs.Ready.{none_missing};
ghost use Rattle.dma_chan.specs.inner.Acts.{Executes, FaultsWith};

use crate::bursts::{Burst, destination_burst, may_touch};
use crate::exec::Executor;
use crate::fifo::Fifo;
use crate::turn::{ChanTurn, FaultKind};
use dma_mem::marks::{MarkKind, Marks};
use dma_mem::ram::Ram;

// Stores the oldest bytes of the buffer as a burst. Bytes that a later beat would overwrite are not written. Bytes in
// two pieces are written through the block.
#[inline(always)]
fn store_span<M: Ram>(burst: Burst, buffer: &mut Fifo, block: &mut [u8], memory: &mut M)
    requires some { IsBurst burst }
    requires bytes { burst_len burst ≤ length buffer.old }
    requires within { burst.addr + span_of burst ≤ length (M.paged memory.old).image }
    requires clear { Avoids (M.loan memory.old).gaps burst.addr (span_of burst) }
    requires ready { IsTrue (none_missing (M.paged memory.old) (touched burst)) }
    requires block { length block.old ≡ buffer_size }
    ensures written { (M.paged memory.new).image ≡ put (M.paged memory.old).image
        (writes_of burst (take (burst_len burst) buffer.old)) }
    ensures pages { (M.paged memory.new).made ≡ (M.paged memory.old).made }
    ensures taken { buffer.new ≡ drop (burst_len burst) buffer.old }
    ensures loan { M.loan memory.new ≡ M.loan memory.old }
{
    let len = burst.len() as usize;
    let overwritten = len - burst.span().len as usize;
    if let Some(bytes) = buffer.front(len) {
        memory.put(burst.addr, &bytes[overwritten..]);
        buffer.drop_front(len);
    } else {
        let bytes = &mut block[..len];
        buffer.read_into(bytes);
        memory.put(burst.addr, &bytes[overwritten..]);
    }
}

// Returns the fault of DMAST, whose burst is `burst`. If it is `None`, the buffer has the bytes of the burst, and the
// burst may touch its addresses.
pub(crate) fn store_fault<M: Ram>(
    executor: &Executor,
    burst: Burst,
    memory: &M,
    marks: &Marks,
) -> Option<FaultKind>
    requires burst { burst ≡ destination_of executor.now.registers }
    requires addr { burst.addr ≡ executor.now.registers.dar }
    requires some { IsBurst burst }
    ensures fault { FaultsWith (with_gaps (M.loan memory.now) marks.now) St executor.now.registers
        executor.now.buffer (M.paged memory.now).image result }
    ensures bytes { IsNone result
        → burst_len (destination_of executor.now.registers) ≤ length executor.now.buffer }
    ensures reaches { IsNone result → IsTrue (reaches MarkKind.Writing
        (with_gaps (M.loan memory.now) marks.now) (length (M.paged memory.now).image)
        (touched (destination_of executor.now.registers))) }
    ensures lie { IsNone result → LieIn (M.loan memory.now) (M.paged memory.now)
        executor.now.registers.dar (span_of (destination_of executor.now.registers)) }
{
    if executor.buffer.len() < burst.len() as usize {
        return Some(FaultKind::StDataUnavailable);
    }
    if !may_touch(MarkKind::Writing, marks, memory, burst) {
        return Some(FaultKind::DataWriteErr);
    }
    None
}

// Executes DMAST. Returns also how many bytes it stored. Inlined like `load_burst`.
#[inline(always)]
pub(crate) fn store_burst<M: Ram>(
    executor: &mut Executor,
    memory: &mut M,
    marks: &Marks,
) -> (ChanTurn, u32)
    requires block { length executor.old.block.items ≡ buffer_size }
    requires pc { executor.old.registers.pc < most_program_bytes }
    requires ready { IsTrue
        (none_missing (M.paged memory.old) (touched (destination_of executor.old.registers))) }
    ensures exact { Executes (with_gaps (M.loan memory.old) marks.now) St executor.old
        (M.paged memory.old).image result.0 executor.new (M.paged memory.new).image }
    ensures stored { result.0 ≡ ChanTurn.Moved
        → result.1 ≡ burst_len (destination_of executor.old.registers) }
    ensures limit { result.1 ≤ buffer_size }
    ensures pages { (M.paged memory.new).made ≡ (M.paged memory.old).made }
    ensures block { length executor.new.block.items ≡ buffer_size }
    ensures pc { executor.new.registers.pc ≤ executor.old.registers.pc + 1 }
    ensures loan { M.loan memory.new ≡ M.loan memory.old }
{
    let burst = destination_burst(&executor.registers);
    if let Some(kind) = store_fault(executor, burst, memory, marks) {
        return (ChanTurn::Fault(kind), 0);
    }
    store_span(burst, &mut executor.buffer, &mut executor.block, memory);
    executor.registers.pc += 1;
    executor.registers.dar = executor.registers.dar.wrapping_add(burst.advance());
    (ChanTurn::Moved, burst.len())
}
