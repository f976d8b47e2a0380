//! The bursts of a channel: loads from memory into its buffer, and stores from its buffer to memory.

ghost use Rattle.std.specs.Prelude.{◌≡◌, ◌+◌, ◌*◌, ◌≤◌, ◌<◌, ◌++◌, IsTrue, IsNone, length, replicate, false};
ghost use Rattle.std.specs.List.{flat_map};
ghost use Rattle.dma_insn.specs.declared.chip.ChipInsn.TheVariants.{Ld};
ghost use Rattle.dma_insn.specs.AssemblyText.{most_program_bytes};
ghost use Rattle.dma_insn.specs.ControlWord.{beat_bytes};
ghost use Rattle.dma_mem.specs.Lent.{Avoids, with_gaps};
ghost use Rattle.dma_chan.specs.Bursts.{burst_len, touched, advance, reaches, skip_of, span_of};
ghost use Rattle.dma_chan.specs.inner.Spans.{rounds_of, LieIn, IsBurst};
ghost use Rattle.dma_chan.specs.Exec.{source_of, destination_of, buffer_size, read_at};
ghost use Rattle.dma_chan.specs.inner.Acts.{Executes, FaultsWith};

mod stores;
mod zeros;

pub(crate) use crate::bursts::stores::{store_burst, store_fault};
pub(crate) use crate::bursts::zeros::{zero_burst, zero_fault};
use crate::bus::Bus;
use crate::exec::{Executor, Registers};
use crate::fifo::Fifo;
use crate::turn::{ChanTurn, FaultKind};
use dma_insn::control::BurstEnd;
use dma_mem::marks::{MarkKind, Marks};
use dma_mem::ram::Ram;
use dma_mem::segment::Segment;

/// The most bytes that a channel's buffer holds (profile), and the most bytes of one burst (PL330 manual: 16 beats of
/// 16 bytes).
pub const BUFFER_SIZE: usize = 256;

// The most beats of a burst (PL330 manual, CCR).
const MAX_BEATS: usize = 16;

/// One burst: its first address, whether its addresses rise from beat to beat, the bytes of a beat, the number of
/// beats, and how many bytes the first beat leaves out.
#[derive(Clone, Copy)]
pub struct Burst {
    pub addr: u32,
    pub increments: bool,
    pub size: u32,
    pub beats: u32,
    pub skip: u32,
}

// Returns how many bytes the first beat of a burst leaves out.
fn skip_of(bus: Bus, increments: bool, addr: u32, size: u32) -> u32
    requires { 1 ≤ size }
    ensures value { result ≡ skip_of bus increments addr size }
    ensures less { result < size }
    ensures fixed { increments ≡ false → result ≡ 0 }
{
    match bus {
        Bus::Chip(_) if increments => addr % size,
        _ => 0,
    }
}

impl Burst {
    // Returns the burst that begins at this address on a bus, with the fields of one end of a control word.
    fn of(bus: Bus, addr: u32, end: BurstEnd) -> Burst
        ensures value { result ≡ record {
          addr = addr;
          increments = end.increments;
          size = beat_bytes end.size;
          beats = end.beats;
          skip = skip_of bus end.increments addr (beat_bytes end.size);
        } }
        ensures some { IsBurst result }
    {
        let size = end.beat_bytes();
        Burst {
            addr,
            increments: end.increments,
            size,
            beats: u32::from(end.beats.number()),
            skip: skip_of(bus, end.increments, addr, size),
        }
    }

    /// Returns how many bytes the burst moves.
    pub fn len(self) -> u32
        requires some { IsBurst self }
        ensures value { result ≡ burst_len self }
        ensures some { 1 ≤ result }
        ensures limit { result ≤ buffer_size }
    {
        self.beats * self.size - self.skip
    }

    /// Returns the range of addresses that the burst touches. It contains each address once.
    #[inline(always)]
    pub fn span(self) -> Segment
        requires some { IsBurst self }
        ensures addr { result.addr ≡ self.addr }
        ensures len { result.len ≡ span_of self }
        ensures limit { result.len ≤ buffer_size }
    {
        Segment {
            addr: self.addr,
            len: if self.increments {
                self.len()
            } else {
                self.size
            },
        }
    }

    /// Returns how often the burst touches each address of its span.
    pub fn rounds(self) -> u32
        requires some { IsBurst self }
        ensures value { result ≡ rounds_of self }
        ensures bytes { result * span_of self ≡ burst_len self }
        ensures limit { result ≤ 16 }
    {
        if self.increments { 1 } else { self.beats }
    }

    /// Returns how far the burst moves its address.
    pub fn advance(self) -> u32
        requires some { IsBurst self }
        ensures value { result ≡ advance self }
        ensures limit { result ≤ span_of self }
    {
        if self.increments { self.len() } else { 0 }
    }
}

/// Returns the burst of a load.
#[tactic(auto, using(crate::proofs::BurstEnds::burst_of_end))]
pub fn source_burst(registers: &Registers) -> Burst
    ensures value { result ≡ source_of registers.now }
    ensures addr { result.addr ≡ registers.now.sar }
    ensures some { IsBurst result }
{
    Burst::of(registers.bus, registers.sar, registers.ccr.source())
}

/// Returns the burst of a store.
#[tactic(auto, using(crate::proofs::BurstEnds::burst_of_end))]
pub fn destination_burst(registers: &Registers) -> Burst
    ensures value { result ≡ destination_of registers.now }
    ensures addr { result.addr ≡ registers.now.dar }
    ensures some { IsBurst result }
{
    Burst::of(registers.bus, registers.dar, registers.ccr.destination())
}

// Returns whether a burst may touch its addresses: all of them lie in the memory, none lies in a gap or in a mark of
// the kind, and for a store none is read-only.
#[inline(always)]
#[tactic(auto, using(crate::proofs::BurstReach::reaches_clear))]
fn may_touch<M: Ram>(kind: MarkKind, marks: &Marks, memory: &M, burst: Burst) -> bool
    requires some { IsBurst burst }
    ensures exact { result ≡ reaches kind (with_gaps (M.loan memory.now) marks.now)
        (length (M.paged memory.now).image) (touched burst) }
    ensures lie { IsTrue result
        → LieIn (M.loan memory.now) (M.paged memory.now) burst.addr (span_of burst) }
{
    let span = burst.span();
    if memory.clear(kind, span) < span.len {
        return false;
    }
    span.end() <= memory.size() && !marks.hits(kind, span)
}

// Appends a byte to the buffer `count` times, as one run.
#[tactic(auto, using(crate::proofs::BurstRounds::run_put))]
fn put_run(buffer: &mut Fifo, byte: u8, count: u32)
    requires few { count ≤ 16 }
    requires room { length buffer.old + count ≤ buffer_size }
    ensures { buffer.new ≡ buffer.old ++ replicate count byte }
{
    let run = [byte; MAX_BEATS];
    buffer.fill_from_slice(&run[..count as usize]);
}

// Appends the bytes to the buffer `rounds` times. A single byte, as in the source of a fill, is appended as one run.
// Not inlined, since the addresses of most bursts rise.
#[inline(never)]
#[tactic(auto, using(crate::proofs::BurstRounds::one_run, crate::proofs::BurstRounds::round_put))]
fn put_rounds(buffer: &mut Fifo, bytes: &[u8], rounds: u32)
    requires few { rounds ≤ 16 }
    requires room { length buffer.old + rounds * length bytes.now ≤ buffer_size }
    ensures { buffer.new ≡ buffer.old ++ flat_map (λ xs. xs) (replicate rounds bytes.now) }
{
    if bytes.len() == 1 {
        put_run(buffer, bytes[0], rounds);
        return;
    }
    for _round in 0..rounds {
        buffer.fill_from_slice(bytes);
    }
}

// Loads the bytes of a burst into the buffer. Bytes on one page are read in place, and bytes on two pages through the
// block.
#[inline(always)]
#[tactic(auto, using(crate::proofs::BurstRounds::read_touched))]
fn load_span<M: Ram>(burst: Burst, buffer: &mut Fifo, block: &mut [u8], memory: &M)
    requires some { IsBurst burst }
    requires room { length buffer.old + burst_len burst ≤ buffer_size }
    requires within { burst.addr + span_of burst ≤ length (M.paged memory.now).image }
    requires clear { Avoids (M.loan memory.now).gaps burst.addr (span_of burst) }
    requires block { length block.old ≡ buffer_size }
    ensures { buffer.new ≡ buffer.old ++ read_at (M.paged memory.now).image (touched burst) }
{
    let len = burst.span().len as usize;
    let bytes = memory.bytes(burst.addr, &mut block[..len]);
    if burst.increments {
        buffer.fill_from_slice(bytes);
    } else {
        put_rounds(buffer, bytes, burst.beats);
    }
}

// Returns the fault of DMALD, whose burst is `burst`. If it is `None`, the buffer has room for the bytes of the burst,
// and the burst may touch its addresses.
#[inline(always)]
pub(crate) fn load_fault<M: Ram>(
    executor: &Executor,
    burst: Burst,
    memory: &M,
    marks: &Marks,
) -> Option<FaultKind>
    requires burst { burst ≡ source_of executor.now.registers }
    requires addr { burst.addr ≡ executor.now.registers.sar }
    requires some { IsBurst burst }
    ensures fault { FaultsWith (with_gaps (M.loan memory.now) marks.now) Ld executor.now.registers
        executor.now.buffer (M.paged memory.now).image result }
    ensures room { IsNone result
        → length executor.now.buffer + burst_len (source_of executor.now.registers)
        ≤ buffer_size }
    ensures reaches { IsNone result → IsTrue (reaches MarkKind.Reading
        (with_gaps (M.loan memory.now) marks.now) (length (M.paged memory.now).image)
        (touched (source_of executor.now.registers))) }
    ensures lie { IsNone result → LieIn (M.loan memory.now) (M.paged memory.now)
        executor.now.registers.sar (span_of (source_of executor.now.registers)) }
{
    if executor.buffer.len() + burst.len() as usize > BUFFER_SIZE {
        return Some(FaultKind::MfifoErr);
    }
    if !may_touch(MarkKind::Reading, marks, memory, burst) {
        return Some(FaultKind::DataReadErr);
    }
    None
}

// Executes DMALD. Inlined with all that it mostly calls, so that the burst isn't passed in memory.
#[inline(always)]
pub(crate) fn load_burst<M: Ram>(executor: &mut Executor, memory: &M, marks: &Marks) -> ChanTurn
    requires block { length executor.old.block.items ≡ buffer_size }
    requires pc { executor.old.registers.pc < most_program_bytes }
    ensures exact { let image = (M.paged memory.now).image in
        Executes (with_gaps (M.loan memory.now) marks.now) Ld executor.old image
        result executor.new image }
    ensures block { length executor.new.block.items ≡ buffer_size }
    ensures pc { executor.new.registers.pc ≤ executor.old.registers.pc + 1 }
{
    let burst = source_burst(&executor.registers);
    if let Some(kind) = load_fault(executor, burst, memory, marks) {
        return ChanTurn::Fault(kind);
    }
    // Not beside `sar`: the compiler would change both by one access, which waits until the last store of `pc` is done.
    executor.registers.pc += 1;
    load_span(burst, &mut executor.buffer, &mut executor.block, memory);
    executor.registers.sar = executor.registers.sar.wrapping_add(burst.advance());
    ChanTurn::Moved
}
