//! What a program copies and what it sets to 0, found by one run without memory.

ghost use Rattle.std.specs.Prelude.{◌≡◌, ◌≢◌, ◌-◌, ◌<◌, ◌↔◌, IfErr, IfOk, IsErrAnd, length};
ghost use Rattle.dma_chan.specs.declared.exec.Registers.{Registers};
ghost use Rattle.dma_insn.specs.AssemblyText.{most_program_bytes};
ghost use Rattle.dma_insn.specs.declared.chip.ChipInsn.TheVariants.{End};
ghost use Rattle.dma_mem.specs.Places.{places};
ghost use Rattle.dma_explain.specs.Explains.{Finds, HasAddress, Refuses, bursts_in, unrolled, written_in};
ghost use Rattle.dma_explain.specs.Known.{FindsFrom, MayBegin, RefusesFrom};
ghost use Rattle.dma_explain.specs.Late.{late_in};
ghost use Rattle.dma_explain.specs.inner.Tracing.{IsCopied, IsTracer, Stops, trace_of};

pub mod known;
mod ranges;
mod rounds;
pub mod tracer;

use crate::explain::known::{Given, Register};
use crate::explain::ranges::overlap;
use crate::explain::tracer::Tracer;
use dma_chan::exec::Registers;
use dma_chan::next::Next;
use dma_chan::program::MAX_PROGRAM_BYTES;
use dma_chan::turn::FaultKind;
use dma_insn::chip::ChipInsn;
use dma_mem::segment::Segment;
use std::alloc::Global;

/// A range of addresses that a program reads `times` times in a row, once or more: the `len` bytes from `addr` on.
#[repr(C)]
#[derive(Clone, Copy)]
pub struct Repeated {
    pub addr: u32,
    pub len: u32,
    pub times: u32,
}

/// Whether an instruction waits for an event or signals it, and which event.
#[derive(Clone, Copy)]
pub enum EventSync {
    /// DMAWFE waits for the event.
    Waits(u8),
    /// DMASEV signals the event.
    Signals(u8),
}

/// How many bytes a program copies, and how many it sets to 0.
#[derive(Clone, Copy)]
pub struct Amounts {
    pub copied: u64,
    pub cleared: u64,
}

/// A DMAWFE or DMASEV that a program executes, and how many bytes the program has copied and set to 0 before it.
#[derive(Clone, Copy)]
pub struct Happening {
    pub sync: EventSync,
    pub done: Amounts,
}

/// How many bursts a program executes.
#[derive(Clone, Copy)]
pub struct BurstCounts {
    /// How many DMALD.
    pub loads: u32,
    /// How many DMAST.
    pub stores: u32,
}

/// What a program copies, byte number p of the sources' places to byte number p of the destinations', and what it sets
/// to 0.
#[derive(Drop)]
pub struct Explained {
    pub src: Vec<Repeated>,
    pub dst: Vec<Segment>,
    /// What its DMASTZ set to 0, in order.
    pub zeros: Vec<Segment>,
    pub size: Amounts,
    /// The events that it waits for and signals, in order.
    pub events: Vec<Happening>,
    /// How many instructions it executes, with DMAEND.
    pub steps: u32,
    /// How many of them are bursts.
    pub bursts: BurstCounts,
    /// The offset of the first DMAMOV, DMAADDH or DMAADNH that moves the destination while bytes are in the buffer. A
    /// chip drops these bytes if that moves them to other byte lanes of its bus.
    pub late: Option<u32>,
}

/// Why nothing explains a program. Where a cause speaks of a store, it may be a DMASTZ too, except in `Fails`.
#[derive(Clone, Copy, PartialEq, Eq)]
pub enum Cause {
    /// The program has more than [`MAX_PROGRAM_BYTES`].
    TooLong,
    /// The instruction fails in every memory: it can't be fetched or decoded, the control word isn't accepted, a jump
    /// goes to before the start (`InstrFetchErr`), the buffer has too little room for a load (`MfifoErr`) or too few
    /// bytes for a store (`StDataUnavailable`).
    Fails(FaultKind),
    /// A load's burst ends above 2^32.
    LoadsPast,
    /// A store's burst ends above 2^32.
    StoresPast,
    /// A store's address doesn't increment.
    StoresFixed,
    /// Only on a chip's bus: a DMAMOV, DMAADDH or DMAADNH of DAR, or a DMAMOV CCR, after which a chip drops the bytes
    /// that are loaded and not stored: it moves the destination to other byte lanes of the bus, or changes whether it
    /// rises, or the size of beats that don't rise (DMA-330 manual, updating DMA channel control registers during a DMA
    /// cycle).
    DropsBytes,
    /// Bytes are left in the buffer at DMAEND.
    BytesLeft,
    /// A byte is stored twice.
    StoresTwice,
    /// A byte is stored where one is loaded.
    StoresSource,
    /// No DMAEND is among the first `most` instructions that are executed.
    NoEnd,
    /// The instruction uses a register that isn't known: none was given, and the program hasn't set it.
    UsesUnknown(Register),
    /// Memory ran out.
    NoMemory,
}

/// Why nothing explains a program, and at which instruction. If the cause is `TooLong` or `NoMemory`, the other fields
/// have no meaning.
#[derive(Clone, Copy, PartialEq, Eq)]
pub struct Unexplained {
    pub cause: Cause,
    /// The instruction's offset in the program.
    pub pc: u32,
    /// How many instructions are executed before it.
    pub steps: u32,
    /// The lowest address that is stored twice for `StoresTwice`, the lowest that is loaded and stored for
    /// `StoresSource`, else 0.
    pub addr: u32,
    /// How many bytes are stored before it.
    pub stored: u64,
}

// Why a program stops at its DMAEND, with the address of `Unexplained`.
#[derive(Clone, Copy)]
struct Stop {
    cause: Cause,
    addr: u32,
}

// Returns what a run to DMAEND has done.
fn finish(alloc: Global, tracer: Tracer, steps: u32) -> Result<Explained, Stop>
    requires { IsTracer tracer }
    ensures ok { IfOk result (λ x. IsCopied tracer steps x) }
    ensures err { IfErr result (λ stop. Stops End tracer stop.cause) }
    ensures addr { IfErr result (λ stop. HasAddress stop.cause
        (places (unrolled tracer.src.items)) (written_in (trace_of tracer)) stop.addr) }
{
    if tracer.held > 0 {
        return Err(Stop {
            cause: Cause::BytesLeft,
            addr: 0,
        });
    }
    overlap(
        alloc,
        tracer.src.as_slice(),
        tracer.dst.as_slice(),
        tracer.zeros.as_slice(),
    )?;
    let Tracer {
        src,
        dst,
        zeros,
        done,
        events,
        bursts,
        late,
        ..
    } = tracer;
    Ok(Explained {
        src,
        dst,
        zeros,
        size: done,
        events,
        steps,
        bursts,
        late,
    })
}

/// Explains a program that begins with these registers: runs it without memory for at most `most` instructions, and
/// returns what it copies and sets to 0, or why and where nothing explains it. Only `pc` has no meaning: it starts
/// at 0.
///
/// It takes a few nanoseconds for each instruction that is executed, so `most` also bounds its time. Long loops of
/// DMALD, DMAST, DMARMB, DMAWMB and DMANOP take less than a tenth of that, if the addresses of each round continue those
/// of the round before: many rounds are one step. It allocates 24 bytes for each DMASEV and DMAWFE that is executed, 12
/// bytes for each load whose range doesn't continue or repeat the one before, and 16 bytes for each store whose range
/// doesn't continue the one before; a list that grows takes up to three times as much for a moment.
pub fn explain(
    alloc: Global,
    start: Registers,
    program: &[u8],
    most: u32,
) -> Result<Explained, Unexplained>
    ensures ok { IfOk result (λ x. Finds start program.now most x) }
    ensures bursts { IfOk result (λ x. x.bursts ≡ bursts_in start program.now (x.steps - 1)) }
    ensures late { IfOk result (λ x. x.late ≡ late_in start program.now (x.steps - 1)) }
    ensures err { IfErr result (λ u. u.cause ≢ Cause.NoMemory → u.cause ≢ Cause.TooLong
        → Refuses start program.now most u) }
    ensures long { IsErrAnd result (λ u. u.cause ≡ Cause.TooLong)
        ↔ most_program_bytes < length program.now }
{
    explain_from(alloc, Given::all(start), program, most)
}

/// Explains a program as [`explain`], if only some of the registers are known with which it begins. What it finds, and
/// why it refuses a program, holds whatever the others are: it refuses an instruction that uses one of them before the
/// program has set it.
pub fn explain_from(
    alloc: Global,
    given: Given,
    program: &[u8],
    most: u32,
) -> Result<Explained, Unexplained>
    ensures ok { IfOk result (λ x. FindsFrom given program.now most x) }
    ensures bursts { IfOk result (λ x. (start : Registers) → MayBegin given start
        → x.bursts ≡ bursts_in start program.now (x.steps - 1)) }
    ensures late { IfOk result (λ x. (start : Registers) → MayBegin given start
        → x.late ≡ late_in start program.now (x.steps - 1)) }
    ensures err { IfErr result (λ u. u.cause ≢ Cause.NoMemory → u.cause ≢ Cause.TooLong
        → RefusesFrom given program.now most u) }
    ensures long { IsErrAnd result (λ u. u.cause ≡ Cause.TooLong)
        ↔ most_program_bytes < length program.now }
{
    if program.len() > MAX_PROGRAM_BYTES {
        return Err(Unexplained {
            cause: Cause::TooLong,
            pc: 0,
            steps: 0,
            addr: 0,
            stored: 0,
        });
    }
    let mut tracer = Tracer::new(alloc, given);
    let mut steps = 0;
    while steps < most {
        let pc = tracer.registers.pc;
        let next = match Next::on(tracer.registers.bus, program, pc) {
            Ok(next) => next,
            Err(kind) => return Err(tracer.refusal(Cause::Fails(kind), pc, steps)),
        };
        if let ChipInsn::End = next.insn() {
            let here = tracer.refusal(Cause::NoEnd, pc, steps);
            return match finish(alloc, tracer, steps + 1) {
                Ok(explained) => Ok(explained),
                Err(stop) => Err(Unexplained {
                    cause: stop.cause,
                    addr: stop.addr,
                    ..here
                }),
            };
        }
        match tracer.run(program, next, most - steps) {
            Ok(count) => steps += count,
            Err(cause) => return Err(tracer.refusal(cause, pc, steps)),
        }
    }
    Err(tracer.refusal(Cause::NoEnd, tracer.registers.pc, most))
}
