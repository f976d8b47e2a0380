//! The calls that explain programs, with what they copy and what their DMASTZ set to 0: one of the caller's, and the one
//! that a device's channel has.

ghost use Rattle.std.specs.Prelude.{◌≡◌, ◌≤◌, ◌++◌, length, drop, map};
ghost use Rattle.dma_ffi.specs.Calls.{ReadsOpen};
ghost use Rattle.dma_ffi.specs.Explaining.{ExplainsChannel, ExplainsProgram, WritesLists, any_bus, cause_number, event_at, explanation_of, given_on, known_of, outputs, register_number, sync_numbers, unexplained_of};
ghost use Rattle.dma_ffi.specs.inner.Found.{AnswersProgram, AnswersDevice};

use crate::codes::{
    BAD_CONFIG, BUFFER_TOO_SMALL, NO_CHANNEL, NO_MEMORY, NO_PROGRAM, NOT_OPEN, OK,
    PROGRAM_TOO_LONG, UNEXPLAINED, number_of_kind,
};
use crate::device_config::any_bus;
use crate::kept_device::KeptDevice;
use dma_chan::exec::Registers;
use dma_device::device::explain::ExplainFault;
use dma_explain::explain::known::{Given, Known, Register};
use dma_explain::explain::{
    Cause, EventSync, Explained, Happening, Repeated, Unexplained, explain_from,
};
use dma_insn::control::ControlWord;
use dma_mem::segment::Segment;
use std::alloc::Global;

/// The registers with which a program begins, as far as they are known.
#[repr(C)]
#[derive(Clone, Copy)]
pub struct DmaStart {
    /// Which of the others are known: 1 for SAR, 2 for DAR, 4 for CCR, 8 for LC0 and 16 for LC1, added up.
    pub known: u32,
    pub sar: u32,
    pub dar: u32,
    pub ccr: u32,
    pub lc0: u8,
    pub lc1: u8,
}

/// A DMAWFE or DMASEV that a program executes.
#[repr(C)]
#[derive(Clone, Copy)]
pub struct DmaEvent {
    /// 0 if it waits, 1 if it signals.
    pub kind: u32,
    /// The event.
    pub event: u32,
    /// The numbers of bytes that the program has copied and set to 0 before it.
    pub copied: u64,
    pub cleared: u64,
}

/// What a program does, or why and where nothing explains it.
#[repr(C)]
#[derive(Clone, Copy)]
pub struct Explanation {
    /// The numbers of sources, destinations, ranges that are set to 0, and events; each is 0 if there is a cause.
    pub src_len: usize,
    pub dst_len: usize,
    pub zeros_len: usize,
    pub events_len: usize,
    /// The numbers of bytes that are copied and set to 0; 0 if there is a cause.
    pub copied: u64,
    pub cleared: u64,
    /// The number of instructions that are executed, including DMAEND; for a cause, of those before the one that has
    /// it.
    pub steps: u32,
    /// For a cause, the offset of the instruction that has it, else 0.
    pub pc: u32,
    /// 0, or the cause's number.
    pub cause: u32,
    /// The lowest address that is stored twice, or loaded and stored, if that is the cause, else 0.
    pub addr: u32,
}

// ---- what a program begins with

// Returns the registers with these bits, from the lowest: SAR, DAR, CCR, LC0 and LC1.
fn known_of(bits: u32) -> Known
    ensures { result ≡ known_of bits }
{
    Known {
        sar: bits % 2 == 1,
        dar: bits / 2 % 2 == 1,
        ccr: bits / 4 % 2 == 1,
        lc0: bits / 8 % 2 == 1,
        lc1: bits / 16 % 2 == 1,
    }
}

// Returns the registers that C gives on a bus, and which of them are known, or `None` if no bus has this number, the
// bits aren't those of registers, or the bus doesn't accept CCR.
fn given_on(start: &DmaStart, bus: u32) -> Option<Given>
    ensures { result ≡ given_on start.now (any_bus bus) }
{
    let bus = any_bus(bus)?;
    if start.known > 31 {
        return None;
    }
    let known = known_of(start.known);
    let bits = if known.ccr { start.ccr } else { 0 };
    let Ok(ccr) = ControlWord::from_bits(bits) else {
        return None;
    };
    if !bus.fits(bits) {
        return None;
    }
    let registers = Registers {
        pc: 0,
        sar: start.sar,
        dar: start.dar,
        ccr,
        lc0: start.lc0,
        lc1: start.lc1,
        bus,
    };
    Some(Given { registers, known })
}

// ---- numbers

// Returns the number of the cause that a register is used that isn't known.
fn number_of_register(register: Register) -> u32
    ensures { result ≡ register_number register }
{
    match register {
        Register::Sar => 16,
        Register::Dar => 17,
        Register::Ccr => 18,
        Register::Lc0 => 19,
        Register::Lc1 => 20,
    }
}

// Returns the number of a cause; a fault's is the one that it has elsewhere. A program that is too long, and out of
// memory, have codes and no number.
fn number_of_cause(cause: Cause) -> u32
    ensures { result ≡ cause_number cause }
{
    match cause {
        Cause::TooLong | Cause::NoMemory => 0,
        Cause::Fails(kind) => number_of_kind(kind),
        Cause::LoadsPast => 8,
        Cause::StoresPast => 9,
        Cause::StoresFixed => 10,
        Cause::DropsBytes => 11,
        Cause::BytesLeft => 12,
        Cause::StoresTwice => 13,
        Cause::StoresSource => 14,
        Cause::NoEnd => 15,
        Cause::UsesUnknown(register) => number_of_register(register),
    }
}

// Returns what an instruction does with an event, 0 for a wait and 1 for a signal, and the event.
fn sync_numbers(sync: EventSync) -> (u32, u32)
    ensures { result ≡ sync_numbers sync }
{
    let (kind, event) = match sync {
        EventSync::Waits(event) => (0, event),
        EventSync::Signals(event) => (1, event),
    };
    (kind, u32::from(event))
}

// Returns an instruction that waits or signals, as C sees it.
fn event_at(happening: Happening) -> DmaEvent
    ensures { result ≡ event_at happening }
{
    let (kind, event) = sync_numbers(happening.sync);
    DmaEvent {
        kind,
        event,
        copied: happening.done.copied,
        cleared: happening.done.cleared,
    }
}

// Returns the numbers of what was found.
fn explanation_of(found: &Explained) -> Explanation
    ensures { result ≡ explanation_of found.now }
{
    Explanation {
        src_len: found.src.len(),
        dst_len: found.dst.len(),
        zeros_len: found.zeros.len(),
        events_len: found.events.len(),
        copied: found.size.copied,
        cleared: found.size.cleared,
        steps: found.steps,
        pc: 0,
        cause: 0,
        addr: 0,
    }
}

// Returns the cause, the place and the address of a program that nothing explains.
fn unexplained_of(why: Unexplained) -> Explanation
    ensures { result ≡ unexplained_of why }
{
    Explanation {
        src_len: 0,
        dst_len: 0,
        zeros_len: 0,
        events_len: 0,
        copied: 0,
        cleared: 0,
        steps: why.steps,
        pc: why.pc,
        cause: number_of_cause(why.cause),
        addr: why.addr,
    }
}

// ---- lists

// Copies items to the front of a list that has room for them.
fn copy_out<T: Copy>(items: &[T], out: &mut [T])
    requires { length items.now ≤ length out.old }
    ensures { out.new ≡ items.now ++ drop (length items.now) out.old }
{
    out[..items.len()].copy_from_slice(items);
}

// Writes events to the front of a list that has room for them.
fn events_out(happenings: &[Happening], out: &mut [DmaEvent])
    requires { length happenings.now ≤ length out.old }
    ensures { out.new ≡ map event_at happenings.now
        ++ drop (length happenings.now) out.old }
{
    for n in 0..happenings.len() {
        out[n] = event_at(happenings[n]);
    }
}

// Writes the lists of what was found, if each has room.
fn write_lists(
    found: &Explained,
    src: &mut [Repeated],
    dst: &mut [Segment],
    zeros: &mut [Segment],
    events: &mut [DmaEvent],
) -> i32
    ensures { WritesLists found.now result src.old src.new dst.old dst.new
        zeros.old zeros.new events.old events.new }
{
    let from = found.src.as_slice();
    let to = found.dst.as_slice();
    let cleared = found.zeros.as_slice();
    let happenings = found.events.as_slice();
    if from.len() > src.len()
        || to.len() > dst.len()
        || cleared.len() > zeros.len()
        || happenings.len() > events.len()
    {
        return BUFFER_TOO_SMALL;
    }
    copy_out(from, src);
    copy_out(to, dst);
    copy_out(cleared, zeros);
    events_out(happenings, events);
    OK
}

// Writes what was found of a program, or why nothing was. Returns the code.
fn answer(
    found: Result<Explained, Unexplained>,
    src: &mut [Repeated],
    dst: &mut [Segment],
    zeros: &mut [Segment],
    events: &mut [DmaEvent],
    explanation: &mut Explanation,
) -> i32
    ensures { AnswersProgram found result
        (outputs src.old dst.old zeros.old events.old explanation.old)
        (outputs src.new dst.new zeros.new events.new explanation.new) }
{
    match found {
        Ok(found) => {
            *explanation = explanation_of(&found);
            write_lists(&found, src, dst, zeros, events)
        }
        Err(why) => match why.cause {
            Cause::TooLong => PROGRAM_TOO_LONG,
            Cause::NoMemory => NO_MEMORY,
            _ => {
                *explanation = unexplained_of(why);
                UNEXPLAINED
            }
        },
    }
}

// Writes the answer to a device's channel. Returns the code.
fn answer_device(
    found: Result<Explained, ExplainFault>,
    src: &mut [Repeated],
    dst: &mut [Segment],
    zeros: &mut [Segment],
    events: &mut [DmaEvent],
    explanation: &mut Explanation,
) -> i32
    ensures { AnswersDevice found result
        (outputs src.old dst.old zeros.old events.old explanation.old)
        (outputs src.new dst.new zeros.new events.new explanation.new) }
{
    match found {
        Ok(found) => answer(Ok(found), src, dst, zeros, events, explanation),
        Err(ExplainFault::NoChannel) => NO_CHANNEL,
        Err(ExplainFault::NoProgram) => NO_PROGRAM,
        Err(ExplainFault::Unexplained(why)) => {
            answer(Err(why), src, dst, zeros, events, explanation)
        }
    }
}

// ---- calls

/// Explains a program by one run without memory, for at most `most` instructions, on the ideal bus or a chip's. It
/// begins with those registers of `start` that are known, whatever the others are: an instruction that uses one of
/// these before the program sets it is a cause, which has the register. Writes what it reads, what it writes, what it
/// sets to 0 and its events to the fronts of the lists, in the order of the run, and their numbers, the numbers of bytes
/// and of instructions to `explanation`. If nothing explains the program, it returns `UNEXPLAINED`, and `explanation`
/// has the cause and the place. If a list is too small, no list changes, and `explanation` has the numbers. Fails too if
/// no bus has this number, `known` has other bits, or the bus doesn't accept a known CCR, if the program is longer than
/// 8,192 bytes, or if out of memory; then nothing is written.
#[unsafe(no_mangle)]
pub extern "C" fn dma330_explain(
    alloc: Global,
    program: &[u8],
    bus: u32,
    start: &DmaStart,
    most: u32,
    src: &mut [Repeated],
    dst: &mut [Segment],
    zeros: &mut [Segment],
    events: &mut [DmaEvent],
    explanation: &mut Explanation,
) -> i32
    ensures { ExplainsProgram program.now (given_on start.now (any_bus bus)) most result
        (outputs src.old dst.old zeros.old events.old explanation.old)
        (outputs src.new dst.new zeros.new events.new explanation.new) }
{
    let Some(given) = given_on(start, bus) else {
        return BAD_CONFIG;
    };
    let found = explain_from(alloc, given, program, most);
    answer(found, src, dst, zeros, events, explanation)
}

/// Explains the program of a channel in the same way on the device's bus: from its first instruction on, with the
/// registers that the channel has. Fails too if the device doesn't have the channel, or the channel has no program;
/// then nothing is written.
#[unsafe(no_mangle)]
pub extern "C" fn dma330_device_explain(
    alloc: Global,
    kept: &mut KeptDevice,
    channel: u8,
    most: u32,
    src: &mut [Repeated],
    dst: &mut [Segment],
    zeros: &mut [Segment],
    events: &mut [DmaEvent],
    explanation: &mut Explanation,
) -> i32
    ensures { ReadsOpen (ExplainsChannel channel most) kept.old.device.value result
        (outputs src.old dst.old zeros.old events.old explanation.old)
        (outputs src.new dst.new zeros.new events.new explanation.new)
        kept.new.device.value }
{
    let Some(device) = kept.get_mut() else {
        return NOT_OPEN;
    };
    let found = device.explain(alloc, channel, most);
    answer_device(found, src, dst, zeros, events, explanation)
}
