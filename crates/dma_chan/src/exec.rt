//! The registers of a channel, and the execution of one instruction.

ghost use Rattle.std.specs.Prelude.{◌≡◌, ◌+◌, ◌-◌, ◌≤◌, ◌<◌, IsTrue, IsNone, length, Ok};
ghost use Rattle.dma_insn.specs.AssemblyText.{most_program_bytes};
ghost use Rattle.dma_insn.specs.Chip.{spelling};
ghost use Rattle.dma_insn.specs.declared.chip.ChipInsn.TheVariants.{Mov, Lp, LpEnd, Sev, Wfe, AddHalfword, LoopAgain};
ghost use Rattle.dma_chan.specs.Bursts.{drops};
ghost use Rattle.dma_chan.specs.Exec.{addend, buffer_size, counter_of, destination_of, act, kept, state};
ghost use Rattle.dma_chan.specs.Channel.{stored_by};
ghost use Rattle.dma_chan.specs.inner.Acts.{Executes, FaultsAt, IsOther, SetsFlags, SetsKeeping, SetsRegisters};
ghost use Rattle.dma_chan.specs.Ready.{is_ready};
ghost use Rattle.dma_mem.specs.Lent.{with_gaps};

mod faults;

use crate::bursts::{load_burst, store_burst, zero_burst};
use crate::bus::Bus;
pub(crate) use crate::exec::faults::fault_of;
use crate::fifo::Fifo;
use crate::next::Next;
use crate::turn::{ChanTurn, FaultKind};
use dma_insn::chip::{Address, ChipInsn};
use dma_insn::control::ControlWord;
use dma_insn::insn::{Counter, Event, Reg, Times};
use dma_mem::events::Events;
use dma_mem::marks::Marks;
use dma_mem::ram::Ram;

// CCR of a chip's channel after a reset (DMA-330 manual, channel control registers).
const RESET_CCR: u32 = 0x0080_0200;

/// The registers that instructions read and change: the offset of the next instruction in the program, the source and
/// destination addresses, the control word, and the two loop counters, the manual's SAR, DAR, CCR, LC0 and LC1. Beside
/// them the channel's bus, which no instruction changes.
#[derive(Clone, Copy)]
pub struct Registers {
    pub pc: u32,
    pub sar: u32,
    pub dar: u32,
    pub ccr: ControlWord,
    pub lc0: u8,
    pub lc1: u8,
    pub bus: Bus,
}

impl Registers {
    ghost use Rattle.dma_chan.specs.Exec.{reset_on, start_on};

    /// Returns registers on this bus that are all 0.
    pub fn start(bus: Bus) -> Registers
        ensures { result ≡ start_on bus }
    {
        Registers {
            pc: 0,
            sar: 0,
            dar: 0,
            ccr: ControlWord::zero(),
            lc0: 0,
            lc1: 0,
            bus,
        }
    }

    // Returns the registers of a channel on this bus after a reset.
    pub(crate) fn after_reset(bus: Bus) -> Registers
        ensures { result ≡ reset_on bus }
    {
        let start = Registers::start(bus);
        match bus {
            Bus::Ideal => start,
            Bus::Chip(_) => {
                let Ok(ccr) = ControlWord::from_bits(RESET_CCR) else {
                    unreachable!()
                };
                Registers { ccr, ..start }
            }
        }
    }
}

/// Executes DMAMOV, whose encoding has `len` bytes.
#[inline(always)]
pub fn set_register(reg: Reg, value: u32, len: u32, registers: &mut Registers) -> ChanTurn
    requires len { len ≡ length (spelling (Mov reg value)) }
    requires pc { registers.old.pc + len ≤ most_program_bytes }
    ensures exact { SetsKeeping (Mov reg value) registers.old result registers.new }
    ensures pc { registers.new.pc ≤ registers.old.pc + len }
{
    match reg {
        Reg::Sar => registers.sar = value,
        Reg::Dar => registers.dar = value,
        Reg::Ccr => {
            if !registers.bus.fits(value) {
                return ChanTurn::Fault(FaultKind::OperandInvalid);
            }
            let Ok(word) = ControlWord::from_bits(value) else {
                return ChanTurn::Fault(FaultKind::OperandInvalid);
            };
            registers.ccr = word;
        }
    }
    registers.pc += len;
    ChanTurn::Moved
}

/// Returns whether a channel drops the bytes in its buffer when a DMAMOV, DMAADDH or DMAADNH changes its registers.
#[inline(always)]
#[tactic(auto, unfolding(crate::specs::Bursts::burst_at))]
pub fn drops(old: &Registers, new: &Registers) -> bool
    ensures { result ≡ drops old.now.bus (destination_of old.now) (destination_of new.now) }
{
    old.bus
        .drops(old.dar, old.ccr.bits(), new.dar, new.ccr.bits())
}

/// Executes DMALP.
#[inline(always)]
pub fn begin_loop(counter: Counter, times: Times, registers: &mut Registers) -> ChanTurn
    requires pc { registers.old.pc + 2 ≤ most_program_bytes }
    ensures exact { SetsRegisters (Lp counter times) registers.old result registers.new }
    ensures pc { registers.new.pc ≤ registers.old.pc + 2 }
{
    let again = (times.number() - 1) as u8;
    match counter {
        Counter::Lc0 => registers.lc0 = again,
        Counter::Lc1 => registers.lc1 = again,
    }
    registers.pc += 2;
    ChanTurn::Moved
}

/// Returns the value of a loop counter.
pub fn counter_of(counter: Counter, registers: &Registers) -> u8
    ensures { result ≡ counter_of counter registers.now }
{
    match counter {
        Counter::Lc0 => registers.lc0,
        Counter::Lc1 => registers.lc1,
    }
}

// Returns the fault of DMALPEND: `InstrFetchErr` if it jumps to before the program's start, else `None`.
fn jump_fault(counter: Counter, back: u8, registers: &Registers) -> Option<FaultKind>
    ensures fault { FaultsAt (LpEnd counter back) registers.now result }
    ensures within { IsNone result
        → 0 < counter_of counter registers.now → back ≤ registers.now.pc }
{
    let count = counter_of(counter, registers);
    if count > 0 && registers.pc < u32::from(back) {
        return Some(FaultKind::InstrFetchErr);
    }
    None
}

/// Executes DMALPEND.
#[inline(always)]
#[tactic(auto, using(crate::proofs::TreeWalk::looped_again))]
pub fn end_loop(counter: Counter, back: u8, registers: &mut Registers) -> ChanTurn
    requires pc { registers.old.pc + 2 ≤ most_program_bytes }
    ensures exact { SetsRegisters (LpEnd counter back) registers.old result registers.new }
    ensures pc { registers.new.pc ≤ registers.old.pc + 2 }
{
    if let Some(kind) = jump_fault(counter, back, registers) {
        return ChanTurn::Fault(kind);
    }
    let count = counter_of(counter, registers);
    if count == 0 {
        registers.pc += 2;
        return ChanTurn::Moved;
    }
    match counter {
        Counter::Lc0 => registers.lc0 = count - 1,
        Counter::Lc1 => registers.lc1 = count - 1,
    }
    registers.pc -= u32::from(back);
    ChanTurn::Moved
}

// Returns the number that DMAADDH or DMAADNH adds.
fn addend(negative: bool, half: u16) -> u32
    ensures { result ≡ addend negative half }
{
    if negative {
        u32::from(half) + 0xffff_0000
    } else {
        u32::from(half)
    }
}

/// Executes DMAADDH or DMAADNH.
pub fn add_halfword(
    address: Address,
    half: u16,
    negative: bool,
    registers: &mut Registers,
) -> ChanTurn
    requires pc { registers.old.pc + 3 ≤ most_program_bytes }
    ensures exact { SetsKeeping (AddHalfword address half negative) registers.old result
        registers.new }
    ensures pc { registers.new.pc ≤ registers.old.pc + 3 }
{
    let number = addend(negative, half);
    match address {
        Address::Source => registers.sar = registers.sar.wrapping_add(number),
        Address::Destination => registers.dar = registers.dar.wrapping_add(number),
    }
    registers.pc += 3;
    ChanTurn::Moved
}

/// Executes the DMALPEND of a loop that DMALPFE begins.
pub fn loop_again(back: u8, registers: &mut Registers) -> ChanTurn
    ensures exact { (counter : Counter)
        → SetsRegisters (LoopAgain counter back) registers.old result registers.new }
    ensures pc { registers.new.pc ≤ registers.old.pc }
{
    if registers.pc < u32::from(back) {
        return ChanTurn::Fault(FaultKind::InstrFetchErr);
    }
    registers.pc -= u32::from(back);
    ChanTurn::Moved
}

// Executes DMASEV.
fn signal(event: Event, registers: &mut Registers, events: &mut Events) -> ChanTurn
    requires pc { registers.old.pc + 2 ≤ most_program_bytes }
    ensures exact { SetsFlags (Sev event) registers.old events.old result registers.new events.new }
    ensures pc { registers.new.pc ≤ registers.old.pc + 2 }
{
    events.set(event.number());
    registers.pc += 2;
    ChanTurn::Moved
}

// Executes DMAWFE.
fn wait(event: Event, invalid: bool, registers: &mut Registers, events: &mut Events) -> ChanTurn
    requires pc { registers.old.pc + 2 ≤ most_program_bytes }
    ensures exact { SetsFlags (Wfe event invalid) registers.old events.old result
        registers.new events.new }
    ensures pc { registers.new.pc ≤ registers.old.pc + 2 }
{
    let number = event.number();
    if !events.is_set(number) {
        return ChanTurn::Waiting(event);
    }
    events.clear(number);
    registers.pc += 2;
    ChanTurn::Moved
}

/// Executes an instruction whose only effect is to advance `pc`.
#[inline(always)]
pub fn go_on(registers: &mut Registers) -> ChanTurn
    requires { registers.old.pc + 1 ≤ most_program_bytes }
    ensures turn { result ≡ ChanTurn.Moved }
    ensures registers { registers.new ≡ record (registers.old) { pc = registers.old.pc + 1 } }
{
    registers.pc += 1;
    ChanTurn::Moved
}

// What executes instructions: the registers of a channel, and a buffer that holds bytes between loads and stores.
#[derive(Drop)]
pub(crate) struct Executor {
    pub(crate) registers: Registers,
    pub(crate) buffer: Fifo,
    // A load joins bytes here that memory doesn't have in one piece, and a store those that the buffer doesn't. The
    // contents have no meaning between steps.
    pub(crate) block: Vec<u8>,
}

impl Executor {
    // Drops the bytes in the buffer if a channel does after a DMAMOV, DMAADDH or DMAADNH that began at these registers.
    #[inline(always)]
    fn keep(&mut self, old: &Registers)
        ensures buffer { self.new.buffer
            ≡ kept old.now self.old.registers self.old.buffer }
        ensures block { self.new.block ≡ self.old.block }
        ensures registers { self.new.registers ≡ self.old.registers }
    {
        if !self.buffer.is_empty() && drops(old, &self.registers) {
            self.buffer.clear();
        }
    }

    // Executes the instruction `next`. Returns also how many bytes it stored.
    pub(crate) fn execute<M: Ram>(
        &mut self,
        next: Next,
        memory: &mut M,
        events: &mut Events,
        marks: &Marks,
    ) -> (ChanTurn, u32)
        requires block { length self.old.block.items ≡ buffer_size }
        requires pc { self.old.registers.pc + length (spelling next) ≤ most_program_bytes }
        requires ready { IsTrue (is_ready (Ok next) self.old.registers (M.paged memory.old)) }
        ensures exact { let before = (M.paged memory.old).image in
            let after = (M.paged memory.new).image in
            act (with_gaps (M.loan memory.old) marks.now) next
            (state self.old.registers self.old.buffer before events.old)
            ≡ (result.0, state self.new.registers self.new.buffer after events.new) }
        ensures stored { result.0 ≡ ChanTurn.Moved
            → result.1 ≡ stored_by (Ok next) self.old.registers }
        ensures limit { result.1 ≤ buffer_size }
        ensures pages { (M.paged memory.new).made ≡ (M.paged memory.old).made }
        ensures block { length self.new.block.items ≡ buffer_size }
        ensures pc { self.new.registers.pc ≤ self.old.registers.pc + length (spelling next) }
        ensures loan { M.loan memory.new ≡ M.loan memory.old }
    {
        match next.insn() {
            ChipInsn::Sev(event) => (signal(event, &mut self.registers, events), 0),
            ChipInsn::Wfe { event, invalid } => {
                (wait(event, invalid, &mut self.registers, events), 0)
            }
            ChipInsn::End => (ChanTurn::Ended, 0),
            _ => self.execute_other(next, memory, marks),
        }
    }

    // Executes the instruction `next`, which neither signals, waits nor ends. Returns also how many bytes it stored.
    #[inline(always)]
    pub(crate) fn execute_other<M: Ram>(
        &mut self,
        next: Next,
        memory: &mut M,
        marks: &Marks,
    ) -> (ChanTurn, u32)
        requires other { IsOther next }
        requires block { length self.old.block.items ≡ buffer_size }
        requires pc { self.old.registers.pc + length (spelling next) ≤ most_program_bytes }
        requires ready { IsTrue (is_ready (Ok next) self.old.registers (M.paged memory.old)) }
        ensures exact { Executes (with_gaps (M.loan memory.old) marks.now) next self.old
            (M.paged memory.old).image result.0 self.new (M.paged memory.new).image }
        ensures stored { result.0 ≡ ChanTurn.Moved
            → result.1 ≡ stored_by (Ok next) self.old.registers }
        ensures limit { result.1 ≤ buffer_size }
        ensures pages { (M.paged memory.new).made ≡ (M.paged memory.old).made }
        ensures block { length self.new.block.items ≡ buffer_size }
        ensures pc { self.new.registers.pc ≤ self.old.registers.pc + length (spelling next) }
        ensures loan { M.loan memory.new ≡ M.loan memory.old }
    {
        match next.insn() {
            ChipInsn::Mov(reg, value) => {
                let old = self.registers;
                let turn = set_register(reg, value, next.len(), &mut self.registers);
                self.keep(&old);
                (turn, 0)
            }
            ChipInsn::Ld => (load_burst(self, memory, marks), 0),
            ChipInsn::St => store_burst(self, memory, marks),
            ChipInsn::Rmb | ChipInsn::Wmb | ChipInsn::Nop => (go_on(&mut self.registers), 0),
            ChipInsn::Lp { counter, times } => {
                (begin_loop(counter, times, &mut self.registers), 0)
            }
            ChipInsn::LpEnd { counter, back } => {
                (end_loop(counter, back, &mut self.registers), 0)
            }
            ChipInsn::StoreZeros => zero_burst(self, memory, marks),
            ChipInsn::AddHalfword {
                address,
                half,
                negative,
            } => {
                let old = self.registers;
                let turn = add_halfword(address, half, negative, &mut self.registers);
                self.keep(&old);
                (turn, 0)
            }
            ChipInsn::LoopAgain { back, .. } => (loop_again(back, &mut self.registers), 0),
            ChipInsn::Sev(_) | ChipInsn::Wfe { .. } | ChipInsn::End => unreachable!(),
        }
    }
}
