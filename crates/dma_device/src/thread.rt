//! The threads of a device: the manager and the channels.

ghost use Rattle.std.specs.Prelude.{◌≡◌, ◌↔◌, ◌<◌, ◌^◌, IsSome, IsTrue, Ok, Some, IfOk};
ghost use Rattle.dma_mem.specs.Regions.{pieces_of};
ghost use Rattle.dma_chan.specs.Channel.{ahead_of};
ghost use Rattle.dma_device.specs.Device.{csr, program_at};
ghost use Rattle.dma_device.specs.declared.thread.Status.{Status};
ghost use Rattle.dma_device.specs.Thread.{IsSound, answer, answered, can_step, is_at_next, is_before_wait, is_faulting, is_signalled, is_stopped, is_store, killed, failed, has_fault, has_place, has_status, moved, reset_thread, runs, shown, started, status_bits, waited, waits_for};

use crate::config::BusWidth;
use dma_chan::bus::Bus;
use dma_chan::channel::Channel;
use dma_chan::turn::ChanTurn;
use dma_insn::chip::ChipInsn;
use dma_insn::insn::Event;
use dma_mem::no_memory::NoMemory;
use dma_mem::regions::Region;
use std::alloc::Global;

// Faults that the device itself finds, by their bits in FTRD and FTR (DMA-330 manual, fault type registers). For those
// that a step returns see `FaultKind::bit`.

/// The debug instruction is none of those that the manager, or a channel, executes from the debug registers.
pub const UNDEF_INSTR: u32 = 1 << 0;

/// The instruction has an operand that the device doesn't accept, such as an event that it doesn't have.
pub const OPERAND_INVALID: u32 = 1 << 1;

/// A non-secure manager was to start a secure channel by DMAGO.
pub const DMAGO_ERR: u32 = 1 << 4;

/// The instruction came from the debug registers.
pub const DBG_INSTR: u32 = 1 << 30;

/// The program has executed as many instructions as a channel counts, 2^32 - 1 (profile).
pub const LOCKUP_ERR: u32 = 1 << 31;

/// The status of a channel thread.
#[derive(Clone, Copy, PartialEq, Eq)]
pub enum Status {
    Stopped,
    Executing,
    /// It waits for this event.
    WaitingForEvent(Event),
    Faulting,
}

/// A channel thread.
#[derive(Drop)]
pub struct Thread {
    /// Its program, registers and buffer.
    pub channel: Channel,
    pub status: Status,
    /// FTR: why it is, or was, faulting.
    pub fault: u32,
    /// Whether it is in the non-secure state.
    pub nonsecure: bool,
    /// The address at which its program begins.
    pub base: u32,
    /// CPC: the address of its next instruction.
    pub pc: u32,
}

// Returns whether an instruction is a DMAWFE of this event.
fn waits_for(insn: ChipInsn, event: Event) -> bool
    ensures { result ≡ waits_for event (Ok insn) }
{
    match insn {
        ChipInsn::Wfe { event: next, .. } => next.number() == event.number(),
        _ => false,
    }
}

// Returns whether an instruction is a store.
fn is_store(insn: ChipInsn) -> bool
    ensures { result ≡ is_store (Ok insn) }
{
    matches!(insn, ChipInsn::St | ChipInsn::StoreZeros)
}

impl Status {
    /// Returns bits 8:0 of CSR.
    pub fn bits(self) -> u32
        ensures bits { result ≡ status_bits self }
        ensures range { result < 2 ^ 9 }
    {
        match self {
            Status::Stopped => 0,
            Status::Executing => 1,
            Status::WaitingForEvent(event) => 4 + u32::from(event.number()) * 16,
            Status::Faulting => 15,
        }
    }

    // Returns the status of bits 8:0 of CSR, or `None` if no status has them.
    pub(crate) fn from_bits(bits: u32) -> Option<Status>
        requires { bits < 2 ^ 9 }
        ensures { (s : Status) → bits ≡ status_bits s → result ≡ Some s }
    {
        match bits % 16 {
            0 => Some(Status::Stopped),
            1 => Some(Status::Executing),
            4 => Some(Status::WaitingForEvent(Event::of_number((bits / 16) as u8))),
            15 => Some(Status::Faulting),
            _ => None,
        }
    }

    // Returns whether the status is no wait, or one for an event whose flag is set.
    fn is_signalled(self, events: u32) -> bool
        ensures { result ≡ is_signalled events self }
    {
        match self {
            Status::WaitingForEvent(event) => (events >> event.number()) % 2 == 1,
            _ => true,
        }
    }
}

impl Thread {
    /// Returns a thread on this bus in its state after a reset.
    pub fn new(alloc: Global, bus: BusWidth) -> Result<Thread, NoMemory>
        ensures { IfOk result (λ thread. thread ≡ reset_thread bus) }
    {
        let mut channel = Channel::new(alloc)?;
        channel.reset(Bus::Chip(bus));
        Ok(Thread {
            channel,
            status: Status::Stopped,
            fault: 0,
            nonsecure: false,
            base: 0,
            pc: 0,
        })
    }

    /// Puts the thread into its state after a reset, on this bus.
    pub fn reset(&mut self, bus: BusWidth)
        ensures { self.new ≡ reset_thread bus }
    {
        self.channel.reset(Bus::Chip(bus));
        self.status = Status::Stopped;
        self.fault = 0;
        self.nonsecure = false;
        self.base = 0;
        self.pc = 0;
    }

    /// Returns whether the thread is faulting.
    pub fn is_faulting(&self) -> bool
        ensures { result ≡ is_faulting self.now }
    {
        matches!(self.status, Status::Faulting)
    }

    /// Returns whether the thread is stopped.
    pub fn is_stopped(&self) -> bool
        ensures { result ≡ is_stopped self.now }
    {
        matches!(self.status, Status::Stopped)
    }

    /// Returns CSR.
    pub fn csr(&self) -> u32
        ensures { result ≡ csr self.now }
    {
        let nonsecure = if self.nonsecure { 1 << 21 } else { 0 };
        self.status.bits() + nonsecure
    }

    // Returns whether the thread's status, CPC, FTR and program go together, in a device with this number of events.
    pub(crate) fn is_sound(&self, events: u8) -> bool
        ensures { IsTrue result ↔ IsSound events self.now }
    {
        self.has_status(events)
            && self.has_place()
            && self.has_fault()
            && self.channel.left().is_none()
    }

    // Returns whether the thread's status goes with its program, in a device with this number of events.
    fn has_status(&self, events: u8) -> bool
        ensures { result ≡ has_status events self.now self.now.status }
    {
        let is_loaded = self.channel.is_loaded();
        match self.status {
            Status::Stopped => !is_loaded,
            Status::Executing => is_loaded,
            Status::WaitingForEvent(event) => {
                is_loaded && event.number() < events && self.is_before_wait(event)
            }
            Status::Faulting => true,
        }
    }

    // Returns whether CPC is the address of the channel's next instruction, or of a DMASEV that has failed.
    fn has_place(&self) -> bool
        ensures { result ≡ has_place self.now }
    {
        let next = self.base.wrapping_add(self.channel.pc());
        self.pc == next || self.pc.wrapping_add(2) == next && self.fault != 0
    }

    // Returns whether FTR goes with the thread's status.
    fn has_fault(&self) -> bool
        ensures { result ≡ has_fault self.now.status self.now.fault }
    {
        match self.status {
            Status::Stopped => true,
            Status::Executing | Status::WaitingForEvent(_) => self.fault == 0,
            Status::Faulting => self.fault != 0,
        }
    }

    // Returns whether the next instruction is a DMAWFE of this event, CPC is its address, and the program may execute
    // it.
    fn is_before_wait(&self, event: Event) -> bool
        requires { IsSome self.now.channel.program }
        ensures { result ≡ is_before_wait event self.now }
    {
        match self.channel.ahead_on_bus() {
            Ok(next) => {
                waits_for(next, event)
                    && self.channel.taken() < u32::MAX
                    && self.pc == self.base.wrapping_add(self.channel.pc())
            }
            Err(_) => false,
        }
    }

    // Returns whether the next instruction is a store.
    pub(crate) fn is_before_store(&self) -> bool
        requires { IsSome self.now.channel.program }
        ensures { result ≡ is_store (ahead_of self.now.channel) }
    {
        match self.channel.ahead_on_bus() {
            Ok(next) => is_store(next),
            Err(_) => false,
        }
    }

    // Returns whether CPC is the address of the channel's next instruction. Otherwise the instruction before it, a
    // DMASEV, has failed.
    fn is_at_next(&self) -> bool
        ensures { result ≡ is_at_next self.now }
    {
        self.pc == self.base.wrapping_add(self.channel.pc())
    }

    /// Returns the offset in the program of the next instruction, or of the one that failed.
    pub fn shown_pc(&self) -> u32
        ensures { result ≡ (shown self.now).registers.pc }
    {
        let pc = self.channel.pc();
        if self.is_at_next() {
            pc
        } else {
            pc.saturating_sub(2)
        }
    }

    /// Returns how many instructions the program has executed. One that failed isn't counted.
    pub fn shown_taken(&self) -> u32
        ensures { result ≡ (shown self.now).taken }
    {
        let taken = self.channel.taken();
        if self.is_at_next() {
            taken
        } else {
            taken.saturating_sub(1)
        }
    }

    /// Returns whether the thread has a program and isn't faulting.
    pub fn runs(&self) -> bool
        ensures { result ≡ runs self.now }
    {
        self.channel.is_loaded() && !self.is_faulting()
    }

    /// Returns whether the thread runs and, by its status, doesn't wait for an event whose flag is clear.
    pub fn can_step(&self, events: u32) -> bool
        ensures { result ≡ can_step events self.now }
    {
        self.runs() && self.status.is_signalled(events)
    }

    /// Makes the thread faulting.
    pub fn fail(&mut self, why: u32)
        ensures { self.new ≡ failed why self.old }
    {
        self.status = Status::Faulting;
        self.fault = why;
    }

    /// Stops the thread, as DMAKILL does.
    pub fn kill(&mut self)
        ensures { self.new ≡ killed self.old }
    {
        self.channel.unload();
        self.status = Status::Stopped;
    }

    /// Starts the thread with the program that begins at address `base` of these regions. The registers keep their
    /// values.
    pub fn start(&mut self, nonsecure: bool, base: u32, regions: &[Region<'_>])
        ensures { let program = program_at (pieces_of regions.now) base in
            self.new ≡ started nonsecure base program self.old }
    {
        let registers = self.channel.registers();
        self.channel.load_from(regions, base, registers);
        self.status = Status::Executing;
        self.fault = 0;
        self.nonsecure = nonsecure;
        self.base = base;
        self.pc = base;
    }

    /// Sets what the thread shows after a call of its channel with this last answer, which set the flag of `signal`, if
    /// any. The device has `events` events.
    pub fn answer(&mut self, events: u8, last: Option<ChanTurn>, signal: Option<Event>)
        ensures { self.new ≡ answered events self.old last signal }
    {
        self.pc = self.base.wrapping_add(self.channel.pc());
        match last {
            None => self.fail(LOCKUP_ERR),
            Some(turn) => self.answer_turn(events, turn, signal),
        }
    }

    // Sets what the thread shows after a step with this answer.
    fn answer_turn(&mut self, events: u8, turn: ChanTurn, signal: Option<Event>)
        ensures { self.new ≡ answer events self.old (Some turn) signal }
    {
        match turn {
            ChanTurn::Moved => self.go_on(events, signal),
            ChanTurn::Waiting(event) => self.wait(events, event),
            ChanTurn::Ended => self.status = Status::Stopped,
            ChanTurn::Fault(kind) => self.fail(1 << kind.bit()),
        }
    }

    // Sets the status after a step that moved and that set the flag of `signal`, if any.
    fn go_on(&mut self, events: u8, signal: Option<Event>)
        ensures { self.new ≡ moved events self.old signal }
    {
        self.status = Status::Executing;
        if let Some(event) = signal {
            if event.number() >= events {
                self.pc = self.pc.wrapping_add(u32::MAX - 1);
                self.fail(OPERAND_INVALID);
            }
        }
    }

    // Sets the status at a DMAWFE of this event.
    fn wait(&mut self, events: u8, event: Event)
        ensures { self.new ≡ waited events self.old event }
    {
        if event.number() < events {
            self.status = Status::WaitingForEvent(event);
        } else {
            self.fail(OPERAND_INVALID);
        }
    }
}
