//! Writes of the registers, and the debug instruction.

ghost use Rattle.std.specs.Prelude.{◌≡◌, ◌^◌, ◌<◌, Some, true, length, slice_get, if◌then◌else◌};
ghost use Rattle.dma_mem.specs.Regions.{pieces_of};
ghost use Rattle.dma_insn.specs.ControlWord.{field};
ghost use Rattle.dma_device.specs.Device.{by_manager, by_thread, cleared_by, debugged, go, gone, has_ftrd, is_event, is_interrupt, manager_failed, program_at, signalled, with_thread, written};
ghost use Rattle.dma_device.specs.Thread.{failed, killed, started};
ghost use Rattle.dma_device.specs.declared.thread.Thread.{Thread};

use crate::device::Device;
use crate::offset;
use crate::thread::{DBG_INSTR, DMAGO_ERR, OPERAND_INVALID, UNDEF_INSTR};
use dma_mem::regions::Region;

// The first bytes of the instructions that the debug registers give (DMA-330 manual, instruction set).
const DMAKILL: u32 = 0x01;

const DMASEV: u32 = 0x34;

const DMAGO: u32 = 0xA0;

const DMAGO_NONSECURE: u32 = 0xA2;

impl Device {
    /// Writes the register at this offset for the guest. An offset that has no register ignores writes. A DMAGO reads
    /// its program from the regions.
    #[tactic(auto, using(crate::proofs::Sound::and_known, crate::proofs::Sound::with_events))]
    pub fn write(&mut self, at: u32, value: u32, regions: &[Region<'_>])
        ensures { self.new ≡ written (pieces_of regions.now) at value self.old }
    {
        match at {
            offset::INTEN => self.inten = value & self.all_events(),
            offset::INTCLR => self.clear(value),
            offset::DBGCMD => {
                if value % 4 == 0 {
                    self.debug(regions);
                }
            }
            offset::DBGINST0 => self.dbginst0 = value,
            offset::DBGINST1 => self.dbginst1 = value,
            _ => {}
        }
    }

    // Clears the events and the interrupts that this value has and INTEN makes interrupts.
    #[tactic(auto, using(crate::proofs::Sound::and_fewer, crate::proofs::Sound::with_events))]
    fn clear(&mut self, value: u32)
        ensures { self.new ≡ cleared_by value self.old }
    {
        let kept = !(value & self.inten);
        self.events &= kept;
        self.interrupts &= kept;
    }

    // Executes the debug instruction.
    fn debug(&mut self, regions: &[Region<'_>])
        ensures { self.new ≡ debugged (pieces_of regions.now) self.old }
    {
        let word = self.dbginst0;
        let opcode = (word >> 16) % 256;
        let byte = (word >> 24) % 256;
        if word % 2 == 1 {
            self.debug_thread(((word >> 8) % 8) as usize, opcode, byte);
        } else {
            self.debug_manager(regions, opcode, byte);
        }
    }

    // Executes an instruction by the manager.
    fn debug_manager(&mut self, regions: &[Region<'_>], opcode: u32, byte: u32)
        requires { byte < 2 ^ 8 }
        ensures { self.new ≡ by_manager (pieces_of regions.now) opcode byte self.old }
    {
        if opcode == DMAKILL {
            self.manager.is_faulting = false;
        } else if self.manager.is_faulting {
            return;
        } else if opcode == DMASEV {
            if self.is_event(byte) {
                self.signal(byte / 8);
            } else {
                self.fail_manager(OPERAND_INVALID);
            }
        } else if opcode == DMAGO || opcode == DMAGO_NONSECURE {
            self.go(regions, opcode == DMAGO_NONSECURE, byte as usize);
        } else {
            self.fail_manager(UNDEF_INSTR);
        }
    }

    // Makes the manager faulting.
    fn fail_manager(&mut self, why: u32)
        requires few { why < 2 ^ 30 }
        requires fault { has_ftrd (manager_failed why self.old).manager ≡ true }
        ensures { self.new ≡ manager_failed why self.old }
    {
        self.manager.is_faulting = true;
        self.manager.fault = why + DBG_INSTR;
    }

    // Returns whether this byte is the event of a DMASEV that the device has.
    fn is_event(&self, byte: u32) -> bool
        ensures { result ≡ is_event self.now byte }
    {
        byte % 8 == 0 && byte / 8 < u32::from(self.config.events)
    }

    // Executes a DMASEV of an event.
    #[tactic(auto, using(crate::proofs::Sound::one_event, crate::proofs::Sound::with_events, std::proofs::lemmas::Nat::or_lt))]
    fn signal(&mut self, event: u32)
        requires { event < self.old.config.events }
        ensures { self.new ≡ signalled event self.old }
    {
        if self.is_interrupt(event) {
            self.interrupts |= 1 << event;
        } else {
            self.events |= 1 << event;
        }
    }

    // Returns whether INTEN makes this event an interrupt.
    pub(super) fn is_interrupt(&self, event: u32) -> bool
        requires { event < 32 }
        ensures { result ≡ is_interrupt self.now event }
    {
        (self.inten >> event) % 2 == 1
    }

    // Executes a DMAGO for channel `n`.
    #[tactic(auto, using(crate::proofs::Found::found_at, crate::proofs::Found::none_at))]
    fn go(&mut self, regions: &[Region<'_>], nonsecure: bool, n: usize)
        ensures { self.new
            ≡ go (pieces_of regions.now) nonsecure n (slice_get self.old.threads n) self.old }
    {
        let Some(thread) = self.threads.get(n) else {
            self.fail_manager(OPERAND_INVALID);
            return;
        };
        let is_stopped = thread.is_stopped();
        if self.config.nonsecure && !nonsecure {
            self.fail_manager(DMAGO_ERR);
        } else if is_stopped {
            self.start(regions, nonsecure, n);
        }
    }

    // Starts channel `n`.
    fn start(&mut self, regions: &[Region<'_>], nonsecure: bool, n: usize)
        requires { n < length self.old.threads }
        ensures { (t : Thread) → slice_get self.old.threads n ≡ Some t
            → let base = self.old.dbginst1 in
            let program = program_at (pieces_of regions.now) base in
            self.new ≡ with_thread n (started nonsecure base program t) self.old }
    {
        let base = self.dbginst1;
        self.threads[n].start(nonsecure, base, regions);
    }

    // Executes an instruction by channel thread `n`.
    #[tactic(auto, using(crate::proofs::Found::found_at, crate::proofs::Found::none_at, std::proofs::lemmas::List::get_or_default))]
    fn debug_thread(&mut self, n: usize, opcode: u32, byte: u32)
        requires { byte < 2 ^ 8 }
        ensures { self.new ≡ by_thread n (slice_get self.old.threads n) opcode byte self.old }
    {
        let Some(thread) = self.threads.get(n) else {
            return;
        };
        let is_faulting = thread.is_faulting();
        if opcode == DMAKILL {
            self.threads[n].kill();
        } else if is_faulting {
            return;
        } else if opcode != DMASEV {
            self.threads[n].fail(UNDEF_INSTR + DBG_INSTR);
        } else if self.is_event(byte) {
            self.signal(byte / 8);
        } else {
            self.threads[n].fail(OPERAND_INVALID + DBG_INSTR);
        }
    }
}
