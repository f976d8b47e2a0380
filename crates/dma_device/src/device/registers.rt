//! Reads and writes of the registers.

ghost use Rattle.std.specs.Prelude.{◌≡◌, ℕ, ◌+◌, ◌*◌, ◌-◌, ◌^◌, ◌≤◌, ◌<◌, length, slice_get};
ghost use Rattle.std.specs.List.{list_any};
ghost use Rattle.dma_insn.specs.ControlWord.{flag};
ghost use Rattle.dma_mem.specs.Limits.{most_channels};
ghost use Rattle.dma_device.specs.Device.{address_register, channel_register, cr0, cr3, crd, device_register, dsr, faulting_bits, id, read_at};
ghost use Rattle.dma_device.specs.Config.{most_events, most_lines};
ghost use Rattle.dma_device.specs.Offsets.{ftr};
ghost use Rattle.dma_device.specs.Thread.{is_faulting};

use crate::config::{Config, Revision};
use crate::device::Device;
use crate::offset;
use crate::thread::Thread;
use dma_chan::channel::Channel;

// Returns 1 for true and 0 for false.
fn flag(value: bool) -> u32
    ensures value { result ≡ flag value }
    ensures few { result ≤ 1 }
{
    if value { 1 } else { 0 }
}

// Returns whether a thread is faulting.
pub(super) fn any_faulting(threads: &[Thread]) -> bool
    ensures { result ≡ list_any is_faulting threads.now }
{
    for thread in threads {
        if thread.is_faulting() {
            return true;
        }
    }
    false
}

// Returns FSRC.
fn faulting_bits(threads: &[Thread]) -> u32
    requires { length threads.now ≤ most_channels }
    ensures { result ≡ faulting_bits threads.now }
{
    let mut bits = 0;
    let mut n = threads.len();
    while n > 0 {
        n -= 1;
        bits = flag(threads[n].is_faulting()) + 2 * bits;
    }
    bits
}

// Returns SAR, DAR, CCR, LC0 or LC1, by its offset from SAR.
fn address_register(channel: &Channel, at: u32) -> u32
    ensures { result ≡ address_register channel.now.registers at }
{
    match at {
        0x00 => channel.source_addr(),
        0x04 => channel.destination_addr(),
        0x08 => channel.control(),
        0x0C => u32::from(channel.loop_counters().0),
        0x10 => u32::from(channel.loop_counters().1),
        _ => 0,
    }
}

// Returns a register that each channel has.
fn channel_register(threads: &[Thread], at: u32) -> u32
    requires { ftr ≤ at }
    ensures { result ≡ channel_register threads.now at }
{
    if at < offset::CSR {
        match threads.get(((at - offset::FTR) / 4) as usize) {
            Some(thread) => thread.fault,
            None => 0,
        }
    } else if at < offset::SAR {
        match threads.get(((at - offset::CSR) / 8) as usize) {
            Some(thread) if at % 8 == 0 => thread.csr(),
            Some(thread) => thread.pc,
            None => 0,
        }
    } else {
        match threads.get(((at - offset::SAR) / 0x20) as usize) {
            Some(thread) => address_register(&thread.channel, at % 0x20),
            None => 0,
        }
    }
}

// Returns CR0.
fn cr0(config: Config) -> u32
    requires channels { config.channels ≤ most_channels }
    requires events { config.events ≤ most_events }
    ensures { result ≡ cr0 config }
{
    let channels = u32::from(config.channels).saturating_sub(1);
    let events = u32::from(config.events).saturating_sub(1);
    flag(config.nonsecure) * (1 << 2) + channels * (1 << 4) + events * (1 << 17)
}

// Returns CRD.
fn crd(config: Config) -> u32
    requires { config.lines ≤ most_lines }
    ensures { result ≡ crd config }
{
    let lines = u32::from(config.lines).saturating_sub(1);
    config.bus.code()
        + 7 * (1 << 4)
        + 15 * (1 << 8)
        + 7 * (1 << 12)
        + 15 * (1 << 16)
        + lines * (1 << 20)
}

// Returns periph_id or pcell_id, or 0 at another offset.
fn id(revision: Revision, at: u32) -> u32
    ensures { result ≡ id revision at }
{
    match at {
        0xFE0 => 0x30,
        0xFE4 => 0x13,
        0xFE8 => 4 + revision.code() * (1 << 4),
        0xFF0 => 0x0D,
        0xFF4 => 0xF0,
        0xFF8 => 0x05,
        0xFFC => 0xB1,
        _ => 0,
    }
}

impl Device {
    /// Returns the register at this offset, 32 bits wide, for a read by the guest. An offset that has no register reads
    /// as 0.
    pub fn read(&self, at: u32) -> u32
        ensures { result ≡ read_at self.now at }
    {
        if at % 4 != 0 {
            0
        } else if offset::FTR <= at && at < offset::DBGSTATUS {
            channel_register(&self.threads, at)
        } else {
            self.device_register(at)
        }
    }

    // Returns a register outside the channels'.
    fn device_register(&self, at: u32) -> u32
        ensures { result ≡ device_register self.now at }
    {
        match at {
            offset::DSR => 15 * flag(self.manager.is_faulting)
                + flag(self.config.nonsecure) * (1 << 9),
            offset::INTEN => self.inten,
            offset::INT_EVENT_RIS => self.events | self.interrupts,
            offset::INTMIS => self.irqs(),
            offset::FSRD => flag(self.manager.is_faulting),
            offset::FSRC => faulting_bits(&self.threads),
            offset::FTRD => self.manager.fault,
            offset::CR0 => cr0(self.config),
            offset::CR1 => 5 + 7 * (1 << 4),
            offset::CR3 => flag(self.config.nonsecure) * self.all_events(),
            offset::CRD => crd(self.config),
            _ => id(self.config.revision, at),
        }
    }
}
