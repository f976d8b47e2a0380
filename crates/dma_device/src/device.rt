//! The device: its registers, its manager and its channel threads.

ghost use Rattle.std.specs.Prelude.{◌≡◌, ◌^◌, ◌-◌, ◌≤◌, true, length, replicate, IfErr, IfOk, OnOk, if◌then◌else◌};
ghost use Rattle.dma_device.specs.Config.{is_valid};
ghost use Rattle.dma_device.specs.Device.{all_events, irq_abort, irqs, reset_device};
ghost use Rattle.dma_device.specs.Idle.{IsSoundDevice};
ghost use Rattle.dma_device.specs.Thread.{can_step, reset_thread};
ghost use Rattle.dma_device.specs.Turns.{visible_events};
ghost use Rattle.std.specs.List.{list_any};

use crate::config::{BusWidth, Config, NewFault};
use crate::device::registers::any_faulting;
use crate::thread::Thread;
use dma_mem::marks::Marks;
use dma_mem::no_memory::NoMemory;
use std::alloc::Global;
use std::marker::Model;

mod debug;
pub mod explain;
mod registers;
pub mod rows;
mod saving;
pub mod turns;

/// The manager, which is the thread that starts the channels.
#[derive(Clone, Copy)]
pub struct Manager {
    /// Whether it is faulting; else it is stopped.
    pub is_faulting: bool,
    /// FTRD: why it is, or was, faulting.
    pub fault: u32,
}

/// A DMA-330. Contracts see its configuration, its registers and its threads, and not what a channel keeps beside its
/// value.
#[derive(Drop)]
pub struct Device {
    config: Config,
    // The events and the interrupts that are set. INT_EVENT_RIS has both, and INTMIS the interrupts.
    events: u32,
    interrupts: u32,
    inten: u32,
    dbginst0: u32,
    dbginst1: u32,
    manager: Manager,
    threads: Vec<Thread>,
    // The bursts of its channels fail at no marks, only outside the regions and in those that are read-only.
    no_marks: Marks,
}

impl Model for Device {
    ghost use Rattle.dma_device.specs.Device.{DeviceValue};

    ghost Value = { DeviceValue };

    ghost use Rattle.dma_device.specs.inner.Fields.{IsDevice, device_value};

    ghost view = { device_value };

    ghost invariant = { IsDevice };
}

// Returns threads on this bus in their state after a reset.
fn new_threads(alloc: Global, bus: BusWidth, count: u8) -> Result<Vec<Thread>, NoMemory>
    ensures { IfOk result (λ threads. threads.items ≡ replicate count (reset_thread bus)) }
{
    let mut threads = Vec::new(alloc);
    for _n in 0..count {
        let thread = Thread::new(alloc, bus)?;
        threads.push(thread)?;
    }
    Ok(threads)
}

// Returns whether a thread runs and, by its status, doesn't wait for an event whose flag is clear.
fn any_can_step(threads: &[Thread], events: u32) -> bool
    ensures { result ≡ list_any (can_step events) threads.now }
{
    for thread in threads {
        if thread.can_step(events) {
            return true;
        }
    }
    false
}

// Puts threads into their state after a reset, on this bus.
fn reset_threads(threads: &mut [Thread], bus: BusWidth)
    ensures { threads.new ≡ replicate (length threads.old) (reset_thread bus) }
{
    for n in 0..threads.len() {
        threads[n].reset(bus);
    }
}

impl Device {
    /// Returns a device in its state after a reset. Only this call allocates memory: its channels have room for the
    /// longest programs.
    ///
    /// The error is `BadConfig` for a configuration that no device can have, else `NoMemory`.
    pub fn new(alloc: Global, config: Config) -> Result<Device, NewFault>
        ensures ok { IfOk result (λ device. device ≡ reset_device config) }
        ensures valid { OnOk result (is_valid config ≡ true) }
        ensures err { IfErr result (λ fault.
            fault ≡ (if is_valid config then NewFault.NoMemory else NewFault.BadConfig)) }
    {
        if !config.is_valid() {
            return Err(NewFault::BadConfig);
        }
        match Device::after_reset(alloc, config) {
            Ok(device) => Ok(device),
            Err(_) => Err(NewFault::NoMemory),
        }
    }

    // Returns a device in its state after a reset.
    fn after_reset(alloc: Global, config: Config) -> Result<Device, NoMemory>
        requires { is_valid config ≡ true }
        ensures { IfOk result (λ device. device ≡ reset_device config) }
    {
        let threads = new_threads(alloc, config.bus, config.channels)?;
        Ok(Device {
            config,
            events: 0,
            interrupts: 0,
            inten: 0,
            dbginst0: 0,
            dbginst1: 0,
            manager: Manager {
                is_faulting: false,
                fault: 0,
            },
            threads,
            no_marks: Marks::new(alloc),
        })
    }

    /// Puts the device into its state after a reset.
    pub fn reset(&mut self)
        ensures { self.new ≡ reset_device self.old.config }
    {
        reset_threads(&mut self.threads, self.config.bus);
        self.events = 0;
        self.interrupts = 0;
        self.inten = 0;
        self.dbginst0 = 0;
        self.dbginst1 = 0;
        self.manager = Manager {
            is_faulting: false,
            fault: 0,
        };
    }

    /// Returns the lines irq[31:0]. irq[n] is high until the guest clears interrupt n.
    pub fn irqs(&self) -> u32
        ensures { result ≡ irqs self.now }
    {
        self.interrupts
    }

    /// Returns the line irq_abort, which is high until the guest kills each faulting thread.
    pub fn irq_abort(&self) -> bool
        ensures { result ≡ irq_abort self.now }
    {
        self.manager.is_faulting || any_faulting(&self.threads)
    }

    /// Returns whether any channel runs and, by its status, doesn't wait for an event whose flag is clear. If not,
    /// nothing happens until the guest's next write, a reset or a restore (`laws::nothing_happens`).
    pub fn can_step(&self) -> bool
        ensures value { result ≡ list_any (can_step (visible_events self.now)) self.now.threads }
        // So the law `nothing_happens` holds of it.
        ensures sound { IsSoundDevice self.now }
    {
        any_can_step(&self.threads, self.visible_events())
    }

    // Returns a bit for each event that the device has.
    fn all_events(&self) -> u32
        ensures { result ≡ all_events self.now }
    {
        let count = self.config.events;
        ((1u64 << count) - 1) as u32
    }
}
