//! Devices that C keeps: the registers of a DMA-330 over memory that C lends for the duration of a call. The caller has
//! the same duties as for a channel.

ghost use Rattle.std.specs.Prelude.{◌≡◌, List, None};
ghost use Rattle.dma_device.specs.Snapshot.{saved_device};
ghost use Rattle.dma_mem.specs.declared.regions.Region.{Region};
ghost use Rattle.dma_ffi.specs.Calls.{ReadsOpen, WritesSave, WritesValue};
ghost use Rattle.dma_ffi.specs.DeviceSessions.{Called, ask_look, ask_read, ask_reset, ask_restore, ask_turn, ask_write};
ghost use Rattle.dma_ffi.specs.Devices.{FitsSave, Opens, WritesRegisters, any_can_step, device_report, lines_of, needs_regions, restore_code};

use crate::channel_calls::{ChannelRegisters, registers_of};
use crate::codes::{
    ALREADY_OPEN, BAD_CONFIG, BAD_REGIONS, BAD_SAVE, BUFFER_TOO_SMALL, NO_CHANNEL, NO_MEMORY,
    NOT_OPEN, OK, OTHER_DEVICE, are_usable, code_of_device, found,
};
use crate::device_config::{DeviceConfig, config_of};
use crate::kept_device::KeptDevice;
use dma_device::device::Device;
use dma_device::device::turns::Turn;
use dma_device::offset::DBGCMD;
use dma_device::save::RestoreFault;
use dma_mem::regions::Region;
use dma_mem::segment::Segment;
use std::alloc::Global;

/// What a turn of a device's channel did.
#[repr(C)]
#[derive(Clone, Copy)]
pub struct DeviceTurn {
    /// The range that it wrote; its length is 0 if it wrote nothing. Each byte in it was written, and no other byte of
    /// the regions was.
    pub written: Segment,
    /// How many steps it took, the last one included, whatever it did.
    pub taken: u64,
    /// 1 if a line of irq[31:0], or irq_abort, has changed, else 0.
    pub lines_changed: u32,
    /// 1 if any channel runs and, by its status, doesn't wait for an event whose flag is clear, else 0.
    pub can_step: u32,
}

/// Opens a device in its state after a reset. Fails if it is open already, if no device can have the configuration, or
/// if out of memory.
#[unsafe(no_mangle)]
pub extern "C" fn dma330_device_open(
    alloc: Global,
    kept: &mut KeptDevice,
    config: &DeviceConfig,
) -> i32
    ensures { Opens config.now kept.old.device.value result kept.new.device.value }
{
    let kept = kept.as_kept();
    if kept.is_open() {
        return ALREADY_OPEN;
    }
    let Some(config) = config_of(config) else {
        return BAD_CONFIG;
    };
    let device = match Device::new(alloc, config) {
        Ok(device) => device,
        Err(fault) => return code_of_device(fault),
    };
    match kept.open(alloc, device) {
        Ok(()) => OK,
        Err(_) => NO_MEMORY,
    }
}

/// Closes a device and frees its memory, if it is open.
#[unsafe(no_mangle)]
pub extern "C" fn dma330_device_close(alloc: Global, kept: &mut KeptDevice)
    ensures { kept.new.device.value ≡ None }
{
    kept.as_kept().close(alloc);
}

/// Puts the device into its state after a reset.
#[unsafe(no_mangle)]
pub extern "C" fn dma330_device_reset(kept: &mut KeptDevice) -> i32
    ensures { (lent : List Region) → Called ask_reset result kept.old.device.value lent
        kept.new.device.value lent }
{
    let Some(device) = kept.get_mut() else {
        return NOT_OPEN;
    };
    device.reset();
    OK
}

// ---- the guest's accesses

/// Reads the register at this offset for the guest. An offset that has no register reads as 0.
#[unsafe(no_mangle)]
pub extern "C" fn dma330_device_read(kept: &mut KeptDevice, offset: u32, value: &mut u32) -> i32
    ensures { (lent : List Region) → Called (ask_read offset value.old value.new) result
        kept.old.device.value lent kept.new.device.value lent }
{
    let Some(device) = kept.get_mut() else {
        return NOT_OPEN;
    };
    *value = device.read(offset);
    OK
}

// Returns whether a write to this offset may read the regions: only DBGCMD starts a program.
fn needs_regions(offset: u32) -> bool
    ensures { result ≡ needs_regions offset }
{
    offset == DBGCMD
}

/// Writes the register at this offset for the guest. An offset that has no register ignores writes. A DMAGO reads its
/// program from the regions, which a write to DBGCMD tests. Fails if they aren't usable then.
#[unsafe(no_mangle)]
pub extern "C" fn dma330_device_write(
    kept: &mut KeptDevice,
    offset: u32,
    value: u32,
    regions: &[Region<'_>],
) -> i32
    ensures { Called (ask_write offset value) result kept.old.device.value regions.now
        kept.new.device.value regions.now }
{
    let Some(device) = kept.get_mut() else {
        return NOT_OPEN;
    };
    if needs_regions(offset) && !are_usable(regions) {
        return BAD_REGIONS;
    }
    device.write(offset, value, regions);
    OK
}

// ---- turns and lines

/// Returns the report of a turn that left the device like this.
pub(crate) fn device_report(turn: Turn, device: &Device) -> DeviceTurn
    ensures { result ≡ device_report turn device.now }
{
    DeviceTurn {
        written: turn.written,
        taken: turn.taken,
        lines_changed: u32::from(turn.lines_changed),
        can_step: u32::from(device.can_step()),
    }
}

/// Takes a turn of a channel over the regions, at most `most` steps, and writes its report. A channel that the device
/// doesn't have, or that is stopped or faulting, does nothing. Fails if the regions aren't usable.
#[unsafe(no_mangle)]
pub extern "C" fn dma330_device_step(
    kept: &mut KeptDevice,
    channel: u8,
    most: u32,
    regions: &mut [Region<'_>],
    turn: &mut DeviceTurn,
) -> i32
    ensures { Called (ask_turn channel most turn.old turn.new) result kept.old.device.value
        regions.old kept.new.device.value regions.new }
{
    let Some(device) = kept.get_mut() else {
        return NOT_OPEN;
    };
    if !are_usable(regions) {
        return BAD_REGIONS;
    }
    let taken = device.step(channel, most, regions);
    *turn = device_report(taken, device);
    OK
}

/// Writes the registers and counts of a channel, after an instruction that failed those from before it. Fails if the
/// device doesn't have the channel.
#[unsafe(no_mangle)]
pub extern "C" fn dma330_device_registers(
    kept: &mut KeptDevice,
    channel: u8,
    registers: &mut ChannelRegisters,
) -> i32
    ensures answer { ReadsOpen (WritesRegisters channel) kept.old.device.value result registers.old registers.new
        kept.new.device.value }
    ensures look { (lent : List Region) → Called ask_look result kept.old.device.value lent
        kept.new.device.value lent }
{
    let Some(device) = kept.get_mut() else {
        return NOT_OPEN;
    };
    let Some(thread) = device.thread(channel) else {
        return NO_CHANNEL;
    };
    *registers = ChannelRegisters {
        pc: thread.shown_pc(),
        taken: thread.shown_taken(),
        ..registers_of(&thread.channel)
    };
    OK
}

/// Writes the lines irq[31:0], and the line irq_abort: 1 if it is high, else 0.
#[unsafe(no_mangle)]
pub extern "C" fn dma330_device_lines(
    kept: &mut KeptDevice,
    irqs: &mut u32,
    irq_abort: &mut u32,
) -> i32
    ensures answer { WritesValue lines_of kept.old.device.value result (irqs.old, irq_abort.old)
        (irqs.new, irq_abort.new) kept.new.device.value }
    ensures look { (lent : List Region) → Called ask_look result kept.old.device.value lent
        kept.new.device.value lent }
{
    let Some(device) = kept.get_mut() else {
        return NOT_OPEN;
    };
    *irqs = device.irqs();
    *irq_abort = u32::from(device.irq_abort());
    OK
}

/// Writes 1 if any channel runs and, by its status, doesn't wait for an event whose flag is clear, else 0.
#[unsafe(no_mangle)]
pub extern "C" fn dma330_device_can_step(kept: &mut KeptDevice, can_step: &mut u32) -> i32
    ensures answer { WritesValue any_can_step kept.old.device.value result can_step.old can_step.new
        kept.new.device.value }
    ensures look { (lent : List Region) → Called ask_look result kept.old.device.value lent
        kept.new.device.value lent }
{
    let Some(device) = kept.get_mut() else {
        return NOT_OPEN;
    };
    *can_step = u32::from(device.can_step());
    OK
}

// ---- saves

/// Writes the device as plain bytes to `out`, and their number to `len`. Fails if `out` is too small.
#[unsafe(no_mangle)]
pub extern "C" fn dma330_device_save(kept: &mut KeptDevice, out: &mut [u8], len: &mut usize) -> i32
    ensures answer { WritesSave saved_device FitsSave kept.old.device.value result out.old out.new
        len.old len.new kept.new.device.value }
    ensures look { (lent : List Region) → Called ask_look result kept.old.device.value lent
        kept.new.device.value lent }
{
    let Some(device) = kept.get_mut() else {
        return NOT_OPEN;
    };
    found(device.save(out), len, BUFFER_TOO_SMALL)
}

// Returns the code of the answer to a restore.
fn code_of_restore(answer: Result<(), RestoreFault>) -> i32
    ensures { result ≡ restore_code answer }
{
    match answer {
        Ok(()) => OK,
        Err(RestoreFault::OtherDevice) => OTHER_DEVICE,
        Err(RestoreFault::BadSave) => BAD_SAVE,
    }
}

/// Restores the device from a save. Fails if the save is of a device of another version or configuration. Fails too if
/// the bytes are the save of no device, and then the device is in its state after a reset.
#[unsafe(no_mangle)]
pub extern "C" fn dma330_device_restore(kept: &mut KeptDevice, save: &[u8]) -> i32
    ensures { (lent : List Region) → Called (ask_restore save.now) result kept.old.device.value lent
        kept.new.device.value lent }
{
    let Some(device) = kept.get_mut() else {
        return NOT_OPEN;
    };
    code_of_restore(device.restore(save))
}
