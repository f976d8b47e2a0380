//! Channels that C keeps. Each is stepped over memory and event flags that C lends for the duration of a call.
//!
//! The caller has the same duties as for a controller, and they include the bytes of the regions: their pointers are
//! not null, and they overlap neither each other nor anything else that the call gets.

ghost use Rattle.std.specs.Prelude.{◌≡◌, None};
ghost use Rattle.dma_mem.specs.Places.{copying, filling};
ghost use Rattle.dma_ffi.specs.Calls.{Becomes, OnOpen, WritesSave, WritesValue};
ghost use Rattle.dma_ffi.specs.Channels.{FitsSave, LoadsBytes, LoadsFrom, LoadsTransfer, MarksRange, OnChannel, Opens, RestoresChannel, registers_of, save_of, stopped, unmarked};
ghost use Rattle.dma_ffi.specs.Codes.{event_of, mark_kind};
ghost use Rattle.dma_ffi.specs.inner.Loads.{LoadsMade};

use crate::codes::{
    ALREADY_OPEN, BAD_ACCESS, BAD_RANGE, BAD_REGIONS, BAD_SAVE, BUFFER_TOO_SMALL, NO_MEMORY,
    NOT_OPEN, OK, PROGRAM_TOO_LONG, are_usable, code_of_transfer, event_of, found, kind_of,
};
use crate::kept_channel::KeptChannel;
use crate::marked_channel::MarkedChannel;
use dma_chan::bus::Bus;
use dma_chan::channel::Channel;
use dma_chan::compile::compile;
use dma_chan::exec::Registers;
use dma_chan::program::MAX_PROGRAM_BYTES;
use dma_mem::marks::Marks;
use dma_mem::regions::Region;
use dma_mem::segment::Segment;
use dma_mem::transfer::{Transfer, TransferFault};
use std::alloc::Global;

/// A channel's registers and counts.
#[repr(C)]
#[derive(Clone, Copy)]
pub struct ChannelRegisters {
    /// The offset of the next instruction in the program.
    pub pc: u32,
    /// The manual's SAR, DAR, CCR, LC0 and LC1.
    pub sar: u32,
    pub dar: u32,
    pub ccr: u32,
    pub lc0: u8,
    pub lc1: u8,
    /// 1 if the channel has a program, else 0.
    pub is_loaded: u8,
    /// The number of instructions executed since the load.
    pub taken: u32,
    /// The number of bytes stored since the load.
    pub stored: u64,
}

/// Opens a channel without a program and without injected errors. Fails if it is open already, or if out of memory.
#[unsafe(no_mangle)]
pub extern "C" fn dma330_channel_open(alloc: Global, kept: &mut KeptChannel) -> i32
    ensures { Opens kept.old.channel.value result kept.new.channel.value }
{
    let kept = kept.as_kept();
    if kept.is_open() {
        return ALREADY_OPEN;
    }
    let Ok(channel) = Channel::new(alloc) else {
        return NO_MEMORY;
    };
    let marks = Marks::new(alloc);
    match kept.open(alloc, MarkedChannel { channel, marks }) {
        Ok(()) => OK,
        Err(_) => NO_MEMORY,
    }
}

/// Closes a channel and frees its memory, if it is open.
#[unsafe(no_mangle)]
pub extern "C" fn dma330_channel_close(alloc: Global, kept: &mut KeptChannel)
    ensures { kept.new.channel.value ≡ None }
{
    kept.as_kept().close(alloc);
}

// ---- programs

// Loads the program of a transfer that was made, or returns the code of the fault for which none was made.
fn load(alloc: Global, channel: &mut Channel, made: Result<Transfer, TransferFault>) -> i32
    ensures { LoadsMade made channel.old result channel.new }
{
    match made {
        Ok(transfer) => match compile(alloc, &transfer) {
            Ok(program) => {
                channel.load(program);
                OK
            }
            Err(_) => NO_MEMORY,
        },
        Err(fault) => code_of_transfer(fault),
    }
}

/// Loads the program of a copy in place of the former program. A negative `wait` or `signal` is no event. Fails with
/// the first rule that the copy breaks, or if out of memory.
#[unsafe(no_mangle)]
pub extern "C" fn dma330_channel_load_copy(
    alloc: Global,
    kept: &mut KeptChannel,
    src: &[Segment],
    dst: &[Segment],
    wait: i32,
    signal: i32,
) -> i32
    ensures { OnChannel (LoadsTransfer (copying src.now dst.now (event_of wait) (event_of signal)))
        kept.old.channel.value result kept.new.channel.value }
{
    let Some(marked) = kept.get_mut() else {
        return NOT_OPEN;
    };
    let made = Transfer::new(alloc, src, dst, event_of(wait), event_of(signal));
    load(alloc, &mut marked.channel, made)
}

/// Loads the program of a fill with the byte at `src` in place of the former program. A negative `wait` or `signal` is
/// no event. Fails with the first rule that the fill breaks, or if out of memory.
#[unsafe(no_mangle)]
pub extern "C" fn dma330_channel_load_fill(
    alloc: Global,
    kept: &mut KeptChannel,
    src: u32,
    dst: &[Segment],
    wait: i32,
    signal: i32,
) -> i32
    ensures { OnChannel (LoadsTransfer (filling src dst.now (event_of wait) (event_of signal)))
        kept.old.channel.value result kept.new.channel.value }
{
    let Some(marked) = kept.get_mut() else {
        return NOT_OPEN;
    };
    let made = Transfer::fill(alloc, src, dst, event_of(wait), event_of(signal));
    load(alloc, &mut marked.channel, made)
}

/// Loads these bytes as a program in place of the former program. The bytes are copied, so later changes to them have
/// no effect. Fails if there are more than 8,192 bytes.
#[unsafe(no_mangle)]
pub extern "C" fn dma330_channel_load_program(kept: &mut KeptChannel, program: &[u8]) -> i32
    ensures { OnChannel (LoadsBytes program.now) kept.old.channel.value result
        kept.new.channel.value }
{
    let Some(marked) = kept.get_mut() else {
        return NOT_OPEN;
    };
    if program.len() > MAX_PROGRAM_BYTES {
        return PROGRAM_TOO_LONG;
    }
    marked
        .channel
        .load_bytes(program, Registers::start(Bus::Ideal));
    OK
}

/// Loads the program that begins at address `addr` of the regions, in place of the former program. It may cross from
/// one region into one that touches it. Fails if the regions aren't usable.
#[unsafe(no_mangle)]
pub extern "C" fn dma330_channel_load_from(
    kept: &mut KeptChannel,
    regions: &[Region<'_>],
    addr: u32,
) -> i32
    ensures { OnChannel (LoadsFrom regions.now addr) kept.old.channel.value result
        kept.new.channel.value }
{
    let Some(marked) = kept.get_mut() else {
        return NOT_OPEN;
    };
    if !are_usable(regions) {
        return BAD_REGIONS;
    }
    marked
        .channel
        .load_from(regions, addr, Registers::start(Bus::Ideal));
    OK
}

/// Drops the program. Registers and counts are unchanged.
#[unsafe(no_mangle)]
pub extern "C" fn dma330_channel_stop(kept: &mut KeptChannel) -> i32
    ensures { Becomes stopped kept.old.channel.value result kept.new.channel.value }
{
    let Some(marked) = kept.get_mut() else {
        return NOT_OPEN;
    };
    marked.channel.unload();
    OK
}

// ---- registers and injected errors

// Returns the registers and counts of a channel.
pub(crate) fn registers_of(channel: &Channel) -> ChannelRegisters
    ensures { result ≡ registers_of channel.now }
{
    let (lc0, lc1) = channel.loop_counters();
    ChannelRegisters {
        pc: channel.pc(),
        sar: channel.source_addr(),
        dar: channel.destination_addr(),
        ccr: channel.control(),
        lc0,
        lc1,
        is_loaded: u8::from(channel.is_loaded()),
        taken: channel.taken(),
        stored: channel.stored(),
    }
}

/// Writes the registers and counts of the channel.
#[unsafe(no_mangle)]
pub extern "C" fn dma330_channel_registers(
    kept: &mut KeptChannel,
    registers: &mut ChannelRegisters,
) -> i32
    ensures { WritesValue (λ m. registers_of m.channel) kept.old.channel.value result
        registers.old registers.new kept.new.channel.value }
{
    let Some(marked) = kept.get_mut() else {
        return NOT_OPEN;
    };
    *registers = registers_of(&marked.channel);
    OK
}

/// Marks a range: loads of this channel there (access 0), or stores (1), fail from then on. Fails for any other access,
/// for a range that is empty or ends above 2^32, or if out of memory.
#[unsafe(no_mangle)]
pub extern "C" fn dma330_channel_inject_error(
    kept: &mut KeptChannel,
    access: u32,
    range: Segment,
) -> i32
    ensures { OnOpen (MarksRange (mark_kind access) range) kept.old.channel.value result
        kept.new.channel.value }
{
    let Some(marked) = kept.get_mut() else {
        return NOT_OPEN;
    };
    let Some(kind) = kind_of(access) else {
        return BAD_ACCESS;
    };
    if range.len == 0 || range.wraps() {
        return BAD_RANGE;
    }
    match marked.marks.add(kind, range) {
        Ok(()) => OK,
        Err(_) => NO_MEMORY,
    }
}

/// Removes all errors that were injected into this channel.
#[unsafe(no_mangle)]
pub extern "C" fn dma330_channel_uninject_errors(kept: &mut KeptChannel) -> i32
    ensures { Becomes unmarked kept.old.channel.value result kept.new.channel.value }
{
    let Some(marked) = kept.get_mut() else {
        return NOT_OPEN;
    };
    marked.marks.clear();
    OK
}

// ---- saves

/// Writes the channel's state, without injected errors, as plain bytes to `out`, and their number to `len`. Fails if
/// `out` is too small.
#[unsafe(no_mangle)]
pub extern "C" fn dma330_channel_save(
    kept: &mut KeptChannel,
    out: &mut [u8],
    len: &mut usize,
) -> i32
    ensures { WritesSave save_of FitsSave kept.old.channel.value result out.old out.new
        len.old len.new kept.new.channel.value }
{
    let Some(marked) = kept.get_mut() else {
        return NOT_OPEN;
    };
    found(marked.channel.save(out), len, BUFFER_TOO_SMALL)
}

/// Restores the channel from a save. Injected errors are unchanged. Fails if the bytes aren't a save.
#[unsafe(no_mangle)]
pub extern "C" fn dma330_channel_restore(kept: &mut KeptChannel, save: &[u8]) -> i32
    ensures { OnChannel (RestoresChannel save.now) kept.old.channel.value result kept.new.channel.value }
{
    let Some(marked) = kept.get_mut() else {
        return NOT_OPEN;
    };
    match marked.channel.restore(save, Bus::Ideal) {
        Ok(()) => OK,
        Err(_) => BAD_SAVE,
    }
}
