//! Loads of a channel at a mark and without one, and from an address that doesn't rise.

use dma_chan::bus::Bus;
use dma_chan::channel::Channel;
use dma_chan::exec::Registers;
use dma_chan::turn::{ChanTurn, FaultKind};
use dma_mem::events::Events;
use dma_mem::marks::{MarkKind, Marks};
use dma_mem::memory::Memory;
use dma_mem::segment::Segment;
use std::alloc::Global;
use std::test::Fail;

// DMAMOV SAR 0x10, DMAMOV CCR (bursts of two beats of 16 bytes), DMALD, DMAEND.
static LOAD: [u8; 14] = *b"\xbc\0\x10\0\0\0\xbc\x01\x19\x40\x06\0\x04\0";

// DMAMOV SAR 0x10, DMAMOV DAR 0x40, DMAMOV CCR 0x003c40f0 (16 beats of one byte, of which only the stored ones rise),
// DMALD, DMAST, DMAEND.
static REPEAT: [u8; 21] = *b"\xbc\0\x10\0\0\0\xbc\x02\x40\0\0\0\xbc\x01\xf0\x40\x3c\0\x04\x08\0";

// Takes one step, or returns `None` if there is no program, the count is at its largest value, or a page isn't made.
fn step(channel: &mut Channel, memory: &mut Memory, marks: &Marks) -> Option<ChanTurn> {
    if !channel.is_loaded() || channel.taken() == u32::MAX || !channel.ready(memory) {
        return None;
    }
    Some(channel.step(memory, &mut Events::new(), marks))
}

// Returns a memory of 256 bytes, of which that at 0x10 is 0x5a and the others are 0.
fn memory_of(alloc: Global) -> Result<Memory, Fail> {
    let mut memory = Memory::new(alloc, 0x100)?;
    memory.write(0x10, &[0x5a])?;
    Ok(memory)
}

// The offset of the next instruction, the instructions taken, and the numbers of bytes stored and in the buffer.
fn counts(channel: &Channel) -> (u32, u32, u64, u32) {
    (
        channel.pc(),
        channel.taken(),
        channel.stored(),
        channel.buffered(),
    )
}

fn has_bytes(memory: &Memory, wanted: &[u8; 0x100]) -> bool {
    let mut bytes = [0; 0x100];
    memory.read_into(0, &mut bytes).is_ok() && bytes == *wanted
}

/// A load that touches a mark fails, and changes neither the channel nor memory. Once the marks are cleared, the same
/// step loads the bytes.
#[test]
fn a_load_fails_at_a_mark(rt: HostRuntime) -> Result<(), Fail> {
    let mut memory = memory_of(rt.alloc())?;
    let mut channel = Channel::new(rt.alloc())?;
    channel.load_bytes(&LOAD, Registers::start(Bus::Ideal));
    let mut marks = Marks::new(rt.alloc());
    marks.add(MarkKind::Reading, Segment { addr: 0x20, len: 1 })?;
    for _ in 0..2 {
        assert!(rt; step(&mut channel, &mut memory, &marks) == Some(ChanTurn::Moved));
    }
    assert!(rt; counts(&channel) == (12, 2, 0, 0));
    let failed = step(&mut channel, &mut memory, &marks);
    assert!(rt; failed == Some(ChanTurn::Fault(FaultKind::DataReadErr)));
    assert!(rt; counts(&channel) == (12, 2, 0, 0) && channel.source_addr() == 0x10);
    let mut wanted = [0; 0x100];
    wanted[0x10] = 0x5a;
    assert!(rt; has_bytes(&memory, &wanted));
    marks.clear();
    assert!(rt; step(&mut channel, &mut memory, &marks) == Some(ChanTurn::Moved));
    assert!(rt; counts(&channel) == (13, 3, 0, 32));
    Ok(())
}

/// If the source address doesn't rise, a load of sixteen beats reads the same byte sixteen times, and leaves the
/// address.
#[test]
fn a_byte_is_loaded_sixteen_times(rt: HostRuntime) -> Result<(), Fail> {
    let mut memory = memory_of(rt.alloc())?;
    let mut channel = Channel::new(rt.alloc())?;
    channel.load_bytes(&REPEAT, Registers::start(Bus::Ideal));
    let marks = Marks::new(rt.alloc());
    for _ in 0..4 {
        assert!(rt; step(&mut channel, &mut memory, &marks) == Some(ChanTurn::Moved));
    }
    assert!(rt; channel.source_addr() == 0x10 && channel.buffered() == 16);
    assert!(rt; step(&mut channel, &mut memory, &marks) == Some(ChanTurn::Moved));
    let mut wanted = [0; 0x100];
    wanted[0x10] = 0x5a;
    wanted[0x40..0x50].fill(0x5a);
    assert!(rt; has_bytes(&memory, &wanted));
    Ok(())
}
