//! Loops that only a chip's channel has, which it runs as one block: their effects, written by hand.

use dma_chan::bus::{Bus, BusWidth};
use dma_chan::channel::Channel;
use dma_chan::exec::Registers;
use dma_chan::program::MAX_PROGRAM_BYTES;
use dma_mem::events::Events;
use dma_mem::marks::Marks;
use dma_mem::memory::Memory;
use dma_mem::segment::Segment;
use std::alloc::Global;
use std::test::Fail;

// DMAMOV SAR 0x108, which DMASTZ doesn't read, DMAMOV DAR 0x100, DMAMOV CCR (bursts of four bytes), and four times DMASTZ,
// DMAWMB, DMASTZ.
static CLEARED: &[u8] =
    b"\xbc\0\x08\x01\0\0\xbc\x02\0\x01\0\0\xbc\x01\x31\x40\x0c\0\x20\x03\x0c\x13\x0c\x38\x03\0";

// The DMAMOVs of `CLEARED`, and then twice four times DMASTZ.
static CLEARED_TWICE: &[u8] =
    b"\xbc\0\x08\x01\0\0\xbc\x02\0\x01\0\0\xbc\x01\x31\x40\x0c\0\x22\x01\x20\x03\x0c\x38\x01\x3c\x05\0";

// Three rows of eight bytes, 16 bytes apart, from 0x200 to 0x100: bursts of four bytes, and three times DMALD, DMAST,
// DMALD, DMAST, DMAADDH SAR 8.
static ROWS: &[u8] =
    b"\xbc\0\0\x02\0\0\xbc\x02\0\x01\0\0\xbc\x01\x31\x40\x0c\0\x20\x02\x04\x08\x04\x08\x54\x08\0\x38\x07\0";

// The rows of `ROWS`, which are stored 16 bytes apart too: a DMAADDH DAR 8 follows that of SAR.
static ROWS_APART: &[u8] =
    b"\xbc\0\0\x02\0\0\xbc\x02\0\x01\0\0\xbc\x01\x31\x40\x0c\0\x20\x02\x04\x08\x04\x08\x54\x08\0\x56\x08\0\x38\x0a\0";

// Returns a channel on a bus of 32 bits that has executed this many instructions of a program.
fn channel_after(
    alloc: Global,
    bytes: &[u8],
    memory: &mut Memory,
    steps: u32,
) -> Result<Channel, Fail> {
    let mut channel = Channel::new(alloc)?;
    let program = &bytes[..bytes.len().min(MAX_PROGRAM_BYTES)];
    channel.load_bytes(program, Registers::start(Bus::Chip(BusWidth::Bits32)));
    let (mut events, marks) = (Events::new(), Marks::new(alloc));
    for _ in 0..steps {
        if channel.is_loaded() && channel.taken() != u32::MAX && channel.ready(memory) {
            channel.step(memory, &mut events, &marks);
        }
    }
    Ok(channel)
}

// Returns a memory whose first pages are made.
fn memory_of(alloc: Global) -> Result<Memory, Fail> {
    let mut memory = Memory::new(alloc, 0x1000)?;
    memory.prepare(Segment {
        addr: 0,
        len: 0x1000,
    })?;
    memory.write(0x100, &[0xff; 48])?;
    Ok(memory)
}

#[test]
fn loops_of_zeros_are_blocks(rt: HostRuntime) -> Result<(), Fail> {
    for (bytes, steps, count) in [(CLEARED, 4, 4 * 4), (CLEARED_TWICE, 5, 8 * 2 + 2)] {
        let mut memory = memory_of(rt.alloc())?;
        let mut channel = channel_after(rt.alloc(), bytes, &mut memory, steps)?;
        let marks = Marks::new(rt.alloc());
        assert!(rt; channel.run_bodies(100, &mut memory, &marks) == count);
        assert!(rt; channel.destination_addr() == 0x120 && channel.source_addr() == 0x108);
        assert!(rt; channel.stored() == 32);
        for (addr, byte) in [(0x100, 0), (0x108, 0), (0x11f, 0), (0x120, 0xff)] {
            assert!(rt; memory.byte(addr) == Some(byte), "{addr}");
        }
    }
    Ok(())
}

#[test]
fn rows_are_a_block(rt: HostRuntime) -> Result<(), Fail> {
    let mut memory = memory_of(rt.alloc())?;
    memory.write(0x200, b"abcdefgh--------ijklmnop--------qrstuvwx--------")?;
    let mut channel = channel_after(rt.alloc(), ROWS, &mut memory, 4)?;
    let marks = Marks::new(rt.alloc());
    assert!(rt; channel.run_bodies(100, &mut memory, &marks) == 3 * 6);
    assert!(rt; channel.source_addr() == 0x230 && channel.destination_addr() == 0x118);
    assert!(rt; channel.stored() == 24 && channel.pc() == 29);
    let mut addr: u32 = 0x100;
    for byte in b"abcdefghijklmnopqrstuvwx\xff" {
        assert!(rt; memory.byte(addr) == Some(*byte), "{addr}");
        addr = addr.wrapping_add(1);
    }
    Ok(())
}

#[test]
fn rows_apart_are_calls(rt: HostRuntime) -> Result<(), Fail> {
    let mut memory = memory_of(rt.alloc())?;
    memory.write(0x200, b"abcdefgh--------ijklmnop--------qrstuvwx--------")?;
    let mut channel = channel_after(rt.alloc(), ROWS_APART, &mut memory, 4)?;
    let marks = Marks::new(rt.alloc());
    assert!(rt; channel.run_rows(6, &mut memory, &marks).is_none());
    let Some(rows) = channel.run_rows(100, &mut memory, &marks) else {
        panic!(rt; "no rows");
    };
    assert!(rt; rows.first.addr == 0x100 && rows.first.len == 8);
    assert!(rt; rows.pitch == 16 && rows.count == 2 && rows.steps == 7);
    assert!(rt; channel.source_addr() == 0x220 && channel.destination_addr() == 0x120);
    assert!(rt; channel.stored() == 16 && channel.taken() == 18 && channel.pc() == 20);
    let mut addr: u32 = 0x100;
    for byte in b"abcdefgh\xff\xff\xff\xff\xff\xff\xff\xffijklmnop\xff" {
        assert!(rt; memory.byte(addr) == Some(*byte), "{addr}");
        addr = addr.wrapping_add(1);
    }
    Ok(())
}
