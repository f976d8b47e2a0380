//! How many instructions a block of loop bodies executes, which no clause says.

use dma_chan::channel::Channel;
use dma_chan::program::Program;
use dma_mem::events::Events;
use dma_mem::marks::{MarkKind, Marks};
use dma_mem::memory::Memory;
use dma_mem::segment::Segment;
use std::alloc::Global;
use std::test::Fail;

// Copies 16 bytes from 0x11 to 0x81 by four bursts of 4 bytes. The loop's body is at offset 20 and has five
// instructions.
static LOOP: &[u8] =
    b"\xbc\0\x11\0\0\0\xbc\x02\x81\0\0\0\xbc\x01\x31\x40\x0c\0\x22\x03\x04\x12\x08\x13\x3c\x04\0";

// Copies 512 bytes from 0x11 to 0x811 by two rounds of an outer loop, each with 256 rounds of an inner one.
static NEST: &[u8] =
    b"\xbc\0\x11\0\0\0\xbc\x02\x11\x08\0\0\xbc\x01\x01\x40\0\0\x20\x01\x22\xff\x04\x12\x08\x13\x3c\x04\x38\x08\0";

// Executes this many instructions. Returns false before one for which no program is loaded, the count is at its largest
// value, or a page is not made.
fn step(channel: &mut Channel, memory: &mut Memory, marks: &Marks, steps: u32) -> bool {
    let mut events = Events::new();
    for _ in 0..steps {
        if !channel.is_loaded() || channel.taken() == u32::MAX || !channel.ready(memory) {
            return false;
        }
        channel.step(memory, &mut events, marks);
    }
    true
}

// Returns how many instructions a block executes, of at most `most`, after `steps` instructions of a program, or `None`
// if these can't be executed. Loads may read the address `mark`, and stores to it fail.
fn block(
    channel: &mut Channel,
    memory: &mut Memory,
    marks: &mut Marks,
    (mark, steps, most): (u32, u32, u32),
) -> Result<Option<u32>, Fail> {
    memory.prepare(Segment {
        addr: 0,
        len: 0x1000,
    })?;
    marks.add(MarkKind::Writing, Segment { addr: mark, len: 1 })?;
    if !step(channel, memory, marks, steps) {
        return Ok(None);
    }
    Ok(Some(channel.run_bodies(most, memory, marks)))
}

// Does the same for a program of these bytes.
fn block_of(alloc: Global, bytes: &[u8], how: (u32, u32, u32)) -> Result<Option<u32>, Fail> {
    let mut channel = Channel::new(alloc)?;
    channel.load(Program::from_bytes(alloc, bytes)?);
    let mut memory = Memory::new(alloc, 0x1000)?;
    let mut marks = Marks::new(alloc);
    block(&mut channel, &mut memory, &mut marks, how)
}

// A block ends before a body that would be too long or meet a mark. A row has the marked address, the number of steps
// before the block, the most instructions in it, and how many it executes.
#[test]
fn a_block_has_as_many_bodies_as_it_may(rt: HostRuntime) -> Result<(), Fail> {
    let rows: [(&[u8], (u32, u32, u32), u32); 15] = [
        (LOOP, (0xfff, 3, 100), 0),
        (LOOP, (0xfff, 4, 7), 0),
        (LOOP, (0xfff, 4, 8), 5),
        (LOOP, (0xfff, 4, 14), 10),
        (LOOP, (0xfff, 4, 100), 20),
        (LOOP, (0xfff, 5, 100), 0),
        (LOOP, (0xfff, 9, 100), 15),
        (LOOP, (0xfff, 19, 100), 5),
        (LOOP, (0x80, 4, 100), 20),
        (LOOP, (0x81, 4, 100), 0),
        (LOOP, (0x84, 4, 100), 0),
        (LOOP, (0x85, 4, 100), 5),
        (LOOP, (0x8f, 4, 100), 15),
        (LOOP, (0x91, 4, 100), 20),
        (NEST, (0xfff, 5, 100_000), 2562),
    ];
    for (bytes, how, ran) in rows {
        assert!(rt; block_of(rt.alloc(), bytes, how)? == Some(ran), "{ran}");
    }
    Ok(())
}
