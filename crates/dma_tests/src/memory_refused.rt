//! A program that runs out of memory where a store makes a page, and is then run again, and pages that are made at the
//! second call. `tests/test_refuse_calls` lets each allocation of a test fail in turn; each row must be out of memory
//! in some run. That the first run does no more than its instructions do is in its contract.

use dma_chan::run::{RunEnd, RunFault, run_program};
use dma_mem::memory::{MemFault, Memory};
use dma_mem::segment::Segment;
use std::alloc::Global;
use std::test::Fail;

// Copies eight bytes from 0x100 to 0x7FF8 and the next eight to 0x8000, each with one beat. Each store is the first in
// its chunk of memory, and they are the fifth and the seventh instruction.
static TWO_STORES: &[u8] =
    b"\xbc\0\0\x01\0\0\xbc\x02\xf8\x7f\0\0\xbc\x01\x07\xc0\x01\0\x04\x08\x04\x08\0";

// Runs the program, and again if it is out of memory. Returns how many instructions the refused run executed, if there
// was one, and how the last run ended.
fn run_again(alloc: Global) -> Result<(Option<u32>, Option<RunEnd>), Fail> {
    let mut memory = Memory::new(alloc, 0xC000)?;
    let turns = match run_program(alloc, TWO_STORES, &mut memory, 1000) {
        Ok(end) => return Ok((None, Some(end))),
        Err(RunFault::PageRefused { turns }) => turns,
        Err(_) => 0,
    };
    let end = run_program(alloc, TWO_STORES, &mut memory, 1000).ok();
    Ok((Some(turns), end))
}

#[test]
fn a_program_is_run_again(rt: HostRuntime) -> Result<(), Fail> {
    println!(rt; "row run_program after 0\nrow run_program after 4\nrow run_program after 6")?;
    let (refused, end) = run_again(rt.alloc())?;
    if let Some(turns) = refused {
        println!(rt; "refused run_program after {turns}")?;
    }
    assert!(rt; end == Some(RunEnd::Ended { turns: 8 }));
    Ok(())
}

// The part of a memory of three chunks in which a test makes pages: it lies in the second chunk and the third.
const MADE: Segment = Segment {
    addr: 0x7FFE,
    len: 4,
};

// Returns whether a memory has 0xC000 bytes, which are 0 except for four.
fn is_as_written(memory: &Memory) -> bool {
    for addr in 0..0xC001u32 {
        let byte = match addr {
            0x100 => Some(1),
            0x101 => Some(2),
            0x102 => Some(3),
            0x103 => Some(4),
            0xC000 => None,
            _ => Some(0),
        };
        if memory.byte(addr) != byte {
            return false;
        }
    }
    memory.size() == 0xC000
}

// Makes the pages of a range, and again if this is out of memory. Returns the fault of the first call, and whether all
// bytes were as before after each call and the pages are made.
fn prepare_again(alloc: Global) -> Result<(Option<MemFault>, bool), Fail> {
    let mut memory = Memory::new(alloc, 0xC000)?;
    memory.write(0x100, &[1, 2, 3, 4])?;
    let fault = memory.prepare(MADE).err();
    let mut is_same = is_as_written(&memory);
    if fault.is_some() {
        memory.prepare(MADE)?;
        is_same = is_same && is_as_written(&memory);
    }
    Ok((fault, is_same && memory.made(MADE)))
}

#[test]
fn pages_are_made_again(rt: HostRuntime) -> Result<(), Fail> {
    println!(rt; "row Memory::prepare")?;
    let (fault, is_right) = prepare_again(rt.alloc())?;
    if let Some(fault) = fault {
        println!(rt; "refused Memory::prepare")?;
        assert_eq!(rt; fault, MemFault::NoMemory);
    }
    assert!(rt; is_right);
    Ok(())
}
