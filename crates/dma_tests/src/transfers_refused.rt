//! Calls that make a transfer, a set of addresses or a program, which run out of memory and are then made again.
//! `tests/test_refuse_calls` lets each allocation of this test fail in turn; each row must be out of memory in some
//! run. The second call returns what the first would have returned.

ghost use Rattle.std.specs.Prelude.{◌≡◌};

use dma_chan::compile::{NoMemory, compile};
use dma_mem::range_set::RangeSet;
use dma_mem::segment::Segment;
use dma_mem::transfer::{Transfer, TransferFault};
use std::alloc::Global;
use std::test::Fail;

/// The program of a copy of 300 bytes from 0x1000 to 0x2000: a burst of 256 bytes, one of 32 and one of 12.
pub static PROGRAM: &[u8] = b"\xbc\0\0\x10\0\0\xbc\x02\0\x20\0\0\
    \xbc\x01\xf9\x40\x3e\0\x22\0\x04\x12\x08\x13\x3c\x04\
    \xbc\x01\x19\x40\x06\0\x04\x12\x08\x13\xbc\x01\xb1\x40\x2c\0\x04\x12\x08\x13\0";

#[derive(Clone, Copy)]
enum Asked {
    Copy,
    Fill,
    Ranges,
    Program,
}

fn segment(addr: u32, len: u32) -> Segment
    ensures { result ≡ record { addr = addr; len = len } }
{
    Segment { addr, len }
}

// Returns whether a transfer is read as `make_copy` asks for it: two lists of two segments, of which each has memory of
// its own.
fn is_copy(transfer: &Transfer) -> bool {
    let sources = [segment(0x1000, 3), segment(0x1100, 5)];
    let destinations = [segment(0x2000, 6), segment(0x2100, 2)];
    !transfer.is_fill()
        && (transfer.len(), transfer.wait(), transfer.signal()) == (8, Some(3), Some(31))
        && transfer.src() == sources.as_slice()
        && transfer.dst() == destinations.as_slice()
}

fn make_copy(alloc: Global) -> Result<bool, TransferFault> {
    let sources = [segment(0x1000, 3), segment(0x1100, 5)];
    let destinations = [segment(0x2000, 6), segment(0x2100, 2)];
    let transfer = Transfer::new(alloc, &sources, &destinations, Some(3), Some(31))?;
    Ok(is_copy(&transfer))
}

fn make_fill(alloc: Global) -> Result<bool, TransferFault> {
    let destinations = [segment(0x2000, 6), segment(0x2100, 2)];
    let transfer = Transfer::fill(alloc, 0x1000, &destinations, None, Some(31))?;
    Ok(
        transfer.is_fill()
            && (transfer.len(), transfer.wait(), transfer.signal()) == (8, None, Some(31))
            && transfer.src() == [segment(0x1000, 1)].as_slice()
            && transfer.dst() == destinations.as_slice(),
    )
}

// The first range joins two segments that touch.
fn make_ranges(alloc: Global) -> Result<bool, NoMemory> {
    let segments = [segment(0x300, 1), segment(0x108, 8), segment(0x100, 8)];
    let set = RangeSet::new(alloc, &segments)?;
    Ok(set.ranges() == [segment(0x100, 16), segment(0x300, 1)].as_slice())
}

fn make_program(alloc: Global, transfer: &Transfer) -> Result<bool, NoMemory> {
    let program = compile(alloc, transfer)?;
    Ok(program.cost() == Some(20) && program.bytes() == PROGRAM)
}

// Makes a value, and returns whether it is the one that was asked for.
fn make(alloc: Global, asked: Asked, transfer: &Transfer) -> Result<bool, NoMemory> {
    let made = match asked {
        Asked::Copy => make_copy(alloc),
        Asked::Fill => make_fill(alloc),
        Asked::Ranges => return make_ranges(alloc),
        Asked::Program => return make_program(alloc, transfer),
    };
    match made {
        Ok(is_right) => Ok(is_right),
        Err(fault) if fault == TransferFault::NoMemory => Err(NoMemory),
        Err(_) => Ok(false),
    }
}

#[test]
fn values_are_made_again(rt: HostRuntime) -> Result<(), Fail> {
    let rows = [
        ("Transfer::new", Asked::Copy),
        ("Transfer::fill", Asked::Fill),
        ("RangeSet::new", Asked::Ranges),
        ("compile", Asked::Program),
    ];
    // (it allocates nothing)
    let (src, dst) = ([segment(0x1000, 300)], [segment(0x2000, 300)]);
    let transfer = Transfer::new(rt.alloc(), &src, &dst, None, None)?;
    for (name, asked) in rows {
        println!(rt; "row {name}")?;
        let mut made = make(rt.alloc(), asked, &transfer);
        if made == Err(NoMemory) {
            println!(rt; "refused {name}")?;
            made = make(rt.alloc(), asked, &transfer);
        }
        assert!(rt; made == Ok(true), "{name}");
    }
    Ok(())
}
