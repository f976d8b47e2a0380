//! Programs that run alone, whole and cut off, and how they end.

use crate::transfers_refused::PROGRAM;
use dma_chan::run::{RunEnd, RunFault, run_program};
use dma_chan::turn::FaultKind;
use dma_insn::insn::Event;
use dma_mem::memory::{MemFault, Memory};
use std::alloc::Global;
use std::test::Fail;

// Runs a program over a memory of `size` zeros.
fn run(
    alloc: Global,
    bytes: &[u8],
    size: u32,
    limit: u32,
) -> Result<Result<RunEnd, RunFault>, MemFault> {
    let mut memory = Memory::new(alloc, size)?;
    Ok(run_program(alloc, bytes, &mut memory, limit))
}

fn fault(kind: FaultKind, pc: u32) -> RunEnd {
    RunEnd::Fault { kind, pc }
}

/// `run_program` over 512 zeros: a store without bytes, a reserved size, a load for which the buffer has no room, a
/// jump to before the start, the end of a loop without rounds, an unknown byte, a wait, a wait for an event that was
/// signalled, and a loop, within the limit and over it.
#[test]
fn programs_have_these_ends(rt: HostRuntime) -> Result<(), Fail> {
    let event = Event::new(3).ok_or("no event")?;
    let lasting: &[u8] = b"\x20\xff\x38\0\0";
    let rows: [(&[u8], u32, RunEnd); 10] = [
        (b"\x08\0", 1000, fault(FaultKind::StDataUnavailable, 0)),
        (
            b"\xbc\x01\x0b\0\0\0",
            1000,
            fault(FaultKind::OperandInvalid, 0),
        ),
        (
            b"\xbc\x01\xf9\x40\x3e\0\x04\x04\0",
            1000,
            fault(FaultKind::MfifoErr, 7),
        ),
        (
            b"\x20\x01\x38\x05",
            1000,
            fault(FaultKind::InstrFetchErr, 2),
        ),
        (b"\x38\x05", 1000, fault(FaultKind::InstrFetchErr, 2)),
        (b"\x05", 1000, fault(FaultKind::UndefInstr, 0)),
        (b"\x36\x18\0", 1000, RunEnd::Waiting(event)),
        (b"\x34\x18\x36\x18\0", 1000, RunEnd::Ended { turns: 3 }),
        (lasting, 1000, RunEnd::Ended { turns: 258 }),
        (lasting, 10, RunEnd::OutOfTurns),
    ];
    for (bytes, limit, end) in rows {
        assert!(rt; run(rt.alloc(), bytes, 512, limit)? == Ok(end));
    }
    Ok(())
}

// The offsets of the instructions of `PROGRAM`.
static OFFSETS: [u32; 20] = [
    0, 6, 12, 18, 20, 21, 22, 23, 24, 26, 32, 33, 34, 35, 36, 42, 43, 44, 45, 46,
];

// Returns the last of the offsets that is at most `len`.
fn last_offset(len: usize) -> u32 {
    let mut last = 0;
    for offset in OFFSETS {
        if offset as usize <= len {
            last = offset;
        }
    }
    last
}

/// A program that is cut off fails at the first instruction that isn't whole, or that isn't there. Whole, it ends.
#[test]
fn a_program_is_cut_off(rt: HostRuntime) -> Result<(), Fail> {
    for len in 0..47 {
        let Some((front, _)) = PROGRAM.split_at_checked(len) else {
            panic!(rt; "too short");
        };
        let end = run(rt.alloc(), front, 0x4000, 1000)?;
        assert!(rt;
            end == Ok(fault(FaultKind::InstrFetchErr, last_offset(len))),
            "{len}"
        );
    }
    assert!(rt; PROGRAM.len() == 47);
    assert!(rt; run(rt.alloc(), PROGRAM, 0x4000, 1000)? == Ok(RunEnd::Ended { turns: 20 }));
    Ok(())
}

/// A program of two bytes of any value, and zeros, returns.
#[test]
fn each_pair_of_first_bytes_is_run(rt: HostRuntime) -> Result<(), Fail> {
    for first in 0..=u8::MAX {
        for second in 0..=u8::MAX {
            let end = run(rt.alloc(), &[first, second, 0, 0, 0, 0, 0], 512, 1000)?;
            assert!(rt; end.is_ok(), "{first} {second}");
        }
    }
    Ok(())
}
