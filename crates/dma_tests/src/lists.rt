//! Lists of calls and of segments.

use crate::transfers::copy;
use dma_engine::run::run;
use dma_engine::{Call, Engine, Reply};
use dma_mem::lists::Bytes;
use dma_mem::memory::{MemFault, Memory};
use dma_mem::segment::Segment;
use std::alloc::Global;
use std::test::Fail;

// Executes calls of different kinds, which nothing but memory can refuse. Returns the number of replies, and how many
// of them are refusals.
fn carried_out(alloc: Global, engine: &mut Engine) -> Result<(usize, usize), Fail> {
    let bytes = Bytes::from_slice(alloc, &[1, 2, 3, 4])?;
    let transfer = copy(alloc, 0, 8)?;
    let calls = [
        Call::Write { addr: 0, bytes },
        Call::Submit { ch: 0, transfer },
        Call::Issue { ch: 0 },
        Call::Step { ch: 0 },
        Call::Read { addr: 0, len: 4 },
    ];
    let replies = run(alloc, engine, &calls)?;
    Ok((replies.len(), refusals(&replies)))
}

fn refusals(replies: &[Reply]) -> usize {
    let mut count = 0usize;
    for reply in replies {
        if let Reply::Refused(_) = reply {
            count = count.saturating_add(1);
        }
    }
    count
}

fn carried_out_anew(alloc: Global) -> Result<(usize, usize), Fail> {
    let mut engine = Engine::new(alloc, 64, 1)?;
    carried_out(alloc, &mut engine)
}

#[test]
fn no_call_of_a_list_is_refused(rt: HostRuntime) -> Result<(), Fail> {
    let counts = carried_out_anew(rt.alloc())?;
    assert!(rt; counts == (5, 0));
    Ok(())
}

// No contract says which fault comes if a segment ends above the size and another's pages can't be made.
#[test]
fn a_list_above_the_size_is_out_of_range(rt: HostRuntime) -> Result<(), Fail> {
    let mut memory = Memory::new(rt.alloc(), 0x4000)?;
    let list = [
        Segment { addr: 0, len: 0 },
        Segment {
            addr: 0x4001,
            len: 0,
        },
    ];
    assert!(rt; memory.prepare_all(&list) == Err(MemFault::OutOfMemoryRange));
    Ok(())
}
