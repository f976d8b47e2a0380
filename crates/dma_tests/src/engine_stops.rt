//! A copy that an engine terminates after each of its instructions, and one that meets a mark at each of its bursts.

ghost use Rattle.std.specs.Prelude.{◌≤◌};

use crate::stops::{DST, LEN, MARKS, SIZE, SRC, byte_after, source_byte, stored_by};
use crate::transfers::issue;
use dma_engine::{Engine, EngineFault, Outcome, TransResult, Turn};
use dma_mem::segment::Segment;
use dma_mem::transfer::Transfer;
use std::alloc::Global;
use std::process::Abort;
use std::test::Fail;

// The most steps after which the copy has finished.
const MOST_STEPS: u32 = 30;

// Fills the source, issues the copy, and takes the step that starts it.
fn start(alloc: Global, engine: &mut Engine) -> Result<(), Fail> {
    let mut bytes = Vec::new(alloc);
    for position in 0..LEN {
        bytes.push(source_byte(position))?;
    }
    engine.write(SRC, bytes.as_slice())?;
    let part = |addr: u32| Segment { addr, len: LEN };
    issue(
        engine,
        0,
        Transfer::new(alloc, &[part(SRC)], &[part(DST)], None, None)?,
    )?;
    match engine.step(0)? {
        Turn::Started(1) => Ok(()),
        _ => Err(Fail::from("it didn't start")),
    }
}

fn started(alloc: Global) -> Result<Engine, Fail> {
    let mut engine = Engine::new(alloc, SIZE, 1)?;
    start(alloc, &mut engine)?;
    Ok(engine)
}

// Returns whether the memory is as after the copy has stored its first `done` bytes.
fn has_copied(engine: &mut Engine, done: u32) -> Result<bool, EngineFault>
    requires { done ≤ 300 }
{
    let bytes = engine.read(0, SIZE)?;
    let mut is_right = bytes.len() == SIZE as usize;
    let mut addr = 0;
    for byte in bytes.as_slice() {
        is_right &= *byte == byte_after(addr, done);
        addr = addr.saturating_add(1);
    }
    Ok(is_right)
}

// Takes steps as long as they move. Returns how many did, and what the next one did.
fn go_on(engine: &mut Engine, most: u32) -> Result<(u32, Option<Turn>), EngineFault> {
    for moved in 0..most {
        let turn = engine.step(0)?;
        if turn != Turn::Moved {
            return Ok((moved, Some(turn)));
        }
    }
    Ok((most, None))
}

// Terminates the copy after this many instructions.
fn stop_after(rt: &impl Abort, alloc: Global, moved: u32) -> Result<(), Fail> {
    let mut engine = started(alloc)?;
    assert!(rt; go_on(&mut engine, moved)? == (moved, None));
    assert!(rt; engine.terminate(0)? == 1);
    let done = stored_by(moved);
    let wanted = Outcome {
        result: TransResult::Aborted,
        residue: LEN - done,
    };
    assert!(rt; engine.result(0, 1) == Some(wanted) && has_copied(&mut engine, done)?);
    assert!(rt; engine.step(0)? == Turn::Nothing && has_copied(&mut engine, done)?);
    Ok(())
}

/// A copy that is terminated after any of its instructions has stored the bytes of the bursts before it, and its
/// residue is what is left. A further step does nothing.
#[test]
fn a_copy_is_terminated_at_each_step(rt: HostRuntime) -> Result<(), Fail> {
    for moved in 0..20 {
        stop_after(&rt, rt.alloc(), moved)?;
    }
    Ok(())
}

/// A copy ends at the first of its bursts that touches a mark of the burst's kind, and its residue is what the bursts
/// before haven't stored. A mark beside it, or of the other kind, doesn't matter.
#[test]
fn a_copy_ends_at_a_mark(rt: HostRuntime) -> Result<(), Fail> {
    for (kind, addr, moved, result, residue) in MARKS {
        let mut engine = started(rt.alloc())?;
        engine.mark(kind, Segment { addr, len: 1 })?;
        let ended = Turn::Finished {
            cookie: 1,
            result,
            residue,
        };
        assert!(rt;
            go_on(&mut engine, MOST_STEPS)? == (moved, Some(ended)),
            "{addr}"
        );
        assert!(rt;
            engine.result(0, 1) == Some(Outcome { result, residue }),
            "{addr}"
        );
        let done = LEN.saturating_sub(residue);
        assert!(rt; has_copied(&mut engine, done)?, "{addr}");
    }
    Ok(())
}
