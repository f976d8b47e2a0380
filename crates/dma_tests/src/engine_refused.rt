//! Calls that C can't make, which run out of memory and are then made again: those that copy bytes or a transfer, lists
//! of calls, and those that make room. `tests/test_refuse_calls` lets each allocation of this test
//! fail in turn; each row must be out of memory in some run. That a call that is out of memory changes nothing is in
//! its contract.

use crate::transfers::copy;
use dma_engine::run::run;
use dma_engine::{Call, Engine, EngineFault, Reply};
use dma_mem::lists::Bytes;
use std::alloc::Global;
use std::test::Fail;

#[derive(Clone, Copy)]
enum Asked {
    Run,
    Read,
    Submit,
    MakeRoom,
    Reserve,
}

// Carries out a borrowed submit, of which the engine copies the transfer.
fn submit(alloc: Global, engine: &mut Engine) -> Result<(), EngineFault> {
    let Ok(transfer) = copy(alloc, 0, 8) else {
        return Err(EngineFault::NoMemory);
    };
    match engine.carry_out(&Call::Submit { ch: 0, transfer }) {
        Reply::Refused(fault) => Err(fault),
        _ => Ok(()),
    }
}

// Runs a list of two calls.
fn run_list(alloc: Global, engine: &mut Engine) -> Result<(), EngineFault> {
    let bytes = Bytes::from_slice(alloc, &[7, 8, 9])?;
    let calls = [
        Call::Write {
            addr: 0x3FFE,
            bytes,
        },
        Call::Read {
            addr: 0x3FFE,
            len: 4,
        },
    ];
    let Ok(replies) = run(alloc, engine, &calls) else {
        return Err(EngineFault::NoMemory);
    };
    for reply in &replies {
        if let Reply::Refused(fault) = reply {
            return Err(*fault);
        }
    }
    Ok(())
}

// Makes a call. The bytes lie in two chunks of memory, neither of which is made.
fn make(alloc: Global, engine: &mut Engine, asked: Asked) -> Result<(), EngineFault> {
    match asked {
        Asked::Run => run_list(alloc, engine),
        Asked::Read => {
            engine.read(0x3FFE, 4)?;
            Ok(())
        }
        Asked::Submit => submit(alloc, engine),
        Asked::MakeRoom => engine.make_room(0),
        Asked::Reserve => Ok(engine.reserve_entries(3)?),
    }
}

// Makes a call on a new engine, and once more if it is refused. Returns how the first call ended, and whether one of
// them succeeded.
fn made(alloc: Global, asked: Asked) -> Result<(Result<(), EngineFault>, bool), Fail> {
    let mut engine = Engine::new(alloc, 0xC000, 1)?;
    let first = make(alloc, &mut engine, asked);
    let is_made = first.is_ok() || make(alloc, &mut engine, asked).is_ok();
    Ok((first, is_made))
}

#[test]
fn calls_are_made_again(rt: HostRuntime) -> Result<(), Fail> {
    let rows = [
        ("run", Asked::Run),
        ("read", Asked::Read),
        ("carry_out", Asked::Submit),
        ("make_room", Asked::MakeRoom),
        ("reserve_entries", Asked::Reserve),
    ];
    for (name, asked) in rows {
        println!(rt; "row {name}")?;
        let (first, is_made) = made(rt.alloc(), asked)?;
        if let Err(fault) = first {
            println!(rt; "refused {name}")?;
            assert_eq!(rt; fault, EngineFault::NoMemory);
        }
        assert!(rt; is_made, "{name}");
    }
    Ok(())
}
