//! Jobs whose copies signal each other in several rounds, so that all copies finish only if the jobs run at the same
//! time: one job after another finishes a copy each.

use crate::transfers::{four, issue};
use crate::workers::worked;
use dma_engine::Engine;
use dma_mem::transfer::Transfer;
use dma_work::{Gate, Job};
use std::alloc::Global;
use std::sync::Wait;
use std::sync::atomic::AtomicU64;
use std::test::Fail;
use std::time::Duration;

// The number of copies on each of two channels.
const ROUNDS: u32 = 8;

// The turns of each job. A copy takes some ten.
const TURNS: u64 = 400_000;

// After so many turns a worker lets the other threads run.
const STRETCH: u64 = 1_000;

// The events that the copies of channels 0 and 1 wait for. Each copy signals the other channel's event.
const EVENTS: [u8; 2] = [3, 4];

// Lets other threads run after each stretch of turns. A worker waits for nothing that another one does.
struct Stretches;

impl Gate for Stretches {
    ghost passes = { λ worker n. Unit {0} };

    fn turn<R: Wait>(&self, rt: &R, _worker: u32, n: u64) {
        if n % STRETCH == 0 {
            AtomicU64::new(0).park_timeout(rt, 0, Duration::from_millis(1));
        }
    }
}

// Issues the copies of a round. The first copy of channel 0 waits for nothing.
fn issue_round(alloc: Global, engine: &mut Engine, round: u32) -> Result<(), Fail> {
    let [zero, one] = EVENTS;
    let wait = if round == 0 { None } else { Some(zero) };
    let (src, dst) = (four(0x1000), four(0x2000));
    let first = Transfer::new(alloc, &[src], &[dst], wait, Some(one))?;
    let second = Transfer::new(alloc, &[src], &[four(0x3000)], Some(one), Some(zero))?;
    issue(engine, 0, first)?;
    issue(engine, 1, second)
}

fn prepare(alloc: Global, engine: &mut Engine) -> Result<(), Fail> {
    for round in 0..ROUNDS {
        issue_round(alloc, engine, round)?;
    }
    Ok(())
}

fn with_rounds(alloc: Global) -> Result<Engine, Fail> {
    let mut engine = Engine::new(alloc, 0x4000, 2)?;
    prepare(alloc, &mut engine)?;
    Ok(engine)
}

// A copy has 8 instructions, one more if it waits, and one if it signals.
#[test]
fn jobs_signal_each_other(rt: HostRuntime) -> Result<(), Fail> {
    let first = Job::new(0, 0, TURNS).ok_or("no job")?;
    let second = Job::new(1, 1, TURNS).ok_or("no job")?;
    let engine = with_rounds(rt.alloc())?;
    let (ended, _) = worked(&rt, rt.alloc(), engine, [first, second], &Stretches, 2)?;
    let (engine, totals, is_settled) = ended;
    assert!(rt; is_settled && totals.steps == u64::from(20 * ROUNDS - 1));
    assert!(rt; totals.finished == u64::from(2 * ROUNDS));
    assert!(rt; engine.finished_all() == u64::from(2 * ROUNDS));
    Ok(())
}
