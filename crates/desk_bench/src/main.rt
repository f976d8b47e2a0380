//! Measures requests for statuses without the lock, and steps with and without a desk. It does nothing unless its
//! arguments say what to measure: the six numbers of a [`Case`], in order.
#![tactic(auto)]

mod case;
mod desk;
mod watch;

use crate::case::Case;
use crate::desk::time_desk;
use crate::watch::{Measured, Times, Watch};
use dma_engine::Engine;
use dma_work::Parts;
use std::alloc::Global;
use std::marker::Brand;
use std::rt::Clock;
use std::sync::Wait;
use std::thread::Threads;
use std::time::CpuClock;
use std::{env, io};

fn main(rt: HostRuntime) -> io::Result<()> {
    let words: Vec<String> = env::args(&rt)?.collect(rt.alloc())?;
    let Some(case) = Case::of(&words) else {
        return Ok(());
    };
    let Some(it) = measure(&rt, rt.alloc(), case) else {
        return println!(rt; "nothing was measured");
    };
    let answers = u64::from(case.readers) * u64::from(case.requests);
    println!(rt;
        "answers {answers} took {:?} busy {:?}",
        it.asked.took, it.asked.busy
    )?;
    println!(rt;
        "steps {} finished {} took {:?} busy {:?}",
        it.steps, it.finished, it.stepped.took, it.stepped.busy
    )
}

// Measures the case. Without readers and workers, the engine steps channel 0 without a desk.
fn measure<R: Threads + Wait + Clock + CpuClock + Sync>(
    rt: &R,
    alloc: Global,
    case: Case,
) -> Option<Measured> {
    let engine = case.engine(alloc)?;
    if case.readers == 0 && case.workers == 0 {
        return time_engine(rt, engine, case);
    }
    let (parts, readers) = Parts::new(rt, alloc, engine, case.readers as usize).ok()?;
    time_desk::<Brand, _>(rt, alloc, parts, readers, case)
}

// Measures the steps of channel 0 of an engine.
fn time_engine<R: Clock + CpuClock>(rt: &R, mut engine: Engine, case: Case) -> Option<Measured> {
    let watch = Watch::started(rt);
    for _ in 0..case.turns() {
        let _ = engine.step(0);
    }
    Some(Measured {
        asked: Times::default(),
        steps: engine.steps(),
        finished: engine.finished_all(),
        stepped: Watch::times(watch, rt)?,
    })
}
