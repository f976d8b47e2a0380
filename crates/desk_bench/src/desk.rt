//! Readers and workers at a desk.

ghost use Rattle.dma_work.specs.Desk.{Names};

use crate::case::Case;
use crate::watch::{Measured, Times, Watch};
use dma_work::{
    DeskName, Job, MissingTally, NoGate, Parts, Shared, StatusReader, Tally, run_workers, settle,
};
use std::alloc::Global;
use std::rt::Clock;
use std::sync::Wait;
use std::thread;
use std::thread::Threads;
use std::time::{CpuClock, Duration, Instant};

// Requests the status of cookie 1 on channel 0 `times` times. Returns the processor time of this thread, or `None` if a
// request had no answer.
fn ask<R: CpuClock>(rt: &R, mut reader: StatusReader, times: u32) -> Option<Duration> {
    let start = rt.thread_cpu_time().ok()?;
    for _ in 0..times {
        reader.status(0, 1)?;
    }
    rt.thread_cpu_time().ok()?.checked_sub(start)
}

// Requests `times` statuses by each of at most two readers, each in its own thread. Returns how long all took.
fn ask_each<R: Threads + Clock + CpuClock + Sync>(
    rt: &R,
    mut readers: Vec<StatusReader>,
    times: u32,
) -> Option<Times> {
    let start = Instant::now(rt).ok()?;
    let busy = match (readers.pop(), readers.pop()) {
        (Some(first), Some(second)) => {
            let (one, other) = thread::join(
                rt,
                move || ask(rt, first, times),
                move || ask(rt, second, times),
            );
            one?.checked_add(other?)?
        }
        (Some(reader), None) => ask(rt, reader, times)?,
        _ => Duration::ZERO,
    };
    let took = start.elapsed(rt).ok()?;
    Some(Times { took, busy })
}

// Lets each worker step the copies of its channel, and returns their tallies.
fn work<N: DeskName + Send + Sync, R: Threads + Wait + Sync>(
    rt: &R,
    alloc: Global,
    shared: &Shared<N>,
    case: Case,
) -> Option<Vec<Tally<N>>> {
    let mut jobs = Vec::new(alloc);
    for ch in 0..case.workers {
        jobs.push(Job::new(ch, ch, case.turns())?).ok()?;
    }
    if jobs.len() > 8 {
        return None;
    }
    run_workers(rt, alloc, shared, &jobs, &NoGate).ok()
}

// Returns the tallies, none if the workers didn't begin, and how long they took.
fn timed_work<N: DeskName + Send + Sync, R: Threads + Wait + Clock + CpuClock + Sync>(
    rt: &R,
    alloc: Global,
    shared: &Shared<N>,
    case: Case,
) -> (Vec<Tally<N>>, Option<Times>) {
    let watch = Watch::started(rt);
    let tallies = work(rt, alloc, shared, case).unwrap_or(Vec::new(alloc));
    (tallies, Watch::times(watch, rt))
}

/// Measures requests by the readers, and at the same time steps by the workers.
pub fn time_desk<N: DeskName + Send + Sync, R: Threads + Wait + Clock + CpuClock + Sync>(
    rt: &R,
    alloc: Global,
    parts: Parts,
    readers: Vec<StatusReader>,
    case: Case,
) -> Option<Measured>
    requires { Names N.opening N.base N.log parts }
{
    let shared = Shared::<N>::new(parts);
    let (asked, (tallies, stepped)) = thread::join(
        rt,
        || ask_each(rt, readers, case.requests),
        || timed_work(rt, alloc, &shared, case),
    );
    match settle(rt, shared, tallies) {
        Ok((_, totals)) => Some(Measured {
            asked: asked?,
            steps: totals.steps,
            finished: totals.finished,
            stepped: stepped?,
        }),
        Err(missing) => {
            let MissingTally {
                shared,
                tallies: _,
                book: _,
            } = missing;
            drop(shared.close(rt));
            None
        }
    }
}
