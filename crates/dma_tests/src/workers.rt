//! Workers at a desk, each in its thread, while another thread asks for statuses.

ghost use Rattle.std.specs.Prelude.{◌<◌};
ghost use Rattle.dma_work.specs.Desk.{Names};

use crate::desk_refused::parts_of;
use crate::transfers::{copy, issue};
use dma_engine::{Engine, Status};
use dma_work::{
    DeskName, Gate, Job, MAX_READERS, MissingTally, Parts, Shared, StatusReader, Tally, Totals,
    run_workers, settle,
};
use std::alloc::Global;
use std::marker::Brand;
use std::process::Abort;
use std::sync::atomic::AtomicU64;
use std::sync::{Mutex, MutexGuard, Wait};
use std::test::Fail;
use std::thread;
use std::thread::Threads;
use std::time::Duration;

// Takes the desk's lock for longer than a worker sleeps before it waits in the lock's queue, and asks for a status
// meanwhile; then asks for two statuses many times. Returns the reader, and whether it always knew them.
fn ask_often<N: DeskName, R: Wait>(
    rt: &R,
    shared: &Shared<N>,
    mut reader: StatusReader,
) -> (StatusReader, bool) {
    let desk = shared.desk().lock(rt);
    // twice the sleeps of `dma_work/src/lock.rt`
    AtomicU64::new(0).park_timeout(rt, 0, Duration::from_millis(20));
    let mut is_right = reader.status(0, 1).is_some();
    MutexGuard::unlock(desk);
    for _ in 0..10_000 {
        is_right &= reader.status(0, 1).is_some() && reader.status(1, 1).is_some();
    }
    (reader, is_right)
}

// Returns the steps and the number of entries of an engine at a desk.
fn counts<N: DeskName, R: Wait>(rt: &R, shared: &Shared<N>) -> (u64, usize) {
    let desk = shared.desk().lock(rt);
    let counts = (desk.engine().steps(), desk.engine().history().len());
    MutexGuard::unlock(desk);
    counts
}

// Returns the number of turns of a tally.
fn turns_at<N: DeskName>(tallies: &[Tally<N>], at: usize) -> Option<u64> {
    Some(tallies.get(at)?.turns())
}

// Runs two jobs again after a call that was out of memory, which has changed nothing.
fn run_again<N: DeskName + Send + Sync, R: Threads + Wait + Sync + Abort + Print, G: Gate>(
    rt: &R,
    alloc: Global,
    shared: &Shared<N>,
    before: (u64, usize),
    jobs: [Job; 2],
    gate: &G,
) -> Result<Vec<Tally<N>>, Fail> {
    println!(rt; "refused run_workers")?;
    assert!(rt; counts(rt, shared) == before);
    Ok(run_workers(rt, alloc, shared, &jobs, gate)?)
}

// Runs two jobs while another thread asks the reader. If they are out of memory, they are run again. Returns the
// tallies, and the last status of cookie 1 of channel 0.
fn run_jobs<N: DeskName + Send + Sync, R: Threads + Wait + Sync + Abort + Print, G: Gate>(
    rt: &R,
    alloc: Global,
    shared: &Shared<N>,
    reader: StatusReader,
    jobs: [Job; 2],
    gate: &G,
) -> Result<(Vec<Tally<N>>, Option<Status>), Fail> {
    let before = counts(rt, shared);
    let ((mut reader, is_right), tallies) = thread::join(
        rt,
        || ask_often(rt, shared, reader),
        || run_workers(rt, alloc, shared, &jobs, gate),
    );
    let tallies = match tallies {
        Ok(tallies) => tallies,
        Err(_) => run_again(rt, alloc, shared, before, jobs, gate)?,
    };
    assert!(rt; is_right);
    assert!(rt; turns_at(&tallies, 0) == Some(jobs[0].turns));
    assert!(rt; turns_at(&tallies, 1) == Some(jobs[1].turns));
    Ok((tallies, reader.status(0, 1)))
}

/// The engine of a desk that has ended, with the totals of its settlement, or with those of its book if tallies were
/// missing, and whether it was settled.
pub type Ended = (Engine, Totals, bool);

// Settles a desk, or closes it if tallies are missing.
fn ended<N: DeskName, R: Wait>(rt: &R, shared: Shared<N>, tallies: Vec<Tally<N>>) -> Ended {
    match settle(rt, shared, tallies) {
        Ok((engine, totals)) => (engine, totals, true),
        Err(missing) => {
            let MissingTally {
                shared,
                tallies: _,
                book,
            } = missing;
            (shared.close(rt), book, false)
        }
    }
}

fn shared_by<N: DeskName + Send + Sync, R: Threads + Wait + Sync + Abort + Print, G: Gate>(
    rt: &R,
    alloc: Global,
    parts: Parts,
    reader: Option<StatusReader>,
    jobs: [Job; 2],
    gate: &G,
    reported: usize,
) -> Result<(Ended, Option<Status>), Fail>
    requires { Names N.opening N.base N.log parts }
{
    let shared = Shared::<N>::new(parts);
    let Some(reader) = reader else {
        shared.close(rt);
        return Err(Fail::from("no reader"));
    };
    match run_jobs(rt, alloc, &shared, reader, jobs, gate) {
        Ok((mut tallies, status)) => {
            tallies.truncate(reported);
            Ok((ended(rt, shared, tallies), status))
        }
        Err(fail) => {
            shared.close(rt);
            Err(fail)
        }
    }
}

/// Runs two jobs at a desk over an engine, and ends the desk with the first `reported` tallies. Returns how it ended,
/// and the status of cookie 1 of channel 0 that a reader sees after the jobs.
pub fn worked<R: Threads + Wait + Sync + Abort + Print, G: Gate>(
    rt: &R,
    alloc: Global,
    engine: Engine,
    jobs: [Job; 2],
    gate: &G,
    reported: usize,
) -> Result<(Ended, Option<Status>), Fail> {
    let (parts, mut readers) = parts_of(rt, alloc, engine, MAX_READERS)?;
    shared_by::<Brand, R, G>(rt, alloc, parts, readers.pop(), jobs, gate, reported)
}

fn issue_both(alloc: Global, engine: &mut Engine) -> Result<(), Fail> {
    issue(engine, 0, copy(alloc, 0x1000, 0x2000)?)?;
    issue(engine, 1, copy(alloc, 0x1000, 0x3000)?)
}

fn with_two_copies(alloc: Global) -> Result<Engine, Fail> {
    let mut engine = Engine::new(alloc, 0x4000, 2)?;
    issue_both(alloc, &mut engine)?;
    Ok(engine)
}

// Returns the steps of a settled desk, and how many copies have finished.
fn counts_of(rt: &impl Abort, ended: Ended) -> (u64, u64) {
    let (engine, totals, is_settled) = ended;
    assert!(rt; is_settled && totals.terminated == 0);
    assert!(rt; (totals.steps, totals.finished) == (engine.steps(), engine.finished_all()));
    (totals.steps, totals.finished)
}

/// Runs two jobs at a desk over two channels with a copy each, and settles it. Returns the steps, how many copies have
/// finished, and the status of the first that a reader then sees.
pub fn two_copies<R: Threads + Wait + Sync + Abort + Print, G: Gate>(
    rt: &R,
    alloc: Global,
    jobs: [Job; 2],
    gate: &G,
) -> Result<(u64, u64, Option<Status>), Fail> {
    let engine = with_two_copies(alloc)?;
    let (ended, status) = worked(rt, alloc, engine, jobs, gate, 2)?;
    let (steps, finished) = counts_of(rt, ended);
    Ok((steps, finished, status))
}

// ---- a gate

// The most times that a gate looks for the other worker.
const MOST_LOOKS: u64 = 20_000_000;

// Holds each of two workers before each of its turns until the other has arrived there too.
#[derive(Drop)]
struct InStep {
    // the number of the turn at which each worker has arrived
    turns: Mutex<[u64; 2]>,
    is_wrong: Mutex<bool>,
}

impl InStep {
    // Returns whether the other worker arrives at this turn too.
    fn meets<R: Wait>(&self, rt: &R, other: usize, n: u64) -> bool
        requires { other < 2 }
    {
        for _ in 0..MOST_LOOKS {
            if self.turns.lock(rt)[other] >= n {
                return true;
            }
        }
        false
    }
}

impl Gate for InStep {
    ghost passes = { λ worker n. Unit {0} };

    fn turn<R: Wait>(&self, rt: &R, worker: u32, n: u64) {
        if worker > 1 || n == 0 {
            *self.is_wrong.lock(rt) = true;
            return;
        }
        let me = worker as usize;
        let mut turns = self.turns.lock(rt);
        let follows = turns[me] == n - 1;
        turns[me] = n;
        drop(turns);
        if !self.meets(rt, 1 - me, n) || !follows {
            *self.is_wrong.lock(rt) = true;
        }
    }
}

#[test]
fn two_workers_in_step(rt: HostRuntime) -> Result<(), Fail> {
    let first = Job::new(0, 0, 9).ok_or("no job")?;
    let second = Job::new(1, 1, 9).ok_or("no job")?;
    let gate = InStep {
        turns: Mutex::new([0; 2]),
        is_wrong: Mutex::new(false),
    };
    let done = two_copies(&rt, rt.alloc(), [first, second], &gate)?;
    assert!(rt; done == (16, 2, Some(Status::Complete)));
    let InStep { turns, is_wrong } = gate;
    assert!(rt; turns.into_inner() == [9, 9]);
    assert!(rt; !is_wrong.into_inner());
    Ok(())
}
