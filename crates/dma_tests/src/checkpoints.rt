//! What a reader sees over a checkpoint.

ghost use Rattle.std.specs.Prelude.{◌≡◌};
ghost use Rattle.dma_work.specs.Desk.{Names};

use crate::statuses::{parts_of, submit};
use dma_engine::{Engine, EngineFault, Status};
use dma_work::{DeskName, Job, NoGate, Parts, Shared, StatusReader, run_workers};
use std::alloc::Global;
use std::marker::Brand;
use std::sync::{MutexGuard, Wait};
use std::test::Fail;
use std::thread::Threads;

fn checkpoint<N: DeskName, R: Wait>(rt: &R, shared: &Shared<N>) -> Result<(), EngineFault> {
    let mut desk = shared.desk().lock(rt);
    let made = desk.checkpoint();
    MutexGuard::unlock(desk);
    made
}

// The cookies of two copies, and whether the first is complete before a checkpoint and after it.
type Answers = ([u32; 2], [Option<Status>; 2]);

// Lets a job finish a copy, makes a checkpoint, and submits another copy.
fn ask_over_a_checkpoint<N: DeskName + Send + Sync, R: Threads + Wait + Sync>(
    rt: &R,
    alloc: Global,
    shared: &Shared<N>,
    reader: &mut StatusReader,
) -> Result<Answers, Fail>
    requires { (N.log ≡ reader.old.log) × (N.base ≡ reader.old.base) }
{
    let first = submit(rt, alloc, shared, reader, 0)?;
    let job = Job::new(0, 0, 9).ok_or("no job")?;
    run_workers(rt, alloc, shared, &[job], &NoGate)?;
    let before = reader.status(0, 1);
    checkpoint(rt, shared)?;
    let after = reader.status(0, 1);
    let second = submit(rt, alloc, shared, reader, 0)?;
    Ok(([first, second], [before, after]))
}

fn asked_at_a_desk<N: DeskName + Send + Sync, R: Threads + Wait + Sync>(
    rt: &R,
    alloc: Global,
    parts: Parts,
    mut reader: StatusReader,
) -> Result<(Answers, u32), Fail>
    requires names { Names N.opening N.base N.log parts }
    requires follows { (N.log ≡ reader.log) × (N.base ≡ reader.base) }
{
    let shared = Shared::<N>::new(parts);
    let answers = ask_over_a_checkpoint(rt, alloc, &shared, &mut reader);
    let engine = shared.close(rt);
    Ok((answers?, engine.forgotten(0)))
}

fn asked<R: Threads + Wait + Sync>(rt: &R, alloc: Global) -> Result<(Answers, u32), Fail> {
    let engine = Engine::new(alloc, 0x4000, 1)?;
    let (parts, reader) = parts_of(rt, alloc, engine)?;
    asked_at_a_desk::<Brand, R>(rt, alloc, parts, reader)
}

/// A reader that saw a cookie complete sees it so after a checkpoint, which forgets how it finished, and the next
/// cookie of the channel follows it.
#[test]
fn a_cookie_stays_complete_over_a_checkpoint(rt: HostRuntime) -> Result<(), Fail> {
    let ((cookies, statuses), forgotten) = asked(&rt, rt.alloc())?;
    assert!(rt; cookies == [1, 2] && forgotten == 1);
    assert!(rt; statuses == [Some(Status::Complete); 2]);
    Ok(())
}
