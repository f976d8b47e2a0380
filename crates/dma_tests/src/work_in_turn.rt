//! An engine after a worker's thread and the end of a desk is the same as after the same steps by one thread.

use crate::transfers::{copy, four, issue};
use crate::workers::worked;
use dma_engine::{Engine, EngineFault, Entry, Outcome, Running, Signaller};
use dma_mem::marks::MarkKind;
use dma_mem::segment::Segment;
use dma_mem::transfer::Transfer;
use dma_work::{Job, NoGate, Totals};
use std::alloc::Global;
use std::process::Abort;
use std::sync::Wait;
use std::test::Fail;
use std::thread::Threads;

// Writes four bytes, lets loads fail at 0x182, and sets the flag of event 3.
fn prepare(engine: &mut Engine) -> Result<(), EngineFault> {
    engine.write(0x100, &[1, 2, 3, 4])?;
    let third = Segment {
        addr: 0x182,
        len: 1,
    };
    engine.mark(MarkKind::Reading, third)?;
    engine.raise(3)
}

// Issues a copy that waits for event 3 and signals event 4, and two others, the first of which fails.
fn issue_all(alloc: Global, engine: &mut Engine) -> Result<(), Fail> {
    let (src, dst) = (four(0x100), four(0x200));
    let first = Transfer::new(alloc, &[src], &[dst], Some(3), Some(4))?;
    issue(engine, 0, first)?;
    issue(engine, 1, copy(alloc, 0x180, 0x240)?)?;
    issue(engine, 2, copy(alloc, 0x100, 0x280)?)
}

// Pauses channel 0 before its wait, and steps channel 1 until it is halted.
fn pause_and_halt(engine: &mut Engine) -> Result<(), EngineFault> {
    engine.step(0)?;
    engine.pause(0)?;
    for _ in 0..5 {
        engine.step(1)?;
    }
    Ok(())
}

// Steps the three channels in rotation.
fn step_often(engine: &mut Engine, turns: u32) {
    for turn in 0..turns {
        let _ = engine.step((turn % 3) as u8);
    }
}

// Goes on, so that pauses, halts, flags and marks have an effect: the copies of channels 0 and 2 finish, and that of
// channel 1 fails again.
fn go_on(alloc: Global, engine: &mut Engine) -> Result<(), Fail> {
    engine.resume(0)?;
    engine.terminate(1)?;
    issue(engine, 1, copy(alloc, 0x180, 0x240)?)?;
    step_often(engine, 45);
    Ok(())
}

// Returns a number for the kind of an entry, and up to three numbers of the entry, else 0.
fn numbers_of(entry: &Entry) -> [u32; 4] {
    match entry {
        Entry::Wrote { addr, .. } => [0, *addr, 0, 0],
        Entry::ReadBack { addr, .. } => [1, *addr, 0, 0],
        Entry::Submitted { ch, cookie, .. } => [2, u32::from(*ch), *cookie, 0],
        Entry::Issued { ch } => [3, u32::from(*ch), 0, 0],
        Entry::Passed { ch, event } => [4, u32::from(*ch), u32::from(*event), 0],
        Entry::Signalled { by, event } => [5, u32::from(*event), channel_of(*by), 0],
        Entry::Finished { ch, result, done } => [6, u32::from(*ch), *done, *result as u32],
        Entry::Terminated { ch, done, count } => [7, u32::from(*ch), *done, *count],
        Entry::Marked { kind, segment } => [8, segment.addr, segment.len, *kind as u32],
        Entry::Unmarked => [9, 0, 0, 0],
    }
}

// Returns the channel that signalled, or 8 for the host.
fn channel_of(by: Signaller) -> u32 {
    match by {
        Signaller::Channel(ch) => u32::from(ch),
        Signaller::Host => 8,
    }
}

fn have_same_entries(this: &Engine, that: &Engine) -> bool {
    for (entry, other) in this.history().iter().zip(that.history().iter()) {
        if numbers_of(entry) != numbers_of(other) {
            return false;
        }
    }
    this.history().len() == that.history().len()
}

type State = ([bool; 2], Option<Running>, Option<Outcome>);

fn state_of(engine: &Engine, ch: u8) -> State {
    (
        [engine.paused(ch), engine.halted(ch)],
        engine.running(ch),
        engine.result(ch, 1),
    )
}

fn are_alike(this: &Engine, that: &Engine) -> bool {
    for ch in 0..3 {
        if state_of(this, ch) != state_of(that, ch) {
            return false;
        }
    }
    this.steps() == that.steps() && have_same_entries(this, that)
}

fn have_same_bytes(this: &mut Engine, that: &mut Engine) -> Result<bool, Fail> {
    let these = this.read(0, 0x400)?;
    let those = that.read(0, 0x400)?;
    Ok(these.as_slice() == those.as_slice())
}

// Checks that both engines are alike now, and again after further steps.
fn compare(
    rt: &impl Abort,
    alloc: Global,
    this: &mut Engine,
    that: &mut Engine,
) -> Result<(), Fail> {
    assert!(rt; are_alike(this, that));
    assert!(rt; this.paused(0) && this.halted(1));
    go_on(alloc, this)?;
    go_on(alloc, that)?;
    assert!(rt; are_alike(this, that) && this.finished_all() == 4);
    assert!(rt; have_same_bytes(this, that)?);
    Ok(())
}

fn set_up(alloc: Global, engine: &mut Engine) -> Result<(), Fail> {
    prepare(engine)?;
    issue_all(alloc, engine)?;
    pause_and_halt(engine)?;
    Ok(())
}

fn paused_and_halted(alloc: Global) -> Result<Engine, Fail> {
    let mut engine = Engine::new(alloc, 0x400, 3)?;
    set_up(alloc, &mut engine)?;
    Ok(engine)
}

// Runs two jobs at a desk, which ends with the first `reported` tallies. Checks that its engine equals the other one,
// now and after further steps. Returns the totals, and whether the desk was settled.
fn totals_of<R: Threads + Wait + Sync + Abort + Print>(
    rt: &R,
    alloc: Global,
    jobs: [Job; 2],
    reported: usize,
    mut that: Engine,
) -> Result<(Totals, bool), Fail> {
    let engine = paused_and_halted(alloc)?;
    let (ended, _) = worked(rt, alloc, engine, jobs, &NoGate, reported)?;
    let (mut this, totals, is_settled) = ended;
    compare(rt, alloc, &mut this, &mut that)?;
    Ok((totals, is_settled))
}

// The copies of channels 0 and 1 don't move, and that of channel 2 still runs after seven steps. The channel of the
// other job doesn't exist, so the desk is settled without its tally, but not without the first.
#[test]
fn a_desk_ends_as_the_steps_do(rt: HostRuntime) -> Result<(), Fail> {
    let job = Job::new(0, 2, 21).ok_or("no job")?;
    let idle = Job::new(3, 3, 21).ok_or("no job")?;
    let wanted = Totals {
        steps: 6,
        finished: 0,
        terminated: 0,
    };
    for reported in 0..3 {
        let mut that = paused_and_halted(rt.alloc())?;
        step_often(&mut that, 21);
        let (totals, is_settled) = totals_of(&rt, rt.alloc(), [job, idle], reported, that)?;
        assert!(rt; totals == wanted && is_settled == (reported > 0));
    }
    Ok(())
}
