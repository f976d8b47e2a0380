//! Calls on a desk that run out of memory and are then made again, and what a reader without a ticket sees then.
//! `tests/test_refuse_calls` lets each allocation of this test fail in turn; each row must be out of memory in some
//! run. That a call that is out of memory changes nothing is in its contract.

ghost use Rattle.dma_work.specs.Desk.{Names};

use crate::transfers::{copy, four, issue};
use dma_engine::{Engine, EngineFault, Status};
use dma_mem::marks::MarkKind;
use dma_work::{Desk, DeskName, Parts, ShareFault, ShareFaultKind, StatusReader};
use std::alloc::Global;
use std::marker::Brand;
use std::process::Abort;
use std::sync::Wait;
use std::test::Fail;

#[derive(Clone, Copy)]
enum Asked {
    /// Each call that publishes nothing, except a checkpoint.
    Quiet,
    Submit,
    Terminate,
    Step,
    Checkpoint,
    /// A checkpoint, and then a submit.
    Later,
}

fn make_quiet<N: DeskName>(desk: &mut Desk<N>) -> Result<(), EngineFault> {
    desk.write(0x1000, &[1, 2, 3, 4])?;
    desk.mark(MarkKind::Reading, four(0x1000))?;
    desk.unmark()?;
    desk.raise(3)?;
    desk.issue(0)?;
    desk.pause(0)?;
    desk.resume(0)?;
    desk.read(0x1000, 4)?;
    Ok(())
}

fn submit<N: DeskName, R: Wait>(
    rt: &R,
    alloc: Global,
    desk: &mut Desk<N>,
) -> Result<(), EngineFault> {
    let Ok(transfer) = copy(alloc, 0x1000, 0x2000) else {
        return Err(EngineFault::NoMemory);
    };
    match desk.submit(rt, 0, transfer) {
        Ok(_) => Ok(()),
        Err(refused) => Err(refused.fault),
    }
}

fn step<N: DeskName, R: Wait>(rt: &R, desk: &mut Desk<N>) -> Result<(), EngineFault> {
    let mut tally = desk.tally(0);
    desk.step(rt, 0, &mut tally)?;
    Ok(())
}

fn make<N: DeskName, R: Wait>(
    rt: &R,
    alloc: Global,
    desk: &mut Desk<N>,
    asked: Asked,
) -> Result<(), EngineFault> {
    match asked {
        Asked::Quiet => make_quiet(desk),
        Asked::Submit => submit(rt, alloc, desk),
        Asked::Terminate => {
            desk.terminate(rt, 0)?;
            Ok(())
        }
        Asked::Step => step(rt, desk),
        Asked::Checkpoint => desk.checkpoint(),
        Asked::Later => {
            desk.checkpoint()?;
            submit(rt, alloc, desk)
        }
    }
}

// The statuses of cookies 1 to 3 of channel 0.
type Seen = [Option<Status>; 3];

const DONE: Option<Status> = Some(Status::Complete);

const GIVEN: Option<Status> = Some(Status::InProgress);

const NONE: Option<Status> = Some(Status::Unknown);

fn seen(reader: &mut StatusReader) -> Seen {
    [
        reader.status(0, 1),
        reader.status(0, 2),
        reader.status(0, 3),
    ]
}

// Returns whether each of these readers sees these statuses.
fn all_see(readers: &mut [StatusReader], wanted: Seen) -> bool {
    let mut is_right = true;
    for reader in readers.iter_mut() {
        is_right &= seen(reader) == wanted;
    }
    is_right
}

// Returns whether the readers of a desk, if it has any, see these statuses, and so does the next that the desk returns.
// As long as there are readers, the desk returns no other.
fn are_seen<N: DeskName>(desk: &mut Desk<N>, mut readers: Vec<StatusReader>, wanted: Seen) -> bool {
    let is_full = readers.is_empty() || desk.reader().is_none();
    let is_right = is_full && all_see(&mut readers, wanted);
    drop(readers);
    match desk.reader() {
        Some(mut next) => is_right && seen(&mut next) == wanted,
        None => false,
    }
}

// A call, the name of its row, and what a reader sees after it.
type Row = (&'static str, Asked, Seen);

// Makes a call on a desk, and once more if it is out of memory. Returns whether the last of these succeeded, readers
// then see the statuses of the row, and they saw the first two cookies before the call.
fn at_a_desk<N: DeskName, R: Wait + Print>(
    rt: &R,
    alloc: Global,
    parts: Parts,
    mut readers: Vec<StatusReader>,
    row: Row,
) -> Result<bool, Fail>
    requires { Names N.opening N.base N.log parts }
{
    let (name, asked, wanted) = row;
    let mut desk = Desk::<N>::new(parts);
    let was_seen = all_see(&mut readers, [DONE, GIVEN, NONE]);
    let first = make(rt, alloc, &mut desk, asked);
    let second = match first {
        Err(EngineFault::NoMemory) => make(rt, alloc, &mut desk, asked),
        other => other,
    };
    let is_seen = are_seen(&mut desk, readers, wanted);
    let last = desk.reader();
    desk.close(rt);
    let is_over = match last {
        Some(mut reader) => seen(&mut reader) == [None; 3],
        None => false,
    };
    if first.is_err() {
        println!(rt; "refused Desk {name}")?;
    }
    Ok(was_seen && second.is_ok() && is_seen && is_over)
}

/// Returns the parts of a desk over an engine, with `count` readers. Makes them once more if they are out of memory.
pub fn parts_of<R: Wait + Abort + Print>(
    rt: &R,
    alloc: Global,
    engine: Engine,
    count: usize,
) -> Result<(Parts, Vec<StatusReader>), Fail> {
    match Parts::new(rt, alloc, engine, count) {
        Ok(made) => Ok(made),
        Err(refused) => parts_again(rt, alloc, refused, count),
    }
}

fn parts_again<R: Wait + Abort + Print>(
    rt: &R,
    alloc: Global,
    refused: ShareFault,
    count: usize,
) -> Result<(Parts, Vec<StatusReader>), Fail> {
    let ShareFault { fault, engine } = refused;
    assert_eq!(rt; fault, ShareFaultKind::NoMemory);
    let _ = println!(rt; "refused Parts::new");
    match Parts::new(rt, alloc, engine, count) {
        Ok(made) => Ok(made),
        Err(_) => Err(Fail::from("no parts")),
    }
}

fn step_often(engine: &mut Engine, steps: u32) -> Result<(), EngineFault> {
    for _ in 0..steps {
        engine.step(0)?;
    }
    Ok(())
}

// Returns an engine whose lists have no room, since a checkpoint freed it. On channel 0 cookie 1 is finished, and
// cookie 2 is issued and has taken some steps.
fn without_room(alloc: Global, steps: u32) -> Result<Engine, Fail> {
    let mut engine = Engine::new(alloc, 0x4000, 1)?;
    prepare(alloc, &mut engine, steps)?;
    Ok(engine)
}

fn prepare(alloc: Global, engine: &mut Engine, steps: u32) -> Result<(), Fail> {
    issue(engine, 0, copy(alloc, 0x1000, 0x2000)?)?;
    step_often(engine, 9)?;
    issue(engine, 0, copy(alloc, 0x1000, 0x2000)?)?;
    engine.checkpoint()?;
    step_often(engine, steps)?;
    Ok(())
}

// Makes the call of a row on a desk with `count` readers, after `steps` steps of the second copy, and again if it is out
// of memory. Returns whether it succeeds and the readers see the row's statuses.
fn is_made_again<R: Wait + Abort + Print>(
    rt: &R,
    alloc: Global,
    steps: u32,
    count: usize,
    row: Row,
) -> Result<bool, Fail> {
    println!(rt; "row Parts::new\nrow Desk {}", row.0)?;
    let engine = without_room(alloc, steps)?;
    let (parts, readers) = parts_of(rt, alloc, engine, count)?;
    at_a_desk::<Brand, _>(rt, alloc, parts, readers, row)
}

#[test]
fn calls_are_made_again(rt: HostRuntime) -> Result<(), Fail> {
    // A row has the call's name, the call, the steps of the second copy before it, the number of readers, and the
    // statuses after it.
    let rows = [
        (
            "calls that publish nothing",
            Asked::Quiet,
            0,
            2,
            [DONE, GIVEN, NONE],
        ),
        ("submit", Asked::Submit, 0, 0, [DONE, GIVEN, GIVEN]),
        ("terminate", Asked::Terminate, 0, 1, [DONE, DONE, NONE]),
        ("step that finishes", Asked::Step, 8, 2, [DONE, DONE, NONE]),
        ("checkpoint", Asked::Checkpoint, 0, 2, [DONE, GIVEN, NONE]),
        ("a submit then", Asked::Later, 0, 2, [DONE, GIVEN, GIVEN]),
    ];
    for (name, asked, steps, count, wanted) in rows {
        let is_right = is_made_again(&rt, rt.alloc(), steps, count, (name, asked, wanted))?;
        assert!(rt; is_right, "{name}");
    }
    Ok(())
}
