//! What a reader answers after tickets that it learnt, and while two jobs run that a gate holds.

ghost use Rattle.std.specs.Prelude.{◌≡◌, IfOk};
ghost use Rattle.dma_work.specs.Desk.{Names};

use crate::transfers::copy;
use dma_engine::{Engine, Status};
use dma_work::{
    Closed, DeskName, Gate, Job, MissingTally, NoGate, Parts, Receipt, Shared, StatusReader, Tally,
    run_workers, settle,
};
use std::alloc::Global;
use std::marker::Brand;
use std::process::Abort;
use std::sync::{Mutex, MutexGuard, Wait};
use std::test::Fail;
use std::thread;
use std::thread::Threads;

// How often the reader is asked while the jobs run.
const ANSWERS: u64 = 10_000;

// How many of these answers a worker waits for before its last turn.
const HELD: u64 = 5_000;

// The most times that a held worker looks for them.
const MOST_LOOKS: u64 = 20_000_000;

// The last turn of a job, in which its copy finishes.
const LAST_TURN: u64 = 9;

// Holds each worker before its last turn until the reader has answered `HELD` times.
#[derive(Drop)]
struct UntilAsked {
    // how often the reader has answered
    asked: Mutex<u64>,
}

impl UntilAsked {
    // Counts an answer.
    fn count<R: Wait>(&self, rt: &R) {
        let mut asked = self.asked.lock(rt);
        *asked = asked.saturating_add(1);
    }

    // Waits for the answers, but not forever.
    fn hold<R: Wait>(&self, rt: &R) {
        for _ in 0..MOST_LOOKS {
            if *self.asked.lock(rt) >= HELD {
                return;
            }
        }
    }
}

impl Gate for UntilAsked {
    ghost passes = { λ worker n. Unit {0} };

    fn turn<R: Wait>(&self, rt: &R, _worker: u32, n: u64) {
        if n == LAST_TURN {
            self.hold(rt);
        }
    }
}

/// Submits a copy of four bytes to a channel and issues it, and lets the reader learn the ticket. Returns the cookie.
pub fn submit<N: DeskName, R: Wait>(
    rt: &R,
    alloc: Global,
    shared: &Shared<N>,
    reader: &mut StatusReader,
    ch: u8,
) -> Result<u32, Fail>
    requires { (N.log ≡ reader.old.log) × (N.base ≡ reader.old.base) }
    ensures { (N.log ≡ reader.new.log) × (N.base ≡ reader.new.base) }
{
    let copy = copy(alloc, 0x1000, 0x2000 + 0x1000 * u32::from(ch))?;
    let mut desk = shared.desk().lock(rt);
    let submitted = desk.submit(rt, ch, copy);
    let issued = desk.issue(ch);
    MutexGuard::unlock(desk);
    let Ok(Receipt { cookie, ticket, .. }) = submitted else {
        return Err(Fail::from("submit was refused"));
    };
    reader.learn(ticket);
    if issued? != 1 {
        return Err(Fail::from("not one copy was issued"));
    }
    Ok(cookie)
}

// Terminates channel 0, and lets the reader learn the ticket. Returns the number of aborted cookies and the last cookie.
fn terminate<N: DeskName, R: Wait>(
    rt: &R,
    shared: &Shared<N>,
    reader: &mut StatusReader,
) -> Result<(u32, u32), Fail>
    requires { (N.log ≡ reader.old.log) × (N.base ≡ reader.old.base) }
    ensures { (N.log ≡ reader.new.log) × (N.base ≡ reader.new.base) }
{
    let mut desk = shared.desk().lock(rt);
    let terminated = desk.terminate(rt, 0);
    MutexGuard::unlock(desk);
    let Closed {
        count,
        through,
        ticket,
        ..
    } = terminated?;
    reader.learn(ticket);
    Ok((count, through))
}

// Asks the reader between the calls of a desk, at which a job finishes the first copy. Returns its tally.
fn ask_between_calls<N: DeskName + Send + Sync, R: Threads + Wait + Sync + Abort>(
    rt: &R,
    alloc: Global,
    shared: &Shared<N>,
    reader: &mut StatusReader,
) -> Result<Vec<Tally<N>>, Fail>
    requires { (N.log ≡ reader.old.log) × (N.base ≡ reader.old.base) }
{
    assert!(rt; submit(rt, alloc, shared, reader, 0)? == 1);
    assert!(rt; reader.status(0, 1) == Some(Status::InProgress));
    assert!(rt; reader.status(0, 2) == Some(Status::Unknown));
    let job = Job::new(0, 0, LAST_TURN).ok_or("no job")?;
    let tallies = run_workers(rt, alloc, shared, &[job], &NoGate)?;
    assert!(rt; submit(rt, alloc, shared, reader, 0)? == 2);
    assert!(rt; reader.status(0, 1) == Some(Status::Complete));
    assert!(rt; reader.status(0, 2) == Some(Status::InProgress));
    assert!(rt; terminate(rt, shared, reader)? == (1, 2));
    assert!(rt; reader.status(0, 2) == Some(Status::Complete));
    Ok(tallies)
}

// Returns how many cookies channel 0 of a desk has given.
fn given<N: DeskName, R: Wait>(rt: &R, shared: &Shared<N>) -> u32 {
    let desk = shared.desk().lock(rt);
    let given = desk.engine().used(0);
    MutexGuard::unlock(desk);
    given
}

// Settles a desk without its tallies, which is refused, and then with them. The refusal hands back both.
fn settle_twice<N: DeskName, R: Wait + Abort>(
    rt: &R,
    alloc: Global,
    shared: Shared<N>,
    tallies: Vec<Tally<N>>,
) -> Result<(), Fail> {
    let shared = match settle(rt, shared, Vec::new(alloc)) {
        Ok(_) => return Err(Fail::from("no tally was missing")),
        Err(missing) => {
            let MissingTally {
                shared,
                tallies,
                book,
            } = missing;
            assert!(rt; tallies.is_empty() && given(rt, &shared) == 2);
            assert!(rt; (book.steps, book.finished, book.terminated) == (8, 1, 1));
            shared
        }
    };
    match settle(rt, shared, tallies) {
        Ok((engine, totals)) => {
            assert!(rt; (totals.steps, totals.finished, totals.terminated) == (8, 1, 1));
            assert!(rt; engine.used(0) == 2);
            Ok(())
        }
        Err(missing) => {
            let MissingTally {
                shared,
                tallies: _,
                book: _,
            } = missing;
            shared.close(rt);
            Err(Fail::from("a tally was missing"))
        }
    }
}

fn at_a_desk<N: DeskName + Send + Sync, R: Threads + Wait + Sync + Abort>(
    rt: &R,
    alloc: Global,
    parts: Parts,
    mut reader: StatusReader,
) -> Result<(), Fail>
    requires names { Names N.opening N.base N.log parts }
    requires follows { (N.log ≡ reader.log) × (N.base ≡ reader.base) }
{
    let shared = Shared::<N>::new(parts);
    match ask_between_calls(rt, alloc, &shared, &mut reader) {
        Ok(tallies) => settle_twice(rt, alloc, shared, tallies)?,
        Err(fail) => {
            shared.close(rt);
            return Err(fail);
        }
    }
    assert!(rt;
        !matches!(
            &reader.status(0, 1),
            Some(Status::InProgress | Status::Unknown)
        )
    );
    Ok(())
}

// Asks for cookie 1 of channel 0 many times, and lets a gate count the answers. Returns the reader, and whether the
// answers were right: always known, in progress as long as the workers are held, and complete from the first such answer
// on.
fn poll<R: Wait>(rt: &R, mut reader: StatusReader, gate: &UntilAsked) -> (StatusReader, bool) {
    let (mut is_right, mut is_over) = (true, false);
    for answered in 0..ANSWERS {
        match reader.status(0, 1) {
            Some(Status::Complete) => {
                is_right &= answered >= HELD;
                is_over = true;
            }
            Some(Status::InProgress) => is_right &= !is_over,
            _ => is_right = false,
        }
        gate.count(rt);
    }
    (reader, is_right)
}

// Polls while two jobs finish a copy each, which they can't before the reader has answered `HELD` times. Returns their
// tallies.
fn poll_while_they_work<N: DeskName + Send + Sync, R: Threads + Wait + Sync + Abort>(
    rt: &R,
    alloc: Global,
    shared: &Shared<N>,
    mut reader: StatusReader,
) -> Result<Vec<Tally<N>>, Fail>
    requires { (N.log ≡ reader.log) × (N.base ≡ reader.base) }
{
    assert!(rt; submit(rt, alloc, shared, &mut reader, 0)? == 1);
    assert!(rt; submit(rt, alloc, shared, &mut reader, 1)? == 1);
    assert!(rt; reader.status(0, 1) == Some(Status::InProgress));
    let first = Job::new(0, 0, LAST_TURN).ok_or("no job")?;
    let second = Job::new(1, 1, LAST_TURN).ok_or("no job")?;
    let gate = UntilAsked {
        asked: Mutex::new(0),
    };
    let ((mut reader, is_right), tallies) = thread::join(
        rt,
        || poll(rt, reader, &gate),
        || run_workers(rt, alloc, shared, &[first, second], &gate),
    );
    assert!(rt; is_right && reader.status(0, 1) == Some(Status::Complete));
    Ok(tallies?)
}

fn polled_at_a_desk<N: DeskName + Send + Sync, R: Threads + Wait + Sync + Abort>(
    rt: &R,
    alloc: Global,
    parts: Parts,
    reader: StatusReader,
) -> Result<(u64, u32), Fail>
    requires names { Names N.opening N.base N.log parts }
    requires follows { (N.log ≡ reader.log) × (N.base ≡ reader.base) }
{
    let shared = Shared::<N>::new(parts);
    let polled = poll_while_they_work(rt, alloc, &shared, reader);
    let engine = shared.close(rt);
    polled?;
    Ok((engine.steps(), engine.used(0)))
}

/// Returns the parts of a desk over an engine, and its reader.
pub fn parts_of<R: Wait>(
    rt: &R,
    alloc: Global,
    engine: Engine,
) -> Result<(Parts, StatusReader), Fail>
    ensures { IfOk result (λ made. (made.0.log ≡ made.1.log) × (made.0.base ≡ made.1.base)) }
{
    match Parts::new(rt, alloc, engine, 1) {
        Ok((parts, mut readers)) => {
            let Some(reader) = readers.pop() else {
                unreachable!();
            };
            Ok((parts, reader))
        }
        Err(_) => Err(Fail::from("no parts")),
    }
}

fn asked<R: Threads + Wait + Sync + Abort>(rt: &R, alloc: Global) -> Result<(), Fail> {
    let engine = Engine::new(alloc, 0x4000, 2)?;
    let (parts, reader) = parts_of(rt, alloc, engine)?;
    at_a_desk::<Brand, R>(rt, alloc, parts, reader)
}

fn polled<R: Threads + Wait + Sync + Abort>(rt: &R, alloc: Global) -> Result<(u64, u32), Fail> {
    let engine = Engine::new(alloc, 0x4000, 2)?;
    let (parts, reader) = parts_of(rt, alloc, engine)?;
    polled_at_a_desk::<Brand, R>(rt, alloc, parts, reader)
}

#[test]
fn a_reader_knows_what_it_learnt(rt: HostRuntime) -> Result<(), Fail> {
    asked(&rt, rt.alloc())
}

#[test]
fn a_complete_cookie_stays_complete(rt: HostRuntime) -> Result<(), Fail> {
    assert!(rt; polled(&rt, rt.alloc())? == (16, 1));
    Ok(())
}
