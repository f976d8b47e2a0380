//! A shift: a desk that works on the jobs of a rota, at which nothing but their turns can be taken.

ghost use Rattle.std.specs.Prelude.{◌≡◌, ◌⊎◌, IfOk, IsTrue, MatchBool, OnErr, OnOk, false, length};
ghost use Rattle.std.specs.List.{All};
ghost use Rattle.dma_work.specs.Desk.{Names, no_totals};
ghost use Rattle.dma_work.specs.Shift.{AreNewSeats, HasNoTurn, IsDone, LacksMemory, MayRunOut, TakesATurn, TakesNoTurn, TakesStep, TookAllTurns};
ghost use Rattle.dma_work.specs.inner.InTurn.{GoesOn};

use crate::desk::{Desk, DeskName};
use crate::rota::{Rota, Seats};
use crate::worker::Tally;
use dma_engine::{EngineFault, NoMemory};
use std::marker::Model;
use std::sync::{Mutex, MutexGuard, Wait};
use std::thread::{self, Scope, Threads};

/// A desk that works on the jobs of a rota. Until the shift ends, nothing but their turns can be taken. Contracts see
/// the desk, a seat for each job, and whether a turn was out of memory: then no further turn is taken.
///
/// Its type guarantees that nothing was done since the shift began but the turns that the seats count. It also
/// guarantees that the next turn of some worker's job takes memory if a turn was out of memory.
pub struct Shift<N: DeskName> {
    desk: Desk<N>,
    seats: Seats,
    is_starved: bool,
}

impl<N: DeskName> Model for Shift<N> {
    ghost use Rattle.dma_work.specs.Shift.{ShiftState};
    ghost use Rattle.dma_work.specs.inner.InTurn.{IsAtWork};

    ghost Value = { ShiftState };

    ghost view = { λ s. record { desk = s.desk; seats = s.seats; is_starved = s.is_starved } };

    ghost invariant = { λ s.
        IsAtWork N.opening N.jobs s.desk.engine.view s.desk.book s.seats s.is_starved };
}

/// Takes a step of a channel. If the step takes memory and there is none, it fails and takes none.
fn take_step<N: DeskName, R: Wait>(rt: &R, desk: &mut Desk<N>, ch: u8) -> Result<(), NoMemory>
    ensures ok { OnOk result (TakesStep ch desk.old desk.new) }
    ensures err { OnErr result (LacksMemory ch desk.old desk.new) }
{
    let mut tally = Tally::new(0);
    match desk.step(rt, ch, &mut tally) {
        Err(EngineFault::NoMemory) => Err(NoMemory),
        _ => Ok(()),
    }
}

impl<N: DeskName> Shift<N> {
    /// Gives a desk a new name, with an empty book, and begins to work on the jobs of a rota. The new name has the
    /// engine's present view, the log and the counts of the old name, and the jobs.
    pub fn new<M: DeskName>(desk: Desk<M>, rota: Rota) -> Shift<N>
        requires names { Names N.opening N.base N.log
            (record { engine = desk.engine; base = M.base; log = M.log }) }
        requires jobs { N.jobs ≡ rota }
        ensures desk { result.desk
            ≡ record { engine = desk.engine; book = no_totals; before = desk.before } }
        ensures seats { AreNewSeats rota result.seats }
        ensures starved { result.is_starved ≡ false }
    {
        Shift {
            desk: desk.named_anew(),
            seats: rota.into_seats(),
            is_starved: false,
        }
    }

    /// Returns the number of workers, one for each job.
    pub fn workers(&self) -> usize
        ensures { result ≡ length self.now.seats }
    {
        self.seats.len()
    }

    /// Takes the next turn of a worker's job: a step of the channel that is next in the job's rotation. Returns false
    /// if it takes none: the worker has no turn left, or a turn was out of memory, this one or one before.
    pub fn turn<R: Wait>(&mut self, rt: &R, worker: usize) -> bool
        ensures { MatchBool result (TakesATurn worker self.old self.new)
            (TakesNoTurn worker self.old self.new) }
    {
        if self.is_starved {
            return false;
        }
        let Some((ch, seat)) = self.seats.next(worker) else {
            return false;
        };
        match take_step(rt, &mut self.desk, ch) {
            Ok(()) => {
                self.seats.set(worker, seat);
                true
            }
            Err(_) => {
                self.is_starved = true;
                false
            }
        }
    }

    // Takes the turns that are left of a worker's job, unless one is out of memory, or one was.
    fn finish_job<R: Wait>(&mut self, rt: &R, worker: usize)
        ensures over { IsTrue self.new.is_starved ⊎ HasNoTurn worker self.new.seats }
        ensures goes_on { GoesOn self.old self.new }
    {
        let left = self.seats.left(worker);
        for _ in 0..left {
            if !self.turn(rt, worker) {
                return;
            }
        }
    }

    // Takes the turns that are left. Fails if one is out of memory, or one was.
    fn finish<R: Wait>(&mut self, rt: &R) -> Result<(), NoMemory>
        ensures ok { OnOk result (All IsDone self.new.seats) }
        ensures err { OnErr result (IsTrue self.new.is_starved) }
    {
        for worker in 0..self.workers() {
            self.finish_job(rt, worker);
        }
        if self.is_starved {
            return Err(NoMemory);
        }
        Ok(())
    }

    /// Takes the turns that are left, and returns the desk. Then all turns of the jobs were taken, one after another in
    /// some order, and nothing else was done since the shift began. The book has their sums. If a turn is out of
    /// memory, or one was, it closes the desk and fails.
    pub fn end<R: Wait>(mut self, rt: &R) -> Result<Desk<N>, NoMemory>
        ensures ok { IfOk result (λ desk.
            TookAllTurns N.opening N.jobs desk.engine.view desk.book) }
        ensures err { OnErr result (MayRunOut N.opening N.jobs) }
    {
        let finished = self.finish(rt);
        let Shift {
            desk,
            seats: _,
            is_starved: _,
        } = self;
        match finished {
            Ok(()) => Ok(desk),
            Err(error) => {
                desk.close(rt);
                Err(error)
            }
        }
    }
}

// Takes the turns of a worker's job, at most 2^64 - 1, and holds the lock for each of them.
fn work<N: DeskName, R: Wait>(rt: &R, shift: &Mutex<Shift<N>>, worker: usize) {
    for _ in 0..u64::MAX {
        let mut guard = shift.lock(rt);
        let is_taken = guard.turn(rt, worker);
        MutexGuard::unlock(guard);
        if !is_taken {
            return;
        }
    }
}

// Starts a thread for each worker for which one can be started.
fn begin_all<'a, N: DeskName + Send + Sync, R: Threads + Wait + Sync, E>(
    scope: &Scope<'a, E>,
    rt: &'a R,
    shift: &'a Mutex<Shift<N>>,
    workers: usize,
) {
    for worker in 0..workers {
        let _ = scope.spawn(move || work(rt, shift, worker));
    }
}

// Takes the turns of a shift, those of each job in a thread of its own, until the threads have ended.
fn work_all<N: DeskName + Send + Sync, R: Threads + Wait + Sync>(
    rt: &R,
    shift: &Mutex<Shift<N>>,
    workers: usize,
) {
    thread::scope(
        thread::scope_env(),
        rt,
        move |scope| begin_all(scope, rt, shift, workers),
    );
}

/// Takes all turns of a shift, those of each job in a thread of its own, and ends it. A job that gets no thread is done
/// on the calling thread after the others. If a turn is out of memory, no further one is taken, and it fails.
pub fn run_shift<N: DeskName + Send + Sync, R: Threads + Wait + Sync>(
    rt: &R,
    shift: Shift<N>,
) -> Result<Desk<N>, NoMemory>
    ensures ok { IfOk result (λ desk. TookAllTurns N.opening N.jobs desk.engine.view desk.book) }
    ensures err { OnErr result (MayRunOut N.opening N.jobs) }
{
    let workers = shift.workers();
    let shared = Mutex::new(shift);
    work_all(rt, &shared, workers);
    shared.into_inner().end(rt)
}
