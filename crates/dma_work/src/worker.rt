//! Workers: the tallies of their steps, the turns of their jobs, and the worker that borrows a desk for each step.

ghost use Rattle.std.specs.Prelude.{◌≡◌, ◌+◌, ◌<◌, ◌^◌, IsTrue, false};
ghost use Rattle.dma_engine.specs.Interleaved.{rotation};
ghost use Rattle.dma_engine.specs.Turn.{finishes_in, steps_in};
ghost use Rattle.dma_work.specs.Desk.{AddUp, Differ, counted, new_tally, stepped_book};
ghost use Rattle.dma_work.specs.Rotation.{StepsInTurn};
ghost use Rattle.dma_work.specs.Tallies.{TookTurnsAt};

use crate::desk::{Desk, DeskName};
use crate::gate::Gate;
use crate::job::Job;
use crate::lock::locked;
use dma_engine::{EngineFault, Turn};
use std::marker::{Model, PhantomData};
use std::sync::{Mutex, MutexGuard, Wait};

/// Counts of what was done through a desk, by one worker or by all.
#[derive(Clone, Copy, Default, PartialEq, Eq)]
pub struct Totals {
    /// The number of steps that executed an instruction or finished a cookie.
    pub steps: u64,
    /// The number of cookies that steps finished.
    pub finished: u64,
    /// The number of cookies that terminates aborted.
    pub terminated: u64,
}

/// A worker's counts of the steps that it took of the desk with this name. They start at 0, only the step of that desk
/// increases them, and a tally can't be copied.
#[derive(Drop)]
pub struct Tally<N: DeskName> {
    worker: u32,
    turns: u64,
    counts: Totals,
    of: PhantomData<N>,
}

impl<N: DeskName> Model for Tally<N> {
    ghost use Rattle.std.specs.Prelude.{◌≤◌};
    ghost use Rattle.dma_work.specs.Desk.{TallyCounts};

    ghost Value = { TallyCounts };

    ghost view = { λ t. record {
      worker = t.worker;
      turns = t.turns;
      steps = t.counts.steps;
      finishes = t.counts.finished;
    } };

    ghost invariant = { λ t. (t.counts.steps ≤ t.turns) × (t.counts.finished ≤ t.turns) };
}

impl<N: DeskName> Tally<N> {
    /// Returns a tally with nothing counted.
    pub(crate) fn new(worker: u32) -> Tally<N>
        ensures { result ≡ new_tally worker }
    {
        Tally {
            worker,
            turns: 0,
            counts: Totals::default(),
            of: PhantomData,
        }
    }

    /// Counts one more turn, with its result.
    pub(crate) fn count(&mut self, answer: &Result<Turn, EngineFault>)
        requires { self.old.turns < u64.MAX }
        ensures { self.new ≡ counted answer.now self.old }
    {
        self.turns += 1;
        self.counts.count(answer);
    }

    /// Returns the worker's number.
    pub fn worker(&self) -> u32
        ensures { result ≡ self.now.worker }
    {
        self.worker
    }

    /// Returns the number of turns, refused steps included.
    pub fn turns(&self) -> u64
        ensures { result ≡ self.now.turns }
    {
        self.turns
    }

    /// Returns the number of these steps that executed an instruction or finished a cookie.
    pub fn steps(&self) -> u64
        ensures { result ≡ self.now.steps }
    {
        self.counts.steps
    }

    /// Returns the number of these steps that finished a cookie.
    pub fn finishes(&self) -> u64
        ensures { result ≡ self.now.finishes }
    {
        self.counts.finished
    }
}

impl Totals {
    /// Counts what the result of a step adds: a step for `Moved`, and a step and a finished cookie for `Finished`.
    pub(crate) fn count(&mut self, answer: &Result<Turn, EngineFault>)
        requires steps { self.old.steps + steps_in answer.now < 2 ^ 64 }
        requires finished { self.old.finished + finishes_in answer.now < 2 ^ 64 }
        ensures { self.new ≡ stepped_book self.old answer.now }
    {
        match answer {
            Ok(Turn::Moved) => self.steps += 1,
            Ok(Turn::Finished { .. }) => {
                self.steps += 1;
                self.finished += 1;
            }
            _ => {}
        }
    }

    /// Returns whether the tallies' steps and finishes add up to these totals.
    pub(crate) fn are_sums_of<N: DeskName>(&self, tallies: &[Tally<N>]) -> bool
        ensures yes { IsTrue result → AddUp tallies.now self.now }
        ensures no { result ≡ false → Differ tallies.now self.now }
    {
        // Each tally is subtracted from what remains, since a sum could wrap.
        let (mut steps, mut finishes) = (self.steps, self.finished);
        for tally in tallies {
            if steps < tally.counts.steps || finishes < tally.counts.finished {
                return false;
            }
            steps -= tally.counts.steps;
            finishes -= tally.counts.finished;
        }
        steps == 0 && finishes == 0
    }
}

/// Takes the turns of a worker, each of which steps one channel. The worker passes the gate before each turn. Contracts
/// see the worker's number, how many turns it has taken, and the effect of a turn on a channel.
pub trait Stepper<G: Gate> {
    ghost use Rattle.std.specs.Prelude.{ℕ};

    ghost worker: { Self → ℕ };

    ghost taken: { Self → ℕ };

    ghost acts: { Self → ℕ → Self → Type 0 };

    /// Returns the worker's number.
    fn worker(&self) -> u32
        ensures { result ≡ worker self.now };

    /// Returns the number of turns that it has taken.
    fn taken(&self) -> u64
        ensures { result ≡ taken self.now };

    /// Takes a turn, which steps a channel. The worker has passed the gate before this turn, and has taken fewer than
    /// 2^64 - 1 turns.
    fn turn<R: Wait>(&mut self, rt: &R, ch: u8)
        requires few { taken self.old < u64.MAX }
        requires passed { G.passes (worker self.old) (taken self.old + 1) }
        ensures worker { worker self.new ≡ worker self.old }
        ensures taken { taken self.new ≡ taken self.old + 1 }
        ensures acts { acts self.old ch self.new };
}

/// Takes the job's turns. In each turn the worker passes the gate, and then the stepper steps one channel: the job's
/// channels in rotation, from the first one on (profile). The stepper does nothing else. With the turns that it took
/// before, these are at most 2^64 - 1.
pub fn take_turns<R: Wait, G: Gate, S: Stepper<G>>(rt: &R, stepper: &mut S, job: Job, gate: &G)
    requires { S.taken stepper.old + job.turns < 2 ^ 64 }
    ensures worker { S.worker stepper.new ≡ S.worker stepper.old }
    ensures taken { S.taken stepper.new ≡ S.taken stepper.old + job.turns }
    ensures acts { StepsInTurn S.acts
        (rotation job.first job.last job.turns) stepper.old stepper.new }
{
    let (worker, taken) = (stepper.worker(), stepper.taken());
    let mut ch = job.first;
    for n in 0..job.turns {
        gate.turn(rt, worker, taken + n + 1);
        stepper.turn(rt, ch);
        ch = if ch < job.last { ch + 1 } else { job.first };
    }
}

/// Uses a value that is lent to it. Contracts see when it can do so, and what this does to itself and to the value.
pub trait Borrower<D> {
    ghost can: { Self → Type 0 };

    ghost does: { Self → D → Self → D → Type 0 };

    /// Uses the value.
    fn borrow<R: Wait>(&mut self, rt: &R, lent: &mut D)
        requires { can self.old }
        ensures { does self.old lent.old self.new lent.new };
}

/// Lends a value. Contracts see which value it lends, and which value it gets back.
pub trait Lender<D> {
    ghost lends: { Self → D → D → Self → Type 0 };

    /// Lends the value to a borrower, once.
    fn lend<R: Wait, B: Borrower<D>>(&mut self, rt: &R, to: &mut B)
        requires { B.can to.old }
        ensures { (d : D) × (e : D) × lends self.old d e self.new × B.does to.old d to.new e };
}

/// Lends the value behind a lock, which it holds while the value is used.
#[derive_where(Clone, Copy)]
pub(crate) struct Locked<'a, D> {
    pub lock: &'a Mutex<D>,
}

impl<'a, D> Lender<D> for Locked<'a, D> {
    // Contracts don't see which value a lock has.
    ghost lends = { λ before lent back after. Unit {0} };

    /// Takes the lock, lends the value, and releases the lock.
    fn lend<R: Wait, B: Borrower<D>>(&mut self, rt: &R, to: &mut B) {
        let mut value = locked(rt, self.lock);
        to.borrow(rt, &mut value);
        MutexGuard::unlock(value);
    }
}

// One step of a channel, counted in a tally.
#[derive(Drop)]
struct StepAt<N: DeskName> {
    ch: u8,
    tally: Tally<N>,
}

impl<N: DeskName> Borrower<Desk<N>> for StepAt<N> {
    ghost use Rattle.std.specs.Prelude.{◌≡◌, ◌<◌};
    ghost use Rattle.dma_work.specs.Desk.{CountsAStep};

    ghost can = { λ s. s.tally.turns < 18446744073709551615 };

    ghost does = { λ s d t e. CountsAStep N.opening s.ch s.tally d t.tally e };

    /// Steps the desk's channel.
    fn borrow<R: Wait>(&mut self, rt: &R, lent: &mut Desk<N>) {
        // gives the proof access to the desk's invariant
        let _engine = lent.engine();
        let _ = lent.step(rt, self.ch, &mut self.tally);
    }
}

// Steps a desk that is lent to it for each turn, and keeps the tally of these steps. A refused step changes nothing but
// the tally's number of turns.
struct Worker<N: DeskName, L> {
    lender: L,
    step: StepAt<N>,
}

impl<N: DeskName, L> Model for Worker<N, L> {
    ghost use Rattle.dma_work.specs.Desk.{WorkerState};

    ghost Value = { WorkerState L };

    ghost view = { λ w. record { lender = w.lender; tally = w.step.tally } };
}

impl<N: DeskName, L: Lender<Desk<N>>> Worker<N, L> {
    // Returns a worker that has taken no turn.
    fn new(lender: L, worker: u32) -> Worker<N, L>
        ensures lender { result.lender ≡ lender }
        ensures tally { result.tally ≡ new_tally worker }
    {
        let tally = Tally::new(worker);
        Worker {
            lender,
            step: StepAt { ch: 0, tally },
        }
    }

    // Ends the worker, and returns its lender and its tally.
    fn into_parts(self) -> (L, Tally<N>)
        ensures { (result.0 ≡ self.lender) × (result.1 ≡ self.tally) }
    {
        let Worker { lender, step } = self;
        (lender, step.tally)
    }
}

impl<N: DeskName, L: Lender<Desk<N>>, G: Gate> Stepper<G> for Worker<N, L> {
    ghost use Rattle.dma_work.specs.Desk.{TakesAStep};

    ghost worker = { λ w. w.tally.worker };

    ghost taken = { λ w. w.tally.turns };

    ghost acts = { TakesAStep N.opening G.passes L.lends };

    fn worker(&self) -> u32 {
        self.step.tally.worker()
    }

    fn taken(&self) -> u64 {
        self.step.tally.turns()
    }

    /// Borrows the desk, and steps its channel.
    fn turn<R: Wait>(&mut self, rt: &R, ch: u8) {
        self.step.ch = ch;
        self.lender.lend(rt, &mut self.step);
    }
}

/// Takes the turns of a job as a new worker with this number, and returns the lender and the worker's tally. In its
/// turn `n`, from 1 on, the worker passes the gate, and is then lent the desk for one step of one channel: the job's
/// channels in rotation, from the first one on (profile). It does nothing else.
pub fn work_at<N: DeskName, R: Wait, L: Lender<Desk<N>>, G: Gate>(
    rt: &R,
    lender: L,
    worker: u32,
    job: Job,
    gate: &G,
) -> (L, Tally<N>)
    ensures { TookTurnsAt N.opening G.passes L.lends worker job lender result.0 result.1 }
{
    let mut worker = Worker::new(lender, worker);
    take_turns(rt, &mut worker, job, gate);
    worker.into_parts()
}
