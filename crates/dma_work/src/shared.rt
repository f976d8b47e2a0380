//! A desk behind a lock, and the workers that share it, each in its own thread.

ghost use Rattle.std.specs.Prelude.{◌≡◌, ◌<◌, ◌≤◌, ◌^◌, ℕ, IfErr, IfOk, length, vec_capacity, vec_len};
ghost use Rattle.dma_engine.specs.View.{memory_of};
ghost use Rattle.dma_work.specs.Desk.{Differ, IsSettled, IsSoundOf, Names};
ghost use Rattle.dma_work.specs.Tallies.{AreTallies, TookTurns};
ghost use Rattle.dma_work.specs.inner.Begun.{IsBegun, IsOf};

use crate::desk::{Desk, DeskName};
use crate::gate::Gate;
use crate::job::Job;
use crate::parts::Parts;
use crate::worker::{Locked, Tally, Totals, work_at};
use dma_engine::{Engine, NoMemory};
use std::alloc::Global;
use std::marker::PhantomData;
use std::mem::replace;
use std::sync::{Mutex, Wait};
use std::thread::{self, Promise, PromisedHandle, Scope, Threads};

/// A desk that threads share. A thread that has the lock uses the desk's methods; the desk's invariant holds each time.
///
/// End a guard with `MutexGuard::unlock` before anything that may return from the function, and hold one guard at a
/// time.
pub struct Shared<N: DeskName> {
    desk: Mutex<Desk<N>>,
}

impl<N: DeskName> Shared<N> {
    /// Returns a desk of these parts behind a lock, so that threads can share it. The desk's name has the view of the
    /// parts' engine, and the log and the counts of their published list.
    pub fn new(parts: Parts) -> Shared<N>
        requires { Names N.opening N.base N.log parts }
    {
        Shared::of(Desk::new(parts))
    }

    // Puts a desk behind a lock.
    fn of(desk: Desk<N>) -> Shared<N> {
        Shared {
            desk: Mutex::new(desk),
        }
    }

    /// Returns the lock behind which the desk is. A thread takes it to use the desk itself.
    pub fn desk(&self) -> &Mutex<Desk<N>> {
        &self.desk
    }

    // Returns a lender of the desk for one use at a time.
    fn lent(&self) -> Locked<'_, Desk<N>> {
        Locked { lock: &self.desk }
    }

    // Takes the desk out of its lock, to be settled or closed.
    fn into_desk(self) -> Desk<N> {
        let Shared { desk } = self;
        desk.into_inner()
    }

    /// Takes the desk out of its lock, ends it, and returns its unchanged engine. Readers see nothing from then on.
    pub fn close<R: Wait>(self, rt: &R) -> Engine
        ensures sound { IsSoundOf N.opening result.view }
        ensures memory { result.memory ≡ memory_of result.view }
    {
        self.into_desk().close(rt)
    }
}

/// Why [`settle`] ended no desk: the sums of these tallies aren't those of the desk's book. All comes back unchanged.
pub struct MissingTally<N: DeskName> {
    /// The unchanged desk, behind its lock.
    pub shared: Shared<N>,
    /// The tallies.
    pub tallies: Vec<Tally<N>>,
    /// The desk's book.
    pub book: Totals,
}

/// Takes a desk out of its lock, and ends it like [`Desk::settle`] if the sums of the tallies' steps and finishes are
/// its book's.
pub fn settle<N: DeskName, R: Wait>(
    rt: &R,
    shared: Shared<N>,
    tallies: Vec<Tally<N>>,
) -> Result<(Engine, Totals), MissingTally<N>>
    ensures settled { IfOk result (λ r. IsSettled N.opening tallies.items r.0 r.1) }
    ensures missing { IfErr result (λ m. Differ m.tallies.items m.book) }
    ensures back { IfErr result (λ m. m.tallies ≡ tallies) }
{
    match shared.into_desk().settle(rt, tallies.as_slice()) {
        Ok(done) => Ok(done),
        Err(desk) => Err(MissingTally {
            book: desk.book(),
            shared: Shared::of(desk),
            tallies,
        }),
    }
}

/// Takes the turns of a job like [`work_at`], and returns the tally. The worker passes the gate without the lock, and
/// holds the lock for each step.
pub fn work<N: DeskName, R: Wait, G: Gate>(
    rt: &R,
    shared: &Shared<N>,
    worker: u32,
    job: Job,
    gate: &G,
) -> Tally<N>
    ensures { TookTurns N.opening G.passes worker job result }
{
    work_at(rt, shared.lent(), worker, job, gate).1
}

// What the thread of a job guarantees of the tally that it returns: a new worker with this number took the job's turns.
#[derive_where(Clone, Copy)]
struct JobPromise<N: DeskName, G: Gate> {
    worker: u32,
    job: Job,
    of: PhantomData<(N, G)>,
}

impl<N: DeskName, G: Gate> Promise<Tally<N>> for JobPromise<N, G> {
    ghost use Rattle.dma_work.specs.Tallies.{TookTurns};

    ghost kept_by = { λ p t. TookTurns N.opening G.passes p.worker p.job t };
}

// A job that runs in a thread, or one that got no thread.
#[derive(Drop)]
enum Begun<N: DeskName, G: Gate> {
    InThread(PromisedHandle<Tally<N>, JobPromise<N, G>>),
    Here(Tally<N>),
}

impl<N: DeskName, G: Gate> Begun<N, G> {
    // Returns the tally of the job once it has ended.
    fn end<R: Threads>(&mut self, rt: &R) -> Tally<N>
        ensures { (worker : ℕ) (job : Job) → IsOf N.opening G.passes self.old worker job
            → TookTurns N.opening G.passes worker job result }
    {
        match replace(self, Begun::Here(Tally::new(0))) {
            Begun::InThread(thread) => thread.join(rt),
            Begun::Here(tally) => tally,
        }
    }
}

// What all workers use.
#[derive_where(Clone, Copy)]
struct Crew<'a, N: DeskName, R, G> {
    rt: &'a R,
    shared: &'a Shared<N>,
    gate: &'a G,
}

impl<'a, N: DeskName + Send + Sync, R: Threads + Wait + Sync, G: Gate> Crew<'a, N, R, G> {
    // Takes the turns of a job, as a new worker.
    fn work(self, worker: u32, job: Job) -> Tally<N>
        ensures { TookTurns N.opening G.passes worker job result }
    {
        work(self.rt, self.shared, worker, job, self.gate)
    }

    // Starts a thread for the job, if one can be started.
    fn begin<E>(self, scope: &Scope<'a, E>, worker: u32, job: Job) -> Begun<N, G>
        ensures { IsBegun N.opening G.passes result worker job }
    {
        let working = move || -> Tally<N>
            ensures { TookTurns N.opening G.passes worker job result }
        { self.work(worker, job) };
        let promise = JobPromise {
            worker,
            job,
            of: PhantomData,
        };
        match scope.spawn_with(promise, working) {
            Ok(thread) => Begun::InThread(thread),
            Err(_) => Begun::Here(Tally::new(worker)),
        }
    }

    // Does a job on this thread if it got no thread.
    fn work_here(self, begun: &mut Begun<N, G>, worker: u32, job: Job)
        requires { IsBegun N.opening G.passes begun.old worker job }
        ensures { IsOf N.opening G.passes begun.new worker job }
    {
        if let Begun::Here(_) = begun {
            *begun = Begun::Here(self.work(worker, job));
        }
    }

    // Starts the threads of all jobs, does the jobs that got none on this thread, and joins the threads.
    fn work_all<E>(
        self,
        scope: &Scope<'a, E>,
        jobs: &[Job],
        mut begun: Vec<Begun<N, G>>,
        mut tallies: Vec<Tally<N>>,
    ) -> Vec<Tally<N>>
        requires few { length jobs.now < 2 ^ 32 }
        requires empty { (vec_len begun ≡ 0) × (vec_len tallies ≡ 0) }
        requires room { (length jobs.now ≤ vec_capacity begun)
            × (length jobs.now ≤ vec_capacity tallies) }
        ensures count { vec_len result ≡ length jobs.now }
        ensures each { AreTallies N.opening G.passes result.items jobs.now }
    {
        for start in 0..jobs.len() {
            begun.push_reserved(self.begin(scope, start as u32, jobs[start]));
        }
        for here in 0..jobs.len() {
            self.work_here(&mut begun[here], here as u32, jobs[here]);
        }
        for last in 0..jobs.len() {
            tallies.push_reserved(begun[last].end(self.rt));
        }
        tallies
    }
}

/// Runs each job in its own thread like [`work`], with the job's index as the worker's number, and returns the tallies
/// in the order of the jobs. A job that gets no thread is done on the calling thread after all other jobs were started.
/// There are fewer than 2^32 jobs.
///
/// Fails if it is out of memory, before any job has begun.
pub fn run_workers<N: DeskName + Send + Sync, R: Threads + Wait + Sync, G: Gate>(
    rt: &R,
    alloc: Global,
    shared: &Shared<N>,
    jobs: &[Job],
    gate: &G,
) -> Result<Vec<Tally<N>>, NoMemory>
    requires { length jobs.now < 2 ^ 32 }
    ensures count { IfOk result (λ v. vec_len v ≡ length jobs.now) }
    ensures each { IfOk result
        (λ v. AreTallies N.opening G.passes v.items jobs.now) }
{
    let begun: Vec<Begun<N, G>> = Vec::with_capacity(alloc, jobs.len())?;
    let tallies: Vec<Tally<N>> = Vec::with_capacity(alloc, jobs.len())?;
    Ok(thread::scope(
        thread::scope_env(),
        rt,
        move |scope| -> Vec<Tally<N>>
            requires few { length jobs.now < 2 ^ 32 }
            requires empty { (vec_len begun ≡ 0) × (vec_len tallies ≡ 0) }
            requires room { (length jobs.now ≤ vec_capacity begun)
                × (length jobs.now ≤ vec_capacity tallies) }
            ensures count { vec_len result ≡ length jobs.entry.now }
            ensures each { AreTallies N.opening G.passes result.items jobs.entry.now }
        { Crew { rt, shared, gate }.work_all(scope, jobs, begun, tallies) },
    ))
}
