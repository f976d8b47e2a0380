//! The rota of a shift, which has the turns of some jobs and counts those that were taken.

ghost use Rattle.std.specs.Prelude.{◌≡◌, ◌+◌, ◌<◌, IfOk, IfSome, IsNone, length, slice_set};
ghost use Rattle.dma_work.specs.Shift.{AreNewSeats, HasNoTurn, TakesNext};
ghost use Rattle.dma_work.specs.inner.InTurn.{HasLeft};

use crate::job::Job;
use crate::seat::Seat;
use dma_engine::NoMemory;
use std::alloc::Global;
use std::marker::Model;

/// A seat for each job. Contracts see the seats.
#[derive(Drop)]
pub(crate) struct Seats {
    seats: Vec<Seat>,
}

impl Model for Seats {
    ghost use Rattle.std.specs.Prelude.{List};
    ghost use Rattle.dma_work.specs.declared.seat.Seat.{Seat};

    ghost Value = { List Seat };

    ghost view = { λ s. s.seats.items };
}

/// The jobs with which a shift begins, one for each worker. No turn of them was taken. Contracts see the jobs.
#[derive(Drop)]
pub struct Rota {
    seats: Seats,
}

impl Model for Rota {
    ghost use Rattle.std.specs.Prelude.{◌≡◌, List};
    ghost use Rattle.std.specs.List.{All};
    ghost use Rattle.dma_work.specs.declared.job.Job.{Job};
    ghost use Rattle.dma_work.specs.declared.seat.Seat.{Seat};
    ghost use Rattle.dma_work.specs.Shift.{jobs_of};

    ghost Value = { List Job };

    ghost view = { λ r. jobs_of r.seats };

    ghost invariant = { λ r. All (λ (s : Seat). s.taken ≡ 0) r.seats };
}

impl Rota {
    /// Returns a rota of these jobs. Fails if it is out of memory.
    pub fn new(alloc: Global, jobs: &[Job]) -> Result<Rota, NoMemory>
        ensures { IfOk result (λ r. r ≡ jobs.now) }
    {
        let seats = Seats::new(alloc, jobs)?;
        Ok(Rota { seats })
    }

    /// Returns the seats.
    pub(crate) fn into_seats(self) -> Seats
        ensures { AreNewSeats self result }
    {
        let Rota { seats } = self;
        seats
    }
}

impl Seat {
    // Returns the seat of a job of which no turn was taken.
    fn new(job: Job) -> Seat
        ensures { (result.job ≡ job) × (result.taken ≡ 0) }
    {
        Seat {
            job,
            taken: 0,
            next: job.first,
        }
    }

    // Returns the seat after one more turn.
    fn after(self) -> Seat
        requires { self.taken < self.job.turns }
        ensures { (result.job ≡ self.job) × (result.taken ≡ self.taken + 1) }
    {
        let Seat { job, taken, next } = self;
        let next = if next < job.last { next + 1 } else { job.first };
        Seat {
            job,
            taken: taken + 1,
            next,
        }
    }
}

impl Seats {
    /// Returns the seats of these jobs, of which no turn was taken. Fails if it is out of memory.
    pub fn new(alloc: Global, jobs: &[Job]) -> Result<Seats, NoMemory>
        ensures { IfOk result (λ r. AreNewSeats jobs.now r) }
    {
        let mut seats = Vec::with_capacity(alloc, jobs.len())?;
        for at in 0..jobs.len() {
            seats.push_reserved(Seat::new(jobs[at]));
        }
        Ok(Seats { seats })
    }

    /// Returns the number of seats.
    pub fn len(&self) -> usize
        ensures { result ≡ length self.now }
    {
        self.seats.len()
    }

    /// Returns the channel of the next turn of a worker's job, and the worker's seat after it, or `None` if the worker
    /// has no turn left.
    pub fn next(&self, worker: usize) -> Option<(u8, Seat)>
        ensures some { IfSome result (λ next.
            TakesNext worker next.0 self.now (slice_set self.now worker next.1)) }
        ensures none { IsNone result → HasNoTurn worker self.now }
    {
        if worker >= self.seats.len() {
            return None;
        }
        let seat = self.seats[worker];
        if seat.taken >= seat.job.turns {
            return None;
        }
        Some((seat.next, seat.after()))
    }

    /// Replaces the seat of a worker.
    pub fn set(&mut self, worker: usize, seat: Seat)
        requires { worker < length self.old }
        ensures { self.new ≡ slice_set self.old worker seat }
    {
        let seats = &mut self.seats;
        seats[worker] = seat;
    }

    /// Returns how many turns a worker's job has left, or 0 if there is no such worker.
    pub fn left(&self, worker: usize) -> u64
        ensures { HasLeft worker result self.now }
    {
        if worker >= self.seats.len() {
            return 0;
        }
        let seat = self.seats[worker];
        seat.job.turns - seat.taken
    }
}
