//! The turns of a race's jobs, in the order that a seed determines.

ghost use Rattle.std.specs.Prelude.{◌≡◌, ◌∷◌, [], ◌<◌, ◌≤◌, IfOk, MatchOption, length, slice_index_or};
ghost use Rattle.dma_seeds.specs.Turns.{job_at, no_turns, total_left, turns_of_seed};

use dma_script::race::JobLine;
use rand_core::SeedableRng;
use rand_core::utils::NextWord;
use rand_xoshiro::SplitMix64;
use std::alloc::{AllocError, Global};
use std::marker::Model;

/// A turn of a race: the number of the job that takes it, from 0, and the channel that it steps.
#[derive(Clone, Copy)]
pub struct RaceTurn {
    /// The number of the job, from 0.
    pub job: usize,
    /// The channel.
    pub channel: u8,
}

/// The turns that a job has left.
#[derive(Clone, Copy)]
pub struct TurnsLeft {
    /// The first channel of the job's rotation.
    pub first: u8,
    /// The last one.
    pub last: u8,
    /// The channel of the next turn.
    pub next: u8,
    /// How many turns are left.
    pub left: u32,
}

impl TurnsLeft {
    ghost use Rattle.dma_seeds.specs.Turns.{after_turn, all_turns};

    /// Returns all turns of a job.
    fn all(job: JobLine) -> TurnsLeft
        ensures { result ≡ all_turns job }
    {
        TurnsLeft {
            first: job.first,
            last: job.last,
            next: job.first,
            left: job.turns,
        }
    }

    /// Returns what is left after the next turn.
    fn after_turn(self) -> TurnsLeft
        requires { 0 < self.left }
        ensures { result ≡ after_turn self }
    {
        let next = if self.next < self.last {
            self.next + 1
        } else {
            self.first
        };
        TurnsLeft {
            first: self.first,
            last: self.last,
            next,
            left: self.left - 1,
        }
    }
}

/// The turns of a race's jobs that were not taken yet. Contracts see them as a list, in the order in which they are
/// taken.
#[derive(Drop)]
pub struct Turns {
    jobs: Vec<TurnsLeft>,
    left: u64,
    rng: SplitMix64,
}

impl Model for Turns {
    ghost use Rattle.std.specs.Prelude.{◌≡◌, List};
    ghost use Rattle.dma_engine.specs.Interleaved.{JobTurn};
    ghost use Rattle.dma_seeds.specs.Turns.{drawn, total_left};

    ghost Value = { List JobTurn };

    ghost view = { λ t. drawn t.left t.rng t.jobs.items };

    ghost invariant = { λ t. total_left t.jobs.items ≡ t.left };
}

/// Returns the number of the job to which a turn belongs, given the turn's place among all turns that are left, listed
/// job by job.
fn job_at(jobs: &[TurnsLeft], place: u64) -> usize
    requires { place < total_left jobs.now }
    ensures is { result ≡ job_at jobs.now place }
    ensures there { result < length jobs.now }
    ensures some { 0 < (slice_index_or jobs.now result no_turns).left }
{
    let mut place = place;
    for (at, job) in jobs.iter().enumerate() {
        let left = u64::from(job.left);
        if place < left {
            return at;
        }
        place -= left;
    }
    unreachable!()
}

impl Turns {
    /// Returns the turns of these jobs in the order that a seed determines. Fails if memory runs out.
    pub fn of_seed(alloc: Global, lines: &[JobLine], seed: u64) -> Result<Turns, AllocError>
        requires { length lines.now ≤ 16 }
        ensures { IfOk result (λ turns. turns ≡ turns_of_seed lines.now seed) }
    {
        let mut jobs = Vec::with_capacity(alloc, lines.len())?;
        let mut left = 0u64;
        for line in lines {
            jobs.push(TurnsLeft::all(*line))?;
            left += u64::from(line.turns);
        }
        let rng = SplitMix64::seed_from_u64(seed);
        Ok(Turns { jobs, left, rng })
    }

    /// Returns how many turns are left.
    pub fn len(&self) -> u64
        ensures { result ≡ length self.now }
    {
        self.left
    }

    /// Takes the next turn, or returns `None` if none is left.
    pub fn next(&mut self) -> Option<RaceTurn>
        ensures { MatchOption result ((self.old ≡ []) × (self.new ≡ []))
            (λ turn. self.old ≡ record { job = turn.job; channel = turn.channel } ∷ self.new) }
    {
        if self.left == 0 {
            return None;
        }
        let place = self.rng.next_word() % self.left;
        let job = job_at(&self.jobs, place);
        let taken = self.jobs[job];
        self.jobs[job] = taken.after_turn();
        self.left -= 1;
        Some(RaceTurn {
            job,
            channel: taken.next,
        })
    }
}
