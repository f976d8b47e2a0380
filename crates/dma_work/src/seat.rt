//! The seats of workers.

ghost use Rattle.std.specs.Prelude.{◌≡◌, ◌≤◌};
ghost use Rattle.dma_engine.specs.Interleaved.{channel_at};

use crate::job::Job;

/// A worker's job, how many of its turns were taken, and the channel of the next one.
#[derive(Clone, Copy)]
pub(crate) struct Seat {
    pub job: Job,
    pub taken: u64,
    pub next: u8,
    ghost within: { taken ≤ job.turns },
    ghost there: { next ≡ channel_at job.first job.last taken },
}
