//! Jobs of workers.

ghost use Rattle.std.specs.Prelude.{◌≡◌, ◌≤◌, ◌↔◌, IfSome, IsSome};
ghost use Rattle.dma_mem.specs.Limits.{last_channel};

use dma_mem::limits::LAST_CHANNEL;

/// What one worker has to do: it steps these channels in rotation, one in each of its turns.
#[derive(Clone, Copy)]
pub struct Job {
    /// The first channel.
    pub first: u8,
    /// The last channel, at most [`LAST_CHANNEL`].
    pub last: u8,
    /// The number of turns.
    pub turns: u64,
    ghost in_order: { first ≤ last },
    ghost in_range: { last ≤ last_channel },
}

impl Job {
    /// Returns a job for the channels from `first` to `last`, or `None` unless `first` is at most `last` and `last` at
    /// most [`LAST_CHANNEL`].
    pub fn new(first: u8, last: u8, turns: u64) -> Option<Job>
        ensures there { IsSome result ↔ ((first ≤ last) × (last ≤ last_channel)) }
        ensures some { IfSome result
            (λ j. (j.first ≡ first) × (j.last ≡ last) × (j.turns ≡ turns)) }
    {
        if first <= last && last <= LAST_CHANNEL {
            Some(Job { first, last, turns })
        } else {
            None
        }
    }
}
