//! Totals of an engine: of its channels, and of what a host looks at to decide when to make a checkpoint.

ghost use Rattle.std.specs.Prelude.{◌≡◌, length, min};
ghost use Rattle.dma_engine.specs.History.{kept_by, kept_bytes};
ghost use Rattle.dma_engine.specs.Object.{finished_all};
ghost use Rattle.dma_engine.specs.View.{object_of, running};

use crate::engine::Engine;
use crate::entry::Entry;

// Returns how many bytes an entry of the history keeps.
fn kept_by(entry: &Entry) -> usize
    ensures { result ≡ kept_by entry.now }
{
    match entry {
        Entry::Wrote { addr: _, bytes } | Entry::ReadBack { addr: _, bytes } => bytes
            .as_slice()
            .len(),
        _ => 0,
    }
}

// Returns how many bytes these entries keep, or `u64::MAX` if there are more.
fn kept_in(history: &[Entry]) -> u64
    ensures { result ≡ min (kept_bytes history.now) u64.MAX }
{
    let mut kept = 0u64;
    for index in 0..history.len() {
        kept = kept.saturating_add(kept_by(&history[index]) as u64);
    }
    kept
}

impl Engine {
    /// Returns how many bytes the history keeps for writes and reads, or `u64::MAX` if there are more. It looks at
    /// every entry.
    pub fn history_bytes(&self) -> u64
        ensures { result ≡ min (kept_bytes self.now.view.history) u64.MAX }
    {
        kept_in(self.history())
    }

    /// Returns how many cookies are finished on all channels together, those before the base included.
    pub fn finished_all(&self) -> u64
        ensures { result ≡ finished_all (object_of self.now.view) }
    {
        let mut all = 0;
        for ch in 0..self.channels() {
            all += u64::from(self.finished(ch));
        }
        all
    }

    /// Returns how many transfers run.
    pub fn running_count(&self) -> u8
        ensures { result ≡ length (running (object_of self.now.view) self.now.view.schedule) }
    {
        let mut count = 0;
        for ch in 0..self.channels() {
            count += u8::from(self.running(ch).is_some());
        }
        count
    }
}
