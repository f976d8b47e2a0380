//! What is measured.

use dma_engine::Engine;
use dma_mem::segment::Segment;
use dma_mem::transfer::Transfer;
use std::alloc::Global;

// Each channel's copies go from its first MiB to its second.
const MIB: u32 = 0x10_0000;

/// Readers that request statuses, and workers that step copies at the same time.
#[derive(Clone, Copy)]
pub struct Case {
    /// The number of readers, at most two.
    pub readers: u32,
    /// The number of requests of each reader.
    pub requests: u32,
    /// The number of workers, at most eight, each with its own channel.
    pub workers: u8,
    /// The number of copies for each channel.
    pub copies: u32,
    /// The number of bytes of a copy, at most 1 MiB.
    pub len: u32,
    /// The number of turns that a copy takes, from its start to its end.
    pub turns: u32,
}

impl Case {
    /// Returns the case of a command line.
    pub fn of(words: &[String]) -> Option<Case> {
        Some(Case {
            readers: words.get(1)?.parse().ok()?,
            requests: words.get(2)?.parse().ok()?,
            workers: words.get(3)?.parse().ok()?,
            copies: words.get(4)?.parse().ok()?,
            len: words.get(5)?.parse().ok()?,
            turns: words.get(6)?.parse().ok()?,
        })
    }

    /// Returns the number of turns that the copies of a channel take.
    pub fn turns(self) -> u64 {
        u64::from(self.copies) * u64::from(self.turns)
    }

    /// Returns an engine with one channel for each worker, or one if there is no worker, whose copies are issued.
    pub fn engine(self, alloc: Global) -> Option<Engine> {
        let channels = self.workers.max(1);
        let mut engine = Engine::new(alloc, 16 * MIB, channels).ok()?;
        for ch in 0..channels {
            self.issue(alloc, &mut engine, ch)?;
        }
        Some(engine)
    }

    // Submits and issues the copies of a channel. Those of different channels don't conflict.
    fn issue(self, alloc: Global, engine: &mut Engine, ch: u8) -> Option<()> {
        let (addr, len) = (2 * MIB * u32::from(ch), self.len);
        let (src, dst) = (
            Segment { addr, len },
            Segment {
                addr: addr + MIB,
                len,
            },
        );
        for _ in 0..self.copies {
            let copy = Transfer::new(alloc, &[src], &[dst], None, None).ok()?;
            engine.submit(ch, copy).ok()?;
        }
        engine.issue(ch).ok()?;
        Some(())
    }
}
