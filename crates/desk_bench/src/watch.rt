//! The result of a measurement, and the watch that times it.

use std::rt::Clock;
use std::time::{CpuClock, Duration, Instant};

/// How long something took.
#[derive(Clone, Copy, Default)]
pub struct Times {
    /// The elapsed time of the clock.
    pub took: Duration,
    /// The total processor time of its threads.
    pub busy: Duration,
}

/// What was done, and how long it took.
#[derive(Clone, Copy)]
pub struct Measured {
    /// How long the requests took.
    pub asked: Times,
    /// The number of steps that executed an instruction or finished a cookie: from the tallies, or from the engine if
    /// there is no desk.
    pub steps: u64,
    /// The number of cookies that these steps finished.
    pub finished: u64,
    /// How long the steps took. Their processor time is that of the whole program.
    pub stepped: Times,
}

/// The start of a measurement: the time of the clock, and the processor time of the whole program.
#[derive(Clone, Copy)]
pub struct Watch {
    clock: Instant,
    processors: Duration,
}

impl Watch {
    /// Starts a watch.
    pub fn started<R: Clock + CpuClock>(rt: &R) -> Option<Watch> {
        Some(Watch {
            clock: Instant::now(rt).ok()?,
            processors: rt.process_cpu_time().ok()?,
        })
    }

    /// Returns the times since the start of a watch, if it was started.
    pub fn times<R: Clock + CpuClock>(start: Option<Watch>, rt: &R) -> Option<Times> {
        let start = start?;
        Some(Times {
            took: start.clock.elapsed(rt).ok()?,
            busy: rt.process_cpu_time().ok()?.checked_sub(start.processors)?,
        })
    }
}
