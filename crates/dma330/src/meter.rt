//! How far a long call has come, on standard error.
use dma_io::progress::Progress;
use std::io::IsTerminal;
use std::time::Instant;

/// A line on standard error that says how far the call has come. It is written at most once a second, first after a
/// second, and only if standard error is a terminal.
#[derive(Drop)]
pub struct Meter<'a> {
    rt: &'a HostRuntime,
    /// The start, or `None` if nothing is shown.
    start: Option<Instant>,
    /// How many whole seconds had passed when the line was last written, or 0 if it was never written.
    shown_at: u64,
}

impl<'a> Meter<'a> {
    /// Returns the meter of a call that begins now.
    pub fn new(rt: &'a HostRuntime) -> Meter<'a> {
        let start = if rt.stderr().is_terminal() {
            Instant::now(rt).ok()
        } else {
            None
        };
        Meter {
            rt,
            start,
            shown_at: 0,
        }
    }

    /// Removes the line.
    pub fn clear(&self) {
        if self.shown_at > 0 {
            // (the answer follows, whether the line is gone or not)
            let _ = eprint!(self.rt; "\r{:60}\r", "");
        }
    }
}

impl Progress for Meter<'_> {
    fn report(&mut self, done: u64, kind: &str) {
        let Some(start) = self.start else {
            return;
        };
        let Ok(passed) = start.elapsed(self.rt) else {
            return;
        };
        if passed.as_secs() > self.shown_at {
            let _ = eprint!(self.rt; "\rdma330: {kind} so far: {done}");
            self.shown_at = passed.as_secs();
        }
    }
}
