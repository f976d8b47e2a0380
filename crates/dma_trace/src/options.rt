//! What a trace prints, and how it executes a program.

ghost use Rattle.std.specs.Prelude.{◌≡◌};
ghost use Rattle.dma_trace.specs.Traced.{is_shown};

use dma_chan::bus::Bus;
use dma_mem::segment::Segment;

/// What a trace prints, and how it executes a program.
#[derive(Drop)]
pub struct TraceOptions {
    /// The data bus.
    pub bus: Bus,
    /// The flags that are set at the start: that of event e if bit e is set.
    pub events: u32,
    /// Ranges at which loads and stores fail.
    pub failing: Vec<Segment>,
    /// The number of the first instruction whose line is printed. They are counted from 1.
    pub from: u32,
    /// How many lines are printed.
    pub count: u32,
    /// The most instructions that are executed.
    pub limit: u32,
    /// Ranges of memory that are printed after the end.
    pub dumps: Vec<Segment>,
    /// Whether the waveform of the run is wanted.
    pub wave: bool,
}

impl TraceOptions {
    // Returns whether the line of an instruction is printed.
    pub(crate) fn shows(&self, number: u64) -> bool
        ensures { result ≡ is_shown self.now number }
    {
        let from = u64::from(self.from);
        from <= number && number - from < u64::from(self.count)
    }
}
