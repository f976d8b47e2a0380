//! Reports of how far a long run has come.

use dma_io::progress::Progress;

/// How many instructions are executed from one report to the next.
const INTERVAL: u32 = 1 << 22;

/// Reports the number of instructions, if it is a multiple of the interval.
pub(crate) fn report<P: Progress>(progress: &mut P, steps: u32) {
    if steps % INTERVAL == 0 {
        progress.report(u64::from(steps), "instructions");
    }
}
