//! What a program copies and sets to 0, and a trace of its instructions, as text.
//!
//! Proved: `explain::explain` prints what `dma_explain::explain::explain` finds (`Finds`) and the counts of its bursts
//! (`bursts_in`) or, if nothing explains the program, the cause and the place (`Refuses`) with the registers there. If
//! a byte is stored twice or over a source, it also prints the lowest such address and the instructions that touch it
//! first (`touches_in`). It prints warnings about the program's loops in each case (`warnings_of`). `trace::trace`
//! prints the lines of the steps of one channel over the lent regions, how the program ends, and the memory then, and
//! writes the waveform of the run: a function of the program, the memory and the options (`Traces`, by
//! `Stepping::after_steps` of `dma_chan`). If no region is lent, the memory is zeros at the ranges that `explain` finds
//! (`IsRam`).
//!
//! Not proved: that memory is available.
#![tactic(auto)]

mod alone;
mod amounts;
mod columns;
mod copies;
pub mod explain;
mod failures;
mod lines;
pub mod options;
mod progress;
mod ram;
mod touches;
pub mod trace;
mod vcd;
mod warnings;
mod wave;
mod words;
