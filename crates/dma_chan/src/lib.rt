//! One channel: the machine that executes a PL330 program, the compiler of transfers, programs run alone, channels over
//! memory that a caller lends, and saves.
//!
//! Contracts see a channel as its registers, counts, buffer and program, and memory as its image with marks at its
//! gaps.
//!
//! Proved: a step executes one instruction, or waits or fails and changes nothing (`Channel::step`). A compiled program
//! moves its transfer's bytes in order and fails only at marks (`compile`, `laws::runs_in_step`, `pace`); run alone, it
//! moves all of them (`laws::compiled_copies_alone`). `copy::copy_at_once` moves them without the program. A call over
//! lent memory is a chain of single steps (`lent::step_regions`: `TakesSteps`). It changes no byte outside the range
//! that it reports (`kept`, `laws::call_writes_no_other`), and each address in it was written (`writes_each`).
//! `lent::step_rows` makes many such calls at once, one for each row of a rectangle (`RunsRows`). What a step doesn't
//! read has no effect on it (`reads_no_other`). A save restores its channel, and nothing else is accepted
//! (`Channel::save`, `restore`). No page is made except for a store (`run_program`). What programs copy is said in
//! `dma_explain`.
//!
//! Not proved: that an allocation succeeds, and that blocks and rows are moved. A `run_bodies` or a `run_rows` that
//! moves nothing satisfies its contract.
#![tactic(auto)]

mod blocks;
pub mod bursts;
pub mod bus;
pub mod channel;
mod chip_bodies;
pub mod compile;
pub mod copy;
pub mod exec;
mod fifo;
pub mod laws;
pub mod lent;
pub mod next;
mod pages;
mod pieces;
pub mod program;
pub mod rowwise;
pub mod run;
pub mod save;
pub mod turn;
pub mod written;
