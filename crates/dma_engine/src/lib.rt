//! The engine: queues of transfers on channels over one memory, run in steps of one instruction, and the history of
//! what was done. It is for one thread.
//!
//! Contracts see an [`engine::Engine`] as its view (base, history, step count, schedule), the bytes of its memory, and
//! the room of its lists.
//!
//! Proved: for every list of calls and single steps ([`run::run`]) each reply is that of a single-threaded object at
//! its place in the stored history (`answers`). The history is legal (`sound`, `views`) and, up to a checkpoint, begins
//! with the history from before (`begins`). An outcome never changes (`kept`), but a checkpoint may forget it
//! (`remembers`). The memory is the history's image with the bytes that running transfers have stored so far
//! (`memory`). Each method has the same contract for its call, and `advance` for many steps. [`laws`] lists what
//! follows for lists of calls.
//!
//! Not proved: that an allocation succeeds; which pages are made beyond those that are needed; that `advance` moves
//! blocks and copies fronts at once.
#![tactic(auto)]

mod access;
mod base;
pub mod call;
pub mod engine;
pub mod entry;
pub mod fault;
pub mod laws;
pub mod outcome;
mod queue;
pub mod run;
mod spare_vec;
pub mod turn;

pub use call::{Call, Reply};
pub use dma_mem::marks::MarkKind;
pub use engine::Engine;
pub use entry::{Entry, Signaller};
pub use fault::{EngineFault, NewFault, NoMemory, SubmitFault};
pub use outcome::{Outcome, TransResult};
pub use turn::{Advanced, Running, Status, Turn};
