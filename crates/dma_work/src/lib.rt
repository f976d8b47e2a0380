//! The running controller: a desk behind one lock, workers that step its channels, their tallies, and readers that
//! return the status of cookies without the lock.
//!
//! Contracts see a [`Desk`] as its engine, its book of totals and its published ticks; a reader as the ticks that it
//! has seen and those that it has learnt.
//!
//! Proved: a method of the desk returns the engine's own answer, and publishes the tick of a finish, a submit or a
//! terminate after it (`Desk`); a worker passes its gate for each turn, steps the channels of its job in rotation, one
//! for each turn, and does nothing else ([`work_at`]); the tallies and the book count each step once, and a desk is
//! settled if their sums agree (`Desk::settle`, [`settle`]); a shift that ends with a desk has taken all turns of its
//! jobs, interleaved, and done nothing else, and one that fails has jobs whose turns, in some order, come to one that
//! takes memory ([`run_shift`]); a status is that of a published list that begins with all that the reader has seen and
//! learnt (`StatusReader::status`, `laws::statuses_stay_true`); if a reader answers at a desk, it has seen exactly what
//! that desk published (`Desk::status_by_reader`).
//!
//! Not proved: progress; that no turn of a shift is out of memory; that workers run at the same time; when a gate is
//! passed; which desk of its name a lock holds when it is taken, and so that [`work`], which sees the lock, does nothing
//! else with the desk; that each tally of a settled desk is right, since two wrong ones may have the right sum; how many
//! readers a desk gives, that they answer until its end, and that they see nothing after it.
#![tactic(auto)]

mod desk;
mod edition;
mod gate;
mod job;
pub mod laws;
mod lock;
mod log;
mod parts;
mod publisher;
mod reader;
mod rota;
mod seat;
mod shared;
mod shift;
mod tick;
mod worker;

pub use desk::{Desk, DeskName};
pub use dma_engine::NoMemory;
pub use gate::{Gate, NoGate};
pub use job::Job;
pub use parts::{MAX_READERS, Parts, ShareFault, ShareFaultKind};
pub use reader::{Closed, Receipt, StatusReader, Ticket};
pub use rota::Rota;
pub use shared::{MissingTally, Shared, run_workers, settle, work};
pub use shift::{Shift, run_shift};
pub use worker::{Borrower, Lender, Stepper, Tally, Totals, take_turns, work_at};
