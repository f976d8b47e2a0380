//! Calls on an engine, and their replies.

use crate::fault::EngineFault;
use crate::outcome::Outcome;
use crate::turn::{Status, Turn};
pub use dma_mem::call::Call;
use dma_mem::lists::Bytes;

/// The reply to a call that was made as a value ([`Call`]): what the method of the same name returns.
#[derive(Drop)]
pub enum Reply {
    /// The call was a write, a mark, an unmark, a raise, a pause, a resume or a checkpoint, and it was done.
    Done,
    /// The bytes that were read.
    Bytes(Bytes),
    /// The cookie of the submitted transfer.
    Cookie(u32),
    /// How many cookies were issued, or aborted.
    Count(u32),
    /// The result of a step.
    Turned(Turn),
    /// The status of a cookie.
    State(Status),
    /// How a cookie finished, if it has finished and isn't forgotten.
    Result(Option<Outcome>),
    /// The call was refused.
    Refused(EngineFault),
}
