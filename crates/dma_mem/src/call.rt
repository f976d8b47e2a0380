//! The calls on an engine.

use crate::lists::Bytes;
use crate::marks::MarkKind;
use crate::segment::Segment;
use crate::transfer::Transfer;

/// A call on an engine as a value, so that calls can be kept in a list and executed later. Each variant calls the
/// method of the same name.
#[derive(Drop)]
pub enum Call {
    /// `write`
    Write { addr: u32, bytes: Bytes },
    /// `read`
    Read { addr: u32, len: u32 },
    /// `submit`
    Submit { ch: u8, transfer: Transfer },
    /// `issue`
    Issue { ch: u8 },
    /// `pause`
    Pause { ch: u8 },
    /// `resume`
    Resume { ch: u8 },
    /// `terminate`
    Terminate { ch: u8 },
    /// `step`
    Step { ch: u8 },
    /// `status`
    Status { ch: u8, cookie: u32 },
    /// `result`
    Result { ch: u8, cookie: u32 },
    /// `mark`
    Mark { kind: MarkKind, segment: Segment },
    /// `unmark`
    Unmark,
    /// `raise`
    Raise { event: u8 },
    /// `checkpoint`
    Checkpoint,
}
