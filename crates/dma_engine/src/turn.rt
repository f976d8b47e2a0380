//! The result of a step of a channel, and the status of a cookie.

ghost use Rattle.std.specs.Prelude.{◌≡◌};

use crate::fault::EngineFault;
use crate::outcome::TransResult;

/// The result of one step of a channel.
#[derive(Clone, Copy, Debug, PartialEq, Eq)]
pub enum Turn {
    /// No transfer is issued and unfinished.
    Nothing,
    /// The front can't start, because it isn't free of a running transfer. The fields name the one on the lowest such
    /// channel.
    Held {
        /// The channel of the running transfer.
        ch: u8,
        /// The cookie of the running transfer.
        cookie: u32,
    },
    /// The front with this cookie runs now. No instruction was executed.
    Started(u32),
    /// One instruction was executed.
    Moved,
    /// The front waits for this event, whose flag is clear.
    Waiting(u8),
    /// The channel is paused.
    Paused,
    /// The channel is halted by a failed transfer, until it is terminated.
    Halted,
    /// The front finished.
    Finished {
        /// Its cookie.
        cookie: u32,
        /// How it finished.
        result: TransResult,
        /// How many of its bytes were not stored.
        residue: u32,
    },
}

/// What consecutive steps of a channel did, which one call of [`Engine::advance`](crate::Engine::advance) took.
#[derive(Clone, Copy)]
pub struct Advanced {
    /// The cookie of the transfer that the first step started, if it started one.
    pub started: Option<u32>,
    /// How many steps moved after that.
    pub moved: u32,
    /// The result of the step after them, which neither started a transfer nor moved. It is `None` if all steps were
    /// taken before it.
    pub last: Option<Result<Turn, EngineFault>>,
}

/// Whether a cookie was given and has finished, in the terms in which a driver of Linux asks for it.
#[derive(Clone, Copy, Debug, PartialEq, Eq)]
pub enum Status {
    /// No such cookie was given (profile).
    Unknown,
    /// It was given and hasn't finished (DMA_IN_PROGRESS).
    InProgress,
    /// It has finished (DMA_COMPLETE).
    Complete,
}

impl Status {
    ghost use Rattle.dma_engine.specs.Answer.{status_by};

    /// Returns the status of a cookie of a channel that has given and finished this many.
    pub fn of(used: u32, finished: u32, cookie: u32) -> Status
        ensures { result ≡ status_by used finished cookie }
    {
        if cookie == 0 || used < cookie {
            Status::Unknown
        } else if cookie <= finished {
            Status::Complete
        } else {
            Status::InProgress
        }
    }
}

/// The transfer that runs on a channel, and how far it is.
#[repr(C)]
#[derive(Clone, Copy, Debug, PartialEq, Eq)]
pub struct Running {
    /// Its cookie.
    pub cookie: u32,
    /// How many of its bytes are stored.
    pub stored: u32,
}
