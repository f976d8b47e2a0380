//! Why a call on an engine was refused.

ghost use Rattle.std.specs.Prelude.{◌≡◌};

use dma_mem::limits::{MAX_CHANNELS, MAX_SIZE};
pub use dma_mem::no_memory::NoMemory;
use dma_mem::transfer::Transfer;
use std::alloc::AllocError;
use thiserror::Error;

/// Why a call was refused. The documentation of each call lists the faults that it returns, in the order of its checks.
/// A refused call changes nothing.
#[derive(Clone, Copy, Debug, PartialEq, Eq, Error)]
pub enum EngineFault {
    /// A range ends above the memory's size.
    #[error("a range ends above the memory's size")]
    OutOfMemoryRange,
    /// A running transfer conflicts with the call. The fields name the one on the lowest such channel.
    #[error("a running transfer conflicts with it")]
    Busy {
        /// Its channel.
        ch: u8,
        /// Its cookie.
        cookie: u32,
    },
    /// A transfer runs. The fields name the one on the lowest such channel.
    #[error("a transfer is running")]
    Running {
        /// Its channel.
        ch: u8,
        /// Its cookie.
        cookie: u32,
    },
    /// The channel's number isn't below the number of channels.
    #[error("there is no such channel")]
    NoChannel,
    /// The channel has given its last cookie.
    #[error("the channel has given its last cookie")]
    CookiesSpent,
    /// An instruction is due, and the step count is at its end.
    #[error("the step count is at its end")]
    StepsSpent,
    /// The event's number is above 31.
    #[error("an event is above 31")]
    BadEvent,
    /// A range to be marked is empty, or ends above the last address.
    #[error("the range is empty or ends above the last address")]
    BadRange,
    /// Memory ran out. This is always the last reason to refuse a call.
    #[error("out of memory")]
    NoMemory,
}

impl From<AllocError> for EngineFault {
    ghost use Rattle.std.specs.Prelude.{◌≡◌};
    ghost use Rattle.dma_engine.specs.declared.fault.EngineFault.TheVariants.{NoMemory};

    ghost from_gives = { λ _ fault. fault ≡ NoMemory };

    fn from(_refused: AllocError) -> EngineFault {
        EngineFault::NoMemory
    }
}

impl From<NoMemory> for EngineFault {
    ghost use Rattle.std.specs.Prelude.{◌≡◌};
    ghost use Rattle.dma_engine.specs.declared.fault.EngineFault.TheVariants.{NoMemory};

    ghost from_gives = { λ _ fault. fault ≡ NoMemory };

    fn from(_refused: NoMemory) -> EngineFault {
        EngineFault::NoMemory
    }
}

/// Why no engine was made, in the order of the checks.
#[derive(Clone, Copy, Debug, PartialEq, Eq, Error)]
pub enum NewFault {
    /// The number of channels is 0 or above [`MAX_CHANNELS`].
    #[error("the number of channels is not 1 to {}", MAX_CHANNELS)]
    BadChannels,
    /// The size is 0 or above [`MAX_SIZE`] bytes.
    #[error("the size is not 1 to {} bytes", MAX_SIZE)]
    SizeOutOfRange,
    /// Memory ran out.
    #[error("out of memory")]
    NoMemory,
}

impl From<NoMemory> for NewFault {
    ghost use Rattle.std.specs.Prelude.{◌≡◌};
    ghost use Rattle.dma_engine.specs.declared.fault.NewFault.TheVariants.{NoMemory};

    ghost from_gives = { λ _ fault. fault ≡ NoMemory };

    fn from(_refused: NoMemory) -> NewFault {
        NewFault::NoMemory
    }
}

/// Why a transfer was not submitted, with the transfer.
#[derive(Drop)]
pub struct SubmitFault {
    /// The reason.
    pub fault: EngineFault,
    /// The transfer that was not submitted.
    pub transfer: Transfer,
}

impl SubmitFault {
    /// Returns the fault of a transfer that was not submitted because memory ran out.
    pub(crate) fn no_memory(transfer: Transfer) -> SubmitFault
        ensures { result ≡ record { fault = EngineFault.NoMemory; transfer = transfer } }
    {
        SubmitFault {
            fault: EngineFault::NoMemory,
            transfer,
        }
    }
}
