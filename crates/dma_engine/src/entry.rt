//! The entries of a history.

use crate::outcome::TransResult;
use dma_mem::lists::Bytes;
use dma_mem::marks::MarkKind;
use dma_mem::segment::Segment;
use dma_mem::transfer::Transfer;

/// Who set the flag of an event.
#[derive(Clone, Copy)]
pub enum Signaller {
    /// The front of this channel, by its DMASEV.
    Channel(u8),
    /// The host.
    Host,
}

/// An entry that an accepted call adds to the history. Each entry represents the moment at which it was added.
#[derive(Drop)]
pub enum Entry {
    /// The host wrote these bytes, starting at an address.
    Wrote {
        /// The first address.
        addr: u32,
        /// The bytes written.
        bytes: Bytes,
    },
    /// The host read these bytes, starting at an address.
    ReadBack {
        /// The first address.
        addr: u32,
        /// The bytes read.
        bytes: Bytes,
    },
    /// A transfer was submitted to a channel.
    Submitted {
        /// The channel.
        ch: u8,
        /// The transfer.
        transfer: Transfer,
        /// The cookie that was returned, 1 for the first of the channel.
        cookie: u32,
    },
    /// All submitted cookies of a channel were issued.
    Issued {
        /// The channel.
        ch: u8,
    },
    /// The front of a channel moved past the event that it waits for.
    Passed {
        /// The channel.
        ch: u8,
        /// The event, whose flag is clear after this.
        event: u8,
    },
    /// The flag of an event was set.
    Signalled {
        /// Who set the flag.
        by: Signaller,
        /// The event.
        event: u8,
    },
    /// The front of a channel finished by a step, not by a call to `terminate`.
    Finished {
        /// The channel.
        ch: u8,
        /// How it finished, never `Aborted`.
        result: TransResult,
        /// How many of its bytes were stored.
        done: u32,
    },
    /// All unfinished cookies of a channel were aborted.
    Terminated {
        /// The channel.
        ch: u8,
        /// How many bytes its front had stored, or 0 if none was running.
        done: u32,
        /// How many cookies were aborted.
        count: u32,
    },
    /// A range was marked. Bursts of channels fail there after this.
    Marked {
        /// Which bursts fail.
        kind: MarkKind,
        /// Where they fail.
        segment: Segment,
    },
    /// All marks were removed.
    Unmarked,
}
