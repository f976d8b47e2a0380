//! The bytes of a saved device: the format is that of `saved_device` in specs/Snapshot.antt.
//!
//! [`Device::save`](crate::device::Device::save) writes them, and
//! [`Device::restore`](crate::device::Device::restore) reads them.

ghost use Rattle.std.specs.Prelude.{◌≡◌, ◌↔◌, ◌+◌, ◌-◌, ◌≤◌, ◌++◌, IsTrue, length, drop, take};
ghost use Rattle.std.specs.Int.{w32, from_le_bytes, to_le_bytes};
ghost use Rattle.dma_chan.specs.Saved.{checksum, sealed};
ghost use Rattle.arrayvec.specs.ArrayVec.{array_vec_len};

use arrayvec::ArrayVec;
use dma_chan::save::checksum_of;
use thiserror::Error;

pub(crate) mod head;
pub(crate) mod threads;

/// The most bytes of a save: 40 of the head, 20 for each of 8 threads beside its channel's save, and 4 of the checksum.
pub const MAX_SAVE: usize = 68204;

// The length of the head in bytes.
pub(crate) const HEAD_LEN: usize = 40;

// The length in bytes of what is saved of a thread beside its channel.
pub(crate) const THREAD_LEN: usize = 20;

/// Why a device wasn't restored.
#[derive(Clone, Copy, Debug, PartialEq, Eq, Error)]
pub enum RestoreFault {
    /// The bytes begin as the save of a device of another version or configuration.
    #[error("the save is of another version or configuration")]
    OtherDevice,
    /// The bytes are not the save of any device.
    #[error("the bytes are no save of a device")]
    BadSave,
}

// Bytes of a head, as they are written.
pub(crate) type HeadBytes = ArrayVec<u8, HEAD_LEN>;

// Appends bytes. There must be room for them.
pub(crate) fn push(out: &mut HeadBytes, bytes: &[u8])
    requires { array_vec_len out.old + length bytes.now ≤ 40 }
    ensures bytes { out.new.items ≡ out.old.items ++ bytes.now }
    ensures len { array_vec_len out.new ≡ array_vec_len out.old + length bytes.now }
{
    let Ok(()) = out.try_extend_from_slice(bytes) else {
        unreachable!()
    };
}

// The length in bytes of the checksum.
pub(crate) const SUM_LEN: usize = 4;

// Writes the checksum of the first `len` bytes behind them.
#[tactic(auto, unfolding(dma_chan::specs::Saved::sealed))]
pub(crate) fn seal(out: &mut [u8], len: usize)
    requires { len + 4 ≤ length out.old }
    ensures { out.new ≡ sealed (take len out.old) ++ drop (len + 4) out.old }
{
    let sum = checksum_of(&out[..len]);
    out[len..len + SUM_LEN].copy_from_slice(&sum.to_le_bytes());
}

// Returns whether the last four of these bytes are the checksum of those before them.
pub(crate) fn is_sealed(bytes: &[u8]) -> bool
    requires { 4 ≤ length bytes.now }
    ensures { IsTrue result
        ↔ (drop (length bytes.now - 4) bytes.now
        ≡ to_le_bytes w32 (checksum (take (length bytes.now - 4) bytes.now))) }
{
    let len = bytes.len() - SUM_LEN;
    let sum = checksum_of(&bytes[..len]).to_le_bytes();
    bytes[len..] == sum[..]
}

// Returns the four-byte number at an offset.
pub(crate) fn u32_at(bytes: &[u8], at: usize) -> u32
    requires { at + 4 ≤ length bytes.now }
    ensures { result ≡ from_le_bytes w32 (drop at bytes.now) }
{
    u32::from_le_bytes([bytes[at], bytes[at + 1], bytes[at + 2], bytes[at + 3]])
}
