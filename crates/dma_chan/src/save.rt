//! The bytes of a saved channel: the format is that of `saved` in specs/Saved.antt.
//!
//! [`Channel::save`](crate::channel::Channel::save) writes them, and
//! [`Channel::restore`](crate::channel::Channel::restore) reads them.

ghost use Rattle.std.specs.Prelude.{◌≡◌, ◌+◌, ◌^◌, ◌<◌, ◌≤◌, ◌++◌, length, IfSome};
ghost use Rattle.arrayvec.specs.ArrayVec.{array_vec_len};
ghost use Rattle.dma_insn.specs.AssemblyText.{most_program_bytes};
ghost use Rattle.dma_insn.specs.ControlWord.{flag};
ghost use Rattle.dma_chan.specs.Exec.{buffer_size};
ghost use Rattle.dma_chan.specs.Saved.{AreBytes, checksum, cost_bytes, sealed, head_bytes, most_saved, register_bytes, HasRegisterRanges};
ghost use Rattle.dma_chan.specs.inner.Saves.{HasHeadRanges};

use crate::exec::Registers;
use crate::save::head::{Head, MAGIC};
use arrayvec::ArrayVec;
use thiserror::Error;

pub(crate) mod head;

/// The most bytes that a save of a channel has: room for so many is enough for each.
pub const MAX_SAVE: usize = 8500;

/// Why a channel wasn't restored.
#[derive(Clone, Copy, Debug, PartialEq, Eq, Error)]
pub enum RestoreFault {
    /// The bytes are not the save of any channel.
    #[error("the bytes are no save of a channel")]
    BadSave,
}

// Bytes of a save, as they are written.
pub(crate) type SaveBytes = ArrayVec<u8, MAX_SAVE>;

// Appends bytes. There must be room for them.
fn push(out: &mut SaveBytes, bytes: &[u8])
    requires { array_vec_len out.old + length bytes.now ≤ most_saved }
    ensures bytes { out.new.items ≡ out.old.items ++ bytes.now }
    ensures len { array_vec_len out.new ≡ array_vec_len out.old + length bytes.now }
{
    let Ok(()) = out.try_extend_from_slice(bytes) else {
        unreachable!()
    };
}

// The largest prime below 2^16, which is the modulus of Adler-32.
const ADLER_PRIME: u32 = 65521;

/// Returns the checksum of these bytes.
pub fn checksum_of(bytes: &[u8]) -> u32
    ensures { result ≡ checksum bytes.now }
{
    let mut low = 1u32;
    let mut high = 0u32;
    for byte in bytes {
        low = (low + u32::from(*byte)) % ADLER_PRIME;
        high = (high + low) % ADLER_PRIME;
    }
    high * 65536 + low
}

// Returns 1 for true and 0 for false.
fn flag_of(value: bool) -> u8
    ensures { result ≡ flag value }
{
    if value { 1 } else { 0 }
}

// Appends the registers.
fn push_registers(out: &mut SaveBytes, registers: &Registers)
    requires { array_vec_len out.old ≤ 48 }
    ensures bytes { out.new.items ≡ out.old.items ++ register_bytes registers.now }
    ensures len { array_vec_len out.new ≡ array_vec_len out.old + 18 }
    ensures ranges { HasRegisterRanges registers.now }
{
    push(out, &registers.pc.to_le_bytes());
    push(out, &registers.sar.to_le_bytes());
    push(out, &registers.dar.to_le_bytes());
    push(out, &registers.ccr.bits().to_le_bytes());
    let (lc0, lc1) = (registers.lc0, registers.lc1);
    push(out, &[lc0, lc1]);
}

// Appends a cost.
fn push_cost(out: &mut SaveBytes, cost: Option<u32>)
    requires { array_vec_len out.old ≤ 48 }
    ensures bytes { out.new.items ≡ out.old.items ++ cost_bytes cost }
    ensures len { array_vec_len out.new ≡ array_vec_len out.old + 5 }
    ensures range { IfSome cost (λ n. n < 2 ^ 32) }
{
    push(out, &[flag_of(cost.is_some())]);
    push(out, &cost.unwrap_or(0).to_le_bytes());
}

// Returns the bytes of a head.
fn write_head(head: &Head) -> SaveBytes
    ensures bytes { result.items ≡ head_bytes head.now }
    ensures len { array_vec_len result ≡ 48 }
    ensures ranges { HasHeadRanges head.now }
{
    let mut out = ArrayVec::new();
    push(&mut out, &MAGIC);
    push_registers(&mut out, &head.registers);
    push(&mut out, &head.taken.to_le_bytes());
    push(&mut out, &head.stored.to_le_bytes());
    push(&mut out, &[flag_of(head.is_loaded)]);
    push_cost(&mut out, head.cost);
    push(&mut out, &head.buffer_len.to_le_bytes());
    push(&mut out, &head.program_len.to_le_bytes());
    out
}

// Returns the save of these parts.
pub(crate) fn write(head: &Head, buffer: &[u8], program: &[u8]) -> SaveBytes
    requires buffer { length buffer.now ≤ buffer_size }
    requires program { length program.now ≤ most_program_bytes }
    ensures bytes { result.items ≡ sealed (head_bytes head.now ++ buffer.now ++ program.now) }
    ensures ranges { HasHeadRanges head.now }
    ensures buffer_bytes { AreBytes buffer.now }
    ensures program_bytes { AreBytes program.now }
{
    let mut out = write_head(head);
    push(&mut out, buffer);
    push(&mut out, program);
    let sum = checksum_of(out.as_slice());
    push(&mut out, &sum.to_le_bytes());
    out
}
