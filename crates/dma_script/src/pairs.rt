//! The input of `dis`: pairs of hexadecimal digits.
ghost use Rattle.std.specs.Prelude.{◌≡◌, ◌≤◌, ◌+◌, ◌*◌, ◌/◌, ℕ, length, vec_capacity};
ghost use Rattle.dma_script.specs.Lines.{Gives};
ghost use Rattle.dma_script.specs.Pairs.{hex_fault, is_gap, pairs_of};
ghost use Rattle.dma_script.specs.Words.{words_of};
ghost use Rattle.dma_script.specs.inner.Digits.{bytes_after, pairs_after};

use crate::arguments::byte_in;
use crate::fault::{Cause, Fault, ReadError, ScriptError};
use std::alloc::Global;
use std::mem;

/// Returns whether a byte may separate pairs.
fn is_gap(byte: u8) -> bool
    ensures { result ≡ is_gap byte }
{
    matches!(byte, b' ' | b'\t' | b'\r' | b'\n')
}

/// Appends the bytes of the pairs at the front of a text, up to the first pair without a space after it, and returns
/// what follows. Most pairs have one.
pub(crate) fn spaced_pairs<'a>(bytes: &mut Vec<u8>, text: &'a [u8]) -> &'a [u8]
    requires { length bytes.old.items + length text.now / 2 ≤ vec_capacity bytes.old }
    ensures words { bytes_after bytes.new.items (words_of result.now)
        ≡ bytes_after bytes.old.items (words_of text.now) }
    ensures pairs { (line : ℕ) → pairs_after bytes.new.items line result.now
        ≡ pairs_after bytes.old.items line text.now }
    ensures room { 2 * length bytes.new.items + length result.now
        ≤ 2 * length bytes.old.items + length text.now }
    ensures within { length result.now ≤ length text.now }
    ensures capacity { vec_capacity bytes.new ≡ vec_capacity bytes.old }
{
    // As a local variable, the list can have its length in a register.
    let empty = Vec::new(*bytes.allocator());
    let mut read = mem::replace(bytes, empty);
    let mut rest = text;
    while let [high, low, gap, after @ ..] = rest
        && *gap == b' '
        && let Some(byte) = byte_in(*high, *low)
    {
        read.push_reserved(byte);
        rest = after;
    }
    *bytes = read;
    rest
}

/// Returns the fault of a line with a wrong byte or the lone digit of half a pair.
fn hex_fault(line: usize) -> ScriptError
    ensures { result ≡ ReadError.Fault (hex_fault line) }
{
    let cause = Cause::Hex;
    ReadError::Fault(Fault { line, cause })
}

/// Returns the bytes that pairs of hexadecimal digits in either case spell, with spaces, tabs, carriage returns and
/// line feeds between pairs. There is no limit to their number.
///
/// Fails with the line of the first fault, or with `NoMemory`.
pub fn read_pairs(alloc: Global, input: &[u8]) -> Result<Vec<u8>, ScriptError>
    ensures { Gives (λ bytes. bytes.items) result (pairs_of input.now) }
{
    // A pair takes at least two bytes of the input, so this is room for all pairs.
    let mut bytes = Vec::with_capacity(alloc, input.len() / 2)?;
    let mut line = 1usize;
    let mut rest = spaced_pairs(&mut bytes, input);
    while let [high, low, after @ ..] = rest {
        if let Some(byte) = byte_in(*high, *low) {
            bytes.push_reserved(byte);
            rest = after;
        } else if is_gap(*high) {
            if *high == b'\n' {
                line += 1;
            }
            rest = spaced_pairs(&mut bytes, &rest[1..]);
        } else {
            return Err(hex_fault(line));
        }
    }
    match rest {
        [last] if !is_gap(*last) => Err(hex_fault(line)),
        _ => Ok(bytes),
    }
}
