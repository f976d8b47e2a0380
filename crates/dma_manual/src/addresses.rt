//! Leaves the addresses of a dump out of its text.
ghost use Rattle.std.specs.Prelude.{◌≡◌, IfOk, length};
ghost use Rattle.dma_manual.specs.Addresses.{closes_symbol, ends_address, is_address, is_address_after, is_digit, without_addresses};

use dma_text::digits::digit_value;
use std::alloc::{AllocError, Global};

/// The least number of digits of an address. A pair before a colon is no address.
const ADDRESS_DIGITS: usize = 4;

/// Returns whether a byte is a hexadecimal digit.
pub fn is_digit(byte: u8) -> bool
    ensures { result ≡ is_digit byte }
{
    digit_value(byte) < 16
}

/// Returns whether the first colon of a line, if it isn't in a comment, follows a `>`. The text follows a `<`.
fn closes_symbol(text: &[u8]) -> bool
    ensures { result ≡ closes_symbol 60 text.now }
{
    let mut before = b'<';
    for byte in text {
        match *byte {
            b':' => return before == b'>',
            b'\n' | b'#' => return false,
            _ => before = *byte,
        }
    }
    false
}

/// Returns whether a text that follows digits ends an address: with a colon, perhaps after a symbol's name as gdb
/// prints it.
fn ends_address(text: &[u8]) -> bool
    ensures { result ≡ ends_address text.now }
{
    match text {
        [b':', ..] => true,
        [b' ', b'<', symbol @ ..] => closes_symbol(symbol),
        _ => false,
    }
}

/// Returns whether a text begins with the digits of an address and its end.
fn begins_with_digits(text: &[u8]) -> bool
    ensures { result ≡ is_address_after 0 text.now }
{
    for (count, byte) in text.iter().enumerate() {
        if !is_digit(*byte) {
            return count >= ADDRESS_DIGITS && ends_address(&text[count..]);
        }
    }
    false
}

/// Returns whether a text begins with an address.
fn is_address(text: &[u8]) -> bool
    ensures { result ≡ is_address text.now }
{
    match text {
        [b'0', b'x', digits @ ..] => begins_with_digits(digits),
        _ => begins_with_digits(text),
    }
}

/// Returns the text with spaces in place of the addresses that lines begin with, up to their colons. Fails if memory
/// runs out.
pub fn without_addresses(alloc: Global, text: &[u8]) -> Result<Vec<u8>, AllocError>
    ensures text { IfOk result (λ blanked. blanked.items ≡ without_addresses text.now) }
    ensures length { IfOk result (λ blanked. length blanked.items ≡ length text.now) }
{
    let mut blanked = Vec::with_capacity(alloc, text.len())?;
    let mut in_address = is_address(text);
    for (at, byte) in text.iter().enumerate() {
        blanked.push(if in_address { b' ' } else { *byte })?;
        in_address = match *byte {
            b'\n' => is_address(&text[at + 1..]),
            b':' => false,
            _ => in_address,
        };
    }
    Ok(blanked)
}
