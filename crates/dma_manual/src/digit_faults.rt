//! What is printed for hexadecimal text with a fault.
ghost use Rattle.std.specs.Prelude.{◌≡◌, ◌++◌, IfOk, slice_get};
ghost use Rattle.dma_manual.specs.DigitFaults.{byte_message, end_message, fault_message, pair_message, place_text, word_message};

use crate::addresses::is_digit;
use crate::hexadecimal::{Notation, column_of, is_gap, line_of};
use dma_text::text::{HexByte, print};
use std::alloc::{AllocError, Global};

/// Returns what is wrong with a byte of a text of pairs.
fn pair_message(byte: u8) -> &'static str
    ensures { result.now ≡ pair_message byte }
{
    if is_digit(byte) {
        " is a third digit: a byte has two, an address at least four and a colon; --words reads 32-bit words\n"
    } else {
        " is not a hexadecimal digit here\n"
    }
}

/// Returns what is wrong with a byte of a text of words.
fn word_message(byte: u8) -> &'static str
    ensures { result.now ≡ word_message byte }
{
    if is_digit(byte) {
        " is a ninth digit: each word has eight, the highest first\n"
    } else if is_gap(byte) {
        " ends a word of fewer than eight digits\n"
    } else {
        " is not a hexadecimal digit here\n"
    }
}

/// Returns what is wrong with a byte of a text.
fn byte_message(notation: Notation, byte: u8) -> &'static str
    ensures { result.now ≡ byte_message notation byte }
{
    if byte == b':' {
        return " is a colon that ends no address: an address begins its line and has at least four digits\n";
    }
    if matches!(byte, b'|' | b'.') {
        return " looks like a dump's text, which is left out only if each line has its address\n";
    }
    match notation {
        Notation::Pairs => pair_message(byte),
        Notation::Words => word_message(byte),
    }
}

/// Returns what is wrong with the end of a text.
fn end_message(notation: Notation) -> &'static str
    ensures { result.now ≡ end_message notation }
{
    match notation {
        Notation::Pairs => "the last byte lacks a digit\n",
        Notation::Words => "the last word has fewer than eight digits\n",
    }
}

/// Returns the line and the column of an offset of a text, as a message begins.
pub fn placed(alloc: Global, text: &[u8], at: usize) -> Result<Vec<u8>, AllocError>
    ensures { IfOk result (λ err. err.items ≡ place_text text.now at) }
{
    let mut err = Vec::new(alloc);
    print(
        &mut err,
        &(line_of(text, at), ":", column_of(text, at), ": "),
    )?;
    Ok(err)
}

/// Returns what is wrong with digits.
pub fn digits_message(
    alloc: Global,
    notation: Notation,
    text: &[u8],
    at: usize,
) -> Result<Vec<u8>, AllocError>
    ensures { IfOk result (λ err. err.items
        ≡ place_text text.now at ++ fault_message notation (slice_get text.now at)) }
{
    let mut err = placed(alloc, text, at)?;
    match text.get(at) {
        Some(byte) => print(
            &mut err,
            &("byte 0x", HexByte(*byte), byte_message(notation, *byte)),
        )?,
        None => print(&mut err, &end_message(notation))?,
    }
    Ok(err)
}
