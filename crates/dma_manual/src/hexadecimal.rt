//! Reads bytes from hexadecimal text.
ghost use Rattle.std.specs.Prelude.{◌≡◌, ◌<◌, ◌≤◌, ◌++◌, Err, IfOk, MatchResult, Ok, OnOk, length, take};
ghost use Rattle.dma_manual.specs.Hexadecimal.{between, column_of, is_gap, is_whole, line_of, may_follow, next_digit, next_of, number_bytes, read_from, size_of, spelled};

use crate::addresses::{is_digit, without_addresses};
use dma_text::digits::digit_value;
use std::alloc::{AllocError, Global};

/// How a text spells bytes: by numbers of one size.
#[derive(Clone, Copy)]
pub enum Notation {
    /// Each byte by two digits.
    Pairs,
    /// Each 32-bit word by eight digits.
    Words,
}

/// What the last byte of a text was a part of.
#[derive(Clone, Copy)]
pub enum Reading {
    /// A gap.
    Between,
    /// A comment.
    Comment,
    /// A number, or its mark `0x`. `value` is what the digits so far spell.
    Number {
        is_marked: bool,
        digits: u8,
        value: u32,
    },
}

impl Notation {
    /// Returns how many bytes a number has.
    fn size(self) -> u8
        ensures size { result ≡ size_of self }
        ensures most { result ≤ 4 }
    {
        match self {
            Notation::Pairs => 1,
            Notation::Words => 4,
        }
    }

    /// Returns whether a number may begin right after another one, which has a mark or not.
    fn may_follow(self, is_marked: bool) -> bool
        ensures { result ≡ may_follow self is_marked }
    {
        match self {
            Notation::Pairs => !is_marked,
            Notation::Words => false,
        }
    }
}

/// Returns whether a byte may be between numbers: a space, a tab, a carriage return, a line feed or a comma.
pub fn is_gap(byte: u8) -> bool
    ensures { result ≡ is_gap byte }
{
    matches!(byte, b' ' | b'\t' | b'\r' | b'\n' | b',')
}

/// Returns the number with one more digit, and its value if that is the last one; or `None` if the byte is no digit.
fn next_digit(
    notation: Notation,
    is_marked: bool,
    digits: u8,
    value: u32,
    byte: u8,
) -> Option<(Reading, Option<u32>)>
    requires { digits < 8 }
    ensures { result ≡ next_digit notation is_marked digits value byte }
{
    if !is_digit(byte) {
        return None;
    }
    let value = value % (1 << 28) * 16 + u32::from(digit_value(byte));
    let digits = digits + 1;
    let number = Reading::Number {
        is_marked,
        digits,
        value,
    };
    let is_last = digits == 2 * notation.size();
    Some((number, is_last.then_some(value)))
}

/// Returns what a byte that isn't inside a number is a part of, or `None` if the byte can't be there. A digit can if
/// `may_begin`.
fn between(notation: Notation, may_begin: bool, byte: u8) -> Option<(Reading, Option<u32>)>
    ensures { result ≡ between notation may_begin byte }
{
    if is_gap(byte) {
        Some((Reading::Between, None))
    } else if byte == b'#' {
        Some((Reading::Comment, None))
    } else if may_begin {
        next_digit(notation, false, 0, 0, byte)
    } else {
        None
    }
}

impl Reading {
    /// Returns what the next byte is a part of, and the number whose last digit it is, if any. Returns `None` if it
    /// can't be the next byte.
    fn next(self, notation: Notation, byte: u8) -> Option<(Reading, Option<u32>)>
        ensures { result ≡ next_of notation self byte }
    {
        match self {
            Reading::Comment if byte == b'\n' => Some((Reading::Between, None)),
            Reading::Comment => Some((Reading::Comment, None)),
            Reading::Between => between(notation, true, byte),
            Reading::Number {
                is_marked: false,
                digits: 1,
                value: 0,
            } if matches!(byte, b'x' | b'X') => Some((
                Reading::Number {
                    is_marked: true,
                    digits: 0,
                    value: 0,
                },
                None,
            )),
            Reading::Number {
                is_marked,
                digits,
                value,
            } if digits < 2 * notation.size() => {
                next_digit(notation, is_marked, digits, value, byte)
            }
            Reading::Number { is_marked, .. } => {
                between(notation, notation.may_follow(is_marked), byte)
            }
        }
    }

    /// Returns whether a text may end here.
    fn is_whole(self, notation: Notation) -> bool
        ensures { result ≡ is_whole notation self }
    {
        match self {
            Reading::Between | Reading::Comment => true,
            Reading::Number { digits, .. } => digits >= 2 * notation.size(),
        }
    }
}

/// Appends the bytes of a number, the lowest first, if there is one.
fn push_number(
    bytes: &mut Vec<u8>,
    notation: Notation,
    number: Option<u32>,
) -> Result<(), AllocError>
    ensures { OnOk result (bytes.new.items ≡ bytes.old.items ++ number_bytes notation number) }
{
    if let Some(number) = number {
        bytes.extend_from_slice(&number.to_le_bytes()[..usize::from(notation.size())])?;
    }
    Ok(())
}

/// Returns the bytes of the numbers of a text, or the offset of the first byte that is no part of a number, a gap or a
/// comment.
fn read(
    alloc: Global,
    notation: Notation,
    text: &[u8],
) -> Result<Result<Vec<u8>, usize>, AllocError>
    ensures { IfOk result (λ read. MatchResult read
        (λ bytes. read_from notation Reading.Between 0 text.now ≡ Ok bytes.items)
        (λ at. (read_from notation Reading.Between 0 text.now ≡ Err at) × (at ≤ length text.now))) }
{
    let mut bytes = Vec::new(alloc);
    let mut reading = Reading::Between;
    for (at, byte) in text.iter().enumerate() {
        let Some((next, number)) = reading.next(notation, *byte) else {
            return Ok(Err(at));
        };
        reading = next;
        push_number(&mut bytes, notation, number)?;
    }
    Ok(if reading.is_whole(notation) {
        Ok(bytes)
    } else {
        Err(text.len())
    })
}

/// Returns the bytes that a text spells, or the offset of its first fault. Fails if memory runs out.
pub fn read_hexadecimal(
    alloc: Global,
    notation: Notation,
    text: &[u8],
) -> Result<Result<Vec<u8>, usize>, AllocError>
    ensures { IfOk result (λ read. MatchResult read
        (λ bytes. spelled notation text.now ≡ Ok bytes.items)
        (λ at. (spelled notation text.now ≡ Err at) × (at ≤ length text.now))) }
{
    let text = without_addresses(alloc, text)?;
    read(alloc, notation, &text)
}

/// Returns the bytes before an offset of a text, or all if it has fewer.
fn front(text: &[u8], at: usize) -> &[u8]
    ensures { result.now ≡ take at text.now }
{
    if at < text.len() { &text[..at] } else { text }
}

/// Returns the line of an offset of a text, counted from 1.
pub fn line_of(text: &[u8], at: usize) -> usize
    ensures { result ≡ line_of text.now at }
{
    front(text, at)
        .iter()
        .filter(|byte| **byte == b'\n')
        .count()
        + 1
}

/// Returns the column of an offset of a text, counted from 1.
pub fn column_of(text: &[u8], at: usize) -> usize
    ensures { result ≡ column_of text.now at }
{
    let mut column = 1;
    for byte in front(text, at) {
        column = if *byte == b'\n' { 1 } else { column + 1 };
    }
    column
}
