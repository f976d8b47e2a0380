//! Reads an array: numbers with `0x` in braces, each a byte.
ghost use Rattle.std.specs.Prelude.{◌≡◌};
ghost use Rattle.dma_manual.specs.Array.{array_step, count_step, element_end, element_step, ends_with, goes_to, is_of_array, is_space, lead_step, list_step, repeated_step, tail_step};

use crate::dump::{Cause, Effect};
use crate::forms::{is_digit_in, is_x};
use dma_text::digits::digit_value;
use dma_text::lines::is_blank;

/// What gdb prints before the number of times that an element is repeated.
const LEAD: [u8; 9] = *b"<repeats ";

/// What follows that number.
const TAIL: [u8; 7] = *b" times>";

/// The greatest count that one more digit may follow.
const MOST_BEFORE_DIGIT: u32 = 6_552;

/// What the last byte of an array was a part of.
#[derive(Clone, Copy)]
pub enum ArrayPlace {
    /// What comes before the brace that opens.
    Front,
    /// The blanks before an element.
    List,
    /// The `0` of an element.
    Zero,
    /// An element's digits, at most two, or its mark `0x`.
    Element {
        digits: u8,
        value: u8,
    },
    /// The blanks after an element.
    Behind {
        value: u8,
    },
    /// The words before the count of an element; how many of their bytes have been read.
    Lead {
        value: u8,
        matched: usize,
    },
    /// The count.
    Count {
        value: u8,
        count: u32,
    },
    /// The words after the count.
    Tail {
        value: u8,
        count: u32,
        matched: usize,
    },
    /// The blanks after the words.
    Repeated,
    /// What follows the brace that closes.
    Rest,
}

/// Returns whether a fault is of an array alone.
pub fn is_of_array(cause: Cause) -> bool
    ensures { result ≡ is_of_array cause }
{
    matches!(cause, Cause::Large | Cause::Elided | Cause::Count)
}

/// Goes on to a place.
fn goes_to(place: ArrayPlace) -> Result<(ArrayPlace, Effect), Cause>
    ensures { result ≡ goes_to place }
{
    Ok((place, Effect::Nothing))
}

/// Ends an element, and goes on to a place.
fn ends_with(value: u8, count: u32, place: ArrayPlace) -> Result<(ArrayPlace, Effect), Cause>
    ensures { result ≡ ends_with value count place }
{
    Ok((place, Effect::Element { value, count }))
}

/// Returns whether a byte is a blank or a line end.
fn is_space(byte: u8) -> bool
    ensures { result ≡ is_space byte }
{
    is_blank(byte) || byte == b'\n'
}

/// Takes a byte after blanks, a brace or a comma.
fn list_step(byte: u8) -> Result<(ArrayPlace, Effect), Cause>
    ensures { result ≡ list_step byte }
{
    match byte {
        b'0' => goes_to(ArrayPlace::Zero),
        b'}' => goes_to(ArrayPlace::Rest),
        _ if is_space(byte) => goes_to(ArrayPlace::List),
        _ => Err(Cause::Byte),
    }
}

/// Takes a byte after an element.
fn element_end(value: u8, byte: u8) -> Result<(ArrayPlace, Effect), Cause>
    ensures { result ≡ element_end value byte }
{
    match byte {
        b',' => ends_with(value, 1, ArrayPlace::List),
        b'}' => ends_with(value, 1, ArrayPlace::Rest),
        b'<' => goes_to(ArrayPlace::Lead { value, matched: 1 }),
        b'.' => Err(Cause::Elided),
        _ if is_space(byte) => goes_to(ArrayPlace::Behind { value }),
        _ => Err(Cause::Byte),
    }
}

/// Takes a byte after digits of an element.
fn element_step(digits: u8, value: u8, byte: u8) -> Result<(ArrayPlace, Effect), Cause>
    ensures { result ≡ element_step digits value byte }
{
    if !is_digit_in(false, byte) {
        return if digits == 0 {
            Err(Cause::Byte)
        } else {
            element_end(value, byte)
        };
    }
    if digits >= 2 {
        return Err(Cause::Large);
    }
    goes_to(ArrayPlace::Element {
        digits: digits + 1,
        value: value % 16 * 16 + digit_value(byte),
    })
}

/// Takes a byte after some of the words before a count.
fn lead_step(value: u8, matched: usize, byte: u8) -> Result<(ArrayPlace, Effect), Cause>
    ensures { result ≡ lead_step value matched byte }
{
    if matched >= LEAD.len() || byte != LEAD[matched] {
        return Err(Cause::Byte);
    }
    let matched = matched + 1;
    goes_to(if matched < LEAD.len() {
        ArrayPlace::Lead { value, matched }
    } else {
        ArrayPlace::Count { value, count: 0 }
    })
}

/// Takes a byte after digits of a count.
fn count_step(value: u8, count: u32, byte: u8) -> Result<(ArrayPlace, Effect), Cause>
    ensures { result ≡ count_step value count byte }
{
    let digit = digit_value(byte);
    if digit < 10 {
        return if count > MOST_BEFORE_DIGIT {
            Err(Cause::Count)
        } else {
            goes_to(ArrayPlace::Count {
                value,
                count: count * 10 + u32::from(digit),
            })
        };
    }
    if byte == b' ' && count > 0 {
        let matched = 1;
        return goes_to(ArrayPlace::Tail {
            value,
            count,
            matched,
        });
    }
    Err(Cause::Byte)
}

/// Takes a byte after some of the words that follow a count.
fn tail_step(value: u8, count: u32, matched: usize, byte: u8) -> Result<(ArrayPlace, Effect), Cause>
    ensures { result ≡ tail_step value count matched byte }
{
    if matched >= TAIL.len() || byte != TAIL[matched] {
        return Err(Cause::Byte);
    }
    let matched = matched + 1;
    if matched < TAIL.len() {
        goes_to(ArrayPlace::Tail {
            value,
            count,
            matched,
        })
    } else {
        ends_with(value, count, ArrayPlace::Repeated)
    }
}

/// Takes a byte after a count and its words.
fn repeated_step(byte: u8) -> Result<(ArrayPlace, Effect), Cause>
    ensures { result ≡ repeated_step byte }
{
    match byte {
        b',' => goes_to(ArrayPlace::List),
        b'}' => goes_to(ArrayPlace::Rest),
        b'.' => Err(Cause::Elided),
        _ if is_space(byte) => goes_to(ArrayPlace::Repeated),
        _ => Err(Cause::Byte),
    }
}

impl ArrayPlace {
    /// Takes the next byte of a text.
    pub fn next(self, byte: u8) -> Result<(ArrayPlace, Effect), Cause>
        ensures { result ≡ array_step self byte }
    {
        match self {
            ArrayPlace::Front if byte == b'{' => goes_to(ArrayPlace::List),
            ArrayPlace::Front => goes_to(ArrayPlace::Front),
            ArrayPlace::List => list_step(byte),
            ArrayPlace::Zero if is_x(byte) => goes_to(ArrayPlace::Element {
                digits: 0,
                value: 0,
            }),
            ArrayPlace::Zero => Err(Cause::Byte),
            ArrayPlace::Element { digits, value } => element_step(digits, value, byte),
            ArrayPlace::Behind { value } => element_end(value, byte),
            ArrayPlace::Lead { value, matched } => lead_step(value, matched, byte),
            ArrayPlace::Count { value, count } => count_step(value, count, byte),
            ArrayPlace::Tail {
                value,
                count,
                matched,
            } => tail_step(value, count, matched, byte),
            ArrayPlace::Repeated => repeated_step(byte),
            ArrayPlace::Rest if byte == b'{' => Err(Cause::Byte),
            ArrayPlace::Rest => goes_to(ArrayPlace::Rest),
        }
    }
}
