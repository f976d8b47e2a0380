//! Reads the operands of an instruction. Each function takes the rest of a plain line.

ghost use Rattle.std.specs.Prelude.{◌≡◌, ◌≤◌, ◌^◌, IfOk, IfSome};
ghost use Rattle.dma_insn.specs.LineReading.{ResultIs};
ghost use Rattle.dma_manual.specs.Words.{next_of};
ghost use Rattle.dma_manual.specs.declared.assembler.AsmCause.TheVariants.{Missing};
ghost use Rattle.dma_manual.specs.Operands.{digits_in, fault_at, field_at, flag_at, lettered, no_more, number_at, number_of, word_after};

use crate::assembler::{AsmCause, Fault, Operand};
use crate::words::next_word;
use dma_text::bytes::is_text;
use dma_text::digits::digit_value;

/// Returns the fault of a word, which `rest` follows.
pub fn fault_at(cause: AsmCause, word: &[u8], rest: &[u8]) -> Fault
    ensures { result ≡ fault_at cause word.now rest.now }
{
    Fault {
        cause,
        len: word.len(),
        after: rest.len(),
    }
}

/// Returns the next word and what follows it. Fails with `missing` if there is no word.
pub fn word_after(rest: &[u8], missing: Fault) -> Result<(&[u8], &[u8]), Fault>
    ensures { ResultIs (λ w. (w.0.now, w.1.now)) result (word_after rest.now missing) }
{
    next_word(rest).ok_or(missing)
}

/// Returns the next word and what follows it. Fails at the word before, `name`, if this operand is missing.
pub fn operand_after<'a>(
    operand: Operand,
    name: &[u8],
    rest: &'a [u8],
) -> Result<(&'a [u8], &'a [u8]), Fault>
    ensures { ResultIs (λ w. (w.0.now, w.1.now)) result
        (word_after rest.now (fault_at (Missing operand) name.now rest.now)) }
{
    word_after(rest, fault_at(AsmCause::Missing(operand), name, rest))
}

/// Succeeds if no word is left. Fails with `Extra` at the next word otherwise.
pub fn no_more(rest: &[u8]) -> Result<(), Fault>
    ensures { result ≡ no_more rest.now }
{
    match next_word(rest) {
        None => Ok(()),
        Some((word, after)) => Err(fault_at(AsmCause::Extra, word, after)),
    }
}

/// The cap of numbers, which is too large for any operand.
const TOO_LARGE: u64 = 1 << 32;

// Returns the number that digits spell, at most 2^32, or `None` if a byte is not a digit.
fn digits_in(digits: &[u8], radix: u64) -> Option<u64>
    ensures value { result ≡ digits_in radix digits.now }
    ensures range { IfSome result (λ n. n ≤ 2 ^ 32) }
{
    if digits.is_empty() {
        return None;
    }
    let mut value = 0u64;
    for byte in digits {
        let digit = u64::from(digit_value(*byte));
        if digit >= radix {
            return None;
        }
        value = value
            .saturating_mul(radix)
            .saturating_add(digit)
            .min(TOO_LARGE);
    }
    Some(value)
}

// Returns the number that a word spells, in decimal or, after `0x`, in hexadecimal digits, at most 2^32.
fn number_of(word: &[u8]) -> Option<u64>
    ensures value { result ≡ number_of word.now }
    ensures range { IfSome result (λ n. n ≤ 2 ^ 32) }
{
    match word {
        [b'0', b'x', digits @ ..] => digits_in(digits, 16),
        _ => digits_in(word, 10),
    }
}

/// Returns the number that `digits` spell, from `low` to `high`; the word and what follows it are the place of a fault.
pub fn number_at(
    cause: AsmCause,
    low: u64,
    high: u64,
    digits: &[u8],
    word: &[u8],
    rest: &[u8],
) -> Result<u64, Fault>
    ensures value { result ≡ number_at cause low high digits.now word.now rest.now }
    ensures range { IfOk result (λ n. (low ≤ n) × (n ≤ high)) }
{
    let Some(number) = number_of(digits) else {
        return Err(fault_at(AsmCause::Number, word, rest));
    };
    if low <= number && number <= high {
        Ok(number)
    } else {
        Err(fault_at(cause, word, rest))
    }
}

/// Returns the number that `digits` spell, from `low` to `high`. Fails with `cause` also if they spell none.
pub fn field_at(
    cause: AsmCause,
    low: u64,
    high: u64,
    digits: &[u8],
    word: &[u8],
    rest: &[u8],
) -> Result<u64, Fault>
    ensures value { result ≡ field_at cause low high digits.now word.now rest.now }
    ensures range { IfOk result (λ n. (low ≤ n) × (n ≤ high)) }
{
    let Some(number) = number_of(digits) else {
        return Err(fault_at(cause, word, rest));
    };
    if low <= number && number <= high {
        Ok(number)
    } else {
        Err(fault_at(cause, word, rest))
    }
}

/// Returns a number of at most `most`, which a letter may precede.
pub fn lettered(
    letter: u8,
    cause: AsmCause,
    most: u64,
    word: &[u8],
    rest: &[u8],
) -> Result<u64, Fault>
    ensures value { result ≡ lettered letter cause most word.now rest.now }
    ensures range { IfOk result (λ n. n ≤ most) }
{
    match word {
        [first, digits @ ..] if *first == letter => number_at(cause, 0, most, digits, word, rest),
        _ => number_at(cause, 0, most, word, word, rest),
    }
}

/// Returns whether the last word of a line is `flag`; no word is left if not.
pub fn flag_at(flag: &[u8], rest: &[u8]) -> Result<bool, Fault>
    ensures { result ≡ flag_at flag.now rest.now }
{
    let Some((word, rest)) = next_word(rest) else {
        return Ok(false);
    };
    if !is_text(word, flag) {
        return Err(fault_at(AsmCause::Extra, word, rest));
    }
    no_more(rest)?;
    Ok(true)
}
