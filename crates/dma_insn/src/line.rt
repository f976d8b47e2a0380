//! Parses one line of assembly text into its words and its instruction.

ghost use Rattle.std.specs.Prelude.{◌≡◌, ◌+◌, ◌<◌, ◌∷◌, [], length, Option, MatchOption, IfSome, Result, Ok};
ghost use Rattle.dma_insn.specs.AssemblyText.{words_of, is_skipped};
ghost use Rattle.dma_insn.specs.LineReading.{ResultIs, words_after, no_word, one_word, two_words, wait_words, digit_of, digits_from, number_at, hex_digit_of, hex_from, value_at, register_at, counter_at, times_at, back_at, event_at, two_numbers, loop_line, loop_end_line, signal_line, wait_line, set_line, bare_line, line_by, line_in};

use crate::assembler::AsmCause;
use crate::insn::{Counter, Event, Insn, Reg, Times};
use dma_text::bytes::{is_text, position_of};
use dma_text::lines::is_all_spaces;

// Returns the first word, and the rest of the line, which is empty or begins with the space after the word.
#[tactic(auto, using(crate::proofs::FirstWords::words_at, crate::proofs::FirstWords::words_none))]
fn split_word(text: &[u8]) -> (&[u8], &[u8])
    ensures { words_of text.now ≡ result.0.now ∷ words_after result.1.now }
{
    match position_of(b' ', text) {
        Some(end) => (&text[..end], &text[end..]),
        None => (text, &[]),
    }
}

// Returns the next word and the rest of the line, or `None` if no word is left.
fn next_word(rest: &[u8]) -> Option<(&[u8], &[u8])>
    ensures { MatchOption result (words_after rest.now ≡ [])
        (λ w. words_after rest.now ≡ w.0.now ∷ words_after w.1.now) }
{
    match rest {
        [] => None,
        [_, text @ ..] => Some(split_word(text)),
    }
}

/// Returns whether a line is empty, has only spaces or begins with `#`.
pub fn is_skipped(line: &[u8]) -> bool
    ensures { result ≡ is_skipped line.now }
{
    is_all_spaces(line) || line.first() == Some(&b'#')
}

// Succeeds if no word is left. Fails with `Operand` otherwise.
fn no_more(rest: &[u8]) -> Result<(), AsmCause>
    ensures { result ≡ no_word (words_after rest.now) }
{
    if next_word(rest).is_some() {
        return Err(AsmCause::Operand);
    }
    Ok(())
}

// Returns the one word that is left. Fails with `Operand` for none, or more than one.
fn one(rest: &[u8]) -> Result<&[u8], AsmCause>
    ensures { ResultIs (λ a. a.now) result (one_word (words_after rest.now)) }
{
    let (a, rest) = next_word(rest).ok_or(AsmCause::Operand)?;
    no_more(rest)?;
    Ok(a)
}

// Returns the two words that are left. Fails with `Operand` for fewer or more.
fn two(rest: &[u8]) -> Result<(&[u8], &[u8]), AsmCause>
    ensures { ResultIs (λ w. (w.0.now, w.1.now)) result (two_words (words_after rest.now)) }
{
    let (a, rest) = next_word(rest).ok_or(AsmCause::Operand)?;
    let (b, rest) = next_word(rest).ok_or(AsmCause::Operand)?;
    no_more(rest)?;
    Ok((a, b))
}

// Returns the next word, and whether the word `invalid` follows it. Fails with `Operand` for no word, another second
// word, or a third.
fn one_or_invalid(rest: &[u8]) -> Result<(&[u8], bool), AsmCause>
    ensures { ResultIs (λ w. (w.0.now, w.1)) result (wait_words (words_after rest.now)) }
{
    let (a, rest) = next_word(rest).ok_or(AsmCause::Operand)?;
    let Some((b, rest)) = next_word(rest) else {
        return Ok((a, false));
    };
    if next_word(rest).is_some() || !is_text(b, b"invalid") {
        return Err(AsmCause::Operand);
    }
    Ok((a, true))
}

// Returns the value of a decimal digit, or `None` for any other byte.
fn decimal_digit(byte: u8) -> Option<u16>
    ensures { result ≡ digit_of byte }
{
    match byte {
        b'0'..=b'9' => Some(u16::from(byte - b'0')),
        _ => None,
    }
}

// Returns the number that decimal digits spell, capped at 65,535, or `None` if a byte is not a digit.
#[tactic(auto, using(std::proofs::lemmas::Grind::common_steps))]
fn digits(word: &[u8]) -> Option<u16>
    ensures { result ≡ digits_from 0 word.now }
{
    let mut value = 0u16;
    for byte in word {
        value = value
            .saturating_mul(10)
            .saturating_add(decimal_digit(*byte)?);
    }
    Some(value)
}

// Returns the decimal number that a word spells, capped at 65,535. Fails with `Operand` for leading zeros or any other
// word.
fn number(word: &[u8]) -> Result<u16, AsmCause>
    ensures { result ≡ number_at word.now }
{
    match word {
        [] => Err(AsmCause::Operand),
        [_] => digits(word).ok_or(AsmCause::Operand),
        [first, ..] => {
            if *first == b'0' {
                return Err(AsmCause::Operand);
            }
            digits(word).ok_or(AsmCause::Operand)
        }
    }
}

// Returns the value of a hexadecimal digit, in capitals only, or `None` for any other byte.
fn hex_digit(byte: u8) -> Option<u32>
    ensures value { result ≡ hex_digit_of byte }
    ensures range { IfSome result (λ d. d < 16) }
{
    match byte {
        b'0'..=b'9' => Some(u32::from(byte - b'0')),
        b'A'..=b'F' => Some(u32::from(byte - b'A') + 10),
        _ => None,
    }
}

// Returns the number that eight hexadecimal digits spell, or `None` if a byte is not a digit.
fn hex_value(digits: &[u8]) -> Option<u32>
    requires { length digits.now ≡ 8 }
    ensures { result ≡ hex_from 0 digits.now }
{
    let mut value = 0u32;
    for byte in digits {
        value = value * 16 + hex_digit(*byte)?;
    }
    Some(value)
}

// Returns the value of a word of `0x` and eight hexadecimal digits. Fails with `Operand` for any other word.
fn value(word: &[u8]) -> Result<u32, AsmCause>
    ensures { result ≡ value_at word.now }
{
    match word {
        [b'0', b'x', digits @ ..] if digits.len() == 8 => hex_value(digits).ok_or(
            AsmCause::Operand,
        ),
        _ => Err(AsmCause::Operand),
    }
}

// Returns the register of a name. Fails with `Operand` for any other word.
fn register(word: &[u8]) -> Result<Reg, AsmCause>
    ensures { result ≡ register_at word.now }
{
    if is_text(word, b"SAR") {
        Ok(Reg::Sar)
    } else if is_text(word, b"CCR") {
        Ok(Reg::Ccr)
    } else if is_text(word, b"DAR") {
        Ok(Reg::Dar)
    } else {
        Err(AsmCause::Operand)
    }
}

// Returns the loop counter of a number. Fails with `Range` above 1.
fn counter(number: u16) -> Result<Counter, AsmCause>
    ensures { result ≡ counter_at number }
{
    match number {
        0 => Ok(Counter::Lc0),
        1 => Ok(Counter::Lc1),
        _ => Err(AsmCause::Range),
    }
}

// Returns the number of times that a loop runs. Fails with `Range` if it is not 1 to 256.
fn times(number: u16) -> Result<Times, AsmCause>
    ensures { result ≡ times_at number }
{
    Times::new(number).ok_or(AsmCause::Range)
}

// Returns the length of a jump back, in bytes. Fails with `Range` above 255.
fn back(number: u16) -> Result<u8, AsmCause>
    ensures { result ≡ back_at number }
{
    u8::try_from(number).or(Err(AsmCause::Range))
}

// Returns the event of a number. Fails with `Range` above 31.
fn event(number: u16) -> Result<Event, AsmCause>
    ensures { result ≡ event_at number }
{
    u8::try_from(number)
        .ok()
        .and_then(Event::new)
        .ok_or(AsmCause::Range)
}

// Returns the two decimal numbers that are left. Fails with `Operand` for any other words.
fn numbers(rest: &[u8]) -> Result<(u16, u16), AsmCause>
    ensures { result ≡ two_numbers (words_after rest.now) }
{
    let (a, b) = two(rest)?;
    let a = number(a)?;
    let b = number(b)?;
    Ok((a, b))
}

// Parses the words after DMALP: a counter, and the number of times that the loop runs.
fn loop_start(rest: &[u8]) -> Result<Insn, AsmCause>
    ensures { result ≡ loop_line (words_after rest.now) }
{
    let (a, b) = numbers(rest)?;
    let counter = counter(a)?;
    let times = times(b)?;
    Ok(Insn::Lp { counter, times })
}

// Parses the words after DMALPEND: a counter and a jump.
fn loop_end(rest: &[u8]) -> Result<Insn, AsmCause>
    ensures { result ≡ loop_end_line (words_after rest.now) }
{
    let (a, b) = numbers(rest)?;
    let counter = counter(a)?;
    let back = back(b)?;
    Ok(Insn::LpEnd { counter, back })
}

// Parses the word after DMASEV: an event.
fn signal(rest: &[u8]) -> Result<Insn, AsmCause>
    ensures { result ≡ signal_line (words_after rest.now) }
{
    let word = one(rest)?;
    let number = number(word)?;
    Ok(Insn::Sev(event(number)?))
}

// Parses the words after DMAWFE: an event, and optionally `invalid`.
fn wait(rest: &[u8]) -> Result<Insn, AsmCause>
    ensures { result ≡ wait_line (words_after rest.now) }
{
    let (word, invalid) = one_or_invalid(rest)?;
    let number = number(word)?;
    let event = event(number)?;
    Ok(Insn::Wfe { event, invalid })
}

// Parses the words after DMAMOV: a register and its value.
fn set_register(rest: &[u8]) -> Result<Insn, AsmCause>
    ensures { result ≡ set_line (words_after rest.now) }
{
    let (a, b) = two(rest)?;
    let register = register(a)?;
    let value = value(b)?;
    Ok(Insn::Mov(register, value))
}

// Returns an instruction that takes no words. Fails with `Operand` if a word is left.
fn bare(insn: Insn, rest: &[u8]) -> Result<Insn, AsmCause>
    ensures { result ≡ bare_line insn (words_after rest.now) }
{
    no_more(rest)?;
    Ok(insn)
}

// Returns the instruction of a name and the words after it, or the first cause that applies.
fn by_name(name: &[u8], rest: &[u8]) -> Result<Insn, AsmCause>
    ensures { result ≡ line_by name.now (words_after rest.now) }
{
    if is_text(name, b"DMAEND") {
        bare(Insn::End, rest)
    } else if is_text(name, b"DMALD") {
        bare(Insn::Ld, rest)
    } else if is_text(name, b"DMAST") {
        bare(Insn::St, rest)
    } else if is_text(name, b"DMARMB") {
        bare(Insn::Rmb, rest)
    } else if is_text(name, b"DMAWMB") {
        bare(Insn::Wmb, rest)
    } else if is_text(name, b"DMANOP") {
        bare(Insn::Nop, rest)
    } else if is_text(name, b"DMALP") {
        loop_start(rest)
    } else if is_text(name, b"DMALPEND") {
        loop_end(rest)
    } else if is_text(name, b"DMASEV") {
        signal(rest)
    } else if is_text(name, b"DMAWFE") {
        wait(rest)
    } else if is_text(name, b"DMAMOV") {
        set_register(rest)
    } else {
        Err(AsmCause::Mnemonic)
    }
}

/// Returns the instruction of a line, or the first cause that applies.
#[tactic(auto, unfolding(crate::specs::LineReading::line_in))]
pub fn read_line(line: &[u8]) -> Result<Insn, AsmCause>
    ensures { result ≡ line_in (words_of line.now) }
{
    let (name, rest) = split_word(line);
    by_name(name, rest)
}
