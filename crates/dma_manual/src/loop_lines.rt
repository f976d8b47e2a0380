//! Reads the lines that begin and end loops.

ghost use Rattle.std.specs.Prelude.{◌≡◌, drop, map};
ghost use Rattle.dma_manual.specs.Statements.{again_at, again_by, again_line, counter_of, end_at, label_view, loop_end_line, loop_end_to, loop_line, times_line};
ghost use Rattle.dma_manual.specs.Words.{next_of};

use crate::assembler::{AsmCause, Fault, Operand};
use crate::insns::Request;
use crate::operands::{fault_at, no_more, number_at, word_after};
use crate::statements::{Again, End, Named, Statement, label_of};
use crate::words::next_word;
use dma_insn::insn::{Counter, Times};
use dma_text::bytes::is_text;

// Returns the loop counter that a word names.
fn counter_of(word: &[u8]) -> Option<Counter>
    ensures { result ≡ counter_of word.now }
{
    if is_text(word, b"lc0") {
        Some(Counter::Lc0)
    } else if is_text(word, b"lc1") {
        Some(Counter::Lc1)
    } else {
        None
    }
}

// Reads the number of times of a loop, the last word of its line.
fn times_line(counter: Option<Counter>, word: &[u8], rest: &[u8]) -> Result<Statement, Fault>
    ensures { result ≡ times_line counter word.now rest.now }
{
    let times = number_at(AsmCause::Times, 1, 256, word, word, rest)?;
    no_more(rest)?;
    Ok(Statement::Loop {
        counter,
        times: Times::of_number(times as u16),
    })
}

/// Reads the words after DMALP: a counter, which may be left out, and the number of times.
pub fn loop_line(name: &[u8], rest: &[u8]) -> Result<Statement, Fault>
    ensures { result ≡ loop_line name.now rest.now }
{
    let missing = fault_at(AsmCause::Missing(Operand::Times), name, rest);
    let (word, after) = word_after(rest, missing)?;
    match counter_of(word) {
        None => times_line(None, word, after),
        Some(counter) => {
            let (times, after) = word_after(after, missing)?;
            times_line(Some(counter), times, after)
        }
    }
}

// Reads where a DMALPEND jumps to: a label, or the number of bytes after a minus.
#[tactic(auto, using(std::proofs::lemmas::Grind::common_steps))]
fn end_at(labels: &[Named], counter: Counter, word: &[u8], rest: &[u8]) -> Result<End, Fault>
    ensures { result ≡ end_at (map label_view labels.now) counter word.now rest.now }
{
    match word {
        [b'-', digits @ ..] => {
            let back = number_at(AsmCause::Far, 0, 255, digits, word, rest)?;
            Ok(End::Back(counter, back as u8))
        }
        _ => {
            let offset = label_of(labels, word).ok_or(fault_at(AsmCause::Label, word, rest))?;
            Ok(End::To(counter, offset))
        }
    }
}

// Reads the words after a DMALPEND and a counter: none, or where it jumps to.
fn loop_end_to(
    labels: &[Named],
    condition: Option<Request>,
    counter: Counter,
    rest: &[u8],
) -> Result<Statement, Fault>
    ensures { result ≡ loop_end_to (map label_view labels.now) condition counter (next_of rest.now) }
{
    let Some((word, rest)) = next_word(rest) else {
        let end = End::Of(counter);
        return Ok(Statement::LoopEnd { condition, end });
    };
    let end = end_at(labels, counter, word, rest)?;
    no_more(rest)?;
    Ok(Statement::LoopEnd { condition, end })
}

// Reads what follows the jump of the DMALPEND of a DMALPFE: nothing, with which its bit lc is set, or the bit as `lc0` or
// `lc1`.
fn again_counter(rest: &[u8]) -> Result<Counter, Fault>
    ensures { result ≡ again_by (next_of rest.now) }
{
    let Some((word, rest)) = next_word(rest) else {
        return Ok(Counter::Lc1);
    };
    let counter = counter_of(word).ok_or(fault_at(AsmCause::Extra, word, rest))?;
    no_more(rest)?;
    Ok(counter)
}

// Reads the same of a DMALPEND that may be for a kind of request; if it is, nothing follows its jump.
fn again_at(condition: Option<Request>, rest: &[u8]) -> Result<Again, Fault>
    ensures { result ≡ again_at condition rest.now }
{
    match condition {
        None => Ok(Again::Always(again_counter(rest)?)),
        Some(request) => {
            no_more(rest)?;
            Ok(Again::If(request))
        }
    }
}

// Reads the words after a DMALPEND that begin with the number of bytes after a minus.
fn again_line(
    condition: Option<Request>,
    digits: &[u8],
    word: &[u8],
    rest: &[u8],
) -> Result<Statement, Fault>
    requires { digits.now ≡ drop 1 word.now }
    ensures { result ≡ again_line condition word.now rest.now }
{
    let back = number_at(AsmCause::Far, 0, 255, digits, word, rest)?;
    let again = again_at(condition, rest)?;
    Ok(Statement::LoopAgain {
        again,
        back: back as u8,
    })
}

/// Reads the words after a DMALPEND, which may be for a kind of request: none, a jump, a counter, or a counter and
/// where it jumps to.
pub fn loop_end_line(
    labels: &[Named],
    condition: Option<Request>,
    rest: &[u8],
) -> Result<Statement, Fault>
    ensures { result ≡ loop_end_line (map label_view labels.now) condition rest.now }
{
    match next_word(rest) {
        None => Ok(Statement::LoopEnd {
            condition,
            end: End::Innermost,
        }),
        Some((word, after)) => match word {
            [b'-', digits @ ..] => again_line(condition, digits, word, after),
            _ => {
                let counter = counter_of(word).ok_or(fault_at(AsmCause::Counter, word, after))?;
                loop_end_to(labels, condition, counter, after)
            }
        },
    }
}
