//! Reads a script line by line, up to its first fault.
ghost use Rattle.std.specs.Prelude.{◌≡◌, true};
ghost use Rattle.std.specs.List.{list_all};
ghost use Rattle.dma_script.specs.Lines.{Gives, after_line, after_script, first_number, is_skipped};
ghost use Rattle.dma_script.specs.Words.{is_plain, words_of};

use crate::fault::{Cause, Fault, LineError, ScriptError};
use crate::words::{is_plain_line, is_plain_text, split_script_line, without_blanks};
use std::alloc::Global;

/// A kind of script: the part of it that was read so far.
pub trait Script {
    ghost use Rattle.std.specs.Prelude.{List, ℕ, Result};
    ghost use Rattle.dma_script.specs.declared.fault.Cause.{Cause};
    ghost use Rattle.dma_script.specs.Lines.{Gives};
    ghost use Rattle.dma_script.specs.Words.{words_of};

    ghost View: { Type 0 };

    ghost view: { Self → View };

    ghost step: { View → List (List ℕ) → Result View Cause };

    /// Reads the words of the next line that is not skipped.
    fn take_line(&mut self, alloc: Global, words: &[u8]) -> Result<(), LineError>
        ensures { Gives (λ _. view self.new) result (step (view self.old) (words_of words.now)) };
}

/// Returns whether a line is skipped, and only counted: it has no words or is a comment. Tests only the first byte that
/// is not a blank.
#[tactic(auto, using(crate::proofs::Skipped::first_skips))]
fn is_skipped(line: &[u8]) -> bool
    ensures { result ≡ is_skipped (words_of line.now) }
{
    match without_blanks(line) {
        [] => true,
        [first, ..] => *first == b'#',
    }
}

/// Reads one line. `plain` means that the whole input was found to be plain, and saves the test of the line.
fn read_line<S: Script>(
    script: &mut S,
    alloc: Global,
    plain: bool,
    line: &[u8],
) -> Result<(), LineError>
    requires { plain ≡ true → list_all is_plain line.now ≡ true }
    ensures { Gives (λ _. S.view script.new) result
        (after_line S.step (S.view script.old) line.now) }
{
    if is_skipped(line) {
        return Ok(());
    }
    if !(plain || is_plain_line(line)) {
        return Err(LineError::Fault(Cause::Byte));
    }
    script.take_line(alloc, line)
}

/// Reads a whole script, or fails with its first fault or `NoMemory`. After an error nothing is known of `script`.
#[tactic(auto, using(crate::proofs::PlainLines::lines_plain, crate::proofs::PlainLines::first_plain, crate::proofs::PlainLines::rest_plain))]
pub fn read_script<S: Script>(
    script: &mut S,
    alloc: Global,
    input: &[u8],
) -> Result<(), ScriptError>
    ensures { Gives (λ _. S.view script.new) result
        (after_script S.step (S.view script.old) input.now) }
{
    let plain = is_plain_text(input);
    let mut rest = input;
    let mut number = 0usize;
    while !rest.is_empty() {
        let (line, after) = split_script_line(rest);
        number += 1;
        match read_line(script, alloc, plain, line) {
            Ok(()) => rest = after,
            Err(LineError::NoMemory) => return Err(ScriptError::NoMemory),
            Err(LineError::Fault(cause)) => {
                return Err(ScriptError::Fault(Fault {
                    line: number,
                    cause,
                }));
            }
        }
    }
    Ok(())
}

/// Returns the number of the first line that is not skipped, from 1, or one more than the number of lines if all are
/// skipped.
pub fn first_number(input: &[u8]) -> usize
    ensures { result ≡ first_number input.now }
{
    let mut rest = input;
    let mut number = 1usize;
    while !rest.is_empty() {
        let (line, after) = split_script_line(rest);
        if !is_skipped(line) {
            return number;
        }
        number += 1;
        rest = after;
    }
    number
}
