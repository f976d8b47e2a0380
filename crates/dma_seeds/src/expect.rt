//! The lines `expect TEXT` of a race script.

ghost use Rattle.std.specs.Prelude.{◌≡◌, ◌≤◌, ◌++◌, IfOk, MatchOption, OnErr, OnOk, [], ◌∷◌, length, map};
ghost use Rattle.std.specs.List.{sum};
ghost use Rattle.std.specs.Option.{option_map};
ghost use Rattle.std.specs.Str.Lines.{lines};
ghost use Rattle.dma_io.specs.Command.{text_of};
ghost use Rattle.dma_script.specs.Words.{words_of};
ghost use Rattle.dma_seeds.specs.Expect.{after_line, after_lines, compared, emptied, expected_in, has_expects, is_answered, is_good, missed_line, next_answer, spaced, verdict_on, verdict_text, without_expects};
ghost use Rattle.dma_seeds.specs.inner.Measured.{pieces};

use dma_io::printing::print_line;
use dma_mem::lists::Bytes;
use dma_script::words::{next_word, split_script_line};
use dma_text::bytes::is_text;
use dma_text::text::Text;
use std::alloc::{AllocError, Global};
use std::marker::Model;

/// An `expect` line that fails.
#[derive(Drop)]
pub struct Missed {
    /// The seed.
    pub seed: u64,
    /// The number of the line, from 1.
    pub line: usize,
    /// The printed line that it was compared with, if there is one.
    pub got: Option<Bytes>,
    /// Its text.
    pub wanted: Bytes,
}

/// Whether a race script is good.
#[derive(Drop)]
pub enum Verdict {
    /// It has no fault, and its `expect` lines hold.
    Holds,
    /// It has a fault.
    Refused,
    /// It has no fault. This is the first `expect` line that fails.
    Misses(Missed),
}

/// A printed line in quotes, or `nothing`.
#[derive(Drop)]
struct Got<'a>(Option<&'a [u8]>);

impl Text for Got<'_> {
    ghost use Rattle.std.specs.Option.{option_map};
    ghost use Rattle.dma_seeds.specs.Expect.{got_text};

    ghost text = { λ got. got_text (option_map (λ line. line.now) got.0) };

    fn push(&self, out: &mut Vec<u8>) -> Result<(), AllocError> {
        match self.0 {
            Some(line) => ("'", line, "'").push(out),
            None => "nothing".push(out),
        }
    }
}

impl Text for Missed {
    ghost text = { missed_line };

    fn push(&self, out: &mut Vec<u8>) -> Result<(), AllocError> {
        let got = Got(self.got.as_ref().map(|line| line.as_slice()));
        let place = (self.line, ": seed ", self.seed);
        (
            place,
            ": got ",
            got,
            (", wanted '", self.wanted.as_slice(), "'"),
        )
            .push(out)
    }
}

impl Verdict {
    /// Returns whether the script has no fault, and all its `expect` lines hold.
    pub fn is_good(&self) -> bool
        ensures { result ≡ is_good self.now }
    {
        matches!(self, Verdict::Holds)
    }

    /// Appends the message for the `expect` line that fails, or nothing if none fails or memory runs out.
    pub fn print(&self, out: &mut Vec<u8>) -> Result<(), AllocError>
        ensures ok { OnOk result (out.new.items ≡ out.old.items ++ verdict_text self.now) }
        ensures err { OnErr result (out.new.items ≡ out.old.items) }
    {
        match self {
            Verdict::Misses(missed) => print_line(out, missed),
            _ => Ok(()),
        }
    }
}

/// Returns words with a space between two. Fails if memory runs out.
fn spaced(alloc: Global, words: &[u8]) -> Result<Vec<u8>, AllocError>
    ensures { IfOk result (λ text. text.items ≡ spaced (words_of words.now)) }
{
    let mut text = Vec::new(alloc);
    let Some((first, mut rest)) = next_word(words) else {
        return Ok(text);
    };
    text.extend_from_slice(first)?;
    while let Some((word, after)) = next_word(rest) {
        text.push(b' ')?;
        text.extend_from_slice(word)?;
        rest = after;
    }
    Ok(text)
}

/// Returns the words after `expect`, of which there is at least one, or `None` for any other line.
fn expected_in(line: &[u8]) -> Option<&[u8]>
    ensures { option_map (λ words. spaced (words_of words.now)) result
        ≡ expected_in (words_of line.now) }
{
    let (word, words) = next_word(line)?;
    if !is_text(word, b"expect") {
        return None;
    }
    next_word(words)?;
    Some(words)
}

/// Returns whether a script has an `expect` line.
fn has_expects(script: &[u8]) -> bool
    ensures { result ≡ has_expects script.now }
{
    let mut rest = script;
    while !rest.is_empty() {
        let (line, after) = split_script_line(rest);
        if expected_in(line).is_some() {
            return true;
        }
        rest = after;
    }
    false
}

/// Returns the lines of a script with the `expect` lines empty. Fails if memory runs out.
fn emptied_lines(alloc: Global, script: &[u8]) -> Result<Vec<u8>, AllocError>
    ensures { IfOk result (λ text. text.items ≡ text_of (map emptied (lines script.now))) }
{
    let mut text = Vec::new(alloc);
    let mut rest = script;
    while !rest.is_empty() {
        let (line, after) = split_script_line(rest);
        let kept = if expected_in(line).is_some() {
            &[]
        } else {
            line
        };
        print_line(&mut text, &kept)?;
        rest = after;
    }
    Ok(text)
}

/// Returns a script with its `expect` lines empty, and so with the numbers of the other lines. A script without them
/// stays the same. Fails if memory runs out.
pub(crate) fn without_expects(alloc: Global, script: &[u8]) -> Result<Vec<u8>, AllocError>
    ensures { IfOk result (λ text. text.items ≡ without_expects script.now) }
{
    if has_expects(script) {
        emptied_lines(alloc, script)
    } else {
        Vec::from_slice(alloc, script)
    }
}

/// What of a race's output is left to compare.
#[derive(Drop)]
struct Printed<'a> {
    /// The lines of the last answer that are left.
    left: &'a [u8],
    /// The answers after it.
    text: &'a [u8],
    /// The lengths of these.
    lengths: &'a [usize],
}

impl<'a> Model for Printed<'a> {
    ghost use Rattle.std.specs.Prelude.{◌≤◌, length};
    ghost use Rattle.std.specs.List.{sum};
    ghost use Rattle.std.specs.Str.Lines.{lines};
    ghost use Rattle.dma_seeds.specs.Expect.{Unread};
    ghost use Rattle.dma_seeds.specs.inner.Measured.{pieces};

    ghost Value = { Unread };

    ghost view = { λ p. record { left = lines p.left.now; answers = pieces p.lengths.now p.text.now } };

    ghost invariant = { λ p. sum p.lengths.now ≤ length p.text.now };
}

impl<'a> Printed<'a> {
    /// Returns what is left behind the next answer begins.
    fn next_answer(self) -> Printed<'a>
        ensures { result ≡ next_answer self.entry.answers }
    {
        let [length, lengths @ ..] = self.lengths else {
            return Printed {
                left: &[],
                text: &[],
                lengths: &[],
            };
        };
        let (left, text) = self.text.split_at(*length);
        Printed {
            left,
            text,
            lengths,
        }
    }

    /// Takes the next line that is left, or returns `None` if none is.
    fn next_line(&mut self) -> Option<&'a [u8]>
        ensures left { MatchOption result (self.old.left ≡ [])
            (λ line. self.old.left ≡ line.now ∷ self.new.left) }
        ensures answers { self.new.answers ≡ self.old.answers }
    {
        if self.left.is_empty() {
            return None;
        }
        let (line, left) = split_script_line(self.left);
        self.left = left;
        Some(line)
    }
}

/// Compares the next line that is left with the text of an `expect` line, given its words. Returns what is left then,
/// or that the line fails. Fails if memory runs out.
fn compared<'a>(
    alloc: Global,
    seed: u64,
    number: usize,
    words: &[u8],
    printed: Printed<'a>,
) -> Result<Result<Printed<'a>, Missed>, AllocError>
    ensures { IfOk result (λ after. after
        ≡ compared seed number (spaced (words_of words.now))
        printed.entry.left printed.entry.answers) }
{
    let wanted = spaced(alloc, words)?;
    let mut printed = printed;
    let got = match printed.next_line() {
        Some(line) if line == wanted.as_slice() => return Ok(Ok(printed)),
        Some(line) => Some(Bytes::from_slice(alloc, line)?),
        None => None,
    };
    Ok(Err(Missed {
        seed,
        line: number,
        got,
        wanted: Bytes::from_vec(wanted)?,
    }))
}

/// Returns whether a line that is no `expect` line has an answer.
fn is_answered(line: &[u8]) -> bool
    ensures { result ≡ is_answered (words_of line.now) }
{
    match next_word(line) {
        None => false,
        Some((word, _)) => !(word.first() == Some(&b'#') || is_text(word, b"job")),
    }
}

/// Returns what of the output is left after a line of a script, or that the line fails. Fails if memory runs out.
fn after_line<'a>(
    alloc: Global,
    seed: u64,
    number: usize,
    line: &[u8],
    printed: Printed<'a>,
) -> Result<Result<Printed<'a>, Missed>, AllocError>
    ensures { IfOk result (λ after. after ≡ after_line seed number printed.entry line.now) }
{
    if let Some(words) = expected_in(line) {
        return compared(alloc, seed, number, words, printed);
    }
    if is_answered(line) {
        return Ok(Ok(printed.next_answer()));
    }
    Ok(Ok(printed))
}

/// Returns whether the `expect` lines of a script hold, given the text that was printed for a seed, and the lengths of
/// the answers in it. Fails if memory runs out.
pub(crate) fn lines_verdict(
    alloc: Global,
    seed: u64,
    script: &[u8],
    text: &[u8],
    lengths: &[usize],
) -> Result<Verdict, AllocError>
    requires { sum lengths.now ≤ length text.now }
    ensures { IfOk result (λ verdict. verdict ≡ verdict_on (after_lines seed 0
        (record { left = []; answers = pieces lengths.now text.now }) (lines script.now))) }
{
    let mut printed = Printed {
        left: &[],
        text,
        lengths,
    };
    let mut rest = script;
    let mut number = 0usize;
    while !rest.is_empty() {
        let (line, after) = split_script_line(rest);
        number += 1;
        match after_line(alloc, seed, number, line, printed)? {
            Ok(next) => printed = next,
            Err(missed) => return Ok(Verdict::Misses(missed)),
        }
        rest = after;
    }
    Ok(Verdict::Holds)
}
