//! Reads the words after the first of a line, one after another.
ghost use Rattle.std.specs.Prelude.{◌≡◌, ◌==◌, ◌≤◌, [], codes, if◌then◌else◌, Err, IfOk, Ok, OnOk, is_some, unwrap_or};
ghost use Rattle.dma_script.specs.Words.{hex_pair_of, list_of, words_of};
ghost use Rattle.dma_script.specs.Arguments.{byte, bytes, bytes_at, event, fixed, kind, list, makes, segment, steps, where_not};
ghost use Rattle.dma_script.specs.inner.Reading.{LineRead, after_word, begins, ended, fixed_from, list_from, next_of, noted, number_from, read, skip_from, unread, within_from};

use crate::fault::Cause;
use crate::pairs::spaced_pairs;
use crate::words::{next_word, number, segment_before, segment_in, without_blanks};
use dma_mem::limits::MAX_SEGMENTS;
use dma_mem::lists::{Bytes, Segments};
use dma_mem::marks::MarkKind;
use dma_mem::segment::Segment;
use dma_text::bytes::{is_text, position_of};
use dma_text::digits::digit_value;
use dma_text::lines::is_blank;
use std::alloc::{AllocError, Global};
use std::marker::Model;
use std::mem;

/// The most steps of a line (profile).
pub const MAX_LINE_STEPS: u32 = 1_000_000;

/// The words of a line that were not read yet, and the faults of those that were. A read of a faulty word returns a
/// value too. [`Arguments::end`] then returns the first cause, as each is tested over all words before the next one.
#[derive(Drop)]
pub(crate) struct Arguments<'a> {
    rest: &'a [u8],
    // A word is missing, or a fixed word is wrong.
    misses: bool,
    // `Number` or `Hex`, for the first word that is not in its form.
    form: Option<Cause>,
    // The cause of the first number that is outside its range.
    range: Option<Cause>,
}

impl<'a> Model for Arguments<'a> {
    ghost use Rattle.dma_script.specs.Words.{words_of};
    ghost use Rattle.dma_script.specs.inner.Reading.{LineRead};

    ghost Value = { LineRead };

    ghost view = { λ a. record {
      left = words_of a.rest.now;
      misses = a.misses;
      form = a.form;
      range = a.range;
    } };
}

impl<'a> Arguments<'a> {
    /// Begins to read the words of a line.
    pub(crate) fn new(line: &'a [u8]) -> Arguments<'a>
        ensures { result ≡ unread (words_of line.now) }
    {
        Arguments {
            rest: line,
            misses: false,
            form: None,
            range: None,
        }
    }

    /// Reads the next word. If it is missing, returns a word without bytes.
    #[inline(always)]
    fn word(&mut self) -> &'a [u8]
        ensures word { result.now ≡ next_of self.old.left }
        ensures after { self.new ≡ after_word self.old }
    {
        let Some((word, rest)) = next_word(self.rest) else {
            self.misses = true;
            return &[];
        };
        self.rest = rest;
        word
    }

    /// Reads the next word if it is `text`, and returns whether it is.
    pub(crate) fn skip(&mut self, text: &[u8]) -> bool
        ensures same { result ≡ begins text.now self.old.left }
        ensures after { self.new ≡ skip_from text.now self.old }
    {
        if let Some((word, rest)) = next_word(self.rest)
            && is_text(word, text)
        {
            self.rest = rest;
            return true;
        }
        false
    }

    /// Reads a word that must be `text`.
    pub(crate) fn fixed(&mut self, text: &[u8])
        ensures { self.new ≡ fixed_from text.now self.old }
    {
        if !self.skip(text) {
            self.misses = true;
        }
    }

    /// Returns what a word spells. If it spells nothing, notes the cause and returns `default`.
    #[inline(always)]
    fn known<T: Drop>(&mut self, read: Option<T>, cause: Cause, default: T) -> T
        ensures value { result ≡ unwrap_or read default }
        ensures after { self.new ≡ noted (where_not (is_some read) cause) self.old }
    {
        if read.is_none() {
            self.form = self.form.or(Some(cause));
        }
        read.unwrap_or(default)
    }

    /// Reads a number.
    #[inline(always)]
    pub(crate) fn number(&mut self) -> u32
        ensures { (result, self.new) ≡ number_from self.old }
    {
        let read = number(self.word());
        self.known(read, Cause::Number, 0)
    }

    /// Reads a number from `low` to `high`. `cause` is the fault of any other number.
    #[inline(always)]
    pub(crate) fn within(&mut self, low: u32, high: u32, cause: Cause) -> u32
        requires { low ≤ high }
        ensures read { (result, self.new) ≡ within_from low high cause self.old }
        ensures low { low ≤ result }
        ensures high { result ≤ high }
    {
        let number = self.number();
        if (low..=high).contains(&number) {
            return number;
        }
        self.range = self.range.or(Some(cause));
        low
    }

    /// Reads a number of at most 255 of any form. Not inlined, since most such numbers are one digit.
    #[inline(never)]
    fn any_byte(&mut self) -> u8
        ensures { (result, self.new) ≡ read (byte makes) self.old }
    {
        self.within(0, 255, Cause::Range) as u8
    }

    /// Reads a number of at most 255, such as that of a channel or an event. Most have one digit, and are the last word
    /// or have a space after them.
    #[inline(always)]
    pub(crate) fn byte(&mut self) -> u8
        ensures { (result, self.new) ≡ read (byte makes) self.old }
    {
        let [digit @ b'0'..=b'9', after @ ..] = self.rest else {
            return self.any_byte();
        };
        self.rest = match after {
            [] => after,
            [b' ', rest @ ..] => rest,
            _ => return self.any_byte(),
        };
        *digit - b'0'
    }

    /// Reads the number of a step line, which is 1 if the line has no more words.
    pub(crate) fn count(&mut self) -> u32
        ensures { (result, self.new) ≡ read (steps makes) self.old }
    {
        if next_word(self.rest).is_none() {
            return 1;
        }
        self.within(1, MAX_LINE_STEPS, Cause::Range)
    }

    /// Reads `NAME E` if the next word is the name, and returns the event E.
    pub(crate) fn event(&mut self, name: &[u8]) -> Option<u8>
        ensures { (result, self.new) ≡ read (event name.now makes) self.old }
    {
        if !self.skip(name) {
            return None;
        }
        Some(self.byte())
    }

    /// Reads a segment.
    pub(crate) fn segment(&mut self) -> Segment
        ensures { (result, self.new) ≡ read (segment makes) self.old }
    {
        let read = segment_in(self.word());
        self.known(read, Cause::Number, Segment { addr: 0, len: 0 })
    }

    /// Reads a list of segments.
    pub(crate) fn list(&mut self, alloc: Global) -> Result<Segments, AllocError>
        ensures { IfOk result (λ list. (list, self.new) ≡ list_from self.old) }
    {
        let read = list_in(alloc, self.word())?;
        Ok(self.known(read, Cause::Number, Segments::new(alloc)))
    }

    /// Reads `to LIST`.
    pub(crate) fn to_list(&mut self, alloc: Global) -> Result<Segments, AllocError>
        ensures { IfOk result (λ places. (places, self.new) ≡ read (fixed (codes "to") (list makes)) self.old) }
    {
        self.fixed(b"to");
        self.list(alloc)
    }

    /// Reads the kind of a mark: loads fail at a `read` mark, stores at a `write` mark.
    pub(crate) fn mark_kind(&mut self) -> MarkKind
        ensures { (result, self.new) ≡ read (kind makes) self.old }
    {
        if self.skip(b"read") {
            return MarkKind::Reading;
        }
        self.fixed(b"write");
        MarkKind::Writing
    }

    /// Reads all words that are left, at least one, as hexadecimal digits, and returns their joined bytes. `kept` is
    /// the list into which they are read first: a short line allocates nothing if it is the same for each line.
    pub(crate) fn bytes(&mut self, alloc: Global, kept: &mut Vec<u8>) -> Result<Bytes, AllocError>
        ensures { IfOk result (λ found. (found, self.new) ≡ read (bytes makes) self.old) }
    {
        let words = mem::replace(&mut self.rest, &[]);
        if next_word(words).is_none() {
            self.misses = true;
        }
        if !read_hex(kept, words)? {
            kept.clear();
            self.form = self.form.or(Some(Cause::Hex));
        }
        Bytes::from_slice(alloc, kept)
    }

    /// Succeeds if the words that were read have no fault, and no word is left. Otherwise fails with the first cause.
    pub(crate) fn end(&self) -> Result<(), Cause>
        ensures { result ≡ ended self.now }
    {
        if self.misses || next_word(self.rest).is_some() {
            return Err(Cause::Words);
        }
        match self.form.or(self.range) {
            None => Ok(()),
            Some(cause) => Err(cause),
        }
    }
}

/// Returns an empty list with room for the segments of a word, whose number it estimates from the length of the first.
/// It allocates nothing for a single segment. Fails if memory runs out.
fn empty_list_for(alloc: Global, word: &[u8]) -> Result<Segments, AllocError>
    ensures { IfOk result (λ list. list ≡ []) }
{
    match position_of(b',', word) {
        Some(first) => Segments::with_capacity(
            alloc,
            MAX_SEGMENTS.min(word.len() / (first + 1) + 1),
        ),
        None => Ok(Segments::new(alloc)),
    }
}

/// Returns the segments that a word spells, or `None` for any other word.
fn list_in(alloc: Global, word: &[u8]) -> Result<Option<Segments>, AllocError>
    ensures { IfOk result (λ list. list ≡ list_of word.now) }
{
    let mut list = empty_list_for(alloc, word)?;
    let mut left = Some(word);
    while let Some(rest) = left {
        let Some((segment, after)) = segment_before(rest) else {
            return Ok(None);
        };
        list.push(segment)?;
        left = after;
    }
    Ok(Some(list))
}

/// Returns the byte that two hexadecimal digits spell, or `None` if one of them is not a digit.
pub(crate) fn byte_in(high: u8, low: u8) -> Option<u8>
    ensures { result ≡ hex_pair_of high low }
{
    let high = digit_value(high);
    let low = digit_value(low);
    if high < 16 && low < 16 {
        Some(16 * high + low)
    } else {
        None
    }
}

/// Replaces `bytes` by the joined bytes of a line's words of hexadecimal digits. Returns whether each word has an even
/// number of these.
fn read_hex(bytes: &mut Vec<u8>, line: &[u8]) -> Result<bool, AllocError>
    ensures { IfOk result (λ read.
        bytes_at (words_of line.now) ≡ (if read then Ok bytes.new.items else Err Cause.Hex)) }
{
    bytes.clear();
    // A byte takes at least two digits, so this is room for all bytes.
    bytes.reserve(line.len() / 2)?;
    let mut rest = spaced_pairs(bytes, line);
    while let [high, low, after @ ..] = rest {
        if let Some(byte) = byte_in(*high, *low) {
            bytes.push_reserved(byte);
            rest = after;
        } else if is_blank(*high) {
            rest = spaced_pairs(bytes, &rest[1..]);
        } else {
            return Ok(false);
        }
    }
    Ok(without_blanks(rest).is_empty())
}
