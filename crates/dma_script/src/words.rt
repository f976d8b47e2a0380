//! The words of a line, and what a word spells.
ghost use Rattle.std.specs.Prelude.{◌≡◌, ◌==◌, ◌||◌, ◌∷◌, [], ◌<◌, ◌≤◌, MatchOption, false, true, length, position, slice_index};
ghost use Rattle.std.specs.List.{list_all};
ghost use Rattle.std.specs.Str.Lines.{lines, strip_carriage_return};
ghost use Rattle.dma_text.specs.Lines.{is_blank};
ghost use Rattle.dma_script.specs.Words.{is_plain, number_before, number_of, segment_of, words_of};
ghost use Rattle.dma_script.specs.inner.Reading.{NoBlank};
ghost use Rattle.dma_script.specs.inner.Digits.{digits_before, segment_before};
ghost use Rattle.std.specs.Option.{option_map};
ghost use Rattle.std.specs.Char.{digit_value};

use dma_mem::segment::Segment;
use dma_text::bytes::position_of;
use dma_text::digits::digit_value;
use dma_text::lines::is_blank;
use memchr::memchr2;

/// Returns the line without a carriage return at its end.
fn without_return(line: &[u8]) -> &[u8]
    ensures { result.now ≡ strip_carriage_return line.now }
{
    match line {
        [front @ .., b'\r'] => front,
        _ => line,
    }
}

/// The most bytes of a line that are compared one by one with a line feed.
const SHORT: usize = 16;

/// Returns the place of the first line feed, or `None` if there is none. Most lines are short, and a loop of a fixed
/// number of turns takes two instructions a byte.
#[inline(always)]
fn line_end(input: &[u8]) -> Option<usize>
    ensures { result ≡ position (λ b. b == 10) input.now }
{
    if input.len() >= SHORT {
        for end in 0..SHORT {
            if input[end] == b'\n' {
                return Some(end);
            }
        }
    }
    position_of(b'\n', input)
}

/// Returns the first line, without its line feed and a carriage return before that, and the rest of the input. A last
/// line without a line feed keeps its carriage return.
#[inline(always)]
pub fn split_script_line(input: &[u8]) -> (&[u8], &[u8])
    requires { 0 < length input.now }
    ensures first { lines input.now ≡ result.0.now ∷ lines result.1.now }
    ensures shorter { length result.1.now < length input.now }
{
    match line_end(input) {
        Some(end) => (without_return(&input[..end]), &input[end + 1..]),
        None => (input, &[]),
    }
}

/// Returns a line without its leading blanks.
#[inline(always)]
pub(crate) fn without_blanks(line: &[u8]) -> &[u8]
    ensures words { words_of result.now ≡ words_of line.now }
    ensures within { length result.now ≤ length line.now }
    ensures first { 0 < length result.now → is_blank (slice_index result.now 0) ≡ false }
{
    let mut rest = line;
    while let [first, after @ ..] = rest {
        if !is_blank(*first) {
            return rest;
        }
        rest = after;
    }
    rest
}

/// The most bytes of a word that are compared one by one with a blank. Most words are shorter.
const NEAR: usize = 16;

/// Returns the place of the first blank from `start` on. Compares many bytes at a time.
#[inline(never)]
fn blank_from(line: &[u8], start: usize) -> Option<usize>
    requires { start ≤ length line.now }
    ensures { MatchOption result (NoBlank line.now start (length line.now))
        (λ end. (end < length line.now) × NoBlank line.now start end
        × (is_blank (slice_index line.now end) ≡ true)) }
{
    match memchr2(b' ', b'\t', &line[start..]) {
        Some(more) => Some(start + more),
        None => None,
    }
}

/// Returns the word at the front of a line, and the rest of the line after the blank that ends the word.
#[inline(always)]
fn cut_word(line: &[u8]) -> (&[u8], &[u8])
    requires some { 0 < length line.now }
    requires first { is_blank (slice_index line.now 0) ≡ false }
    ensures { words_of line.now ≡ result.0.now ∷ words_of result.1.now }
{
    let near = line.len().min(NEAR);
    for end in 0..near {
        if is_blank(line[end]) {
            return (&line[..end], &line[end + 1..]);
        }
    }
    if near == line.len() {
        return (line, &[]);
    }
    match blank_from(line, near) {
        Some(end) => (&line[..end], &line[end + 1..]),
        None => (line, &[]),
    }
}

/// Returns the first word of a line and the rest of the line, or `None` if there is no word.
#[inline(always)]
pub fn next_word(line: &[u8]) -> Option<(&[u8], &[u8])>
    ensures { MatchOption result
        (words_of line.now ≡ []) (λ w. words_of line.now ≡ w.0.now ∷ words_of w.1.now) }
{
    let rest = without_blanks(line);
    if rest.is_empty() {
        return None;
    }
    Some(cut_word(rest))
}

/// Returns whether a byte is a printable ASCII character, a space or a tab.
fn is_plain(byte: u8) -> bool
    ensures { result ≡ is_plain byte }
{
    byte == b'\t' || (b' '..=b'~').contains(&byte)
}

/// Returns whether each byte is printable ASCII, a space or a tab.
pub fn is_plain_line(line: &[u8]) -> bool
    ensures { result ≡ list_all is_plain line.now }
{
    // No early return, so that the loop tests many bytes at once.
    let mut plain = true;
    for b in line {
        plain &= is_plain(*b);
    }
    plain
}

/// Returns whether each byte is plain or a line feed. Then each line of the text is plain.
pub(crate) fn is_plain_text(text: &[u8]) -> bool
    ensures { result ≡ list_all (λ b. is_plain b || b == 10) text.now }
{
    let mut plain = true;
    for b in text {
        plain &= is_plain(*b) || *b == b'\n';
    }
    plain
}

/// Returns the number that one or more digits of a base before the first `stop` spell, and what follows the `stop`, if
/// there is one. Returns `None` for any other bytes or a number above 4,294,967,295. Looks at each byte once.
#[inline(always)]
fn digits_before(stop: u8, digits: &[u8], radix: u32) -> Option<(u32, Option<&[u8]>)>
    requires stop { digit_value stop ≡ 36 }
    requires low { 2 ≤ radix }
    requires high { radix ≤ 16 }
    ensures { option_map (λ r. (r.0, option_map (λ rest. rest.now) r.1)) result
        ≡ digits_before radix stop false 0 digits.now }
{
    let mut value = 0u32;
    for (place, b) in digits.iter().enumerate() {
        let digit = u32::from(digit_value(*b));
        if digit >= radix {
            if *b == stop && place > 0 {
                return Some((value, Some(&digits[place + 1..])));
            }
            return None;
        }
        value = value.checked_mul(radix)?.checked_add(digit)?;
    }
    if digits.is_empty() {
        return None;
    }
    Some((value, None))
}

/// Returns the number before the first `stop`, in decimal or, after `0x`, in hexadecimal digits, and what follows the
/// `stop`, if there is one. Leading zeros are allowed. Returns `None` for any other word or a number above
/// 4,294,967,295.
#[inline(always)]
fn number_before(stop: u8, word: &[u8]) -> Option<(u32, Option<&[u8]>)>
    requires { digit_value stop ≡ 36 }
    ensures { option_map (λ r. (r.0, option_map (λ rest. rest.now) r.1)) result
        ≡ number_before stop word.now }
{
    match word {
        [b'0', b'x', digits @ ..] => digits_before(stop, digits, 16),
        _ => digits_before(stop, word, 10),
    }
}

/// Returns the number that a word spells, or `None` for any other word.
pub fn number(word: &[u8]) -> Option<u32>
    ensures { result ≡ number_of word.now }
{
    match number_before(b'+', word)? {
        (number, None) => Some(number),
        (_, Some(_)) => None,
    }
}

/// Returns the segment (an address, a plus and a length) before the first comma, and what follows the comma, if there
/// is one. Returns `None` if there is no segment.
pub(crate) fn segment_before(list: &[u8]) -> Option<(Segment, Option<&[u8]>)>
    ensures { option_map (λ r. (r.0, option_map (λ rest. rest.now) r.1)) result
        ≡ segment_before list.now }
{
    let (addr, rest) = number_before(b'+', list)?;
    let (len, after) = number_before(b',', rest?)?;
    Some((Segment { addr, len }, after))
}

/// Returns the segment that a word spells, or `None` for any other word.
pub fn segment_in(word: &[u8]) -> Option<Segment>
    ensures { result ≡ segment_of word.now }
{
    let (addr, rest) = number_before(b'+', word)?;
    let len = number(rest?)?;
    Some(Segment { addr, len })
}
