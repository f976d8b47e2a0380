//! Removes the comment of a line, and cuts the line into words.

ghost use Rattle.std.specs.Prelude.{◌≡◌, ◌≤◌, IfOk, MatchOption, None, Some, length, map, position};
ghost use Rattle.dma_manual.specs.Words.{begins_comment, code_of, comment_of, has_sign, is_word_byte, next_of, place_or_len, plain_byte};

use dma_text::bytes::position_of;
use std::alloc::{AllocError, Global};

// Returns the place, or the length of the bytes if there is none.
fn place_or_len(place: Option<usize>, bytes: &[u8]) -> usize
    ensures place { result ≡ place_or_len place bytes.now }
    ensures within { result ≤ length bytes.now }
{
    place.unwrap_or(bytes.len()).min(bytes.len())
}

// Returns the place of the first byte that begins a comment.
fn comment_place(line: &[u8]) -> Option<usize>
    ensures { result ≡ position begins_comment line.now }
{
    line.iter().position(|b| begins_comment(*b))
}

// Returns whether a byte begins a comment.
fn begins_comment(byte: u8) -> bool
    ensures { result ≡ begins_comment byte }
{
    byte == b';' || byte == b'#' || byte == b'/'
}

// Returns a line without its comment.
fn without_comment(line: &[u8]) -> &[u8]
    ensures { result.now ≡ code_of line.now }
{
    let (code, _) = line.split_at(place_or_len(comment_place(line), line));
    code
}

// Returns the comment of a line, with the byte that begins it, or no bytes without a comment.
fn comment_of(line: &[u8]) -> &[u8]
    ensures { result.now ≡ comment_of line.now }
{
    let (_, comment) = line.split_at(place_or_len(comment_place(line), line));
    comment
}

/// Returns whether a number sign begins the comment of a line.
pub fn has_sign(line: &[u8]) -> bool
    ensures { result ≡ has_sign line.now }
{
    match comment_of(line) {
        [b'#', ..] => true,
        _ => false,
    }
}

// Returns a byte in lower case; a tab, a carriage return and a comma as a space.
fn plain_byte(byte: u8) -> u8
    ensures { result ≡ plain_byte byte }
{
    match byte {
        b'\t' | b'\r' | b',' => b' ',
        _ => byte.to_ascii_lowercase(),
    }
}

/// Returns a line without its comment, in lower case, with spaces in place of tabs, carriage returns and commas.
pub fn plain_line(alloc: Global, line: &[u8]) -> Result<Vec<u8>, AllocError>
    ensures { IfOk result (λ plain. plain.items ≡ map plain_byte (code_of line.now)) }
{
    without_comment(line)
        .iter()
        .map(|b| plain_byte(*b))
        .collect(alloc)
}

// Returns whether a byte is no space.
fn is_word_byte(byte: u8) -> bool
    ensures { result ≡ is_word_byte byte }
{
    byte != b' '
}

// Returns the place of the first byte that is no space.
fn word_place(rest: &[u8]) -> Option<usize>
    ensures { result ≡ position is_word_byte rest.now }
{
    rest.iter().position(|b| is_word_byte(*b))
}

/// Returns the first word of a plain line and what follows it, or `None` if there is no word.
pub fn next_word(rest: &[u8]) -> Option<(&[u8], &[u8])>
    ensures { MatchOption result (next_of rest.now ≡ None)
        (λ w. next_of rest.now ≡ Some (w.0.now, w.1.now)) }
{
    let (_, words) = rest.split_at(place_or_len(word_place(rest), rest));
    if words.is_empty() {
        return None;
    }
    Some(words.split_at(place_or_len(position_of(b' ', words), words)))
}
