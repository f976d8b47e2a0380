//! Searches bytes, and compares words with texts.
ghost use Rattle.std.specs.Prelude.{◌≡◌, ◌==◌, position};
ghost use Rattle.std.specs.Str.{bytes_eq};

use memchr::memchr;

/// Returns the position of the first `byte`, or `None` if `bytes` doesn't contain it. Compares many bytes at a time.
#[tactic(auto, using(crate::proofs::FirstBytes::first_place))]
pub fn position_of(byte: u8, bytes: &[u8]) -> Option<usize>
    ensures { result ≡ position (λ b. b == byte) bytes.now }
{
    memchr(byte, bytes)
}

/// Returns whether a word equals a text.
///
/// Compares byte by byte: most words differ from a text in their length or their first byte, and a text that is a
/// constant of the program becomes part of its code.
#[inline(always)]
#[tactic(auto, using(crate::proofs::SameTexts::other_length, crate::proofs::SameTexts::other_byte, crate::proofs::SameTexts::same_bytes))]
pub fn is_text(word: &[u8], text: &[u8]) -> bool
    ensures { result ≡ bytes_eq word.now text.now }
{
    if word.len() != text.len() {
        return false;
    }
    for i in 0..text.len() {
        if word[i] != text[i] {
            return false;
        }
    }
    true
}
