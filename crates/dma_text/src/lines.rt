//! The lines of a text, and the blanks of a line.
ghost use Rattle.std.specs.Prelude.{◌≡◌, ◌∷◌, ◌<◌, length};
ghost use Rattle.dma_text.specs.Lines.{is_all_spaces, is_blank, text_lines};

use crate::bytes::position_of;

/// Returns the first line of a text, without its line feed, and the rest of the text.
#[tactic(auto, using(crate::proofs::TextLines::lines_at, crate::proofs::TextLines::lines_none))]
pub fn split_line(text: &[u8]) -> (&[u8], &[u8])
    requires { 0 < length text.now }
    ensures first { text_lines text.now ≡ result.0.now ∷ text_lines result.1.now }
    ensures shorter { length result.1.now < length text.now }
{
    match position_of(b'\n', text) {
        Some(end) => (&text[..end], &text[end + 1..]),
        None => (text, &[]),
    }
}

/// Returns whether a byte is a space or a tab. Most bytes of a line are above both, and take one comparison.
pub fn is_blank(byte: u8) -> bool
    ensures { result ≡ is_blank byte }
{
    byte <= b' ' && (byte == b' ' || byte == b'\t')
}

/// Returns whether bytes are all spaces.
pub fn is_all_spaces(bytes: &[u8]) -> bool
    ensures { result ≡ is_all_spaces bytes.now }
{
    bytes.iter().all(|byte| *byte == b' ')
}
