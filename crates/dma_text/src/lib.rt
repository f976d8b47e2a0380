//! Bytes of text: search for a byte, lines, digits, and texts that can be appended to bytes.
//!
//! Proved: the first position of a byte (`position_of`), the first line of a text (`split_line`), the value of a digit
//! in a base of at most 36 (`digit_value`), and what a text appends (`Text`): words, numbers in decimal digits, bytes
//! and addresses in hexadecimal ones, and two to four texts in a row.
#![tactic(auto)]

pub mod bytes;
pub mod digits;
pub mod lines;
pub mod text;
