//! Reads the front of a dump's line: a title, a log's prefix, an address.
ghost use Rattle.std.specs.Prelude.{◌≡◌, slice_get};
ghost use Rattle.dma_manual.specs.Array.{is_byte_of};
ghost use Rattle.dma_manual.specs.Dump.{address_end, address_step, break_step, closed_step, cut_at, goes_on, lead_step, open_step, start_step, symbol_step, title_step, with_address, word_step, zero_step};

use crate::dump::{Cause, Effect, Place, Scan};
use crate::forms::{Column, Form, Group, is_digit_in, is_x};
use crate::shown::{behind, is_all_zeros};
use dma_text::digits::digit_value;
use dma_text::lines::is_blank;

/// How the line begins that objdump prints above a section's addresses.
const TITLE: [u8; 20] = *b"Contents of section ";

/// Returns whether a byte is the one of some words that follows this many others.
fn is_byte_at(words: &[u8], matched: usize, byte: u8) -> bool
    ensures { result ≡ is_byte_of (slice_get words.now matched) byte }
{
    match words.get(matched) {
        Some(next) => byte == *next,
        None => false,
    }
}

/// Returns whether an address is where the bytes before it end.
fn goes_on(first: Option<u64>, len: usize, value: u64) -> bool
    ensures { result ≡ goes_on first len value }
{
    match first {
        Some(first) => first <= value && value - first == len as u64,
        None => true,
    }
}

impl Scan {
    /// Takes an address, before which the text has `len` bytes, and goes on to a place.
    pub fn with_address(self, len: usize, value: u64, place: Place) -> Result<(Scan, Effect), Cause>
        ensures { result ≡ with_address self len value place }
    {
        if !goes_on(self.first, len, value) {
            return Err(Cause::Address);
        }
        let scan = Scan {
            place,
            first: Some(self.first.unwrap_or(value)),
            before: len,
            is_sure: self.is_sure || len > 0,
        };
        Ok((scan, Effect::Nothing))
    }

    /// Takes an address alone, with these bytes before it: they end there, but for zeros that fill up the last group.
    pub fn cut_at(self, group: Group, bytes: &[u8], value: u64) -> Result<(Scan, Effect), Cause>
        ensures { result ≡ cut_at self group bytes.now value self.first }
    {
        let Some(first) = self.first else {
            return Err(Cause::Address);
        };
        if first > value || value - first > bytes.len() as u64 {
            return Err(Cause::Address);
        }
        let kept = (value - first) as usize;
        if bytes.len() - kept >= usize::from(group.size()) || !is_all_zeros(behind(bytes, kept)) {
            return Err(Cause::Address);
        }
        let scan = Scan {
            place: Place::Start,
            is_sure: true,
            ..self
        };
        Ok((scan, Effect::Cut(kept)))
    }

    /// Takes the next byte of a line above the addresses, of which some bytes are those of a title.
    pub fn title_step(self, matched: usize, byte: u8) -> Result<(Scan, Effect), Cause>
        ensures { result ≡ title_step self matched byte }
    {
        if byte == b'\n' {
            return self.at(Place::Title { matched: 0 });
        }
        if !is_byte_at(&TITLE, matched, byte) {
            return self.at(Place::Heading);
        }
        if matched == TITLE.len() - 1 {
            return self.at(Place::Titled);
        }
        self.at(Place::Title {
            matched: matched + 1,
        })
    }

    /// Takes the next byte of a line that has only blanks so far. After blanks it may be an address only if no group
    /// could be one.
    pub fn start_step(
        self,
        form: Form,
        is_indented: bool,
        byte: u8,
    ) -> Result<(Scan, Effect), Cause>
        ensures { result ≡ start_step form self is_indented byte }
    {
        if byte == b'\n' {
            self.line_end()
        } else if is_blank(byte) {
            self.at(Place::Indent)
        } else if is_indented && form.has_long_groups() {
            Err(Cause::Byte)
        } else if form.column.has_digit(byte) {
            self.at(Place::Address {
                in_log: false,
                digits: 1,
                value: u64::from(digit_value(byte)),
            })
        } else if byte == b'*' {
            Err(Cause::Star)
        } else if byte == b'[' && matches!(form.column, Column::Colon) {
            self.at(Place::Word)
        } else {
            Err(Cause::Byte)
        }
    }

    /// Takes the next byte of a word of a log's line.
    pub fn word_step(self, byte: u8) -> Result<(Scan, Effect), Cause>
        ensures { result ≡ word_step self byte }
    {
        match byte {
            b'\n' => Err(Cause::Byte),
            b' ' => self.at(Place::Break),
            _ => self.at(Place::Word),
        }
    }

    /// Takes the next byte after the spaces of a log's line.
    pub fn break_step(self, byte: u8) -> Result<(Scan, Effect), Cause>
        ensures { result ≡ break_step self byte }
    {
        if is_digit_in(false, byte) {
            self.at(Place::Address {
                in_log: true,
                digits: 1,
                value: u64::from(digit_value(byte)),
            })
        } else {
            self.word_step(byte)
        }
    }

    /// Takes the byte after an address.
    pub fn address_end(
        self,
        form: Form,
        bytes: &[u8],
        in_log: bool,
        value: u64,
        byte: u8,
    ) -> Result<(Scan, Effect), Cause>
        ensures { result ≡ address_end form self bytes.now in_log value byte }
    {
        let len = bytes.len();
        match form.column {
            Column::Colon if byte == b':' => {
                self.with_address(len, value, Place::Lead { blanks: 0 })
            }
            Column::Colon if in_log => self.word_step(byte),
            Column::Colon if byte == b' ' => self.at(Place::Open { value }),
            Column::Colon => Err(Cause::Byte),
            _ if is_blank(byte) => self.with_address(len, value, Place::Gap),
            Column::Headed => Err(Cause::Byte),
            _ if byte == b'\n' => self.cut_at(form.group, bytes, value),
            _ => Err(Cause::Byte),
        }
    }

    /// Takes the next byte after digits of an address. A mark counts as three.
    pub fn address_step(
        self,
        form: Form,
        bytes: &[u8],
        in_log: bool,
        digits: u8,
        value: u64,
        byte: u8,
    ) -> Result<(Scan, Effect), Cause>
        ensures { result ≡ address_step form self bytes.now in_log digits value byte }
    {
        let least = form.column.least_digits();
        if form.column.has_digit(byte) {
            self.at(Place::Address {
                in_log,
                digits: if digits < least { digits + 1 } else { digits },
                value: form.column.with_digit(value, byte),
            })
        } else if matches!(form.column, Column::Colon) && digits == 1 && value == 0 && is_x(byte) {
            self.at(Place::Address {
                in_log,
                digits: 3,
                value: 0,
            })
        } else if digits >= least {
            self.address_end(form, bytes, in_log, value, byte)
        } else if in_log {
            self.word_step(byte)
        } else {
            Err(Cause::Byte)
        }
    }

    /// Takes the byte after an address and a space, which are those of a line only before a symbol.
    pub fn open_step(self, len: usize, value: u64, byte: u8) -> Result<(Scan, Effect), Cause>
        ensures { result ≡ open_step self len value byte }
    {
        if byte == b'<' {
            self.with_address(len, value, Place::Symbol { last: byte })
        } else {
            Err(Cause::Byte)
        }
    }

    /// Takes the next byte of a symbol.
    pub fn symbol_step(self, last: u8, byte: u8) -> Result<(Scan, Effect), Cause>
        ensures { result ≡ symbol_step self last byte }
    {
        match byte {
            b'\n' => Err(Cause::Byte),
            b':' if last == b'>' => self.at(Place::Closed),
            _ => self.at(Place::Symbol { last: byte }),
        }
    }

    /// Takes the next byte after a colon and blanks, which are counted up to two. After more than one, a group has a
    /// mark.
    pub fn lead_step(self, form: Form, blanks: u8, byte: u8) -> Result<(Scan, Effect), Cause>
        ensures { result ≡ lead_step form self blanks byte }
    {
        if is_blank(byte) {
            let blanks = if blanks < 2 { blanks + 1 } else { blanks };
            return self.at(Place::Lead { blanks });
        }
        match byte {
            _ if blanks < 2 => self.content(form, byte),
            b'0' => self.at(Place::Zero),
            b'\n' => self.line_end(),
            _ => Err(Cause::Byte),
        }
    }

    /// Takes the next byte after the colon of a symbol, which goes on after two.
    pub fn closed_step(self, form: Form, byte: u8) -> Result<(Scan, Effect), Cause>
        ensures { result ≡ closed_step form self byte }
    {
        if byte == b':' {
            self.at(Place::Symbol { last: byte })
        } else {
            self.lead_step(form, 0, byte)
        }
    }

    /// Takes the next byte after the `0` of a mark.
    pub fn zero_step(self, byte: u8) -> Result<(Scan, Effect), Cause>
        ensures { result ≡ zero_step self byte }
    {
        if is_x(byte) {
            self.at(Place::Group {
                is_marked: true,
                digits: 0,
                value: 0,
            })
        } else {
            Err(Cause::Byte)
        }
    }
}
