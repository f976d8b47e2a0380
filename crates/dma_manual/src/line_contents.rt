//! Reads what a dump's line has after its address: groups of digits, and text.
ghost use Rattle.std.specs.Prelude.{◌≡◌};
ghost use Rattle.dma_manual.specs.Dump.{behind_step, content, group_end, group_step, text_end, text_step};

use crate::dump::{Cause, Effect, Place, Scan};
use crate::forms::{Column, Form, Group, is_digit_in, is_x, with_digit};
use crate::shown::{behind, leading_spaces, shown_as};
use dma_text::digits::digit_value;
use dma_text::lines::{is_all_spaces, is_blank};

impl Scan {
    /// Takes a byte after blanks: the line's end, a digit or a bar.
    pub fn content(self, form: Form, byte: u8) -> Result<(Scan, Effect), Cause>
        ensures { result ≡ content form self byte }
    {
        if byte == b'\n' {
            match form.column {
                Column::Headed => Err(Cause::Text),
                _ => self.line_end(),
            }
        } else if is_digit_in(form.group.is_octal(), byte) {
            self.at(Place::Group {
                is_marked: false,
                digits: 1,
                value: u64::from(digit_value(byte)),
            })
        } else if !form.column.has_spaced_text() && matches!(byte, b'|' | b'>') {
            self.at(Place::Text { shown: 0 })
        } else {
            Err(Cause::Byte)
        }
    }

    /// Takes the next byte after a group.
    pub fn group_end(self, form: Form, is_marked: bool, byte: u8) -> Result<(Scan, Effect), Cause>
        ensures { result ≡ group_end form self is_marked byte }
    {
        if byte == b' ' && !is_marked {
            return self.at(Place::Behind { is_wide: false });
        }
        if is_blank(byte) {
            return self.at(Place::Gap);
        }
        let is_joined = !is_marked
            && form.column.has_spaced_text()
            && matches!(form.group, Group::Byte);
        if !is_joined && is_digit_in(form.group.is_octal(), byte) {
            return Err(Cause::Byte);
        }
        self.content(form, byte)
    }

    /// Takes the next byte after digits of a group.
    pub fn group_step(
        self,
        form: Form,
        is_marked: bool,
        digits: u8,
        value: u64,
        byte: u8,
    ) -> Result<(Scan, Effect), Cause>
        ensures { result ≡ group_step form self is_marked digits value byte }
    {
        let octal = form.group.is_octal();
        if digits >= form.group.digits() {
            return self.group_end(form, is_marked, byte);
        }
        if is_digit_in(octal, byte) {
            let (digits, value) = (digits + 1, with_digit(octal, value, byte));
            let place = Place::Group {
                is_marked,
                digits,
                value,
            };
            let effect = if digits == form.group.digits() {
                Effect::Number(value)
            } else {
                Effect::Nothing
            };
            return Ok((Scan { place, ..self }, effect));
        }
        let has_marks = matches!(form.column, Column::Colon);
        if has_marks && !is_marked && digits == 1 && value == 0 && is_x(byte) {
            return self.at(Place::Group {
                is_marked: true,
                digits: 0,
                value: 0,
            });
        }
        Err(Cause::Byte)
    }

    /// Ends a line after its text, which hasn't shown these bytes.
    pub fn text_end(self, hidden: &[u8]) -> Result<(Scan, Effect), Cause>
        ensures { result ≡ text_end self hidden.now }
    {
        if !is_all_spaces(hidden) {
            return Err(Cause::Text);
        }
        let scan = Scan {
            place: Place::Start,
            is_sure: true,
            ..self
        };
        Ok((scan, Effect::Nothing))
    }

    /// Takes the next byte of the text, in a line with these bytes, of which it has shown some.
    pub fn text_step(
        self,
        form: Form,
        line: &[u8],
        shown: usize,
        byte: u8,
    ) -> Result<(Scan, Effect), Cause>
        ensures { result ≡ text_step form self line.now shown byte }
    {
        if byte == b'\n' {
            return self.text_end(behind(line, shown));
        }
        let is_next = match line.get(shown) {
            Some(next) => byte == shown_as(*next),
            None => is_blank(byte) || !form.column.has_spaced_text() && matches!(byte, b'|' | b'<'),
        };
        if !is_next {
            return Err(Cause::Text);
        }
        let shown = if shown < line.len() { shown + 1 } else { shown };
        self.at(Place::Text { shown })
    }

    /// Takes the next byte after a group and spaces, in a line with these bytes.
    pub fn behind_step(
        self,
        form: Form,
        line: &[u8],
        is_wide: bool,
        byte: u8,
    ) -> Result<(Scan, Effect), Cause>
        ensures { result ≡ behind_step form self line.now is_wide byte }
    {
        match byte {
            b' ' => self.at(Place::Behind { is_wide: true }),
            b'\t' => self.at(Place::Gap),
            b'\n' => self.content(form, byte),
            _ if is_wide && form.column.has_spaced_text() => {
                self.text_step(form, line, leading_spaces(line), byte)
            }
            _ => self.content(form, byte),
        }
    }
}
