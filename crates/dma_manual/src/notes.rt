//! Notes and warnings that follow the message of an answer.
ghost use Rattle.std.specs.Prelude.{◌≡◌, IfOk};
ghost use Rattle.dma_io.specs.Answer.{prints_of, with_note};
ghost use Rattle.dma_manual.specs.Notes.{end_warning, ends_at_once, form_note, hint, is_text, is_text_byte, left_out, units};

use crate::forms::{Column, Form, Group};
use dma_io::answer::Answer;
use dma_text::text::print;
use std::alloc::AllocError;

/// Returns whether a byte is printable, a tab or a line end.
fn is_text_byte(byte: u8) -> bool
    ensures { result ≡ is_text_byte byte }
{
    matches!(byte, b' '..=b'~' | b'\t' | b'\n' | b'\r')
}

/// Returns whether all bytes of an input are text.
fn is_text(input: &[u8]) -> bool
    ensures { result ≡ is_text input.now }
{
    input.iter().all(|byte| is_text_byte(*byte))
}

/// Returns the note for an input that is taken as a program, is refused and is text, or no text.
pub fn hint(is_program: bool, input: &[u8], succeeds: bool) -> &'static str
    ensures { result.now ≡ hint is_program input.now succeeds }
{
    if is_program && !succeeds && !input.is_empty() && is_text(input) {
        "  (these bytes are text; --hex reads hexadecimal digits and dumps, --words 32-bit words, asm instructions)\n"
    } else {
        ""
    }
}

/// Returns whether a program begins with DMAEND and has more bytes.
pub fn ends_at_once(program: &[u8]) -> bool
    ensures { result ≡ ends_at_once program.now }
{
    matches!(program, [0, _, ..])
}

/// Returns the warning for a program that is taken without a fault, begins with DMAEND and has more bytes, or no
/// text.
pub fn end_warning(is_program: bool, program: &[u8], succeeds: bool) -> &'static str
    ensures { result.now ≡ end_warning is_program program.now succeeds }
{
    if is_program && (succeeds && ends_at_once(program)) {
        " warning: the first byte is DMAEND, so no byte after it is executed (an address in text needs a colon)\n"
    } else {
        ""
    }
}

/// Returns what the groups of a dump are.
fn units(group: Group) -> &'static str
    ensures { result.now ≡ units group }
{
    match group {
        Group::Byte => "bytes",
        Group::Half => "16-bit words, lowest byte first",
        Group::Word => "32-bit words, lowest byte first",
        Group::Long => "64-bit words, lowest byte first",
        Group::Octal => "16-bit words in octal, lowest byte first",
    }
}

/// Returns what is left out of a dump.
fn left_out(column: Column) -> &'static str
    ensures { result.now ≡ left_out column }
{
    match column {
        Column::Array => "; what is outside the braces is left out",
        Column::Octal => "; octal addresses and text are left out",
        Column::Decimal => "; decimal addresses and text are left out",
        _ => "; addresses and text are left out",
    }
}

/// Returns the answer for a program with a note on the form of its dump, if it is one. Fails if memory runs out.
pub fn with_form(mut answer: Answer, form: Option<Form>) -> Result<Answer, AllocError>
    ensures { IfOk result (λ shown. prints_of shown
        ≡ with_note (prints_of answer) (form_note form answer.err.items)) }
{
    if let Some(form) = form {
        let (front, end) = if answer.err.is_empty() {
            (" read as ", "\n")
        } else {
            ("  (read as ", ")\n")
        };
        let note = (front, units(form.group), left_out(form.column), end);
        print(&mut answer.err, &note)?;
    }
    Ok(answer)
}
