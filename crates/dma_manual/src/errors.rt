//! What is wrong with a text, and how it is printed.

ghost use Rattle.std.specs.Prelude.{◌≡◌, ◌<◌, IfOk, map};
ghost use Rattle.dma_text.specs.Lines.{text_lines};
ghost use Rattle.dma_manual.specs.Errors.{error_text, field_message, has_label, label_note, line_of, line_with, message, missing_message, named_by, note_of, note_text, sign_note, word_at};
ghost use Rattle.dma_manual.specs.Words.{code_of, plain_byte};

use crate::assembler::{AsmCause, Field, Located, Operand, Place};
use crate::draft::label_in;
use crate::manual::Side;
use crate::words::{has_sign, plain_line};
use dma_text::bytes::is_text;
use dma_text::lines::split_line;
use dma_text::text::Text;
use std::alloc::{AllocError, Global};

/// What a text says about a fault, besides the word.
#[derive(Clone, Copy)]
pub enum Note {
    Nothing,
    /// A number sign begins the comment of the line.
    Sign,
    /// No line has the label.
    NoLine,
    /// The line with this number has the label.
    Line(usize),
}

impl Text for Note {
    ghost text = { λ note. note_text note };

    fn push(&self, out: &mut Vec<u8>) -> Result<(), AllocError> {
        match *self {
            Note::Nothing => "".push(out),
            Note::Sign => ": # begins a comment".push(out),
            Note::NoLine => ": no line has this label".push(out),
            Note::Line(number) => (": line ", number, " has it").push(out),
        }
    }
}

/// What is wrong with a word of a text. Its text is `LINE:COLUMN: 'WORD' is ..`.
#[derive(Clone, Copy)]
pub struct Wrong<'a> {
    pub located: Located,
    pub word: &'a [u8],
    pub note: Note,
}

/// Why a text was not assembled.
#[derive(Drop)]
pub enum AsmError<'a> {
    NoMemory,
    Wrong(Wrong<'a>),
}

impl Text for Wrong<'_> {
    ghost text = { λ e. error_text e.located e.word.now e.note };

    fn push(&self, out: &mut Vec<u8>) -> Result<(), AllocError> {
        let Place { line, column, .. } = self.located.place;
        let why = (message(self.located.cause), self.note);
        (line, ":", column, (": '", self.word, "' ", why)).push(out)
    }
}

// Returns what is wrong, after the word.
fn message(cause: AsmCause) -> &'static str
    ensures { result.now ≡ message cause }
{
    match cause {
        AsmCause::Name => "is not the name of an instruction",
        AsmCause::Missing(operand) => missing_message(operand),
        AsmCause::Extra => "is one word too many",
        AsmCause::Number => "is not a number",
        AsmCause::Times => "is not 1 to 256",
        AsmCause::Far => "jumps more than 255 bytes back",
        AsmCause::Event => "is not an event, e0 to e31",
        AsmCause::Byte => "is not 0 to 255",
        AsmCause::Value => "has more than 32 bits",
        AsmCause::Register => "is not SAR, CCR or DAR",
        AsmCause::AddressRegister => "is not SAR or DAR",
        AsmCause::Halfword => "is not 0 to 65535",
        AsmCause::Counter => "is not lc0 or lc1",
        AsmCause::Peripheral => "is not a peripheral, P0 to P31",
        AsmCause::Request => "is not single, burst or periph",
        AsmCause::Channel => "is not a channel, C0 to C7",
        AsmCause::Field =>
            "is no field of a control word: SB, SS, SA, SP, SC, DB, DS, DA, DP, DC or ES",
        AsmCause::FieldValue(side, field) => field_message(side, field),
        AsmCause::Swap => "asks for an endian swap, which this model refuses",
        AsmCause::Twice => "is given twice",
        AsmCause::Label => "is no label before this line",
        AsmCause::NoLoop => "ends no open loop",
        AsmCause::NoCounter => "is within two loops already",
        AsmCause::Nested => "is within a loop of DMALPFE already",
        AsmCause::Open => "has no DMALPEND",
        AsmCause::TooLong => "makes the program longer than 8192 bytes",
    }
}

// Returns which operand is missing, after the word.
fn missing_message(operand: Operand) -> &'static str
    ensures { result.now ≡ missing_message operand }
{
    match operand {
        Operand::Times => "lacks a number of rounds, 1 to 256",
        Operand::Event => "lacks an event, e0 to e31",
        Operand::Byte => "lacks a byte, 0 to 255",
        Operand::Word => "lacks a number of 32 bits",
        Operand::Register => "lacks a register, SAR, CCR or DAR",
        Operand::Address => "lacks an address",
        Operand::Fields => "lacks fields or a number",
        Operand::AddressRegister => "lacks a register, SAR or DAR",
        Operand::Halfword => "lacks a number, 0 to 65535",
        Operand::Peripheral => "lacks a peripheral, P0 to P31",
        Operand::Request => "lacks single, burst or periph",
        Operand::Channel => "lacks a channel, C0 to C7",
    }
}

// Returns which words are a field of an end, after a word that is none.
fn field_message(side: Side, field: Field) -> &'static str
    ensures { result.now ≡ field_message side field }
{
    match (side, field) {
        (Side::Source, Field::Beats) => "is not SB1 to SB16",
        (Side::Source, Field::Size) => "is not SS8, SS16, SS32, SS64 or SS128",
        (Side::Source, Field::Address) => "is not SAI or SAF",
        (Side::Source, Field::Protection) => "is not SP0 to SP7",
        (Side::Source, Field::Cache) => "is not SC0 to SC7",
        (Side::Destination, Field::Beats) => "is not DB1 to DB16",
        (Side::Destination, Field::Size) => "is not DS8, DS16, DS32, DS64 or DS128",
        (Side::Destination, Field::Address) => "is not DAI or DAF",
        (Side::Destination, Field::Protection) => "is not DP0 to DP7",
        (Side::Destination, Field::Cache) => "is not DC0 to DC3 or DC8 to DC11",
    }
}

// Returns a line of a text by its number, or no bytes if there is none.
fn line_of(text: &[u8], number: usize) -> &[u8]
    ensures { result.now ≡ line_of (text_lines text.now) number }
{
    let mut rest = text;
    let mut left = number;
    while !rest.is_empty() {
        let (line, after) = split_line(rest);
        if left <= 1 {
            return line;
        }
        left -= 1;
        rest = after;
    }
    &[]
}

/// Returns the word at a place of a text.
pub fn word_at(text: &[u8], place: Place) -> &[u8]
    ensures { result.now ≡ word_at (line_of (text_lines text.now) place.line) place }
{
    let line = line_of(text, place.line);
    let (_, from) = line.split_at(place.column.saturating_sub(1).min(line.len()));
    let (word, _) = from.split_at(place.len.min(from.len()));
    word
}

// Returns whether a line in lower case without a comment begins with the label `name`.
fn named_by(line: &[u8], name: &[u8]) -> bool
    ensures { result ≡ named_by line.now name.now }
{
    match label_in(line) {
        Some((label, _)) => is_text(label, name),
        None => false,
    }
}

// Returns whether a line begins with the label `name`.
fn has_label(alloc: Global, line: &[u8], name: &[u8]) -> Result<bool, AllocError>
    ensures { IfOk result (λ it. it ≡ has_label line.now name.now) }
{
    let plain = plain_line(alloc, line)?;
    Ok(named_by(&plain, name))
}

// Returns the number of the first line that has a label with a name.
fn line_with(alloc: Global, text: &[u8], name: &[u8]) -> Result<Option<usize>, AllocError>
    ensures { IfOk result (λ line. line ≡ line_with name.now 0 (text_lines text.now)) }
{
    let mut rest = text;
    let mut number = 0usize;
    while !rest.is_empty() {
        let (line, after) = split_line(rest);
        number += 1;
        let found = has_label(alloc, line, name)?;
        if found {
            return Ok(Some(number));
        }
        rest = after;
    }
    Ok(None)
}

// Returns which line has the label that a word names.
fn label_note(alloc: Global, text: &[u8], word: &[u8]) -> Result<Note, AllocError>
    ensures { IfOk result (λ note. note
        ≡ label_note (line_with (map plain_byte (code_of word.now)) 0 (text_lines text.now))) }
{
    let name = plain_line(alloc, word)?;
    match line_with(alloc, text, &name)? {
        Some(number) => Ok(Note::Line(number)),
        None => Ok(Note::NoLine),
    }
}

// Returns whether a number sign begins the comment of a line.
fn sign_note(line: &[u8]) -> Note
    ensures { result ≡ sign_note line.now }
{
    if has_sign(line) {
        Note::Sign
    } else {
        Note::Nothing
    }
}

/// Returns what a text says about a fault, besides the word.
pub fn note_of(
    alloc: Global,
    text: &[u8],
    located: Located,
    word: &[u8],
) -> Result<Note, AllocError>
    ensures { IfOk result (λ note. note ≡ note_of text.now located word.now) }
{
    match located.cause {
        AsmCause::Missing(_) => Ok(sign_note(line_of(text, located.place.line))),
        AsmCause::Label => label_note(alloc, text, word),
        _ => Ok(Note::Nothing),
    }
}
