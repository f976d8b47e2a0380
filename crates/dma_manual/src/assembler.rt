//! Assembles a text in the manual's syntax.

ghost use Rattle.std.specs.Prelude.{◌≡◌, ◌++◌, OnOk, OnErr, IfOk, is_ok};
ghost use Rattle.dma_manual.specs.Errors.{IsAssembled, assembled_err};
ghost use Rattle.dma_manual.specs.Assembled.{ResultOr, draft_view, empty, program_of, read_text, take_lines};
ghost use Rattle.dma_text.specs.Lines.{text_lines};

use crate::draft::{Draft, take_line};
use crate::errors::{AsmError, Wrong, note_of, word_at};
use crate::manual::Side;
use crate::warning::warning_of;
use crate::words::plain_line;
use dma_text::lines::split_line;
use dma_text::text::print;
use std::alloc::{AllocError, Global};

/// An operand that an instruction lacks.
#[derive(Clone, Copy)]
pub enum Operand {
    Times,
    Event,
    Byte,
    Word,
    Register,
    Address,
    Fields,
    AddressRegister,
    Halfword,
    Peripheral,
    Request,
    Channel,
}

/// A field of one end of a control word.
#[derive(Clone, Copy)]
pub enum Field {
    Beats,
    Size,
    Address,
    Protection,
    Cache,
}

/// What is wrong with a word.
#[derive(Clone, Copy)]
pub enum AsmCause {
    Name,
    Missing(Operand),
    Extra,
    Number,
    Times,
    Far,
    Event,
    Byte,
    Value,
    Register,
    AddressRegister,
    Halfword,
    Counter,
    Peripheral,
    Request,
    Channel,
    /// It begins with the name of no field.
    Field,
    /// The field cannot have this value.
    FieldValue(Side, Field),
    Swap,
    Twice,
    Label,
    NoLoop,
    NoCounter,
    Nested,
    Open,
    TooLong,
}

/// What is wrong with a word of a line, the word's length, and the number of bytes of the line after it.
#[derive(Clone, Copy)]
pub struct Fault {
    pub cause: AsmCause,
    pub len: usize,
    pub after: usize,
}

/// The place of a word: the number of its line and its column, both from 1, and its length.
#[derive(Clone, Copy)]
pub struct Place {
    pub line: usize,
    pub column: usize,
    pub len: usize,
}

/// What is wrong with a word of a text.
#[derive(Clone, Copy)]
pub struct Located {
    pub place: Place,
    pub cause: AsmCause,
}

impl Place {
    /// Returns the fault at this place that has this cause.
    pub fn fault(self, cause: AsmCause) -> Located
        ensures { result ≡ record { place = self; cause = cause } }
    {
        Located { place: self, cause }
    }
}

/// Why a text was not assembled.
#[derive(Drop)]
pub enum Stop {
    NoMemory,
    At(Located),
}

impl From<AllocError> for Stop {
    ghost use Rattle.std.specs.Prelude.{◌≡◌};
    ghost use Rattle.dma_manual.specs.declared.assembler.Stop.TheVariants.{NoMemory};

    ghost from_gives = { λ _ e. e ≡ NoMemory };

    fn from(_e: AllocError) -> Stop {
        Stop::NoMemory
    }
}

impl From<Located> for Stop {
    ghost use Rattle.std.specs.Prelude.{◌≡◌};
    ghost use Rattle.dma_manual.specs.declared.assembler.Stop.TheVariants.{At};

    ghost from_gives = { λ located e. e ≡ At located };

    fn from(located: Located) -> Stop {
        Stop::At(located)
    }
}

// Takes all lines of a text.
#[tactic(auto, using(crate::proofs::Readings::lines_more, crate::proofs::Readings::lines_err, crate::proofs::Readings::lines_end))]
fn draft_of(alloc: Global, text: &[u8]) -> Result<Draft, Stop>
    ensures { ResultOr (λ draft. draft_view draft) result
        (take_lines empty 0 (text_lines text.now)) }
{
    let mut draft = Draft::new(alloc);
    let mut number = 0usize;
    let mut rest = text;
    while !rest.is_empty() {
        let (line, after) = split_line(rest);
        let plain = plain_line(alloc, line)?;
        number += 1;
        take_line(&mut draft, number, &plain)?;
        rest = after;
    }
    Ok(draft)
}

// Returns what a text says, or its first fault.
fn read_text(alloc: Global, text: &[u8]) -> Result<Draft, Stop>
    ensures { ResultOr (λ draft. draft_view draft) result (read_text text.now) }
{
    let draft = draft_of(alloc, text)?;
    draft.closed()?;
    Ok(draft)
}

/// Returns the bytes of the program that a text describes, or the text's first fault.
///
/// A line has a label with a colon, an instruction, both or neither; a label names the offset of what follows it, so
/// that of a loop is after its DMALP. Letters are in either case, commas may be left out, and `;`, `#` or `/` begins a
/// comment. A number is decimal or, after `0x`, hexadecimal. What is written is taken as it is; what is left out is
/// found: DMALP without a counter takes a free one, and its loop has to be ended; DMALPEND without operands ends the
/// innermost open loop, and with a counter that counter's loop. `DCB` is a byte, and `DCD` a number of 32 bits, of which
/// the lowest byte comes first. Fields of DMAMOV CCR are tested, and its value as a number is not.
pub fn assemble(alloc: Global, text: &[u8]) -> Result<Vec<u8>, AsmError<'_>>
    ensures { IsAssembled (λ program. program.items) text.now result }
{
    match read_text(alloc, text) {
        Ok(draft) => Ok(draft.code),
        Err(Stop::At(located)) => {
            let word = word_at(text, located.place);
            match note_of(alloc, text, located, word) {
                Ok(note) => Err(AsmError::Wrong(Wrong {
                    located,
                    word,
                    note,
                })),
                Err(_) => Err(AsmError::NoMemory),
            }
        }
        Err(Stop::NoMemory) => Err(AsmError::NoMemory),
    }
}

/// Assembles a text. Returns the program's bytes, or none for a text with a fault, and whether it has no fault. Appends
/// to `err` the first warning, if there is one, or the first fault, as `LINE:COLUMN: 'WORD' is ..`. Appends nothing if
/// memory runs out.
pub fn assemble_text(
    alloc: Global,
    text: &[u8],
    err: &mut Vec<u8>,
) -> Result<(Vec<u8>, bool), AllocError>
    ensures program { IfOk result (λ found. found.0.items ≡ program_of text.now) }
    ensures succeeded { IfOk result (λ found. found.1 ≡ is_ok (read_text text.now)) }
    ensures err { OnOk result
        (err.new.items ≡ err.old.items ++ assembled_err text.now (read_text text.now)) }
    ensures err_kept { OnErr result (err.new.items ≡ err.old.items) }
{
    match read_text(alloc, text) {
        Ok(draft) => {
            print(err, &warning_of(&draft))?;
            Ok((draft.code, true))
        }
        Err(Stop::At(located)) => {
            let word = word_at(text, located.place);
            let note = note_of(alloc, text, located, word)?;
            let wrong = Wrong {
                located,
                word,
                note,
            };
            print(err, &(wrong, "\n"))?;
            Ok((Vec::new(alloc), false))
        }
        Err(Stop::NoMemory) => Err(AllocError),
    }
}
