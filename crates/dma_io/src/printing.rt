//! Prints lines: a line is a text and a line feed.
#![tactic(auto, using(dma_text::proofs::Begun::begun))]

ghost use Rattle.std.specs.Prelude.{◌≡◌, ◌++◌, ◌∷◌, [], OnErr, OnOk};
ghost use Rattle.dma_text.specs.Text.{Begins};
ghost use Rattle.dma_io.specs.Command.{text_of};
ghost use Rattle.dma_io.specs.Printing.{program_lines, row_line};

use dma_text::text::{HexByte, SpacedBytes, Text};
use std::alloc::AllocError;

/// The most bytes of a program that are printed in one line (profile).
const ROW_BYTES: usize = 16;

/// Appends a line. Appends nothing if its text can't be printed or memory runs out.
pub fn print_line<T: Text>(out: &mut Vec<u8>, line: &T) -> Result<(), AllocError>
    ensures ok { OnOk result (out.new.items ≡ out.old.items ++ text_of (T.text line.now ∷ [])) }
    ensures printed { OnOk result (T.is_printed line.now) }
    ensures err { OnErr result (out.new.items ≡ out.old.items) }
{
    let start = out.len();
    if line.push(out).is_ok() && out.push(b'\n').is_ok() {
        return Ok(());
    }
    out.truncate(start);
    Err(AllocError)
}

/// The lines of a program, 16 bytes to a line, with a line feed after each. A program without bytes has no lines.
#[derive(Drop)]
pub struct ProgramLines<'a>(pub &'a [u8]);

impl Text for ProgramLines<'_> {
    ghost text = { λ program. text_of (program_lines program.0.now) };

    fn push(&self, out: &mut Vec<u8>) -> Result<(), AllocError> {
        for row in self.0.chunks(ROW_BYTES) {
            push_row(out, row)?;
        }
        Ok(())
    }
}

/// Appends the line of a row: its bytes with a space between two.
fn push_row(out: &mut Vec<u8>, row: &[u8]) -> Result<(), AllocError>
    ensures ok { OnOk result
        (out.new.items ≡ out.old.items ++ text_of (row_line row.now ∷ [])) }
    ensures begins { Begins out.new.items out.old.items }
{
    match row {
        [first, more @ ..] => (HexByte(*first), SpacedBytes(more), "\n").push(out),
        [] => "\n".push(out),
    }
}
