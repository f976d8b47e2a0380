//! What a call of a program prints, and how it is written.
ghost use Rattle.std.specs.Prelude.{◌≡◌, IfOk};
ghost use Rattle.dma_io.specs.Command.{failures};
ghost use Rattle.dma_io.specs.Answer.{Delivers, named, prints_of, under_name, with_note, writes_file};

use crate::command::{FAULT, SUCCESS};
use crate::output::{OutputFailed, Sink, write_output};
use dma_text::text::{Text, print};
use std::alloc::{AllocError, Global};

/// What a call of a program prints, before any of it is written, and whether the call succeeds.
#[derive(Drop)]
pub struct Answer {
    /// To standard output.
    pub out: Vec<u8>,
    /// To standard error.
    pub err: Vec<u8>,
    /// Into the file that an option names.
    pub file: Vec<u8>,
    /// Whether the call succeeds.
    pub succeeds: bool,
}

/// Returns a message after the name of the input and a colon; an empty message stays empty.
fn named(alloc: Global, name: &str, message: &[u8]) -> Result<Vec<u8>, AllocError>
    ensures { IfOk result (λ text. text.items ≡ named name.now message.now) }
{
    let mut text = Vec::new(alloc);
    if !message.is_empty() {
        print(&mut text, &(name, ":", message))?;
    }
    Ok(text)
}

impl Answer {
    /// Returns the answer with these texts.
    pub fn new(out: Vec<u8>, err: Vec<u8>, file: Vec<u8>, succeeds: bool) -> Answer
        ensures { prints_of result ≡ record {
          out = out.items;
          err = err.items;
          file = file.items;
          succeeds = succeeds;
        } }
    {
        Answer {
            out,
            err,
            file,
            succeeds,
        }
    }

    /// Returns the answer with a note after its message. Fails if memory runs out.
    pub fn with_note(mut self, note: &str) -> Result<Answer, AllocError>
        ensures { IfOk result (λ shown. prints_of shown ≡ with_note (prints_of self) note.now) }
    {
        print(&mut self.err, &note)?;
        Ok(self)
    }

    /// Returns the answer with the name of the input before its message. Fails if memory runs out.
    pub fn under_name(mut self, alloc: Global, name: &str) -> Result<Answer, AllocError>
        ensures { IfOk result (λ shown. prints_of shown ≡ under_name name.now (prints_of self)) }
    {
        self.err = named(alloc, name, &self.err)?;
        Ok(self)
    }

    /// Returns whether the file that an option names is written.
    pub fn writes_file(&self) -> bool
        ensures { result ≡ writes_file (prints_of self.now) }
    {
        self.succeeds || !self.file.is_empty()
    }
}

/// Writes an answer to standard output and standard error, and returns the exit status. Fails at the first write that
/// fails.
pub fn deliver<O: Sink, E: Sink>(
    answer: &Answer,
    out: &mut O,
    err: &mut E,
) -> Result<u8, OutputFailed>
    ensures { Delivers (prints_of answer.now)
        (failures O.has_failed out.old out.new) (failures E.has_failed err.old err.new)
        (O.contents out.old) (O.contents out.new) (E.contents err.old) (E.contents err.new) result }
{
    write_output(out, &answer.out)?;
    write_output(err, &answer.err)?;
    Ok(if answer.succeeds { SUCCESS } else { FAULT })
}
