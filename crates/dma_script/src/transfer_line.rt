//! Reads the words of a transfer with its events, and the line of a plan script.
ghost use Rattle.std.specs.Prelude.{◌≡◌, IfOk, OnOk};
ghost use Rattle.dma_script.specs.Lines.{Gives};
ghost use Rattle.dma_script.specs.Words.{words_of};
ghost use Rattle.dma_script.specs.Plan.{plain, plan_of, transfer_line};
ghost use Rattle.dma_script.specs.Arguments.{makes, source};
ghost use Rattle.dma_script.specs.inner.Reading.{read, transfer_from};

use crate::arguments::Arguments;
use crate::fault::{Cause, LineError, ScriptError, missing};
use crate::lines::{Script, first_number, read_script};
use dma_mem::lists::Segments;
use std::alloc::{AllocError, Global};

/// Where the bytes of a transfer come from.
#[derive(Drop)]
pub enum Origin {
    /// The places of a list, one byte each.
    List(Segments),
    /// The address of a fill's byte, which is copied to every place of the destinations.
    Place(u32),
}

/// `LIST to LIST [wait E] [signal E]` or `fill ADDR to LIST [wait E] [signal E]`: a transfer whose rules weren't
/// tested.
#[derive(Drop)]
pub struct TransferLine {
    /// Where the bytes come from.
    pub src: Origin,
    /// Where they go.
    pub dst: Segments,
    /// The event for which the transfer waits first.
    pub wait: Option<u8>,
    /// The event that the transfer signals last.
    pub signal: Option<u8>,
}

impl TransferLine {
    /// Returns a transfer without events.
    pub(crate) fn plain(src: Origin, dst: Segments) -> TransferLine
        ensures { result ≡ plain src dst }
    {
        TransferLine {
            src,
            dst,
            wait: None,
            signal: None,
        }
    }
}

/// A plan script, which is one line.
#[derive(Drop)]
pub struct PlanLine {
    /// The number of the line, from 1.
    pub line: usize,
    /// The transfer of the line.
    pub transfer: TransferLine,
}

/// Reads the source of a transfer: `fill ADDR`, or a list.
fn source(alloc: Global, words: &mut Arguments<'_>) -> Result<Origin, AllocError>
    ensures { IfOk result (λ origin. (origin, words.new) ≡ read (source makes) words.old) }
{
    if words.skip(b"fill") {
        return Ok(Origin::Place(words.number()));
    }
    Ok(Origin::List(words.list(alloc)?))
}

/// Reads `LIST to LIST [wait E] [signal E]` or `fill ADDR to LIST [wait E] [signal E]`.
pub(crate) fn transfer(alloc: Global, words: &mut Arguments<'_>) -> Result<TransferLine, AllocError>
    ensures { IfOk result (λ transfer. (transfer, words.new) ≡ transfer_from words.old) }
{
    Ok(TransferLine {
        src: source(alloc, words)?,
        dst: words.to_list(alloc)?,
        wait: words.event(b"wait"),
        signal: words.event(b"signal"),
    })
}

/// Reads the words of a line that has only a transfer.
fn transfer_line(alloc: Global, words: &[u8]) -> Result<TransferLine, LineError>
    ensures { Gives (λ line. line) result (transfer_line (words_of words.now)) }
{
    let mut words = Arguments::new(words);
    let line = transfer(alloc, &mut words)?;
    words.end()?;
    Ok(line)
}

// A plan script has one line.
impl Script for Option<TransferLine> {
    ghost use Rattle.std.specs.Prelude.{Option};
    ghost use Rattle.dma_script.specs.declared.transfer_line.TransferLine.{TransferLine};
    ghost use Rattle.dma_script.specs.Plan.{plan_step};

    ghost View = { Option TransferLine };

    ghost view = { λ line. line };

    ghost step = { plan_step };

    fn take_line(&mut self, alloc: Global, words: &[u8]) -> Result<(), LineError> {
        if self.is_some() {
            return Err(LineError::Fault(Cause::Words));
        }
        *self = Some(transfer_line(alloc, words)?);
        Ok(())
    }
}

/// Reads a whole plan script, or fails with its first fault or `NoMemory`. Does not build the transfer.
pub fn read_plan(alloc: Global, input: &[u8]) -> Result<PlanLine, ScriptError>
    ensures { Gives (λ p. p) result (plan_of input.now) }
{
    let mut read = None;
    read_script(&mut read, alloc, input)?;
    Ok(PlanLine {
        line: first_number(input),
        transfer: read.ok_or(missing(Cause::First))?,
    })
}
