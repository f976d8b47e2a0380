//! The lines of a run script.
ghost use Rattle.std.specs.Prelude.{◌≡◌, IfOk};
ghost use Rattle.dma_script.specs.Lines.{Gives};
ghost use Rattle.dma_script.specs.Words.{words_of};
ghost use Rattle.dma_script.specs.Statements.{IsWithin, first_line, keyword_of, run_script_of};
ghost use Rattle.dma_script.specs.inner.Kept.{call_of};
ghost use Rattle.dma_script.specs.inner.Reading.{line_added, statement_added};

use crate::arguments::Arguments;
pub use crate::arguments::MAX_LINE_STEPS;
use crate::fault::{Cause, LineError, ScriptError, missing};
use crate::kept::{Boxed, Kept, KeptCall};
use crate::lines::{Script, read_script};
use crate::list::List;
use crate::transfer_line::{Origin, TransferLine, transfer};
use crate::words::next_word;
use dma_io::input::MOST_RESERVED;
use dma_mem::limits::{MAX_CHANNELS, MAX_SIZE};
use dma_mem::segment::Segment;
use dma_text::bytes::is_text;
use std::alloc::Global;
use std::marker::Model;

/// The word that begins a line of a run script, and says what the line does.
#[derive(Clone, Copy)]
pub enum Keyword {
    /// `memory SIZE CHANNELS`
    Memory,
    /// `write ADDR HEX`
    Write,
    /// `read SEG`
    Read,
    /// `copy LIST to LIST`
    Copy,
    /// `fill ADDR to LIST`
    Fill,
    /// `submit CH LIST to LIST [wait E] [signal E]` or `submit CH fill ADDR to LIST [wait E] [signal E]`
    Submit,
    /// `issue CH`
    Issue,
    /// `pause CH`
    Pause,
    /// `resume CH`
    Resume,
    /// `terminate CH`
    Terminate,
    /// `step CH [N]`
    Step,
    /// `status CH COOKIE`
    Status,
    /// `result CH COOKIE`
    Result,
    /// `mark read SEG` or `mark write SEG`
    Mark,
    /// `unmark`
    Unmark,
    /// `raise E`
    Raise,
    /// `checkpoint`
    Checkpoint,
    /// `totals`
    Totals,
}

/// A line of a run script after its first. `ch` is the number of a channel.
#[derive(Drop)]
pub enum Statement {
    /// Makes one call: for a line that was read, any but `submit` and `step`, which have variants of their own.
    Call(KeptCall),
    /// Submits a transfer on a channel.
    Submit {
        ch: u8,
        transfer: Boxed<TransferLine>,
    },
    /// Copies or fills at once.
    Copy(Boxed<TransferLine>),
    /// Takes 1 to [`MAX_LINE_STEPS`] steps of a channel, 1 if the line has no number.
    Step {
        ch: u8,
        count: u32,
    },
    /// Prints the counts of the whole run.
    Totals,
}

/// The statements of lines, in their order.
pub type Statements = List<Statement>;

/// How many bytes a line is taken to have, with its line feed: those of `step 0 9`.
const BYTES_PER_LINE: usize = 9;

/// A run script: its memory line, and the lines after that.
#[derive(Drop)]
pub struct RunScript {
    /// The size of the memory, 1 to [`MAX_SIZE`] bytes.
    pub size: u32,
    /// The number of channels, 1 to [`MAX_CHANNELS`].
    pub channels: u32,
    /// The lines after the memory line, without those that are skipped.
    pub statements: Statements,
}

/// Returns the command that a word spells, or `None` for any other word.
pub(crate) fn keyword_in(word: &[u8]) -> Option<Keyword>
    ensures { result ≡ keyword_of word.now }
{
    match word {
        _ if is_text(word, b"memory") => Some(Keyword::Memory),
        _ if is_text(word, b"write") => Some(Keyword::Write),
        _ if is_text(word, b"read") => Some(Keyword::Read),
        _ if is_text(word, b"copy") => Some(Keyword::Copy),
        _ if is_text(word, b"fill") => Some(Keyword::Fill),
        _ if is_text(word, b"submit") => Some(Keyword::Submit),
        _ if is_text(word, b"issue") => Some(Keyword::Issue),
        _ if is_text(word, b"pause") => Some(Keyword::Pause),
        _ if is_text(word, b"resume") => Some(Keyword::Resume),
        _ if is_text(word, b"terminate") => Some(Keyword::Terminate),
        _ if is_text(word, b"step") => Some(Keyword::Step),
        _ if is_text(word, b"status") => Some(Keyword::Status),
        _ if is_text(word, b"result") => Some(Keyword::Result),
        _ if is_text(word, b"mark") => Some(Keyword::Mark),
        _ if is_text(word, b"unmark") => Some(Keyword::Unmark),
        _ if is_text(word, b"raise") => Some(Keyword::Raise),
        _ if is_text(word, b"checkpoint") => Some(Keyword::Checkpoint),
        _ if is_text(word, b"totals") => Some(Keyword::Totals),
        _ => None,
    }
}

/// Reads the first line, `memory SIZE CHANNELS`. Fails with `First` for any other keyword. Not inlined, since a script
/// has one such line.
#[inline(never)]
pub(crate) fn first_line(alloc: Global, keyword: Keyword, words: &[u8]) -> Result<RunScript, Cause>
    ensures { result ≡ first_line keyword (words_of words.now) }
{
    let Keyword::Memory = keyword else {
        return Err(Cause::First);
    };
    let mut words = Arguments::new(words);
    let size = words.within(1, MAX_SIZE, Cause::SizeOutOfRange);
    let channels = words.within(1, u32::from(MAX_CHANNELS), Cause::BadChannels);
    words.end()?;
    Ok(RunScript {
        size,
        channels,
        statements: Statements::new(alloc),
    })
}

/// Reads `ADDR HEX` and adds the statement of a `write` line. `kept` is as in [`Arguments::bytes`].
///
/// The lines with bytes or lists have functions of their own that are not inlined, since the locals of all arms of a
/// `match` are cleared whichever arm is taken.
#[inline(never)]
fn read_write(
    alloc: Global,
    kept: &mut Vec<u8>,
    words: &mut Arguments<'_>,
    statements: &mut Statements,
) -> Result<(), LineError>
    ensures { Gives (λ _. (statements.new, words.new)) result
        (statement_added Keyword.Write statements.old words.old) }
{
    let addr = words.number();
    let bytes = words.bytes(alloc, kept)?;
    let write = KeptCall::write(alloc, addr, bytes)?;
    Ok(statements.push(Statement::Call(write))?)
}

/// Reads `LIST to LIST` and adds the statement of a `copy` line.
#[inline(never)]
fn read_copy(
    alloc: Global,
    words: &mut Arguments<'_>,
    statements: &mut Statements,
) -> Result<(), LineError>
    ensures { Gives (λ _. (statements.new, words.new)) result
        (statement_added Keyword.Copy statements.old words.old) }
{
    let src = Origin::List(words.list(alloc)?);
    let dst = words.to_list(alloc)?;
    let transfer = Boxed::new(alloc, TransferLine::plain(src, dst))?;
    Ok(statements.push(Statement::Copy(transfer))?)
}

/// Reads `ADDR to LIST` and adds the statement of a `fill` line.
#[inline(never)]
fn read_fill(
    alloc: Global,
    words: &mut Arguments<'_>,
    statements: &mut Statements,
) -> Result<(), LineError>
    ensures { Gives (λ _. (statements.new, words.new)) result
        (statement_added Keyword.Fill statements.old words.old) }
{
    let src = Origin::Place(words.number());
    let dst = words.to_list(alloc)?;
    let transfer = Boxed::new(alloc, TransferLine::plain(src, dst))?;
    Ok(statements.push(Statement::Copy(transfer))?)
}

/// Reads a channel and a transfer, and adds the statement of a `submit` line.
#[inline(never)]
fn read_submit(
    alloc: Global,
    words: &mut Arguments<'_>,
    statements: &mut Statements,
) -> Result<(), LineError>
    ensures { Gives (λ _. (statements.new, words.new)) result
        (statement_added Keyword.Submit statements.old words.old) }
{
    let ch = words.byte();
    let read = transfer(alloc, words)?;
    let transfer = Boxed::new(alloc, read)?;
    Ok(statements.push(Statement::Submit { ch, transfer })?)
}

/// Returns the statement of a line that makes one call.
#[inline(always)]
fn call(kept: Kept) -> Statement
    ensures { result ≡ Statement.Call (call_of kept) }
{
    Statement::Call(KeptCall { kept })
}

/// Reads the words of a line after the first, and adds its statement. Fails with `First` for the keyword of the first
/// line. `kept` is as in [`Arguments::bytes`].
#[inline(always)]
fn read_statement(
    alloc: Global,
    kept: &mut Vec<u8>,
    keyword: Keyword,
    words: &mut Arguments<'_>,
    statements: &mut Statements,
) -> Result<(), LineError>
    ensures { Gives (λ _. (statements.new, words.new)) result
        (statement_added keyword statements.old words.old) }
{
    let statement = match keyword {
        Keyword::Memory => return Err(LineError::Fault(Cause::First)),
        Keyword::Write => return read_write(alloc, kept, words, statements),
        Keyword::Copy => return read_copy(alloc, words, statements),
        Keyword::Fill => return read_fill(alloc, words, statements),
        Keyword::Submit => return read_submit(alloc, words, statements),
        Keyword::Step => Statement::Step {
            ch: words.byte(),
            count: words.count(),
        },
        Keyword::Totals => Statement::Totals,
        Keyword::Read => {
            let Segment { addr, len } = words.segment();
            call(Kept::Read { addr, len })
        }
        Keyword::Issue => call(Kept::Issue { ch: words.byte() }),
        Keyword::Pause => call(Kept::Pause { ch: words.byte() }),
        Keyword::Resume => call(Kept::Resume { ch: words.byte() }),
        Keyword::Terminate => call(Kept::Terminate { ch: words.byte() }),
        Keyword::Status => call(Kept::Status {
            ch: words.byte(),
            cookie: words.number(),
        }),
        Keyword::Result => call(Kept::Result {
            ch: words.byte(),
            cookie: words.number(),
        }),
        Keyword::Mark => call(Kept::Mark {
            kind: words.mark_kind(),
            segment: words.segment(),
        }),
        Keyword::Unmark => call(Kept::Unmark),
        Keyword::Raise => call(Kept::Raise {
            event: words.byte(),
        }),
        Keyword::Checkpoint => call(Kept::Checkpoint),
    };
    Ok(statements.push(statement)?)
}

/// Reads a line after the first and adds its statement, as [`read_statement`] does. After an error nothing is known of
/// `statements`.
#[inline(always)]
pub(crate) fn later_line(
    alloc: Global,
    kept: &mut Vec<u8>,
    keyword: Keyword,
    words: &[u8],
    statements: &mut Statements,
) -> Result<(), LineError>
    ensures { Gives (λ _. statements.new) result
        (line_added keyword statements.old (words_of words.now)) }
{
    let mut words = Arguments::new(words);
    read_statement(alloc, kept, keyword, &mut words, statements)?;
    words.end()?;
    Ok(())
}

/// The part of a run script that was read so far, which contracts see: nothing before the memory line.
#[derive(Drop)]
pub(crate) struct ReadSoFar {
    pub(crate) script: Option<RunScript>,
    // The list into which the bytes of a `write` line are read. The next line reuses its memory.
    pub(crate) bytes: Vec<u8>,
    // For how many bytes of text statements are reserved.
    reserved_len: usize,
}

impl Model for ReadSoFar {
    ghost use Rattle.std.specs.Prelude.{Option};
    ghost use Rattle.dma_script.specs.declared.statements.RunScript.{RunScript};

    ghost Value = { Option RunScript };

    ghost view = { λ s. s.script };
}

impl ReadSoFar {
    ghost use Rattle.std.specs.Prelude.{None};
    ghost use Rattle.dma_script.specs.Statements.{next_line};

    /// Returns the state before the first line is read. Then statements are reserved for `reserved_len` bytes of text.
    pub(crate) fn new(alloc: Global, reserved_len: usize) -> ReadSoFar
        ensures { result ≡ None }
    {
        ReadSoFar {
            script: None,
            bytes: Vec::new(alloc),
            reserved_len,
        }
    }

    /// Reads the first line. Not inlined, so that no other line clears its locals.
    #[inline(never)]
    fn take_first(&mut self, alloc: Global, keyword: Keyword, words: &[u8]) -> Result<(), LineError>
        requires { self.old ≡ None }
        ensures { Gives (λ _. self.new) result (next_line None keyword (words_of words.now)) }
    {
        let mut script = first_line(alloc, keyword, words)?;
        script
            .statements
            .reserve(self.reserved_len / BYTES_PER_LINE);
        self.script = Some(script);
        Ok(())
    }

    /// Reads a line by its keyword and the words after it.
    #[inline(always)]
    pub(crate) fn take(
        &mut self,
        alloc: Global,
        keyword: Keyword,
        words: &[u8],
    ) -> Result<(), LineError>
        ensures { Gives (λ _. self.new) result (next_line self.old keyword (words_of words.now)) }
    {
        match &mut self.script {
            None => self.take_first(alloc, keyword, words),
            Some(script) => {
                let statements = &mut script.statements;
                later_line(alloc, &mut self.bytes, keyword, words, statements)
            }
        }
    }
}

impl Script for ReadSoFar {
    ghost use Rattle.std.specs.Prelude.{Option};
    ghost use Rattle.dma_script.specs.declared.statements.RunScript.{RunScript};
    ghost use Rattle.dma_script.specs.Statements.{run_step};

    ghost View = { Option RunScript };

    ghost view = { λ s. s };

    ghost step = { run_step };

    fn take_line(&mut self, alloc: Global, words: &[u8]) -> Result<(), LineError> {
        let (word, arguments) = next_word(words).ok_or(Cause::Command)?;
        let keyword = keyword_in(word).ok_or(Cause::Command)?;
        self.take(alloc, keyword, arguments)
    }
}

/// Reads a whole run script, or fails with its first fault or `NoMemory`. Runs none of it.
// (Not inlined, so that the code of its caller doesn't change how fast lines are read.)
#[inline(never)]
pub fn read_run_script(alloc: Global, input: &[u8]) -> Result<RunScript, ScriptError>
    ensures script { Gives (λ script. script) result (run_script_of input.now) }
    ensures within { IfOk result IsWithin }
{
    let mut read = ReadSoFar::new(alloc, input.len().min(MOST_RESERVED));
    read_script(&mut read, alloc, input)?;
    read.script.ok_or(missing(Cause::First))
}
