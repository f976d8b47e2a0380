//! Reads the lines of a race script: the lines before `go`, with the jobs among them, and the lines after it.
ghost use Rattle.std.specs.Prelude.{◌≡◌, IfOk};
ghost use Rattle.dma_script.specs.Lines.{Gives};
ghost use Rattle.dma_script.specs.Words.{words_of};
ghost use Rattle.dma_script.specs.Race.{IsRace, is_early, job_line, race_keyword_of, race_script_of};

use crate::arguments::Arguments;
use crate::fault::{Cause, LineError, ScriptError, missing};
use crate::lines::{Script, read_script};
use crate::list::List;
use crate::statements::{Keyword, ReadSoFar, RunScript, Statements, keyword_in, later_line};
use crate::words::next_word;
use dma_text::bytes::is_text;
use std::alloc::Global;
use std::marker::Model;

/// The most jobs of a script (profile).
pub const MAX_JOBS: usize = 16;

/// The highest channel that a job may name.
pub const LAST_CHANNEL: u32 = dma_mem::limits::LAST_CHANNEL as u32;

/// A line `job FIRST LAST TURNS`: what one worker does.
#[derive(Clone, Copy)]
pub struct JobLine {
    /// The lowest channel that it steps.
    pub first: u8,
    /// The highest, at least `first` and at most [`LAST_CHANNEL`].
    pub last: u8,
    /// The number of turns that it takes, which may be 0.
    pub turns: u32,
}

/// A list of jobs, in the order of their lines.
pub type Jobs = List<JobLine>;

/// A race script.
#[derive(Drop)]
pub struct RaceScript {
    /// The memory line, and the lines between it and `go` except the jobs.
    pub before: RunScript,
    /// The jobs, at most [`MAX_JOBS`].
    pub jobs: Jobs,
    /// The lines after `go`.
    pub after: Statements,
}

/// The word that begins a line of a race script.
#[derive(Clone, Copy)]
pub(crate) enum RaceKeyword {
    /// The first word of a line of a run script.
    Line(Keyword),
    /// `job FIRST LAST TURNS`
    Job,
    /// `go`
    Go,
}

/// Returns the command of a race script that a word spells, or `None` for any other word.
fn race_keyword_in(word: &[u8]) -> Option<RaceKeyword>
    ensures { result ≡ race_keyword_of word.now }
{
    match word {
        _ if is_text(word, b"job") => Some(RaceKeyword::Job),
        _ if is_text(word, b"go") => Some(RaceKeyword::Go),
        _ => Some(RaceKeyword::Line(keyword_in(word)?)),
    }
}

/// Returns whether a line of a run script is allowed before `go`.
fn is_early(keyword: Keyword) -> bool
    ensures { result ≡ is_early keyword }
{
    matches!(
        keyword,
        Keyword::Memory
            | Keyword::Write
            | Keyword::Read
            | Keyword::Submit
            | Keyword::Issue
            | Keyword::Terminate
            | Keyword::Status
            | Keyword::Result
    )
}

/// Reads `FIRST LAST TURNS`. Fails with `Range` if FIRST is above LAST, or LAST above 7.
fn job_line(words: &[u8]) -> Result<JobLine, Cause>
    ensures { result ≡ job_line (words_of words.now) }
{
    let mut words = Arguments::new(words);
    let first = words.number();
    let last = words.number();
    let turns = words.number();
    words.end()?;
    if first > last || last > LAST_CHANNEL {
        return Err(Cause::Range);
    }
    Ok(JobLine {
        first: first as u8,
        last: last as u8,
        turns,
    })
}

/// The part of a race script that was read so far: nothing before the memory line, and no list of later lines before
/// `go`.
#[derive(Drop)]
struct RaceSoFar {
    before: ReadSoFar,
    jobs: Jobs,
    after: Option<Statements>,
}

impl Model for RaceSoFar {
    ghost use Rattle.dma_script.specs.Race.{RaceRead};

    ghost Value = { RaceRead };

    ghost view = { λ s. record { before = s.before; jobs = s.jobs; after = s.after } };
}

impl RaceSoFar {
    ghost use Rattle.dma_script.specs.Race.{line_before_go};

    /// Reads a line if `go` was not read yet. Fails with `Command` for a line that is allowed only after `go`.
    fn take_before_go(
        &mut self,
        alloc: Global,
        keyword: RaceKeyword,
        words: &[u8],
    ) -> Result<(), LineError>
        ensures { Gives (λ _. self.new) result
            (line_before_go self.old keyword (words_of words.now)) }
    {
        match keyword {
            RaceKeyword::Line(keyword) if is_early(keyword) => {
                return self.before.take(alloc, keyword, words);
            }
            RaceKeyword::Line(_) => return Err(LineError::Fault(Cause::Command)),
            _ if self.before.script.is_none() => return Err(LineError::Fault(Cause::First)),
            RaceKeyword::Job => {
                let job = job_line(words)?;
                if self.jobs.as_slice().len() >= MAX_JOBS {
                    return Err(LineError::Fault(Cause::Range));
                }
                self.jobs.push(job)?;
            }
            RaceKeyword::Go => {
                Arguments::new(words).end()?;
                self.after = Some(Statements::new(alloc));
            }
        }
        Ok(())
    }
}

impl Script for RaceSoFar {
    ghost use Rattle.dma_script.specs.Race.{RaceRead, race_step};

    ghost View = { RaceRead };

    ghost view = { λ read. read };

    ghost step = { race_step };

    fn take_line(&mut self, alloc: Global, words: &[u8]) -> Result<(), LineError> {
        let (word, words) = next_word(words).ok_or(Cause::Command)?;
        let keyword = race_keyword_in(word).ok_or(Cause::Command)?;
        let Some(after) = &mut self.after else {
            return self.take_before_go(alloc, keyword, words);
        };
        let RaceKeyword::Line(keyword) = keyword else {
            return Err(LineError::Fault(Cause::Command));
        };
        later_line(alloc, &mut self.before.bytes, keyword, words, after)
    }
}

/// Reads a whole race script, or fails with its first fault or `NoMemory`. Runs none of it.
pub fn read_race_script(alloc: Global, input: &[u8]) -> Result<RaceScript, ScriptError>
    ensures script { Gives (λ script. script) result (race_script_of input.now) }
    ensures within { IfOk result IsRace }
{
    let mut read = RaceSoFar {
        // few lines come before `go`
        before: ReadSoFar::new(alloc, 0),
        jobs: List::new(alloc),
        after: None,
    };
    read_script(&mut read, alloc, input)?;
    let before = read.before;
    let before = before.script.ok_or(missing(Cause::First))?;
    let after = read.after.ok_or(missing(Cause::Go))?;
    Ok(RaceScript {
        before,
        jobs: read.jobs,
        after,
    })
}
