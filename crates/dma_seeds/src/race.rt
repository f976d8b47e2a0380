//! A race whose turns are taken in the order that a seed determines.

ghost use Rattle.std.specs.Prelude.{◌≡◌, ◌+◌, ◌<◌, ◌++◌, ◌∷◌, [], IfOk, OnOk, codes, decimal};
ghost use Rattle.std.specs.List.{sum_by};
ghost use Rattle.dma_engine.specs.Interleaved.{turns_taken};
ghost use Rattle.dma_engine.specs.Turn.{finishes_in, steps_in, turn};
ghost use Rattle.dma_engine.specs.View.{new_view};
ghost use Rattle.dma_io.specs.Answer.{prints_of};
ghost use Rattle.dma_script.specs.Race.{IsRace};
ghost use Rattle.dma_script.specs.Statements.{IsWithin};
ghost use Rattle.dma_commands.specs.Left.{lines_left};
ghost use Rattle.dma_commands.specs.Raced.{go_line};
ghost use Rattle.dma_commands.specs.Run.{line_answer, lines_answered};
ghost use Rattle.dma_seeds.specs.RaceReplies.{Races};
ghost use Rattle.dma_seeds.specs.Expect.{is_good, verdict_text};
ghost use Rattle.dma_seeds.specs.inner.Measured.{Prints};
ghost use Rattle.dma_seeds.specs.inner.Started.{IsRaceOutput, RacedFrom};

use crate::expect::{Verdict, lines_verdict, without_expects};
use crate::faults::refused;
use crate::script::script_of_jobs;
use crate::turns::Turns;
use dma_commands::run::{new_engine, run_line};
use dma_engine::{Call, Engine, EngineFault, Reply, Turn};
use dma_io::answer::Answer;
use dma_io::printing::print_line;
use dma_script::fault::ScriptError;
use dma_script::interpreter::Interpreter;
use dma_script::race::{RaceScript, read_race_script};
use dma_script::statements::{RunScript, Statement, Statements};
use std::alloc::{AllocError, Global};

/// An engine, and the length of what each line of a script printed that was executed on it.
#[derive(Drop)]
struct MeasuredEngine {
    engine: Engine,
    lengths: Vec<usize>,
}

impl Interpreter for MeasuredEngine {
    ghost use Rattle.std.specs.Prelude.{◌++◌, ◌∷◌, [], length};
    ghost use Rattle.dma_io.specs.Command.{text_of};

    type Line = Statement;

    ghost acts = { λ found line group left.
        (line_answer found.engine.view line ≡ (group, left.engine.view))
        × (left.lengths.items ≡ found.lengths.items ++ length (text_of group) ∷ []) };

    fn interpret(&mut self, line: Statement, out: &mut Vec<u8>) -> Result<(), AllocError> {
        self.lengths.reserve(1)?;
        let start = out.len();
        run_line(&mut self.engine, line, out)?;
        self.lengths.push_reserved(out.len() - start);
        Ok(())
    }
}

impl MeasuredEngine {
    /// Returns a new engine as the memory line describes it, with the length 0 of what that line prints. Fails if
    /// memory runs out.
    fn new(alloc: Global, script: &RunScript) -> Result<MeasuredEngine, AllocError>
        requires { IsWithin script.now }
        ensures view { IfOk result (λ measured.
            measured.engine.view ≡ new_view script.now.size script.now.channels) }
        ensures lengths { IfOk result (λ measured. measured.lengths.items ≡ 0 ∷ []) }
    {
        let mut lengths = Vec::new(alloc);
        lengths.push(0)?;
        let engine = new_engine(alloc, script)?;
        Ok(MeasuredEngine { engine, lengths })
    }
}

/// Executes lines of a script on an engine, and appends what they print. Fails if memory runs out.
fn run_measured(
    lines: Statements,
    measured: &mut MeasuredEngine,
    out: &mut Vec<u8>,
) -> Result<(), AllocError>
    ensures left { OnOk result
        (measured.new.engine.view ≡ lines_left measured.old.engine.view lines) }
    ensures text { OnOk result (Prints (lines_answered measured.old.engine.view lines)
        out.old.items out.new.items measured.old.lengths.items measured.new.lengths.items) }
{
    lines.run(measured, out)
}

/// What the turns of a race did.
#[derive(Clone, Copy)]
struct Totals {
    /// How many turns executed an instruction or finished a cookie.
    steps: u64,
    /// How many turns finished a cookie.
    finished: u64,
}

impl Totals {
    /// Counts one more turn, with its result.
    fn count(&mut self, turned: Result<Turn, EngineFault>)
        requires steps { self.old.steps < u64.MAX }
        requires finished { self.old.finished < u64.MAX }
        ensures steps { self.new.steps ≡ self.old.steps + steps_in turned }
        ensures finished { self.new.finished ≡ self.old.finished + finishes_in turned }
    {
        match turned {
            Ok(Turn::Moved) => self.steps += 1,
            Ok(Turn::Finished { .. }) => {
                self.steps += 1;
                self.finished += 1;
            }
            _ => {}
        }
    }
}

/// Takes one turn, a step of a channel, and returns its result. Fails if memory runs out.
fn take_turn(engine: &mut Engine, ch: u8) -> Result<Result<Turn, EngineFault>, AllocError>
    ensures { IfOk result (λ turned. (turned, engine.new.view) ≡ turn engine.old.view ch) }
{
    match engine.step(ch) {
        Err(EngineFault::NoMemory) => Err(AllocError),
        turned => Ok(turned),
    }
}

/// Takes the turns one after another. Fails if memory runs out.
#[tactic(auto, using(crate::proofs::RaceLemmas::took_more, crate::proofs::RaceLemmas::took_none))]
fn take_turns(engine: &mut Engine, turns: Turns) -> Result<Totals, AllocError>
    ensures left { OnOk result (engine.new.view ≡ (turns_taken engine.old.view turns).1) }
    ensures steps { IfOk result (λ totals. totals.steps
        ≡ sum_by steps_in (turns_taken engine.old.view turns).0) }
    ensures finished { IfOk result (λ totals. totals.finished
        ≡ sum_by finishes_in (turns_taken engine.old.view turns).0) }
{
    let mut turns = turns;
    // gives the proof the range of the number
    let _many = turns.len();
    let mut totals = Totals {
        steps: 0,
        finished: 0,
    };
    while let Some(turn) = turns.next() {
        let turned = take_turn(engine, turn.channel)?;
        totals.count(turned);
    }
    Ok(totals)
}

/// Appends the line of `go`, and its length. Fails if memory runs out.
fn print_go(totals: Totals, out: &mut Vec<u8>, lengths: &mut Vec<usize>) -> Result<(), AllocError>
    ensures { OnOk result (Prints (((codes "go steps " ++ decimal totals.steps
        ++ codes " finished " ++ decimal totals.finished) ∷ []) ∷ [])
        out.old.items out.new.items lengths.old.items lengths.new.items) }
{
    let start = out.len();
    print_line(
        out,
        &("go steps ", totals.steps, " finished ", totals.finished),
    )?;
    lengths.push(out.len() - start)?;
    Ok(())
}

impl MeasuredEngine {
    /// Takes the turns one after another, and appends the line of `go` and its length. Fails if memory runs out.
    fn go(&mut self, turns: Turns, out: &mut Vec<u8>) -> Result<(), AllocError>
        ensures left { OnOk result (self.new.engine.view
            ≡ (turns_taken self.old.engine.view turns).1) }
        ensures text { OnOk result
            (Prints ((go_line (turns_taken self.old.engine.view turns).0 ∷ []) ∷ [])
            out.old.items out.new.items self.old.lengths.items self.new.lengths.items) }
    {
        let totals = take_turns(&mut self.engine, turns)?;
        print_go(totals, out, &mut self.lengths)
    }

    /// Executes a race script with its turns in this order, and appends what it prints. Returns how long the text in front
    /// of the line of `go` is. Fails if memory runs out.
    fn run(
        &mut self,
        script: RaceScript,
        turns: Turns,
        out: &mut Vec<u8>,
    ) -> Result<usize, AllocError>
        ensures { IfOk result (λ early. RacedFrom self.old.engine.view script turns early
            out.old.items out.new.items self.old.lengths.items self.new.lengths.items) }
    {
        let RaceScript {
            before,
            jobs: _,
            after,
        } = script;
        run_measured(before.statements, self, out)?;
        let early = out.len();
        self.go(turns, out)?;
        run_measured(after, self, out)?;
        Ok(early)
    }
}

/// A race that was executed.
#[derive(Drop)]
pub(crate) struct Ran {
    /// What it printed.
    pub text: Vec<u8>,
    /// How many of these bytes are in front of the line of `go`.
    pub early: usize,
    /// Whether the `expect` lines of its script hold.
    pub verdict: Verdict,
}

/// Executes a race of this script. Fails if memory runs out.
pub(crate) fn run_race(
    alloc: Global,
    script: &[u8],
    race: RaceScript,
    seed: u64,
) -> Result<Ran, AllocError>
    requires { IsRace race }
    ensures { IfOk result
        (λ ran. IsRaceOutput script.now race seed ran.text.items ran.early ran.verdict) }
{
    let turns = Turns::of_seed(alloc, race.jobs.as_slice(), seed)?;
    let mut measured = MeasuredEngine::new(alloc, &race.before)?;
    let mut text = Vec::new(alloc);
    let ran = measured.run(race, turns, &mut text);
    let MeasuredEngine { engine, lengths } = measured;
    drop(engine);
    let early = ran?;
    let verdict = lines_verdict(alloc, seed, script, &text, &lengths)?;
    Ok(Ran {
        text,
        early,
        verdict,
    })
}

/// Returns the answer to a race that was executed, and to its script as one of `run`. Fails if memory runs out.
fn answer_of(ran: Ran, file: Vec<u8>, alloc: Global) -> Result<Answer, AllocError>
    ensures { IfOk result (λ answer. prints_of answer ≡ record {
      out = ran.text.items;
      err = verdict_text ran.verdict;
      file = file.items;
      succeeds = is_good ran.verdict;
    }) }
{
    let Ran {
        text,
        early: _,
        verdict,
    } = ran;
    let mut err = Vec::new(alloc);
    verdict.print(&mut err)?;
    let succeeds = verdict.is_good();
    Ok(Answer::new(text, err, file, succeeds))
}

/// Executes a race script in one thread, with the turns of its jobs in the order that a seed determines. Returns what
/// `dmasim race` prints for that order and the script without its `expect` lines, the message for a fault of the script
/// or for the first `expect` line that fails, and the same race as a script of `run`. Fails if memory runs out.
pub fn race_by_seed(alloc: Global, script: &[u8], seed: u64) -> Result<Answer, AllocError>
    ensures { IfOk result (λ answer. Races seed script.now (prints_of answer)) }
{
    let kept = without_expects(alloc, script)?;
    match read_race_script(alloc, &kept) {
        Ok(race) => {
            let file = script_of_jobs(alloc, &kept, race.jobs.as_slice(), seed)?;
            let ran = run_race(alloc, script, race, seed)?;
            answer_of(ran, file, alloc)
        }
        Err(ScriptError::Fault(fault)) => refused(alloc, script, fault),
        Err(ScriptError::NoMemory) => Err(AllocError),
    }
}
