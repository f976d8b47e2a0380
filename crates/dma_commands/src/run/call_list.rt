//! Lines of a script whose calls are made by one `run`.
ghost use Rattle.std.specs.Prelude.{◌≡◌, ◌≤◌, ◌<◌, ◌+◌, ◌++◌, ◌∷◌, [], false, ℕ, List, drop, length, replicate, IsTrue, OnOk, OnErr, IfOk};
ghost use Rattle.dma_engine.specs.Answer.{AreAnswers};
ghost use Rattle.dma_engine.specs.View.{View};
ghost use Rattle.dma_io.specs.Command.{AppendsGroups};
ghost use Rattle.dma_commands.specs.Run.{lines_answered};
ghost use Rattle.dma_commands.specs.inner.Listed.{AnswersLines, IsWhole, Prints, Reaches, statements_in};
ghost use Rattle.dma_commands.specs.declared.run.call_list.Line.{Line as TheLine};
ghost use Rattle.dma_script.specs.declared.statements.Statement.{Statement as TheStatement};

use crate::printing::print_call;
use crate::run::reused::ReusedCalls;
use crate::run::steps::{StepLines, print_steps};
use dma_engine::run::run;
use dma_engine::{Call, Engine, Reply};
use dma_script::statements::Statement;
use std::alloc::{AllocError, Global};
use std::marker::Model;

/// The most calls that one `run` is given.
pub const MAX_CALLS: u32 = 1_024;

/// The most calls of several lines that one `run` is given. With their replies they stay in a first cache.
const MOST_SHARED: usize = 128;

/// The calls that a line makes.
#[derive(Clone, Copy)]
enum Line {
    /// One call.
    Call,
    /// So many steps of a channel.
    Steps { ch: u8, count: u32 },
}

/// Lines of a script that wait until their calls are made together. Contracts see them as statements.
#[derive(Drop)]
pub struct CallList {
    lines: Vec<Line>,
    // The calls of all lines, in order.
    calls: ReusedCalls,
    // What prints the answers to steps. Its memory is reused.
    steps: StepLines,
}

impl Model for CallList {
    ghost use Rattle.std.specs.Prelude.{List};
    ghost use Rattle.dma_script.specs.declared.statements.Statement.{Statement};
    ghost use Rattle.dma_commands.specs.inner.Listed.{IsWhole, statements_in};

    ghost Value = { List Statement };

    ghost view = { λ s. statements_in s.lines.items s.calls };

    ghost invariant = { λ s. IsWhole s.lines.items s.calls };
}

impl CallList {
    /// Returns a list without lines. Doesn't allocate.
    pub fn new(alloc: Global) -> CallList
        ensures { result ≡ [] }
    {
        CallList {
            lines: Vec::new(alloc),
            calls: ReusedCalls::new(alloc),
            steps: StepLines::new(alloc),
        }
    }

    /// Makes room for a line with this many calls. Returns false if the lines that wait have to be executed first: there
    /// would be too many calls, or memory runs out.
    fn has_room(&mut self, count: u32) -> bool
        ensures { self.new ≡ self.old }
    {
        let len = self.calls.len();
        let is_short = len == 0 || len <= MOST_SHARED && count as usize <= MOST_SHARED - len;
        is_short && self.lines.reserve(1).is_ok() && self.calls.reserve(count as usize).is_ok()
    }

    /// Adds a line that makes one call.
    #[inline(always)]
    pub fn push(&mut self, call: Call) -> Result<(), AllocError>
        ensures { OnOk result (self.new ≡ self.old ++ Statement.Call call ∷ []) }
    {
        self.lines.reserve(1)?;
        self.calls.push(call)?;
        self.lines.push_reserved(Line::Call);
        Ok(())
    }

    /// Adds a line that takes one step, if it may wait together with those that wait, and takes no memory. Returns
    /// whether it was added. (Most lines of long scripts take one step.)
    #[inline(always)]
    pub fn reuse_step(&mut self, ch: u8, count: u32) -> bool
        ensures added { IsTrue result → self.new ≡ self.old ++ Statement.Step ch count ∷ [] }
        ensures same { result ≡ false → self.new ≡ self.old }
    {
        let is_one = count == 1 && self.lines.len() < self.lines.capacity();
        if is_one && self.calls.len() < MOST_SHARED && self.calls.reuse_step(ch) {
            self.lines.push_reserved(Line::Steps { ch, count });
            return true;
        }
        false
    }

    /// Adds a line that takes this many steps of a channel.
    #[inline(always)]
    pub fn push_steps(&mut self, ch: u8, count: u32) -> Result<(), AllocError>
        ensures { OnOk result (self.new ≡ self.old ++ Statement.Step ch count ∷ []) }
    {
        self.lines.reserve(1)?;
        self.calls.push_steps(ch, count)?;
        self.lines.push_reserved(Line::Steps { ch, count });
        Ok(())
    }

    /// Executes the lines if the list has no room for this many calls, or gets none. If memory runs out, appends what the
    /// first lines print, but not all.
    #[inline(always)]
    pub fn make_room(
        &mut self,
        engine: &mut Engine,
        count: u32,
        out: &mut Vec<u8>,
    ) -> Result<(), AllocError>
        ensures ok { OnOk result ((behind : List TheStatement) → Reaches engine.old.view
            (self.old ++ behind) out.old.items engine.new.view (self.new ++ behind) out.new.items) }
        ensures err { OnErr result
            (AppendsGroups (lines_answered engine.old.view self.old) out.old.items out.new.items) }
    {
        if self.has_room(count) {
            return Ok(());
        }
        self.execute(engine, out)?;
        Ok(())
    }

    /// Makes the calls of the lines, and appends what these print. Then no line is left. If memory runs out, appends
    /// what the first lines print, but not all.
    pub fn execute(&mut self, engine: &mut Engine, out: &mut Vec<u8>) -> Result<(), AllocError>
        ensures ok { OnOk result
            (AnswersLines engine.old.view self.old engine.new.view out.old.items out.new.items) }
        ensures empty { OnOk result (self.new ≡ []) }
        ensures err { OnErr result
            (AppendsGroups (lines_answered engine.old.view self.old) out.old.items out.new.items) }
    {
        if self.lines.is_empty() {
            return Ok(());
        }
        let calls = self.calls.as_slice();
        let Ok(replies) = run(*out.allocator(), engine, calls) else {
            return Err(AllocError);
        };
        print_replies(&self.lines, calls, &replies, &mut self.steps, out)?;
        self.lines.clear();
        self.calls.clear();
        Ok(())
    }
}

/// Appends what a line prints, given its calls and their replies, and perhaps further ones. Returns the number of its
/// calls. Appends nothing if one of them is out of memory, or memory runs out.
#[inline(always)]
fn print_first(
    line: Line,
    calls: &[Call],
    replies: &[Reply],
    steps: &mut StepLines,
    out: &mut Vec<u8>,
) -> Result<usize, AllocError>
    requires whole { (rest : List TheLine) × IsWhole (line ∷ rest) calls.now }
    requires same { length replies.now ≡ length calls.now }
    ensures few { IfOk result (λ own. (own ≤ length calls.now) × (own ≤ u32.MAX)) }
    ensures rest { IfOk result (λ own. (rest : List TheLine) → IsWhole (line ∷ rest) calls.now
        → IsWhole rest (drop own calls.now)) }
    ensures printed { IfOk result (λ own. (v w : View) (all : List TheStatement) (old : List ℕ)
        (rest : List TheLine) → IsWhole (line ∷ rest) calls.now
        → Prints v w all old (line ∷ rest) calls.now replies.now out.old.items
        → Prints v w all old rest (drop own calls.now) (drop own replies.now) out.new.items) }
    ensures err { OnErr result (out.new.items ≡ out.old.items) }
{
    match line {
        Line::Call => {
            print_call(&calls[0], &replies[0], out)?;
            Ok(1)
        }
        Line::Steps { ch, count } => {
            let own = count as usize;
            print_steps(ch, &replies[..own], steps, out)?;
            Ok(own)
        }
    }
}

/// Appends what lines print, given the replies to their calls, up to the line that is out of memory. Fails if there is
/// one.
fn print_replies(
    lines: &[Line],
    calls: &[Call],
    replies: &[Reply],
    steps: &mut StepLines,
    out: &mut Vec<u8>,
) -> Result<(), AllocError>
    requires whole { IsWhole lines.now calls.now }
    requires same { length replies.now ≡ length calls.now }
    ensures ok { OnOk result ((v w : View) → AreAnswers v calls.now replies.now w
        → AnswersLines v (statements_in lines.now calls.now) w out.old.items out.new.items) }
    ensures err { OnErr result ((v w : View) → AreAnswers v calls.now replies.now w
        → AppendsGroups (lines_answered v (statements_in lines.now calls.now))
        out.old.items out.new.items) }
{
    let mut calls = calls;
    let mut replies = replies;
    for line in lines {
        let own = print_first(*line, calls, replies, steps, out)?;
        calls = &calls[own..];
        replies = &replies[own..];
    }
    Ok(())
}
