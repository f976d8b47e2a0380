//! The `step` lines of a script. Equal consecutive answers are counted and printed as one line.

ghost use Rattle.std.specs.Prelude.{◌≡◌, ◌≢◌, ◌≤◌, ◌<◌, ◌+◌, ◌++◌, ◌∷◌, [], List, ℕ, codes, OnOk, OnErr, IfOk, IfSome, length, map, replicate, take};
ghost use Rattle.dma_engine.specs.Answer.{reply_of};
ghost use Rattle.dma_io.specs.Command.{text_of};
ghost use Rattle.dma_commands.specs.Laws.{HaveMemory};
ghost use Rattle.dma_commands.specs.Printed.{reply_text, turn_text};
ghost use Rattle.dma_commands.specs.inner.Counting.{text_with, transfer_text};
ghost use Rattle.dma_commands.specs.inner.RunSteps.{RunsLine};
ghost use Rattle.dma_commands.specs.Run.{step_answer, step_line, step_lines};

use crate::printing::Shown;
use crate::run::call_list::MAX_CALLS;
use crate::run::reused::ReusedCalls;
use dma_engine::run::run;
use dma_engine::{Engine, EngineFault, Reply, TransResult, Turn};
use dma_io::printing::print_line;
use dma_text::text::{Text, print};
use std::alloc::{AllocError, Global};
use std::mem;

/// The line of consecutive equal answers to steps of a channel, with their number.
#[derive(Drop)]
struct StepLine<T> {
    ch: u8,
    answer: T,
    count: u32,
}

impl<T: Text> Text for StepLine<T> {
    ghost text = { λ line. step_line line.ch (T.text line.answer, line.count) };

    ghost is_printed = { λ line. T.is_printed line.answer };

    #[inline(always)]
    fn push(&self, out: &mut Vec<u8>) -> Result<(), AllocError> {
        ("step ", self.ch, " ").push(out)?;
        self.answer.push(out)?;
        (" x", self.count).push(out)
    }
}

/// The answers to the steps of a line so far: the printed lines of the earlier ones, and the last answer with the
/// number of its consecutive occurrences.
#[derive(Drop)]
pub struct StepLines {
    lines: Vec<u8>,
    last: Vec<u8>,
    count: u32,
    next: Vec<u8>,
}

impl StepLines {
    /// Returns a value without answers. Doesn't allocate.
    pub fn new(alloc: Global) -> StepLines
        ensures lines { result.lines.items ≡ [] }
        ensures count { result.count ≡ 0 }
    {
        StepLines {
            lines: Vec::new(alloc),
            last: Vec::new(alloc),
            count: 0,
            next: Vec::new(alloc),
        }
    }

    /// Forgets all answers.
    fn clear(&mut self)
        ensures lines { self.new.lines.items ≡ [] }
        ensures count { self.new.count ≡ 0 }
    {
        self.lines.clear();
        self.count = 0;
    }

    /// Appends the line of the last answer to `lines`, if an answer was counted. Fails if memory runs out.
    fn end_line(&mut self, ch: u8) -> Result<(), AllocError>
        ensures none { OnOk result
            (self.old.count ≡ 0 → self.new.lines.items ≡ self.old.lines.items) }
        ensures line { OnOk result
            (0 < self.old.count → self.new.lines.items ≡ self.old.lines.items
            ++ text_of (step_line ch (self.old.last.items, self.old.count) ∷ [])) }
        ensures last { self.new.last.items ≡ self.old.last.items }
        ensures count { self.new.count ≡ self.old.count }
        ensures next { self.new.next.items ≡ self.old.next.items }
    {
        if self.count == 0 {
            return Ok(());
        }
        let line = StepLine {
            ch,
            answer: self.last.as_slice(),
            count: self.count,
        };
        print_line(&mut self.lines, &line)
    }

    /// Adds `many` equal answers. Fails if memory runs out.
    fn take(&mut self, ch: u8, reply: &Reply, many: u32) -> Result<(), AllocError>
        requires { self.old.count + many ≤ u32.MAX }
        ensures text { OnOk result
            ((rest : List (List ℕ))
            → text_with ch self.new.lines.items self.new.last.items self.new.count rest
            ≡ text_with ch self.old.lines.items self.old.last.items self.old.count
            (replicate many (reply_text reply.now) ++ rest)) }
        ensures memory { OnOk result
            (0 < many → reply.now ≢ Reply.Refused EngineFault.NoMemory) }
        ensures count { OnOk result (self.new.count ≤ self.old.count + many) }
    {
        if many == 0 {
            return Ok(());
        }
        self.next.clear();
        Shown(reply).push(&mut self.next)?;
        if self.last.as_slice() == self.next.as_slice() {
            self.count += many;
            return Ok(());
        }
        self.end_line(ch)?;
        mem::swap(&mut self.last, &mut self.next);
        self.count = many;
        Ok(())
    }

    /// Adds the answers to steps of a channel, in order. Fails if memory runs out.
    fn take_all(&mut self, ch: u8, replies: &[Reply]) -> Result<(), AllocError>
        requires { self.old.count + length replies.now ≤ u32.MAX }
        ensures text { OnOk result
            ((rest : List (List ℕ))
            → text_with ch self.new.lines.items self.new.last.items self.new.count rest
            ≡ text_with ch self.old.lines.items self.old.last.items self.old.count
            (map reply_text replies.now ++ rest)) }
        ensures memory { OnOk result (HaveMemory replies.now) }
        ensures count { OnOk result (self.new.count ≤ self.old.count + length replies.now) }
    {
        let mut left = replies;
        while let [first, rest @ ..] = left {
            let many = equal_replies(first, rest);
            self.take(ch, first, many as u32)?;
            left = &left[many..];
        }
        Ok(())
    }
}

/// Returns the reply to a step. Fails with `AllocError` if the step was out of memory.
pub fn step_reply(turn: Result<Turn, EngineFault>) -> Result<Reply, AllocError>
    ensures reply { IfOk result
        (λ reply. (reply ≡ reply_of (λ turn. Reply.Turned turn) turn)
        × (reply ≢ Reply.Refused EngineFault.NoMemory)) }
    ensures refused { OnErr result (turn ≡ Err EngineFault.NoMemory) }
{
    match turn {
        Ok(turn) => Ok(Reply::Turned(turn)),
        Err(EngineFault::NoMemory) => Err(AllocError),
        Err(fault) => Ok(Reply::Refused(fault)),
    }
}

/// Returns how many of these results of steps are this one, up to the first other.
#[inline(always)]
fn equal_turns(turn: Turn, replies: &[Reply]) -> usize
    ensures few { result ≤ length replies.now }
    ensures equal { take result replies.now ≡ replicate result (Reply.Turned turn) }
{
    let mut count = 0;
    while count < replies.len()
        && let Reply::Turned(other) = &replies[count]
        && *other == turn
    {
        count += 1;
    }
    count
}

/// Returns how many replies to steps are counted at once: the first, and after a result of a step those that are equal.
fn equal_replies(first: &Reply, rest: &[Reply]) -> usize
    ensures some { 0 < result }
    ensures few { result ≤ length rest.now + 1 }
    ensures equal { take result (first.now ∷ rest.now) ≡ replicate result first.now }
{
    match first {
        Reply::Turned(turn) => 1 + equal_turns(*turn, rest),
        _ => 1,
    }
}

/// Appends the line of one step with this answer. Not inlined, since most steps move.
#[inline(never)]
fn print_step(ch: u8, reply: &Reply, out: &mut Vec<u8>) -> Result<(), AllocError>
    ensures ok { OnOk result (out.new.items ≡ out.old.items
        ++ text_of (step_line ch (reply_text reply.now, 1) ∷ [])) }
    ensures printed { OnOk result (reply.now ≢ Reply.Refused EngineFault.NoMemory) }
    ensures err { OnErr result (out.new.items ≡ out.old.items) }
{
    let line = StepLine {
        ch,
        answer: Shown(reply),
        count: 1,
    };
    print_line(out, &line)
}

/// Appends the line of one step that moved. Most channels have one digit.
fn print_moved(ch: u8, out: &mut Vec<u8>) -> Result<(), AllocError>
    ensures ok { OnOk result
        (out.new.items ≡ out.old.items ++ text_of (step_line ch (codes "moved", 1) ∷ [])) }
    ensures err { OnErr result (out.new.items ≡ out.old.items) }
{
    if ch >= 10 {
        return print_step(ch, &Reply::Turned(Turn::Moved), out);
    }
    let mut line = *b"step 0 moved x1\n";
    line[5] += ch;
    out.extend_from_slice(&line)
}

/// Appends the line of one step that found nothing to do. Most channels have one digit.
fn print_nothing(ch: u8, out: &mut Vec<u8>) -> Result<(), AllocError>
    ensures ok { OnOk result
        (out.new.items ≡ out.old.items ++ text_of (step_line ch (codes "nothing", 1) ∷ [])) }
    ensures err { OnErr result (out.new.items ≡ out.old.items) }
{
    if ch >= 10 {
        return print_step(ch, &Reply::Turned(Turn::Nothing), out);
    }
    let mut line = *b"step 0 nothing x1\n";
    line[5] += ch;
    out.extend_from_slice(&line)
}

/// Appends the line of one step with this result. The two commonest are appended at once.
#[inline(always)]
fn print_turn(ch: u8, turn: Turn, out: &mut Vec<u8>) -> Result<(), AllocError>
    ensures ok { OnOk result
        (out.new.items ≡ out.old.items ++ text_of (step_line ch (turn_text turn, 1) ∷ [])) }
    ensures err { OnErr result (out.new.items ≡ out.old.items) }
{
    match turn {
        Turn::Moved => print_moved(ch, out),
        Turn::Nothing => print_nothing(ch, out),
        _ => print_step(ch, &Reply::Turned(turn), out),
    }
}

/// A transfer that starts, moves and finishes without an error.
#[derive(Clone, Copy)]
struct Whole {
    started: u32,
    moved: u32,
    finished: u32,
}

/// Returns the transfer that these answers to steps start, move and finish without an error, if they do.
#[inline(always)]
fn whole_transfer(replies: &[Reply]) -> Option<Whole>
    requires { length replies.now ≤ u32.MAX }
    ensures some { IfSome result (λ whole. 0 < whole.moved) }
    ensures all { IfSome result (λ whole. replies.now ≡ Reply.Turned (Turn.Started whole.started)
        ∷ (replicate whole.moved (Reply.Turned Turn.Moved)
        ++ Reply.Turned (Turn.Finished whole.finished TransResult.NoError 0) ∷ [])) }
{
    let [
        Reply::Turned(Turn::Started(started)),
        moves @ ..,
        Reply::Turned(last),
    ] = replies
    else {
        return None;
    };
    let Turn::Finished {
        cookie,
        result: TransResult::NoError,
        residue: 0,
    } = *last
    else {
        return None;
    };
    let moved = equal_turns(Turn::Moved, moves);
    if moved == 0 || moved < moves.len() {
        return None;
    }
    Some(Whole {
        started: *started,
        moved: moved as u32,
        finished: cookie,
    })
}

/// Appends the lines of a transfer that starts, moves and finishes without an error within one `step` line.
fn print_transfer(ch: u8, whole: Whole, out: &mut Vec<u8>) -> Result<(), AllocError>
    ensures ok { OnOk result (out.new.items
        ≡ out.old.items ++ transfer_text ch whole.started whole.moved whole.finished) }
    ensures err { OnErr result (out.new.items ≡ out.old.items) }
{
    let start = ("step ", ch, " started ", whole.started);
    let moves = (" x1\nstep ", ch, " moved x", whole.moved);
    let finish = ("\nstep ", ch, " finished ", whole.finished);
    print(out, &(start, moves, finish, " NoError residue 0 x1\n"))
}

/// Appends the lines of the answers to several steps of a channel. Not inlined, since most lines take one step.
#[inline(never)]
fn print_several(
    ch: u8,
    replies: &[Reply],
    steps: &mut StepLines,
    out: &mut Vec<u8>,
) -> Result<(), AllocError>
    requires { length replies.now ≤ u32.MAX }
    ensures ok { OnOk result
        (out.new.items ≡ out.old.items ++ text_of (step_lines ch (map reply_text replies.now))) }
    ensures printed { OnOk result (HaveMemory replies.now) }
    ensures err { OnErr result (out.new.items ≡ out.old.items) }
{
    if let Some(whole) = whole_transfer(replies) {
        return print_transfer(ch, whole, out);
    }
    steps.clear();
    steps.take_all(ch, replies)?;
    steps.end_line(ch)?;
    print(out, &steps.lines.as_slice())
}

/// Appends the lines of the answers to steps of a channel. Appends nothing if one of them is out of memory, or memory
/// runs out.
#[inline(always)]
pub fn print_steps(
    ch: u8,
    replies: &[Reply],
    steps: &mut StepLines,
    out: &mut Vec<u8>,
) -> Result<(), AllocError>
    requires { length replies.now ≤ u32.MAX }
    ensures ok { OnOk result
        (out.new.items ≡ out.old.items ++ text_of (step_lines ch (map reply_text replies.now))) }
    ensures printed { OnOk result (HaveMemory replies.now) }
    ensures err { OnErr result (out.new.items ≡ out.old.items) }
{
    match replies {
        [Reply::Turned(turn)] => print_turn(ch, *turn, out),
        [reply] => print_step(ch, reply, out),
        _ => print_several(ch, replies, steps, out),
    }
}

/// Executes a `step` line of so many steps that they take several lists of calls. Not inlined, since it is rare.
#[inline(never)]
pub fn answer_steps(
    engine: &mut Engine,
    ch: u8,
    count: u32,
    out: &mut Vec<u8>,
) -> Result<(), AllocError>
    ensures { RunsLine (step_answer engine.old.view ch count) engine.new.view
        result out.old.items out.new.items }
{
    let alloc = *out.allocator();
    let mut steps = StepLines::new(alloc);
    let mut calls = ReusedCalls::new(alloc);
    calls.push_steps(ch, MAX_CALLS)?;
    let calls = calls.as_slice();
    let mut left = count;
    while left > 0 {
        let many = left.min(MAX_CALLS);
        let Ok(replies) = run(alloc, engine, &calls[..many as usize]) else {
            return Err(AllocError);
        };
        steps.take_all(ch, &replies)?;
        left -= many;
    }
    steps.end_line(ch)?;
    print(out, &steps.lines.as_slice())
}
