//! Executes calls in order.

ghost use Rattle.std.specs.Prelude.{◌≡◌, ◌≤◌, ◌<◌, ◌+◌, ◌++◌, false, IfOk, OnErr, IsTrue, length, replicate, take};
ghost use Rattle.std.specs.Vec.{vec_capacity};
ghost use Rattle.dma_engine.specs.Answer.{AreAnswers, Extends, KeepsOutcomes, Remembers, has_checkpoint, reply_of};
ghost use Rattle.dma_engine.specs.Room.{IsIdle};
ghost use Rattle.dma_engine.specs.View.{IsSound, memory_of};
ghost use Rattle.dma_engine.specs.Laws.{AreSoundAnswers};
ghost use Rattle.dma_engine.specs.inner.Runs.{AddsAnswers};

use crate::call::{Call, Reply};
use crate::engine::Engine;
use crate::engine::calls::turned_or_refused;
use crate::fault::{EngineFault, NoMemory};
use crate::turn::Turn;
use std::alloc::Global;

/// Executes the calls in order, and returns one reply for each. Each reply is that of a single-threaded object at its
/// place in the history.
///
/// Room for all replies is allocated first. The error is `NoMemory` if this fails; then no call was executed.
pub fn run(alloc: Global, engine: &mut Engine, calls: &[Call]) -> Result<Vec<Reply>, NoMemory>
    ensures answers { IfOk result (λ replies. AreAnswers engine.old.view calls.now replies.items
        engine.new.view) }
    // The view is sound before and after each call.
    ensures views { IfOk result (λ replies. AreSoundAnswers engine.old.view calls.now replies.items
        engine.new.view) }
    // If no checkpoint among the calls was accepted, the new history begins with the old one, and no outcome changes.
    ensures begins { IfOk result (λ replies. has_checkpoint calls.now replies.items ≡ false
        → Extends engine.old.view engine.new.view) }
    ensures kept { IfOk result (λ replies. has_checkpoint calls.now replies.items ≡ false
        → KeepsOutcomes engine.old.view engine.new.view) }
    ensures remembers { Remembers engine.old.view engine.new.view }
    ensures sound { IsSound engine.new.view }
    ensures memory { engine.new.memory ≡ memory_of engine.new.view }
    ensures refused { OnErr result (engine.new.view ≡ engine.old.view) }
{
    engine.facts();
    let mut replies = Vec::with_capacity(alloc, calls.len())?;
    let mut left = calls;
    while !left.is_empty() {
        let done = answer_some(engine, left, &mut replies);
        left = &left[done..];
    }
    Ok(replies)
}

// Executes the first of these calls, and with it those behind it that are steps of the same channel, as far as
// `advance` takes them. Adds their replies, and returns how many there are.
fn answer_some(engine: &mut Engine, calls: &[Call], replies: &mut Vec<Reply>) -> usize
    requires some { 0 < length calls.now }
    requires room { length replies.old.items + length calls.now ≤ vec_capacity replies.old }
    requires sound { IsSound engine.old.view }
    ensures some { 0 < result }
    ensures few { result ≤ length calls.now }
    ensures answers { AddsAnswers engine.old.view (take result calls.now) engine.new.view
        replies.old.items replies.new.items }
    ensures capacity { vec_capacity replies.new ≡ vec_capacity replies.old }
    ensures now_sound { IsSound engine.new.view }
    ensures memory { engine.new.memory ≡ memory_of engine.new.view }
{
    let reply = match &calls[0] {
        Call::Step { ch } => {
            let most = steps_ahead(*ch, calls);
            if most > 1 {
                return answer_steps(engine, *ch, most, replies) as usize;
            }
            turned_or_refused(engine.step(*ch))
        }
        call => engine.carry_out(call),
    };
    replies.push_reserved(reply);
    engine.facts();
    1
}

// The most steps that are counted ahead. A list is looked at again after each transfer that finishes among its steps, so
// counting all of them would take quadratic time.
const MOST_AHEAD: u32 = 1_024;

// Returns how many of these calls are steps of a channel, up to the first other one, at most `MOST_AHEAD`.
fn steps_ahead(ch: u8, calls: &[Call]) -> u32
    ensures few { result ≤ length calls.now }
    ensures steps { take result calls.now ≡ replicate result (Call.Step ch) }
{
    let mut count: u32 = 0;
    while count < MOST_AHEAD
        && (count as usize) < calls.len()
        && let Call::Step { ch: other } = &calls[count as usize]
        && *other == ch
    {
        count += 1;
    }
    count
}

// Takes steps of a channel by `advance`, at most `most`. Adds their replies, and returns how many there are. If the last
// step changed nothing, all others up to `most` have its reply, and are not executed.
fn answer_steps(engine: &mut Engine, ch: u8, most: u32, replies: &mut Vec<Reply>) -> u32
    requires some { 0 < most }
    requires room { length replies.old.items + most ≤ vec_capacity replies.old }
    requires sound { IsSound engine.old.view }
    ensures some { 0 < result }
    ensures few { result ≤ most }
    ensures answers { AddsAnswers engine.old.view (replicate result (Call.Step ch)) engine.new.view
        replies.old.items replies.new.items }
    ensures capacity { vec_capacity replies.new ≡ vec_capacity replies.old }
    ensures now_sound { IsSound engine.new.view }
    ensures memory { engine.new.memory ≡ memory_of engine.new.view }
{
    let steps = engine.advance(ch, most);
    if let Some(cookie) = steps.started {
        replies.push_reserved(Reply::Turned(Turn::Started(cookie)));
    }
    push_turns(replies, Ok(Turn::Moved), steps.moved);
    let before = steps.steps_before();
    let Some(last) = steps.last else {
        return before;
    };
    let many = if is_idle(last) { most - before } else { 1 };
    push_turns(replies, last, many);
    before + many
}

// Returns whether a step with this result changed nothing, so that the next step has the same result. One that is out
// of memory is tried again.
fn is_idle(turn: Result<Turn, EngineFault>) -> bool
    ensures idle { IsTrue result → IsIdle turn }
    ensures memory { IsTrue result
        → (reply_of (λ turn. Reply.Turned turn) turn ≡ Reply.Refused EngineFault.NoMemory → ⊥) }
{
    !matches!(
        turn,
        Ok(Turn::Started(_) | Turn::Moved | Turn::Finished { .. }) | Err(EngineFault::NoMemory)
    )
}

// Adds this many replies to steps that have the same result.
fn push_turns(replies: &mut Vec<Reply>, turn: Result<Turn, EngineFault>, many: u32)
    requires { length replies.old.items + many ≤ vec_capacity replies.old }
    ensures items { replies.new.items ≡ replies.old.items
        ++ replicate many (reply_of (λ turn. Reply.Turned turn) turn) }
    ensures capacity { vec_capacity replies.new ≡ vec_capacity replies.old }
{
    for _ in 0..many {
        replies.push_reserved(turned_or_refused(turn));
    }
}
