//! What the next step of a channel does, without taking it.

ghost use Rattle.std.specs.Prelude.{◌≡◌, ◌≤◌, IfSome, IsNone, Ok};
ghost use Rattle.dma_mem.specs.Limits.{last_event};
ghost use Rattle.dma_engine.specs.Turn.{ends, turn};
ghost use Rattle.dma_chan.specs.inner.Acts.{IsOther};
ghost use Rattle.dma_engine.specs.inner.Due.{IsDue, IsNext, MayStart, Waits, Finishes};

use crate::access::Access;
use crate::engine::Engine;
use crate::engine::steps::failure_of;
use crate::fault::EngineFault;
use crate::outcome::TransResult;
use crate::turn::Turn;
use dma_chan::next::Next;
use dma_insn::chip::ChipInsn;

impl Engine {
    /// Returns the result of the next [`Engine::step`] of a channel if memory doesn't run out. Nothing changes.
    pub fn next_turn(&self, ch: u8) -> Result<Turn, EngineFault>
        ensures { result ≡ (turn self.now.view ch).0 }
    {
        self.facts();
        let index = self.index_of(ch)?;
        let queue = &self.queues[index];
        if queue.is_halted() {
            return Ok(Turn::Halted);
        }
        if queue.is_paused() {
            return Ok(Turn::Paused);
        }
        if !queue.channel.is_loaded() {
            return Ok(self.next_start(ch));
        }
        let Some(next) = self.due(ch) else {
            return Err(EngineFault::StepsSpent);
        };
        match next.insn() {
            ChipInsn::Wfe { event, .. } => Ok(self.next_wait(ch, event.number())),
            ChipInsn::Sev(_) => Ok(Turn::Moved),
            ChipInsn::End => Ok(self.next_finish(ch, TransResult::NoError)),
            _ => match self.next_failure(ch, next) {
                None => Ok(Turn::Moved),
                Some(how) => Ok(self.next_finish(ch, how)),
            },
        }
    }

    /// Returns whether the next `step` of a channel returns [`Turn::Finished`], or `NoMemory` instead of it.
    pub fn ending(&self, ch: u8) -> bool
        ensures { result ≡ ends (turn self.now.view ch).0 }
    {
        self.facts();
        let Some(next) = self.due(ch) else {
            return false;
        };
        match next.insn() {
            ChipInsn::Wfe { .. } | ChipInsn::Sev(_) => false,
            ChipInsn::End => true,
            _ => self.next_failure(ch, next).is_some(),
        }
    }

    // Returns the turn of a front that isn't running.
    fn next_start(&self, ch: u8) -> Turn
        requires { MayStart self.now.view ch }
        ensures { Ok result ≡ (turn self.now.view ch).0 }
    {
        let Some((transfer, cookie)) = self.front(usize::from(ch)) else {
            return Turn::Nothing;
        };
        match self.first_conflict(&Access::Start(transfer)) {
            Some((ch, cookie)) => Turn::Held { ch, cookie },
            None => Turn::Started(cookie),
        }
    }

    // Returns the turn of a front whose next instruction waits for an event.
    fn next_wait(&self, ch: u8, event: u8) -> Turn
        requires event { event ≤ last_event }
        requires waits { IsDue self.now.view ch (Waits event) }
        ensures { Ok result ≡ (turn self.now.view ch).0 }
    {
        if self.events.is_set(event) {
            Turn::Moved
        } else {
            Turn::Waiting(event)
        }
    }

    // Returns how a front fails at its next instruction, which neither waits, signals nor ends, or `None` if it moves.
    fn next_failure(&self, ch: u8, next: Next) -> Option<TransResult>
        requires due { IsDue self.now.view ch (IsNext next) }
        requires other { IsOther next }
        ensures fails { IfSome result (λ how. IsDue self.now.view ch (Finishes self.now.view how)) }
        ensures moves { IsNone result → (turn self.now.view ch).0 ≡ Ok Turn.Moved }
    {
        let queue = &self.queues[usize::from(ch)];
        match queue.channel.failing_at(next, &self.memory, &self.marks) {
            Some(kind) => Some(failure_of(kind)),
            None => None,
        }
    }

    // Returns the turn of a front whose next instruction finishes it with this result.
    fn next_finish(&self, ch: u8, how: TransResult) -> Turn
        requires { IsDue self.now.view ch (Finishes self.now.view how) }
        ensures { Ok result ≡ (turn self.now.view ch).0 }
    {
        // gives the proof the invariant
        let _alloc = &self.alloc;
        let index = usize::from(ch);
        let stored = self.done(index);
        let Some((transfer, cookie)) = self.front(index) else {
            unreachable!();
        };
        Turn::Finished {
            cookie,
            result: how,
            residue: transfer.len().saturating_sub(stored),
        }
    }
}
