//! Executes a call that is given as a value, and returns its reply.

ghost use Rattle.std.specs.Prelude.{◌≡◌};
ghost use Rattle.dma_engine.specs.Answer.{CallAnswers, count_reply, done_reply, reply_of};

use crate::call::{Call, Reply};
use crate::engine::Engine;
use crate::fault::EngineFault;
use crate::turn::{Status, Turn};
use dma_mem::lists::Bytes;

impl Engine {
    /// Executes a call by the method of the same name, and returns its reply.
    pub fn carry_out(&mut self, call: &Call) -> Reply
        ensures { CallAnswers self.old.view call.now result self.new.view }
    {
        match call {
            Call::Write { addr, bytes } => done_or_refused(self.write(*addr, bytes.as_slice())),
            Call::Read { addr, len } => match self.read_kept(*addr, *len) {
                Ok(bytes) => Reply::Bytes(bytes),
                Err(fault) => Reply::Refused(fault),
            },
            Call::Submit { ch, transfer } => self.submit_copy(*ch, transfer),
            Call::Issue { ch } => counted_or_refused(self.issue(*ch)),
            Call::Pause { ch } => done_or_refused(self.pause(*ch)),
            Call::Resume { ch } => done_or_refused(self.resume(*ch)),
            Call::Terminate { ch } => counted_or_refused(self.terminate(*ch)),
            Call::Step { ch } => turned_or_refused(self.step(*ch)),
            Call::Status { ch, cookie } => Reply::State(self.status(*ch, *cookie)),
            Call::Result { ch, cookie } => Reply::Result(self.result(*ch, *cookie)),
            Call::Mark { kind, segment } => done_or_refused(self.mark(*kind, *segment)),
            Call::Unmark => done_or_refused(self.unmark()),
            Call::Raise { event } => done_or_refused(self.raise(*event)),
            Call::Checkpoint => done_or_refused(self.checkpoint()),
        }
    }
}

// Returns the reply to a step.
pub(crate) fn turned_or_refused(outcome: Result<Turn, EngineFault>) -> Reply
    ensures { result ≡ reply_of (λ turn. Reply.Turned turn) outcome }
{
    match outcome {
        Ok(turn) => Reply::Turned(turn),
        Err(fault) => Reply::Refused(fault),
    }
}

// Returns the reply to a call whose only result is that it was done.
fn done_or_refused(outcome: Result<(), EngineFault>) -> Reply
    ensures { result ≡ done_reply outcome }
{
    match outcome {
        Ok(()) => Reply::Done,
        Err(fault) => Reply::Refused(fault),
    }
}

// Returns the reply to a call that returns a count.
fn counted_or_refused(outcome: Result<u32, EngineFault>) -> Reply
    ensures { result ≡ count_reply outcome }
{
    match outcome {
        Ok(count) => Reply::Count(count),
        Err(fault) => Reply::Refused(fault),
    }
}
