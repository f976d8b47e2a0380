//! The calls on the queue of a channel: submit, issue, pause, resume, terminate, and make room.

ghost use Rattle.std.specs.Prelude.{◌≡◌, ◌≢◌, ◌+◌, Ok, IfOk, IfErr, OnOk, OnErr, None, unwrap_or, if◌then◌else◌};
ghost use Rattle.dma_mem.specs.Rules.{IsTransfer};
ghost use Rattle.dma_engine.specs.Object.{channel, used};
ghost use Rattle.dma_engine.specs.View.{object_of};
ghost use Rattle.dma_engine.specs.Answer.{CallAnswers, channel_fault, count_reply, done_reply, next_cookie, submit_reply};
ghost use Rattle.dma_engine.specs.Room.{HasMemory, HasRoom, KeepsRoom};

use crate::call::{Call, Reply};
use crate::engine::Engine;
use crate::entry::Entry;
use crate::fault::{EngineFault, SubmitFault};
use dma_mem::transfer::Transfer;

/// The last cookie of a channel (profile).
const LAST_COOKIE: u32 = 2_147_483_647;

impl Engine {
    /// Returns the cookie that `submit` would return, or the fault that `submit` would report before `NoMemory`.
    /// Nothing changes.
    pub fn check_submit(&self, ch: u8, transfer: &Transfer) -> Result<u32, EngineFault>
        ensures checked { result ≡ next_cookie self.now.view ch transfer.now }
        ensures rules { OnOk result (IsTransfer transfer.now) }
    {
        let index = self.index_of(ch)?;
        if !transfer.lies_below(self.size) {
            return Err(EngineFault::OutOfMemoryRange);
        }
        let given = self.queues[index].given;
        if given >= LAST_COOKIE {
            return Err(EngineFault::CookiesSpent);
        }
        Ok(given + 1)
    }

    /// Submits a transfer to a channel, and returns its cookie, which is 1 for the first of the channel. The transfer
    /// does not start.
    ///
    /// The fault is the first that applies of `NoChannel`, `OutOfMemoryRange` if a segment ends above the memory's
    /// size, `CookiesSpent` and `NoMemory`. The error returns the transfer.
    pub fn submit(&mut self, ch: u8, transfer: Transfer) -> Result<u32, SubmitFault>
        ensures answer { CallAnswers self.old.view (Call.Submit ch transfer) (submit_reply result)
            self.new.view }
        ensures back { IfErr result (λ refused. refused.transfer ≡ transfer) }
        ensures room { HasRoom self.old ch
            → IfErr result (λ refused. refused.fault ≢ EngineFault.NoMemory) }
        ensures kept { OnErr result (KeepsRoom self.old self.new) }
    {
        match self.check_submit(ch, &transfer) {
            Ok(cookie) => self.submit_here(ch, transfer, cookie),
            Err(fault) => Err(SubmitFault { fault, transfer }),
        }
    }

    // Submits a transfer that was checked, with its cookie. It fails only when out of memory.
    fn submit_here(&mut self, ch: u8, transfer: Transfer, cookie: u32) -> Result<u32, SubmitFault>
        requires checked { Ok cookie ≡ next_cookie self.old.view ch transfer }
        requires rules { IsTransfer transfer }
        ensures answer { CallAnswers self.old.view (Call.Submit ch transfer) (submit_reply result)
            self.new.view }
        ensures back { IfErr result (λ refused. refused.transfer ≡ transfer) }
        ensures room { HasRoom self.old ch
            → IfErr result (λ refused. refused.fault ≢ EngineFault.NoMemory) }
        ensures kept { OnErr result (KeepsRoom self.old self.new) }
    {
        let Ok(()) = self.history.reserve(1) else {
            return Err(SubmitFault::no_memory(transfer));
        };
        let index = self.history.len();
        let queue = &mut self.queues[usize::from(ch)];
        let Ok(()) = queue.submit(index, cookie) else {
            return Err(SubmitFault::no_memory(transfer));
        };
        self.history.push_reserved(Entry::Submitted {
            ch,
            transfer,
            cookie,
        });
        Ok(cookie)
    }

    // Submits a copy of a transfer.
    pub(super) fn submit_copy(&mut self, ch: u8, transfer: &Transfer) -> Reply
        ensures { CallAnswers self.old.view (Call.Submit ch transfer.now) result self.new.view }
    {
        let cookie = match self.check_submit(ch, transfer) {
            Ok(cookie) => cookie,
            Err(fault) => return Reply::Refused(fault),
        };
        let Ok(copy) = transfer.try_copy() else {
            return Reply::Refused(EngineFault::NoMemory);
        };
        match self.submit_here(ch, copy, cookie) {
            Ok(cookie) => Reply::Cookie(cookie),
            Err(refused) => Reply::Refused(refused.fault),
        }
    }

    /// Issues all submitted cookies of a channel, and returns how many of them were not issued before.
    ///
    /// The error is `NoChannel`, else `NoMemory`.
    pub fn issue(&mut self, ch: u8) -> Result<u32, EngineFault>
        ensures answer { CallAnswers self.old.view (Call.Issue ch) (count_reply result)
            self.new.view }
        ensures room { HasRoom self.old ch → HasMemory result }
        ensures kept { OnErr result (KeepsRoom self.old self.new) }
    {
        let index = self.index_of(ch)?;
        self.history.reserve(1)?;
        self.history.push_reserved(Entry::Issued { ch });
        let queue = &mut self.queues[index];
        let count = queue.given - queue.issued;
        queue.issued = queue.given;
        Ok(count)
    }

    /// Pauses a channel, so that its steps execute nothing. A paused channel stays paused. It adds no entry and
    /// allocates no memory.
    ///
    /// The error is `NoChannel`.
    pub fn pause(&mut self, ch: u8) -> Result<(), EngineFault>
        ensures answer { CallAnswers self.old.view (Call.Pause ch) (done_reply result)
            self.new.view }
        ensures kept { KeepsRoom self.old self.new }
    {
        self.set_paused(ch, true)
    }

    /// Ends the pause of a channel. It has no effect on a channel that isn't paused. It adds no entry and allocates no
    /// memory.
    ///
    /// The error is `NoChannel`.
    pub fn resume(&mut self, ch: u8) -> Result<(), EngineFault>
        ensures answer { CallAnswers self.old.view (Call.Resume ch) (done_reply result)
            self.new.view }
        ensures kept { KeepsRoom self.old self.new }
    {
        self.set_paused(ch, false)
    }

    // Sets whether a channel is paused.
    fn set_paused(&mut self, ch: u8, paused: bool) -> Result<(), EngineFault>
        ensures answer { CallAnswers self.old.view
            (if paused then Call.Pause ch else Call.Resume ch) (done_reply result) self.new.view }
        ensures kept { KeepsRoom self.old self.new }
    {
        let index = self.index_of(ch)?;
        let queue = &mut self.queues[index];
        queue.paused = paused;
        Ok(())
    }

    /// Aborts all unfinished cookies of a channel, issued or not, and returns how many there were. Bytes that a running
    /// front has stored stay stored. Afterwards the channel is neither paused nor halted, and all its cookies count as
    /// issued.
    ///
    /// The error is `NoChannel`, else `NoMemory`.
    pub fn terminate(&mut self, ch: u8) -> Result<u32, EngineFault>
        ensures answer { CallAnswers self.old.view (Call.Terminate ch) (count_reply result)
            self.new.view }
        ensures room { HasRoom self.old ch → HasMemory result }
        ensures kept { OnErr result (KeepsRoom self.old self.new) }
    {
        let index = self.index_of(ch)?;
        let done = self.done(index);
        let count = self.unfinished(ch);
        self.history.reserve(1)?;
        let queue = &mut self.queues[index];
        queue.terminate(self.base.kept(index), &self.history, done)?;
        self.history
            .push_reserved(Entry::Terminated { ch, done, count });
        Ok(count)
    }

    /// Makes room on a channel. Until a call changes the engine, `submit`, `issue` and `terminate` on the channel,
    /// `raise`, and each `step` of a running transfer on it allocate no memory. Refused calls, pauses, resumes, and
    /// steps that neither start, move nor finish keep the room. Nothing else changes.
    ///
    /// The error is `NoChannel`, else `NoMemory`.
    pub fn make_room(&mut self, ch: u8) -> Result<(), EngineFault>
        ensures view { self.new.view ≡ self.old.view }
        ensures memory { self.new.memory ≡ self.old.memory }
        ensures made { OnOk result (HasRoom self.new ch) }
        ensures answer { IfOk result (λ _. channel_fault self.old.view ch ≡ None) }
        ensures err { IfErr result
            (λ fault. fault ≡ unwrap_or (channel_fault self.old.view ch) EngineFault.NoMemory) }
        ensures room { HasRoom self.old ch → HasMemory result }
        ensures kept { KeepsRoom self.old self.new }
    {
        let index = self.index_of(ch)?;
        self.history.reserve(1)?;
        let queue = &mut self.queues[index];
        queue.make_room()?;
        Ok(())
    }
}
