//! A checkpoint makes the present state the base from which the history begins.

ghost use Rattle.std.specs.Prelude.{◌≡◌, ◌+◌, ◌<◌, ◌≤◌, None, IfOk, OnErr, drop, length, map, slice_index_or, true};
ghost use Rattle.std.specs.List.{All};
ghost use Rattle.dma_engine.specs.Object.{base_from, channel, forget, no_transfer};
ghost use Rattle.dma_engine.specs.View.{channels, object_of, schedule_at};
ghost use Rattle.dma_engine.specs.Answer.{CallAnswers, done_reply, first_running};
ghost use Rattle.dma_engine.specs.Room.{HasNoSpare};
ghost use Rattle.dma_engine.specs.inner.Holds.{queue_forgotten};

use crate::access::Access;
use crate::base::{Base, BaseChannel};
use crate::call::{Call, Reply};
use crate::engine::Engine;
use crate::fault::{EngineFault, NoMemory};
use crate::queue::Queue;
use dma_mem::transfer::Transfer;
use std::alloc::Global;

impl Engine {
    /// Makes the present state the base from which the history begins, and empties the history. Of the finished cookies
    /// only their number is kept. Memory, pauses and the step count do not change, nor do the used, finished and
    /// running cookies and the status of each cookie.
    ///
    /// It copies the made pages of the memory, the marks and the unfinished transfers, and frees the memory of the
    /// history.
    ///
    /// The error is the first that applies of `Running` if a transfer runs, naming the one on the lowest such channel,
    /// and `NoMemory`. Nothing changes on an error.
    pub fn checkpoint(&mut self) -> Result<(), EngineFault>
        ensures answer { CallAnswers self.old.view Call.Checkpoint (done_reply result)
            self.new.view }
        ensures memory { self.new.memory ≡ self.old.memory }
        ensures room { IfOk result (λ _. HasNoSpare self.new) }
        ensures same { OnErr result (self.new ≡ self.old) }
    {
        if let Some((ch, cookie)) = self.first_conflict(&Access::Checkpoint) {
            return Err(EngineFault::Running { ch, cookie });
        }
        let base = self.next_base()?;
        self.base = base;
        self.history = Vec::new(self.alloc);
        forget_all(&mut self.queues, self.alloc);
        Ok(())
    }

    // Returns the base that a checkpoint stores.
    fn next_base(&self) -> Result<Base, NoMemory>
        requires { first_running self.now.view (λ _. true) ≡ None }
        ensures { IfOk result (λ base. base ≡ base_from (object_of self.now.view)) }
    {
        let channels = self.next_channels()?;
        let image = self.memory.try_copy()?;
        let marks = self.marks.try_copy()?;
        Ok(Base {
            size: self.size,
            image: Some(image),
            events: self.events.copy(),
            marks,
            channels,
        })
    }

    // Returns the next base's state of all channels.
    fn next_channels(&self) -> Result<Vec<BaseChannel>, NoMemory>
        requires { first_running self.now.view (λ _. true) ≡ None }
        ensures { IfOk result
            (λ list. list.items ≡ map forget (object_of self.now.view).channels) }
    {
        let mut list = Vec::new(self.alloc);
        for index in 0..self.queues.len() {
            list.push(self.next_channel(index)?)?;
        }
        Ok(list)
    }

    // Returns the next base's state of a channel.
    fn next_channel(&self, index: usize) -> Result<BaseChannel, NoMemory>
        requires there { index < channels self.now.view }
        requires rests { (schedule_at self.now.view index).taken ≡ None }
        ensures { IfOk result (λ base. base ≡ forget (channel (object_of self.now.view) index)) }
    {
        let queue = &self.queues[index];
        let unfinished = self.unfinished_copies(index)?;
        Ok(BaseChannel {
            forgotten: queue.finished(),
            issued: queue.issued,
            halted: queue.halted,
            unfinished,
        })
    }

    // Returns copies of the unfinished transfers of a channel, in the order of their cookies.
    fn unfinished_copies(&self, index: usize) -> Result<Vec<Transfer>, NoMemory>
        requires { index < channels self.now.view }
        ensures { let c = channel (object_of self.now.view) index in
            IfOk result (λ list. list.items ≡ drop (length c.outcomes) c.submitted) }
    {
        let queue = &self.queues[index];
        let first = queue.outcomes().len();
        let mut list = Vec::new(self.alloc);
        for n in first..(queue.given - queue.forgotten) as usize {
            list.push(self.transfer(index, n).try_copy()?)?;
        }
        Ok(list)
    }

    // Returns the transfer of cookie number `n` among those that aren't forgotten, counted from 0.
    pub(super) fn transfer(&self, index: usize, n: usize) -> &Transfer
        requires there { index < channels self.now.view }
        requires given { n < length (channel (object_of self.now.view) index).submitted }
        ensures { result.now
            ≡ slice_index_or (channel (object_of self.now.view) index).submitted n no_transfer }
    {
        let kept = self.base.kept(index);
        let queue = &self.queues[index];
        let Some(transfer) = queue.transfer(kept, &self.history, n) else {
            unreachable!();
        };
        transfer
    }
}

// Removes from all queues the outcomes of finished cookies and the indices into the history.
fn forget_all(queues: &mut [Queue], alloc: Global)
    requires { All (λ q. q.forgotten + length q.outcomes.items ≤ u32.MAX) queues.old }
    ensures { queues.new ≡ map queue_forgotten queues.old }
{
    for queue in queues {
        queue.forget(alloc);
    }
}
