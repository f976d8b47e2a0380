//! The engine: the type, what it keeps, and its readings. Its calls and steps are in the files of `engine/`.

ghost use Rattle.std.specs.Prelude.{◌≡◌, ◌<◌, ◌≤◌, ◌^◌, IfOk, IfErr, OnErr, OnOk, None, unwrap_or, replicate};
ghost use Rattle.std.specs.Option.{option_map};
ghost use Rattle.dma_engine.specs.Object.{channel, used, finished, finished_all, unfinished};
ghost use Rattle.dma_engine.specs.Ticks.{board_of, counts};
ghost use Rattle.dma_engine.specs.View.{size, channels, object_of, schedule_at, running_on, new_fault, new_view, memory_of, IsSound};
ghost use Rattle.dma_engine.specs.Answer.{status_in, result_of, first_running, done_on};
ghost use Rattle.dma_engine.specs.inner.Accesses.{named, conflicts};
ghost use Rattle.dma_engine.specs.inner.Holds.{new_queue};
ghost use Rattle.dma_engine.specs.inner.Due.{front_with_cookie};

use crate::access::Access;
use crate::base::Base;
use crate::entry::Entry;
use crate::fault::{EngineFault, NewFault, NoMemory};
use crate::outcome::Outcome;
use crate::queue::Queue;
use crate::turn::{Running, Status, Turn};
use dma_mem::events::Events;
use dma_mem::limits::MAX_CHANNELS;
use dma_mem::marks::Marks;
use dma_mem::memory::{MemFault, Memory};
use dma_mem::transfer::Transfer;
use std::alloc::Global;
use std::marker::Model;

mod advance;
mod at_once;
pub(crate) mod calls;
mod checkpoints;
mod fronts;
mod host_calls;
mod next_turn;
mod queue_calls;
mod steps;
mod totals;

/// Queues of transfers on channels over one memory. Contracts see its base, its history, its step count, its schedule
/// and its memory's bytes. They do not see which pages of the memory are made.
#[derive(Drop)]
pub struct Engine {
    // first, as each step writes it: it lies in the line of the lock that a desk's workers take
    steps: u64,
    alloc: Global,
    size: u32,
    memory: Memory,
    events: Events,
    marks: Marks,
    queues: Vec<Queue>,
    base: Base,
    history: Vec<Entry>,
}

impl Model for Engine {
    ghost use Rattle.dma_engine.specs.View.{EngineState};

    ghost Value = { EngineState };

    ghost use Rattle.dma_engine.specs.inner.Holds.{view_of, Holds};
    ghost use Rattle.dma_engine.specs.inner.Inside.{parts_of, room_of};

    ghost view = { λ e. record {
      view = view_of (parts_of e);
      memory = e.memory.image;
      room = room_of e;
    } };

    ghost invariant = { λ e. Holds (parts_of e) };
}

impl Engine {
    /// Returns an engine over a memory of zeros, with nothing submitted to any channel.
    ///
    /// The error is the first that applies of `BadChannels` for 0 channels or more than [`MAX_CHANNELS`],
    /// `SizeOutOfRange` for a size that a memory can't have, and `NoMemory`.
    pub fn new(alloc: Global, size: u32, channels: u8) -> Result<Engine, NewFault>
        ensures ok { IfOk result (λ engine. engine.view ≡ new_view size channels) }
        ensures made { OnOk result (new_fault size channels ≡ None) }
        ensures err { IfErr result
            (λ fault. fault ≡ unwrap_or (new_fault size channels) NewFault.NoMemory) }
    {
        if channels == 0 || channels > MAX_CHANNELS {
            return Err(NewFault::BadChannels);
        }
        let memory = match Memory::new(alloc, size) {
            Ok(memory) => memory,
            Err(MemFault::SizeOutOfRange) => return Err(NewFault::SizeOutOfRange),
            Err(MemFault::NoMemory) => return Err(NewFault::NoMemory),
            Err(MemFault::OutOfMemoryRange) => unreachable!(),
        };
        let queues = new_queues(alloc, channels)?;
        let base = Base::opening(alloc, size, channels)?;
        Ok(Engine {
            alloc,
            size,
            memory,
            events: Events::new(),
            marks: Marks::new(alloc),
            queues,
            base,
            history: Vec::new(alloc),
            steps: 0,
        })
    }

    /// Returns how many bytes the memory has.
    pub fn size(&self) -> u32
        ensures { result ≡ size self.now.view }
    {
        self.size
    }

    /// Returns how many channels there are.
    pub fn channels(&self) -> u8
        ensures { result ≡ channels self.now.view }
    {
        self.queues.len() as u8
    }

    /// Returns the step count, which rises by one for each [`Turn::Moved`] and [`Turn::Finished`].
    pub fn steps(&self) -> u64
        ensures { result ≡ self.now.view.steps }
    {
        self.steps
    }

    /// Returns what was done since the last checkpoint, or since the engine was made, in order. The history is legal
    /// from the base, and the memory is its image with the bytes that running transfers have stored so far.
    pub fn history(&self) -> &[Entry]
        ensures entries { result.now ≡ self.now.view.history }
        ensures sound { IsSound self.now.view }
        ensures memory { self.now.memory ≡ memory_of self.now.view }
    {
        self.history.as_slice()
    }

    /// Does nothing. Its contract gives the proof of a caller what holds of every engine: the history is legal from the
    /// base, the memory is its image with the bytes that running transfers have stored so far, and the counts of steps
    /// and of finished cookies are below 2^64.
    pub fn facts(&self)
        ensures sound { IsSound self.now.view }
        ensures memory { self.now.memory ≡ memory_of self.now.view }
        ensures steps { self.now.view.steps < 2 ^ 64 }
        ensures finished { finished_all (object_of self.now.view) < 2 ^ 64 }
    {
        // gives the proof the range of the number
        let _steps = self.steps;
    }

    /// Makes room in the history for this many more entries, so that it isn't copied when they are added. Fails with
    /// `NoMemory` if memory runs out, and then changes nothing.
    pub fn reserve_entries(&mut self, entries: usize) -> Result<(), NoMemory>
        ensures same { self.new ≡ record (self.old) {
          room = record (self.old.room) { entries = self.new.room.entries };
        } }
        ensures made { OnOk result (entries ≤ self.new.room.entries) }
        ensures kept { self.old.room.entries ≤ self.new.room.entries }
        ensures err { OnErr result (self.new ≡ self.old) }
    {
        Ok(self.history.reserve(entries)?)
    }

    /// Returns how many cookies a channel has given, or 0 if there is no such channel.
    pub fn used(&self, ch: u8) -> u32
        ensures { result ≡ used (channel (object_of self.now.view) ch) }
    {
        match self.queues.get(usize::from(ch)) {
            Some(queue) => queue.given,
            None => 0,
        }
    }

    /// Returns how many cookies of a channel are finished, or 0 if there is no such channel.
    pub fn finished(&self, ch: u8) -> u32
        ensures { result ≡ finished (channel (object_of self.now.view) ch) }
    {
        match self.queues.get(usize::from(ch)) {
            Some(queue) => queue.finished(),
            None => 0,
        }
    }

    /// Returns how many cookies of a channel finished before the last checkpoint, which forgot their outcomes. It is 0
    /// before the first checkpoint, and if there is no such channel.
    pub fn forgotten(&self, ch: u8) -> u32
        ensures known { result ≡ (channel (object_of self.now.view) ch).forgotten }
        ensures base { result ≡ (counts (board_of self.now.view.base) ch).finished }
    {
        match self.queues.get(usize::from(ch)) {
            Some(queue) => queue.forgotten,
            None => 0,
        }
    }

    /// Returns how many cookies a channel had given at the last checkpoint. It is 0 if there was none, or no such
    /// channel.
    pub fn used_at_base(&self, ch: u8) -> u32
        ensures { result ≡ (counts (board_of self.now.view.base) ch).used }
    {
        self.base.used(usize::from(ch))
    }

    /// Returns how many cookies of a channel are not finished, or 0 if there is no such channel.
    pub fn unfinished(&self, ch: u8) -> u32
        ensures { result ≡ unfinished (channel (object_of self.now.view) ch) }
    {
        match self.queues.get(usize::from(ch)) {
            Some(queue) => queue.unfinished() as u32,
            None => 0,
        }
    }

    /// Returns whether a channel is paused, or false if there is no such channel.
    pub fn paused(&self, ch: u8) -> bool
        ensures { result ≡ (schedule_at self.now.view ch).paused }
    {
        match self.queues.get(usize::from(ch)) {
            Some(queue) => queue.is_paused(),
            None => false,
        }
    }

    /// Returns whether a failure has halted a channel, or false if there is no such channel.
    pub fn halted(&self, ch: u8) -> bool
        ensures { result ≡ (channel (object_of self.now.view) ch).halted }
    {
        match self.queues.get(usize::from(ch)) {
            Some(queue) => queue.is_halted(),
            None => false,
        }
    }

    /// Returns the status of a cookie: `Unknown` if there is no such channel, or if the cookie is 0 or above the last
    /// one given.
    pub fn status(&self, ch: u8, cookie: u32) -> Status
        ensures { result ≡ status_in self.now.view ch cookie }
    {
        Status::of(self.used(ch), self.finished(ch), cookie)
    }

    /// Returns how a cookie finished. It is `Some` exactly if the cookie has finished and isn't forgotten.
    pub fn result(&self, ch: u8, cookie: u32) -> Option<Outcome>
        ensures { result ≡ result_of (object_of self.now.view) ch cookie }
    {
        let queue = self.queues.get(usize::from(ch))?;
        if cookie <= queue.forgotten {
            return None;
        }
        let index = cookie - queue.forgotten - 1;
        queue.outcomes().get(index as usize).copied()
    }

    /// Returns what runs on a channel: its cookie, and how many of its bytes are stored.
    pub fn running(&self, ch: u8) -> Option<Running>
        ensures { result ≡ running_on self.now.view ch }
    {
        let index = usize::from(ch);
        if index >= self.queues.len() {
            return None;
        }
        let queue = &self.queues[index];
        if !queue.channel.is_loaded() {
            return None;
        }
        let cookie = queue.finished() + 1;
        let stored = queue.channel.stored() as u32;
        Some(Running { cookie, stored })
    }

    // Returns the index of a channel's queue. The error is `NoChannel`.
    fn index_of(&self, ch: u8) -> Result<usize, EngineFault>
        ensures there { IfOk result (λ index. (index ≡ ch) × (ch < channels self.now.view)) }
        ensures none { IfErr result
            (λ fault. (fault ≡ EngineFault.NoChannel) × (channels self.now.view ≤ ch)) }
    {
        let index = usize::from(ch);
        if index >= self.queues.len() {
            return Err(EngineFault::NoChannel);
        }
        Ok(index)
    }

    // Returns how many bytes a channel's front has stored, or 0 if nothing runs.
    fn done(&self, index: usize) -> u32
        requires { index < channels self.now.view }
        ensures { result ≡ done_on self.now.view index }
    {
        let queue = &self.queues[index];
        if queue.channel.is_loaded() {
            queue.channel.stored() as u32
        } else {
            0
        }
    }

    // Returns the issued front of a channel, with its cookie.
    fn front(&self, index: usize) -> Option<(&Transfer, u32)>
        requires { index < channels self.now.view }
        ensures { option_map (λ p. (p.0.now, p.1)) result
            ≡ front_with_cookie (channel (object_of self.now.view) index) }
    {
        let queue = &self.queues[index];
        let Some(transfer) = queue.front_in(self.base.kept(index), &self.history) else {
            return None;
        };
        let cookie = queue.finished() + 1;
        Some((transfer, cookie))
    }

    // Returns the channel and the cookie of the first running transfer that conflicts with `access`.
    fn first_conflict(&self, access: &Access) -> Option<(u8, u32)>
        ensures { result ≡ named (first_running self.now.view (conflicts access.now)) }
    {
        for index in 0..self.queues.len() {
            let queue = &self.queues[index];
            if let Some(ranges) = queue.ranges() {
                if access.conflicts_with(ranges) {
                    let cookie = queue.finished() + 1;
                    return Some((index as u8, cookie));
                }
            }
        }
        None
    }
}

// Returns queues to which nothing was submitted.
fn new_queues(alloc: Global, count: u8) -> Result<Vec<Queue>, NoMemory>
    ensures { IfOk result (λ queues. queues.items ≡ replicate count new_queue) }
{
    let mut queues = Vec::new(alloc);
    for _n in 0..count {
        let queue = Queue::new(alloc)?;
        queues.push(queue)?;
    }
    Ok(queues)
}
