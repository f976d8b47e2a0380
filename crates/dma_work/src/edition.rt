//! Editions, which are published to readers, and the rule that a published edition only grows.

ghost use Rattle.std.specs.Prelude.{◌≡◌, ◌<◌, IfSome, length};
ghost use Rattle.dma_engine.specs.Ticks.{board_of, counts, status_of, ticked};
ghost use Rattle.dma_work.specs.inner.Published.{list_with, snapshot_of};
ghost use Rattle.dma_work.specs.Ticks.{StartsWith, base_of, board_from, status_after};

use crate::log::Snapshot;
use crate::tick::{Change, Tick};
use atomic_table::{Join, Split};
use crossbeam_utils::rule::{Outcome, Protocol};
use dma_engine::{Engine, Status};
use left_right::Absorb;
use left_right::reader::Reader;
use left_right::writer::Writer;
use std::alloc::AllocError;
use std::marker::Model;

// The counts of one channel. Contracts see them as the engine's `Counts`.
#[derive(Clone, Copy)]
struct ChannelCounts {
    used: u32,
    finished: u32,
}

impl Model for ChannelCounts {
    ghost use Rattle.dma_engine.specs.Ticks.{Counts};

    ghost Value = { Counts };

    ghost view = { λ c. record { used = c.used; finished = c.finished } };

    ghost inverse = { λ c. record { used = c.used; finished = c.finished } };
}

// The counts of the channels 0 to 7.
#[derive(Clone, Copy)]
pub(crate) struct Counts {
    channels: [ChannelCounts; 8],
}

impl Model for Counts {
    ghost use Rattle.std.specs.Prelude.{◌≡◌, length};
    ghost use Rattle.dma_engine.specs.Ticks.{Board};

    ghost Value = { Board };

    ghost view = { λ c. c.channels };

    ghost invariant = { λ c. length c.channels ≡ 8 };

    ghost inverse = { λ b. record { channels = b } };
}

impl ChannelCounts {
    // Returns a channel's counts at the start of an engine's history, or zeros if there is no such channel.
    fn at_base(engine: &Engine, ch: u8) -> ChannelCounts
        ensures { result ≡ counts (board_of engine.now.view.base) ch }
    {
        ChannelCounts {
            used: engine.used_at_base(ch),
            finished: engine.forgotten(ch),
        }
    }
}

impl Counts {
    /// Returns the counts of all channels at the start of an engine's history.
    pub fn at_base(engine: &Engine) -> Counts
        ensures { result ≡ base_of engine.now.view }
    {
        Counts {
            channels: [
                ChannelCounts::at_base(engine, 0),
                ChannelCounts::at_base(engine, 1),
                ChannelCounts::at_base(engine, 2),
                ChannelCounts::at_base(engine, 3),
                ChannelCounts::at_base(engine, 4),
                ChannelCounts::at_base(engine, 5),
                ChannelCounts::at_base(engine, 6),
                ChannelCounts::at_base(engine, 7),
            ],
        }
    }

    /// Adds a tick. A count stops at 4,294,967,295.
    #[tactic(auto, using(crate::proofs::Boards::ticked_past))]
    pub fn add(&mut self, tick: Tick)
        ensures { self.new ≡ ticked self.old tick }
    {
        let at = usize::from(tick.ch);
        let channels = &mut self.channels;
        if at >= channels.len() {
            return;
        }
        let mut counts = channels[at];
        match tick.change {
            Change::Given => counts.used = counts.used.saturating_add(1),
            Change::Finished(count) => counts.finished = counts.finished.saturating_add(count),
        }
        channels[at] = counts;
    }

    /// Returns the status of a cookie.
    #[tactic(auto, using(crate::proofs::Boards::status_past))]
    fn status(&self, ch: u8, cookie: u32) -> Status
        ensures { result ≡ status_of self.now ch cookie }
    {
        match self.channels.get(usize::from(ch)) {
            Some(counts) => Status::of(counts.used, counts.finished, cookie),
            None => Status::Unknown,
        }
    }
}

/// The counts that a list of ticks adds up to. Contracts see the list.
#[derive(Drop)]
pub(crate) struct Edition {
    base: Counts,
    counts: Counts,
    before: Snapshot,
    // the last tick of the list, if it was made before the log recorded this tick
    next: Option<Tick>,
    // the number of ticks
    len: u64,
}

impl Model for Edition {
    ghost use Rattle.std.specs.Prelude.{◌≡◌, ◌++◌, length};
    ghost use Rattle.dma_work.specs.inner.Published.{PublishedList};
    ghost use Rattle.dma_work.specs.inner.TickForms.{ticks_of_option};
    ghost use Rattle.dma_work.specs.Ticks.{board_from};

    ghost Value = { PublishedList };

    ghost view = { λ b. record {
      base = b.base;
      ticks = b.before.ticks ++ ticks_of_option b.next;
      log = b.before.log;
    } };

    ghost invariant = { λ b.
        (b.counts ≡ board_from b.base (b.before.ticks ++ ticks_of_option b.next))
        × (b.len ≡ length (b.before.ticks ++ ticks_of_option b.next)) };
}

impl Edition {
    /// Returns the edition of a list that the log has recorded and that adds up to these counts.
    pub fn new(base: Counts, counts: Counts, list: Snapshot) -> Edition
        requires { counts ≡ board_from base list.ticks }
        ensures { result ≡ record { base = base; ticks = list.ticks; log = list.log } }
    {
        let len = list.len();
        Edition {
            base,
            counts,
            before: list,
            next: None,
            len,
        }
    }

    /// Returns a copy.
    pub fn copy(&self) -> Edition
        ensures { result ≡ self.now }
    {
        Edition {
            base: self.base,
            counts: self.counts,
            before: self.before.copy(),
            next: self.next,
            len: self.len,
        }
    }

    /// Returns the edition with one more tick, which the log hasn't recorded yet. `before` is a snapshot that has all
    /// ticks of this edition.
    #[tactic(auto, using(crate::proofs::Boards::board_push))]
    pub fn next(&self, before: Snapshot, tick: Tick) -> Edition
        requires list { before ≡ snapshot_of self.now }
        requires few { length self.now.ticks < u64.MAX }
        ensures { result ≡ list_with self.now tick }
    {
        let mut counts = self.counts;
        counts.add(tick);
        Edition {
            base: self.base,
            counts,
            before,
            next: Some(tick),
            len: self.len + 1,
        }
    }

    /// Returns the status of a cookie and the length of the edition's list, if the list is known to begin with a
    /// snapshot of its log, else `None`.
    pub fn status(&self, learnt: &Snapshot, ch: u8, cookie: u32) -> Option<(Status, u64)>
        requires { learnt.now.log ≡ self.now.log }
        ensures covers { IfSome result (λ r. StartsWith self.now.ticks learnt.now.ticks) }
        ensures some { IfSome result
            (λ r. r.0 ≡ status_after self.now.base self.now.ticks ch cookie) }
        ensures len { IfSome result (λ r. r.1 ≡ length self.now.ticks) }
    {
        if learnt.is_within_next(&self.before, self.next) {
            Some((self.counts.status(ch, cookie), self.len))
        } else {
            None
        }
    }
}

/// An operation is the next edition, which replaces the published one.
impl Absorb<Edition> for Edition {
    type State = Edition;

    ghost state = { λ b. b };

    ghost applied = { λ b next. next };

    ghost never_fails = { Unit {0} };

    /// Replaces the edition by the next one.
    fn absorb_first(&mut self, operation: &Edition, _other: &Edition) -> Result<(), AllocError> {
        *self = operation.copy();
        Ok(())
    }
}

/// The rule of what is published, and what reading or publishing an edition shows. It records, for the writer and each
/// reader, the last edition that it has seen, if any.
pub(crate) struct Published;

impl Protocol<Edition, Option<Edition>> for Published {
    ghost use Rattle.std.specs.Prelude.{None};
    ghost use Rattle.dma_work.specs.inner.Published.{Keeps};

    ghost holds = { Keeps };

    ghost first = { None };
}

impl Outcome<Edition, Option<Edition>> for Published {
    ghost use Rattle.dma_work.specs.inner.Published.{Sees};

    ghost then = { Sees };
}

// A new reader has seen what the writer has seen.
impl Split<Option<Edition>> for Published {
    ghost left = { λ v. v };

    ghost right = { λ v. v };
}

impl Join<Option<Edition>> for Published {
    ghost use Rattle.std.specs.Prelude.{None};

    ghost both = { λ v seen. seen };

    ghost spent = { None };
}

pub(crate) type EditionReader = Reader<Edition, Option<Edition>, Published>;

pub(crate) type EditionWriter = Writer<Edition, Edition, Option<Edition>, Published>;
