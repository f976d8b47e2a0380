//! The log of the published ticks, and snapshots of it.

ghost use Rattle.std.specs.Prelude.{◌≡◌, ◌+◌, ◌*◌, ◌<◌, ◌^◌, ◌≤◌, ◌↔◌, [], ◌∷◌, ◌++◌, IfSome, IsTrue, true, false, length};
ghost use Rattle.dma_work.specs.Ticks.{StartsWith};
ghost use Rattle.dma_work.specs.inner.Published.{head_of, snapshot_and, spare_after};
ghost use Rattle.dma_work.specs.inner.TickForms.{ticks_of_option};

use crate::tick::{Change, Tick};
use logbook::{Gain, Offer, Pen, Plain, Play, Rule, Seen, Start, Word};
use std::marker::Model;

// The rule of the log, and what its steps show. They give their caller no other facts.
struct Law;

impl Rule<Tick, u64> for Law {
    ghost use Rattle.std.specs.Prelude.{[]};
    ghost use base.Fml.{ftrue};
    ghost use Rattle.dma_work.specs.inner.Published.{IsCounted};

    ghost holds = { λ cells ticks. IsCounted cells ticks };

    ghost first = { [] };

    ghost hinted = { λ n ticks. Unit {0} };

    ghost shows = { λ ticks. [] };

    ghost keeps = { λ names ticks. ftrue };

    ghost moves = { λ ask before after answer. Unit {0} };
}

impl Gain<Tick, u64> for Law {
    ghost use base.Fml.{ftrue};

    ghost after = { λ names about answer. ftrue };
}

impl Plain<Tick, Tick, u64> for Law {
    ghost use Rattle.std.specs.Prelude.{None};

    ghost ask = { λ tick. tick };

    ghost state = { λ tick. None };
}

impl Play<Tick, u64> for Law {
    ghost use Rattle.dma_work.specs.inner.Published.{Adds};

    ghost then = { Adds };
}

// What the step shows that adds a spare cell.
struct Room;

impl Play<Tick, u64> for Room {
    ghost use Rattle.dma_work.specs.inner.Published.{MakesRoom};

    ghost then = { MakesRoom };
}

/// The ticks that the log had at some time. A snapshot allocates nothing, can be copied and compared, and is valid
/// without the lock.
#[derive(Drop)]
pub(crate) struct Snapshot {
    // the number of ticks
    len: u64,
    // the last tick, if any
    last: Option<Tick>,
    seen: Seen<Tick, u64, Law>,
}

impl Model for Snapshot {
    ghost use Rattle.std.specs.Prelude.{◌≡◌, ◌-◌, length};
    ghost use Rattle.std.specs.List.{slice_get};
    ghost use Rattle.dma_work.specs.inner.Published.{SnapshotState};

    ghost Value = { SnapshotState };

    ghost view = { λ s. record { log = s.seen.book; ticks = s.seen.log } };

    ghost invariant = { λ s. (s.len ≡ length s.seen.log)
        × (s.last ≡ slice_get s.seen.log (s.len - 1)) };
}

impl Snapshot {
    /// Returns the number of ticks.
    pub fn len(&self) -> u64
        ensures { result ≡ length self.now.ticks }
    {
        self.len
    }

    /// Returns a copy.
    pub fn copy(&self) -> Snapshot
        ensures { result ≡ self.now }
    {
        Snapshot {
            len: self.len,
            last: self.last,
            seen: self.seen.again(),
        }
    }

    /// Returns whether this snapshot of a log is no longer than another one. The longer one then begins with this one.
    pub fn is_within(&self, other: &Snapshot) -> bool
        requires { self.now.log ≡ other.now.log }
        ensures len { IsTrue result ↔ (length self.now.ticks ≤ length other.now.ticks) }
        ensures within { IsTrue result → StartsWith other.now.ticks self.now.ticks }
        ensures longer { result ≡ false → StartsWith self.now.ticks other.now.ticks }
    {
        let mut both = self.seen.again();
        both.learn(&other.seen);
        self.len <= other.len
    }

    /// Returns true only if the ticks of `before`, followed by `next`, if any, begin with this snapshot. It does so if
    /// the log has recorded them in this order.
    pub fn is_within_next(&self, before: &Snapshot, next: Option<Tick>) -> bool
        requires { self.now.log ≡ before.now.log }
        ensures { IsTrue result
            → StartsWith (before.now.ticks ++ ticks_of_option next) self.now.ticks }
    {
        self.is_within(before) || (self.len - 1 == before.len && self.last == next)
    }
}

/// The log, and the right to add ticks to it. Contracts see all of its ticks, and whether it has room for one more.
#[derive(Drop)]
pub(crate) struct TickLog {
    head: Word<Tick, u64, Law>,
    all: Snapshot,
    // the pen of the spare cell, if there is one
    room: Option<Pen>,
}

impl Model for TickLog {
    ghost use Rattle.std.specs.Prelude.{◌≡◌, ◌+◌, ◌*◌, ◌<◌, ◌^◌, IfSome, length};
    ghost use Rattle.std.specs.Option.{is_some};
    ghost use Rattle.dma_work.specs.inner.Published.{LogState, head_of, spare_after};

    ghost Value = { LogState };

    ghost view = { λ l. record { all = l.all; has_room = is_some l.room } };

    ghost invariant = { λ l. (l.head ≡ head_of l.all.log)
        × IfSome l.room (λ pen. (pen.book ≡ l.all.log) × (pen.nib ≡ spare_after l.all.ticks)
        × (2 * length l.all.ticks + 2 < 2 ^ 64)) };
}

impl TickLog {
    /// Returns an empty log.
    pub fn new() -> TickLog
        ensures { (result.all.ticks ≡ []) × (result.has_room ≡ false) }
    {
        let (seen, mut first, _second) = Seen::open(Start::alone(), 0, 0);
        TickLog {
            head: Word::tracked(0, &mut first),
            all: Snapshot {
                len: 0,
                last: None,
                seen,
            },
            room: None,
        }
    }

    /// Returns a snapshot of the log's present ticks.
    pub fn snapshot(&self) -> Snapshot
        ensures { result ≡ self.now.all }
    {
        self.all.copy()
    }

    /// Makes room for one more tick. Returns false if there is none: the log has 2^63 - 1 ticks. It would also return
    /// false if another thread had added a spare cell; none can, since the count is private to this value, but no
    /// clause of `logbook` says so.
    pub fn make_room(&mut self) -> bool
        ensures all { self.new.all ≡ self.old.all }
        ensures room { IsTrue result → self.new.has_room ≡ true }
        ensures few { IsTrue result → length self.new.all.ticks < u64.MAX }
    {
        if self.room.is_none() {
            self.room = spare_cell(&self.head, &self.all);
        }
        self.room.is_some()
    }

    /// Adds a tick, for which there is room.
    pub fn record(&mut self, tick: Tick)
        requires { self.old.has_room ≡ true }
        ensures { self.new ≡ record { all = snapshot_and self.old.all (tick ∷ []); has_room = false } }
    {
        let Some(mut pen) = self.room.take() else {
            unreachable!();
        };
        self.all = added(&self.head, &self.all, &mut pen, tick);
    }
}

// Adds a spare cell to a log that has none, and no ticks but these. Returns its pen.
fn spare_cell(head: &Word<Tick, u64, Law>, all: &Snapshot) -> Option<Pen>
    requires { head.now ≡ head_of all.now.log }
    ensures { IfSome result (λ pen. (pen.book ≡ all.now.log) × (pen.nib ≡ spare_after all.now.ticks)
        × (2 * length all.now.ticks + 2 < 2 ^ 64)) }
{
    let count = all.len.checked_mul(2)?;
    count.checked_add(2)?;
    let mut offer: Offer<Tick, u64, Law, Law> = all
        .seen
        .plain::<Law, Tick, Law>(&Tick::new(0, Change::Given));
    let mut pen = all.seen.no_pen();
    let mut seen = all.seen.again();
    let found = head.compare_exchange::<Room, _>(count, count + 1, &mut seen, &mut offer, &mut pen);
    if found != count {
        return None;
    }
    let _word: Word<Tick, u64, Law> = Word::tracked(0, &mut pen);
    Some(pen)
}

// Adds a tick to the log, with the pen of its spare cell, and returns a snapshot of all its ticks.
fn added(head: &Word<Tick, u64, Law>, all: &Snapshot, pen: &mut Pen, tick: Tick) -> Snapshot
    requires head { head.now ≡ head_of all.now.log }
    requires pen { (pen.old.book ≡ all.now.log) × (pen.old.nib ≡ spare_after all.now.ticks) }
    requires few { 2 * length all.now.ticks + 2 < 2 ^ 64 }
    ensures { result ≡ snapshot_and all.now (tick ∷ []) }
{
    let mut offer: Offer<Tick, u64, Law, Law> = all.seen.plain::<Law, Tick, Law>(&tick);
    let mut seen = all.seen.again();
    let count = 2 * all.len + 1;
    head.compare_exchange::<Law, _>(count, count + 1, &mut seen, &mut offer, pen);
    Snapshot {
        len: all.len + 1,
        last: Some(tick),
        seen,
    }
}
