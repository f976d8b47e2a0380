//! The publisher of an engine's ticks, which writes what status readers see.

ghost use Rattle.std.specs.Prelude.{◌≡◌, ◌<◌, ◌^◌, [], ◌∷◌, ◌++◌, Some, IfSome, OnSome, IsTrue, true, false, drop};
ghost use Rattle.left_right.specs.Sides.{view};
ghost use Rattle.dma_engine.specs.Answer.{StepAnswers};
ghost use Rattle.dma_engine.specs.Laws.{ticks_in};
ghost use Rattle.dma_engine.specs.Ticks.{ticks_of};
ghost use Rattle.dma_engine.specs.Turn.{ends, turn};
ghost use Rattle.dma_work.specs.Laws.{AreCounts};
ghost use Rattle.dma_work.specs.inner.Published.{HasActed, IsNext, IsReady, Publishes, known_at, snapshot_and, snapshot_of};
ghost use Rattle.dma_work.specs.Ticks.{base_of, board_from};

use crate::edition::{Counts, Edition, EditionWriter, Published};
use crate::log::{Snapshot, TickLog};
use crate::reader::StatusReader;
use crate::tick::{Change, Tick};
use core::mem::replace_with;
use dma_engine::{Engine, EngineFault, Entry, Turn};
use std::alloc::Global;
use std::marker::Model;
use std::sync::Wait;

/// Publishes a growing list of ticks.
pub(crate) struct Publisher {
    writer: EditionWriter,
    log: TickLog,
    // the ticks that were published before those of the engine's history
    before: Snapshot,
}

impl Model for Publisher {
    ghost use Rattle.std.specs.Prelude.{◌≡◌, Some, drop};
    ghost use Rattle.left_right.specs.Sides.{view as seen_by};
    ghost use Rattle.dma_work.specs.inner.Published.{PublisherState, snapshot_of};

    ghost Value = { PublisherState };

    ghost view = { λ p. record {
      shown = p.writer.desk.shown.value;
      pending = drop p.writer.behind p.writer.log.items;
      has_room = p.log.has_room;
      before = p.before.ticks;
    } };

    ghost invariant = { λ p. (p.log.all ≡ snapshot_of p.writer.desk.shown.value)
        × (seen_by p.writer.desk.place ≡ Some (p.writer.desk.shown.value)) };
}

// Publishes the edition that is next. It waits for readers that still use the one from before the last one.
fn shown<R: Wait>(rt: &R, writer: EditionWriter) -> EditionWriter
    requires { IsNext writer.desk.shown.value (drop writer.behind writer.log.items) }
    ensures shown { drop writer.behind writer.log.items ≡ result.desk.shown.value ∷ [] }
    ensures none { drop result.behind result.log.items ≡ [] }
    ensures seen { view result.desk.place ≡ Some (result.desk.shown.value) }
{
    let (writer, published) = writer.publish_as::<Published, R>(rt);
    published.unwrap();
    writer
}

// Records the tick of an entry, if it has one, and adds it to the counts. Returns false if the log has no room for it.
fn record_one(log: &mut TickLog, counts: &mut Counts, entry: &Entry) -> bool
    ensures log { IsTrue result
        → log.new.all ≡ snapshot_and log.old.all (ticks_of (entry.now ∷ [])) }
    ensures counts { IsTrue result
        → counts.new ≡ board_from counts.old (ticks_of (entry.now ∷ [])) }
{
    let Some(tick) = Tick::of(entry) else {
        return true;
    };
    if !log.make_room() {
        return false;
    }
    log.record(tick);
    counts.add(tick);
    true
}

// Records the ticks of an engine's history. Returns the counts that they add up to, starting from `base`, or `None` if
// the log has no room for them.
fn record_all(log: &mut TickLog, base: Counts, engine: &Engine) -> Option<Counts>
    requires { log.old.all.ticks ≡ [] }
    ensures log { IfSome result (λ counts. log.new.all
        ≡ record { log = log.old.all.log; ticks = ticks_of engine.now.view.history }) }
    ensures counts { IfSome result (λ counts. counts ≡ board_from base log.new.all.ticks) }
    ensures small { OnSome result (AreCounts (base_of engine.now.view)) }
{
    // gives the proof the range of the counts
    engine.facts();
    let mut counts = base;
    let history = engine.history();
    for index in 0..history.len() {
        if !record_one(log, &mut counts, &history[index]) {
            return None;
        }
    }
    Some(counts)
}

impl Publisher {
    /// Publishes the ticks of an engine's history, for at most `places` readers. Returns `None` if it is out of memory.
    pub fn new<R: Wait>(rt: &R, alloc: Global, engine: &Engine, places: usize) -> Option<Publisher>
        requires { (0 < places) × (places < 2 ^ 32) }
        ensures shown { IfSome result (λ p. (p.shown.base ≡ base_of engine.now.view)
            × (p.shown.ticks ≡ ticks_of engine.now.view.history)) }
        ensures rest { IfSome result (λ p. (p.pending ≡ []) × (p.before ≡ [])) }
        ensures small { OnSome result (AreCounts (base_of engine.now.view)) }
    {
        let mut log = TickLog::new();
        let before = log.snapshot();
        let base = Counts::at_base(engine);
        let counts = record_all(&mut log, base, engine)?;
        let first = Edition::new(base, counts, log.snapshot());
        let (second, same) = (first.copy(), first.copy());
        let Ok(mut writer) = EditionWriter::new(alloc, first, second, places) else {
            return None;
        };
        // after the same edition is published, the writer has seen it, and so has each new reader
        let Ok(()) = writer.append(same) else {
            writer.take(rt);
            return None;
        };
        let writer = shown(rt, writer);
        Some(Publisher {
            writer,
            log,
            before,
        })
    }

    /// Returns a reader that has seen what is published, or `None` if `left_right` has no place for it: none is free,
    /// or the count of owners is at its maximum.
    pub fn reader(&mut self) -> Option<StatusReader>
        ensures seen { IfSome result (λ r. r ≡ known_at self.old) }
        ensures same { self.new ≡ self.old }
    {
        let mut reader = self.writer.factory().reader().ok()?;
        reader.learn::<Published>(self.writer.tell::<Published>());
        Some(StatusReader::new(reader, self.log.snapshot()))
    }

    /// Makes everything grow that the publication of one more tick needs. Returns false if something can't grow; then
    /// nothing is pending.
    pub fn ready(&mut self, tick: Tick) -> bool
        requires { self.old.pending ≡ [] }
        ensures kept { (self.new.shown ≡ self.old.shown) × (self.new.before ≡ self.old.before) }
        ensures ready { IsTrue result → IsReady self.new tick }
        ensures none { (result ≡ false) → (self.new.pending ≡ []) }
    {
        if !self.log.make_room() {
            return false;
        }
        let next = self.writer.published().next(self.log.snapshot(), tick);
        self.writer.append(next).is_ok()
    }

    /// Records the tick that was made ready, and publishes it. The engine has already added it to its history. It waits
    /// for readers that still use the edition from before the last one.
    pub fn publish<R: Wait>(&mut self, rt: &R, tick: Tick, _engine: &Engine)
        requires ready { IsReady self.old tick }
        requires acted { HasActed self.old _engine.now.view tick }
        ensures { Publishes self.old (tick ∷ []) self.new }
    {
        self.log.record(tick);
        replace_with(&mut self.writer, rt, |writer, rt| (shown(rt, writer), ()));
    }

    /// Returns a snapshot of what is published.
    pub fn list(&self) -> Snapshot
        ensures { result ≡ snapshot_of self.now.shown }
    {
        self.log.snapshot()
    }

    /// Takes a step of an engine. If it finishes a cookie, everything grows first that the step and its publication
    /// need, and its tick is published. Most steps only move, which needs no look at the step first.
    pub fn step<R: Wait>(
        &mut self,
        rt: &R,
        engine: &mut Engine,
        ch: u8,
    ) -> Result<Turn, EngineFault>
        requires none { self.old.pending ≡ [] }
        requires shown { self.old.before ++ ticks_of engine.old.view.history
            ≡ self.old.shown.ticks }
        ensures answer { StepAnswers engine.old.view ch result engine.new.view }
        ensures published { Publishes self.old (ticks_in ch result) self.new }
    {
        if engine.moves(ch) {
            return Ok(Turn::Moved);
        }
        if engine.ending(ch) {
            self.finish(rt, engine, ch)
        } else {
            engine.rare_step(ch)
        }
    }

    // Takes a step that finishes a cookie.
    fn finish<R: Wait>(&mut self, rt: &R, engine: &mut Engine, ch: u8) -> Result<Turn, EngineFault>
        requires ends { ends (turn engine.old.view ch).0 ≡ true }
        requires none { self.old.pending ≡ [] }
        requires shown { self.old.before ++ ticks_of engine.old.view.history
            ≡ self.old.shown.ticks }
        ensures answer { StepAnswers engine.old.view ch result engine.new.view }
        ensures published { Publishes self.old (ticks_in ch result) self.new }
    {
        let tick = Tick::new(ch, Change::Finished(1));
        if engine.make_room(ch).is_err() || !self.ready(tick) {
            return Err(EngineFault::NoMemory);
        }
        let Ok(turn) = engine.rare_step(ch) else {
            unreachable!();
        };
        self.publish(rt, tick, engine);
        Ok(turn)
    }

    /// Begins a new history. The ticks published so far come before those of the new history.
    pub fn begin_again(&mut self)
        ensures { self.new ≡ record (self.old) { before = self.old.shown.ticks } }
    {
        self.before = self.list();
    }

    /// Ends the publisher. Readers see nothing from then on.
    pub fn end<R: Wait>(self, rt: &R) {
        let Publisher {
            writer,
            log: _,
            before: _,
        } = self;
        writer.take(rt);
    }
}
