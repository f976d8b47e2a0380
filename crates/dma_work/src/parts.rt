//! The parts of which a desk is made: an engine, and a publisher that has published the ticks of its history.

ghost use Rattle.std.specs.Prelude.{◌≡◌, ◌≢◌, ◌<◌, ◌≤◌, ◌↔◌, [], IfSome, IfNone, IfOk, IfErr, OnOk, vec_len};
ghost use Rattle.std.specs.List.{All};
ghost use Rattle.dma_engine.specs.Ticks.{ticks_of};
ghost use Rattle.dma_work.specs.Known.{Known, knows};
ghost use Rattle.dma_work.specs.Laws.{AreCounts};
ghost use Rattle.dma_work.specs.inner.Published.{AreTaken, known_at};
ghost use Rattle.dma_work.specs.Ticks.{base_of};

use crate::publisher::Publisher;
use crate::reader::StatusReader;
use dma_engine::Engine;
use std::alloc::{AllocError, Global};
use std::marker::Model;
use std::sync::Wait;

/// The most status readers (profile).
pub const MAX_READERS: usize = 8;

/// An engine, and a publisher that has published the ticks of its history. They become a `Desk` or a `Shared`.
pub struct Parts {
    pub(crate) engine: Engine,
    pub(crate) publisher: Publisher,
}

impl Model for Parts {
    ghost use Rattle.std.specs.Prelude.{◌≡◌, []};
    ghost use Rattle.dma_engine.specs.Ticks.{ticks_of};
    ghost use Rattle.dma_work.specs.Desk.{PartsState};
    ghost use Rattle.dma_work.specs.Laws.{AreCounts};
    ghost use Rattle.dma_work.specs.Ticks.{base_of};

    ghost Value = { PartsState };

    ghost view = { λ p. record {
      engine = p.engine;
      base = p.publisher.shown.base;
      log = p.publisher.shown.log;
    } };

    ghost invariant = { λ p.
        (p.publisher.shown.ticks ≡ ticks_of p.engine.view.history)
        × (p.publisher.shown.base ≡ base_of p.engine.view)
        × (p.publisher.pending ≡ [])
        × (p.publisher.before ≡ [])
        × AreCounts p.publisher.shown.base };
}

/// Why no parts were made.
#[derive(Clone, Copy, Debug, PartialEq, Eq)]
pub enum ShareFaultKind {
    /// More than [`MAX_READERS`] readers were requested.
    BadReaders,
    /// No place for a reader was free.
    NoReader,
    /// Out of memory.
    NoMemory,
}

/// Why no parts were made, with the engine, which the caller so gets back.
#[derive(Drop)]
pub struct ShareFault {
    /// The reason.
    pub fault: ShareFaultKind,
    /// The unchanged engine.
    pub engine: Engine,
}

impl Parts {
    /// Publishes the ticks of the engine's history, and returns `readers` readers that have seen them.
    ///
    /// The fault is `BadReaders` for more than [`MAX_READERS`]. Else it is `NoReader` if `left_right` gave no place for
    /// one of the readers, or `NoMemory`, which comes first if there is no memory to publish anything.
    pub fn new<R: Wait>(
        rt: &R,
        alloc: Global,
        engine: Engine,
        readers: usize,
    ) -> Result<(Parts, Vec<StatusReader>), ShareFault>
        ensures engine { IfOk result (λ r. r.0.engine ≡ engine) }
        ensures base { IfOk result (λ r. r.0.base ≡ base_of engine.view) }
        ensures counts { IfOk result (λ r. AreCounts r.0.base) }
        ensures count { IfOk result (λ r. (vec_len r.1 ≡ readers) × (readers ≤ 8)) }
        ensures readers { IfOk result (λ r. All (λ (s : Known).
            s ≡ knows r.0.base r.0.log (ticks_of engine.view.history)) r.1.items) }
        ensures many { IfErr result
            (λ f. (f.fault ≡ ShareFaultKind.BadReaders) ↔ (8 < readers)) }
        ensures none { IfErr result (λ f. f.fault ≡ ShareFaultKind.NoReader → 0 < readers) }
        ensures back { IfErr result (λ f. f.engine ≡ engine) }
    {
        match published(rt, alloc, &engine, readers) {
            Ok((publisher, readers)) => Ok((Parts { engine, publisher }, readers)),
            Err(fault) => Err(ShareFault { fault, engine }),
        }
    }
}

// Publishes the ticks of an engine's history, and returns `count` readers that have seen them.
fn published<R: Wait>(
    rt: &R,
    alloc: Global,
    engine: &Engine,
    count: usize,
) -> Result<(Publisher, Vec<StatusReader>), ShareFaultKind>
    ensures shown { IfOk result (λ r. (r.0.shown.base ≡ base_of engine.now.view)
        × (r.0.shown.ticks ≡ ticks_of engine.now.view.history)) }
    ensures rest { IfOk result (λ r. (r.0.pending ≡ []) × (r.0.before ≡ [])) }
    ensures small { OnOk result (AreCounts (base_of engine.now.view)) }
    ensures count { IfOk result (λ r. (vec_len r.1 ≡ count) × (count ≤ 8)) }
    ensures readers { IfOk result (λ r. All (λ (s : Known). s ≡ known_at r.0) r.1.items) }
    ensures many { IfErr result (λ f. (f ≡ ShareFaultKind.BadReaders) ↔ (8 < count)) }
    ensures none { IfErr result (λ f. f ≡ ShareFaultKind.NoReader → 0 < count) }
{
    if count > MAX_READERS {
        return Err(ShareFaultKind::BadReaders);
    }
    let Some(mut publisher) = Publisher::new(rt, alloc, engine, count.max(1)) else {
        return Err(ShareFaultKind::NoMemory);
    };
    match readers_of(alloc, &mut publisher, count) {
        Ok(readers) => Ok((publisher, readers)),
        Err(fault) => {
            publisher.end(rt);
            Err(fault)
        }
    }
}

// Returns `count` readers of what is published. Places are taken before the memory for the list.
fn readers_of(
    alloc: Global,
    publisher: &mut Publisher,
    count: usize,
) -> Result<Vec<StatusReader>, ShareFaultKind>
    requires { count ≤ 8 }
    ensures same { publisher.new ≡ publisher.old }
    ensures count { IfOk result (λ readers. vec_len readers ≡ count) }
    ensures readers { IfOk result (λ readers.
        All (λ (s : Known). s ≡ known_at publisher.old) readers.items) }
    ensures many { IfErr result (λ f. f ≢ ShareFaultKind.BadReaders) }
    ensures none { IfErr result (λ f. f ≡ ShareFaultKind.NoReader → 0 < count) }
{
    let Some(places) = places_of(publisher, count) else {
        return Err(ShareFaultKind::NoReader);
    };
    match listed(alloc, places, count) {
        Ok(readers) => Ok(readers),
        Err(_) => Err(ShareFaultKind::NoMemory),
    }
}

// Places for readers, from the first one on.
type Places = [Option<StatusReader>; MAX_READERS];

// Returns `count` readers of what is published, or `None` if `left_right` has no place for one of them.
fn places_of(publisher: &mut Publisher, count: usize) -> Option<Places>
    requires { count ≤ 8 }
    ensures same { publisher.new ≡ publisher.old }
    ensures taken { IfSome result (λ places. AreTaken (known_at publisher.old) count places) }
    ensures none { IfNone result (0 < count) }
{
    let mut places: Places = [None, None, None, None, None, None, None, None];
    for index in 0..count {
        places[index] = Some(publisher.reader()?);
    }
    Some(places)
}

// Returns the readers of the first `count` places. Fails if it is out of memory.
fn listed(alloc: Global, mut places: Places, count: usize) -> Result<Vec<StatusReader>, AllocError>
    requires { count ≤ 8 }
    ensures count { IfOk result (λ readers. vec_len readers ≤ count) }
    ensures taken { (known : Known) → AreTaken known count places → IfOk result (λ readers.
        (vec_len readers ≡ count) × All (λ (s : Known). s ≡ known) readers.items) }
{
    let mut readers = Vec::with_capacity(alloc, count)?;
    for index in 0..count {
        if let Some(reader) = places[index].take() {
            readers.push_reserved(reader);
        }
    }
    Ok(readers)
}
