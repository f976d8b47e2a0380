//! Ticks, the changes that are published.

ghost use Rattle.std.specs.Prelude.{◌≡◌, [], ◌∷◌};
ghost use Rattle.dma_engine.specs.Ticks.{ticks_of};
ghost use Rattle.dma_work.specs.inner.TickForms.{tick_of, ticks_of_option};

use dma_engine::Entry;
use std::marker::Model;

/// What happened on a channel.
#[derive(Clone, Copy, PartialEq, Eq)]
pub(crate) enum Change {
    /// The channel gave its next cookie.
    Given,
    /// This many of the channel's cookies finished.
    Finished(u32),
}

/// A change on a channel. Contracts see it as a tick of the engine's history.
#[derive(Clone, Copy, PartialEq, Eq)]
pub(crate) struct Tick {
    pub(crate) ch: u8,
    pub(crate) change: Change,
}

impl Model for Tick {
    ghost use Rattle.dma_engine.specs.Ticks.{Tick as EngineTick};
    ghost use Rattle.dma_work.specs.inner.TickForms.{tick_of, channel_of, change_of};

    ghost Value = { EngineTick };

    ghost view = { λ t. tick_of t.ch t.change };

    ghost inverse = { λ t. record { ch = channel_of t; change = change_of t } };
}

impl Tick {
    /// Returns the tick of a change on a channel.
    pub fn new(ch: u8, change: Change) -> Tick
        ensures { result ≡ tick_of ch change }
    {
        Tick { ch, change }
    }

    /// Returns the tick of a history's entry, or `None` if it has none.
    pub fn of(entry: &Entry) -> Option<Tick>
        ensures { ticks_of_option result ≡ ticks_of (entry.now ∷ []) }
    {
        match entry {
            Entry::Submitted { ch, .. } => Some(Tick::new(*ch, Change::Given)),
            Entry::Finished { ch, .. } => Some(Tick::new(*ch, Change::Finished(1))),
            Entry::Terminated { ch, count, .. } => Some(Tick::new(*ch, Change::Finished(*count))),
            _ => None,
        }
    }
}
