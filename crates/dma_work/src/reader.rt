//! Readers of statuses, which take no lock, and the tickets that they learn.

ghost use Rattle.std.specs.Prelude.{◌≡◌, ◌⊎◌, Some, IfSome, length};
ghost use Rattle.left_right.specs.Sides.{view};
ghost use Rattle.dma_work.specs.inner.Published.{IsLaterList, known_by, seen_list};
ghost use Rattle.dma_work.specs.Ticks.{AreFinished, IsGiven, StartsWith, status_after};

use crate::desk::DeskName;
use crate::edition::{EditionReader, Published};
use crate::log::Snapshot;
use core::mem::replace_with;
use dma_engine::Status;
use std::marker::{Model, PhantomData};

/// Shows which ticks were published when a call returned. A reader that learns it ([`StatusReader::learn`]) answers
/// from then on from a list that begins with these ticks. Contracts see the ticks.
#[derive(Drop)]
pub struct Ticket<N: DeskName> {
    list: Snapshot,
    of: PhantomData<N>,
}

impl<N: DeskName> Model for Ticket<N> {
    ghost use Rattle.std.specs.Prelude.{◌≡◌, List};
    ghost use Rattle.dma_engine.specs.Ticks.{Tick as EngineTick};

    ghost Value = { List EngineTick };

    ghost view = { λ t. t.list.ticks };

    ghost invariant = { λ t. t.list.log ≡ N.log };
}

impl<N: DeskName> Ticket<N> {
    pub(crate) fn new(list: Snapshot) -> Ticket<N>
        requires { list.log ≡ N.log }
        ensures { result ≡ list.ticks }
    {
        Ticket {
            list,
            of: PhantomData,
        }
    }

    /// Returns the number of ticks.
    pub(crate) fn len(&self) -> u64
        ensures { result ≡ length self.now }
    {
        self.list.len()
    }
}

/// What an accepted submit returns. The cookie is given in the ticket's list.
#[derive(Drop)]
pub struct Receipt<N: DeskName> {
    /// The channel.
    pub ch: u8,
    /// The cookie.
    pub cookie: u32,
    /// The published list.
    pub ticket: Ticket<N>,
    pub ghost used: { IsGiven N.base ticket ch cookie },
}

/// What an accepted terminate returns. In the ticket's list, each cookie of the channel up to `through` is given and
/// finished.
#[derive(Drop)]
pub struct Closed<N: DeskName> {
    /// The channel.
    pub ch: u8,
    /// The number of cookies that were aborted.
    pub count: u32,
    /// The last cookie that the channel has given, or 0 if it has given none.
    pub through: u32,
    /// The published list.
    pub ticket: Ticket<N>,
    pub ghost finished: { AreFinished N.base ticket ch through },
}

/// Returns the status of cookies, without waiting for another thread. Contracts see the ticks that it has seen, and
/// those that it has learnt.
#[derive(Drop)]
pub struct StatusReader {
    reader: EditionReader,
    learnt: Snapshot,
}

impl Model for StatusReader {
    ghost use Rattle.std.specs.Prelude.{◌≡◌, Some};
    ghost use Rattle.left_right.specs.Sides.{view as seen_by};
    ghost use Rattle.dma_work.specs.Known.{Known};
    ghost use Rattle.dma_work.specs.inner.Published.{known_by, seen_list};

    ghost Value = { Known };

    ghost view = { λ r. known_by (seen_list (seen_by r.reader.place)) r.learnt };

    ghost invariant = { λ r.
        (seen_by r.reader.place ≡ Some (seen_list (seen_by r.reader.place)))
        × ((seen_list (seen_by r.reader.place)).log ≡ r.learnt.log) };
}

// Returns the status of a cookie on the published edition with the length of its list, or `None` unless the list begins
// with `learnt`.
fn look(
    reader: EditionReader,
    learnt: &Snapshot,
    ch: u8,
    cookie: u32,
) -> (EditionReader, Option<(Status, u64)>)
    requires there { view reader.place ≡ Some (seen_list (view reader.place)) }
    requires log { (seen_list (view reader.place)).log ≡ learnt.now.log }
    ensures there { view result.0.place ≡ Some (seen_list (view result.0.place)) }
    ensures later { IsLaterList (seen_list (view reader.place)) (seen_list (view result.0.place)) }
    ensures covers { IfSome result.1 (λ r.
        StartsWith (seen_list (view result.0.place)).ticks learnt.now.ticks) }
    ensures some { IfSome result.1 (λ r. r.0 ≡ status_after (seen_list (view result.0.place)).base
        (seen_list (view result.0.place)).ticks ch cookie) }
    ensures len { IfSome result.1 (λ r. r.1
        ≡ length (seen_list (view result.0.place)).ticks) }
{
    match reader.enter_as::<Published>() {
        Ok(reading) => {
            let status = reading.get().status(learnt, ch, cookie);
            (reading.leave(), status)
        }
        Err(reader) => (reader, None),
    }
}

impl StatusReader {
    /// Returns a reader that has learnt a snapshot. The snapshot is of the log of the edition that the reader has seen.
    pub(crate) fn new(reader: EditionReader, learnt: Snapshot) -> StatusReader
        requires there { view reader.place ≡ Some (seen_list (view reader.place)) }
        requires log { (seen_list (view reader.place)).log ≡ learnt.log }
        ensures { result ≡ known_by (seen_list (view reader.place)) learnt }
    {
        StatusReader { reader, learnt }
    }

    /// Learns a ticket: from then on each status is that of a list that begins with the ticket's list. The ticket has
    /// to be one of the published list that this reader reads.
    pub fn learn<N: DeskName>(&mut self, ticket: Ticket<N>)
        requires { (N.log ≡ self.old.log) × (N.base ≡ self.old.base) }
        ensures seen { self.new ≡ record (self.old) { learnt = self.new.learnt } }
        // the longer of the two lists
        ensures one { (self.new.learnt ≡ self.old.learnt) ⊎ (self.new.learnt ≡ ticket) }
        ensures before { StartsWith self.new.learnt self.old.learnt }
        ensures ticket { StartsWith self.new.learnt ticket }
    {
        let Ticket { list, .. } = ticket;
        if self.learnt.is_within(&list) {
            self.learnt = list;
        }
    }

    /// Returns the status of a cookie after some published ticks. They begin with all ticks that this reader has seen
    /// or learnt, and the reader has seen them from then on. It may return `None` once the desk has ended; that it does
    /// so at no other time is tested, not proved.
    ///
    /// It waits for no other thread and allocates nothing.
    pub fn status(&mut self, ch: u8, cookie: u32) -> Option<Status>
        ensures same { self.new ≡ record (self.old) { seen = self.new.seen } }
        ensures later { StartsWith self.new.seen self.old.seen }
        ensures covers { IfSome result (λ s. StartsWith self.new.seen self.old.learnt) }
        ensures some { IfSome result
            (λ s. s ≡ status_after self.old.base self.new.seen ch cookie) }
    {
        let (status, _) = self.status_and_len(ch, cookie)?;
        Some(status)
    }

    /// Returns a status like `status`, and the number of ticks after which it is.
    pub(crate) fn status_and_len(&mut self, ch: u8, cookie: u32) -> Option<(Status, u64)>
        ensures same { self.new ≡ record (self.old) { seen = self.new.seen } }
        ensures later { StartsWith self.new.seen self.old.seen }
        ensures covers { IfSome result (λ r. StartsWith self.new.seen self.old.learnt) }
        ensures some { IfSome result
            (λ r. r.0 ≡ status_after self.old.base self.new.seen ch cookie) }
        ensures len { IfSome result (λ r. r.1 ≡ length self.new.seen) }
    {
        replace_with(
            &mut self.reader,
            (&self.learnt, ch, cookie),
            |reader, (learnt, ch, cookie)| look(reader, learnt, ch, cookie),
        )
    }
}
