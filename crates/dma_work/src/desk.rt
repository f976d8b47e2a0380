//! The desk: an engine, a book of totals, and the publisher of what status readers see.

ghost use Rattle.std.specs.Prelude.{◌≡◌, ◌+◌, ◌<◌, [], IfOk, IfErr, IfSome, OnErr};
ghost use Rattle.dma_engine.specs.Answer.{CallAnswers, StepAnswers, next_cookie, reply_of, status_in};
ghost use Rattle.dma_engine.specs.Laws.{IsQuiet};
ghost use Rattle.dma_engine.specs.Object.{channel, used};
ghost use Rattle.dma_engine.specs.Room.{HasNoSpare};
ghost use Rattle.dma_engine.specs.View.{memory_of, object_of};
ghost use Rattle.dma_work.specs.Desk.{CountsSince, Differ, IsSettled, IsSoundOf, Names, SameBook, counted, new_tally, no_totals, published, stepped_book};
ghost use Rattle.dma_work.specs.Known.{knows};
ghost use Rattle.dma_work.specs.Laws.{AreCounts};
ghost use Rattle.dma_work.specs.Ticks.{StartsWith, base_of, board_from};

mod host_calls;

use crate::parts::Parts;
use crate::publisher::Publisher;
use crate::reader::{Closed, Receipt, StatusReader, Ticket};
use crate::tick::{Change, Tick};
use crate::worker::{Tally, Totals};
use dma_engine::{Call, Engine, EngineFault, Reply, Status, SubmitFault, Turn};
use dma_mem::transfer::Transfer;
use std::marker::{Brand, Model, PhantomData};
use std::sync::Wait;

/// The name of a desk, by which contracts tell one desk's tallies and tickets from another's. A name has the log of the
/// published list, the counts with which this list begins, the engine's view when the desk got the name, and the jobs
/// of its shift, if it is on one.
pub trait DeskName {
    ghost use Rattle.std.specs.Prelude.{List};
    ghost use Rattle.logbook.specs.Pages.{Book};
    ghost use Rattle.dma_engine.specs.Ticks.{Board};
    ghost use Rattle.dma_engine.specs.View.{View};
    ghost use Rattle.dma_work.specs.declared.job.Job.{Job};

    ghost base: { Board };

    ghost log: { Book };

    ghost opening: { View };

    ghost jobs: { List Job };
}

impl DeskName for Brand {
    ghost use Rattle.std.specs.Prelude.{[]};
    ghost use Rattle.dma_engine.specs.View.{new_view};

    ghost base = { [] };

    ghost log = { record { number = 0; log_name = 0; cells_name = 0 } };

    ghost opening = { new_view 0 0 };

    ghost jobs = { [] };
}

/// The value behind the lock: an engine, a book of what was done through it, and the publisher for status readers.
///
/// Its type guarantees four facts. The published list ends with the ticks of the engine's history, and no tick is
/// pending. The published ticks before those add up to the counts with which the history begins. The book has what the
/// step count and the number of finished cookies have risen by since the desk got its name. The engine has the size and
/// the number of channels that it had then.
pub struct Desk<N: DeskName> {
    // first, as each step writes it: it lies in the lock's line, as the engine's step count does
    book: Totals,
    engine: Engine,
    publisher: Publisher,
    of: PhantomData<N>,
}

impl<N: DeskName> Model for Desk<N> {
    ghost use Rattle.dma_work.specs.Desk.{DeskState};
    ghost use Rattle.dma_work.specs.inner.DeskKept.{IsKept};

    ghost Value = { DeskState };

    ghost view = { λ d. record { engine = d.engine; book = d.book; before = d.publisher.before } };

    ghost invariant = { λ d. IsKept N.opening N.base N.log d.engine d.publisher d.book };
}

impl<N: DeskName> Desk<N> {
    /// Returns a desk of these parts, with an empty book. The desk's name has the view of the parts' engine, and the
    /// log and the counts of their published list.
    pub fn new(parts: Parts) -> Desk<N>
        requires { Names N.opening N.base N.log parts }
        ensures { result ≡ record { engine = parts.engine; book = no_totals; before = [] } }
    {
        let Parts { engine, publisher } = parts;
        Desk {
            engine,
            publisher,
            book: Totals::default(),
            of: PhantomData,
        }
    }

    /// Gives the desk a new name, with an empty book. The new name has the engine's present view, and the log and the
    /// counts of the old name.
    pub(crate) fn named_anew<M: DeskName>(self) -> Desk<M>
        requires { Names M.opening M.base M.log
            (record { engine = self.engine; base = N.base; log = N.log }) }
        ensures { result ≡ record { engine = self.engine; book = no_totals; before = self.before } }
    {
        let Desk {
            engine,
            publisher,
            book: _,
            of: _,
        } = self;
        let book = Totals::default();
        Desk {
            engine,
            publisher,
            book,
            of: PhantomData,
        }
    }

    /// Returns the engine. Its view is sound, its memory is the history's image with what running transfers have
    /// stored, and the book has the increase of its step count and finished cookies.
    pub fn engine(&self) -> &Engine
        ensures engine { result.now ≡ self.now.engine }
        ensures counted { CountsSince N.opening self.now.engine.view self.now.book }
        ensures opens { board_from N.base self.now.before ≡ base_of self.now.engine.view }
        ensures counts { AreCounts N.base }
        ensures sound { IsSoundOf N.opening self.now.engine.view }
        ensures memory { self.now.engine.memory ≡ memory_of self.now.engine.view }
    {
        self.engine.facts();
        &self.engine
    }

    /// Returns the book: the totals of all workers so far.
    pub fn book(&self) -> Totals
        ensures { result ≡ self.now.book }
    {
        self.book
    }

    /// Returns a tally for a worker, with nothing counted.
    pub fn tally(&mut self, worker: u32) -> Tally<N>
        ensures tally { result ≡ new_tally worker }
        ensures same { self.new ≡ self.old }
    {
        Tally::new(worker)
    }

    /// Returns one more reader, which has seen what is published, or `None` if no place is free. There are as many
    /// places as [`Parts::new`] made readers, or one if it made none. A reader that is dropped frees its place.
    pub fn reader(&mut self) -> Option<StatusReader>
        ensures seen { IfSome result (λ r. r ≡ knows N.base N.log (published self.old)) }
        ensures same { self.new ≡ self.old }
    {
        self.publisher.reader()
    }

    /// Lets a reader learn what is published, and returns the status of a cookie that the reader then returns, like
    /// [`Desk::status`]. If it returns a status, the reader has seen exactly what is published, and this begins with all
    /// that the reader had seen or learnt. The reader has to be one of this desk's published list. It has learnt also
    /// if this returns `None`; that this never does so is tested, not proved.
    pub fn status_by_reader(&self, reader: &mut StatusReader, ch: u8, cookie: u32) -> Option<Status>
        requires { (N.log ≡ reader.old.log) × (N.base ≡ reader.old.base) }
        ensures status { IfSome result
            (λ s. s ≡ status_in self.now.engine.view ch cookie) }
        ensures seen { IfSome result (λ s. reader.new.seen ≡ published self.now) }
        ensures later { StartsWith reader.new.seen reader.old.seen }
        ensures learnt { IfSome result (λ s. StartsWith (published self.now) reader.old.learnt) }
        ensures learns { StartsWith reader.new.learnt (published self.now) }
        ensures keeps { StartsWith reader.new.learnt reader.old.learnt }
        ensures same { (reader.new.log ≡ reader.old.log) × (reader.new.base ≡ reader.old.base) }
    {
        // gives the proof that the desk is sound
        self.engine.facts();
        let ticket: Ticket<N> = Ticket::new(self.publisher.list());
        let ticks = ticket.len();
        reader.learn(ticket);
        let (status, seen) = reader.status_and_len(ch, cookie)?;
        if seen == ticks { Some(status) } else { None }
    }

    /// Executes a call like [`Engine::carry_out`]. The call is one that publishes nothing: any but submit, terminate,
    /// step and checkpoint.
    pub fn carry_out(&mut self, call: &Call) -> Reply
        requires { IsQuiet call.now }
        ensures answer { CallAnswers self.old.engine.view call.now result self.new.engine.view }
        ensures book { SameBook self.old self.new }
    {
        self.engine.carry_out(call)
    }

    /// Checks a submit like [`Engine::check_submit`].
    pub fn check_submit(&self, ch: u8, transfer: &Transfer) -> Result<u32, EngineFault>
        ensures { result ≡ next_cookie self.now.engine.view ch transfer.now }
    {
        self.engine.check_submit(ch, transfer)
    }

    /// Drops the history like [`Engine::checkpoint`]. It publishes nothing, and doesn't change the book or what readers
    /// know. The ticks published so far come before those of the new history.
    pub fn checkpoint(&mut self) -> Result<(), EngineFault>
        ensures answer { CallAnswers self.old.engine.view Call.Checkpoint
            (reply_of (λ _. Reply.Done) result) self.new.engine.view }
        ensures book { self.new.book ≡ self.old.book }
        ensures published { published self.new ≡ published self.old }
        ensures before { IfOk result (λ _. self.new.before ≡ published self.old) }
        ensures room { IfOk result (λ _. HasNoSpare self.new.engine) }
        ensures same { OnErr result (self.new ≡ self.old) }
    {
        self.engine.facts();
        self.engine.checkpoint()?;
        self.publisher.begin_again();
        Ok(())
    }

    /// Takes a step like [`Engine::step`], and counts it in the book and in the tally: a step for `Moved`, a step and a
    /// finish for `Finished`. Each call adds a turn to the tally, which has fewer than 2^64 - 1 turns.
    ///
    /// Only a step that finishes a cookie publishes. A refused step changes nothing but the tally's number of turns.
    pub fn step<R: Wait>(
        &mut self,
        rt: &R,
        ch: u8,
        tally: &mut Tally<N>,
    ) -> Result<Turn, EngineFault>
        requires { tally.old.turns < u64.MAX }
        ensures answer { StepAnswers self.old.engine.view ch result self.new.engine.view }
        ensures book { self.new.book ≡ stepped_book self.old.book result }
        ensures before { self.new.before ≡ self.old.before }
        ensures tally { tally.new ≡ counted result tally.old }
    {
        let answer = self.publisher.step(rt, &mut self.engine, ch);
        // bounds the book
        self.engine.facts();
        self.book.count(&answer);
        tally.count(&answer);
        answer
    }

    /// Submits a transfer like [`Engine::submit`]. The ticket is for a published list in which the cookie is given.
    pub fn submit<R: Wait>(
        &mut self,
        rt: &R,
        ch: u8,
        transfer: Transfer,
    ) -> Result<Receipt<N>, SubmitFault>
        ensures ok { IfOk result (λ r. (r.ch ≡ ch) × CallAnswers self.old.engine.view
            (Call.Submit ch transfer) (Reply.Cookie r.cookie) self.new.engine.view) }
        ensures ticket { IfOk result (λ r. r.ticket ≡ published self.new) }
        ensures err { IfErr result (λ f. CallAnswers self.old.engine.view
            (Call.Submit ch transfer) (Reply.Refused f.fault) self.new.engine.view) }
        ensures back { IfErr result (λ f. f.transfer ≡ transfer) }
        ensures book { SameBook self.old self.new }
    {
        if let Err(fault) = self.engine.check_submit(ch, &transfer) {
            return Err(SubmitFault { fault, transfer });
        }
        let given = Tick::new(ch, Change::Given);
        if self.engine.make_room(ch).is_err() || !self.publisher.ready(given) {
            let fault = EngineFault::NoMemory;
            return Err(SubmitFault { fault, transfer });
        }
        let Ok(cookie) = self.engine.submit(ch, transfer) else {
            unreachable!();
        };
        self.engine.facts();
        self.publisher.publish(rt, given, &self.engine);
        let ticket = Ticket::new(self.publisher.list());
        Ok(Receipt { ch, cookie, ticket })
    }

    /// Terminates a channel like [`Engine::terminate`]. Returns the number of aborted cookies, the last cookie given,
    /// and a ticket for a published list in which each cookie of the channel up to the last one is finished.
    pub fn terminate<R: Wait>(&mut self, rt: &R, ch: u8) -> Result<Closed<N>, EngineFault>
        ensures ok { IfOk result (λ r. (r.ch ≡ ch) × CallAnswers self.old.engine.view
            (Call.Terminate ch) (Reply.Count r.count) self.new.engine.view) }
        ensures through { IfOk result (λ r.
            r.through ≡ used (channel (object_of self.new.engine.view) ch)) }
        ensures ticket { IfOk result (λ r. r.ticket ≡ published self.new) }
        ensures err { IfErr result (λ fault. CallAnswers self.old.engine.view
            (Call.Terminate ch) (Reply.Refused fault) self.new.engine.view) }
        // terminated cookies are counted separately
        ensures book { IfOk result (λ r. self.new.book
            ≡ record (self.old.book) { terminated = self.old.book.terminated + r.count }) }
        ensures same { IfErr result (λ _. self.new.book ≡ self.old.book) }
        ensures before { self.new.before ≡ self.old.before }
    {
        self.engine.make_room(ch)?;
        let ended = Tick::new(ch, Change::Finished(self.engine.unfinished(ch)));
        if !self.publisher.ready(ended) {
            return Err(EngineFault::NoMemory);
        }
        let Ok(count) = self.engine.terminate(ch) else {
            unreachable!();
        };
        // bounds the book
        self.engine.facts();
        self.book.terminated += u64::from(count);
        self.publisher.publish(rt, ended, &self.engine);
        let last = Ticket::new(self.publisher.list());
        let through = self.engine.used(ch);
        Ok(Closed {
            ch,
            count,
            through,
            ticket: last,
        })
    }

    // Ends the desk, and returns its unchanged engine and its book. Readers see nothing from then on.
    fn into_parts<R: Wait>(self, rt: &R) -> (Engine, Totals)
        ensures engine { result.0 ≡ self.engine }
        ensures book { result.1 ≡ self.book }
        ensures counts { CountsSince N.opening result.0.view result.1 }
        ensures sound { IsSoundOf N.opening result.0.view }
        ensures memory { result.0.memory ≡ memory_of result.0.view }
    {
        let Desk {
            engine,
            publisher,
            book,
            of: _,
        } = self;
        publisher.end(rt);
        engine.facts();
        (engine, book)
    }

    /// Ends the desk, and returns its unchanged engine. Readers see nothing from then on.
    pub fn close<R: Wait>(self, rt: &R) -> Engine
        ensures engine { result ≡ self.engine }
        ensures sound { IsSoundOf N.opening result.view }
        ensures memory { result.memory ≡ memory_of result.view }
    {
        self.into_parts(rt).0
    }

    /// Ends the desk if the sums of the tallies' steps and finishes are its book's, and returns its unchanged engine
    /// and its book. Otherwise it returns the desk.
    pub fn settle<R: Wait>(self, rt: &R, tallies: &[Tally<N>]) -> Result<(Engine, Totals), Desk<N>>
        ensures engine { IfOk result (λ r. (r.0 ≡ self.engine) × (r.1 ≡ self.book)) }
        ensures settled { IfOk result (λ r. IsSettled N.opening tallies.now r.0 r.1) }
        ensures missing { IfErr result (λ desk. Differ tallies.now desk.book) }
        ensures back { IfErr result (λ desk. desk ≡ self) }
    {
        if self.book.are_sums_of(tallies) {
            Ok(self.into_parts(rt))
        } else {
            Err(self)
        }
    }
}
