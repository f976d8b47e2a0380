//! The calls of a desk that publish nothing, by name. Each is the engine's.

ghost use Rattle.std.specs.Prelude.{◌≡◌};
ghost use Rattle.dma_engine.specs.Answer.{count_reply, done_reply, reply_of, result_of, status_in};
ghost use Rattle.dma_engine.specs.View.{object_of};
ghost use Rattle.dma_work.specs.Desk.{DeskAnswers};

use super::{Desk, DeskName};
use dma_engine::{Call, EngineFault, Outcome, Reply, Status};
use dma_mem::marks::MarkKind;
use dma_mem::segment::Segment;

impl<N: DeskName> Desk<N> {
    /// Writes bytes to memory like [`Engine::write`].
    pub fn write(&mut self, addr: u32, bytes: &[u8]) -> Result<(), EngineFault>
        ensures { DeskAnswers self.old (Call.Write addr bytes.now) (done_reply result) self.new }
    {
        self.engine.write(addr, bytes)
    }

    /// Reads memory like [`Engine::read`].
    pub fn read(&mut self, addr: u32, len: u32) -> Result<Vec<u8>, EngineFault>
        ensures { DeskAnswers self.old (Call.Read addr len)
            (reply_of (λ bytes. Reply.Bytes bytes.items) result) self.new }
    {
        self.engine.read(addr, len)
    }

    /// Issues the cookies of a channel like [`Engine::issue`].
    pub fn issue(&mut self, ch: u8) -> Result<u32, EngineFault>
        ensures { DeskAnswers self.old (Call.Issue ch) (count_reply result) self.new }
    {
        self.engine.issue(ch)
    }

    /// Pauses a channel like [`Engine::pause`].
    pub fn pause(&mut self, ch: u8) -> Result<(), EngineFault>
        ensures { DeskAnswers self.old (Call.Pause ch) (done_reply result) self.new }
    {
        self.engine.pause(ch)
    }

    /// Ends the pause of a channel like [`Engine::resume`].
    pub fn resume(&mut self, ch: u8) -> Result<(), EngineFault>
        ensures { DeskAnswers self.old (Call.Resume ch) (done_reply result) self.new }
    {
        self.engine.resume(ch)
    }

    /// Returns the status of a cookie like [`Engine::status`].
    pub fn status(&self, ch: u8, cookie: u32) -> Status
        ensures { result ≡ status_in self.now.engine.view ch cookie }
    {
        self.engine.status(ch, cookie)
    }

    /// Returns how a cookie finished like [`Engine::result`].
    pub fn result(&self, ch: u8, cookie: u32) -> Option<Outcome>
        ensures { result ≡ result_of (object_of self.now.engine.view) ch cookie }
    {
        self.engine.result(ch, cookie)
    }

    /// Marks a range like [`Engine::mark`].
    pub fn mark(&mut self, kind: MarkKind, segment: Segment) -> Result<(), EngineFault>
        ensures { DeskAnswers self.old (Call.Mark kind segment) (done_reply result) self.new }
    {
        self.engine.mark(kind, segment)
    }

    /// Removes all marks like [`Engine::unmark`].
    pub fn unmark(&mut self) -> Result<(), EngineFault>
        ensures { DeskAnswers self.old Call.Unmark (done_reply result) self.new }
    {
        self.engine.unmark()
    }

    /// Sets the flag of an event like [`Engine::raise`].
    pub fn raise(&mut self, event: u8) -> Result<(), EngineFault>
        ensures { DeskAnswers self.old (Call.Raise event) (done_reply result) self.new }
    {
        self.engine.raise(event)
    }
}
