//! The calls of the host on memory, marks and flags.

ghost use Rattle.std.specs.Prelude.{◌≡◌, ◌≢◌, ◌+◌, ◌<◌, ◌≤◌, ℕ, IfErr, IfOk, IsOk, None, OnErr, OnOk, take, drop, length};
ghost use Rattle.dma_engine.specs.Answer.{CallAnswers, bytes_in, done_reply, read_fault, reply_of, write_fault};
ghost use Rattle.dma_engine.specs.View.{object_of, size};
ghost use Rattle.dma_engine.specs.Room.{HasMemory, HasRoom, KeepsRoom};

use crate::access::Access;
use crate::call::{Call, Reply};
use crate::engine::Engine;
use crate::entry::{Entry, Signaller};
use crate::fault::{EngineFault, NoMemory};
use dma_mem::limits::LAST_EVENT;
use dma_mem::lists::Bytes;
use dma_mem::marks::{MarkKind, Marks};
use dma_mem::memory::Memory;
use dma_mem::segment::Segment;
use std::alloc::Global;

impl Engine {
    /// Writes bytes to consecutive addresses, starting at `addr`.
    ///
    /// The error is the first that applies of `OutOfMemoryRange`, `Busy` if a running transfer reads or writes an
    /// address of the range, and `NoMemory`.
    pub fn write(&mut self, addr: u32, bytes: &[u8]) -> Result<(), EngineFault>
        ensures answer { CallAnswers self.old.view (Call.Write addr bytes.now) (done_reply result)
            self.new.view }
        ensures kept { OnErr result (KeepsRoom self.old self.new) }
    {
        self.check_write(addr, bytes)?;
        let kept = Bytes::from_slice(self.alloc, bytes)?;
        self.write_checked(addr, kept)
    }

    // Fails if a write is refused for any reason other than memory.
    fn check_write(&self, addr: u32, bytes: &[u8]) -> Result<(), EngineFault>
        ensures free { OnOk result (write_fault self.now.view addr (length bytes.now) ≡ None) }
        ensures err { IfErr result (λ fault. CallAnswers self.now.view (Call.Write addr bytes.now)
            (Reply.Refused fault) self.now.view) }
    {
        if addr as usize + bytes.len() > self.size as usize {
            return Err(EngineFault::OutOfMemoryRange);
        }
        let range = Segment {
            addr,
            len: bytes.len() as u32,
        };
        match self.first_conflict(&Access::Write(range)) {
            Some((ch, cookie)) => Err(EngineFault::Busy { ch, cookie }),
            None => Ok(()),
        }
    }

    // Executes a write that was checked. It fails only when out of memory.
    fn write_checked(&mut self, addr: u32, bytes: Bytes) -> Result<(), EngineFault>
        requires { write_fault self.old.view addr (length bytes) ≡ None }
        ensures answer { CallAnswers self.old.view (Call.Write addr bytes) (done_reply result)
            self.new.view }
        ensures kept { OnErr result (KeepsRoom self.old self.new) }
    {
        self.history.reserve(1)?;
        let Ok(()) = self.memory.write(addr, bytes.as_slice()) else {
            return Err(EngineFault::NoMemory);
        };
        self.history.push_reserved(Entry::Wrote { addr, bytes });
        Ok(())
    }

    /// Reads bytes from consecutive addresses, starting at `addr`.
    ///
    /// The error is the first that applies of `OutOfMemoryRange`, `Busy` if a running transfer writes an address of the
    /// range, and `NoMemory`.
    pub fn read(&mut self, addr: u32, len: u32) -> Result<Vec<u8>, EngineFault>
        ensures answer { CallAnswers self.old.view (Call.Read addr len)
            (reply_of (λ bytes. Reply.Bytes bytes.items) result) self.new.view }
        ensures kept { OnErr result (KeepsRoom self.old self.new) }
    {
        let kept = self.bytes_read(addr, len)?;
        let answer = Vec::from_slice(self.alloc, kept.as_slice())?;
        self.add_read(addr, len, kept)?;
        Ok(answer)
    }

    // Reads bytes like `read`, into the form that replies have.
    pub(crate) fn read_kept(&mut self, addr: u32, len: u32) -> Result<Bytes, EngineFault>
        ensures answer { CallAnswers self.old.view (Call.Read addr len)
            (reply_of (λ bytes. Reply.Bytes bytes) result) self.new.view }
        ensures kept { OnErr result (KeepsRoom self.old self.new) }
    {
        let answer = self.bytes_read(addr, len)?;
        let kept = Bytes::from_slice(self.alloc, answer.as_slice())?;
        self.add_read(addr, len, kept)?;
        Ok(answer)
    }

    /// Reads bytes like `read`, into all of `out`. On an error `out` is unchanged.
    pub fn read_into(&mut self, addr: u32, out: &mut [u8]) -> Result<(), EngineFault>
        ensures answer { CallAnswers self.old.view (Call.Read addr (length out.old))
            (reply_of (λ _. Reply.Bytes out.new) result) self.new.view }
        ensures same { OnErr result (out.new ≡ out.old) }
    {
        if out.len() > self.size as usize {
            return Err(EngineFault::OutOfMemoryRange);
        }
        let len = out.len() as u32;
        let bytes = self.bytes_read(addr, len)?;
        self.reserve_entries(1)?;
        out.copy_from_slice(bytes.as_slice());
        self.add_read(addr, len, bytes)
    }

    // Returns the bytes of a range, or why `read` refuses it. Nothing changes.
    fn bytes_read(&self, addr: u32, len: u32) -> Result<Bytes, EngineFault>
        ensures free { OnOk result (read_fault self.now.view addr len ≡ None) }
        ensures bytes { IfOk result (λ bytes. bytes ≡ bytes_in self.now.view addr len) }
        ensures err { IfErr result (λ fault. CallAnswers self.now.view (Call.Read addr len)
            (Reply.Refused fault) self.now.view) }
    {
        if addr as usize + len as usize > self.size as usize {
            return Err(EngineFault::OutOfMemoryRange);
        }
        let range = Segment { addr, len };
        match self.first_conflict(&Access::Read(range)) {
            Some((ch, cookie)) => Err(EngineFault::Busy { ch, cookie }),
            None => Ok(bytes_of(self.alloc, &self.memory, addr, len)?),
        }
    }

    // Adds the entry of a read with these bytes. It fails only when out of memory, and never if room was made.
    fn add_read(&mut self, addr: u32, len: u32, bytes: Bytes) -> Result<(), EngineFault>
        requires free { read_fault self.old.view addr len ≡ None }
        requires bytes { bytes ≡ bytes_in self.old.view addr len }
        ensures answer { CallAnswers self.old.view (Call.Read addr len)
            (reply_of (λ _. Reply.Bytes bytes) result) self.new.view }
        ensures room { 0 < self.old.room.entries → IsOk result }
        ensures kept { OnErr result (KeepsRoom self.old self.new) }
    {
        self.history.reserve(1)?;
        self.history.push_reserved(Entry::ReadBack { addr, bytes });
        Ok(())
    }

    /// Marks a range, so that bursts of that kind fail there from then on. Nothing else fails there. The range need not
    /// lie below the memory's size.
    ///
    /// The error is `BadRange` if the range is empty or ends above 2^32, else `NoMemory`.
    pub fn mark(&mut self, kind: MarkKind, segment: Segment) -> Result<(), EngineFault>
        ensures answer { CallAnswers self.old.view (Call.Mark kind segment) (done_reply result)
            self.new.view }
        ensures kept { OnErr result (KeepsRoom self.old self.new) }
    {
        if segment.len == 0 || segment.wraps() {
            return Err(EngineFault::BadRange);
        }
        self.history.reserve(1)?;
        self.marks.add(kind, segment)?;
        self.history.push_reserved(Entry::Marked { kind, segment });
        Ok(())
    }

    /// Removes all marks.
    ///
    /// The error is `NoMemory`.
    pub fn unmark(&mut self) -> Result<(), EngineFault>
        ensures answer { CallAnswers self.old.view Call.Unmark (done_reply result) self.new.view }
        ensures kept { OnErr result (KeepsRoom self.old self.new) }
    {
        self.history.reserve(1)?;
        self.history.push_reserved(Entry::Unmarked);
        self.marks.clear();
        Ok(())
    }

    /// Sets the flag of an event.
    ///
    /// The error is `BadEvent` if the event is above 31, else `NoMemory`.
    pub fn raise(&mut self, event: u8) -> Result<(), EngineFault>
        ensures answer { CallAnswers self.old.view (Call.Raise event) (done_reply result)
            self.new.view }
        ensures room { (ch : ℕ) → HasRoom self.old ch → HasMemory result }
        ensures kept { OnErr result (KeepsRoom self.old self.new) }
    {
        if event > LAST_EVENT {
            return Err(EngineFault::BadEvent);
        }
        self.history.reserve(1)?;
        self.history.push_reserved(Entry::Signalled {
            by: Signaller::Host,
            event,
        });
        self.events.set(event);
        Ok(())
    }
}

// The bytes of a memory from an address on.
fn bytes_of(alloc: Global, memory: &Memory, addr: u32, len: u32) -> Result<Bytes, NoMemory>
    requires { addr + len ≤ length memory.now.image }
    ensures { IfOk result (λ bytes. bytes ≡ take len (drop addr memory.now.image)) }
{
    if let Some(part) = memory.part(addr, len) {
        return Ok(Bytes::from_slice(alloc, part)?);
    }
    Ok(Bytes::from_vec(memory.to_vec(alloc, addr, len)?)?)
}
