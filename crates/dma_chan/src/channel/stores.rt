//! What a channel is about to store, and the pages that it needs for that.

ghost use Rattle.std.specs.Prelude.{◌≡◌, false, IsTrue, IsSome, IfOk, OnOk, OnErr, Ok};
ghost use Rattle.dma_chan.specs.Channel.{ahead_of};
ghost use Rattle.dma_chan.specs.NextWrites.{written_next};
ghost use Rattle.dma_chan.specs.Ready.{ready_of, IsMadeIfSome};
ghost use Rattle.dma_chan.specs.Written.{adjoins, store_ahead};
ghost use Rattle.dma_mem.specs.Pages.{Keeps, MakesNoOther};

use crate::bursts::destination_burst;
use crate::channel::Channel;
use crate::next::Next;
use crate::pages::{prepare_store, store_is_ready};
use crate::written::adjoins;
use dma_insn::chip::ChipInsn;
use dma_mem::memory::MemFault;
use dma_mem::ram::Ram;
use dma_mem::segment::Segment;

impl Channel {
    /// Returns whether the next instruction is ready, which means that the pages that it writes are made. This is false
    /// exactly if the instruction is a DMAST or a DMASTZ whose burst has an address that is below the memory's size and
    /// whose page isn't made. Nothing is executed.
    pub fn ready<M: Ram>(&self, memory: &M) -> bool
        ensures { result ≡ ready_of self.now (M.paged memory.now) }
    {
        if !self.is_loaded() {
            return true;
        }
        match self.ahead_on_bus() {
            Ok(ChipInsn::St | ChipInsn::StoreZeros) => {
                store_is_ready(&self.executor.registers, memory)
            }
            _ => true,
        }
    }

    // Makes the pages that the next instruction, `next`, writes, and returns a page that is known to be made, if any.
    // `known` is such a page from an earlier call.
    //
    // The error is `NoMemory`. Some pages may have been made then.
    pub(crate) fn prepare<M: Ram>(
        &self,
        next: Next,
        memory: &mut M,
        known: Option<u32>,
    ) -> Result<Option<u32>, MemFault>
        requires next { ahead_of self.now ≡ Ok next }
        requires known { IsMadeIfSome (M.paged memory.old) known }
        ensures ok { OnOk result (IsTrue (ready_of self.now (M.paged memory.new))) }
        ensures known { IfOk result (λ page. IsMadeIfSome (M.paged memory.new) page) }
        ensures short { OnErr result (ready_of self.now (M.paged memory.new) ≡ false) }
        ensures image { (M.paged memory.new).image ≡ (M.paged memory.old).image }
        ensures keeps { Keeps (M.paged memory.old) (M.paged memory.new) }
        ensures others { MakesNoOther (M.paged memory.old) (M.paged memory.new)
            (written_next self.now) }
        ensures loan { M.loan memory.new ≡ M.loan memory.old }
    {
        match next.insn() {
            ChipInsn::St | ChipInsn::StoreZeros => {
                prepare_store(&self.executor.registers, memory, known)
            }
            _ => Ok(known),
        }
    }

    // Returns the range that the next instruction, `next`, writes if it is executed. It is empty unless that is a
    // DMAST or a DMASTZ.
    pub(crate) fn store_at(&self, next: Next) -> Segment
        requires { ahead_of self.now ≡ Ok next }
        ensures { result ≡ store_ahead self.now }
    {
        match next.insn() {
            ChipInsn::St => destination_burst(&self.executor.registers).span(),
            ChipInsn::StoreZeros => destination_burst(&self.executor.registers).span(),
            _ => Segment { addr: 0, len: 0 },
        }
    }

    /// Returns whether the range that the next instruction writes overlaps or touches this one, or one of them is
    /// empty.
    pub fn writes_beside(&self, range: Segment) -> bool
        requires { IsSome self.now.program }
        ensures { result ≡ adjoins range (store_ahead self.now) }
    {
        let store = match self.next() {
            Ok(next) => self.store_at(next),
            Err(_) => Segment { addr: 0, len: 0 },
        };
        adjoins(range, store)
    }
}
