//! The pages that a store writes.

ghost use Rattle.std.specs.Prelude.{◌≡◌, ℕ, ◌+◌, ◌-◌, ◌/◌, ◌%◌, ◌≤◌, ◌<◌, min, IsTrue, IfOk, OnOk, OnErr, Some, true, false, length};
ghost use Rattle.dma_mem.specs.Places.{range_of};
ghost use Rattle.dma_mem.specs.Pages.{page_size, Paged, AllMade, Keeps, MakesNoOther};
ghost use Rattle.dma_chan.specs.Bursts.{touched};
ghost use Rattle.dma_chan.specs.Exec.{buffer_size, destination_of};
ghost use Rattle.dma_chan.specs.Ready.{none_missing, IsMadeIfSome};

use crate::bursts::destination_burst;
use crate::exec::Registers;
use dma_mem::memory::MemFault;
use dma_mem::ram::Ram;
use dma_mem::segment::Segment;

// The number of bytes in a page of a memory.
const PAGE_SIZE: u32 = dma_mem::memory::PAGE_SIZE as u32;

// Returns the part of a burst's span below the memory's size. It is empty if the whole span is at or above the size.
fn part_below<M: Ram>(span: Segment, memory: &M) -> Segment
    ensures addr { result.addr ≡ min span.addr (length (M.paged memory.now).image) }
    ensures len { result.len ≡ min span.len (length (M.paged memory.now).image - span.addr) }
{
    let size = memory.size();
    let (addr, len) = (u64::from(span.addr), u64::from(span.len));
    Segment {
        addr: addr.min(size) as u32,
        len: len.min(size.saturating_sub(addr)) as u32,
    }
}

// Returns whether all pages that a store writes are made.
pub(crate) fn store_is_ready<M: Ram>(registers: &Registers, memory: &M) -> bool
    ensures { result
        ≡ none_missing (M.paged memory.now) (touched (destination_of registers.now)) }
{
    let part = part_below(destination_burst(registers).span(), memory);
    memory.made(part)
}

// Returns whether the whole segment lies on the page with this number.
fn is_on_page(span: Segment, page: u32) -> bool
    requires { span.len ≤ buffer_size }
    ensures page { result ≡ true
        → (a : ℕ) → span.addr ≤ a → a < span.addr + span.len → a / page_size ≡ page }
    ensures on { span.addr / page_size ≡ page → span.addr % page_size + span.len ≤ page_size
        → result ≡ true }
{
    span.addr / PAGE_SIZE == page && span.addr % PAGE_SIZE + span.len <= PAGE_SIZE
}

// Returns the page of a segment's first address, or `None` if the segment is empty.
fn first_page(segment: Segment) -> Option<u32>
    ensures made { (m : Paged) → AllMade m (range_of segment) → IsMadeIfSome m result }
    ensures some { 0 < segment.len → result ≡ Some (segment.addr / page_size) }
{
    if segment.len == 0 {
        return None;
    }
    Some(segment.addr / PAGE_SIZE)
}

// Makes the pages that a store writes, and returns a page that is known to be made, if any. If the store lies on the
// page `known`, the memory isn't asked. The page returned is usually that of the store, because the next store usually
// lies on it too.
//
// The error is `NoMemory`. Some pages may have been made then.
pub(crate) fn prepare_store<M: Ram>(
    registers: &Registers,
    memory: &mut M,
    known: Option<u32>,
) -> Result<Option<u32>, MemFault>
    requires known { IsMadeIfSome (M.paged memory.old) known }
    ensures ok { OnOk result
        (IsTrue (none_missing (M.paged memory.new) (touched (destination_of registers.now)))) }
    ensures known { IfOk result (λ page. IsMadeIfSome (M.paged memory.new) page) }
    ensures short { OnErr result
        (none_missing (M.paged memory.new) (touched (destination_of registers.now)) ≡ false) }
    ensures image { (M.paged memory.new).image ≡ (M.paged memory.old).image }
    ensures keeps { Keeps (M.paged memory.old) (M.paged memory.new) }
    ensures others { MakesNoOther (M.paged memory.old) (M.paged memory.new)
        (touched (destination_of registers.now)) }
    ensures loan { M.loan memory.new ≡ M.loan memory.old }
{
    let span = destination_burst(registers).span();
    if let Some(page) = known {
        if is_on_page(span, page) {
            return Ok(known);
        }
    }
    let part = part_below(span, memory);
    match memory.prepare(part) {
        Ok(()) => Ok(first_page(part)),
        Err(fault) => Err(fault),
    }
}
