//! Lists of ranges that a run reads and writes.

ghost use Rattle.std.specs.Prelude.{◌≡◌, ◌≢◌, ◌++◌, ◌∷◌, ◌≤◌, ◌<◌, [], ℕ, length, take, All, IfErr, IfOk, OnOk, IfSome, None, Some, is_some, true};
ghost use Rattle.std.specs.List.{list_any, range_with_len};
ghost use Rattle.std.specs.List.Sorted.{IsNonDecreasingBy, IsPermutation};
ghost use Rattle.dma_mem.specs.declared.segment.Segment.{Segment};
ghost use Rattle.dma_mem.specs.Places.{places, share};
ghost use Rattle.dma_mem.specs.Refusals.{some_meet};
ghost use Rattle.dma_mem.specs.inner.RangesInOrder.{IsOrdered};
ghost use Rattle.dma_explain.specs.Items.{NoneJoin, join_read, join_run, with_item};
ghost use Rattle.dma_explain.specs.Explains.{HasAddress, IsLowest, IsRead, IsRun, IsShared, IsTwice, stop_of_lists, unrolled};

use crate::explain::{Cause, Repeated, Stop};
use dma_mem::ordered::{clear_of_ordered, meets_ordered, sort_by_address};
use dma_mem::segment::Segment;
use std::alloc::{AllocError, Global};

// Returns the two ranges as one, if the second goes on where the first ends.
fn joined(run: Segment, next: Segment) -> Option<Segment>
    ensures { result ≡ join_run run next }
{
    if run.end() != u64::from(next.addr) {
        return None;
    }
    let len = run.len.checked_add(next.len)?;
    Some(Segment {
        addr: run.addr,
        len,
    })
}

// Appends a range to a list. Where it goes on from the last range, that one grows.
pub(super) fn push_run(list: &mut Vec<Segment>, run: Segment) -> Result<(), AllocError>
    requires { NoneJoin join_run list.old.items }
    ensures { OnOk result (list.new.items ≡ with_item join_run list.old.items run) }
{
    let n = list.len();
    if n > 0 {
        if let Some(all) = joined(list[n - 1], run) {
            list[n - 1] = all;
            return Ok(());
        }
    }
    list.push(run)?;
    Ok(())
}

impl Repeated {
    // Returns the range that it reads.
    fn segment(self) -> Segment
        ensures { result ≡ record { addr = self.addr; len = self.len } }
    {
        Segment {
            addr: self.addr,
            len: self.len,
        }
    }

    // Returns the two items as one, if the second reads the first one's range again or goes on where it ends.
    fn joined(self, next: Repeated) -> Option<Repeated>
        ensures { result ≡ join_read self next }
    {
        if self.addr == next.addr
            && self.len == next.len
            && let Some(times) = self.times.checked_add(next.times)
        {
            return Some(Repeated {
                addr: self.addr,
                len: self.len,
                times,
            });
        }
        if self.times != 1 || next.times != 1 {
            return None;
        }
        let all = joined(self.segment(), next.segment())?;
        Some(Repeated {
            addr: all.addr,
            len: all.len,
            times: 1,
        })
    }
}

// Returns how many items of a list stay as they are when an item is appended, and the item that then follows them: the
// appended one, joined with the items before it as long as they can be joined.
fn settled(list: &[Repeated], item: Repeated) -> (usize, Repeated)
    requires { NoneJoin join_read list.now }
    ensures within { result.0 ≤ length list.now }
    ensures same { with_item join_read list.now item ≡ take result.0 list.now ++ result.1 ∷ [] }
{
    let mut n = list.len();
    let mut last = item;
    while n > 0 {
        let Some(all) = list[n - 1].joined(last) else {
            return (n, last);
        };
        last = all;
        n -= 1;
    }
    (0, last)
}

// Appends an item to a list, joined with the items before it as long as they can be joined.
#[inline(always)]
pub(super) fn push_read(list: &mut Vec<Repeated>, item: Repeated) -> Result<(), AllocError>
    requires { NoneJoin join_read list.old.items }
    ensures { OnOk result (list.new.items ≡ with_item join_read list.old.items item) }
{
    let (n, last) = settled(list.as_slice(), item);
    if n == list.len() {
        list.push(last)?;
        return Ok(());
    }
    list[n] = last;
    list.truncate(n + 1);
    Ok(())
}

// Returns the segments of both lists, sorted by their first addresses.
fn sorted(alloc: Global, list: &[Segment], more: &[Segment]) -> Result<Vec<Segment>, AllocError>
    ensures same { IfOk result (λ sorted. IsPermutation (list.now ++ more.now) sorted.items) }
    ensures rising { IfOk result (λ sorted.
        IsNonDecreasingBy (λ (s : Segment). s.addr) sorted.items) }
{
    let mut sorted = Vec::from_slice(alloc, list)?;
    sorted.extend_from_slice(more)?;
    sort_by_address(&mut sorted);
    Ok(sorted)
}

// Returns the lowest address that two of the ranges have, or `None` if no two of them meet. They are sorted by their
// first addresses, so that address begins the first range that meets the one before it.
fn lowest_twice(sorted: &[Segment]) -> Option<u32>
    requires filled { All (λ s. 0 < s.len) sorted.now }
    requires rising { IsNonDecreasingBy (λ (s : Segment). s.addr) sorted.now }
    ensures meets { is_some result ≡ some_meet sorted.now }
    ensures lowest { IfSome result (λ a. IsLowest (IsTwice (places sorted.now)) a) }
{
    for next in 1..sorted.len() {
        let addr = sorted[next].addr;
        if u64::from(addr) < sorted[next - 1].end() {
            return Some(addr);
        }
    }
    None
}

// Returns whether an item reads an address of the ranges.
fn any_reads(ranges: &[Segment], items: &[Repeated]) -> bool
    requires { IsOrdered ranges.now }
    ensures { result
        ≡ list_any (λ r. share (range_with_len r.addr r.len) (places ranges.now)) items.now }
{
    items
        .iter()
        .any(|item| meets_ordered(ranges, item.segment()))
}

// Returns the lowest address that an item reads and a range has, or the last address, 2^32 - 1, if there is none.
fn first_read(ranges: &[Segment], item: Repeated) -> u32
    requires ranges { IsOrdered ranges.now }
    requires item { IsRead item }
    ensures least { (a : ℕ)
        → IsShared (range_with_len item.addr item.len) (places ranges.now) a → result ≤ a }
    ensures found { result < u32.MAX
        → IsShared (range_with_len item.addr item.len) (places ranges.now) result }
{
    let clear = clear_of_ordered(ranges, item.segment());
    if clear == item.len {
        return u32::MAX;
    }
    item.addr + clear
}

// Returns the lowest address that one of the items reads and a range has. There is one.
fn lowest_read(ranges: &[Segment], items: &[Repeated]) -> u32
    requires ranges { IsOrdered ranges.now }
    requires items { All IsRead items.now }
    requires some { list_any (λ r. share (range_with_len r.addr r.len) (places ranges.now)) items.now
        ≡ true }
    ensures { IsLowest (IsShared (places (unrolled items.now)) (places ranges.now)) result }
{
    let mut lowest = u32::MAX;
    for item in items {
        lowest = lowest.min(first_read(ranges, *item));
    }
    lowest
}

// Tests that no address is in `dst` and `zeros` twice, and none of them in `src`.
pub(super) fn overlap(
    alloc: Global,
    src: &[Repeated],
    dst: &[Segment],
    zeros: &[Segment],
) -> Result<(), Stop>
    requires items { All IsRead src.now }
    requires runs { All IsRun dst.now }
    requires zeros { All IsRun zeros.now }
    ensures ok { OnOk result (stop_of_lists (places (unrolled src.now))
        (places dst.now ++ places zeros.now) ≡ None) }
    ensures err { IfErr result (λ stop. stop.cause ≢ Cause.NoMemory
        → stop_of_lists (places (unrolled src.now)) (places dst.now ++ places zeros.now)
        ≡ Some stop.cause) }
    ensures addr { IfErr result (λ stop. HasAddress stop.cause (places (unrolled src.now))
        (places dst.now ++ places zeros.now) stop.addr) }
{
    let Ok(ranges) = sorted(alloc, dst, zeros) else {
        return Err(Stop {
            cause: Cause::NoMemory,
            addr: 0,
        });
    };
    if let Some(addr) = lowest_twice(&ranges) {
        return Err(Stop {
            cause: Cause::StoresTwice,
            addr,
        });
    }
    if any_reads(&ranges, src) {
        return Err(Stop {
            cause: Cause::StoresSource,
            addr: lowest_read(&ranges, src),
        });
    }
    Ok(())
}
