//! Lists of ranges in order, and the binary search in them.

ghost use Rattle.std.specs.Prelude.{◌≡◌, ◌+◌, ◌<◌, ◌≤◌, ◌∷◌, ◌++◌, false, length, take, drop, IsTrue, OnOk, OnErr};
ghost use Rattle.std.specs.List.{list_any, Contains};
ghost use Rattle.std.specs.List.Sorted.{IsPermutation, IsNonDecreasingBy, IsPartitionPoint};
ghost use Rattle.dma_mem.specs.declared.segment.Segment.{Segment};
ghost use Rattle.dma_mem.specs.Places.{places, range_of, share};
ghost use Rattle.dma_mem.specs.inner.RangesInOrder.{IsOrdered, AddsAddresses, IsClearOf};

use crate::segment::{Segment, meets};
use std::alloc::AllocError;

/// Sorts segments by their first addresses, in place.
pub fn sort_by_address(segments: &mut [Segment])
    ensures same { IsPermutation segments.old segments.new }
    ensures rising { IsNonDecreasingBy (λ (s : Segment). s.addr) segments.new }
{
    segments.sort_unstable_by_key(|segment| segment.addr);
}

// Returns how many of the ranges begin below an address. They are the first ones, since the ranges are in order.
fn begun_below(ranges: &[Segment], addr: u32) -> usize
    requires { IsNonDecreasingBy (λ (r : Segment). r.addr) ranges.now }
    ensures bound { result ≤ length ranges.now }
    ensures first { IsPartitionPoint (λ (r : Segment). r.addr < addr) (λ r. addr ≤ r.addr)
        ranges.now result }
{
    ranges.partition_point(|range| range.addr < addr)
}

// Returns how many of the ranges end at or below an address. They are the first ones, since the ranges are in order.
fn ended_by(ranges: &[Segment], end: u64) -> usize
    requires { IsNonDecreasingBy (λ (r : Segment). r.addr + r.len) ranges.now }
    ensures bound { result ≤ length ranges.now }
    ensures first { IsPartitionPoint (λ (r : Segment). r.addr + r.len ≤ end)
        (λ r. end < r.addr + r.len) ranges.now result }
{
    ranges.partition_point(|range| range.end() <= end)
}

// Returns whether there are no ranges, or the segment lies below the first range or above the last one. It then shares
// no address with a range.
#[inline(always)]
#[tactic(auto, using(crate::proofs::RangeSets::none_at_all, crate::proofs::RangeSets::below_all, crate::proofs::RangeSets::above_all))]
fn lies_outside(ranges: &[Segment], segment: Segment) -> bool
    requires { IsOrdered ranges.now }
    ensures { IsTrue result → share (range_of segment) (places ranges.now) ≡ false }
{
    if ranges.is_empty() {
        return true;
    }
    let first = ranges[0];
    let last = ranges[ranges.len() - 1];
    segment.end() <= u64::from(first.addr) || last.end() <= u64::from(segment.addr)
}

// Returns whether a range shares an address with the segment. If one does, so does the first range that ends above the
// segment's start, which a binary search finds. Not inlined, since the functions above mostly have the answer.
#[inline(never)]
fn meets_by_search(ranges: &[Segment], segment: Segment) -> bool
    requires { IsOrdered ranges.now }
    ensures { result ≡ share (range_of segment) (places ranges.now) }
{
    let first = ended_by(ranges, u64::from(segment.addr));
    first < ranges.len() && meets(segment, ranges[first])
}

// Replaces the ranges from index `first` up to, but not including, `past` by one range. If memory runs out, it fails
// and the ranges are unchanged.
fn replace(
    ranges: &mut Vec<Segment>,
    first: usize,
    past: usize,
    range: Segment,
) -> Result<(), AllocError>
    requires order { first ≤ past }
    requires bound { past ≤ length ranges.old.items }
    ensures ok { OnOk result (ranges.new.items
        ≡ take first ranges.old.items ++ range ∷ drop past ranges.old.items) }
    ensures err { OnErr result (ranges.new.items ≡ ranges.old.items) }
{
    if first == past {
        ranges.insert(first, range)?;
        return Ok(());
    }
    ranges[first] = range;
    drop(ranges.drain(first + 1..past));
    Ok(())
}

/// Adds the addresses of a segment to ordered ranges. The segment replaces the ranges that lie in it. Nothing changes
/// if the segment is empty, or if a range begins below it and ends above it. If memory for one more range runs out, it
/// fails and the ranges are unchanged.
pub fn add_in_order(ranges: &mut Vec<Segment>, segment: Segment) -> Result<(), AllocError>
    requires { IsOrdered ranges.old.items }
    ensures ordered { IsOrdered ranges.new.items }
    ensures ok { OnOk result (AddsAddresses ranges.old.items ranges.new.items segment) }
    ensures err { OnErr result (ranges.new.items ≡ ranges.old.items) }
{
    if segment.len == 0 {
        return Ok(());
    }
    let first = begun_below(ranges, segment.addr);
    let past = ended_by(ranges, segment.end());
    if past < first {
        return Ok(());
    }
    replace(ranges, first, past, segment)
}

/// Returns whether a range shares an address with the segment. The common case, a segment below or above all ranges, is
/// decided inline from the first and the last range; every other case by binary search.
#[inline(always)]
pub fn meets_ordered(ranges: &[Segment], segment: Segment) -> bool
    requires { IsOrdered ranges.now }
    ensures { result ≡ share (range_of segment) (places ranges.now) }
{
    if lies_outside(ranges, segment) {
        return false;
    }
    meets_by_search(ranges, segment)
}

/// Returns, by binary search, how many addresses of the segment come before the first one in a range, or the segment's
/// length if none is in a range.
pub fn clear_of_ordered(ranges: &[Segment], segment: Segment) -> u32
    requires { IsOrdered ranges.now }
    ensures few { result ≤ segment.len }
    ensures clear { IsClearOf ranges.now segment.addr result }
    ensures next { result < segment.len → Contains (places ranges.now) (segment.addr + result) }
{
    let first = ended_by(ranges, u64::from(segment.addr));
    if first >= ranges.len() {
        return segment.len;
    }
    let begin = ranges[first].addr;
    begin.saturating_sub(segment.addr).min(segment.len)
}

/// Returns whether a range shares an address with one of the segments.
pub fn any_meets_ordered(ranges: &[Segment], segments: &[Segment]) -> bool
    requires { IsOrdered ranges.now }
    ensures { result ≡ list_any (λ s. share (range_of s) (places ranges.now)) segments.now }
{
    segments
        .iter()
        .any(|segment| meets_ordered(ranges, *segment))
}
