//! Sets of addresses as coalesced ranges.

ghost use Rattle.std.specs.Prelude.{◌≡◌, ◌+◌, ◌≤◌, ◌<◌, [], length, All, IsOk, IfOk, OnOk, OnErr};
ghost use Rattle.std.specs.List.Sorted.{IsNonDecreasingBy};
ghost use Rattle.dma_mem.specs.declared.segment.Segment.{Segment};
ghost use Rattle.dma_mem.specs.Places.{places, range_of, share};
ghost use Rattle.dma_mem.specs.Ranges.{IsCoalesced, SameAddresses};
ghost use Rattle.dma_mem.specs.inner.RangesInOrder.{Joins};

use crate::no_memory::NoMemory;
use crate::ordered::{any_meets_ordered, meets_ordered, sort_by_address};
use crate::segment::Segment;
use std::alloc::Global;
use std::marker::Model;

/// A set of addresses, each at most 4,294,967,294. Contracts see it as ranges in rising order, of which no two meet or
/// touch.
#[derive(Drop)]
pub struct RangeSet {
    // The range of a set of one segment, which so needs no memory. The list is then out of use.
    single: Option<Segment>,
    list: Vec<Segment>,
}

impl Model for RangeSet {
    ghost use Rattle.std.specs.Prelude.{List};
    ghost use Rattle.dma_mem.specs.declared.segment.Segment.{Segment};
    ghost use Rattle.dma_mem.specs.Ranges.{IsCoalesced};

    ghost Value = { List Segment };

    ghost use Rattle.dma_mem.specs.inner.KeptRanges.{ranges_of};

    ghost view = { λ set. ranges_of set.single set.list.items };

    ghost invariant = { λ set. IsCoalesced (ranges_of set.single set.list.items) };
}

// Joins segments that meet or touch, in place. They are sorted by their first addresses. Each ends at or below
// 4,294,967,295, so that no sum saturates.
fn coalesce(segments: &mut Vec<Segment>)
    requires filled { All (λ s. 0 < s.len) segments.old.items }
    requires within { All (λ s. s.addr + s.len ≤ u32.MAX) segments.old.items }
    requires rising { IsNonDecreasingBy (λ (s : Segment). s.addr) segments.old.items }
    ensures same { SameAddresses segments.new.items segments.old.items }
    ensures coalesced { IsCoalesced segments.new.items }
{
    segments.dedup_by(
        |next, range|
            ensures { Joins next.old range.old result next.new range.new }
        {
            let end = range.addr.saturating_add(range.len);
            if end < next.addr {
                return false;
            }
            let longer = end.max(next.addr.saturating_add(next.len));
            range.len = longer.saturating_sub(range.addr);
            true
        },
    );
}

impl RangeSet {
    /// Returns the set of the segments' addresses. The segments may be in any order and may meet; each has at least one
    /// byte and ends at or below 4,294,967,295. Fails with `NoMemory` if there is no memory for a copy of the list;
    /// with one segment it never fails.
    pub fn new(alloc: Global, segments: &[Segment]) -> Result<RangeSet, NoMemory>
        requires filled { All (λ s. 0 < s.len) segments.now }
        requires within { All (λ s. s.addr + s.len ≤ u32.MAX) segments.now }
        ensures same { IfOk result (λ set. SameAddresses set segments.now) }
        ensures coalesced { IfOk result (λ set. IsCoalesced set) }
        ensures one { length segments.now ≡ 1 → IsOk result }
    {
        let mut set = RangeSet {
            single: None,
            list: Vec::new(alloc),
        };
        set.set(segments)?;
        Ok(set)
    }

    /// Makes the set that of the segments' addresses, like [`RangeSet::new`], in the memory that it has if that is
    /// enough. If there is no memory for a copy of the list, it fails with `NoMemory` and the set is empty; with one
    /// segment it never fails.
    pub fn set(&mut self, segments: &[Segment]) -> Result<(), NoMemory>
        requires filled { All (λ s. 0 < s.len) segments.now }
        requires within { All (λ s. s.addr + s.len ≤ u32.MAX) segments.now }
        ensures same { OnOk result (SameAddresses self.new segments.now) }
        ensures coalesced { IsCoalesced self.new }
        ensures one { length segments.now ≡ 1 → IsOk result }
        ensures err { OnErr result (self.new ≡ []) }
    {
        if segments.len() == 1 {
            self.single = Some(segments[0]);
            return Ok(());
        }
        self.single = None;
        self.list.clear();
        self.list.extend_from_slice(segments)?;
        sort_by_address(&mut self.list);
        coalesce(&mut self.list);
        Ok(())
    }

    /// Returns the addresses as ranges in rising order, of which no two meet or touch.
    pub fn ranges(&self) -> &[Segment]
        ensures ranges { result.now ≡ self.now }
        ensures coalesced { IsCoalesced self.now }
    {
        match &self.single {
            Some(range) => std::slice::from_ref(range),
            None => self.list.as_slice(),
        }
    }

    /// Returns whether the segment has an address of the set. An empty segment has none.
    #[tactic(auto, using(crate::proofs::RangeSets::ordered_from))]
    pub fn meets(&self, segment: Segment) -> bool
        ensures { result ≡ share (range_of segment) (places self.now) }
    {
        meets_ordered(self.ranges(), segment)
    }

    /// Returns whether one of the segments has an address of the set.
    #[tactic(auto, using(crate::proofs::RangeSets::ordered_from))]
    pub fn meets_any(&self, segments: &[Segment]) -> bool
        ensures { result ≡ share (places segments.now) (places self.now) }
    {
        any_meets_ordered(self.ranges(), segments)
    }
}
