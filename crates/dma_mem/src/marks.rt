//! Ranges of a memory that are marked as failing.

ghost use Rattle.std.specs.Prelude.{◌≡◌, ◌+◌, ◌≤◌, ◌<◌, ◌∷◌, ◌++◌, [], IsTrue, IfOk, OnOk, OnErr};
ghost use Rattle.std.specs.List.{list_any, range_with_len};
ghost use Rattle.dma_mem.specs.Meeting.{hits};
ghost use Rattle.dma_mem.specs.Marking.{NoneMarked, is_marked};
ghost use Rattle.dma_mem.specs.inner.MarkRanges.{AreRangesOf};

use crate::no_memory::NoMemory;
use crate::ordered::{add_in_order, clear_of_ordered, meets_ordered};
use crate::segment::Segment;
use std::alloc::Global;
use std::marker::Model;

/// Whether loads or stores fail at a mark. Tests of drivers set marks to see how a driver treats a failed transfer.
#[derive(Clone, Copy, Debug, PartialEq, Eq)]
pub enum MarkKind {
    Reading,
    Writing,
}

/// Segments at which bursts fail (profile). Contracts see the marks in the order in which they were added.
///
/// Beside the list it keeps the marked addresses of each kind as ordered ranges, for a binary search.
#[derive(Drop)]
pub struct Marks {
    list: Vec<(MarkKind, Segment)>,
    reading: Vec<Segment>,
    writing: Vec<Segment>,
}

impl Model for Marks {
    ghost use Rattle.std.specs.Prelude.{List};
    ghost use Rattle.dma_mem.specs.declared.segment.Segment.{Segment};
    ghost use Rattle.dma_mem.specs.declared.marks.MarkKind.{MarkKind};

    ghost Value = { List (MarkKind × Segment) };

    ghost use Rattle.dma_mem.specs.inner.MarkRanges.{RangesOfMarks};

    ghost view = { λ m. m.list.items };

    ghost invariant = { λ m. RangesOfMarks m.list.items m.reading.items m.writing.items };
}

impl Marks {
    /// Returns an empty list of marks, without allocating.
    pub fn new(alloc: Global) -> Marks
        ensures { result ≡ [] }
    {
        Marks {
            list: Vec::new(alloc),
            reading: Vec::new(alloc),
            writing: Vec::new(alloc),
        }
    }

    /// Adds a mark. If memory runs out, it fails with `NoMemory` and the marks are unchanged.
    pub fn add(&mut self, kind: MarkKind, segment: Segment) -> Result<(), NoMemory>
        ensures ok { OnOk result (self.new ≡ self.old ++ (kind, segment) ∷ []) }
        ensures err { OnErr result (self.new ≡ self.old) }
    {
        self.list.reserve(1)?;
        match kind {
            MarkKind::Reading => add_in_order(&mut self.reading, segment)?,
            MarkKind::Writing => add_in_order(&mut self.writing, segment)?,
        }
        self.list.push_reserved((kind, segment));
        Ok(())
    }

    /// Returns a copy of the marks. Fails with `NoMemory` if memory runs out.
    pub fn try_copy(&self) -> Result<Marks, NoMemory>
        ensures { IfOk result (λ copy. copy ≡ self.now) }
    {
        let alloc = *self.list.allocator();
        Ok(Marks {
            list: Vec::from_slice(alloc, &self.list)?,
            reading: Vec::from_slice(alloc, &self.reading)?,
            writing: Vec::from_slice(alloc, &self.writing)?,
        })
    }

    /// Removes all marks and frees their memory.
    pub fn clear(&mut self)
        ensures { self.new ≡ [] }
    {
        *self = Marks::new(*self.list.allocator());
    }

    // Returns the addresses of the marks of a kind, as ranges in order.
    fn ranges(&self, kind: MarkKind) -> &[Segment]
        ensures { AreRangesOf kind self.now result.now }
    {
        match kind {
            MarkKind::Reading => &self.reading,
            MarkKind::Writing => &self.writing,
        }
    }

    /// Returns whether a mark of the kind meets the segment: whether an address of the segment lies in such a mark.
    #[inline(always)]
    pub fn hits(&self, kind: MarkKind, segment: Segment) -> bool
        ensures meets { result ≡ hits kind self.now segment }
        ensures addresses { result
            ≡ list_any (is_marked kind self.now) (range_with_len segment.addr segment.len) }
    {
        meets_ordered(self.ranges(kind), segment)
    }

    /// Returns how many addresses of the segment come before the first one in a mark of the kind, or the segment's
    /// length if none is in such a mark.
    pub fn unmarked(&self, kind: MarkKind, segment: Segment) -> u32
        ensures few { result ≤ segment.len }
        ensures none { NoneMarked kind self.now segment.addr result }
        ensures next { result < segment.len
            → IsTrue (is_marked kind self.now (segment.addr + result)) }
    {
        clear_of_ordered(self.ranges(kind), segment)
    }
}
