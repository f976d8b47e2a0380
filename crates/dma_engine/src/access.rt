//! The addresses of running transfers, and what conflicts with them.

ghost use Rattle.std.specs.Prelude.{◌≡◌, true, None, IfOk, IsSomeAnd, OnErr, OnOk};
ghost use Rattle.std.specs.Option.{option_copied};
ghost use Rattle.dma_mem.specs.Places.{Descriptor, lies_below};
ghost use Rattle.dma_engine.specs.inner.Ranges.{HasRangesOf};
ghost use Rattle.dma_engine.specs.inner.Accesses.{conflicts};

use crate::fault::NoMemory;
use dma_mem::range_set::RangeSet;
use dma_mem::segment::Segment;
use dma_mem::transfer::Transfer;
use std::alloc::Global;
use std::marker::Model;

/// An access to memory, which must not conflict with running transfers.
#[derive(Clone, Copy)]
pub enum Access<'a> {
    /// A write of the host to this range. It conflicts with transfers that read or write one of its addresses.
    Write(Segment),
    /// A read of the host from this range. It conflicts with transfers that write one of its addresses.
    Read(Segment),
    /// A checkpoint. It conflicts with every running transfer.
    Checkpoint,
    /// The start of this transfer. It conflicts with transfers that it isn't free of.
    Start(&'a Transfer),
}

impl Access<'_> {
    /// Returns whether a running transfer with these ranges conflicts with `self`.
    // (Not inlined, so that the loop over the running transfers stays small.)
    #[inline(never)]
    pub fn conflicts_with(&self, ranges: &Ranges) -> bool
        ensures { (t : Descriptor) → HasRangesOf ranges.now t
            → result ≡ conflicts self.now t }
    {
        let Ranges {
            sources,
            destinations,
        } = ranges;
        match self {
            Access::Write(range) => destinations.meets(*range) || sources.meets(*range),
            Access::Read(range) => destinations.meets(*range),
            Access::Checkpoint => true,
            Access::Start(transfer) => {
                destinations.meets_any(transfer.dst())
                    || sources.meets_any(transfer.dst())
                    || destinations.meets_any(transfer.src())
            }
        }
    }
}

/// The addresses that a running transfer reads, and those that it writes.
#[derive(Drop)]
pub struct Ranges {
    pub sources: RangeSet,
    pub destinations: RangeSet,
}

/// The addresses of the front of a channel, if it runs. Their memory is kept for the next front.
#[derive(Drop)]
pub struct FrontRanges {
    ranges: Ranges,
    is_running: bool,
}

impl Model for FrontRanges {
    ghost use Rattle.std.specs.Prelude.{Option, Some, None, if◌then◌else◌};
    ghost use Rattle.dma_engine.specs.declared.access.Ranges.{Ranges};

    ghost Value = { Option Ranges };

    ghost view = { λ front. if front.is_running then Some (front.ranges) else None };
}

impl FrontRanges {
    /// Returns the addresses of no front. The error is `NoMemory` if memory runs out.
    pub fn new(alloc: Global) -> Result<FrontRanges, NoMemory>
        ensures { IfOk result (λ front. front ≡ None) }
    {
        let ranges = Ranges {
            sources: RangeSet::new(alloc, &[])?,
            destinations: RangeSet::new(alloc, &[])?,
        };
        Ok(FrontRanges {
            ranges,
            is_running: false,
        })
    }

    /// Returns the addresses, if the front runs.
    pub fn get(&self) -> Option<&Ranges>
        ensures { option_copied result ≡ self.now }
    {
        if self.is_running {
            Some(&self.ranges)
        } else {
            None
        }
    }

    /// Makes them the addresses of a transfer, which runs now and whose segments end at 4,294,967,295 or below. The
    /// error is `NoMemory` if a copy of one of its lists can't be allocated; then no front runs.
    pub fn set(&mut self, transfer: &Transfer) -> Result<(), NoMemory>
        requires { lies_below transfer.now u32.MAX ≡ true }
        ensures set { OnOk result
            (IsSomeAnd self.new (λ ranges. HasRangesOf ranges transfer.now)) }
        ensures err { OnErr result (self.new ≡ None) }
    {
        self.is_running = false;
        self.ranges.sources.set(transfer.src())?;
        self.ranges.destinations.set(transfer.dst())?;
        self.is_running = true;
        Ok(())
    }

    /// Makes them those of no front.
    pub fn clear(&mut self)
        ensures { self.new ≡ None }
    {
        self.is_running = false;
    }
}
