//! Transfers from one list of segments to another.

ghost use Rattle.std.specs.Prelude.{◌≡◌, ◌+◌, ◌<◌, ◌≤◌, ◌↔◌, All, IsTrue, IfOk, IfErr, MatchResult, length, slice_get, unwrap_or};
ghost use Rattle.dma_mem.specs.Limits.{most_transfer_bytes};
ghost use Rattle.dma_mem.specs.Places.{Descriptor, copying, filling, end_of_addresses, places, sources, destinations, size_of, lies_below, all_below, touches, writes, is_free_of};
ghost use Rattle.dma_mem.specs.Meeting.{meets, IsFree};
ghost use Rattle.dma_mem.specs.declared.segment.Segment.{Segment};
ghost use Rattle.dma_mem.specs.Rules.{IsTransfer};
ghost use Rattle.dma_mem.specs.inner.SourceSegments.{segments_of, is_place};
ghost use Rattle.dma_mem.specs.Refusals.{refusal_of};

pub(crate) mod rules;

use crate::limits::{LAST_EVENT, MAX_SEGMENTS, MAX_TRANSFER_BYTES};
use crate::lists::Segments;
use crate::no_memory::NoMemory;
use crate::segment::Segment;
use crate::transfer::rules::{Totals, checked_fill, checked_len, meets_any, meets_one};
use std::alloc::{AllocError, Global};
use std::marker::Model;
use thiserror::Error;

/// Why a transfer is refused, in the order in which the rules are tested.
#[derive(Clone, Copy, Debug, PartialEq, Eq, Error)]
pub enum TransferFault {
    #[error("a list has no segment")]
    EmptyList,
    #[error("a list has more than {} segments", MAX_SEGMENTS)]
    TooManySegments,
    #[error("a segment is empty")]
    EmptySegment,
    #[error("a segment ends above the last address")]
    SegmentWraps,
    #[error("the lists have different lengths")]
    TotalsDiffer,
    #[error("the lists have more than {} bytes", MAX_TRANSFER_BYTES)]
    TooLong,
    #[error("two destination segments meet")]
    DestinationsMeet,
    #[error("a source segment meets a destination segment")]
    SourceMeetsDestination,
    #[error("an event is above {}", LAST_EVENT)]
    BadEvent,
    #[error("out of memory")]
    NoMemory,
}

// Where a transfer reads: the places of a list, or the one place of a fill. The one-byte segment of a fill is kept in
// the variant, so that a fill allocates nothing for it.
#[derive(Drop)]
enum SourceSegments {
    List(Segments),
    Place(Segment),
}

impl SourceSegments {
    // Returns the segments, in order.
    fn as_slice(&self) -> &[Segment]
        ensures { result.now ≡ segments_of self.now }
    {
        match self {
            SourceSegments::List(segments) => segments.as_slice(),
            SourceSegments::Place(segment) => std::slice::from_ref(segment),
        }
    }

    // Returns whether it is the one place of a fill.
    fn is_place(&self) -> bool
        ensures { result ≡ is_place self.now }
    {
        matches!(self, SourceSegments::Place(_))
    }

    // Returns a copy.
    fn try_copy(&self) -> Result<SourceSegments, AllocError>
        ensures { IfOk result (λ copy. copy ≡ self.now) }
    {
        Ok(match self {
            SourceSegments::List(segments) => SourceSegments::List(segments.try_copy()?),
            SourceSegments::Place(segment) => SourceSegments::Place(*segment),
        })
    }
}

/// What is copied from where to where, the event that is waited for first, and the event that is signalled last.
///
/// The places of a list are the addresses of its segments in rising order, segment after segment. Position p of the
/// sources is copied to position p of the destinations. A fill has one source byte, which is copied to every
/// destination.
#[derive(Drop)]
pub struct Transfer {
    src: SourceSegments,
    dst: Segments,
    wait: Option<u8>,
    signal: Option<u8>,
    len: u32,
}

impl Model for Transfer {
    ghost use Rattle.std.specs.Prelude.{◌≡◌};
    ghost use Rattle.dma_mem.specs.Places.{Descriptor, size_of};

    ghost Value = { Descriptor };

    ghost use Rattle.dma_mem.specs.Rules.{IsTransfer};
    ghost use Rattle.dma_mem.specs.inner.SourceSegments.{descriptor_of};

    ghost view = { λ t. descriptor_of t.src t.dst t.wait t.signal };

    ghost invariant = { λ t. IsTransfer (descriptor_of t.src t.dst t.wait t.signal)
        × (t.len ≡ size_of (descriptor_of t.src t.dst t.wait t.signal)) };
}

// Returns the place at a position of a list, or `None` past its end.
#[tactic(auto, using(crate::proofs::PlaceAt::place_within, crate::proofs::PlaceAt::place_past))]
fn place_at(list: &[Segment], position: u32) -> Option<u32>
    requires { All (λ s. s.addr + s.len ≤ end_of_addresses) list.now }
    ensures { result ≡ slice_get (places list.now) position }
{
    let mut left = position;
    for s in list {
        if left < s.len {
            return Some(s.addr + left);
        }
        left -= s.len;
    }
    None
}

// Returns whether each segment of the list ends at or below the size.
fn all_below(list: &[Segment], size: u32) -> bool
    ensures { result ≡ all_below list.now size }
{
    list.iter().all(|s| s.end() <= u64::from(size))
}

// Returns a copy of the list.
fn copied(alloc: Global, list: &[Segment]) -> Result<Segments, TransferFault>
    ensures { MatchResult result (λ copy. copy ≡ list.now)
        (λ fault. fault ≡ TransferFault.NoMemory) }
{
    Segments::from_slice(alloc, list).map_err(|_| TransferFault::NoMemory)
}

impl Transfer {
    /// Returns a transfer from the places of `src` to those of `dst`. It waits for event `wait` before its first byte
    /// and signals event `signal` after its last one.
    ///
    /// The error is the first that applies; each is tested over the sources and then the destinations before the next:
    /// `EmptyList`; `TooManySegments` for more than [`MAX_SEGMENTS`]; `EmptySegment`; `SegmentWraps` if a segment ends
    /// above 2^32; `TotalsDiffer` if the lists have different numbers of bytes; `TooLong` for more than
    /// [`MAX_TRANSFER_BYTES`]; `DestinationsMeet`; `SourceMeetsDestination`; `BadEvent` for an event above
    /// [`LAST_EVENT`]; and last `NoMemory`. Source segments may meet each other.
    #[tactic(auto, using(crate::proofs::TransferRules::copy_from_no_refusal, crate::proofs::TransferRules::length_places))]
    pub fn new(
        alloc: Global,
        src: &[Segment],
        dst: &[Segment],
        wait: Option<u8>,
        signal: Option<u8>,
    ) -> Result<Transfer, TransferFault>
        ensures ok { IfOk result (λ t. t ≡ copying src.now dst.now wait signal) }
        ensures accepted { IfOk result (λ t. refusal_of t ≡ None) }
        ensures rules { IfOk result (λ t. IsTransfer t) }
        ensures err { IfErr result (λ fault. fault ≡ unwrap_or
            (refusal_of (copying src.now dst.now wait signal)) TransferFault.NoMemory) }
    {
        let len = checked_len(Totals::Same, src, dst, wait, signal)?;
        let src = copied(alloc, src)?;
        let dst = copied(alloc, dst)?;
        Ok(Transfer {
            src: SourceSegments::List(src),
            dst,
            wait,
            signal,
            len,
        })
    }

    /// Does the same as [`Transfer::new`] with lists that it takes over, and allocates nothing. The errors are those of
    /// [`Transfer::new`] in their order, without `NoMemory`.
    #[tactic(auto, using(crate::proofs::TransferRules::copy_from_no_refusal, crate::proofs::TransferRules::length_places))]
    pub fn from_lists(
        src: Segments,
        dst: Segments,
        wait: Option<u8>,
        signal: Option<u8>,
    ) -> Result<Transfer, TransferFault>
        ensures ok { IfOk result (λ t. t ≡ copying src dst wait signal) }
        ensures accepted { IfOk result (λ t. refusal_of t ≡ None) }
        ensures rules { IfOk result (λ t. IsTransfer t) }
        ensures err { IfErr result
            (λ fault. refusal_of (copying src dst wait signal) ≡ Some fault) }
    {
        let len = checked_len(Totals::Same, src.as_slice(), dst.as_slice(), wait, signal)?;
        Ok(Transfer {
            src: SourceSegments::List(src),
            dst,
            wait,
            signal,
            len,
        })
    }

    /// Returns a fill: a transfer of the byte at `src` to every place of `dst`. It waits for event `wait` before its
    /// first byte and signals event `signal` after its last one.
    ///
    /// The error is the first that applies, in the order of [`Transfer::new`], but each is tested over `dst` alone, and
    /// there is no `TotalsDiffer`. `SourceMeetsDestination` means that `src` is a place of `dst`.
    pub fn fill(
        alloc: Global,
        src: u32,
        dst: &[Segment],
        wait: Option<u8>,
        signal: Option<u8>,
    ) -> Result<Transfer, TransferFault>
        ensures ok { IfOk result (λ t. t ≡ filling src dst.now wait signal) }
        ensures accepted { IfOk result (λ t. refusal_of t ≡ None) }
        ensures rules { IfOk result (λ t. IsTransfer t) }
        ensures err { IfErr result (λ fault. fault ≡ unwrap_or
            (refusal_of (filling src dst.now wait signal)) TransferFault.NoMemory) }
    {
        let len = checked_fill(src, dst, wait, signal)?;
        let list = copied(alloc, dst)?;
        Ok(Transfer {
            src: SourceSegments::Place(Segment { addr: src, len: 1 }),
            dst: list,
            wait,
            signal,
            len,
        })
    }

    /// Does the same as [`Transfer::fill`] with a list that it takes over, and allocates nothing. The errors are those
    /// of [`Transfer::fill`] in their order, without `NoMemory`.
    pub fn fill_list(
        src: u32,
        dst: Segments,
        wait: Option<u8>,
        signal: Option<u8>,
    ) -> Result<Transfer, TransferFault>
        ensures ok { IfOk result (λ t. t ≡ filling src dst wait signal) }
        ensures accepted { IfOk result (λ t. refusal_of t ≡ None) }
        ensures rules { IfOk result (λ t. IsTransfer t) }
        ensures err { IfErr result
            (λ fault. refusal_of (filling src dst wait signal) ≡ Some fault) }
    {
        let len = checked_fill(src, dst.as_slice(), wait, signal)?;
        Ok(Transfer {
            src: SourceSegments::Place(Segment { addr: src, len: 1 }),
            dst,
            wait,
            signal,
            len,
        })
    }

    /// Returns whether it is a fill, which copies one byte to every destination.
    pub fn is_fill(&self) -> bool
        ensures fill { result ≡ self.now.fill }
        ensures rules { IsTransfer self.now }
    {
        self.src.is_place()
    }

    /// Returns the source segments, in order. A fill has one segment, of one byte.
    pub fn src(&self) -> &[Segment]
        ensures segments { result.now ≡ self.now.src }
        ensures rules { IsTransfer self.now }
    {
        self.src.as_slice()
    }

    /// Returns the destination segments, in order.
    pub fn dst(&self) -> &[Segment]
        ensures segments { result.now ≡ self.now.dst }
        ensures rules { IsTransfer self.now }
    {
        self.dst.as_slice()
    }

    /// Returns the event that it waits for before its first byte, or `None` if it doesn't wait.
    pub fn wait(&self) -> Option<u8>
        ensures { result ≡ self.now.wait }
    {
        self.wait
    }

    /// Returns the event that it signals after its last byte, or `None` if it signals none.
    pub fn signal(&self) -> Option<u8>
        ensures { result ≡ self.now.signal }
    {
        self.signal
    }

    /// Returns the number of bytes that it copies, 1 to [`MAX_TRANSFER_BYTES`].
    pub fn len(&self) -> u32
        ensures size { result ≡ size_of self.now }
        ensures sources { result ≡ length (sources self.now) }
        ensures low { 1 ≤ result }
        ensures high { result ≤ most_transfer_bytes }
        ensures rules { IsTransfer self.now }
    {
        self.len
    }

    /// Returns the address that position `position` is read from, or `None` at or past the length. A fill reads the
    /// same address at each position.
    #[tactic(auto, using(crate::proofs::TransferRules::place_of_fill))]
    pub fn src_place(&self, position: u32) -> Option<u32>
        ensures { result ≡ slice_get (sources self.now) position }
    {
        let Transfer { src, len, .. } = self;
        match src {
            SourceSegments::List(list) => place_at(list.as_slice(), position),
            SourceSegments::Place(byte) => (position < *len).then_some(byte.addr),
        }
    }

    /// Returns the address that position `position` is written to, or `None` at or past the length.
    pub fn dst_place(&self, position: u32) -> Option<u32>
        ensures { result ≡ slice_get (destinations self.now) position }
    {
        place_at(self.dst(), position)
    }

    /// Returns whether all its segments end at or below `size`, as a memory of that size requires.
    pub fn lies_below(&self, size: u32) -> bool
        ensures below { result ≡ lies_below self.now size }
        ensures rules { IsTransfer self.now }
    {
        all_below(self.src(), size) && all_below(self.dst(), size)
    }

    /// Returns whether a source or a destination segment meets this one.
    #[tactic(auto, using(crate::proofs::TransferRules::touches_lists))]
    pub fn touches(&self, segment: Segment) -> bool
        ensures { result ≡ touches self.now segment }
    {
        self.writes(segment) || meets_one(segment, self.src())
    }

    /// Returns whether a destination segment meets this one.
    pub fn writes(&self, segment: Segment) -> bool
        ensures { result ≡ writes self.now segment }
    {
        meets_one(segment, self.dst())
    }

    /// Returns whether its destinations meet no segment of the other, and its sources no destination of the other.
    pub fn is_free_of(&self, other: &Transfer) -> bool
        ensures value { result ≡ is_free_of self.now other.now }
        ensures fact { IsTrue result ↔ IsFree self.now other.now }
    {
        !meets_any(self.dst(), other.dst())
            && !meets_any(self.dst(), other.src())
            && !meets_any(self.src(), other.dst())
    }

    /// Returns a copy of the transfer. Fails with `NoMemory` if memory runs out.
    pub fn try_copy(&self) -> Result<Transfer, NoMemory>
        ensures { IfOk result (λ copy. copy ≡ self.now) }
    {
        Ok(Transfer {
            src: self.src.try_copy()?,
            dst: self.dst.try_copy()?,
            wait: self.wait,
            signal: self.signal,
            len: self.len,
        })
    }
}
