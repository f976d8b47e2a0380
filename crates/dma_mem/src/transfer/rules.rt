//! The rules of a transfer, tested one after another.

ghost use Rattle.std.specs.Prelude.{◌≡◌, ◌<◌, ◌≤◌, All, MatchResult, length};
ghost use Rattle.dma_mem.specs.Limits.{most_segments};
ghost use Rattle.dma_mem.specs.Places.{Descriptor, filling};
ghost use Rattle.dma_mem.specs.Meeting.{meets};
ghost use Rattle.std.specs.List.{list_any};
ghost use Rattle.dma_mem.specs.declared.segment.Segment.{Segment};
ghost use Rattle.dma_mem.specs.inner.Checking.{may_differ};
ghost use Rattle.dma_mem.specs.Refusals.{refusal_of, overlap_of, total, meets_any, has_empty_segment, has_wrapping_segment, is_bad_event};

use crate::limits::{LAST_EVENT, MAX_SEGMENTS, MAX_TRANSFER_BYTES};
use crate::ordered::{any_meets_ordered, sort_by_address};
use crate::segment::{Segment, meets, neighbours_meet};
use crate::transfer::TransferFault;

// Returns whether a segment of the list has no byte.
fn has_empty_segment(list: &[Segment]) -> bool
    ensures { result ≡ has_empty_segment list.now }
{
    list.iter().any(|s| s.len == 0)
}

// Returns whether a segment of the list ends above 2^32.
fn has_wrapping_segment(list: &[Segment]) -> bool
    ensures { result ≡ has_wrapping_segment list.now }
{
    list.iter().any(|s| s.wraps())
}

// Returns how many bytes a list has.
fn total(list: &[Segment]) -> u64
    requires { length list.now ≤ most_segments }
    ensures { result ≡ total list.now }
{
    list.iter().map(|s| u64::from(s.len)).sum()
}

// Returns whether the segment meets one of the others.
pub(crate) fn meets_one(s: Segment, others: &[Segment]) -> bool
    ensures { result ≡ list_any (meets s) others.now }
{
    others.iter().any(|other| meets(s, *other))
}

// Returns whether a segment of the list meets one of the others.
pub(crate) fn meets_any(list: &[Segment], others: &[Segment]) -> bool
    ensures { result ≡ meets_any list.now others.now }
{
    list.iter().any(|s| meets_one(*s, others))
}

// Returns how the lists overlap: two destinations meet, or else a source meets a destination. The destinations are
// sorted on the stack, so nothing is allocated and each source needs only a binary search.
fn overlap_of_many(src: &[Segment], dst: &[Segment]) -> Option<TransferFault>
    requires few { length dst.now ≤ most_segments }
    requires filled { All (λ s. 0 < s.len) dst.now }
    ensures { result ≡ overlap_of src.now dst.now }
{
    let mut room = [Segment { addr: 0, len: 0 }; MAX_SEGMENTS];
    let sorted = &mut room[..dst.len()];
    sorted.copy_from_slice(dst);
    sort_by_address(sorted);
    if neighbours_meet(sorted) {
        Some(TransferFault::DestinationsMeet)
    } else if any_meets_ordered(sorted, src) {
        Some(TransferFault::SourceMeetsDestination)
    } else {
        None
    }
}

// Returns the same as `overlap_of_many`, but doesn't sort a list of one destination.
#[tactic(auto, using(crate::proofs::NeighboursMeet::overlap_one))]
fn overlap(src: &[Segment], dst: &[Segment]) -> Option<TransferFault>
    requires few { length dst.now ≤ most_segments }
    requires filled { All (λ s. 0 < s.len) dst.now }
    ensures { result ≡ overlap_of src.now dst.now }
{
    if dst.len() > 1 {
        return overlap_of_many(src, dst);
    }
    meets_any(src, dst).then_some(TransferFault::SourceMeetsDestination)
}

// Returns whether the event is above [`LAST_EVENT`].
fn is_bad_event(event: Option<u8>) -> bool
    ensures { result ≡ is_bad_event event }
{
    matches!(event, Some(e) if e > LAST_EVENT)
}

// Whether the two lists of a transfer must have the same number of bytes. Those of a copy must; a fill copies one byte
// to any number of destinations.
#[derive(Clone, Copy)]
pub(crate) enum Totals {
    Same,
    Any,
}

// Returns how many bytes a copy or a fill of these lists writes, or the first refusal that applies.
pub(crate) fn checked_len(
    totals: Totals,
    src: &[Segment],
    dst: &[Segment],
    wait: Option<u8>,
    signal: Option<u8>,
) -> Result<u32, TransferFault>
    ensures { let t : Descriptor = record {
      fill = may_differ totals;
      src = src.now;
      dst = dst.now;
      wait = wait;
      signal = signal;
    } in
        MatchResult result (λ len. (refusal_of t ≡ None) × (len ≡ total dst.now))
        (λ fault. refusal_of t ≡ Some fault) }
{
    if src.is_empty() || dst.is_empty() {
        return Err(TransferFault::EmptyList);
    }
    if src.len() > MAX_SEGMENTS || dst.len() > MAX_SEGMENTS {
        return Err(TransferFault::TooManySegments);
    }
    if has_empty_segment(src) || has_empty_segment(dst) {
        return Err(TransferFault::EmptySegment);
    }
    if has_wrapping_segment(src) || has_wrapping_segment(dst) {
        return Err(TransferFault::SegmentWraps);
    }
    let len = total(dst);
    if matches!(totals, Totals::Same) && total(src) != len {
        return Err(TransferFault::TotalsDiffer);
    }
    if len > u64::from(MAX_TRANSFER_BYTES) {
        return Err(TransferFault::TooLong);
    }
    if let Some(fault) = overlap(src, dst) {
        return Err(fault);
    }
    if is_bad_event(wait) || is_bad_event(signal) {
        return Err(TransferFault::BadEvent);
    }
    Ok(len as u32)
}

// Returns how many bytes a fill of these destinations writes, or the first refusal that applies.
pub(crate) fn checked_fill(
    src: u32,
    dst: &[Segment],
    wait: Option<u8>,
    signal: Option<u8>,
) -> Result<u32, TransferFault>
    ensures { let t = filling src dst.now wait signal in
        MatchResult result (λ len. (refusal_of t ≡ None) × (len ≡ total dst.now))
        (λ fault. refusal_of t ≡ Some fault) }
{
    let byte = Segment { addr: src, len: 1 };
    checked_len(Totals::Any, &[byte], dst, wait, signal)
}
