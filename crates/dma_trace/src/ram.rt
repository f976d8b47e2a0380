//! RAM at the ranges that a program reads, writes and sets to 0.

ghost use Rattle.std.specs.Prelude.{◌≡◌, ◌+◌, ◌≤◌, ◌++◌, ◌∷◌, [], ◌||◌, ℕ, All, IfOk, IfSome, None, IsTrue, map, max, replicate};
ghost use Rattle.std.specs.List.Sorted.{IsNonDecreasingBy, IsPermutation};
ghost use Rattle.dma_mem.specs.declared.segment.Segment.{Segment};
ghost use Rattle.dma_mem.specs.Lent.{lies_in_any};
ghost use Rattle.dma_mem.specs.Marking.{lies_in};
ghost use Rattle.dma_mem.specs.Places.{end_of_addresses};
ghost use Rattle.dma_mem.specs.Refusals.{total};
ghost use Rattle.dma_mem.specs.Regions.{in_order, pieces_of};
ghost use Rattle.dma_trace.specs.Found.{ranges_of, zero_piece};

use dma_explain::explain::Explained;
use dma_mem::ordered::sort_by_address;
use dma_mem::regions::Region;
use dma_mem::segment::Segment;
use std::alloc::{AllocError, Global};

// Returns the ranges that a program reads, writes and sets to 0, sorted by their first addresses.
fn sorted_ranges(alloc: Global, found: &Explained) -> Result<Vec<Segment>, AllocError>
    ensures same { IfOk result (λ sorted. IsPermutation (ranges_of found.now) sorted.items) }
    ensures rising { IfOk result (λ sorted.
        IsNonDecreasingBy (λ (s : Segment). s.addr) sorted.items) }
{
    let mut ranges = Vec::with_capacity(alloc, found.src.len())?;
    for item in &found.src {
        ranges.push(Segment {
            addr: item.addr,
            len: item.len,
        })?;
    }
    ranges.extend_from_slice(&found.dst)?;
    ranges.extend_from_slice(&found.zeros)?;
    sort_by_address(&mut ranges);
    Ok(ranges)
}

// Returns two ranges as one, or `None` if it is all addresses. The second begins in the first one or where that ends.
fn joined(range: Segment, next: Segment) -> Option<Segment>
    requires rises { range.addr ≤ next.addr }
    ensures start { IfSome result (λ all. all.addr ≡ range.addr) }
    ensures end { IfSome result (λ all.
        all.addr + all.len ≡ max (range.addr + range.len) (next.addr + next.len)) }
    ensures whole { result ≡ None → range.addr + end_of_addresses
        ≤ max (range.addr + range.len) (next.addr + next.len) }
{
    let end = range.end().max(next.end());
    match u32::try_from(end - u64::from(range.addr)) {
        Ok(len) => Some(Segment {
            addr: range.addr,
            len,
        }),
        Err(_) => None,
    }
}

// Adds a range to ranges in order, whose last one is not in the list yet, and returns the new last one. The range
// doesn't begin below the old one.
fn add_range(ranges: &mut Vec<Segment>, last: Segment, next: Segment) -> Result<Segment, AllocError>
    requires order { IsTrue (in_order (map zero_piece (ranges.old.items ++ last ∷ []))) }
    requires rises { last.addr ≤ next.addr }
    requires within { next.addr + next.len ≤ end_of_addresses }
    requires last { last.addr + last.len ≤ end_of_addresses }
    ensures order { IfOk result (λ now.
        IsTrue (in_order (map zero_piece (ranges.new.items ++ now ∷ [])))) }
    ensures places { IfOk result (λ now. (a : ℕ) → lies_in_any (ranges.new.items ++ now ∷ []) a
        ≡ (lies_in_any (ranges.old.items ++ last ∷ []) a || lies_in a next)) }
    ensures low { IfOk result (λ now. now.addr ≤ next.addr) }
    ensures within { IfOk result (λ now. now.addr + now.len ≤ end_of_addresses) }
{
    if last.end() < u64::from(next.addr) {
        ranges.push(last)?;
        return Ok(next);
    }
    if let Some(all) = joined(last, next) {
        return Ok(all);
    }
    // Both are all addresses: the last one is cut where the next one begins.
    ranges.push(Segment {
        addr: last.addr,
        len: next.addr - last.addr,
    })?;
    Ok(next)
}

// Returns the addresses of ranges that are sorted by their first addresses, as ranges in order that share none.
fn merged(alloc: Global, sorted: &[Segment]) -> Result<Vec<Segment>, AllocError>
    requires rising { IsNonDecreasingBy (λ (s : Segment). s.addr) sorted.now }
    requires within { All (λ s. s.addr + s.len ≤ end_of_addresses) sorted.now }
    ensures order { IfOk result (λ ranges. IsTrue (in_order (map zero_piece ranges.items))) }
    ensures places { IfOk result (λ ranges. (a : ℕ) →
        lies_in_any ranges.items a ≡ lies_in_any sorted.now a) }
{
    let mut ranges = Vec::new(alloc);
    if sorted.is_empty() {
        return Ok(ranges);
    }
    let mut last = sorted[0];
    for range in sorted {
        last = add_range(&mut ranges, last, *range)?;
    }
    ranges.push(last)?;
    Ok(ranges)
}

/// Returns the addresses that a program reads, writes and sets to 0, as ranges in order that share none.
pub fn ranges_found(alloc: Global, found: &Explained) -> Result<Vec<Segment>, AllocError>
    requires { All (λ s. s.addr + s.len ≤ end_of_addresses) (ranges_of found.now) }
    ensures order { IfOk result (λ ranges. IsTrue (in_order (map zero_piece ranges.items))) }
    ensures places { IfOk result (λ ranges. (a : ℕ) →
        lies_in_any ranges.items a ≡ lies_in_any (ranges_of found.now) a) }
{
    let sorted = sorted_ranges(alloc, found)?;
    merged(alloc, &sorted)
}

// Returns how many bytes ranges have, or `None` if they are too many.
fn total_len(ranges: &[Segment]) -> Option<usize>
    ensures { IfSome result (λ len. len ≡ total ranges.now) }
{
    let mut len = 0usize;
    for range in ranges {
        len = len.checked_add(range.len as usize)?;
    }
    Some(len)
}

/// Returns the bytes of ranges, which are 0.
pub fn zeros_at(alloc: Global, ranges: &[Segment]) -> Result<Vec<u8>, AllocError>
    ensures { IfOk result (λ bytes. bytes.items ≡ replicate (total ranges.now) 0) }
{
    let Some(len) = total_len(ranges) else {
        return Err(AllocError);
    };
    Ok(vec![in alloc; 0u8; len]?)
}

/// Returns regions at these ranges, over bytes that are 0.
pub fn regions_over<'a>(
    alloc: Global,
    ranges: &[Segment],
    bytes: &'a mut [u8],
) -> Result<Vec<Region<'a>>, AllocError>
    requires { bytes.old ≡ replicate (total ranges.now) 0 }
    ensures zeros { IfOk result (λ regions.
        pieces_of regions.items ≡ map zero_piece ranges.now) }
    ensures writable { IfOk result (λ regions. All (λ r. r.read_only ≡ 0) regions.items) }
{
    let mut regions = Vec::with_capacity(alloc, ranges.len())?;
    let mut rest = bytes;
    for range in ranges {
        let (front, back) = rest.split_at_mut(range.len as usize);
        regions.push(Region {
            addr: range.addr,
            bytes: front,
            read_only: 0,
        })?;
        rest = back;
    }
    Ok(regions)
}
