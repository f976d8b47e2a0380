//! Where regions are: the one that has an address or a range, by binary search, and the end of the last one.

ghost use Rattle.std.specs.Prelude.{◌≡◌, ℕ, ◌+◌, ◌≤◌, ◌<◌, false, length, IsTrue};
ghost use Rattle.std.specs.List.Sorted.{IsPartitionPoint};
ghost use Rattle.dma_mem.specs.Lent.{Avoids, barred, lies_in_any};
ghost use Rattle.dma_mem.specs.Regions.{in_order, pieces_of, gaps_of, has, image_of, read_only_of};
ghost use Rattle.dma_mem.specs.inner.Rewritten.{piece_at, Holds};

use crate::marks::MarkKind;
use crate::regions::Region;
use crate::segment::Segment;

// Returns how many regions begin at or below an address. They are the first ones, since the regions are in order.
fn begun_by(regions: &[Region<'_>], addr: u32) -> usize
    requires { IsTrue (in_order (pieces_of regions.now)) }
    ensures bound { result ≤ length regions.now }
    ensures first { IsPartitionPoint (λ (r : Region). r.addr ≤ addr) (λ r. addr < r.addr)
        regions.now result }
{
    regions.partition_point(|region| region.addr <= addr)
}

// Returns the index of the region that has an address, or the number of regions if none has it.
fn place_by_search(regions: &[Region<'_>], addr: u32) -> usize
    requires { IsTrue (in_order (pieces_of regions.now)) }
    ensures within { result ≤ length regions.now }
    ensures before { (k : ℕ) → k < result
        → has addr (piece_at (pieces_of regions.now) k) ≡ false }
    ensures found { result < length regions.now
        → IsTrue (has addr (piece_at (pieces_of regions.now) result)) }
{
    let begun = begun_by(regions, addr);
    if begun == 0 {
        return regions.len();
    }
    let last = &regions[begun - 1];
    if last.has(u64::from(addr)) {
        begun - 1
    } else {
        regions.len()
    }
}

/// Returns the index of the region that has an address, or the number of regions if none has it. The common case, one
/// of the first two regions, is decided first; every other case by binary search.
pub(crate) fn place(regions: &[Region<'_>], addr: u32) -> usize
    requires { IsTrue (in_order (pieces_of regions.now)) }
    ensures within { result ≤ length regions.now }
    ensures before { (k : ℕ) → k < result
        → has addr (piece_at (pieces_of regions.now) k) ≡ false }
    ensures found { result < length regions.now
        → IsTrue (has addr (piece_at (pieces_of regions.now) result)) }
{
    if regions.is_empty() {
        return 0;
    }
    let first = &regions[0];
    if first.has(u64::from(addr)) {
        return 0;
    }
    if regions.len() == 1 {
        return 1;
    }
    let second = &regions[1];
    if second.has(u64::from(addr)) {
        return 1;
    }
    place_by_search(regions, addr)
}

/// Returns the index of the region that has all `len` addresses from `addr` on, or the number of regions if none has
/// them.
pub(crate) fn region_with_range(regions: &[Region<'_>], addr: u32, len: usize) -> usize
    requires { IsTrue (in_order (pieces_of regions.now)) }
    ensures within { result ≤ length regions.now }
    ensures found { result < length regions.now → Holds (pieces_of regions.now) result addr len }
{
    let index = place(regions, addr);
    if index == regions.len() {
        return index;
    }
    let region = &regions[index];
    if len <= region.bytes.len() - (addr - region.addr) as usize {
        index
    } else {
        regions.len()
    }
}

/// Returns whether the region at an index has all `len` addresses from `addr` on.
pub(crate) fn has_range(regions: &[Region<'_>], index: usize, addr: u32, len: usize) -> bool
    requires { index < length regions.now }
    ensures { IsTrue result → Holds (pieces_of regions.now) index addr len }
{
    let region = &regions[index];
    region.has(u64::from(addr)) && len <= region.bytes.len() - (addr - region.addr) as usize
}

// Returns how many addresses of a segment come before the first at which a burst of this kind fails, or the segment's
// length if it fails at none. Bursts fail in gaps, and stores also in read-only regions.
fn clear_by_walk(regions: &[Region<'_>], kind: MarkKind, segment: Segment) -> u32
    requires { IsTrue (in_order (pieces_of regions.now)) }
    ensures few { result ≤ segment.len }
    ensures none { Avoids
        (barred kind (gaps_of (pieces_of regions.now)) (read_only_of regions.now))
        segment.addr result }
    ensures next { result < segment.len → IsTrue (lies_in_any
        (barred kind (gaps_of (pieces_of regions.now)) (read_only_of regions.now))
        (segment.addr + result)) }
{
    let start = u64::from(segment.addr);
    let mut end = 0;
    for index in begun_by(regions, segment.addr).saturating_sub(1)..regions.len() {
        let region = &regions[index];
        let first = start.max(end);
        if first - start >= u64::from(segment.len) {
            return segment.len;
        }
        if region.fails_at(kind, first) {
            return (first - start) as u32;
        }
        end = region.end();
    }
    segment.len
}

/// Returns how many addresses of a segment come before the first at which a burst of this kind fails, or the segment's
/// length if it fails at none. Bursts fail in gaps, and stores also in read-only regions.
/// The common case, a segment in one region, is decided inline.
#[inline(always)]
pub(crate) fn clear_of(regions: &[Region<'_>], kind: MarkKind, segment: Segment) -> u32
    requires { IsTrue (in_order (pieces_of regions.now)) }
    ensures few { result ≤ segment.len }
    ensures none { Avoids
        (barred kind (gaps_of (pieces_of regions.now)) (read_only_of regions.now))
        segment.addr result }
    ensures next { result < segment.len → IsTrue (lies_in_any
        (barred kind (gaps_of (pieces_of regions.now)) (read_only_of regions.now))
        (segment.addr + result)) }
{
    let index = region_with_range(regions, segment.addr, segment.len as usize);
    if index < regions.len() {
        let region = &regions[index];
        if !region.bars(kind) {
            return segment.len;
        }
    }
    clear_by_walk(regions, kind, segment)
}

/// Returns the end of the last region, or 0 if there are no regions.
pub(crate) fn size_of(regions: &[Region<'_>]) -> u64
    requires { IsTrue (in_order (pieces_of regions.now)) }
    ensures { result ≡ length (image_of (pieces_of regions.now)) }
{
    let count = regions.len();
    if count == 0 {
        0
    } else {
        regions[count - 1].end()
    }
}
