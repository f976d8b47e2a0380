//! The range of addresses that the steps of a call write.

ghost use Rattle.std.specs.Prelude.{◌≡◌, ◌+◌, ◌^◌, ◌≤◌, ◌<◌, IsTrue};
ghost use Rattle.dma_chan.specs.Written.{adjoins, around, joined};
ghost use Rattle.dma_chan.specs.inner.Spans.{IsInReach};

use dma_mem::segment::Segment;

// Returns the length of the smallest range that contains two ranges, neither of which is empty.
fn len_around(a: Segment, b: Segment) -> u64
    ensures { result ≡ (around a b).len }
{
    a.end().max(b.end()) - u64::from(a.addr.min(b.addr))
}

// Returns whether two ranges are one together: they overlap or touch, or one of them is empty. All 2^32 addresses are
// no range.
pub(crate) fn adjoins(a: Segment, b: Segment) -> bool
    ensures { result ≡ adjoins a b }
{
    b.len == 0
        || a.len == 0
        || u64::from(a.addr) <= b.end()
            && u64::from(b.addr) <= a.end()
            && len_around(a, b) <= u64::from(u32::MAX)
}

// Returns whether an address lies in a range or directly behind it, or the range is empty.
pub(crate) fn is_in_reach(range: Segment, addr: u32) -> bool
    ensures reach { IsTrue result → IsInReach range addr }
    ensures small { range.len < 2 ^ 32 }
{
    range.len == 0 || range.addr <= addr && u64::from(addr) <= range.end()
}

/// Returns the smallest range that contains both, which are one together.
pub fn joined(a: Segment, b: Segment) -> Segment
    requires ends { (a.addr + a.len ≤ 2 ^ 32) × (b.addr + b.len ≤ 2 ^ 32) }
    requires one { IsTrue (adjoins a b) }
    ensures range { result ≡ joined a b }
    ensures end { result.addr + result.len ≤ 2 ^ 32 }
{
    if b.len == 0 {
        return a;
    }
    if a.len == 0 {
        return b;
    }
    Segment {
        addr: a.addr.min(b.addr),
        len: len_around(a, b) as u32,
    }
}
