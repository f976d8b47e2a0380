//! A range of addresses.

ghost use Rattle.std.specs.Prelude.{◌≡◌, ◌+◌, ◌<◌, ◌↔◌, All, IsTrue, nat_lt};
ghost use Rattle.std.specs.List.Sorted.{IsNonDecreasingBy};
ghost use Rattle.dma_mem.specs.declared.segment.Segment.{Segment};
ghost use Rattle.dma_mem.specs.Meeting.{Meets, meets};
ghost use Rattle.dma_mem.specs.Places.{end_of_addresses};
ghost use Rattle.dma_mem.specs.Refusals.{some_meet};

/// The end of the 32-bit addresses (PL330 manual, SAR and DAR).
const END_OF_ADDRESSES: u64 = 4_294_967_296;

/// The addresses from `addr` up to, but not including, `addr + len`. The sum doesn't wrap.
#[repr(C)]
#[derive(Clone, Copy, Debug, PartialEq, Eq)]
pub struct Segment {
    /// The first address.
    pub addr: u32,
    /// The number of bytes, which may be 0.
    pub len: u32,
}

impl Segment {
    /// Returns the address after the last one. The sum doesn't wrap.
    pub fn end(self) -> u64
        ensures { result ≡ self.addr + self.len }
    {
        u64::from(self.addr) + u64::from(self.len)
    }

    /// Returns whether it ends above 2^32.
    pub fn wraps(self) -> bool
        ensures { result ≡ nat_lt end_of_addresses (self.addr + self.len) }
    {
        self.end() > END_OF_ADDRESSES
    }
}

/// Returns whether two segments share an address. An empty segment meets nothing.
pub fn meets(a: Segment, b: Segment) -> bool
    ensures value { result ≡ meets a b }
    ensures fact { IsTrue result ↔ Meets a b }
{
    if a.len == 0 || b.len == 0 {
        return false;
    }
    u64::from(a.addr) < b.end() && u64::from(b.addr) < a.end()
}

/// Returns whether two of the segments meet. They are sorted by their first addresses, so two neighbours meet then.
pub fn neighbours_meet(sorted: &[Segment]) -> bool
    requires filled { All (λ s. 0 < s.len) sorted.now }
    requires rising { IsNonDecreasingBy (λ (s : Segment). s.addr) sorted.now }
    ensures { result ≡ some_meet sorted.now }
{
    for next in 1..sorted.len() {
        if u64::from(sorted[next].addr) < sorted[next - 1].end() {
            return true;
        }
    }
    false
}
