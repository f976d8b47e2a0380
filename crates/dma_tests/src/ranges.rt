//! Which pages of a memory are made, and sets of addresses.

ghost use Rattle.std.specs.Prelude.{◌≡◌};

use dma_mem::memory::Memory;
use dma_mem::range_set::RangeSet;
use dma_mem::segment::Segment;
use std::test::Fail;

fn segment(addr: u32, len: u32) -> Segment
    ensures { result ≡ record { addr = addr; len = len } }
{
    Segment { addr, len }
}

/// `prepare` makes the whole pages in which a range lies, and no page below them.
#[test]
fn whole_pages_are_made(rt: HostRuntime) -> Result<(), Fail> {
    let mut memory = Memory::new(rt.alloc(), 0x4000)?;
    assert!(rt; !memory.made(segment(0x1000, 1)));
    memory.prepare(segment(0x1fff, 2))?;
    assert!(rt; memory.made(segment(0x1000, 8192)));
    assert!(rt; !memory.made(segment(0x0fff, 2)));
    Ok(())
}

/// A set joins ranges that meet or touch. A segment meets it if they share an address, which an empty one doesn't.
#[test]
fn ranges_are_joined(rt: HostRuntime) -> Result<(), Fail> {
    let given = [
        segment(0x10, 4),
        segment(0x12, 4),
        segment(0x20, 2),
        segment(0x16, 2),
    ];
    let set = RangeSet::new(rt.alloc(), &given)?;
    assert!(rt; set.ranges() == [segment(0x10, 8), segment(0x20, 2)].as_slice());
    let rows = [
        (0x17, 1, true),
        (0x1f, 2, true),
        (0x18, 8, false),
        (0x1f, 1, false),
        (0x12, 0, false),
    ];
    for (addr, len, is_met) in rows {
        assert!(rt; set.meets(segment(addr, len)) == is_met, "{addr} {len}");
    }
    Ok(())
}

/// The set of no segments has no range, and nothing meets it.
#[test]
fn a_set_is_empty(rt: HostRuntime) -> Result<(), Fail> {
    let set = RangeSet::new(rt.alloc(), &[])?;
    assert!(rt; set.ranges().is_empty() && !set.meets(segment(0, 1)));
    Ok(())
}
