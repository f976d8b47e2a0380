//! Copies within regions, and from one to another.

ghost use Rattle.std.specs.Prelude.{◌≡◌, ◌+◌, ◌<◌, ◌≤◌, ◌⊎◌, length, take, drop, IsTrue};
ghost use Rattle.dma_mem.specs.Regions.{in_order, pieces_of, image_of};
ghost use Rattle.dma_mem.specs.inner.Rewritten.{Holds, Writable, Rewritten};

use crate::regions::search::{has_range, region_with_range};
use crate::regions::{Region, read_into, write};
use crate::table::blocks::copy_bytes_apart;

// How many bytes are copied at once from one region to another.
const BLOCK_SIZE: usize = 1024;

// Copies `len` bytes from `from` to `to` within the region at an index. The two ranges share no address.
fn copy_in_region(regions: &mut [Region<'_>], index: usize, from: u32, to: u32, len: u32)
    requires order { IsTrue (in_order (pieces_of regions.old)) }
    requires index { index < length regions.old }
    requires reads { Holds (pieces_of regions.old) index from len }
    requires writes { Holds (pieces_of regions.old) index to len }
    requires apart { (from + len ≤ to) ⊎ (to + len ≤ from) }
    ensures { Rewritten regions.old regions.new to
        (take len (drop from (image_of (pieces_of regions.old)))) }
{
    let region = &mut regions[index];
    let (source, target) = ((from - region.addr) as usize, (to - region.addr) as usize);
    copy_bytes_apart(region.bytes, source, target, len as usize);
}

// Copies `len` bytes, at most a block, from `from` to `to`.
fn copy_block(regions: &mut [Region<'_>], from: u32, to: u32, len: usize)
    requires few { len ≤ 1024 }
    requires writable { Writable regions.old to len }
    requires source { from + len ≤ length (image_of (pieces_of regions.old)) }
    ensures { Rewritten regions.old regions.new to
        (take len (drop from (image_of (pieces_of regions.old)))) }
{
    let mut block = [0; BLOCK_SIZE];
    let part = &mut block[..len];
    read_into(regions, from, part);
    write(regions, to, part);
}

// Copies `len` bytes from `from` to `to`, a block at a time. The two ranges share no address.
#[tactic(auto, using(crate::proofs::PieceWrites::writable_most, crate::proofs::Pieces::image_of_most))]
fn copy_by_blocks(regions: &mut [Region<'_>], from: u32, to: u32, len: u32)
    requires writable { Writable regions.old to len }
    requires source { from + len ≤ length (image_of (pieces_of regions.old)) }
    requires apart { (from + len ≤ to) ⊎ (to + len ≤ from) }
    ensures { Rewritten regions.old regions.new to
        (take len (drop from (image_of (pieces_of regions.old)))) }
{
    let mut done = 0;
    while done < len {
        let count = (len - done).min(BLOCK_SIZE as u32);
        copy_block(regions, from + done, to + done, count as usize);
        done += count;
    }
}

// Copies `len` bytes from `from` to `to`. The two ranges share no address.
fn copy_anywhere(regions: &mut [Region<'_>], from: u32, to: u32, len: u32)
    requires writable { Writable regions.old to len }
    requires source { from + len ≤ length (image_of (pieces_of regions.old)) }
    requires apart { (from + len ≤ to) ⊎ (to + len ≤ from) }
    ensures { Rewritten regions.old regions.new to
        (take len (drop from (image_of (pieces_of regions.old)))) }
{
    let index = region_with_range(regions, from, len as usize);
    if index < regions.len() && has_range(regions, index, to, len as usize) {
        copy_in_region(regions, index, from, to, len);
    } else {
        copy_by_blocks(regions, from, to, len);
    }
}

// Copies `len` bytes from `from` to `to`. The two ranges share no address. The common case, both in the first region, is
// decided inline, for copies of a few bytes.
#[inline(always)]
pub(crate) fn copy(regions: &mut [Region<'_>], from: u32, to: u32, len: u32)
    requires writable { Writable regions.old to len }
    requires source { from + len ≤ length (image_of (pieces_of regions.old)) }
    requires apart { (from + len ≤ to) ⊎ (to + len ≤ from) }
    ensures { Rewritten regions.old regions.new to
        (take len (drop from (image_of (pieces_of regions.old)))) }
{
    let bytes = len as usize;
    if !regions.is_empty()
        && has_range(regions, 0, from, bytes)
        && has_range(regions, 0, to, bytes)
    {
        copy_in_region(regions, 0, from, to, len);
    } else {
        copy_anywhere(regions, from, to, len);
    }
}
