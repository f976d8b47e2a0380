//! Memory that a caller lends in several regions.

mod copies;
mod search;

ghost use Rattle.std.specs.Prelude.{◌≡◌, ◌+◌, ◌-◌, ◌<◌, ◌≤◌, ◌⊎◌, ◌∷◌, [], ◌&&◌, ◌||◌, nat_lt, length, take, drop, replicate, IsTrue, slice_index, vec_capacity};
ghost use Rattle.dma_mem.specs.Regions.{in_order, pieces_of, piece_of, end_of, has, image_of, largest_end, run_from};
ghost use Rattle.dma_mem.specs.inner.Rewritten.{bars, Holds, Writable, Rewritten, rest_from};

use crate::marks::MarkKind;
use crate::memory::MemFault;
use crate::ram::Ram;
use crate::regions::copies::copy;
use crate::regions::search::{clear_of, place, region_with_range, size_of};
use crate::segment::Segment;
use crate::table::blocks::fill_bytes;
use crate::table::put_bytes;

// The largest end of a region: the end of the 32-bit addresses.
const LARGEST_END: u64 = 1 << 32;

/// A piece of a caller's memory, with the address at which the guest sees it. A call that is given it may use its bytes
/// until the call returns.
#[repr(C)]
#[derive(Drop)]
pub struct Region<'a> {
    /// The address of the first of its bytes.
    pub addr: u32,
    /// Its bytes.
    pub bytes: &'a mut [u8],
    /// 0 if it may be written; otherwise stores to it fail.
    pub read_only: u32,
}

impl Region<'_> {
    // Returns whether the address lies in the region.
    pub(crate) fn has(&self, addr: u64) -> bool
        ensures { result ≡ has addr (piece_of self.now) }
    {
        let start = u64::from(self.addr);
        start <= addr && addr - start < self.bytes.len() as u64
    }

    // Returns the address after the region's last byte, which needn't be an address of 32 bits. The sum saturates, so
    // that a length of almost 2^64, which only a mistaken program in C lends, isn't in order.
    pub(crate) fn end(&self) -> u64
        ensures { result ≡ end_of (piece_of self.now) }
    {
        u64::from(self.addr).saturating_add(shared(&self.bytes).len() as u64)
    }

    // Returns the region's bytes from one of its addresses on.
    fn rest_from(&self, addr: u64) -> &[u8]
        requires { IsTrue (has addr (piece_of self.now)) }
        ensures { result.now ≡ drop (addr - self.now.addr) (piece_of self.now).bytes }
    {
        &self.bytes[(addr - u64::from(self.addr)) as usize..]
    }

    // Returns whether bursts of a kind fail in the region.
    pub(crate) fn bars(&self, kind: MarkKind) -> bool
        ensures { result ≡ bars kind self.now }
    {
        match kind {
            MarkKind::Reading => false,
            MarkKind::Writing => self.read_only != 0,
        }
    }

    // Returns whether bursts of a kind fail at an address at or below which the regions before this one end.
    pub(crate) fn fails_at(&self, kind: MarkKind, addr: u64) -> bool
        ensures { result ≡ (nat_lt addr self.now.addr
            || (bars kind self.now && nat_lt addr (end_of (piece_of self.now)))) }
    {
        addr < u64::from(self.addr) || (self.bars(kind) && addr < self.end())
    }
}

/// Returns whether regions are in rising order, share no address, and end at or below 4,294,967,296.
pub fn are_in_order(regions: &[Region<'_>]) -> bool
    ensures { result ≡ in_order (pieces_of regions.now) }
{
    let mut end = 0;
    for region in regions {
        let past = region.end();
        if u64::from(region.addr) < end || past > LARGEST_END {
            return false;
        }
        end = past;
    }
    true
}

// Returns the bytes of the region that has an address, from there to the region's end, or none if no region has it.
fn bytes_from<'a>(regions: &'a [Region<'_>], addr: u32) -> &'a [u8]
    requires { IsTrue (in_order (pieces_of regions.now)) }
    ensures { result.now ≡ rest_from (pieces_of regions.now) addr }
{
    let index = place(regions, addr);
    if index == regions.len() {
        return &[];
    }
    regions[index].rest_from(u64::from(addr))
}

/// Replaces the bytes of a list by those from an address up to the first address that no region has, at most `most`.
/// The list must have room for `most` bytes. Nothing is allocated, and each byte is copied once.
pub fn copy_run(regions: &[Region<'_>], addr: u32, most: usize, bytes: &mut Vec<u8>)
    requires { most ≤ vec_capacity bytes.old }
    ensures run { bytes.new.items ≡ take most (run_from (pieces_of regions.now) addr) }
    ensures room { vec_capacity bytes.old ≤ vec_capacity bytes.new }
{
    bytes.clear();
    let mut at = u64::from(addr);
    for region in regions {
        if region.has(at) {
            let rest = region.rest_from(at);
            let part = &rest[..rest.len().min(most - bytes.len())];
            let Ok(()) = bytes.extend_from_slice(part) else {
                unreachable!()
            };
            at = region.end();
        }
    }
}

// Returns the byte at an address, or 0 if no region has it.
#[tactic(auto, using(crate::proofs::PieceWrites::byte_shown))]
fn byte_at(regions: &[Region<'_>], addr: u32) -> u8
    requires { IsTrue (in_order (pieces_of regions.now)) }
    ensures { result ≡ slice_index (image_of (pieces_of regions.now)) addr }
{
    let bytes = bytes_from(regions, addr);
    if bytes.is_empty() { 0 } else { bytes[0] }
}

// Fills a block with the bytes from `addr` on.
#[tactic(auto, using(crate::proofs::Pieces::image_of_most))]
fn gather(regions: &[Region<'_>], addr: u32, block: &mut [u8])
    requires order { IsTrue (in_order (pieces_of regions.now)) }
    requires within { addr + length block.old ≤ length (image_of (pieces_of regions.now)) }
    ensures { block.new ≡ take (length block.old) (drop addr (image_of (pieces_of regions.now))) }
{
    for i in 0..block.len() {
        block[i] = byte_at(regions, addr + i as u32);
    }
}

// Writes bytes to the region at an index, from `addr` on.
fn put_in_region(regions: &mut [Region<'_>], index: usize, addr: u32, bytes: &[u8])
    requires order { IsTrue (in_order (pieces_of regions.old)) }
    requires index { index < length regions.old }
    requires holds { Holds (pieces_of regions.old) index addr (length bytes.now) }
    ensures { Rewritten regions.old regions.new addr bytes.now }
{
    let region = &mut regions[index];
    let start = (addr - region.addr) as usize;
    put_bytes(region.bytes, start, bytes);
}

// Writes a byte.
fn put_byte(regions: &mut [Region<'_>], addr: u32, byte: u8)
    requires { Writable regions.old addr 1 }
    ensures { Rewritten regions.old regions.new addr (byte ∷ []) }
{
    let index = place(regions, addr);
    put_in_region(regions, index, addr, &[byte]);
}

// Writes bytes from `addr` on, one at a time.
fn put_by_bytes(regions: &mut [Region<'_>], addr: u32, bytes: &[u8])
    requires { Writable regions.old addr (length bytes.now) }
    ensures { Rewritten regions.old regions.new addr bytes.now }
{
    for i in 0..bytes.len() {
        put_byte(regions, addr + i as u32, bytes[i]);
    }
}

// Writes bytes from `addr` on.
pub(crate) fn write(regions: &mut [Region<'_>], addr: u32, bytes: &[u8])
    requires { Writable regions.old addr (length bytes.now) }
    ensures { Rewritten regions.old regions.new addr bytes.now }
{
    let index = region_with_range(regions, addr, bytes.len());
    if index < regions.len() {
        put_in_region(regions, index, addr, bytes);
    } else {
        put_by_bytes(regions, addr, bytes);
    }
}

// Sets `len` bytes of the region at an index, from `addr` on, to one byte.
fn fill_in_region(regions: &mut [Region<'_>], index: usize, addr: u32, len: u32, byte: u8)
    requires order { IsTrue (in_order (pieces_of regions.old)) }
    requires index { index < length regions.old }
    requires holds { Holds (pieces_of regions.old) index addr len }
    ensures { Rewritten regions.old regions.new addr (replicate len byte) }
{
    let region = &mut regions[index];
    let start = (addr - region.addr) as usize;
    fill_bytes(region.bytes, start, len as usize, byte);
}

// Sets the `len` bytes from `addr` on to one byte, one at a time.
fn fill_by_bytes(regions: &mut [Region<'_>], addr: u32, len: u32, byte: u8)
    requires { Writable regions.old addr len }
    ensures { Rewritten regions.old regions.new addr (replicate len byte) }
{
    for i in 0..len {
        put_byte(regions, addr + i, byte);
    }
}

// Sets the `len` bytes from `addr` on to one byte.
fn fill(regions: &mut [Region<'_>], addr: u32, len: u32, byte: u8)
    requires { Writable regions.old addr len }
    ensures { Rewritten regions.old regions.new addr (replicate len byte) }
{
    let index = region_with_range(regions, addr, len as usize);
    if index < regions.len() {
        fill_in_region(regions, index, addr, len, byte);
    } else {
        fill_by_bytes(regions, addr, len, byte);
    }
}

// Fills a block with the bytes from `addr` on.
#[tactic(auto, using(crate::proofs::PieceWrites::rest_shown))]
pub(crate) fn read_into(regions: &[Region<'_>], addr: u32, block: &mut [u8])
    requires order { IsTrue (in_order (pieces_of regions.now)) }
    requires within { addr + length block.old ≤ length (image_of (pieces_of regions.now)) }
    ensures { block.new ≡ take (length block.old) (drop addr (image_of (pieces_of regions.now))) }
{
    let bytes = bytes_from(regions, addr);
    if block.len() <= bytes.len() {
        block.copy_from_slice(&bytes[..block.len()]);
    } else {
        gather(regions, addr, block);
    }
}

// Reborrows a mutable slice as a shared one.
fn shared<'a, T>(slice: &'a &mut [T]) -> &'a [T]
    ensures { result.now ≡ slice.now.now }
{
    slice
}

/// Regions of bytes that a caller lends, as one memory from address 0 on. The regions are in rising order and share no
/// address, and the memory has no bytes between them. All of its pages are made.
///
/// A function that takes regions builds `LentRegions { regions }` itself, so that its contract can describe the regions
/// after the call.
#[derive(Drop)]
pub struct LentRegions<'a, 'b> {
    pub regions: &'a mut [Region<'b>],
    ghost order: { IsTrue (in_order (pieces_of regions.now)) },
}

impl Ram for LentRegions<'_, '_> {
    ghost use Rattle.std.specs.Prelude.{◌∷◌};
    ghost use Rattle.dma_mem.specs.Pages.{whole};
    ghost use Rattle.dma_mem.specs.Regions.{image_of, gaps_of, names_of, pieces_of, read_only_of};

    ghost paged = { λ r. whole (image_of (pieces_of r.regions.now)) };

    ghost loan = { λ r. record {
      names = r.regions.ghost_name ∷ names_of r.regions.now;
      gaps = gaps_of (pieces_of r.regions.now);
      read_only = read_only_of r.regions.now;
    } };

    #[tactic(auto, using(crate::proofs::Pieces::image_of_most))]
    fn size(&self) -> u64 {
        size_of(shared(&self.regions))
    }

    #[tactic(auto, using(crate::proofs::WholeMemory::whole_tested))]
    fn made(&self, segment: Segment) -> bool {
        if segment.len == 0 {
            return true;
        }
        segment.end() <= Ram::size(self)
    }

    #[inline(always)]
    fn clear(&self, kind: MarkKind, segment: Segment) -> u32 {
        clear_of(shared(&self.regions), kind, segment)
    }

    #[tactic(auto, using(crate::proofs::PieceWrites::rest_shown))]
    fn bytes<'a>(&'a self, addr: u32, block: &'a mut [u8]) -> &'a [u8] {
        let regions = shared(&self.regions);
        let bytes = bytes_from(regions, addr);
        if block.len() <= bytes.len() {
            return &bytes[..block.len()];
        }
        gather(regions, addr, block);
        block
    }

    #[tactic(auto, using(crate::proofs::WholeMemory::whole_all))]
    fn prepare(&mut self, segment: Segment) -> Result<(), MemFault> {
        if segment.end() > Ram::size(self) {
            return Err(MemFault::OutOfMemoryRange);
        }
        Ok(())
    }

    #[tactic(auto, using(crate::proofs::ImagePut::length_put))]
    fn put(&mut self, addr: u32, bytes: &[u8]) {
        write(self.regions, addr, bytes);
    }

    #[inline(always)]
    #[tactic(auto, using(crate::proofs::ImagePut::length_put))]
    fn copy_apart(&mut self, from: u32, to: u32, len: u32) {
        copy(self.regions, from, to, len);
    }

    #[tactic(auto, using(crate::proofs::ImagePut::length_put))]
    fn fill(&mut self, addr: u32, len: u32, byte: u8) {
        fill(self.regions, addr, len, byte);
    }
}
