//! The memory that a channel's bursts read and write, as a trait, and the trait for bytes that a caller lends.

ghost use Rattle.std.specs.Prelude.{◌≡◌, ℕ, ◌+◌, ◌^◌, ◌≤◌, ◌<◌, ◌⊎◌, [], ◌∷◌, length, take, drop, replicate, nat_lt, true, IfOk, IfErr, OnOk, OnErr, IsTrue};
ghost use Rattle.std.specs.List.{list_all, range_with_len};
ghost use Rattle.dma_mem.specs.Places.{range_of};
ghost use Rattle.dma_mem.specs.Limits.{largest_size};
ghost use Rattle.dma_mem.specs.Image.{put, bytes_at};
ghost use Rattle.dma_mem.specs.Lent.{Loan, Avoids, barred_of, lies_in_any};
ghost use Rattle.dma_mem.specs.Pages.{Paged, is_made, range_fault, AllMade, Keeps, MakesNoOther};

use crate::marks::MarkKind;
use crate::memory::{MemFault, Memory};
use crate::segment::Segment;
use crate::table::blocks::{copy_bytes_apart, fill_bytes};
use crate::table::put_bytes;

/// A memory that bursts read and write. It has a byte at each address below its size that isn't in a gap. Only the
/// pages that are made can be written, and no burst writes what is read-only.
pub trait Ram {
    // Its image, and which of its pages are made.
    ghost paged: { Self → Paged };

    // The names of the loans through which a lent memory is reached, the memory's gaps, and what is read-only. No call
    // changes them.
    ghost loan: { Self → Loan };

    /// Returns the size of the memory in bytes, at most 4,294,967,296.
    fn size(&self) -> u64
        ensures value { result ≡ length (paged self.now).image }
        ensures limit { result ≤ 2 ^ 32 };

    /// Returns whether each address of a segment lies below the size and on a page that is made.
    fn made(&self, segment: Segment) -> bool
        ensures { result ≡ list_all (is_made (paged self.now)) (range_of segment) };

    /// Returns how many addresses of a segment come before the first at which a burst of this kind fails, or the
    /// segment's length if it fails at none. Bursts fail in gaps, and stores also in read-only segments.
    fn clear(&self, kind: MarkKind, segment: Segment) -> u32
        ensures few { result ≤ segment.len }
        ensures none { Avoids (barred_of kind (loan self.now)) segment.addr result }
        ensures next { result < segment.len
            → IsTrue (lies_in_any (barred_of kind (loan self.now)) (segment.addr + result)) };

    /// Returns the bytes from `addr` on, as many as `block` has. They are copied to `block` only if they aren't in one
    /// piece.
    fn bytes<'a>(&'a self, addr: u32, block: &'a mut [u8]) -> &'a [u8]
        requires within { addr + length block.old ≤ length (paged self.now).image }
        requires gaps { Avoids (loan self.now).gaps addr (length block.old) }
        ensures { result.now ≡ take (length block.old) (drop addr (paged self.now).image) };

    /// Makes the pages of a segment that aren't made yet.
    ///
    /// The error is `OutOfMemoryRange` if the segment ends above the size; then nothing changes. Otherwise it is
    /// `NoMemory`; then some of the pages may have been made.
    fn prepare(&mut self, segment: Segment) -> Result<(), MemFault>
        ensures ok { OnOk result (AllMade (paged self.new) (range_of segment)) }
        ensures within { OnOk result
            (segment.addr + segment.len ≤ length (paged self.old).image) }
        ensures short { segment.addr + segment.len ≤ length (paged self.old).image
            → OnErr result (¬ AllMade (paged self.new) (range_of segment)) }
        ensures image { (paged self.new).image ≡ (paged self.old).image }
        ensures keeps { Keeps (paged self.old) (paged self.new) }
        ensures others { MakesNoOther (paged self.old) (paged self.new) (range_of segment) }
        ensures err { IfErr result (λ fault. fault
            ≡ range_fault (length (paged self.old).image) (segment.addr + segment.len)) }
        ensures refused { nat_lt (length (paged self.old).image) (segment.addr + segment.len) ≡ true
            → paged self.new ≡ paged self.old }
        ensures loan { loan self.new ≡ loan self.old };

    /// Writes the bytes from `addr` on. Their pages are already made.
    fn put(&mut self, addr: u32, bytes: &[u8])
        requires within { addr + length bytes.now ≤ length (paged self.old).image }
        requires made { AllMade (paged self.old) (range_with_len addr (length bytes.now)) }
        requires gaps { Avoids (loan self.old).gaps addr (length bytes.now) }
        ensures image { (paged self.new).image
            ≡ put (paged self.old).image (bytes_at addr bytes.now) }
        ensures made { (paged self.new).made ≡ (paged self.old).made }
        ensures loan { loan self.new ≡ loan self.old };

    /// Copies `len` bytes from `from` to `to`. The pages of the destination are already made, and the two ranges share
    /// no address.
    fn copy_apart(&mut self, from: u32, to: u32, len: u32)
        requires source { from + len ≤ length (paged self.old).image }
        requires within { to + len ≤ length (paged self.old).image }
        requires made { AllMade (paged self.old) (range_with_len to len) }
        requires reads { Avoids (loan self.old).gaps from len }
        requires writes { Avoids (loan self.old).gaps to len }
        requires apart { (from + len ≤ to) ⊎ (to + len ≤ from) }
        ensures image { (paged self.new).image ≡ put (paged self.old).image
            (bytes_at to (take len (drop from (paged self.old).image))) }
        ensures made { (paged self.new).made ≡ (paged self.old).made }
        ensures loan { loan self.new ≡ loan self.old };

    /// Sets the `len` bytes from `addr` on to `byte`. Their pages are already made.
    fn fill(&mut self, addr: u32, len: u32, byte: u8)
        requires within { addr + len ≤ length (paged self.old).image }
        requires made { AllMade (paged self.old) (range_with_len addr len) }
        requires gaps { Avoids (loan self.old).gaps addr len }
        ensures image { (paged self.new).image
            ≡ put (paged self.old).image (bytes_at addr (replicate len byte)) }
        ensures made { (paged self.new).made ≡ (paged self.old).made }
        ensures loan { loan self.new ≡ loan self.old };
}

impl Ram for Memory {
    ghost use Rattle.dma_mem.specs.Lent.{not_lent};

    ghost paged = { λ m. m };

    ghost loan = { λ _. not_lent };

    fn size(&self) -> u64 {
        u64::from(Memory::size(self))
    }

    fn made(&self, segment: Segment) -> bool {
        Memory::made(self, segment)
    }

    fn clear(&self, _kind: MarkKind, segment: Segment) -> u32 {
        segment.len
    }

    #[inline(always)]
    fn bytes<'a>(&'a self, addr: u32, block: &'a mut [u8]) -> &'a [u8] {
        Memory::bytes(self, addr, block)
    }

    fn prepare(&mut self, segment: Segment) -> Result<(), MemFault> {
        Memory::prepare(self, segment)
    }

    #[inline(always)]
    fn put(&mut self, addr: u32, bytes: &[u8]) {
        Memory::put(self, addr, bytes);
    }

    fn copy_apart(&mut self, from: u32, to: u32, len: u32) {
        Memory::copy_apart(self, from, to, len);
    }

    fn fill(&mut self, addr: u32, len: u32, byte: u8) {
        Memory::fill(self, addr, len, byte);
    }
}

/// Bytes that a caller lends, as a memory from address 0 on. All of its pages are made.
#[derive(Drop)]
pub struct LentRam<'a> {
    pub bytes: &'a mut [u8],
    ghost fits: { length bytes.now ≤ largest_size },
}

impl<'a> LentRam<'a> {
    /// Returns a memory of these bytes.
    pub fn over(bytes: &'a mut [u8]) -> LentRam<'a>
        requires { length bytes.old ≤ largest_size }
        ensures same_reference { result.bytes.ghost_name ≡ bytes.entry.ghost_name }
        ensures bytes { result.bytes.now ≡ bytes.old }
    {
        LentRam { bytes }
    }
}

impl Ram for LentRam<'_> {
    ghost use Rattle.std.specs.Prelude.{[], ◌∷◌};
    ghost use Rattle.dma_mem.specs.Pages.{whole};

    ghost paged = { λ r. whole r.bytes.now };

    ghost loan = { λ r. record { names = r.bytes.ghost_name ∷ []; gaps = []; read_only = [] } };

    fn size(&self) -> u64 {
        self.bytes.len() as u64
    }

    #[tactic(auto, using(crate::proofs::WholeMemory::whole_tested))]
    fn made(&self, segment: Segment) -> bool {
        if segment.len == 0 {
            return true;
        }
        segment.addr as usize + segment.len as usize <= self.bytes.len()
    }

    fn clear(&self, _kind: MarkKind, segment: Segment) -> u32 {
        segment.len
    }

    fn bytes<'a>(&'a self, addr: u32, block: &'a mut [u8]) -> &'a [u8] {
        let start = addr as usize;
        &self.bytes[start..start + block.len()]
    }

    #[tactic(auto, using(crate::proofs::WholeMemory::whole_all))]
    fn prepare(&mut self, segment: Segment) -> Result<(), MemFault> {
        if segment.addr as usize + segment.len as usize > self.bytes.len() {
            return Err(MemFault::OutOfMemoryRange);
        }
        Ok(())
    }

    fn put(&mut self, addr: u32, bytes: &[u8]) {
        put_bytes(self.bytes, addr as usize, bytes);
    }

    fn copy_apart(&mut self, from: u32, to: u32, len: u32) {
        copy_bytes_apart(self.bytes, from as usize, to as usize, len as usize);
    }

    fn fill(&mut self, addr: u32, len: u32, byte: u8) {
        fill_bytes(self.bytes, addr as usize, len as usize, byte);
    }
}
