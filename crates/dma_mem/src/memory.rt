//! A memory of bytes.

#![tactic(auto, using(crate::proofs::ChunkImages::length_image_of))]

ghost use Rattle.std.specs.Prelude.{◌≡◌, ◌≢◌, ℕ, ◌+◌, ◌%◌, ◌/◌, ◌<◌, ◌≤◌, ◌⊎◌, length, take, drop, replicate, slice_get, nat_lt, true, false, if◌then◌else◌, IsTrue, IfOk, IfErr, IfSome, IsSome, OnOk, OnErr};
ghost use Rattle.std.specs.List.{list_all, range_with_len};
ghost use Rattle.dma_mem.specs.Places.{range_of, places, all_below};
ghost use Rattle.dma_mem.specs.Limits.{largest_size};
ghost use Rattle.dma_mem.specs.Image.{put, bytes_at, is_size};
ghost use Rattle.dma_mem.specs.Pages.{has_page, is_made, page_size, range_fault, AllMade, Keeps, MakesNoOther};

use crate::limits::MAX_SIZE;
use crate::no_memory::NoMemory;
use crate::page_flags::PageFlags;
use crate::segment::Segment;
use crate::table::Table;
use std::alloc::{AllocError, Global};
use std::marker::Model;
use thiserror::Error;

/// The number of bytes in a page (profile).
pub const PAGE_SIZE: usize = 4096;

/// Why a call on a memory fails.
#[derive(Clone, Copy, Debug, PartialEq, Eq, Error)]
pub enum MemFault {
    #[error("the size is not 1 to {} bytes", MAX_SIZE)]
    SizeOutOfRange,
    #[error("the range ends above the memory's size")]
    OutOfMemoryRange,
    #[error("out of memory")]
    NoMemory,
}

/// A memory of 1 to [`MAX_SIZE`] bytes (profile), with addresses from 0. Its pages of 4,096 bytes are made on first
/// write and kept. Contracts see its image, and which of its pages are made.
///
/// A new memory takes 24 bytes for each 4 MiB of its size. Its bytes are in chunks of four pages. The first page of a
/// chunk that is made takes 16,384 bytes and what the allocator adds; the other three take nothing. These bytes aren't
/// touched until something is written to the chunk; a fill with 0 and a copy from a chunk that isn't made leave them
/// untouched. The first page of each 4 MiB also takes 6 KiB, for the list of their 256 chunks. Flags take a byte or two
/// for each page up to the last one that is made.
#[derive(Drop)]
pub struct Memory {
    size: u32,
    table: Table,
    flags: PageFlags,
}

impl Model for Memory {
    ghost use Rattle.std.specs.Prelude.{◌≤◌, ◌*◌, length};
    ghost use Rattle.dma_mem.specs.Limits.{largest_size};
    ghost use Rattle.dma_mem.specs.Pages.{Paged};
    ghost use Rattle.dma_mem.specs.inner.ChunkTable.{chunk_size, paged, HasChunks};

    ghost Value = { Paged };

    ghost view = { λ m. paged m.size m.table m.flags };

    ghost invariant = { λ m. (1 ≤ m.size) × (m.size ≤ largest_size)
        × (m.size ≤ chunk_size * length m.table) × HasChunks m.flags m.table };
}

impl Memory {
    /// Returns a memory of `size` zeros, in which no page is made.
    ///
    /// The error is `SizeOutOfRange` for a size of 0 or above [`MAX_SIZE`], else `NoMemory`.
    #[tactic(auto, using(crate::proofs::ChunkImages::image_of_none))]
    pub fn new(alloc: Global, size: u32) -> Result<Memory, MemFault>
        ensures image { IfOk result (λ memory. memory.image ≡ replicate size 0) }
        ensures none { IfOk result (λ memory. (p : ℕ) → has_page memory p ≡ false) }
        ensures size { OnOk result (IsTrue (is_size size)) }
        ensures err { IfErr result (λ fault. fault
            ≡ (if is_size size then MemFault.NoMemory else MemFault.SizeOutOfRange)) }
    {
        if size == 0 || size > MAX_SIZE {
            return Err(MemFault::SizeOutOfRange);
        }
        let Ok(table) = Table::new(alloc, size as usize) else {
            return Err(MemFault::NoMemory);
        };
        let flags = PageFlags::new(alloc);
        Ok(Memory { size, table, flags })
    }

    /// Returns the size of the memory in bytes, 1 to [`MAX_SIZE`].
    #[inline(always)]
    pub fn size(&self) -> u32
        ensures size { result ≡ length self.now.image }
        ensures low { 1 ≤ result }
        ensures high { result ≤ largest_size }
    {
        self.size
    }

    /// Returns the byte at an address, or `None` for an address at or above the size.
    pub fn byte(&self, addr: u32) -> Option<u8>
        ensures { result ≡ slice_get self.now.image addr }
    {
        if addr >= self.size() {
            return None;
        }
        let mut block = [0];
        let bytes = self.bytes(addr, &mut block);
        Some(bytes[0])
    }

    /// Fills `buf` with the bytes from `addr` on.
    ///
    /// The error is `OutOfMemoryRange` if `addr` plus the length of `buf` is above the size. `buf` is then unchanged.
    pub fn read_into(&self, addr: u32, buf: &mut [u8]) -> Result<(), MemFault>
        ensures result { result ≡ (if nat_lt (length self.now.image) (addr + length buf.old)
            then Err MemFault.OutOfMemoryRange else Ok tt) }
        ensures ok { OnOk result (buf.new ≡ take (length buf.old) (drop addr self.now.image)) }
        ensures err { OnErr result (buf.new ≡ buf.old) }
    {
        if addr as usize + buf.len() > self.size() as usize {
            return Err(MemFault::OutOfMemoryRange);
        }
        match self.table.part(addr as usize, buf.len()) {
            Some(part) => buf.copy_from_slice(part),
            None => self.table.read(addr as usize, buf),
        }
        Ok(())
    }

    /// Returns a copy of the `len` bytes from `addr` on. Fails with `NoMemory` if memory runs out.
    pub fn to_vec(&self, alloc: Global, addr: u32, len: u32) -> Result<Vec<u8>, NoMemory>
        requires { addr + len ≤ length self.now.image }
        ensures { IfOk result (λ list. list.items ≡ take len (drop addr self.now.image)) }
    {
        self.table.to_vec(alloc, addr as usize, len as usize)
    }

    // Makes the pages of a segment that has bytes and ends below the size.
    //
    // The flags are set last, so a call that is out of memory makes no page. It isn't inlined, since it is rare.
    #[inline(never)]
    fn make(&mut self, segment: Segment) -> Result<(), AllocError>
        requires some { 0 < segment.len }
        requires within { segment.addr + segment.len ≤ length self.old.image }
        ensures ok { OnOk result (AllMade self.new (range_of segment)) }
        ensures short { OnErr result (¬ AllMade self.new (range_of segment)) }
        ensures image { self.new.image ≡ self.old.image }
        ensures keeps { Keeps self.old self.new }
        ensures others { MakesNoOther self.old self.new (range_of segment) }
    {
        let start = segment.addr as usize;
        let end = start + segment.len as usize;
        let page_end = end.div_ceil(PAGE_SIZE);
        self.flags.make_room(page_end)?;
        self.table.make(start, end)?;
        self.flags.set(start / PAGE_SIZE, page_end);
        Ok(())
    }

    /// Makes the pages of a segment that aren't made yet, and fills them with zeros.
    ///
    /// The error is `OutOfMemoryRange` if the segment ends above the size; then nothing changes. Otherwise it is
    /// `NoMemory`; then some of the pages may have been made.
    pub fn prepare(&mut self, segment: Segment) -> Result<(), MemFault>
        ensures ok { OnOk result (AllMade self.new (range_of segment)) }
        ensures within { OnOk result (segment.addr + segment.len ≤ length self.old.image) }
        ensures short { segment.addr + segment.len ≤ length self.old.image
            → OnErr result (¬ AllMade self.new (range_of segment)) }
        ensures image { self.new.image ≡ self.old.image }
        ensures keeps { Keeps self.old self.new }
        ensures others { MakesNoOther self.old self.new (range_of segment) }
        ensures err { IfErr result (λ fault. fault
            ≡ range_fault (length self.old.image) (segment.addr + segment.len)) }
        ensures refused { nat_lt (length self.old.image) (segment.addr + segment.len) ≡ true
            → self.new ≡ self.old }
    {
        if segment.addr as usize + segment.len as usize > self.size() as usize {
            return Err(MemFault::OutOfMemoryRange);
        }
        if self.made(segment) {
            return Ok(());
        }
        let Ok(()) = self.make(segment) else {
            return Err(MemFault::NoMemory);
        };
        Ok(())
    }

    /// Makes the pages of all segments of a list, one segment after another.
    ///
    /// The error is that of the first segment that fails. Some pages may have been made then.
    pub fn prepare_all(&mut self, list: &[Segment]) -> Result<(), MemFault>
        ensures ok { OnOk result (AllMade self.new (places list.now)) }
        ensures within { OnOk result (all_below list.now (length self.old.image) ≡ true) }
        ensures short { all_below list.now (length self.old.image) ≡ true
            → OnErr result (¬ AllMade self.new (places list.now)) }
        ensures image { self.new.image ≡ self.old.image }
        ensures keeps { Keeps self.old self.new }
        ensures others { MakesNoOther self.old self.new (places list.now) }
        ensures err { all_below list.now (length self.old.image) ≡ true
            → IfErr result (λ fault. fault ≡ MemFault.NoMemory) }
        ensures named { IfErr result (λ fault. fault ≢ MemFault.SizeOutOfRange) }
    {
        for s in list {
            match self.prepare(*s) {
                Ok(()) => {}
                Err(fault) => return Err(fault),
            }
        }
        Ok(())
    }

    /// Returns whether each address of a segment lies below the size and on a page that is made.
    pub fn made(&self, segment: Segment) -> bool
        ensures { result ≡ list_all (is_made self.now) (range_of segment) }
    {
        let start = segment.addr as usize;
        let end = start + segment.len as usize;
        if start == end {
            return true;
        }
        end <= self.size() as usize
            && self
                .flags
                .are_set(start / PAGE_SIZE, end.div_ceil(PAGE_SIZE))
    }

    /// Returns the `len` bytes from `addr` on without copying them, or `None` if they aren't in one piece. Those on one
    /// page are.
    pub fn part(&self, addr: u32, len: u32) -> Option<&[u8]>
        requires { addr + len ≤ length self.now.image }
        ensures bytes { IfSome result (λ part. part.now ≡ take len (drop addr self.now.image)) }
        ensures some { addr % page_size + len ≤ page_size → IsSome result }
    {
        self.table.part(addr as usize, len as usize)
    }

    /// Returns the bytes from `addr` on, as many as `block` has. They are copied to `block` only if they aren't in one
    /// piece.
    #[inline(always)]
    pub fn bytes<'a>(&'a self, addr: u32, block: &'a mut [u8]) -> &'a [u8]
        requires { addr + length block.old ≤ length self.now.image }
        ensures { result.now ≡ take (length block.old) (drop addr self.now.image) }
    {
        if let Some(part) = self.table.part(addr as usize, block.len()) {
            return part;
        }
        self.table.read(addr as usize, block);
        block
    }

    /// Writes the bytes from `addr` on. Their pages are already made.
    #[inline(always)]
    pub fn put(&mut self, addr: u32, bytes: &[u8])
        requires within { addr + length bytes.now ≤ length self.old.image }
        requires made { AllMade self.old (range_with_len addr (length bytes.now)) }
        ensures image { self.new.image ≡ put self.old.image (bytes_at addr bytes.now) }
        ensures made { self.new.made ≡ self.old.made }
    {
        self.table.put(addr as usize, bytes);
    }

    /// Copies `len` bytes from `from` to `to`. The pages of the destination are already made, and the two ranges share
    /// no address.
    pub fn copy_apart(&mut self, from: u32, to: u32, len: u32)
        requires source { from + len ≤ length self.old.image }
        requires within { to + len ≤ length self.old.image }
        requires made { AllMade self.old (range_with_len to len) }
        requires apart { (from + len ≤ to) ⊎ (to + len ≤ from) }
        ensures image { self.new.image
            ≡ put self.old.image (bytes_at to (take len (drop from self.old.image))) }
        ensures made { self.new.made ≡ self.old.made }
    {
        self.table
            .copy_apart(from as usize, to as usize, len as usize);
    }

    /// Sets the `len` bytes from `addr` on to `byte`. Their pages are already made.
    pub fn fill(&mut self, addr: u32, len: u32, byte: u8)
        requires within { addr + len ≤ length self.old.image }
        requires made { AllMade self.old (range_with_len addr len) }
        ensures image { self.new.image ≡ put self.old.image (bytes_at addr (replicate len byte)) }
        ensures made { self.new.made ≡ self.old.made }
    {
        self.table.fill(addr as usize, len as usize, byte);
    }

    /// Writes the bytes from `addr` on, and first makes those of their pages that aren't made.
    ///
    /// The error is `OutOfMemoryRange` if `addr` plus the number of bytes is above the size; then nothing changes.
    /// Otherwise it is `NoMemory`; then the image is unchanged, and some of the pages may have been made.
    pub fn write(&mut self, addr: u32, bytes: &[u8]) -> Result<(), MemFault>
        ensures ok { OnOk result (self.new.image ≡ put self.old.image (bytes_at addr bytes.now)) }
        ensures err { OnErr result (self.new.image ≡ self.old.image) }
        ensures fault { IfErr result (λ fault. fault
            ≡ range_fault (length self.old.image) (addr + length bytes.now)) }
        ensures within { OnOk result (addr + length bytes.now ≤ length self.old.image) }
        ensures made { OnOk result (AllMade self.new (range_with_len addr (length bytes.now))) }
        ensures short { addr + length bytes.now ≤ length self.old.image
            → OnErr result (¬ AllMade self.new (range_with_len addr (length bytes.now))) }
        ensures keeps { Keeps self.old self.new }
        ensures others { MakesNoOther self.old self.new (range_with_len addr (length bytes.now)) }
        ensures refused { nat_lt (length self.old.image) (addr + length bytes.now) ≡ true
            → self.new ≡ self.old }
    {
        if addr as usize + bytes.len() > self.size() as usize {
            return Err(MemFault::OutOfMemoryRange);
        }
        let len = bytes.len() as u32;
        let Ok(()) = self.prepare(Segment { addr, len }) else {
            return Err(MemFault::NoMemory);
        };
        self.put(addr, bytes);
        Ok(())
    }

    /// Returns a copy of the memory. Fails with `NoMemory` if memory runs out.
    pub fn try_copy(&self) -> Result<Memory, NoMemory>
        ensures { IfOk result (λ copy. copy ≡ self.now) }
    {
        let table = self.table.try_copy()?;
        let flags = self.flags.try_copy()?;
        Ok(Memory {
            size: self.size,
            table,
            flags,
        })
    }
}
