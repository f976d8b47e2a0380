//! Reads and writes a table by address, chunk after chunk of 16,384 bytes. The loops over chunks aren't inlined: a
//! burst mostly lies in one chunk, and the instruction loop of a channel stays small without them.

ghost use Rattle.std.specs.Prelude.{◌≡◌, ℕ, ◌+◌, ◌*◌, ◌%◌, ◌<◌, ◌≤◌, ◌^◌, length, true, false, IfOk, IfSome, IsSome, OnOk, OnErr};
ghost use Rattle.dma_mem.specs.inner.ChunkTable.{chunk_size, chunk_at, AreBytesFrom, PutsBytes, RangeMade, RangeMissing, SameBytes, SameLengths};

use crate::no_memory::NoMemory;
use crate::table::blocks::in_one_chunk;
use crate::table::{CHUNK_SIZE, Table, shown};
use std::alloc::{AllocError, Global};

impl Table {
    /// Returns the `len` bytes from `start` on, or `None` if they don't lie in one chunk.
    #[inline(always)]
    pub(crate) fn part(&self, start: usize, len: usize) -> Option<&[u8]>
        requires { start + len < 2 ^ 33 }
        ensures bytes { IfSome result
            (λ part. (length part.now ≡ len) × AreBytesFrom self.now start part.now) }
        ensures some { start % chunk_size + len ≤ chunk_size → IsSome result }
    {
        let offset = start % CHUNK_SIZE;
        if offset + len > CHUNK_SIZE {
            return None;
        }
        let chunk = shown(self.chunk(start / CHUNK_SIZE));
        Some(&chunk[offset..offset + len])
    }

    /// Fills `buf` with the bytes from `start` on.
    // (Not inlined, nor the two below, so that what mostly happens, the use of one chunk, stays small.)
    #[inline(never)]
    pub(crate) fn read(&self, start: usize, buf: &mut [u8])
        requires { start + length buf.old < 2 ^ 33 }
        ensures { AreBytesFrom self.now start buf.new }
    {
        let mut done = 0;
        while done < buf.len() {
            let at = start + done;
            let offset = at % CHUNK_SIZE;
            let count = (CHUNK_SIZE - offset).min(buf.len() - done);
            let chunk = shown(self.chunk(at / CHUNK_SIZE));
            buf[done..done + count].copy_from_slice(&chunk[offset..offset + count]);
            done += count;
        }
    }

    /// Returns a copy of the `len` bytes from `start` on, without clearing the new list first.
    pub(crate) fn to_vec(
        &self,
        alloc: Global,
        start: usize,
        len: usize,
    ) -> Result<Vec<u8>, NoMemory>
        requires { start + len < 2 ^ 33 }
        ensures { IfOk result
            (λ list. (length list.items ≡ len) × AreBytesFrom self.now start list.items) }
    {
        let mut list = Vec::with_capacity(alloc, len)?;
        while list.len() < len {
            let at = start + list.len();
            let offset = at % CHUNK_SIZE;
            let count = (CHUNK_SIZE - offset).min(len - list.len());
            let chunk = shown(self.chunk(at / CHUNK_SIZE));
            list.extend_from_slice(&chunk[offset..offset + count])?;
        }
        Ok(list)
    }

    /// Makes the chunks of the addresses from `start` up to, but not including, `end`.
    #[inline(never)]
    pub(crate) fn make(&mut self, start: usize, end: usize) -> Result<(), AllocError>
        requires order { start ≤ end }
        requires within { end ≤ chunk_size * length self.old }
        requires limit { end < 2 ^ 33 }
        ensures count { length self.new ≡ length self.old }
        ensures made { OnOk result (RangeMade self.new start end) }
        ensures short { OnErr result (RangeMissing self.new start end) }
        ensures bytes { (p : ℕ) → SameBytes (chunk_at self.old p) (chunk_at self.new p) }
        ensures kept { (p : ℕ) → 0 < length (chunk_at self.old p)
            → chunk_at self.new p ≡ chunk_at self.old p }
    {
        if start == end {
            return Ok(());
        }
        for number in start / CHUNK_SIZE..(end - 1) / CHUNK_SIZE + 1 {
            self.make_chunk(number)?;
        }
        Ok(())
    }

    // Writes the bytes from `start` on to chunks that are already made, with one look-up for each chunk.
    #[inline(never)]
    #[tactic(auto, using(crate::proofs::PageImages::put_none))]
    fn put_in_turn(&mut self, start: usize, bytes: &[u8])
        requires limit { start + length bytes.now < 2 ^ 33 }
        requires made { RangeMade self.old start (start + length bytes.now) }
        ensures len { SameLengths self.old self.new }
        ensures count { length self.new ≡ length self.old }
        ensures image { PutsBytes self.old self.new start bytes.now }
    {
        let mut done = 0;
        while done < bytes.len() {
            let at = start + done;
            let count = in_one_chunk(at, bytes.len() - done);
            self.put_in_chunk(at, &bytes[done..done + count]);
            done += count;
        }
    }

    /// Writes the bytes from `start` on to chunks that are already made, with one look-up if they lie in one chunk.
    #[inline(always)]
    pub(crate) fn put(&mut self, start: usize, bytes: &[u8])
        requires limit { start + length bytes.now < 2 ^ 33 }
        requires made { RangeMade self.old start (start + length bytes.now) }
        ensures len { SameLengths self.old self.new }
        ensures count { length self.new ≡ length self.old }
        ensures image { PutsBytes self.old self.new start bytes.now }
    {
        let len = bytes.len();
        if len > 0 && start % CHUNK_SIZE + len <= CHUNK_SIZE {
            self.put_in_chunk(start, bytes);
        } else {
            self.put_in_turn(start, bytes);
        }
    }
}
