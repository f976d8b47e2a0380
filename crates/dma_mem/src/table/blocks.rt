//! Copies and fills blocks of bytes, whose destinations lie in chunks that are already made.

ghost use Rattle.std.specs.Prelude.{◌≡◌, ◌+◌, ◌%◌, ◌<◌, ◌≤◌, ◌⊎◌, ◌^◌, length, slice_set};
ghost use Rattle.dma_mem.specs.inner.Blocks.{copied, filled, CopiesBlock, FillsBlock};
ghost use Rattle.dma_mem.specs.inner.ChunkTable.{chunk_size, chunk_at, chunk_of, RangeMade, SameLengths};

use crate::table::{CHUNK_SIZE, Chunk, GROUP_SIZE, Group, Table, add_zeros, is_blank, put_bytes};
use std::mem;

// Returns how many of the `len` bytes from `start` on lie in the same chunk as the first.
pub(crate) fn in_one_chunk(start: usize, len: usize) -> usize
    ensures most { result ≤ len }
    ensures some { 0 < len → 0 < result }
    ensures fits { start % chunk_size + result ≤ chunk_size }
{
    len.min(CHUNK_SIZE - start % CHUNK_SIZE)
}

// Copies `len` bytes of a slice from index `from` to index `to`. The two ranges share no index, so they are copied as
// one block, while `copy_within` copies byte by byte.
pub(crate) fn copy_bytes_apart(all: &mut [u8], from: usize, to: usize, len: usize)
    requires source { from + len ≤ length all.old }
    requires within { to + len ≤ length all.old }
    requires apart { (from + len ≤ to) ⊎ (to + len ≤ from) }
    ensures { all.new ≡ copied all.old from to len }
{
    if from + len <= to {
        let (front, back) = all.split_at_mut(to);
        put_bytes(back, 0, &front[from..from + len]);
    } else {
        let (front, back) = all.split_at_mut(from);
        put_bytes(front, to, &back[..len]);
    }
}

// Sets the `len` bytes of a slice from index `start` on to one byte.
pub(crate) fn fill_bytes(all: &mut [u8], start: usize, len: usize, byte: u8)
    requires { start + len ≤ length all.old }
    ensures { all.new ≡ filled all.old start len byte }
{
    all[start..start + len].fill(byte);
}

impl Chunk {
    // Copies `len` bytes of the chunk from offset `from` to offset `to`. The two ranges share no offset.
    fn copy_apart(&mut self, from: usize, to: usize, len: usize)
        requires made { 0 < length self.old }
        requires source { from + len ≤ chunk_size }
        requires within { to + len ≤ chunk_size }
        requires apart { (from + len ≤ to) ⊎ (to + len ≤ from) }
        ensures whole { length self.new ≡ chunk_size }
        ensures len { length self.new ≡ length self.old }
        ensures bytes { self.new ≡ copied self.old from to len }
    {
        add_zeros(&mut self.bytes);
        copy_bytes_apart(&mut self.bytes, from, to, len);
    }

    // Sets the `len` bytes of the chunk from an offset on to one byte.
    fn fill(&mut self, offset: usize, len: usize, byte: u8)
        requires made { 0 < length self.old }
        requires fits { offset + len ≤ chunk_size }
        ensures whole { length self.new ≡ chunk_size }
        ensures len { length self.new ≡ length self.old }
        ensures bytes { self.new ≡ filled self.old offset len byte }
    {
        if byte == 0 && is_blank(&self.bytes) {
            return;
        }
        add_zeros(&mut self.bytes);
        fill_bytes(&mut self.bytes, offset, len, byte);
    }
}

impl Group {
    // Puts a chunk at an index, and returns the one that was there.
    fn replace(&mut self, index: usize, chunk: Chunk) -> Chunk
        requires { index < length self.old }
        ensures old { result ≡ chunk_at self.old index }
        ensures new { self.new ≡ slice_set self.old index chunk }
    {
        mem::replace(&mut self.chunks[index], chunk)
    }

    // Sets `len` bytes of a chunk that is already made, from an offset on, to one byte.
    fn fill(&mut self, index: usize, offset: usize, len: usize, byte: u8)
        requires made { 0 < length (chunk_at self.old index) }
        requires fits { offset + len ≤ chunk_size }
        ensures whole { length (chunk_at self.old index) ≡ chunk_size }
        ensures new { self.new
            ≡ slice_set self.old index (filled (chunk_at self.old index) offset len byte) }
    {
        let chunk = &mut self.chunks[index];
        chunk.fill(offset, len, byte);
    }
}

impl Table {
    // Copies `len` bytes that lie in one chunk to addresses that lie in one chunk, which is already made. The two
    // ranges share no address.
    //
    // The destination's chunk is taken out of the table during the copy, so that the source's chunk can be read in
    // place.
    #[tactic(auto, using(crate::proofs::ChunkChanges::group_found, crate::proofs::ChunkChanges::chunk_in_group))]
    fn copy_in_chunks(&mut self, from: usize, to: usize, len: usize)
        requires source { from % chunk_size + len ≤ chunk_size }
        requires within { to % chunk_size + len ≤ chunk_size }
        requires made { 0 < length (chunk_of self.old to) }
        requires apart { (from + len ≤ to) ⊎ (to + len ≤ from) }
        ensures len { SameLengths self.old self.new }
        ensures count { length self.new ≡ length self.old }
        ensures image { CopiesBlock self.old self.new from to len }
    {
        let (number, offset) = (to / CHUNK_SIZE, to % CHUNK_SIZE);
        let empty = Chunk::new(*self.groups.allocator());
        let mut chunk = self.groups[number / GROUP_SIZE].replace(number % GROUP_SIZE, empty);
        if from / CHUNK_SIZE == number {
            chunk.copy_apart(from % CHUNK_SIZE, offset, len);
        } else {
            let source = self.chunk(from / CHUNK_SIZE);
            if source.is_empty() {
                // Setting bytes to 0 is faster than copying zeros.
                chunk.fill(offset, len, 0);
            } else {
                let start = from % CHUNK_SIZE;
                chunk.put(offset, &source[start..start + len]);
            }
        }
        self.groups[number / GROUP_SIZE].replace(number % GROUP_SIZE, chunk);
    }

    /// Copies `len` bytes from `from` to `to`. The chunks of the destination are already made, and the two ranges share
    /// no address.
    // (Not inlined: otherwise a copy takes one percent more instructions.)
    #[inline(never)]
    #[tactic(auto, using(crate::proofs::PageImages::put_none))]
    pub(crate) fn copy_apart(&mut self, from: usize, to: usize, len: usize)
        requires source { from + len < 2 ^ 33 }
        requires limit { to + len < 2 ^ 33 }
        requires made { RangeMade self.old to (to + len) }
        requires apart { (from + len ≤ to) ⊎ (to + len ≤ from) }
        ensures len { SameLengths self.old self.new }
        ensures count { length self.new ≡ length self.old }
        ensures image { CopiesBlock self.old self.new from to len }
    {
        let mut done = 0;
        while done < len {
            let (source, target) = (from + done, to + done);
            let count = in_one_chunk(source, in_one_chunk(target, len - done));
            self.copy_in_chunks(source, target, count);
            done += count;
        }
    }

    // Sets `len` bytes that lie in one chunk, which is already made, to one byte.
    #[tactic(auto, using(crate::proofs::ChunkChanges::group_found, crate::proofs::ChunkChanges::chunk_in_group))]
    fn fill_in_chunk(&mut self, start: usize, len: usize, byte: u8)
        requires within { start % chunk_size + len ≤ chunk_size }
        requires made { 0 < length (chunk_of self.old start) }
        ensures len { SameLengths self.old self.new }
        ensures count { length self.new ≡ length self.old }
        ensures image { FillsBlock self.old self.new start len byte }
    {
        let number = start / CHUNK_SIZE;
        let group = &mut self.groups[number / GROUP_SIZE];
        group.fill(number % GROUP_SIZE, start % CHUNK_SIZE, len, byte);
    }

    /// Sets the `len` bytes from `start` on to one byte. Their chunks are already made.
    // (Not inlined, as `copy_apart`.)
    #[inline(never)]
    #[tactic(auto, using(crate::proofs::PageImages::put_none))]
    pub(crate) fn fill(&mut self, start: usize, len: usize, byte: u8)
        requires limit { start + len < 2 ^ 33 }
        requires made { RangeMade self.old start (start + len) }
        ensures len { SameLengths self.old self.new }
        ensures count { length self.new ≡ length self.old }
        ensures image { FillsBlock self.old self.new start len byte }
    {
        let mut done = 0;
        while done < len {
            let count = in_one_chunk(start + done, len - done);
            self.fill_in_chunk(start + done, count, byte);
            done += count;
        }
    }
}
