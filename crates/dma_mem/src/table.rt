//! A table of chunks, by number. A chunk is four pages in one piece, and is made when one of them is first made.

ghost use Rattle.std.specs.Prelude.{◌≡◌, ◌≢◌, ℕ, ◌+◌, ◌*◌, ◌/◌, ◌%◌, ◌<◌, ◌≤◌, [], length, take, slice_index, slice_index_or, slice_set, vec_capacity, IsTrue, IfOk, OnOk, OnErr};
ghost use Rattle.dma_mem.specs.Image.{put, bytes_at};
ghost use Rattle.dma_mem.specs.inner.ChunkTable.{bytes_shown, chunk_size, group_size, chunk_at, chunk_of, is_blank, OthersStay, PutsBytes, SameBytes, SameLengths};

mod addresses;
pub(crate) mod blocks;

use std::alloc::{AllocError, Global};
use std::marker::Model;

// How many bytes a chunk has. Blocks of this length are copied almost as fast as longer ones.
const CHUNK_SIZE: usize = 16_384;

// How many chunks are in one group of the table.
const GROUP_SIZE: usize = 256;

// The bytes of a chunk that isn't made or is blank.
static BLANK_CHUNK: [u8; CHUNK_SIZE] = [0; CHUNK_SIZE];

// Writes the bytes from index `start` on.
pub(crate) fn put_bytes(all: &mut [u8], start: usize, bytes: &[u8])
    requires { start + length bytes.now ≤ length all.old }
    ensures { all.new ≡ put all.old (bytes_at start bytes.now) }
{
    all[start..start + bytes.len()].copy_from_slice(bytes);
}

// Returns whether the list of a chunk has memory but no bytes.
fn is_blank(bytes: &Vec<u8>) -> bool
    ensures { result ≡ is_blank (vec_capacity bytes.now) bytes.now.items }
{
    bytes.is_empty() && bytes.capacity() > 0
}

// Adds the zeros of a chunk to its empty list, which has memory for them. Not inlined, since it is rare.
#[inline(never)]
fn push_zeros(bytes: &mut Vec<u8>)
    requires blank { IsTrue (is_blank (vec_capacity bytes.old) bytes.old.items) }
    requires room { chunk_size ≤ vec_capacity bytes.old }
    ensures bytes { bytes.new.items ≡ bytes_shown (vec_capacity bytes.old) bytes.old.items }
    ensures capacity { vec_capacity bytes.old ≤ vec_capacity bytes.new }
{
    let Ok(()) = bytes.resize(CHUNK_SIZE, 0) else {
        unreachable!();
    };
}

// Adds the zeros of a chunk to its list, if the list has memory but no bytes.
fn add_zeros(bytes: &mut Vec<u8>)
    requires { 0 < vec_capacity bytes.old → chunk_size ≤ vec_capacity bytes.old }
    ensures bytes { bytes.new.items ≡ bytes_shown (vec_capacity bytes.old) bytes.old.items }
    ensures capacity { vec_capacity bytes.old ≤ vec_capacity bytes.new }
{
    if is_blank(bytes) {
        push_zeros(bytes);
    }
}

// A chunk: 16,384 bytes if it is made, otherwise none. The list of a new chunk has memory for the bytes but is empty,
// so that this memory isn't touched. The first `put` or `copy_apart`, or `fill` with another byte than 0, adds them.
#[derive(Drop)]
struct Chunk {
    bytes: Vec<u8>,
}

impl Model for Chunk {
    ghost use Rattle.std.specs.Prelude.{List, ℕ, ◌≤◌, ◌<◌, length, vec_capacity};

    ghost Value = { List ℕ };

    ghost use Rattle.dma_mem.specs.inner.ChunkTable.{bytes_shown, chunk_size};

    ghost view = { λ p. bytes_shown (vec_capacity p.bytes) p.bytes.items };

    ghost invariant = { λ p. (0 < length p.bytes.items → chunk_size ≤ length p.bytes.items)
        × (length p.bytes.items ≤ chunk_size)
        × (0 < vec_capacity p.bytes → chunk_size ≤ vec_capacity p.bytes) };
}

impl Chunk {
    // Returns a chunk that isn't made, without allocating.
    fn new(alloc: Global) -> Chunk
        ensures { result ≡ [] }
    {
        Chunk {
            bytes: Vec::new(alloc),
        }
    }

    // Returns the chunk's bytes, or none if it isn't made.
    fn as_slice(&self) -> &[u8]
        ensures bytes { result.now ≡ self.now }
        ensures whole { 0 < length self.now → length self.now ≡ chunk_size }
    {
        if is_blank(&self.bytes) {
            return &BLANK_CHUNK;
        }
        self.bytes.as_slice()
    }

    // Makes the chunk, of zeros, if it isn't made.
    fn make(&mut self) -> Result<(), AllocError>
        ensures whole { OnOk result (length self.new ≡ chunk_size) }
        ensures bytes { SameBytes self.old self.new }
        ensures kept { 0 < length self.old → self.new ≡ self.old }
        ensures short { OnErr result (length self.old ≡ 0) }
        ensures err { OnErr result (self.new ≡ self.old) }
    {
        if self.bytes.capacity() == 0 {
            self.bytes = Vec::with_capacity(*self.bytes.allocator(), CHUNK_SIZE)?;
        }
        Ok(())
    }

    // Writes the bytes from an offset on. The chunk is already made.
    #[inline(always)]
    fn put(&mut self, offset: usize, bytes: &[u8])
        requires fits { offset + length bytes.now ≤ chunk_size }
        requires made { 0 < length self.old }
        ensures whole { length self.new ≡ chunk_size }
        ensures len { length self.new ≡ length self.old }
        ensures bytes { self.new ≡ put self.old (bytes_at offset bytes.now) }
    {
        add_zeros(&mut self.bytes);
        put_bytes(&mut self.bytes, offset, bytes);
    }

    // Returns a copy of the chunk.
    fn try_copy(&self) -> Result<Chunk, AllocError>
        ensures { IfOk result (λ copy. copy ≡ self.now) }
    {
        let alloc = *self.bytes.allocator();
        if self.bytes.capacity() == 0 {
            return Ok(Chunk::new(alloc));
        }
        let bytes = if is_blank(&self.bytes) {
            Vec::with_capacity(alloc, CHUNK_SIZE)?
        } else {
            Vec::from_slice(alloc, self.bytes.as_slice())?
        };
        Ok(Chunk { bytes })
    }
}

// 256 chunks with consecutive numbers. The list is empty until one of them is first made.
#[derive(Drop)]
struct Group {
    chunks: Vec<Chunk>,
}

impl Model for Group {
    ghost use Rattle.std.specs.Prelude.{List, ℕ, ◌≤◌, ◌<◌, length};

    ghost Value = { List (List ℕ) };

    ghost view = { λ g. g.chunks.items };

    ghost use Rattle.dma_mem.specs.inner.ChunkTable.{group_size};

    ghost invariant = { λ g. 0 < length g.chunks.items → group_size ≤ length g.chunks.items };
}

// Returns `count` chunks, none of them made.
fn no_chunks(alloc: Global, count: usize) -> Result<Vec<Chunk>, AllocError>
    ensures len { IfOk result (λ v. length v.items ≡ count) }
    ensures none { IfOk result (λ v. (p : ℕ) → chunk_at v.items p ≡ []) }
{
    let mut chunks = Vec::with_capacity(alloc, count)?;
    for _chunk in 0..count {
        chunks.push(Chunk::new(alloc))?;
    }
    Ok(chunks)
}

impl Group {
    // Returns a group in which no chunk is made, without allocating.
    fn new(alloc: Global) -> Group
        ensures { result ≡ [] }
    {
        Group {
            chunks: Vec::new(alloc),
        }
    }

    // Returns the bytes of a chunk, or none if it isn't made.
    fn chunk(&self, index: usize) -> &[u8]
        ensures bytes { result.now ≡ chunk_at self.now index }
        ensures whole { 0 < length result.now → length result.now ≡ chunk_size }
    {
        match self.chunks.get(index) {
            Some(chunk) => chunk.as_slice(),
            None => &[],
        }
    }

    // Allocates the list of chunks if it is empty.
    fn open(&mut self) -> Result<(), AllocError>
        ensures long { OnOk result (group_size ≤ length self.new) }
        ensures chunks { (p : ℕ) → chunk_at self.new p ≡ chunk_at self.old p }
        ensures kept { 0 < length self.old → (result ≡ Ok tt) × (self.new ≡ self.old) }
    {
        if self.chunks.is_empty() {
            self.chunks = no_chunks(*self.chunks.allocator(), GROUP_SIZE)?;
        }
        Ok(())
    }

    // Makes a chunk if it isn't made.
    fn make(&mut self, index: usize) -> Result<(), AllocError>
        requires { index < group_size }
        ensures whole { OnOk result (length (chunk_at self.new index) ≡ chunk_size) }
        ensures bytes { SameBytes (chunk_at self.old index) (chunk_at self.new index) }
        ensures others { OthersStay self.old self.new index }
        ensures kept { 0 < length (chunk_at self.old index)
            → (p : ℕ) → chunk_at self.new p ≡ chunk_at self.old p }
        ensures short { OnErr result (length (chunk_at self.old index) ≡ 0) }
        ensures err { OnErr result ((p : ℕ) → chunk_at self.new p ≡ chunk_at self.old p) }
    {
        self.open()?;
        let chunk = &mut self.chunks[index];
        chunk.make()
    }

    // Writes the bytes to a chunk that is already made, from an offset on.
    #[inline(always)]
    fn put(&mut self, index: usize, offset: usize, bytes: &[u8])
        requires fits { offset + length bytes.now ≤ chunk_size }
        requires made { 0 < length (chunk_at self.old index) }
        ensures whole { length (chunk_at self.old index) ≡ chunk_size }
        ensures new { self.new
            ≡ slice_set self.old index (put (chunk_at self.old index) (bytes_at offset bytes.now)) }
    {
        let chunk = &mut self.chunks[index];
        chunk.put(offset, bytes);
    }

    // Returns a copy of the group.
    fn try_copy(&self) -> Result<Group, AllocError>
        ensures { IfOk result (λ copy. copy ≡ self.now) }
    {
        let mut chunks = Vec::with_capacity(*self.chunks.allocator(), self.chunks.len())?;
        for chunk in &self.chunks {
            chunks.push(chunk.try_copy()?)?;
        }
        Ok(Group { chunks })
    }
}

// Returns `count` groups in which no chunk is made.
#[tactic(auto, using(crate::proofs::ChunkTables::none_more))]
fn no_groups(alloc: Global, count: usize) -> Result<Vec<Group>, AllocError>
    ensures len { IfOk result (λ v. length v.items ≡ count) }
    ensures none { IfOk result (λ v. (g : ℕ) → slice_index_or v.items g [] ≡ []) }
{
    let mut groups = Vec::with_capacity(alloc, count)?;
    for _group in 0..count {
        groups.push(Group::new(alloc))?;
    }
    Ok(groups)
}

/// A table of chunks, by number. Contracts see the bytes of each chunk, none if it isn't made.
#[derive(Drop)]
pub(crate) struct Table {
    groups: Vec<Group>,
}

impl Model for Table {
    ghost use Rattle.std.specs.Prelude.{List, ℕ};
    ghost use Rattle.dma_mem.specs.inner.ChunkTable.{flat};

    ghost Value = { List (List ℕ) };

    ghost view = { λ t. flat t.groups.items };
}

impl Table {
    /// Returns a table of chunks for at least `size` bytes, none of them made.
    #[tactic(auto, using(crate::proofs::ChunkTables::length_flat, crate::proofs::ChunkTables::chunk_at_flat))]
    pub(crate) fn new(alloc: Global, size: usize) -> Result<Table, AllocError>
        ensures enough { IfOk result (λ table. size ≤ chunk_size * length table) }
        ensures none { IfOk result (λ table. (p : ℕ) → chunk_at table p ≡ []) }
    {
        let groups = no_groups(alloc, size.div_ceil(CHUNK_SIZE * GROUP_SIZE))?;
        Ok(Table { groups })
    }

    // Returns the bytes of a chunk, or none if it isn't made.
    fn chunk(&self, number: usize) -> &[u8]
        ensures bytes { result.now ≡ chunk_at self.now number }
        ensures whole { 0 < length result.now → length result.now ≡ chunk_size }
    {
        match self.groups.get(number / GROUP_SIZE) {
            Some(group) => group.chunk(number % GROUP_SIZE),
            None => &[],
        }
    }

    // Makes a chunk, of zeros, if it isn't made.
    fn make_chunk(&mut self, number: usize) -> Result<(), AllocError>
        requires { number < length self.old }
        ensures count { length self.new ≡ length self.old }
        ensures whole { OnOk result (length (chunk_at self.new number) ≡ chunk_size) }
        ensures bytes { SameBytes (chunk_at self.old number) (chunk_at self.new number) }
        ensures others { OthersStay self.old self.new number }
        ensures kept { 0 < length (chunk_at self.old number) → self.new ≡ self.old }
        ensures short { OnErr result (length (chunk_at self.old number) ≡ 0) }
        ensures err { OnErr result (self.new ≡ self.old) }
    {
        let group = &mut self.groups[number / GROUP_SIZE];
        group.make(number % GROUP_SIZE)
    }

    // Writes the bytes from `start` on. They lie in one chunk, which is already made.
    #[inline(always)]
    #[tactic(auto, using(crate::proofs::ChunkChanges::group_found, crate::proofs::ChunkChanges::chunk_in_group))]
    fn put_in_chunk(&mut self, start: usize, bytes: &[u8])
        requires within { start % chunk_size + length bytes.now ≤ chunk_size }
        requires made { 0 < length (chunk_of self.old start) }
        ensures len { SameLengths self.old self.new }
        ensures count { length self.new ≡ length self.old }
        ensures image { PutsBytes self.old self.new start bytes.now }
    {
        let number = start / CHUNK_SIZE;
        let group = &mut self.groups[number / GROUP_SIZE];
        group.put(number % GROUP_SIZE, start % CHUNK_SIZE, bytes);
    }

    /// Returns a copy of the table.
    pub(crate) fn try_copy(&self) -> Result<Table, AllocError>
        ensures { IfOk result (λ copy. copy ≡ self.now) }
    {
        let mut groups = Vec::with_capacity(*self.groups.allocator(), self.groups.len())?;
        for group in &self.groups {
            groups.push(group.try_copy()?)?;
        }
        Ok(Table { groups })
    }
}

// Returns the bytes of a chunk, or zeros if it isn't made.
fn shown(chunk: &[u8]) -> &[u8]
    requires { 0 < length chunk.now → length chunk.now ≡ chunk_size }
    ensures len { length result.now ≡ chunk_size }
    ensures bytes { (k : ℕ) → slice_index result.now k ≡ slice_index chunk.now k }
{
    if chunk.is_empty() {
        return &BLANK_CHUNK;
    }
    chunk
}
