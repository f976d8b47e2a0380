//! Lists of bytes and of segments. Contracts see only their items. A short list is kept in the value itself and
//! allocates nothing. A longer one is behind a pointer, so that the value stays small: histories and scripts have many
//! lists.

ghost use Rattle.std.specs.Prelude.{◌≡◌, ◌∷◌, ◌++◌, ◌==◌, ◌≤◌, [], length, IfOk, IsOk, OnOk, OnErr};
ghost use Rattle.dma_mem.specs.inner.Stored.{FitsInline, bytes_in, segments_in};

use crate::segment::Segment;
use std::alloc::{AllocError, Global};
use std::marker::Model;
use std::slice;

/// The most bytes that a list keeps in the value itself.
const INLINE_BYTES: usize = 22;

/// Where the bytes of a list are.
#[derive(Drop)]
enum StoredBytes {
    /// In the value: the first `len` of `bytes`.
    Few { len: u8, bytes: [u8; INLINE_BYTES] },
    /// Behind a pointer.
    Long(Box<Vec<u8>>),
}

/// A list of bytes, such as those of a write. Up to 22 are kept in the value itself, so a short list takes no memory.
#[derive(Drop)]
pub struct Bytes {
    stored: StoredBytes,
}

impl Model for Bytes {
    ghost use Rattle.std.specs.Prelude.{List, ℕ};
    ghost use Rattle.dma_mem.specs.inner.Stored.{FitsInline, bytes_in};

    ghost Value = { List ℕ };

    ghost view = { λ b. bytes_in b.stored };

    ghost invariant = { λ b. FitsInline b.stored };
}

/// Returns a copy of a few bytes, kept in the value.
fn few(bytes: &[u8]) -> StoredBytes
    requires { length bytes.now ≤ 22 }
    ensures bytes { bytes_in result ≡ bytes.now }
    ensures fits { FitsInline result }
{
    let mut all = [0; INLINE_BYTES];
    let front = &mut all[..bytes.len()];
    front.copy_from_slice(bytes);
    StoredBytes::Few {
        len: bytes.len() as u8,
        bytes: all,
    }
}

impl Bytes {
    /// Returns a copy of these bytes. Fails with `AllocError` if memory runs out.
    pub fn from_slice(alloc: Global, bytes: &[u8]) -> Result<Bytes, AllocError>
        ensures { IfOk result (λ list. list ≡ bytes.now) }
    {
        if bytes.len() <= INLINE_BYTES {
            let stored = few(bytes);
            return Ok(Bytes { stored });
        }
        let bytes = Vec::from_slice(alloc, bytes)?;
        let stored = StoredBytes::Long(Box::new(alloc, bytes)?);
        Ok(Bytes { stored })
    }

    /// Returns the bytes of a vector. A long vector is moved, not copied. Fails with `AllocError` if memory runs out.
    pub fn from_vec(bytes: Vec<u8>) -> Result<Bytes, AllocError>
        ensures { IfOk result (λ list. list ≡ bytes.items) }
    {
        if bytes.len() <= INLINE_BYTES {
            let stored = few(&bytes);
            return Ok(Bytes { stored });
        }
        let stored = StoredBytes::Long(Box::new(*bytes.allocator(), bytes)?);
        Ok(Bytes { stored })
    }

    /// Returns the bytes.
    pub fn as_slice(&self) -> &[u8]
        ensures { result.now ≡ self.now }
    {
        match &self.stored {
            StoredBytes::Few { len, bytes } => &bytes[..usize::from(*len)],
            StoredBytes::Long(bytes) => bytes.as_slice(),
        }
    }

    /// Returns the number of bytes.
    pub fn len(&self) -> usize
        ensures { result ≡ length self.now }
    {
        self.as_slice().len()
    }

    /// Returns whether the list is empty.
    pub fn is_empty(&self) -> bool
        ensures { result ≡ (length self.now == 0) }
    {
        self.as_slice().is_empty()
    }
}

/// Where the segments of a list are.
#[derive(Drop)]
enum StoredSegments {
    /// The list is empty.
    Empty,
    /// In the value.
    One(Segment),
    /// Behind a pointer.
    Many(Box<Vec<Segment>>),
}

/// A list of segments, such as the sources of a transfer. One segment is kept in the value itself and takes no memory.
#[derive(Drop)]
pub struct Segments {
    alloc: Global,
    stored: StoredSegments,
}

impl Model for Segments {
    ghost use Rattle.std.specs.Prelude.{List};
    ghost use Rattle.dma_mem.specs.declared.segment.Segment.{Segment};
    ghost use Rattle.dma_mem.specs.inner.Stored.{segments_in};

    ghost Value = { List Segment };

    ghost view = { λ s. segments_in s.stored };
}

/// Returns a copy of these segments. A single one is kept in the value.
fn stored(alloc: Global, segments: &[Segment]) -> Result<StoredSegments, AllocError>
    ensures { IfOk result (λ stored. segments_in stored ≡ segments.now) }
{
    match segments {
        [] => Ok(StoredSegments::Empty),
        [segment] => Ok(StoredSegments::One(*segment)),
        _ => {
            let list = Vec::from_slice(alloc, segments)?;
            let list = Box::new(alloc, list)?;
            Ok(StoredSegments::Many(list))
        }
    }
}

impl Segments {
    /// Returns an empty list, without allocating.
    pub fn new(alloc: Global) -> Segments
        ensures { result ≡ [] }
    {
        Segments {
            alloc,
            stored: StoredSegments::Empty,
        }
    }

    /// Returns an empty list with room for this many segments. It allocates nothing if that is 0 or 1. Fails with
    /// `AllocError` if memory runs out.
    pub fn with_capacity(alloc: Global, capacity: usize) -> Result<Segments, AllocError>
        ensures empty { IfOk result (λ list. list ≡ []) }
        ensures few { capacity ≤ 1 → IsOk result }
    {
        if capacity <= 1 {
            return Ok(Segments::new(alloc));
        }
        let list = Vec::with_capacity(alloc, capacity)?;
        let stored = StoredSegments::Many(Box::new(alloc, list)?);
        Ok(Segments { alloc, stored })
    }

    /// Returns a copy of these segments. Fails with `AllocError` if memory runs out.
    pub fn from_slice(alloc: Global, segments: &[Segment]) -> Result<Segments, AllocError>
        ensures { IfOk result (λ list. list ≡ segments.now) }
    {
        let stored = stored(alloc, segments)?;
        Ok(Segments { alloc, stored })
    }

    /// Returns the segments.
    pub fn as_slice(&self) -> &[Segment]
        ensures { result.now ≡ self.now }
    {
        match &self.stored {
            StoredSegments::Empty => &[],
            StoredSegments::One(segment) => slice::from_ref(segment),
            StoredSegments::Many(segments) => segments.as_slice(),
        }
    }

    /// Returns the number of segments.
    pub fn len(&self) -> usize
        ensures { result ≡ length self.now }
    {
        self.as_slice().len()
    }

    /// Returns whether the list is empty.
    pub fn is_empty(&self) -> bool
        ensures { result ≡ (length self.now == 0) }
    {
        self.as_slice().is_empty()
    }

    /// Returns a copy of the list. Fails with `AllocError` if memory runs out.
    pub fn try_copy(&self) -> Result<Segments, AllocError>
        ensures { IfOk result (λ copy. copy ≡ self.now) }
    {
        Segments::from_slice(self.alloc, self.as_slice())
    }

    /// Adds a segment at the end. If memory runs out, it fails and the list is unchanged.
    pub fn push(&mut self, segment: Segment) -> Result<(), AllocError>
        ensures ok { OnOk result (self.new ≡ self.old ++ segment ∷ []) }
        ensures err { OnErr result (self.new ≡ self.old) }
    {
        match &mut self.stored {
            StoredSegments::Empty => self.stored = StoredSegments::One(segment),
            StoredSegments::One(first) => {
                let both = [*first, segment];
                self.stored = stored(self.alloc, &both)?;
            }
            StoredSegments::Many(segments) => segments.push(segment)?,
        }
        Ok(())
    }
}
