//! The buffer of a channel.

ghost use Rattle.std.specs.Prelude.{◌≡◌, ◌+◌, ◌-◌, ◌≤◌, ◌==◌, ◌++◌, [], min, length, take, drop, IfOk, IfSome};
ghost use Rattle.dma_chan.specs.Exec.{buffer_size};

use crate::bursts::BUFFER_SIZE;
use circular_buffer::HeapCircularBuffer;
use std::alloc::{AllocError, Global};
use std::marker::Model;

/// At most 256 bytes, first in, first out, in a ring.
#[derive(Drop)]
pub(crate) struct Fifo {
    ring: HeapCircularBuffer<u8>,
}

impl Model for Fifo {
    ghost use Rattle.std.specs.Prelude.{◌≡◌, List, ℕ};
    ghost use Rattle.dma_chan.specs.Exec.{buffer_size};

    ghost Value = { List ℕ };

    ghost view = { λ f. f.ring.items };

    ghost invariant = { λ f. f.ring.capacity ≡ buffer_size };
}

impl Fifo {
    /// Returns an empty buffer. It allocates its memory here and never again.
    pub(crate) fn new(alloc: Global) -> Result<Fifo, AllocError>
        ensures { IfOk result (λ buffer. buffer ≡ []) }
    {
        Ok(Fifo {
            ring: HeapCircularBuffer::with_capacity(alloc, BUFFER_SIZE)?,
        })
    }

    /// Returns the number of bytes in the buffer.
    pub(crate) fn len(&self) -> usize
        ensures len { result ≡ length self.now }
        ensures within { result ≤ buffer_size }
    {
        self.ring.len()
    }

    /// Returns whether the buffer has no bytes.
    pub(crate) fn is_empty(&self) -> bool
        ensures { result ≡ (length self.now == 0) }
    {
        self.ring.is_empty()
    }

    /// Returns the first `count` bytes if they lie in one piece.
    pub(crate) fn front(&self, count: usize) -> Option<&[u8]>
        requires { count ≤ length self.now }
        ensures { IfSome result (λ bytes. bytes.now ≡ take count self.now) }
    {
        let (front, _) = self.ring.as_slices();
        if count <= front.len() {
            Some(&front[..count])
        } else {
            None
        }
    }

    /// Copies the bytes to `out`, which has as many.
    pub(crate) fn copy_to(&self, out: &mut [u8])
        requires { length out.old ≡ length self.now }
        ensures { out.new ≡ self.now }
    {
        let (front, back) = self.ring.as_slices();
        let (of_front, of_back) = out.split_at_mut(front.len());
        of_front.copy_from_slice(front);
        of_back.copy_from_slice(back);
    }

    /// Removes all bytes.
    pub(crate) fn clear(&mut self)
        ensures { self.new ≡ [] }
    {
        self.ring.clear();
    }

    /// Removes the first `count` bytes.
    pub(crate) fn drop_front(&mut self, count: usize)
        requires { count ≤ length self.old }
        ensures { self.new ≡ drop count self.old }
    {
        self.ring.truncate_front(self.ring.len() - count);
    }

    /// Moves the first bytes to `block`, as many as it has. If none is left, the next one goes to the start of the
    /// ring's memory, so that bursts lie in one piece again. Not inlined, since it is rare.
    #[inline(never)]
    pub(crate) fn read_into(&mut self, block: &mut [u8])
        requires { length block.old ≤ length self.old }
        ensures read { block.new ≡ take (length block.old) self.old }
        ensures bytes { self.new ≡ drop (length block.old) self.old }
    {
        let (_, back) = self.ring.as_slices();
        let past_end = back.len();
        self.ring.read_into(block);
        if self.is_empty() {
            let skipped = [0; BUFFER_SIZE];
            self.ring
                .fill_from_slice(&skipped[past_end.min(BUFFER_SIZE)..]);
            self.ring.truncate_front(0);
        }
    }

    /// Adds the first of these bytes, as many as fit, and returns their number.
    pub(crate) fn fill_from_slice(&mut self, other: &[u8]) -> usize
        ensures count { result ≡ min (length other.now) (buffer_size - length self.old) }
        ensures bytes { self.new ≡ self.old ++ take result other.now }
    {
        self.ring.fill_from_slice(other)
    }
}
