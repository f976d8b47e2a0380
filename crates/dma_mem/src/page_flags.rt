//! Which pages of a memory are made.

ghost use Rattle.std.specs.Prelude.{◌≡◌, ◌<◌, ◌≤◌, ◌⊎◌, ℕ, [], length, slice_index_or, true, false, IfOk, OnOk, OnErr};

use std::alloc::{AllocError, Global};
use std::marker::Model;

/// A flag for each page, by number. The list is as long as it had to be so far, and no flag past its end is set.
#[derive(Drop)]
pub(crate) struct PageFlags {
    flags: Vec<bool>,
}

impl Model for PageFlags {
    ghost use Rattle.std.specs.Prelude.{List, Bool};

    ghost Value = { List Bool };

    ghost view = { λ f. f.flags.items };
}

impl PageFlags {
    /// Returns flags of which none is set, without allocating.
    pub(crate) fn new(alloc: Global) -> PageFlags
        ensures { result ≡ [] }
    {
        PageFlags {
            flags: Vec::new(alloc),
        }
    }

    // Returns whether a flag is set.
    fn is_set(&self, page: usize) -> bool
        ensures { result ≡ slice_index_or self.now page false }
    {
        match self.flags.get(page) {
            Some(flag) => *flag,
            None => false,
        }
    }

    /// Returns whether the flags from `first` up to, but not including, `end` are set.
    pub(crate) fn are_set(&self, first: usize, end: usize) -> bool
        ensures yes { result ≡ true → (p : ℕ) → first ≤ p → p < end
            → slice_index_or self.now p false ≡ true }
        ensures no { result ≡ false → (p : ℕ) × (first ≤ p) × (p < end)
            × (slice_index_or self.now p false ≡ false) }
    {
        for page in first..end {
            if !self.is_set(page) {
                return false;
            }
        }
        true
    }

    /// Makes the list at least `count` long. If memory runs out, it fails and the list is unchanged.
    pub(crate) fn make_room(&mut self, count: usize) -> Result<(), AllocError>
        ensures room { OnOk result (count ≤ length self.new) }
        ensures flags { (p : ℕ) → slice_index_or self.new p false ≡ slice_index_or self.old p false }
        ensures short { OnErr result (length self.old < count) }
        ensures err { OnErr result (self.new ≡ self.old) }
    {
        if self.flags.len() < count {
            self.flags.resize(count, false)?;
        }
        Ok(())
    }

    /// Sets the flags from `first` up to, but not including, `end`. The list is long enough.
    pub(crate) fn set(&mut self, first: usize, end: usize)
        requires order { first ≤ end }
        requires room { end ≤ length self.old }
        ensures inside { (p : ℕ) → first ≤ p → p < end → slice_index_or self.new p false ≡ true }
        ensures outside { (p : ℕ) → (p < first) ⊎ (end ≤ p)
            → slice_index_or self.new p false ≡ slice_index_or self.old p false }
    {
        for page in first..end {
            self.flags[page] = true;
        }
    }

    /// Returns a copy of the flags. Fails with `AllocError` if memory runs out.
    pub(crate) fn try_copy(&self) -> Result<PageFlags, AllocError>
        ensures { IfOk result (λ copy. copy ≡ self.now) }
    {
        let flags = Vec::from_slice(*self.flags.allocator(), self.flags.as_slice())?;
        Ok(PageFlags { flags })
    }
}
