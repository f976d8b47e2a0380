//! A list that contracts see as its items and the room for more items.

ghost use Rattle.std.specs.Prelude.{◌≡◌, ◌+◌, ◌<◌, ◌≤◌, ◌++◌, ◌∷◌, [], length, IsOk, OnOk, OnErr};

use crate::fault::NoMemory;
use std::alloc::Global;
use std::marker::Model;

/// A list whose room for more items is made before they are added.
#[derive(Drop)]
pub struct SpareVec<T> {
    items: Vec<T>,
}

impl<T> Model for SpareVec<T> {
    ghost use Rattle.std.specs.Prelude.{◌-◌, vec_capacity, vec_len};
    ghost use Rattle.dma_engine.specs.inner.SpareList.{SpareList};

    ghost Value = { SpareList T };

    ghost view = { λ l. record {
      items = l.items.items;
      spare = vec_capacity l.items - vec_len l.items;
    } };
}

impl<T> SpareVec<T> {
    /// Returns an empty list. It allocates no memory.
    pub fn new(alloc: Global) -> SpareVec<T>
        ensures { result ≡ record { items = []; spare = 0 } }
    {
        SpareVec {
            items: Vec::new(alloc),
        }
    }

    /// Returns the number of items.
    pub fn len(&self) -> usize
        ensures { result ≡ length self.now.items }
    {
        self.items.len()
    }

    /// Returns the items.
    pub fn as_slice(&self) -> &[T]
        ensures { result.now ≡ self.now.items }
    {
        self.items.as_slice()
    }

    /// Makes room for this number of further items. Nothing changes when out of memory.
    pub fn make_room(&mut self, more: usize) -> Result<(), NoMemory>
        ensures items { self.new.items ≡ self.old.items }
        ensures room { OnOk result (more ≤ self.new.spare) }
        ensures none { OnErr result (self.new ≡ self.old) }
        ensures there { more ≤ self.old.spare → IsOk result }
        ensures kept { self.old.spare ≤ self.new.spare }
    {
        Ok(self.items.reserve(more)?)
    }

    /// Adds an item at the end. There must be room for it.
    pub fn add(&mut self, item: T)
        requires { 0 < self.old.spare }
        ensures items { self.new.items ≡ self.old.items ++ item ∷ [] }
        ensures spare { self.old.spare ≤ self.new.spare + 1 }
    {
        self.items.push_reserved(item);
    }
}
