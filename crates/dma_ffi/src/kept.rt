//! A value that C keeps between calls, of any type.

ghost use Rattle.std.specs.Prelude.{◌≡◌, ◌↔◌, IsTrue, IsSome, None, OnErr, OnOk, Some};
ghost use Rattle.std.specs.Borrow.{sem};
ghost use Rattle.std.specs.Option.{option_map};

use crate::heap_pointer::HeapPointer;
use std::alloc::{AllocError, Global};

/// A value on the heap, or none. It has no `Drop`, so the compiler rejects code that drops or overwrites it.
#[repr(C)]
pub struct Kept<T> {
    pub at: HeapPointer<T>,
    is_open: bool,
    ghost holds: { IsTrue is_open ↔ IsSome at.value },
}

impl<T: Drop> Kept<T> {
    ghost use Rattle.dma_ffi.specs.inner.Lending.{LendsKept};

    /// Returns whether there is a value.
    pub fn is_open(&self) -> bool
        ensures { IsTrue result ↔ IsSome self.now.at.value }
    {
        self.is_open
    }

    /// Returns the value, if any.
    pub fn get_mut(&mut self) -> Option<&mut T>
        ensures* writes_back { sem 𝓛 (LendsKept T.row self.entry result) }
        ensures value { option_map (λ r. r.now) result ≡ self.old.at.value }
    {
        if self.is_open {
            Some(self.at.as_mut())
        } else {
            None
        }
    }

    /// Keeps a value, where there was none. Fails if out of memory.
    pub fn open(&mut self, alloc: Global, value: T) -> Result<(), AllocError>
        requires { self.old.at.value ≡ None }
        ensures ok { OnOk result (self.new.at.value ≡ Some value) }
        ensures err { OnErr result (self.new.at.value ≡ None) }
    {
        let value = HeapPointer::of(Box::new(alloc, value)?);
        std::mem::replace(&mut self.at, value).end();
        self.is_open = true;
        Ok(())
    }

    /// Frees the value, if any.
    pub fn close(&mut self, alloc: Global)
        ensures { self.new.at.value ≡ None }
    {
        if self.is_open() {
            self.is_open = false;
            let at = std::mem::replace(&mut self.at, HeapPointer::empty());
            drop(at.into_box(alloc));
        }
    }
}
