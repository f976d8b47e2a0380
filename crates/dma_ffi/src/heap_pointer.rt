//! A pointer that owns a value on the heap, or nothing: a `Box` for values that C keeps between calls.
//!
//! Proved, by hand: the rebuilt box has the last value that was written, and the pointer owns the value's memory in
//! between. Not proved: that the box is rebuilt. A pointer that is taken apart and forgotten leaks.

ghost use Rattle.std.specs.Prelude.{◌≡◌, IsSome, Option, None, Some};
ghost use Rattle.std.specs.Borrow.{sem};
ghost use Rattle.dma_ffi.specs.inner.Owned.{owned};

use std::alloc::Global;
use std::marker::Model;

/// The pointer that owns a value on the heap, or nothing. It has no `Drop`: [`HeapPointer::into_box`] consumes one with
/// a value, [`HeapPointer::end`] one without.
#[repr(C)]
pub struct HeapPointer<T> {
    at: *mut T,
    pub ghost value: { Option T },
}

impl<T> Model for HeapPointer<T> {
    ghost also_owns = { λ p. owned T.row p.at p.value };
}

impl<T> HeapPointer<T> {
    ghost use Rattle.dma_ffi.specs.inner.Lending.{LendsValue};

    /// Returns a pointer that owns nothing.
    pub fn empty() -> HeapPointer<T>
        ensures { result.value ≡ None }
    {
        HeapPointer {
            at: std::ptr::null_mut(),
        }
    }

    /// Returns the value that the pointer owns.
    pub fn as_mut(&mut self) -> &mut T
        requires { IsSome self.old.value }
        ensures* writes_back { sem 𝓛 (LendsValue T.row self.entry result) }
        ensures value { Some result.now ≡ self.old.value }
    {
        unsafe { &mut *self.at }
    }

    /// Consumes a pointer that owns nothing.
    pub fn end(self)
        requires { self.value ≡ None }
    {
        let HeapPointer { at: _ } = self;
    }
}

impl<T: Drop> HeapPointer<T> {
    /// Returns the pointer to the value of a box.
    pub fn of(value: Box<T>) -> HeapPointer<T>
        ensures { result.value ≡ Some value.value }
    {
        let (at, _) = Box::into_raw_with_allocator(value);
        HeapPointer { at }
    }

    /// Rebuilds the box of the value that the pointer owns.
    pub fn into_box(self, alloc: Global) -> Box<T>
        requires { IsSome self.value }
        ensures { Some result.value ≡ self.value }
    {
        let HeapPointer { at } = self;
        unsafe { Box::from_raw(alloc, at) }
    }
}
