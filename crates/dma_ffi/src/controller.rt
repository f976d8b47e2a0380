//! The value that C keeps for an engine between calls.

ghost use Rattle.std.specs.Prelude.{◌≡◌, ◌↔◌, IsTrue, IsSome, Option};
ghost use Rattle.std.specs.Borrow.{sem};
ghost use Rattle.std.specs.Option.{option_map};
ghost use Rattle.dma_engine.specs.View.{EngineState};
ghost use Rattle.dma_engine.specs.contracts.engine.Engine.{the_row};
ghost use Rattle.dma_ffi.specs.inner.Owned.{owned};

use crate::kept::Kept;
use dma_engine::Engine;
use std::marker::Model;

/// The pointer that owns an engine, or nothing. An exported function takes no generic type and no pointer to an engine,
/// so this is the [`HeapPointer`](crate::heap_pointer::HeapPointer) of an engine as a pointer to bytes.
#[repr(C)]
pub struct EnginePointer {
    at: *mut u8,
    pub ghost value: { Option EngineState },
}

impl Model for EnginePointer {
    ghost also_owns = { λ p. owned the_row p.at p.value };
}

// What the pointer owns doesn't depend on the thread.
unsafe impl Send for EnginePointer {}

/// An engine, or none. C sets it to zeros, which mean no engine, before the first call, and doesn't read or write it
/// otherwise. It has no `Drop`, so the compiler rejects code that drops or overwrites it.
#[repr(C)]
pub struct Controller {
    pub engine: EnginePointer,
    is_open: bool,
    ghost holds: { IsTrue is_open ↔ IsSome engine.value },
}

impl Controller {
    ghost use Rattle.dma_ffi.specs.inner.Lending.{LendsController, LendsEngine, of_controller};

    /// Returns the controller as a [`Kept`], which has the same fields.
    pub fn as_kept(&mut self) -> &mut Kept<Engine>
        ensures* writes_back { sem 𝓛 (LendsController self.entry result) }
        ensures value { result.now ≡ of_controller self.old }
    {
        unsafe { &mut *(self as *mut Controller as *mut Kept<Engine>) }
    }

    /// Returns the engine, if any.
    pub fn get_mut(&mut self) -> Option<&mut Engine>
        ensures* writes_back { sem 𝓛 (LendsEngine self.entry result) }
        ensures value { option_map (λ r. r.now) result ≡ self.old.engine.value }
    {
        self.as_kept().get_mut()
    }
}

/// Returns the value unchanged. It accepts only values that may be sent to another thread.
pub(crate) fn sent<T: Send>(value: T) -> T
    ensures { result ≡ value }
{
    value
}

/// Returns the controller unchanged. It compiles only because a controller may be sent to another thread.
pub fn goes_to_another_thread(controller: Controller) -> Controller
    ensures { result ≡ controller }
{
    sent(controller)
}
