//! The value that C keeps for a device between calls.

ghost use Rattle.std.specs.Prelude.{◌≡◌, ◌↔◌, IsTrue, IsSome, Option};
ghost use Rattle.std.specs.Borrow.{sem};
ghost use Rattle.std.specs.Option.{option_map};
ghost use Rattle.dma_device.specs.Device.{DeviceValue};
ghost use Rattle.dma_device.specs.contracts.device.Device.{the_row};
ghost use Rattle.dma_ffi.specs.inner.Owned.{owned};

use crate::controller::sent;
use crate::kept::Kept;
use dma_device::device::Device;
use std::marker::Model;

/// The pointer that owns a device, or nothing, in the form of an
/// [`EnginePointer`](crate::controller::EnginePointer).
#[repr(C)]
pub struct DevicePointer {
    at: *mut u8,
    pub ghost value: { Option DeviceValue },
}

impl Model for DevicePointer {
    ghost also_owns = { λ p. owned the_row p.at p.value };
}

// What the pointer owns doesn't depend on the thread.
unsafe impl Send for DevicePointer {}

/// A device, or none. C sets it to zeros, which mean no device, before the first call, and doesn't read or write it
/// otherwise. It has no `Drop`, so the compiler rejects code that drops or overwrites it.
#[repr(C)]
pub struct KeptDevice {
    pub device: DevicePointer,
    is_open: bool,
    ghost holds: { IsTrue is_open ↔ IsSome device.value },
}

impl KeptDevice {
    ghost use Rattle.dma_ffi.specs.inner.Lending.{LendsDevice, LendsKeptDevice, of_device};

    /// Returns the device as a [`Kept`], which has the same fields.
    pub fn as_kept(&mut self) -> &mut Kept<Device>
        ensures* writes_back { sem 𝓛 (LendsKeptDevice self.entry result) }
        ensures value { result.now ≡ of_device self.old }
    {
        unsafe { &mut *(self as *mut KeptDevice as *mut Kept<Device>) }
    }

    /// Returns the device, if any.
    pub fn get_mut(&mut self) -> Option<&mut Device>
        ensures* writes_back { sem 𝓛 (LendsDevice self.entry result) }
        ensures value { option_map (λ r. r.now) result ≡ self.old.device.value }
    {
        self.as_kept().get_mut()
    }
}

/// Returns the device unchanged. It compiles only because a device may be sent to another thread.
pub fn device_goes_to_another_thread(device: KeptDevice) -> KeptDevice
    ensures { result ≡ device }
{
    sent(device)
}
