//! The configuration of a device as C writes it.

ghost use Rattle.std.specs.Prelude.{◌≡◌};
ghost use Rattle.dma_ffi.specs.Devices.{width_of_bits, config_of, revision_of};
ghost use Rattle.dma_ffi.specs.Explaining.{any_bus};

use dma_chan::bus::Bus;
use dma_device::config::{BusWidth, Config, Revision};

/// The choices of a chip's designer, as numbers.
#[repr(C)]
#[derive(Clone, Copy)]
pub struct DeviceConfig {
    /// The number of channels, 1 to 8.
    pub channels: u32,
    /// The number of events, 1 to 32.
    pub events: u32,
    /// 0 if the manager is in the secure state after a reset.
    pub nonsecure: u32,
    /// The width of the data bus in bits: 32, 64 or 128.
    pub bus: u32,
    /// The number of lines of the buffer, each as wide as the bus.
    pub lines: u32,
    /// The code of the revision in periph_id_2: 0 for r0p0, 1 for r1p0, 2 for r1p1, 3 for r1p2.
    pub revision: u32,
}

// Returns the width of a bus of this many bits, if there is one.
fn width_of_bits(bits: u32) -> Option<BusWidth>
    ensures { result ≡ width_of_bits bits }
{
    match bits {
        32 => Some(BusWidth::Bits32),
        64 => Some(BusWidth::Bits64),
        128 => Some(BusWidth::Bits128),
        _ => None,
    }
}

/// Returns the ideal bus for 0, else a chip's bus of this many bits, if any.
pub fn any_bus(bits: u32) -> Option<Bus>
    ensures { result ≡ any_bus bits }
{
    if bits == 0 {
        return Some(Bus::Ideal);
    }
    let width = width_of_bits(bits)?;
    Some(Bus::Chip(width))
}

// Returns the revision with this code, if any.
fn revision_of(code: u32) -> Option<Revision>
    ensures { result ≡ revision_of code }
{
    match code {
        0 => Some(Revision::R0p0),
        1 => Some(Revision::R1p0),
        2 => Some(Revision::R1p1),
        3 => Some(Revision::R1p2),
        _ => None,
    }
}

/// Returns the configuration of these numbers, if any. Counts that are too large become others that are too large.
pub fn config_of(numbers: &DeviceConfig) -> Option<Config>
    ensures { result ≡ config_of numbers.now }
{
    let bus = width_of_bits(numbers.bus)?;
    let revision = revision_of(numbers.revision)?;
    Some(Config {
        channels: numbers.channels.min(255) as u8,
        events: numbers.events.min(255) as u8,
        nonsecure: numbers.nonsecure != 0,
        bus,
        lines: numbers.lines.min(65_535) as u16,
        revision,
    })
}
