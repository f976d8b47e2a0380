//! The choices of a chip's designer.

ghost use Rattle.std.specs.Prelude.{◌≡◌, ◌≤◌};
ghost use Rattle.dma_device.specs.Config.{is_valid, revision_code};

pub use dma_chan::bus::BusWidth;
use dma_mem::limits::MAX_CHANNELS;
use thiserror::Error;

/// The most events that a device can have.
pub const MAX_EVENTS: u8 = 32;

/// The most lines of a buffer that CRD has room for.
pub const MAX_LINES: u16 = 1024;

/// The bytes of buffer that each channel has for itself, as many as it can hold between loads and stores.
pub const MAX_BUFFER: u32 = 256;

/// The revision of the controller, for instance r1p2. Linux's driver puts barriers between loads and stores only for
/// r0p0.
#[derive(Clone, Copy, PartialEq, Eq)]
pub enum Revision {
    R0p0,
    R1p0,
    R1p1,
    R1p2,
}

impl Revision {
    /// Returns the code in periph_id_2.
    pub fn code(self) -> u32
        ensures value { result ≡ revision_code self }
        ensures range { result ≤ 3 }
    {
        match self {
            Revision::R0p0 => 0,
            Revision::R1p0 => 1,
            Revision::R1p1 => 2,
            Revision::R1p2 => 3,
        }
    }
}

/// The choices of a chip's designer. A guest's driver reads them in CR0 to CRD and in periph_id_2.
#[derive(Clone, Copy)]
pub struct Config {
    /// The number of channels, 1 to 8.
    pub channels: u8,
    /// The number of events, 1 to 32. Each is an event or an interrupt, as INTEN says.
    pub events: u8,
    /// Whether the manager is in the non-secure state after a reset.
    pub nonsecure: bool,
    /// The width of the data bus. A beat that is wider is an invalid operand of DMAMOV CCR.
    pub bus: BusWidth,
    /// The number of lines of the buffer, each as wide as the bus, 1 to 1,024. It only shows in CRD: each channel has
    /// 256 bytes of buffer for itself.
    pub lines: u16,
    pub revision: Revision,
}

/// Why a device wasn't made.
#[derive(Clone, Copy, Debug, PartialEq, Eq, Error)]
pub enum NewFault {
    /// A number is out of range.
    #[error("the configuration is out of range")]
    BadConfig,
    #[error("out of memory")]
    NoMemory,
}

impl Config {
    /// Returns whether a device can have this configuration.
    pub fn is_valid(&self) -> bool
        ensures { result ≡ is_valid self.now }
    {
        1 <= self.channels
            && self.channels <= MAX_CHANNELS
            && 1 <= self.events
            && self.events <= MAX_EVENTS
            && 1 <= self.lines
            && self.lines <= MAX_LINES
    }
}
