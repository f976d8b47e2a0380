//! The limits that several crates share.

/// The most bytes that a memory can have (profile).
pub const MAX_SIZE: u32 = 4_294_963_200;

/// The most segments in one list (profile).
pub const MAX_SEGMENTS: usize = 64;

/// The most bytes in one transfer (profile).
pub const MAX_TRANSFER_BYTES: u32 = 1_048_576;

/// The last event of the controller (PL330 manual, DMASEV).
pub const LAST_EVENT: u8 = 31;

/// The most channels of a controller (PL330 manual: the number of channel threads is configurable).
pub const MAX_CHANNELS: u8 = 8;

/// The last channel that a controller can have.
pub const LAST_CHANNEL: u8 = MAX_CHANNELS - 1;
