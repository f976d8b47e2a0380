//! The offsets of registers: FTR n is at 4n from `FTR`, CSR n and CPC n are at 8n from `CSR`, and SAR n to LC1 n from
//! 0x20n after `SAR` on.

/// The status of the manager: stopped, or faulting.
pub const DSR: u32 = 0x000;

/// Which events raise an interrupt when they are signalled.
pub const INTEN: u32 = 0x020;

/// Which events and interrupts are set.
pub const INT_EVENT_RIS: u32 = 0x024;

/// Which interrupts are set.
pub const INTMIS: u32 = 0x028;

/// A write clears interrupts: those whose bits in it, and in INTEN, are 1.
pub const INTCLR: u32 = 0x02C;

/// Whether the manager is faulting.
pub const FSRD: u32 = 0x030;

/// Which channels are faulting.
pub const FSRC: u32 = 0x034;

/// Why the manager is, or was, faulting.
pub const FTRD: u32 = 0x038;

/// Why channel 0 is, or was, faulting.
pub const FTR: u32 = 0x040;

/// The status of channel 0.
pub const CSR: u32 = 0x100;

/// The source address of channel 0.
pub const SAR: u32 = 0x400;

/// Whether the debug instruction is still being executed. A read finds that it never is.
pub const DBGSTATUS: u32 = 0xD00;

/// A write executes the debug instruction, which DBGINST0 and DBGINST1 have.
pub const DBGCMD: u32 = 0xD04;

/// The first two bytes of the debug instruction, and which thread executes it.
pub const DBGINST0: u32 = 0xD08;

/// The other four bytes of the debug instruction: the address at which a DMAGO starts a channel.
pub const DBGINST1: u32 = 0xD0C;

/// The numbers of channels and events, and whether the manager is non-secure after a reset.
pub const CR0: u32 = 0xE00;

/// The instruction cache: the number of its lines, and their length.
pub const CR1: u32 = 0xE04;

/// Which events are non-secure after a reset.
pub const CR3: u32 = 0xE0C;

/// The width of the data bus, and the number of lines of the buffer.
pub const CRD: u32 = 0xE14;
