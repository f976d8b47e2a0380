//! The registers of a DMA-330 as a guest's driver sees them, over channels that execute the guest's programs in the
//! guest's own RAM. An emulator forwards the guest's accesses to [`device::Device::read`] and
//! [`device::Device::write`], lets each channel take its turns by [`device::Device::step`] while
//! [`device::Device::can_step`], and sets its interrupt lines from [`device::Device::irqs`] and
//! [`device::Device::irq_abort`] after each write, reset and restore, and after each turn that reports `lines_changed`.
//!
//! Contracts see a device as its registers and threads (`DeviceValue`).
//!
//! Proved: a read returns the register that specs/Device.antt gives its offset, and a write leaves the device that it
//! gives (`Device::read`, `write`). A turn is what specs/Turns.antt says (`step`). [`device::Device::step_rows`] takes
//! several turns at once where a channel copies the rows of a rectangle, one a row, with the device, the memory and the
//! reports that `step` gives turn by turn (specs/RowTurns.antt). For every list of accesses, turns, bytes that the
//! processor writes, resets and restores, in any order, each of which is lent the memory that the one before it left,
//! each value read, each report, both kinds of lines and all of RAM are what `run` of specs/Run.antt gives, step by
//! step (`laws::runs_step_by_step`). A turn writes each address in the range that it reports as written, and no other
//! (`laws::a_turn_writes_each`). A save has the bytes that specs/Snapshot.antt gives the device, and restores it.
//! `OtherDevice` is the error exactly for bytes that begin as a save of another version or configuration, and other
//! bytes are refused exactly if they are the save of no device (`save`, `restore`), as is each save in which one byte
//! differs (`laws::damage_is_refused`).
//!
//! A program that is explained from the registers that its channel has (`dma_explain`'s specs/Explains.antt), put into
//! RAM and started by a DMAGO, makes one simultaneous copy and sets its other ranges to 0, whatever events it waits for
//! and signals; from any registers a transfer explains its program that is compiled for the bus. All is done once the
//! channel's CSR reads as stopped (`laws::a_dmago_copies`). Once a line that was low is high after one of its turns,
//! exactly what precedes one of the DMASEVs of its event is done, and later at least as much. If the device has the
//! event of a DMASEV, and INTEN makes it an interrupt in each turn, then once CSR reads as stopped, the event's line
//! was high after one of the turns (`laws::a_dmago_interrupts`). After each turn, also if the channel then waits or is
//! faulting, the first bytes are done, as many as it counts ([`device::Device::thread`]), and the others that the
//! program reads or writes are as before (`laws::a_dmago_is_underway`). Registers and counts at a fault are those from
//! before the instruction that failed (`laws::a_fault_shows_what_was_before`). Of other programs the laws of interrupts
//! hold, and what specs/Turns.antt says of each turn. The program never fails, if the regions contain all addresses
//! that it reads and writes, none that it writes is read-only, and the device has the program's events
//! (`laws::a_dmago_never_fails`). It then finishes after as many ready turns as it executes instructions, whatever
//! turns it gets besides (`laws::a_dmago_finishes`). A turn is ready if it may take a step and doesn't begin at a
//! DMAWFE of an event that isn't set, or that INTEN makes an interrupt; at one it only waits (`laws::nothing_happens`).
//! What is said of such a program holds on a board with several devices over one memory, whatever happens there in any
//! order, under two conditions: only the channel's own turns change its thread and the bytes that the program's work
//! uses, and each of these turns is lent these bytes. The write to DBGCMD is lent at least the program, and all else may
//! be lent any part of the memory. So several channels of any devices copy at once (`laws::a_board_copies`).
//!
//! [`device::Device::explain`] returns what the program of a channel copies and sets to 0, or why nothing explains it:
//! for a debugger, and for a host that refuses a DMAGO whose program touches what it must not. From the DMAGO on, until
//! the channel gets another program, its turns write only the destinations and zeros that were found, and read only the
//! sources, whatever the guest writes meanwhile, also on another host that restores the device's save
//! (`laws::turns_stay_in`). A program that it refuses for a fault after the DMAGO never gets beyond the instruction
//! that it names, and fails there if it gets there, if only the channel's own turns change its thread
//! (`laws::a_refused_dmago_fails`).
//!
//! An interrupt is neither lost nor invented: from a reset on, its line is high exactly if a turn or the debug
//! registers executed its DMASEV while INTEN made it an interrupt, or a restored device had it high, and no write to
//! INTCLR, reset or restore has cleared it since (`laws::interrupts_are_exact`). The same holds of events, which also a
//! DMAWFE takes (`laws::events_are_exact`), and of faulting threads and irq_abort, which a DMAKILL ends
//! (`laws::faults_are_exact`). If no thread can step, nothing happens until the guest's next write
//! (`laws::nothing_happens`). A turn leaves all threads but its channel's as they are, a write all but at most one,
//! which the debug registers name, and the bytes of memory have no effect on a turn's report and on the registers and
//! lines after it (`laws::others_are_left_alone`).
//!
//! Not proved: that an allocation succeeds. Only [`device::Device::new`] allocates: no other method gets an allocator.
//!
//! What differs from the chip, and which drivers notice, is in docs/CHIP.md.
#![tactic(auto)]

pub mod config;
pub mod device;
pub mod laws;
pub mod offset;
pub mod save;
pub mod thread;
