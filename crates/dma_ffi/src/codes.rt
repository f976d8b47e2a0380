//! The numbers that calls from C return and write, and the arguments that they accept.

ghost use Rattle.std.specs.Prelude.{◌≡◌, unwrap_or};
ghost use Rattle.dma_ffi.specs.Channels.{are_usable};
ghost use Rattle.dma_ffi.specs.Codes.{answer_code, cause_code, decode_code, device_code, event_of, fault_code, found_code, kind_number, mark_kind, new_code, program_code, result_number, status_code, transfer_code, value_or};

use dma_chan::program::ProgramFault;
use dma_chan::turn::FaultKind;
use dma_device::config;
use dma_engine::{EngineFault, MarkKind, NewFault, Status, TransResult};
use dma_insn::assembler::AsmCause;
use dma_insn::codec::DecodeFault;
use dma_mem::regions::{Region, are_in_order};
use dma_mem::transfer::TransferFault;

/// The maximum number of regions.
const MAX_REGIONS: usize = 64;

/// The call succeeded.
pub const OK: i32 = 0;
/// The controller has no engine, or the channel or device isn't open.
pub const NOT_OPEN: i32 = -1;
/// The controller has an engine already, or the channel or device is open already.
pub const ALREADY_OPEN: i32 = -2;
/// Out of memory.
pub const NO_MEMORY: i32 = -3;
/// The buffer is too small for what is to be written.
pub const BUFFER_TOO_SMALL: i32 = -4;
/// There is no such channel.
pub const NO_CHANNEL: i32 = -5;
/// The channel has no program.
pub const NO_PROGRAM: i32 = -6;
/// A program is longer than 8,192 bytes.
pub const PROGRAM_TOO_LONG: i32 = -7;
/// The number of channels is 0 or above 8.
pub const BAD_CHANNELS: i32 = -8;
/// A memory can't have this size.
pub const SIZE_OUT_OF_RANGE: i32 = -9;
/// There are more than 64 regions, they aren't in order, or one ends above 4,294,967,296.
pub const BAD_REGIONS: i32 = -10;
/// No device can have this configuration or bus, or no program can begin so.
pub const BAD_CONFIG: i32 = -11;
/// An event is above 31.
pub const BAD_EVENT: i32 = -12;
/// No kind of access has this number.
pub const BAD_ACCESS: i32 = -13;
/// A range in which accesses are to fail is empty, or ends above the last address.
pub const BAD_RANGE: i32 = -14;
/// A range or a segment ends above the memory's size.
pub const OUT_OF_MEMORY_RANGE: i32 = -15;
/// A list has no segment.
pub const EMPTY_LIST: i32 = -16;
/// A list has more than 64 segments.
pub const TOO_MANY_SEGMENTS: i32 = -17;
/// A segment is empty.
pub const EMPTY_SEGMENT: i32 = -18;
/// A segment ends above the last address.
pub const SEGMENT_WRAPS: i32 = -19;
/// The lists have different numbers of bytes.
pub const TOTALS_DIFFER: i32 = -20;
/// A list has more than 1,048,576 bytes.
pub const TOO_LONG: i32 = -21;
/// Two destination segments share an address.
pub const DESTINATIONS_MEET: i32 = -22;
/// A source and a destination segment share an address.
pub const SOURCE_MEETS_DESTINATION: i32 = -23;
/// A running transfer conflicts.
pub const BUSY: i32 = -24;
/// A transfer runs.
pub const RUNNING: i32 = -25;
/// Nothing runs on the channel.
pub const NOT_RUNNING: i32 = -26;
/// The cookie hasn't finished, was never given, or a checkpoint forgot how it finished.
pub const NO_RESULT: i32 = -27;
/// The channel has used its last cookie.
pub const COOKIES_SPENT: i32 = -28;
/// The step count is at its end.
pub const STEPS_SPENT: i32 = -29;
/// The bytes aren't a save of a channel, or of any device.
pub const BAD_SAVE: i32 = -30;
/// The save is of a device of another version or configuration.
pub const OTHER_DEVICE: i32 = -31;
/// No instruction has this name.
pub const BAD_MNEMONIC: i32 = -32;
/// An operand is missing, of a wrong form, or one too many.
pub const BAD_OPERAND: i32 = -33;
/// A number in assembly text is outside its range.
pub const NUMBER_OUT_OF_RANGE: i32 = -34;
/// The bytes end within an instruction.
pub const CUT_INSTRUCTION: i32 = -35;
/// No instruction begins with this byte.
pub const UNKNOWN_INSTRUCTION: i32 = -36;
/// A field of an instruction is outside its range.
pub const BAD_FIELD: i32 = -37;
/// Nothing explains the program. The cause, which the call writes too, says why.
pub const UNEXPLAINED: i32 = -38;

// What the last of some steps did. Reports to C have these numbers.

/// No step was taken.
pub const NO_STEP: u32 = 0;
/// The last step executed an instruction.
pub const MOVED: u32 = 1;
/// The channel waits for an event.
pub const WAITING: u32 = 2;
/// The last step executed DMAEND, so the program has ended.
pub const ENDED: u32 = 3;
/// The instruction of the last step failed.
pub const FAULT: u32 = 4;
/// The last step set the flag of an event.
pub const SIGNALLED: u32 = 5;
/// The next transfer began to run.
pub const STARTED: u32 = 6;
/// The transfer finished.
pub const FINISHED: u32 = 7;
/// The channel has nothing to do: no transfer is issued and unfinished.
pub const NOTHING: u32 = 8;
/// The next transfer can't start, because it conflicts with a running one.
pub const HELD: u32 = 9;
/// The channel is paused.
pub const PAUSED: u32 = 10;
/// The channel is halted.
pub const HALTED: u32 = 11;

/// Returns the code of a refused call.
pub fn code_of_fault(fault: EngineFault) -> i32
    ensures { result ≡ fault_code fault }
{
    match fault {
        EngineFault::OutOfMemoryRange => OUT_OF_MEMORY_RANGE,
        EngineFault::Busy { .. } => BUSY,
        EngineFault::NoChannel => NO_CHANNEL,
        EngineFault::CookiesSpent => COOKIES_SPENT,
        EngineFault::StepsSpent => STEPS_SPENT,
        EngineFault::BadEvent => BAD_EVENT,
        EngineFault::BadRange => BAD_RANGE,
        EngineFault::Running { .. } => RUNNING,
        EngineFault::NoMemory => NO_MEMORY,
    }
}

/// Returns the code of a fault for which no engine is made.
pub fn code_of_new(fault: NewFault) -> i32
    ensures { result ≡ new_code fault }
{
    match fault {
        NewFault::BadChannels => BAD_CHANNELS,
        NewFault::SizeOutOfRange => SIZE_OUT_OF_RANGE,
        NewFault::NoMemory => NO_MEMORY,
    }
}

/// Returns the code of a fault for which no device is made.
pub fn code_of_device(fault: config::NewFault) -> i32
    ensures { result ≡ device_code fault }
{
    match fault {
        config::NewFault::BadConfig => BAD_CONFIG,
        config::NewFault::NoMemory => NO_MEMORY,
    }
}

/// Returns the code of a fault for which no transfer is made.
pub fn code_of_transfer(fault: TransferFault) -> i32
    ensures { result ≡ transfer_code fault }
{
    match fault {
        TransferFault::EmptyList => EMPTY_LIST,
        TransferFault::TooManySegments => TOO_MANY_SEGMENTS,
        TransferFault::EmptySegment => EMPTY_SEGMENT,
        TransferFault::SegmentWraps => SEGMENT_WRAPS,
        TransferFault::TotalsDiffer => TOTALS_DIFFER,
        TransferFault::TooLong => TOO_LONG,
        TransferFault::DestinationsMeet => DESTINATIONS_MEET,
        TransferFault::SourceMeetsDestination => SOURCE_MEETS_DESTINATION,
        TransferFault::BadEvent => BAD_EVENT,
        TransferFault::NoMemory => NO_MEMORY,
    }
}

/// Returns the code of a fault for which no program is made of bytes.
pub fn code_of_program(fault: ProgramFault) -> i32
    ensures { result ≡ program_code fault }
{
    match fault {
        ProgramFault::ProgramTooLong => PROGRAM_TOO_LONG,
        ProgramFault::NoMemory => NO_MEMORY,
    }
}

/// Returns the code of the reason that a line of assembly text isn't an instruction.
pub fn code_of_cause(cause: AsmCause) -> i32
    ensures { result ≡ cause_code cause }
{
    match cause {
        AsmCause::Mnemonic => BAD_MNEMONIC,
        AsmCause::Operand => BAD_OPERAND,
        AsmCause::Range => NUMBER_OUT_OF_RANGE,
    }
}

/// Returns the code of the reason that bytes aren't an instruction.
pub fn code_of_decode(fault: DecodeFault) -> i32
    ensures { result ≡ decode_code fault }
{
    match fault {
        DecodeFault::Cut => CUT_INSTRUCTION,
        DecodeFault::Unknown(_) => UNKNOWN_INSTRUCTION,
        DecodeFault::BadField => BAD_FIELD,
    }
}

/// Returns the code of a cookie's status.
pub fn code_of_status(status: Status) -> i32
    ensures { result ≡ status_code status }
{
    match status {
        Status::Unknown => 0,
        Status::InProgress => 1,
        Status::Complete => 2,
    }
}

/// Returns the number of how a cookie finished (from the kernel's `enum dmaengine_tx_result`).
pub fn number_of_result(how: TransResult) -> u32
    ensures { result ≡ result_number how }
{
    match how {
        TransResult::NoError => 0,
        TransResult::ReadFailed => 1,
        TransResult::WriteFailed => 2,
        TransResult::Aborted => 3,
    }
}

/// Returns the number of an instruction's fault.
pub fn number_of_kind(kind: FaultKind) -> u32
    ensures { result ≡ kind_number kind }
{
    match kind {
        FaultKind::UndefInstr => 1,
        FaultKind::OperandInvalid => 2,
        FaultKind::MfifoErr => 3,
        FaultKind::StDataUnavailable => 4,
        FaultKind::InstrFetchErr => 5,
        FaultKind::DataWriteErr => 6,
        FaultKind::DataReadErr => 7,
    }
}

/// Returns the kind of mark for accesses of this kind, if any: 0 for reads, 1 for writes.
pub fn kind_of(access: u32) -> Option<MarkKind>
    ensures { result ≡ mark_kind access }
{
    match access {
        0 => Some(MarkKind::Reading),
        1 => Some(MarkKind::Writing),
        _ => None,
    }
}

/// Returns the event with this number, or none for a negative number. Numbers above 255 become 255, which is invalid
/// like all events above 31.
pub fn event_of(event: i32) -> Option<u8>
    ensures { result ≡ event_of event }
{
    if event < 0 {
        None
    } else {
        Some(event.min(255) as u8)
    }
}

/// Returns whether channels can be stepped over these regions.
pub fn are_usable(regions: &[Region<'_>]) -> bool
    ensures { result ≡ are_usable regions.now }
{
    regions.len() <= MAX_REGIONS && are_in_order(regions)
}

/// Returns the code of an answer, and writes its value.
pub fn answered<T: Copy>(answer: Result<T, EngineFault>, out: &mut T) -> i32
    ensures code { result ≡ answer_code answer }
    ensures value { out.new ≡ value_or answer out.old }
{
    match answer {
        Ok(value) => {
            *out = value;
            OK
        }
        Err(fault) => code_of_fault(fault),
    }
}

/// Returns the code of an answer without a value.
pub fn done(answer: Result<(), EngineFault>) -> i32
    ensures { result ≡ answer_code answer }
{
    answered(answer, &mut ())
}

/// Writes the value, if any, else returns the code `missing`.
pub fn found<T: Copy>(value: Option<T>, out: &mut T, missing: i32) -> i32
    ensures code { result ≡ found_code missing value }
    ensures value { out.new ≡ unwrap_or value out.old }
{
    match value {
        Some(value) => {
            *out = value;
            OK
        }
        None => missing,
    }
}
