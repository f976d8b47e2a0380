//! The result of one step of a channel.

ghost use Rattle.std.specs.Prelude.{◌≡◌, ◌<◌};
ghost use Rattle.dma_chan.specs.Exec.{fault_bit};

use dma_insn::insn::Event;

/// The fault of an instruction. The names are the manual's, which writes them in lower case with underscores (PL330
/// manual, fault type register).
#[derive(Clone, Copy, PartialEq, Eq)]
pub enum FaultKind {
    /// The first byte begins no instruction.
    UndefInstr,
    /// A field is outside its range, or the control word isn't accepted.
    OperandInvalid,
    /// The buffer has too little room for a load.
    MfifoErr,
    /// The buffer has too few bytes for a store.
    StDataUnavailable,
    /// The offset has no whole instruction, or a jump goes to before the program's start.
    InstrFetchErr,
    /// A store touches an address at or above the memory's size, in one of its gaps, or in a mark.
    DataWriteErr,
    /// A load touches an address at or above the memory's size, in one of its gaps, or in a mark.
    DataReadErr,
}

impl FaultKind {
    /// Returns the number of the fault's bit in FTR.
    pub fn bit(self) -> u32
        ensures value { result ≡ fault_bit self }
        ensures range { fault_bit self < 32 }
    {
        match self {
            FaultKind::UndefInstr => 0,
            FaultKind::OperandInvalid => 1,
            FaultKind::MfifoErr => 12,
            FaultKind::StDataUnavailable => 13,
            FaultKind::InstrFetchErr => 16,
            FaultKind::DataWriteErr => 17,
            FaultKind::DataReadErr => 18,
        }
    }
}

/// What one step of a channel did with its next instruction.
#[derive(Clone, Copy, PartialEq, Eq)]
pub enum ChanTurn {
    /// The instruction was executed.
    Moved,
    /// The instruction waits for this event, whose flag is clear. Nothing has changed.
    Waiting(Event),
    /// The instruction was DMAEND, and the program is unloaded.
    Ended,
    /// The instruction failed. Nothing has changed.
    Fault(FaultKind),
}
