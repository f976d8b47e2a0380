//! Why a script is refused.
ghost use Rattle.std.specs.Prelude.{◌≡◌};

use dma_text::text::Text;
use std::alloc::AllocError;

/// Why a line is refused (profile), in the order in which the causes are tested. Each cause is tested over all words of
/// the line, from the left, before the next one. `Number` and `Hex` are tested together.
#[derive(Clone, Copy, PartialEq, Eq)]
pub enum Cause {
    /// A byte is not printable ASCII, a space or a tab.
    Byte,
    /// The first word is not a command, or not one that is allowed on this side of `go`.
    Command,
    /// The first line is not the memory line, or a later one is.
    First,
    /// A word is missing, one is too many, or a fixed word is wrong.
    Words,
    /// A word is not a number, a segment or a list in the required form, or a number is above 4,294,967,295.
    Number,
    /// A word is not an even number of hexadecimal digits.
    Hex,
    /// A number is outside its range.
    Range,
    /// The size of the memory is 0 or above the limit.
    SizeOutOfRange,
    /// The number of channels is 0 or above the limit.
    BadChannels,
    /// A race script has no `go`. It is reported only if no line has a fault.
    Go,
}

impl Cause {
    ghost use Rattle.dma_script.specs.Printing.{cause_name};

    /// Returns the name that is printed.
    pub fn name(self) -> &'static str
        ensures { result.now ≡ cause_name self }
    {
        match self {
            Cause::Byte => "Byte",
            Cause::Command => "Command",
            Cause::First => "First",
            Cause::Words => "Words",
            Cause::Number => "Number",
            Cause::Hex => "Hex",
            Cause::Range => "Range",
            Cause::SizeOutOfRange => "SizeOutOfRange",
            Cause::BadChannels => "BadChannels",
            Cause::Go => "Go",
        }
    }
}

/// The first fault of a script.
#[derive(Clone, Copy, PartialEq, Eq)]
pub struct Fault {
    /// The number of the line, from 1; 0 if the script has no line, or a race script has no `go`.
    pub line: usize,
    /// The first cause that the line has.
    pub cause: Cause,
}

// `line N: NAME`
impl Text for Fault {
    ghost use Rattle.dma_script.specs.Printing.{fault_line};

    ghost text = { fault_line };

    fn push(&self, out: &mut Vec<u8>) -> Result<(), AllocError> {
        ("line ", self.line, ": ", self.cause.name()).push(out)
    }
}

/// Why a line or a script was not read.
#[derive(Clone, Copy, PartialEq, Eq)]
pub enum ReadError<F> {
    /// It has a fault.
    Fault(F),
    /// Out of memory.
    NoMemory,
}

/// Why a line was not read.
pub type LineError = ReadError<Cause>;

/// Why a script was not read.
pub type ScriptError = ReadError<Fault>;

/// Returns the fault of a script in which a line is missing.
pub(crate) fn missing(cause: Cause) -> ScriptError
    ensures { result ≡ ReadError.Fault (record { line = 0; cause = cause }) }
{
    ReadError::Fault(Fault { line: 0, cause })
}

impl From<Cause> for ReadError<Cause> {
    ghost use Rattle.dma_script.specs.declared.fault.ReadError.TheVariants.{Fault};

    ghost from_gives = { λ cause e. e ≡ Fault cause };

    fn from(cause: Cause) -> LineError {
        ReadError::Fault(cause)
    }
}

impl<F> From<AllocError> for ReadError<F> {
    ghost use Rattle.dma_script.specs.declared.fault.ReadError.TheVariants.{NoMemory};

    ghost from_gives = { λ _ e. e ≡ NoMemory };

    fn from(_error: AllocError) -> ReadError<F> {
        ReadError::NoMemory
    }
}

impl Text for ReadError<Fault> {
    ghost use Rattle.std.specs.Prelude.{◌≢◌};
    ghost use Rattle.dma_script.specs.declared.fault.ReadError.TheVariants.{NoMemory};
    ghost use Rattle.dma_script.specs.Printing.{error_line};

    ghost text = { error_line };

    ghost is_printed = { λ e. e ≢ NoMemory };

    fn push(&self, out: &mut Vec<u8>) -> Result<(), AllocError> {
        match self {
            ReadError::Fault(fault) => fault.push(out),
            ReadError::NoMemory => Err(AllocError),
        }
    }
}
