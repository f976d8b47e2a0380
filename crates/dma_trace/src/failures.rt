//! What is wrong with an instruction that fails, in words.
#![tactic(auto, using(dma_text::proofs::Begun::begun))]

ghost use Rattle.std.specs.Prelude.{◌≡◌, ◌++◌, OnOk};
ghost use Rattle.std.specs.Option.{option_map};
ghost use Rattle.dma_insn.specs.ControlWord.{control_of};
ghost use Rattle.dma_text.specs.Text.{Begins};
ghost use Rattle.dma_trace.specs.Words.{chip_only_at, control_words, fault_name, fault_text, fault_words, fetch_words, field_at, on_chip_bus, operand_words, refused_words, undefined_words};

use crate::amounts::{Bytes, Range};
use crate::words::Point;
use dma_chan::bursts::{destination_burst, source_burst};
use dma_chan::bus::Bus;
use dma_chan::turn::FaultKind;
use dma_explain::explain::tracer::read_of;
use dma_insn::chip::ChipInsn;
use dma_insn::control::{Control, ControlFault};
use dma_manual::chip_only::{chip_only_name, needs_chip_bus};
use dma_manual::first_bytes::field_words;
use dma_text::text::Text;
use std::alloc::AllocError;

// Returns the name of the chip's instruction that begins with this byte, if no channel executes it on the ideal bus.
fn chip_only_at(first: Option<u8>) -> Option<&'static str>
    ensures { option_map (λ name. name.now) result ≡ chip_only_at first }
{
    chip_only_name(first?)
}

// Returns whether a channel executes the instruction that begins with this byte on a chip's bus alone.
fn on_chip_bus(first: Option<u8>) -> bool
    ensures { result ≡ on_chip_bus first }
{
    match first {
        Some(byte) => needs_chip_bus(byte),
        None => false,
    }
}

// Returns a fault's name.
fn fault_name(kind: FaultKind) -> &'static str
    ensures { result.now ≡ fault_name kind }
{
    match kind {
        FaultKind::UndefInstr => "undef_instr",
        FaultKind::OperandInvalid => "operand_invalid",
        FaultKind::MfifoErr => "mfifo_err",
        FaultKind::StDataUnavailable => "st_data_unavailable",
        FaultKind::InstrFetchErr => "instr_fetch_err",
        FaultKind::DataWriteErr => "data_write_err",
        FaultKind::DataReadErr => "data_read_err",
    }
}

// Appends why a control word isn't accepted.
fn push_control(bus: Bus, bits: u32, out: &mut Vec<u8>) -> Result<(), AllocError>
    ensures ok { OnOk result
        (out.new.items ≡ out.old.items ++ control_words bus (control_of bits)) }
    ensures begins { Begins out.new.items out.old.items }
{
    match Control::from_bits(bits) {
        Err(ControlFault::ReservedSize) => {
            "a size code is above 4, the code for 16 bytes".push(out)
        }
        Err(ControlFault::Swap) => "the endian swap isn't 0".push(out),
        Err(ControlFault::Bit31) => "bit 31 is set".push(out),
        Ok(_) => {
            let width = Bytes(u64::from(bus.widest_beat()));
            ("a beat is wider than the bus, which has ", width).push(out)
        }
    }
}

// Appends why an instruction that was decoded has a refused operand.
fn push_operand(bus: Bus, insn: ChipInsn, out: &mut Vec<u8>) -> Result<(), AllocError>
    ensures ok { OnOk result (out.new.items ≡ out.old.items ++ operand_words insn bus) }
    ensures begins { Begins out.new.items out.old.items }
{
    match insn {
        ChipInsn::Mov(_, bits) => push_control(bus, bits, out),
        _ => "a field is outside its range".push(out),
    }
}

// Returns which field of an instruction that begins with this byte is refused, and why.
fn field_at(first: Option<u8>) -> &'static str
    ensures { result.now ≡ field_at first }
{
    match first {
        Some(byte) => field_words(byte),
        None => "a field is outside its range",
    }
}

// Appends why an operand is refused.
fn push_refused(first: Option<u8>, at: &Point, out: &mut Vec<u8>) -> Result<(), AllocError>
    ensures ok { OnOk result
        (out.new.items ≡ out.old.items ++ refused_words first at.now.ahead at.now.front) }
    ensures begins { Begins out.new.items out.old.items }
{
    match at.ahead {
        Ok(insn) => push_operand(at.front.registers.bus, insn, out),
        Err(_) => field_at(first).push(out),
    }
}

// Returns why no instruction is fetched.
fn fetch_words(first: Option<u8>, ahead: &Result<ChipInsn, FaultKind>) -> &'static str
    ensures { result.now ≡ fetch_words first ahead.now }
{
    match (ahead, first) {
        (Ok(_), _) => "it jumps to before the program's start",
        (Err(_), None) => "the program has no DMAEND",
        (Err(_), Some(_)) => "the program has no whole instruction here",
    }
}

// Returns why an instruction is undefined.
fn undefined_words(first: Option<u8>) -> &'static str
    ensures { result.now ≡ undefined_words (chip_only_at first) (on_chip_bus first) }
{
    match chip_only_at(first) {
        Some(_) if on_chip_bus(first) => {
            "an instruction that a channel executes only on a chip's bus (--bus 32, 64 or 128)"
        }
        Some(_) => "an instruction of the chip that no channel of this model executes",
        None => "no instruction begins with this byte",
    }
}

// Appends what is wrong with an instruction that fails, without the fault's name.
#[tactic(auto, unfolding(crate::specs::Words::fault_words))]
fn push_fault(
    kind: FaultKind,
    first: Option<u8>,
    at: &Point,
    out: &mut Vec<u8>,
) -> Result<(), AllocError>
    ensures ok { OnOk result
        (out.new.items ≡ out.old.items ++ fault_words kind first at.now.ahead at.now.front) }
    ensures begins { Begins out.new.items out.old.items }
{
    let held = Bytes(u64::from(at.front.held));
    let loads = source_burst(&at.front.registers);
    let stores = destination_burst(&at.front.registers);
    match kind {
        FaultKind::UndefInstr => undefined_words(first).push(out),
        FaultKind::OperandInvalid => push_refused(first, at, out),
        FaultKind::MfifoErr => {
            let len = loads.len();
            (
                "the buffer holds ",
                held,
                (", the load adds ", len),
                ", and 256 fit",
            )
                .push(out)
        }
        FaultKind::StDataUnavailable => {
            let len = stores.len();
            ("the buffer holds ", held, (", the store needs ", len)).push(out)
        }
        FaultKind::InstrFetchErr => fetch_words(first, &at.ahead).push(out),
        FaultKind::DataWriteErr => ("it can't store ", Range(read_of(stores))).push(out),
        FaultKind::DataReadErr => ("it can't load ", Range(read_of(loads))).push(out),
    }
}

/// What is wrong with an instruction that fails: the fault's name, its bit in FTR, and why.
#[derive(Drop)]
pub struct Failure<'a> {
    pub kind: FaultKind,
    /// The first byte of the instruction, if the program has one there.
    pub first: Option<u8>,
    pub at: &'a Point,
}

impl Text for Failure<'_> {
    ghost text = { λ f. fault_text f.kind f.first f.at.now.ahead f.at.now.front };

    #[tactic(auto, using(dma_text::proofs::Begun::begun), unfolding(crate::specs::Words::fault_text))]
    fn push(&self, out: &mut Vec<u8>) -> Result<(), AllocError> {
        (
            fault_name(self.kind),
            (" (FTR bit ", self.kind.bit()),
            "): ",
        )
            .push(out)?;
        push_fault(self.kind, self.first, self.at, out)
    }
}
