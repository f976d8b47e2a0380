//! Disassembles a program's bytes into its text.

ghost use Rattle.std.specs.Prelude.{◌≡◌, ℕ, ◌++◌, ◌∷◌, [], List, MatchResult, MatchOption, IfSome, IfOk, IfErr, OnOk, ◌<◌, codes, decimal};
ghost use Rattle.dma_insn.specs.AssemblyText.{register_word};
ghost use Rattle.dma_insn.specs.Disassembly.{counter_number, insn_text, AreSpelled, Disassembles, IsDisFault, StopsAt, DisassemblyAssembles, DisassemblyReports};
ghost use Rattle.dma_insn.specs.declared.disassembler.DisFault.TheVariants.{NoMemory};
ghost use Rattle.dma_insn.specs.declared.insn.Insn.TheVariants.{Mov, Wfe};

use crate::codec::{DecodeFault, decode};
use crate::insn::{Counter, Insn, Reg};
use dma_text::text::{Address, Text};
use std::alloc::{AllocError, Global};
use thiserror::Error;

/// Why bytes were not disassembled: the fault at the first offset at which no instruction begins, or `NoMemory` if all
/// bytes are instructions.
#[derive(Clone, Copy, PartialEq, Eq, Debug, Error)]
pub enum DisFault {
    #[error("offset {offset}: {fault}")]
    Decode { offset: usize, fault: DecodeFault },
    #[error("out of memory")]
    NoMemory,
}

/// Returns the text of a program: one line for each instruction, each ended by a line feed. The text of no bytes is
/// empty.
///
/// Fails with `Decode` for the first offset at which no instruction begins, and with `NoMemory` only if all bytes are
/// instructions.
#[tactic(auto, using(crate::proofs::Fronts::has_text))]
pub fn disassemble(alloc: Global, bytes: &[u8]) -> Result<Vec<u8>, DisFault>
    // The bytes are encoded instructions, and the returned text has one line for each of them.
    ensures text { IfOk result (λ text. Disassembles bytes.now text.items) }
    // `Decode` has the fault of the bytes after the longest front that is encoded instructions. `NoMemory` means that
    // all bytes are.
    ensures fault { IfErr result (λ fault. IsDisFault bytes.now fault) }
    // Bytes that have a text fail only with `NoMemory`.
    ensures only { (text : List ℕ) → Disassembles bytes.now text
        → MatchResult result (λ written. written.items ≡ text) (λ fault. fault ≡ NoMemory) }
{
    match write_all(alloc, bytes) {
        Ok(text) => Ok(text),
        Err(Some((offset, fault))) => Err(DisFault::Decode { offset, fault }),
        // Out of memory: the fault is `NoMemory` only if all bytes are instructions.
        Err(None) => match fault_of(bytes) {
            Some((offset, fault)) => Err(DisFault::Decode { offset, fault }),
            None => Err(DisFault::NoMemory),
        },
    }
}

/// Law: the disassembly of a program of at most 8,192 bytes assembles to the program's bytes, and to no others.
pub fn disassembly_assembles()
    ensures { DisassemblyAssembles }
{}

/// Law: each list of bytes has either exactly one text or an offset at which no instruction begins. Instructions have
/// only one text in which no line is skipped and a line feed ends each line.
#[tactic(auto, using(crate::proofs::Fronts::disassembly_reports))]
pub fn disassembly_reports()
    ensures { DisassemblyReports }
{}

// Returns the first offset at which no instruction begins, with its fault, or `None` if all bytes are instructions.
fn fault_of(bytes: &[u8]) -> Option<(usize, DecodeFault)>
    ensures { MatchOption result (AreSpelled bytes.now)
        (λ found. StopsAt bytes.now found.0 found.1) }
{
    let mut offset = 0;
    while offset < bytes.len() {
        match decode(&bytes[offset..]) {
            Ok((_, count)) => offset += count,
            Err(fault) => return Some((offset, fault)),
        }
    }
    None
}

// Returns the text of bytes that are encoded instructions. Fails with the first offset at which no instruction begins
// and its fault, or with `None` if it is out of memory before it reaches that offset.
fn write_all(alloc: Global, bytes: &[u8]) -> Result<Vec<u8>, Option<(usize, DecodeFault)>>
    ensures text { IfOk result (λ text. Disassembles bytes.now text.items) }
    ensures stops { IfErr result (λ found.
        IfSome found (λ stop. StopsAt bytes.now stop.0 stop.1)) }
{
    let mut text = Vec::new(alloc);
    let mut offset = 0;
    while offset < bytes.len() {
        match decode(&bytes[offset..]) {
            Ok((insn, count)) => {
                let Ok(()) = (insn, "\n").push(&mut text) else {
                    return Err(None);
                };
                offset += count;
            }
            Err(fault) => return Err(Some((offset, fault))),
        }
    }
    Ok(text)
}

// Returns the number of a loop counter.
fn number_of(counter: Counter) -> u8
    ensures { result ≡ counter_number counter }
{
    match counter {
        Counter::Lc0 => 0,
        Counter::Lc1 => 1,
    }
}

// Returns the name of a register.
fn register_name(reg: Reg) -> &'static str
    ensures { result.now ≡ register_word reg }
{
    match reg {
        Reg::Sar => "SAR",
        Reg::Ccr => "CCR",
        Reg::Dar => "DAR",
    }
}

// The line of an instruction, without its line feed.
impl Text for Insn {
    ghost text = { insn_text };

    fn push(&self, out: &mut Vec<u8>) -> Result<(), AllocError> {
        match *self {
            Insn::End => "DMAEND".push(out),
            Insn::Ld => "DMALD".push(out),
            Insn::St => "DMAST".push(out),
            Insn::Rmb => "DMARMB".push(out),
            Insn::Wmb => "DMAWMB".push(out),
            Insn::Nop => "DMANOP".push(out),
            Insn::Lp { counter, times } => {
                ("DMALP ", number_of(counter), " ", u32::from(times.number())).push(out)
            }
            Insn::LpEnd { counter, back } => ("DMALPEND ", number_of(counter), " ", back).push(out),
            Insn::Sev(event) => ("DMASEV ", event.number()).push(out),
            Insn::Wfe { event, invalid } => {
                let flag = if invalid { " invalid" } else { "" };
                ("DMAWFE ", event.number(), flag).push(out)
            }
            Insn::Mov(reg, value) => {
                ("DMAMOV ", register_name(reg), (" 0x", Address(value))).push(out)
            }
        }
    }
}
