//! The instruction at an offset of a program.

ghost use Rattle.std.specs.Prelude.{◌≡◌, ◌≤◌, ◌<◌, length, IfOk};
ghost use Rattle.dma_insn.specs.AssemblyText.{most_program_bytes};
ghost use Rattle.dma_insn.specs.Chip.{IsSpelledAt, spelling};
ghost use Rattle.dma_chan.specs.Next.{core_next, decoded_on, fetch_fault, next_of, next_on};

use crate::bus::Bus;
use crate::turn::FaultKind;
use dma_insn::chip::{ChipInsn, decode_chip, decode_core};
use dma_insn::codec::{DecodeFault, decode};
use dma_insn::insn::Insn;
use std::marker::Model;

/// An instruction and the length of its encoding in bytes. Contracts see the instruction.
#[derive(Clone, Copy)]
pub struct Next {
    insn: ChipInsn,
    len: u32,
}

impl Model for Next {
    ghost use Rattle.std.specs.Prelude.{◌≡◌, length};
    ghost use Rattle.std.proofs.Common.{ap, sym};
    ghost use Rattle.dma_insn.specs.declared.chip.ChipInsn.{ChipInsn};
    ghost use Rattle.dma_insn.specs.Chip.{spelling};

    ghost Value = { ChipInsn };

    ghost view = { λ n. n.insn };

    ghost invariant = { λ n. n.len ≡ length (spelling n.insn) };

    ghost inverse = { λ i. record { insn = i; len = length (spelling i) } };

    ghost inverse_ok = { λ n h. ap (λ k. record { insn = n.insn; len = k }) (sym h) };
}

// Returns the fault of a channel for an error of the decoder.
fn fetch_fault(fault: DecodeFault) -> FaultKind
    ensures { result ≡ fetch_fault fault }
{
    match fault {
        DecodeFault::Cut => FaultKind::InstrFetchErr,
        DecodeFault::Unknown(_) => FaultKind::UndefInstr,
        DecodeFault::BadField => FaultKind::OperandInvalid,
    }
}

// Decodes the instruction at the front of `bytes` in the grammar of a channel on this bus.
#[inline(always)]
fn decode_on(bus: Bus, bytes: &[u8]) -> Result<(ChipInsn, usize), DecodeFault>
    ensures exact { result ≡ decoded_on bus bytes.now }
    ensures found { IfOk result (λ found. IsSpelledAt bytes.now found.0 found.1) }
    ensures within { IfOk result (λ found. (0 < found.1) × (found.1 ≤ length bytes.now)) }
{
    match bus {
        Bus::Ideal => decode_core(bytes),
        Bus::Chip(_) => decode_chip(bytes),
    }
}

// Returns the instruction of the model at an offset of a program, or the fault of fetching it.
pub(crate) fn insn_at(program: &[u8], pc: u32) -> Result<Insn, FaultKind>
    requires { pc ≤ length program.now }
    ensures { result ≡ core_next program.now pc }
{
    match decode(&program[pc as usize..]) {
        Ok((insn, _)) => Ok(insn),
        Err(fault) => Err(fetch_fault(fault)),
    }
}

impl Next {
    // Returns this instruction, whose encoding has `len` bytes.
    pub(crate) fn of(insn: ChipInsn, len: u32) -> Next
        requires { len ≡ length (spelling insn) }
        ensures { result ≡ insn }
    {
        Next { insn, len }
    }

    /// Returns the instruction at an offset of a program for a channel on a bus, or the fault of fetching it.
    #[inline(always)]
    pub fn on(bus: Bus, program: &[u8], pc: u32) -> Result<Next, FaultKind>
        requires offset { pc ≤ length program.now }
        requires limit { length program.now ≤ most_program_bytes }
        ensures { result ≡ next_on bus program.now pc }
    {
        match decode_on(bus, &program[pc as usize..]) {
            Ok((insn, len)) => Ok(Next {
                insn,
                len: len as u32,
            }),
            Err(fault) => Err(fetch_fault(fault)),
        }
    }

    /// Returns the instruction at an offset of a program in the grammar of the model alone, or the fault of fetching
    /// it.
    pub fn at(program: &[u8], pc: u32) -> Result<Next, FaultKind>
        requires offset { pc ≤ length program.now }
        requires limit { length program.now ≤ most_program_bytes }
        ensures { result ≡ next_of program.now pc }
    {
        Next::on(Bus::Ideal, program, pc)
    }

    /// Returns the instruction.
    pub fn insn(self) -> ChipInsn
        ensures { result ≡ self }
    {
        self.insn
    }

    /// Returns the length of the encoding in bytes.
    pub fn len(self) -> u32
        ensures { result ≡ length (spelling self) }
    {
        self.len
    }
}
