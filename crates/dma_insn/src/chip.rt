//! The instructions of a chip's channels for copies between memories: those of the model, and four that a chip has
//! besides.

ghost use Rattle.std.specs.Prelude.{◌≡◌, ℕ, ◌<◌, ◌≤◌, ◌++◌, length, drop, IfOk, IfErr, Ok, Some};
ghost use Rattle.dma_insn.specs.declared.insn.Insn.{Insn};
ghost use Rattle.dma_insn.specs.declared.chip.ChipInsn.{ChipInsn};
ghost use Rattle.dma_insn.specs.Spelling.{IsSpelledAt as IsCoreAt};
ghost use Rattle.dma_insn.specs.Chip.{widened, core_of, spelling, HasRanges, IsSpelledAt, IsRefusedFor, decoded, decoded_core, added_by, again_by, beyond_core};

use crate::codec::{DecodeFault, decode, encode, write_one, write_two};
use crate::insn::{Counter, Event, Insn, Reg, Times};
use byteorder::{ByteOrder, LittleEndian};

/// An address register, to which DMAADDH and DMAADNH add: SAR or DAR.
#[derive(Clone, Copy)]
pub enum Address {
    Source,
    Destination,
}

/// An instruction of a chip (PL330 manual, instruction chapter). The first eleven are those of [`Insn`].
#[derive(Clone, Copy)]
pub enum ChipInsn {
    /// DMAMOV
    Mov(Reg, u32),
    /// DMALD
    Ld,
    /// DMAST
    St,
    /// DMARMB
    Rmb,
    /// DMAWMB
    Wmb,
    /// DMANOP
    Nop,
    /// DMAEND
    End,
    /// DMALP
    Lp {
        counter: Counter,
        times: Times,
    },
    /// DMALPEND of a loop that DMALP begins
    LpEnd {
        counter: Counter,
        back: u8,
    },
    /// DMASEV
    Sev(Event),
    /// DMAWFE
    Wfe {
        event: Event,
        invalid: bool,
    },
    /// DMASTZ
    StoreZeros,
    /// DMAADDH, or DMAADNH if `negative`, whose number has ones in the upper 16 bits
    AddHalfword {
        address: Address,
        half: u16,
        negative: bool,
    },
    /// DMALPEND of a loop that DMALPFE begins. The counter is the instruction's bit lc, which has no effect.
    LoopAgain {
        counter: Counter,
        back: u8,
    },
}

impl ChipInsn {
    /// Returns an instruction of the model as one of a chip.
    pub fn of(insn: Insn) -> ChipInsn
        ensures value { result ≡ widened insn }
        ensures core { core_of result ≡ Some insn }
    {
        match insn {
            Insn::Mov(reg, value) => ChipInsn::Mov(reg, value),
            Insn::Ld => ChipInsn::Ld,
            Insn::St => ChipInsn::St,
            Insn::Rmb => ChipInsn::Rmb,
            Insn::Wmb => ChipInsn::Wmb,
            Insn::Nop => ChipInsn::Nop,
            Insn::End => ChipInsn::End,
            Insn::Lp { counter, times } => ChipInsn::Lp { counter, times },
            Insn::LpEnd { counter, back } => ChipInsn::LpEnd { counter, back },
            Insn::Sev(event) => ChipInsn::Sev(event),
            Insn::Wfe { event, invalid } => ChipInsn::Wfe { event, invalid },
        }
    }
}

/// Writes the bytes of an instruction to the front of `out` and returns their number. The other bytes of `out` are
/// unchanged.
pub fn encode_chip(insn: ChipInsn, out: &mut [u8; 6]) -> usize
    ensures count { result ≡ length (spelling insn) }
    ensures bytes { out.new ≡ spelling insn ++ drop result out.old }
    // The type `ChipInsn` guarantees these ranges.
    ensures in_range { HasRanges insn }
{
    match insn {
        ChipInsn::Mov(reg, value) => encode(Insn::Mov(reg, value), out),
        ChipInsn::Ld => encode(Insn::Ld, out),
        ChipInsn::St => encode(Insn::St, out),
        ChipInsn::Rmb => encode(Insn::Rmb, out),
        ChipInsn::Wmb => encode(Insn::Wmb, out),
        ChipInsn::Nop => encode(Insn::Nop, out),
        ChipInsn::End => encode(Insn::End, out),
        ChipInsn::Lp { counter, times } => encode(Insn::Lp { counter, times }, out),
        ChipInsn::LpEnd { counter, back } => encode(Insn::LpEnd { counter, back }, out),
        ChipInsn::Sev(event) => encode(Insn::Sev(event), out),
        ChipInsn::Wfe { event, invalid } => encode(Insn::Wfe { event, invalid }, out),
        ChipInsn::StoreZeros => write_one(0x0c, out),
        ChipInsn::AddHalfword {
            address,
            half,
            negative,
        } => {
            out[0] = match (address, negative) {
                (Address::Source, false) => 0x54,
                (Address::Destination, false) => 0x56,
                (Address::Source, true) => 0x5c,
                (Address::Destination, true) => 0x5e,
            };
            LittleEndian::write_u16(&mut out[1..], half);
            3
        }
        ChipInsn::LoopAgain { counter, back } => {
            let first = match counter {
                Counter::Lc0 => 0x28,
                Counter::Lc1 => 0x2c,
            };
            write_two(first, back, out)
        }
    }
}

/// Decodes the instruction at the front of `bytes` in the grammar of the model's channels, like [`decode`].
#[tactic(auto, using(crate::proofs::ChipLaws::widened_at))]
pub fn decode_core(bytes: &[u8]) -> Result<(ChipInsn, usize), DecodeFault>
    ensures exact { result ≡ decoded_core bytes.now }
    ensures found { IfOk result (λ found. IsSpelledAt bytes.now found.0 found.1) }
    ensures within { IfOk result (λ found. (0 < found.1) × (found.1 ≤ length bytes.now)) }
{
    match decode(bytes) {
        Ok((insn, len)) => Ok((ChipInsn::of(insn), len)),
        Err(fault) => Err(fault),
    }
}

/// Decodes the instruction of a chip at the front of `bytes`, and returns it with its length in bytes. Other bytes may
/// follow.
pub fn decode_chip(bytes: &[u8]) -> Result<(ChipInsn, usize), DecodeFault>
    // The bytes begin with the encoding of the returned instruction, which has the returned length.
    ensures found { IfOk result (λ found. IsSpelledAt bytes.now found.0 found.1) }
    ensures within { IfOk result (λ found. (0 < found.1) × (found.1 ≤ length bytes.now)) }
    // If the bytes begin with the encoding of an instruction, that instruction is returned.
    ensures only { (i : ChipInsn) (n : ℕ) → IsSpelledAt bytes.now i n → result ≡ Ok (i, n) }
    // An instruction of the model is decoded as `decode` does.
    ensures core { (i : Insn) (n : ℕ) → IsCoreAt bytes.now i n → result ≡ Ok (widened i, n) }
    // On an error the bytes begin with no instruction, and the fault is the first that applies.
    ensures none { IfErr result (λ _. (i : ChipInsn) (n : ℕ) → IsSpelledAt bytes.now i n → ⊥) }
    ensures refused { IfErr result (λ fault. IsRefusedFor bytes.now fault) }
    // The result as a function of the bytes.
    ensures exact { result ≡ decoded bytes.now }
{
    read_chip(bytes)
}

// Decodes one instruction: of the model, or else by its first byte.
fn read_chip(bytes: &[u8]) -> Result<(ChipInsn, usize), DecodeFault>
    ensures { result ≡ decoded bytes.now }
{
    match decode(bytes) {
        Ok((insn, len)) => Ok((ChipInsn::of(insn), len)),
        Err(DecodeFault::Unknown(first)) => beyond_core(first, bytes),
        Err(DecodeFault::Cut) => Err(DecodeFault::Cut),
        Err(DecodeFault::BadField) => Err(DecodeFault::BadField),
    }
}

// Decodes an instruction that only a chip has, by its first byte.
fn beyond_core(first: u8, bytes: &[u8]) -> Result<(ChipInsn, usize), DecodeFault>
    ensures { result ≡ beyond_core first bytes.now }
{
    match first {
        0x0c => Ok((ChipInsn::StoreZeros, 1)),
        0x28 => again(Counter::Lc0, bytes),
        0x2c => again(Counter::Lc1, bytes),
        0x54 => added(Address::Source, false, bytes),
        0x56 => added(Address::Destination, false, bytes),
        0x5c => added(Address::Source, true, bytes),
        0x5e => added(Address::Destination, true, bytes),
        other => Err(DecodeFault::Unknown(other)),
    }
}

// Decodes the DMALPEND of a loop that DMALPFE begins.
fn again(counter: Counter, bytes: &[u8]) -> Result<(ChipInsn, usize), DecodeFault>
    ensures { result ≡ again_by counter bytes.now }
{
    if bytes.len() < 2 {
        return Err(DecodeFault::Cut);
    }
    Ok((
        ChipInsn::LoopAgain {
            counter,
            back: bytes[1],
        },
        2,
    ))
}

// Decodes DMAADDH or DMAADNH of a register.
fn added(address: Address, negative: bool, bytes: &[u8]) -> Result<(ChipInsn, usize), DecodeFault>
    ensures { result ≡ added_by address negative bytes.now }
{
    if bytes.len() < 3 {
        return Err(DecodeFault::Cut);
    }
    let half = LittleEndian::read_u16(&bytes[1..]);
    Ok((
        ChipInsn::AddHalfword {
            address,
            half,
            negative,
        },
        3,
    ))
}
