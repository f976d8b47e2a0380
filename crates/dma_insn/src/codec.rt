//! Encodes and decodes instructions.

ghost use Rattle.std.specs.Prelude.{◌≡◌, ℕ, ◌+◌, ◌<◌, ◌≤◌, ◌∷◌, ◌++◌, length, drop, IfOk, IfErr};
ghost use Rattle.dma_insn.specs.declared.insn.Insn.{Insn};
ghost use Rattle.dma_insn.specs.declared.insn.Insn.TheVariants.{Lp, LpEnd};
ghost use Rattle.dma_insn.specs.Spelling.{spelling, loop_byte, loop_end_byte, register_byte, HasRanges, IsSpelledAt, IsRefusedFor, NoSpellingBeginsAnother};
ghost use Rattle.dma_insn.specs.Decoding.{decoded, by_second, signal_at, wait_at, set_by};

use crate::insn::{Counter, Event, Insn, Reg, Times};
use byteorder::{ByteOrder, LittleEndian};
use thiserror::Error;

/// Why bytes don't begin with an instruction. The causes are tested in this order: `Cut` for no bytes, `Unknown` for a
/// first byte with which no instruction begins, `Cut` for too few bytes after it, and `BadField` for a register byte or
/// an event byte that is not valid.
#[derive(Clone, Copy, PartialEq, Eq, Debug, Error)]
pub enum DecodeFault {
    #[error("the bytes end within an instruction")]
    Cut,
    #[error("no instruction begins with {0:#04x}")]
    Unknown(u8),
    #[error("a field is outside its range")]
    BadField,
}

/// Writes the bytes of an instruction to the front of `out` and returns their number. The other bytes of `out` are
/// unchanged.
pub fn encode(insn: Insn, out: &mut [u8; 6]) -> usize
    ensures count { result ≡ length (spelling insn) }
    ensures bytes { out.new ≡ spelling insn ++ drop result out.old }
    // The type `Insn` guarantees these ranges.
    ensures in_range { HasRanges insn }
{
    match insn {
        Insn::End => write_one(0x00, out),
        Insn::Ld => write_one(0x04, out),
        Insn::St => write_one(0x08, out),
        Insn::Rmb => write_one(0x12, out),
        Insn::Wmb => write_one(0x13, out),
        Insn::Nop => write_one(0x18, out),
        Insn::Lp { counter, times } => {
            write_two(loop_code(counter), (times.number() - 1) as u8, out)
        }
        Insn::LpEnd { counter, back } => write_two(loop_end_code(counter), back, out),
        Insn::Sev(event) => write_two(0x34, event.number() * 8, out),
        Insn::Wfe { event, invalid } => {
            write_two(0x36, event.number() * 8 + if invalid { 2 } else { 0 }, out)
        }
        Insn::Mov(reg, value) => {
            write_two(0xbc, register_code(reg), out);
            LittleEndian::write_u32(&mut out[2..], value);
            6
        }
    }
}

/// Writes an instruction of one byte.
pub fn write_one(first: u8, out: &mut [u8; 6]) -> usize
    ensures count { result ≡ 1 }
    ensures bytes { out.new ≡ first ∷ drop 1 out.old }
{
    out[0] = first;
    1
}

/// Writes the first two bytes of an instruction.
pub fn write_two(first: u8, second: u8, out: &mut [u8; 6]) -> usize
    ensures count { result ≡ 2 }
    ensures bytes { out.new ≡ first ∷ second ∷ drop 2 out.old }
{
    out[0] = first;
    out[1] = second;
    2
}

// Returns the first byte of DMALP.
fn loop_code(counter: Counter) -> u8
    ensures { result ≡ loop_byte counter }
{
    match counter {
        Counter::Lc0 => 0x20,
        Counter::Lc1 => 0x22,
    }
}

// Returns the first byte of DMALPEND.
fn loop_end_code(counter: Counter) -> u8
    ensures { result ≡ loop_end_byte counter }
{
    match counter {
        Counter::Lc0 => 0x38,
        Counter::Lc1 => 0x3c,
    }
}

// Returns the second byte of DMAMOV.
fn register_code(reg: Reg) -> u8
    ensures { result ≡ register_byte reg }
{
    match reg {
        Reg::Sar => 0,
        Reg::Ccr => 1,
        Reg::Dar => 2,
    }
}

/// Decodes the instruction at the front of `bytes`, and returns it with its length in bytes. Other bytes may follow.
///
/// The immediate of DMAMOV may have any value: a control word is not checked here.
pub fn decode(bytes: &[u8]) -> Result<(Insn, usize), DecodeFault>
    // The bytes begin with the encoding of the returned instruction, which has the returned length.
    ensures found { IfOk result (λ found. IsSpelledAt bytes.now found.0 found.1) }
    ensures within { IfOk result (λ found. (0 < found.1) × (found.1 ≤ length bytes.now)) }
    // If the bytes begin with the encoding of an instruction, that instruction is returned.
    ensures only { (i : Insn) (n : ℕ) → IsSpelledAt bytes.now i n → result ≡ Ok (i, n) }
    // On an error the bytes begin with no instruction, and the fault is the first that applies.
    ensures none { IfErr result (λ _. (i : Insn) (n : ℕ) → IsSpelledAt bytes.now i n → ⊥) }
    ensures refused { IfErr result (λ fault. IsRefusedFor bytes.now fault) }
    // The result as a function of the bytes.
    ensures exact { result ≡ decoded bytes.now }
{
    read(bytes)
}

// Decodes one instruction, by its first byte.
fn read(bytes: &[u8]) -> Result<(Insn, usize), DecodeFault>
    ensures { result ≡ decoded bytes.now }
{
    let Some((first, rest)) = bytes.split_first() else {
        return Err(DecodeFault::Cut);
    };
    match *first {
        0x00 => Ok((Insn::End, 1)),
        0x04 => Ok((Insn::Ld, 1)),
        0x08 => Ok((Insn::St, 1)),
        0x12 => Ok((Insn::Rmb, 1)),
        0x13 => Ok((Insn::Wmb, 1)),
        0x18 => Ok((Insn::Nop, 1)),
        0x20 => loop_start(Counter::Lc0, rest),
        0x22 => loop_start(Counter::Lc1, rest),
        0x38 => loop_end(Counter::Lc0, rest),
        0x3c => loop_end(Counter::Lc1, rest),
        0x34 => signal(rest),
        0x36 => wait(rest),
        0xbc => decode_mov(rest),
        other => Err(DecodeFault::Unknown(other)),
    }
}

// Decodes DMALP from its second byte.
fn loop_start(counter: Counter, rest: &[u8]) -> Result<(Insn, usize), DecodeFault>
    ensures { result ≡ by_second rest.now (λ n. Ok (Lp counter (n + 1), 2)) }
{
    let less_one = *rest.first().ok_or(DecodeFault::Cut)?;
    let times = Times::of_number(u16::from(less_one) + 1);
    Ok((Insn::Lp { counter, times }, 2))
}

// Decodes DMALPEND from its second byte.
fn loop_end(counter: Counter, rest: &[u8]) -> Result<(Insn, usize), DecodeFault>
    ensures { result ≡ by_second rest.now (λ n. Ok (LpEnd counter n, 2)) }
{
    let back = *rest.first().ok_or(DecodeFault::Cut)?;
    Ok((Insn::LpEnd { counter, back }, 2))
}

// Decodes DMASEV from its second byte.
fn signal(rest: &[u8]) -> Result<(Insn, usize), DecodeFault>
    ensures { result ≡ by_second rest.now signal_at }
{
    let field = *rest.first().ok_or(DecodeFault::Cut)?;
    if field % 8 == 0 {
        Ok((Insn::Sev(Event::of_number(field / 8)), 2))
    } else {
        Err(DecodeFault::BadField)
    }
}

// Decodes DMAWFE from its second byte.
fn wait(rest: &[u8]) -> Result<(Insn, usize), DecodeFault>
    ensures { result ≡ by_second rest.now wait_at }
{
    let field = *rest.first().ok_or(DecodeFault::Cut)?;
    let event = Event::of_number(field / 8);
    let invalid = match field % 8 {
        0 => false,
        2 => true,
        _ => return Err(DecodeFault::BadField),
    };
    Ok((Insn::Wfe { event, invalid }, 2))
}

/// Decodes DMAMOV from its second byte.
#[tactic(auto, using(std::proofs::lemmas::Grind::common_steps))]
pub fn decode_mov(rest: &[u8]) -> Result<(Insn, usize), DecodeFault>
    ensures { result ≡ set_by rest.now }
{
    if rest.len() < 5 {
        return Err(DecodeFault::Cut);
    }
    let value = LittleEndian::read_u32(&rest[1..]);
    match rest[0] {
        0 => Ok((Insn::Mov(Reg::Sar, value), 6)),
        1 => Ok((Insn::Mov(Reg::Ccr, value), 6)),
        2 => Ok((Insn::Mov(Reg::Dar, value), 6)),
        _ => Err(DecodeFault::BadField),
    }
}

/// Law: no instruction's encoding is a prefix of another's. Bytes that begin with an instruction begin with no other,
/// and the bytes after it are determined too, so a program's bytes are decoded in only one way.
#[tactic(auto, using(crate::proofs::Laws::one_front))]
pub fn no_spelling_begins_another()
    ensures { NoSpellingBeginsAnother }
{}
