//! Encodes and decodes the manual's instructions.

ghost use Rattle.std.specs.Prelude.{◌≡◌, ℕ, ◌<◌, ◌≤◌, ◌∷◌, ◌++◌, length, drop, IfOk, IfErr, Ok};
ghost use Rattle.dma_manual.specs.declared.insns.ManualInsn.{ManualInsn};
ghost use Rattle.dma_manual.specs.Insns.{HasRanges, IsRefusedFor, IsSpelledAt, action_byte, again_if, decoded, end_if, end_if_byte, go_byte, go_of, of_peripheral, other_decoded, other_spelling, request_bits, spelling};

use crate::insns::{Action, Awaited, Channel, ManualInsn, OtherInsn, Peripheral, Request};
use byteorder::{ByteOrder, LittleEndian};
use dma_insn::chip::{decode_chip, encode_chip};
use dma_insn::codec::{DecodeFault, write_one, write_two};
use dma_insn::insn::Counter;

/// Writes the bytes of an instruction to the front of `out` and returns their number. The other bytes of `out` are
/// unchanged.
pub fn encode(insn: ManualInsn, out: &mut [u8; 6]) -> usize
    ensures count { result ≡ length (spelling insn) }
    ensures bytes { out.new ≡ spelling insn ++ drop result out.old }
{
    match insn {
        ManualInsn::Chip(insn) => encode_chip(insn, out),
        ManualInsn::Other(insn) => encode_other(insn, out),
    }
}

// Writes the bytes of an instruction that no channel executes.
fn encode_other(insn: OtherInsn, out: &mut [u8; 6]) -> usize
    ensures count { result ≡ length (other_spelling insn) }
    ensures bytes { out.new ≡ other_spelling insn ++ drop result out.old }
{
    match insn {
        OtherInsn::Kill => write_one(0x01, out),
        OtherInsn::LdIf(request) => write_one(0x05 + request_bits(request), out),
        OtherInsn::StIf(request) => write_one(0x09 + request_bits(request), out),
        OtherInsn::OfPeripheral { action, peripheral } => {
            write_two(action_byte(action), peripheral.number() * 8, out)
        }
        OtherInsn::LpEndIf {
            request,
            counter,
            back,
        } => write_two(end_if_byte(request, counter), back, out),
        OtherInsn::LoopAgainIf { request, back } => {
            write_two(0x2d + request_bits(request), back, out)
        }
        OtherInsn::Go {
            channel,
            address,
            non_secure,
        } => {
            write_two(go_byte(non_secure), channel.number(), out);
            LittleEndian::write_u32(&mut out[2..], address);
            6
        }
    }
}

// Returns the bits of a byte that say for which kind of request an instruction is.
fn request_bits(request: Request) -> u8
    ensures value { result ≡ request_bits request }
    ensures range { result ≤ 2 }
{
    match request {
        Request::Single => 0,
        Request::Burst => 2,
    }
}

// Returns the first byte of an instruction with a peripheral.
fn action_byte(action: Action) -> u8
    ensures { result ≡ action_byte action }
{
    match action {
        Action::Ld(request) => 0x25 + request_bits(request),
        Action::St(request) => 0x29 + request_bits(request),
        Action::Wait(Awaited::Single) => 0x30,
        Action::Wait(Awaited::Either) => 0x31,
        Action::Wait(Awaited::Burst) => 0x32,
        Action::Flush => 0x35,
    }
}

// Returns the first byte of a DMALPENDS or DMALPENDB of a loop that DMALP begins.
fn end_if_byte(request: Request, counter: Counter) -> u8
    ensures { result ≡ end_if_byte request counter }
{
    let counted = match counter {
        Counter::Lc0 => 0x39,
        Counter::Lc1 => 0x3d,
    };
    counted + request_bits(request)
}

// Returns the first byte of DMAGO.
fn go_byte(non_secure: bool) -> u8
    ensures { result ≡ go_byte non_secure }
{
    if non_secure { 0xa2 } else { 0xa0 }
}

/// Decodes the instruction at the front of `bytes`, and returns it with its length in bytes. Other bytes may follow.
pub fn decode(bytes: &[u8]) -> Result<(ManualInsn, usize), DecodeFault>
    // The bytes begin with the encoding of the returned instruction, which has the returned length.
    ensures found { IfOk result (λ found. IsSpelledAt bytes.now found.0 found.1) }
    ensures within { IfOk result (λ found. (0 < found.1) × (found.1 ≤ length bytes.now)) }
    // If the bytes begin with the encoding of an instruction, that instruction is returned.
    ensures only { (i : ManualInsn) (n : ℕ) → IsSpelledAt bytes.now i n → result ≡ Ok (i, n) }
    // On an error the fault is the first that applies.
    ensures refused { IfErr result (λ fault. IsRefusedFor bytes.now fault) }
    // The result as a function of the bytes.
    ensures exact { result ≡ decoded bytes.now }
{
    read(bytes)
}

// Decodes one instruction: of a channel, or else by its first byte.
fn read(bytes: &[u8]) -> Result<(ManualInsn, usize), DecodeFault>
    ensures { result ≡ decoded bytes.now }
{
    match decode_chip(bytes) {
        Ok((insn, len)) => Ok((ManualInsn::Chip(insn), len)),
        Err(DecodeFault::Unknown(first)) => match decode_other(first, bytes) {
            Ok((insn, len)) => Ok((ManualInsn::Other(insn), len)),
            Err(fault) => Err(fault),
        },
        Err(fault) => Err(fault),
    }
}

// Decodes an instruction that no channel executes, by its first byte.
fn decode_other(first: u8, bytes: &[u8]) -> Result<(OtherInsn, usize), DecodeFault>
    ensures { result ≡ other_decoded first bytes.now }
{
    match first {
        0x01 => Ok((OtherInsn::Kill, 1)),
        0x05 => Ok((OtherInsn::LdIf(Request::Single), 1)),
        0x07 => Ok((OtherInsn::LdIf(Request::Burst), 1)),
        0x09 => Ok((OtherInsn::StIf(Request::Single), 1)),
        0x0b => Ok((OtherInsn::StIf(Request::Burst), 1)),
        0x25 => of_peripheral(Action::Ld(Request::Single), bytes),
        0x27 => of_peripheral(Action::Ld(Request::Burst), bytes),
        0x29 => of_peripheral(Action::St(Request::Single), bytes),
        0x2b => of_peripheral(Action::St(Request::Burst), bytes),
        0x2d => again_if(Request::Single, bytes),
        0x2f => again_if(Request::Burst, bytes),
        0x30 => of_peripheral(Action::Wait(Awaited::Single), bytes),
        0x31 => of_peripheral(Action::Wait(Awaited::Either), bytes),
        0x32 => of_peripheral(Action::Wait(Awaited::Burst), bytes),
        0x35 => of_peripheral(Action::Flush, bytes),
        0x39 => end_if(Request::Single, Counter::Lc0, bytes),
        0x3b => end_if(Request::Burst, Counter::Lc0, bytes),
        0x3d => end_if(Request::Single, Counter::Lc1, bytes),
        0x3f => end_if(Request::Burst, Counter::Lc1, bytes),
        0xa0 => go_of(false, bytes),
        0xa2 => go_of(true, bytes),
        other => Err(DecodeFault::Unknown(other)),
    }
}

// Decodes an instruction with a peripheral.
fn of_peripheral(action: Action, bytes: &[u8]) -> Result<(OtherInsn, usize), DecodeFault>
    ensures { result ≡ of_peripheral action bytes.now }
{
    if bytes.len() < 2 {
        return Err(DecodeFault::Cut);
    }
    if bytes[1] % 8 != 0 {
        return Err(DecodeFault::BadField);
    }
    let peripheral = Peripheral::of_number(bytes[1] / 8);
    Ok((OtherInsn::OfPeripheral { action, peripheral }, 2))
}

// Decodes a DMALPENDS or DMALPENDB of a loop that DMALP begins.
fn end_if(
    request: Request,
    counter: Counter,
    bytes: &[u8],
) -> Result<(OtherInsn, usize), DecodeFault>
    ensures { result ≡ end_if request counter bytes.now }
{
    if bytes.len() < 2 {
        return Err(DecodeFault::Cut);
    }
    let back = bytes[1];
    let insn = OtherInsn::LpEndIf {
        request,
        counter,
        back,
    };
    Ok((insn, 2))
}

// Decodes a DMALPENDS or DMALPENDB of a loop that DMALPFE begins.
fn again_if(request: Request, bytes: &[u8]) -> Result<(OtherInsn, usize), DecodeFault>
    ensures { result ≡ again_if request bytes.now }
{
    if bytes.len() < 2 {
        return Err(DecodeFault::Cut);
    }
    let back = bytes[1];
    Ok((OtherInsn::LoopAgainIf { request, back }, 2))
}

// Decodes DMAGO.
fn go_of(non_secure: bool, bytes: &[u8]) -> Result<(OtherInsn, usize), DecodeFault>
    ensures { result ≡ go_of non_secure bytes.now }
{
    if bytes.len() < 6 {
        return Err(DecodeFault::Cut);
    }
    if bytes[1] >= 8 {
        return Err(DecodeFault::BadField);
    }
    let channel = Channel::of_number(bytes[1]);
    let address = LittleEndian::read_u32(&bytes[2..]);
    let insn = OtherInsn::Go {
        channel,
        address,
        non_secure,
    };
    Ok((insn, 6))
}
