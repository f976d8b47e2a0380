//! The text of one instruction in the manual's syntax.

ghost use Rattle.std.specs.Prelude.{◌≡◌, ◌++◌, ◌<◌, OnOk};
ghost use Rattle.dma_insn.specs.ControlWord.{beat_bytes};
ghost use Rattle.dma_manual.specs.ManualText.{action_flag, action_name, add_name, address_name, again_flag, cache_signals, control_text, counter_name, end_name, end_text, field_text, flag_text, go_flag, half_digits, insn_text, letter, manual_text, other_text, request_letter};
ghost use Rattle.dma_text.specs.Text.{Begins};

use crate::insns::{Action, Awaited, ManualInsn, OtherInsn, Request};
use dma_insn::chip::{self, ChipInsn};
use dma_insn::control::{BurstEnd, Control};
use dma_insn::insn::{Counter, Reg};
use dma_text::text::{Address, HexByte, Text};
use std::alloc::AllocError;

/// An instruction in the manual's syntax, as `DMALP lc0, 16`, without a label or a line feed. The jump of DMALPEND is
/// its length in bytes, as `DMALPEND lc0, -12`, or `DMALPEND -12` for a loop of DMALPFE.
#[derive(Clone, Copy)]
pub struct Manual(pub ChipInsn);

impl Text for Manual {
    ghost text = { λ m. manual_text m.0 };

    #[tactic(auto, using(std::proofs::lemmas::Grind::common_steps))]
    fn push(&self, out: &mut Vec<u8>) -> Result<(), AllocError> {
        match self.0 {
            ChipInsn::End => "DMAEND".push(out),
            ChipInsn::Ld => "DMALD".push(out),
            ChipInsn::St => "DMAST".push(out),
            ChipInsn::Rmb => "DMARMB".push(out),
            ChipInsn::Wmb => "DMAWMB".push(out),
            ChipInsn::Nop => "DMANOP".push(out),
            ChipInsn::Lp { counter, times } => {
                let times = u32::from(times.number());
                ("DMALP ", counter_name(counter), ", ", times).push(out)
            }
            ChipInsn::LpEnd { counter, back } => {
                ("DMALPEND ", counter_name(counter), ", -", back).push(out)
            }
            ChipInsn::Sev(event) => ("DMASEV e", event.number()).push(out),
            ChipInsn::Wfe { event, invalid } => {
                let flag = if invalid { ", invalid" } else { "" };
                ("DMAWFE e", event.number(), flag).push(out)
            }
            ChipInsn::Mov(Reg::Sar, addr) => ("DMAMOV SAR, 0x", Address(addr)).push(out),
            ChipInsn::Mov(Reg::Dar, addr) => ("DMAMOV DAR, 0x", Address(addr)).push(out),
            ChipInsn::Mov(Reg::Ccr, word) => ("DMAMOV CCR,", ControlText(word)).push(out),
            ChipInsn::StoreZeros => "DMASTZ".push(out),
            ChipInsn::AddHalfword {
                address,
                half,
                negative,
            } => {
                let number = (", 0x", HalfDigits(half));
                (add_name(negative), address_name(address), number).push(out)
            }
            ChipInsn::LoopAgain { counter, back } => {
                ("DMALPEND -", back, again_flag(counter)).push(out)
            }
        }
    }
}

/// Returns the name of a loop counter.
pub fn counter_name(counter: Counter) -> &'static str
    ensures { result.now ≡ counter_name counter }
{
    match counter {
        Counter::Lc0 => "lc0",
        Counter::Lc1 => "lc1",
    }
}

// Returns the name of an address register.
fn address_name(address: chip::Address) -> &'static str
    ensures { result.now ≡ address_name address }
{
    match address {
        chip::Address::Source => "SAR",
        chip::Address::Destination => "DAR",
    }
}

// Returns the name of DMAADDH, or of DMAADNH, with a space after it.
fn add_name(negative: bool) -> &'static str
    ensures { result.now ≡ add_name negative }
{
    if negative { "DMAADNH " } else { "DMAADDH " }
}

// Returns what follows the jump of the DMALPEND of a DMALPFE: `lc0` if its bit lc, which the manual sets, is 0.
fn again_flag(counter: Counter) -> &'static str
    ensures { result.now ≡ again_flag counter }
{
    match counter {
        Counter::Lc0 => ", lc0",
        Counter::Lc1 => "",
    }
}

// A number of 16 bits in four hexadecimal digits.
#[derive(Clone, Copy)]
struct HalfDigits(u16);

impl Text for HalfDigits {
    ghost text = { λ half. half_digits half.0 };

    fn push(&self, out: &mut Vec<u8>) -> Result<(), AllocError> {
        let HalfDigits(half) = *self;
        let high = HexByte((half / 256 % 256) as u8);
        (high, HexByte((half % 256) as u8)).push(out)
    }
}

impl Text for ManualInsn {
    ghost text = { λ insn. insn_text insn };

    fn push(&self, out: &mut Vec<u8>) -> Result<(), AllocError> {
        match *self {
            ManualInsn::Chip(insn) => Manual(insn).push(out),
            ManualInsn::Other(insn) => insn.push(out),
        }
    }
}

impl Text for OtherInsn {
    ghost text = { λ insn. other_text insn };

    fn push(&self, out: &mut Vec<u8>) -> Result<(), AllocError> {
        match *self {
            OtherInsn::Kill => "DMAKILL".push(out),
            OtherInsn::LdIf(request) => ("DMALD", request_letter(request)).push(out),
            OtherInsn::StIf(request) => ("DMAST", request_letter(request)).push(out),
            OtherInsn::OfPeripheral { action, peripheral } => {
                let number = peripheral.number();
                (action_name(action), " P", number, action_flag(action)).push(out)
            }
            OtherInsn::LpEndIf {
                request,
                counter,
                back,
            } => {
                let name = end_name(Some(request));
                (name, " ", counter_name(counter), (", -", back)).push(out)
            }
            OtherInsn::LoopAgainIf { request, back } => {
                (end_name(Some(request)), " -", back).push(out)
            }
            OtherInsn::Go {
                channel,
                address,
                non_secure,
            } => {
                let operand = (Address(address), go_flag(non_secure));
                ("DMAGO C", channel.number(), ", 0x", operand).push(out)
            }
        }
    }
}

// Returns the letter for a kind of request with which names end.
fn request_letter(request: Request) -> &'static str
    ensures { result.now ≡ request_letter request }
{
    match request {
        Request::Single => "S",
        Request::Burst => "B",
    }
}

/// Returns the name of a DMALPEND, which may be for a kind of request.
pub fn end_name(condition: Option<Request>) -> &'static str
    ensures { result.now ≡ end_name condition }
{
    match condition {
        None => "DMALPEND",
        Some(Request::Single) => "DMALPENDS",
        Some(Request::Burst) => "DMALPENDB",
    }
}

// Returns the name of an instruction with a peripheral.
fn action_name(action: Action) -> &'static str
    ensures { result.now ≡ action_name action }
{
    match action {
        Action::Ld(Request::Single) => "DMALDPS",
        Action::Ld(Request::Burst) => "DMALDPB",
        Action::St(Request::Single) => "DMASTPS",
        Action::St(Request::Burst) => "DMASTPB",
        Action::Wait(_) => "DMAWFP",
        Action::Flush => "DMAFLUSHP",
    }
}

// Returns what follows the peripheral: which requests a DMAWFP waits for.
fn action_flag(action: Action) -> &'static str
    ensures { result.now ≡ action_flag action }
{
    match action {
        Action::Wait(Awaited::Single) => ", single",
        Action::Wait(Awaited::Burst) => ", burst",
        Action::Wait(Awaited::Either) => ", periph",
        _ => "",
    }
}

// Returns what follows the address of a DMAGO: whether the channel is non-secure.
fn go_flag(non_secure: bool) -> &'static str
    ensures { result.now ≡ go_flag non_secure }
{
    if non_secure { ", ns" } else { "" }
}

/// The end of a copy that a field of the control word is about.
#[derive(Clone, Copy)]
pub enum Side {
    Source,
    Destination,
}

impl Side {
    // Returns the letter with which the names of the side's fields begin.
    fn letter(self) -> &'static str
        ensures { result.now ≡ letter self }
    {
        match self {
            Side::Source => "S",
            Side::Destination => "D",
        }
    }

    // Returns the four cache signals of the bus for the three bits of a cache field.
    fn cache_signals(self, code: u8) -> u8
        requires { code < 8 }
        ensures { result ≡ cache_signals self code }
    {
        match self {
            Side::Source => code,
            Side::Destination => code % 4 + 8 * (code / 4),
        }
    }
}

// A control word: its fields, with a space before each, or its bits if the fields can't express it.
#[derive(Clone, Copy)]
struct ControlText(u32);

impl Text for ControlText {
    ghost text = { λ word. control_text word.0 };

    fn push(&self, out: &mut Vec<u8>) -> Result<(), AllocError> {
        match Control::from_bits(self.0) {
            Ok(control) => {
                let source = EndText {
                    side: Side::Source,
                    end: control.src,
                };
                let destination = EndText {
                    side: Side::Destination,
                    end: control.dst,
                };
                (source, destination).push(out)
            }
            Err(_) => (" 0x", Address(self.0)).push(out),
        }
    }
}

// The fields of one end, with a space before each.
#[derive(Clone, Copy)]
struct EndText {
    side: Side,
    end: BurstEnd,
}

impl Text for EndText {
    ghost text = { λ t. end_text t.side t.end };

    #[tactic(auto, using(dma_text::proofs::Begun::begins_more, std::proofs::lemmas::Grind::common_steps))]
    fn push(&self, out: &mut Vec<u8>) -> Result<(), AllocError> {
        let EndText { side, end } = *self;
        let letter = side.letter();
        (" ", letter, "B", end.beats.number()).push(out)?;
        (" ", letter, "S", 8 * end.size.bytes()).push(out)?;
        (" ", letter, if end.increments { "AI" } else { "AF" }).push(out)?;
        push_unless_zero(out, letter, "P", end.protection.code())?;
        push_unless_zero(out, letter, "C", side.cache_signals(end.cache.code()))
    }
}

// Appends a field of one end, with a space before it, unless its number is 0, the manual's default.
fn push_unless_zero(
    out: &mut Vec<u8>,
    letter: &str,
    name: &str,
    number: u8,
) -> Result<(), AllocError>
    ensures ok { OnOk result (out.new.items ≡ out.old.items ++ flag_text letter.now name.now number) }
    ensures begins { Begins out.new.items out.old.items }
{
    if number == 0 {
        return Ok(());
    }
    (" ", letter, name, number).push(out)
}
