//! The words of explanations and traces.
#![tactic(auto, using(dma_text::proofs::Begun::begun))]

ghost use Rattle.std.specs.Prelude.{◌≡◌, ◌<◌, ◌++◌, IsSome, OnOk, Result, Ok, Err, slice_get};
ghost use Rattle.std.specs.Option.{option_map};
ghost use Rattle.dma_chan.specs.declared.turn.FaultKind.{FaultKind};
ghost use Rattle.dma_text.specs.Text.{Begins};
ghost use Rattle.dma_trace.specs.Front.{point_of};
ghost use Rattle.dma_trace.specs.Words.{cause_text, control_text, end_text, long_text, name_at, next_text, place_text, register_name, state_text, uses_text};

use crate::amounts::{Bytes, Instructions, Offset, Range};
use crate::columns::FrontColumns;
use crate::failures::Failure;
use dma_chan::bursts::{destination_burst, source_burst};
use dma_chan::channel::Channel;
use dma_chan::exec::Registers;
use dma_chan::turn::FaultKind;
use dma_explain::explain::Cause;
use dma_explain::explain::known::Register;
use dma_explain::explain::tracer::read_of;
use dma_insn::chip::ChipInsn;
use dma_manual::first_bytes::insn_name;
use dma_manual::manual::Manual;
use dma_text::text::{Address, Text};
use std::alloc::AllocError;

/// The fields of one end of a control word, whose lowest bit is bit 0. The letter is `S` or `D`.
#[derive(Drop)]
struct End {
    letter: &'static str,
    bits: u32,
}

impl Text for End {
    ghost text = { λ end. end_text end.letter.now end.bits };

    #[tactic(auto, unfolding(crate::specs::Words::end_text))]
    fn push(&self, out: &mut Vec<u8>) -> Result<(), AllocError> {
        let beats = (self.bits >> 4) % 16 + 1;
        let size = 8 * (1u32 << ((self.bits >> 1) % 8));
        let rises = if self.bits % 2 == 1 { "AI" } else { "AF" };
        (
            (self.letter, "B", beats),
            (" ", self.letter, "S", size),
            (" ", self.letter, rises),
        )
            .push(out)
    }
}

/// A control word, with its fields.
#[derive(Drop)]
pub struct ControlText(pub u32);

impl Text for ControlText {
    ghost text = { λ word. control_text word.0 };

    #[tactic(auto, unfolding(crate::specs::Words::control_text))]
    fn push(&self, out: &mut Vec<u8>) -> Result<(), AllocError> {
        let src = End {
            letter: "S",
            bits: self.0,
        };
        let dst = End {
            letter: "D",
            bits: self.0 >> 14,
        };
        ("CCR 0x", Address(self.0), (": ", src, " ", dst)).push(out)
    }
}

/// The registers of a channel, and how many bytes its buffer holds.
#[derive(Clone, Copy)]
pub struct Front {
    pub registers: Registers,
    pub held: u32,
}

/// An instruction that a channel is about to execute.
#[derive(Clone, Copy)]
pub struct Point {
    /// The instruction, or the fault of fetching it.
    pub ahead: Result<ChipInsn, FaultKind>,
    /// How many instructions were executed before it.
    pub steps: u32,
    /// The registers.
    pub front: Front,
}

impl Point {
    /// Returns the next instruction of a channel, after `steps` others.
    pub fn of(channel: &Channel, steps: u32) -> Point
        requires { IsSome channel.now.program }
        ensures { result ≡ point_of steps channel.now }
    {
        Point {
            ahead: channel.ahead_on_bus(),
            steps,
            front: Front {
                registers: channel.registers(),
                held: channel.buffered(),
            },
        }
    }
}

/// Returns the first byte of the instruction at an offset, if the program has one there.
pub fn first_byte(program: &[u8], pc: u32) -> Option<u8>
    ensures { result ≡ slice_get program.now pc }
{
    program.get(pc as usize).copied()
}

// Returns the name of the instruction that begins with this byte, if it has more bytes or some channel doesn't execute
// it.
fn name_at(first: Option<u8>) -> Option<&'static str>
    ensures { option_map (λ name. name.now) result ≡ name_at first }
{
    insn_name(first?)
}

/// The next instruction, or that there is none, with its first byte.
#[derive(Drop)]
struct Ahead<'a> {
    next: &'a Result<ChipInsn, FaultKind>,
    first: Option<u8>,
}

impl Text for Ahead<'_> {
    ghost text = { λ ahead. next_text ahead.first ahead.next.now };

    fn push(&self, out: &mut Vec<u8>) -> Result<(), AllocError> {
        match *self.next {
            Ok(insn) => Manual(insn).push(out),
            Err(_) => name_at(self.first).unwrap_or("no instruction").push(out),
        }
    }
}

// Returns a register's name.
fn register_name(register: Register) -> &'static str
    ensures { result.now ≡ register_name register }
{
    match register {
        Register::Sar => "SAR",
        Register::Dar => "DAR",
        Register::Ccr => "CCR",
        Register::Lc0 => "LC0",
        Register::Lc1 => "LC1",
    }
}

/// Why an instruction may not use a register that isn't known.
#[derive(Drop)]
struct Uses<'a> {
    register: Register,
    at: &'a Point,
}

impl Text for Uses<'_> {
    ghost text = { λ uses. uses_text uses.register uses.at.now.ahead uses.at.now.front };

    #[tactic(auto, unfolding(crate::specs::Words::uses_text))]
    fn push(&self, out: &mut Vec<u8>) -> Result<(), AllocError> {
        let name = register_name(self.register);
        match self.at.ahead {
            Ok(ChipInsn::Mov(_, _)) => {
                let held = Bytes(u64::from(self.at.front.held));
                (
                    ("the buffer holds ", held),
                    (", which a chip drops or keeps by the old ", name),
                    ", which the program hasn't set",
                )
                    .push(out)
            }
            _ => ("it uses ", name, ", which the program hasn't set").push(out),
        }
    }
}

/// Why nothing explains a program, as a text about the instruction that is to blame.
#[derive(Drop)]
pub struct Why<'a> {
    pub cause: Cause,
    /// The first byte of the instruction, if the program has one there.
    pub first: Option<u8>,
    pub at: &'a Point,
}

impl Text for Why<'_> {
    ghost text = { λ w. cause_text w.cause w.first w.at.now.ahead w.at.now.steps w.at.now.front };

    #[tactic(auto, unfolding(crate::specs::Words::cause_text))]
    fn push(&self, out: &mut Vec<u8>) -> Result<(), AllocError> {
        let Why { first, at, .. } = *self;
        let held = Bytes(u64::from(at.front.held));
        let loads = source_burst(&at.front.registers);
        let stores = destination_burst(&at.front.registers);
        match self.cause {
            Cause::TooLong => "the program has more than 8192 bytes".push(out),
            Cause::Fails(kind) => Failure { kind, first, at }.push(out),
            Cause::LoadsPast => ("the load ends above 2^32: ", Range(read_of(loads))).push(out),
            Cause::StoresPast => ("the store ends above 2^32: ", Range(read_of(stores))).push(out),
            Cause::StoresFixed => {
                "the destination is fixed: each beat overwrites the one before".push(out)
            }
            Cause::DropsBytes => ("a chip drops what the buffer holds: ", held).push(out),
            Cause::BytesLeft => ("left over in the buffer: ", held).push(out),
            Cause::StoresTwice => "a byte is stored twice".push(out),
            Cause::StoresSource => "a byte is stored where one is loaded".push(out),
            Cause::NoEnd => (
                "the program hasn't ended after ",
                Instructions(u64::from(at.steps)),
            )
                .push(out),
            Cause::NoMemory => "out of memory".push(out),
            Cause::UsesUnknown(register) => Uses { register, at }.push(out),
        }
    }
}

/// Where an instruction is, as the beginning of a line.
#[derive(Drop)]
pub struct Place<'a> {
    /// The first byte of the instruction, if the program has one there.
    pub first: Option<u8>,
    pub at: &'a Point,
}

impl Text for Place<'_> {
    ghost text = { λ p. let at = p.at.now in
        place_text p.first at.ahead at.front.registers.pc at.steps };

    #[tactic(auto, unfolding(crate::specs::Words::place_text))]
    fn push(&self, out: &mut Vec<u8>) -> Result<(), AllocError> {
        let number = u64::from(self.at.steps) + 1;
        let ahead = Ahead {
            next: &self.at.ahead,
            first: self.first,
        };
        (
            " offset ",
            Offset(self.at.front.registers.pc),
            (": ", ahead),
            (" (instruction ", number, "): "),
        )
            .push(out)
    }
}

/// The registers, as the end of a line and two more lines, and a line with how many bytes were stored before.
#[derive(Drop)]
pub struct State<'a> {
    pub front: &'a Front,
    pub stored: u64,
}

impl Text for State<'_> {
    ghost text = { λ state. state_text state.front.now state.stored };

    #[tactic(auto, unfolding(crate::specs::Words::state_text))]
    fn push(&self, out: &mut Vec<u8>) -> Result<(), AllocError> {
        let registers = FrontColumns {
            front: self.front,
            width: 0,
        };
        let control = ControlText(self.front.registers.ccr.bits());
        let stored = Bytes(self.stored);
        (
            ("\n  ", registers),
            ("\n  ", control),
            ("\n  ", stored, " stored before\n"),
        )
            .push(out)
    }
}

/// The line of a program that is too long.
#[derive(Drop)]
pub struct LongProgram;

impl Text for LongProgram {
    ghost text = { λ _. long_text };

    #[tactic(auto, unfolding(crate::specs::Words::long_text))]
    fn push(&self, out: &mut Vec<u8>) -> Result<(), AllocError> {
        (" offset 0x2000: the program has more than 8192 bytes", "\n").push(out)
    }
}
