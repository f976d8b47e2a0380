//! The instructions of the DMA-330's manual (ARM DDI 0424, instruction set): those of the model's channels, and those
//! that no channel of the model executes.

ghost use Rattle.std.specs.Prelude.{◌≡◌, ℕ, ◌<◌};

use dma_insn::chip::ChipInsn;
use dma_insn::insn::Counter;
use std::marker::Model;

/// The kind of a peripheral's request, which a DMAWFP sets. An instruction with a kind acts only if it is this one.
#[derive(Clone, Copy)]
pub enum Request {
    Single,
    Burst,
}

/// Which requests a DMAWFP waits for.
#[derive(Clone, Copy)]
pub enum Awaited {
    Single,
    Burst,
    /// Either, as the peripheral sends it.
    Either,
}

/// The number of a peripheral, 0 to 31. A contract sees the number.
#[derive(Clone, Copy)]
pub struct Peripheral {
    number: u8,
}

impl Model for Peripheral {
    ghost Value = { ℕ };

    ghost view = { λ p. p.number };

    ghost invariant = { λ p. p.number < 32 };

    ghost inverse = { λ n. record { number = n } };
}

impl Peripheral {
    /// Returns the peripheral of a number, which has to be at most 31.
    pub fn of_number(number: u8) -> Peripheral
        requires { number < 32 }
        ensures { result ≡ number }
    {
        Peripheral { number }
    }

    /// Returns the number of the peripheral, 0 to 31.
    pub fn number(self) -> u8
        ensures value { result ≡ self }
        ensures range { self < 32 }
    {
        self.number
    }
}

/// The number of a channel, 0 to 7. A contract sees the number.
#[derive(Clone, Copy)]
pub struct Channel {
    number: u8,
}

impl Model for Channel {
    ghost Value = { ℕ };

    ghost view = { λ c. c.number };

    ghost invariant = { λ c. c.number < 8 };

    ghost inverse = { λ n. record { number = n } };
}

impl Channel {
    /// Returns the channel of a number, which has to be at most 7.
    pub fn of_number(number: u8) -> Channel
        requires { number < 8 }
        ensures { result ≡ number }
    {
        Channel { number }
    }

    /// Returns the number of the channel, 0 to 7.
    pub fn number(self) -> u8
        ensures value { result ≡ self }
        ensures range { self < 8 }
    {
        self.number
    }
}

/// What an instruction does with a peripheral.
#[derive(Clone, Copy)]
pub enum Action {
    /// DMALDPS, DMALDPB
    Ld(Request),
    /// DMASTPS, DMASTPB
    St(Request),
    /// DMAWFP
    Wait(Awaited),
    /// DMAFLUSHP
    Flush,
}

/// An instruction that no channel of the model executes.
#[derive(Clone, Copy)]
pub enum OtherInsn {
    /// DMAKILL
    Kill,
    /// DMALDS, DMALDB
    LdIf(Request),
    /// DMASTS, DMASTB
    StIf(Request),
    /// An instruction with a peripheral
    OfPeripheral {
        action: Action,
        peripheral: Peripheral,
    },
    /// DMALPENDS, DMALPENDB of a loop that DMALP begins
    LpEndIf {
        request: Request,
        counter: Counter,
        back: u8,
    },
    /// DMALPENDS, DMALPENDB of a loop that DMALPFE begins
    LoopAgainIf {
        request: Request,
        back: u8,
    },
    /// DMAGO
    Go {
        channel: Channel,
        address: u32,
        non_secure: bool,
    },
}

/// An instruction of the manual.
#[derive(Clone, Copy)]
pub enum ManualInsn {
    /// One that a channel executes, some only on a chip's bus.
    Chip(ChipInsn),
    Other(OtherInsn),
}
