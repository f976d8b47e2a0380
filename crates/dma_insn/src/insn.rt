//! A channel instruction as a value. The types of its fields enforce their ranges, so every value has an encoding.

ghost use Rattle.std.specs.Prelude.{◌≡◌, ℕ, ◌<◌, ◌≤◌, ◌↔◌, IsSome, IfSome};

use std::marker::Model;

/// A register that DMAMOV sets: the source address, the control word, the destination address.
#[derive(Clone, Copy, PartialEq, Eq)]
pub enum Reg {
    Sar,
    Ccr,
    Dar,
}

/// One of a channel's two loop counters, the manual's LC0 and LC1.
#[derive(Clone, Copy, PartialEq, Eq)]
pub enum Counter {
    Lc0,
    Lc1,
}

/// The number of an event, 0 to 31. A contract sees the number.
#[derive(Clone, Copy, PartialEq, Eq)]
pub struct Event {
    number: u8,
}

impl Model for Event {
    ghost Value = { ℕ };

    ghost view = { λ e. e.number };

    ghost invariant = { λ e. e.number < 32 };

    ghost inverse = { λ n. record { number = n } };
}

impl Event {
    /// Returns the event of a number, or `None` for a number above 31.
    pub fn new(number: u8) -> Option<Event>
        ensures some { IsSome result ↔ (number < 32) }
        ensures value { IfSome result (λ event. event ≡ number) }
    {
        if number < 32 {
            Some(Event::of_number(number))
        } else {
            None
        }
    }

    /// Returns the event of a number, which has to be at most 31.
    pub fn of_number(number: u8) -> Event
        requires { number < 32 }
        ensures { result ≡ number }
    {
        Event { number }
    }

    /// Returns the number of the event, 0 to 31.
    pub fn number(self) -> u8
        ensures value { result ≡ self }
        ensures range { self < 32 }
    {
        self.number
    }
}

/// The number of times that the body of a loop runs, 1 to 256. A contract sees the number.
#[derive(Clone, Copy, PartialEq, Eq)]
pub struct Times {
    count: u16,
}

impl Model for Times {
    ghost Value = { ℕ };

    ghost view = { λ t. t.count };

    ghost invariant = { λ t. (1 ≤ t.count) × (t.count ≤ 256) };

    ghost inverse = { λ n. record { count = n } };
}

impl Times {
    /// Returns this number of times, or `None` for 0 or more than 256.
    pub fn new(count: u16) -> Option<Times>
        ensures some { IsSome result ↔ ((1 ≤ count) × (count ≤ 256)) }
        ensures value { IfSome result (λ times. times ≡ count) }
    {
        if 1 <= count && count <= 256 {
            Some(Times::of_number(count))
        } else {
            None
        }
    }

    /// Returns this number of times, which has to be 1 to 256.
    pub fn of_number(count: u16) -> Times
        requires low { 1 ≤ count }
        requires high { count ≤ 256 }
        ensures { result ≡ count }
    {
        Times { count }
    }

    /// Returns the number of times, 1 to 256.
    pub fn number(self) -> u16
        ensures value { result ≡ self }
        ensures range { (1 ≤ self) × (self ≤ 256) }
    {
        self.count
    }
}

/// A channel instruction (PL330 manual, instruction chapter). The field `back` of `LpEnd` is the number of bytes from
/// the start of the loop's body to the instruction's own address.
#[derive(Clone, Copy, PartialEq, Eq)]
pub enum Insn {
    /// DMAMOV
    Mov(Reg, u32),
    /// DMALD
    Ld,
    /// DMAST
    St,
    /// DMARMB
    Rmb,
    /// DMAWMB
    Wmb,
    /// DMANOP
    Nop,
    /// DMAEND
    End,
    /// DMALP
    Lp { counter: Counter, times: Times },
    /// DMALPEND
    LpEnd { counter: Counter, back: u8 },
    /// DMASEV
    Sev(Event),
    /// DMAWFE
    Wfe { event: Event, invalid: bool },
}
