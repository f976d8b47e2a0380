//! The flags of the controller's events.

ghost use Rattle.std.specs.Prelude.{◌≡◌, ◌≤◌, length, slice_index_or, slice_set, true, false};
ghost use Rattle.dma_mem.specs.Flags.{all_clear, flags_of};
ghost use Rattle.dma_mem.specs.Limits.{last_event};

use std::marker::Model;

/// A flag for each event from 0 to 31 (PL330 manual, DMASEV and DMAWFE). Contracts see them as a list of 32 truth
/// values.
#[derive(Drop)]
pub struct Events {
    bits: u32,
}

impl Model for Events {
    ghost use Rattle.std.specs.Prelude.{List, Bool};
    ghost use Rattle.dma_mem.specs.Flags.{flags_of};

    ghost Value = { List Bool };

    ghost view = { λ e. flags_of e.bits };
}

impl Events {
    /// Returns flags that are all clear.
    #[tactic(auto, using(crate::proofs::FlagBits::flags_of_zero))]
    pub fn new() -> Events
        ensures { result ≡ all_clear }
    {
        Events { bits: 0 }
    }

    /// Returns the flags of a number: the flag of event e is set if bit e is.
    pub fn from_bits(bits: u32) -> Events
        ensures { result ≡ flags_of bits }
    {
        Events { bits }
    }

    /// Returns the flags as a number: bit e is set if the flag of event e is.
    pub fn bits(&self) -> u32
        ensures { flags_of result ≡ self.now }
    {
        self.bits
    }

    /// Returns a copy of the flags.
    pub fn copy(&self) -> Events
        ensures { result ≡ self.now }
    {
        Events { bits: self.bits }
    }

    /// Returns whether the flag of an event is set.
    #[tactic(auto, using(crate::proofs::FlagBits::length_flags_of, crate::proofs::FlagBits::get_or_flags_of))]
    pub fn is_set(&self, event: u8) -> bool
        requires { event ≤ last_event }
        ensures flag { result ≡ slice_index_or self.now event false }
        ensures count { length self.now ≡ 32 }
    {
        (self.bits >> event) & 1 == 1
    }

    /// Sets the flag of an event.
    #[tactic(auto, using(crate::proofs::FlagBits::flags_of_set))]
    pub fn set(&mut self, event: u8)
        requires { event ≤ last_event }
        ensures { self.new ≡ slice_set self.old event true }
    {
        self.bits |= 1 << event;
    }

    /// Clears the flag of an event.
    #[tactic(auto, using(crate::proofs::FlagBits::flags_of_clear))]
    pub fn clear(&mut self, event: u8)
        requires { event ≤ last_event }
        ensures { self.new ≡ slice_set self.old event false }
    {
        self.bits &= !(1 << event);
    }
}
