//! Which instructions of a program load and store an address. DMASTZ stores too.
#![tactic(auto, using(dma_text::proofs::Begun::begun))]

ghost use Rattle.std.specs.Prelude.{◌≡◌};
ghost use Rattle.dma_chan.specs.inner.Spans.{IsBurst};
ghost use Rattle.dma_trace.specs.Touches.{access_text, after_touch, conflict_text, has_addr, untouched, with_load, with_store};

use crate::amounts::Offset;
use dma_chan::bursts::{Burst, destination_burst, source_burst};
use dma_chan::exec::Registers;
use dma_explain::explain::Cause;
use dma_insn::chip::ChipInsn;
use dma_text::text::{Address, Text};
use std::alloc::AllocError;

/// An instruction that loads or stores the address: its number, counted from 1, and its offset.
#[derive(Clone, Copy)]
pub struct Access {
    pub number: u32,
    pub pc: u32,
}

/// The first load of an address, and its first two stores.
#[derive(Clone, Copy)]
pub struct Touches {
    pub load: Option<Access>,
    pub store: Option<Access>,
    pub second_store: Option<Access>,
}

// Returns whether a burst touches an address.
fn has_addr(burst: Burst, addr: u32) -> bool
    requires some { IsBurst burst }
    ensures { result ≡ has_addr burst addr }
{
    burst.addr <= addr && addr - burst.addr < burst.span().len
}

impl Touches {
    /// Returns a value without loads and stores.
    pub fn none() -> Touches
        ensures { result ≡ untouched }
    {
        Touches {
            load: None,
            store: None,
            second_store: None,
        }
    }

    // Adds a load.
    fn add_load(&mut self, access: Access)
        ensures { self.new ≡ with_load access self.old }
    {
        self.load = self.load.or(Some(access));
    }

    // Adds a store, which is the second one if there was one before.
    fn add_store(&mut self, access: Access)
        ensures { self.new ≡ with_store access self.old }
    {
        self.second_store = self.store.and(self.second_store.or(Some(access)));
        self.store = self.store.or(Some(access));
    }

    /// Adds an instruction with this number, by the registers before it.
    pub fn add(&mut self, insn: &ChipInsn, addr: u32, number: u32, before: &Registers)
        ensures { self.new ≡ after_touch insn.now addr number before.now self.old }
    {
        let access = Access {
            number,
            pc: before.pc,
        };
        match *insn {
            ChipInsn::Ld => {
                if has_addr(source_burst(before), addr) {
                    self.add_load(access);
                }
            }
            ChipInsn::St | ChipInsn::StoreZeros => {
                if has_addr(destination_burst(before), addr) {
                    self.add_store(access);
                }
            }
            _ => {}
        }
    }
}

/// The instruction of an access, or `no instruction`.
#[derive(Drop)]
struct AccessOrNone(Option<Access>);

impl Text for AccessOrNone {
    ghost text = { λ shown. access_text shown.0 };

    fn push(&self, out: &mut Vec<u8>) -> Result<(), AllocError> {
        match self.0 {
            Some(access) => {
                let number = ("instruction ", access.number);
                (number, (" at offset ", Offset(access.pc))).push(out)
            }
            None => "no instruction".push(out),
        }
    }
}

/// The address at which a byte is stored twice, or stored where one is loaded, and the instructions that do so. For
/// any other cause it has no text.
#[derive(Drop)]
pub struct Conflict<'a> {
    pub cause: Cause,
    pub addr: u32,
    pub touches: &'a Touches,
}

impl Text for Conflict<'_> {
    ghost text = { λ conflict. conflict_text conflict.cause conflict.addr conflict.touches.now };

    #[tactic(auto, unfolding(crate::specs::Touches::conflict_text))]
    fn push(&self, out: &mut Vec<u8>) -> Result<(), AllocError> {
        let load = AccessOrNone(self.touches.load);
        let store = AccessOrNone(self.touches.store);
        let second = AccessOrNone(self.touches.second_store);
        let addr = (": 0x", Address(self.addr));
        match self.cause {
            Cause::StoresTwice => (addr, (", by ", store), (" and by ", second)).push(out),
            Cause::StoresSource => (addr, (", loaded by ", load), (", stored by ", store)).push(
                out,
            ),
            _ => Ok(()),
        }
    }
}
