//! The program of a channel, in memory that the channel keeps.

ghost use Rattle.std.specs.Prelude.{◌≡◌, ◌≤◌, length, take, is_some, None, Some, IfOk};
ghost use Rattle.dma_insn.specs.AssemblyText.{most_program_bytes};
ghost use Rattle.dma_mem.specs.Regions.{pieces_of, run_from};
ghost use Rattle.dma_chan.specs.Compiled.{compiled};
ghost use Rattle.dma_chan.specs.Channel.{bytes_of_program, cost_of_program};

use crate::bus::Bus;
use crate::compile::push_program;
use crate::program::MAX_PROGRAM_BYTES;
use dma_mem::regions::{Region, copy_run};
use dma_mem::transfer::Transfer;
use std::alloc::{AllocError, Global};
use std::marker::Model;

// The program of a channel, if one is loaded. Its memory is allocated once, for the longest program.
#[derive(Drop)]
pub(crate) struct Code {
    bytes: Vec<u8>,
    cost: Option<u32>,
    is_loaded: bool,
}

impl Model for Code {
    ghost use Rattle.std.specs.Prelude.{Option};
    ghost use Rattle.dma_chan.specs.Programs.{ProgramValue};
    ghost use Rattle.dma_chan.specs.inner.Codes.{IsCode, code_value};

    ghost Value = { Option ProgramValue };

    ghost view = { code_value };

    ghost invariant = { IsCode };
}

impl Code {
    // Returns memory for the longest program, into which none is loaded.
    pub(super) fn new(alloc: Global) -> Result<Code, AllocError>
        ensures { IfOk result (λ code. code ≡ None) }
    {
        Ok(Code {
            bytes: Vec::with_capacity(alloc, MAX_PROGRAM_BYTES)?,
            cost: None,
            is_loaded: false,
        })
    }

    // Loads the program of these bytes, with this cost, in place of the one before.
    pub(super) fn load(&mut self, bytes: &[u8], cost: Option<u32>)
        requires { length bytes.now ≤ most_program_bytes }
        ensures { self.new ≡ Some (record { bytes = bytes.now; cost = cost }) }
    {
        self.bytes.clear();
        let Ok(()) = self.bytes.extend_from_slice(bytes) else {
            unreachable!()
        };
        self.cost = cost;
        self.is_loaded = true;
    }

    // Loads the compiled program of a transfer in place of the one before.
    #[tactic(auto, unfolding(crate::specs::Compiled::compiled, crate::specs::Compiled::compiled_on), using(crate::proofs::PieceCode::pieces_few))]
    pub(super) fn compile(&mut self, transfer: &Transfer)
        ensures value { self.new ≡ Some (compiled transfer.now) }
        ensures limit { length (bytes_of_program self.new) ≤ most_program_bytes }
    {
        self.bytes.clear();
        self.cost = Some(push_program(&mut self.bytes, Bus::Ideal, transfer));
        self.is_loaded = true;
    }

    // Loads the program that begins at an address of the regions in place of the one before: the bytes from there up to
    // the first address that no region has, at most 8,192. It has no cost.
    pub(super) fn load_from(&mut self, regions: &[Region<'_>], addr: u32)
        ensures { let bytes = take most_program_bytes (run_from (pieces_of regions.now) addr) in
            self.new ≡ Some (record { bytes = bytes; cost = None }) }
    {
        copy_run(regions, addr, MAX_PROGRAM_BYTES, &mut self.bytes);
        self.cost = None;
        self.is_loaded = true;
    }

    // Unloads the program.
    pub(super) fn unload(&mut self)
        ensures { self.new ≡ None }
    {
        self.is_loaded = false;
    }

    // Returns whether a program is loaded.
    pub(super) fn is_loaded(&self) -> bool
        ensures { result ≡ is_some self.now }
    {
        self.is_loaded
    }

    // Returns the bytes of the program, or no bytes if none is loaded.
    pub(super) fn bytes(&self) -> &[u8]
        ensures value { result.now ≡ bytes_of_program self.now }
        ensures limit { length result.now ≤ most_program_bytes }
    {
        if self.is_loaded { &self.bytes } else { &[] }
    }

    // Returns the cost of the program, if one with a cost is loaded.
    pub(super) fn cost(&self) -> Option<u32>
        ensures { result ≡ cost_of_program self.now }
    {
        if self.is_loaded { self.cost } else { None }
    }
}
