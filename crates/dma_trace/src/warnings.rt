//! Warnings about the loops of a program, by its text, and about a move of its destination.
#![tactic(auto, using(dma_text::proofs::Begun::begun))]

ghost use Rattle.std.specs.Prelude.{◌≡◌, ◌+◌, ◌++◌, ◌<◌, ◌≤◌, IfOk, OnOk, flat_map};
ghost use Rattle.dma_text.specs.Text.{Begins};
ghost use Rattle.dma_trace.specs.Warnings.{doubt_of, doubt_text, ends_text, further_line, late_text, loops_on, move_text, nest_after, unnested, warning_at, warning_text, warnings_of, warnings_text, with_loops};

use crate::amounts::Offset;
use dma_chan::program::MAX_PROGRAM_BYTES;
use dma_insn::chip::{ChipInsn, decode_chip};
use dma_insn::insn::Counter;
use dma_manual::manual::counter_name;
use dma_text::text::Text;
use std::alloc::{AllocError, Global};

/// What is wrong with a DMALP or DMALPEND.
#[derive(Clone, Copy)]
pub enum Doubt {
    /// The counter of the DMALP is that of a loop that is still open.
    Reused,
    /// No DMALP of its counter precedes the DMALPEND.
    Unset,
}

/// A warning about the instruction at an offset, with its counter.
#[derive(Clone, Copy)]
pub struct Warning {
    pub pc: u32,
    pub counter: Counter,
    pub doubt: Doubt,
}

/// The loops on a counter in a part of a text: how many are open, and whether one has begun.
#[derive(Clone, Copy)]
struct Loops {
    depth: u32,
    has_begun: bool,
}

/// The loops on both counters.
#[derive(Clone, Copy)]
struct Nest {
    lc0: Loops,
    lc1: Loops,
}

impl Nest {
    // Returns the loops before the first instruction.
    fn new() -> Nest
        ensures { result ≡ unnested }
    {
        let none = Loops {
            depth: 0,
            has_begun: false,
        };
        Nest {
            lc0: none,
            lc1: none,
        }
    }

    // Returns the loops on a counter.
    fn on(&self, counter: Counter) -> Loops
        ensures { result ≡ loops_on counter self.now }
    {
        match counter {
            Counter::Lc0 => self.lc0,
            Counter::Lc1 => self.lc1,
        }
    }

    // Replaces the loops on a counter.
    fn set(&mut self, counter: Counter, loops: Loops)
        ensures { self.new ≡ with_loops counter loops self.old }
    {
        match counter {
            Counter::Lc0 => self.lc0 = loops,
            Counter::Lc1 => self.lc1 = loops,
        }
    }

    // Adds an instruction of the text.
    fn add(&mut self, insn: &ChipInsn)
        requires lc0 { self.old.lc0.depth < u32.MAX }
        requires lc1 { self.old.lc1.depth < u32.MAX }
        ensures nest { self.new ≡ nest_after insn.now self.old }
        ensures lc0 { self.new.lc0.depth ≤ self.old.lc0.depth + 1 }
        ensures lc1 { self.new.lc1.depth ≤ self.old.lc1.depth + 1 }
    {
        match *insn {
            ChipInsn::Lp { counter, .. } => {
                let depth = self.on(counter).depth + 1;
                self.set(
                    counter,
                    Loops {
                        depth,
                        has_begun: true,
                    },
                );
            }
            ChipInsn::LpEnd { counter, .. } => {
                let Loops { depth, has_begun } = self.on(counter);
                let depth = depth.saturating_sub(1);
                self.set(counter, Loops { depth, has_begun });
            }
            _ => {}
        }
    }

    // Returns what is wrong with the next instruction of the text, and its counter.
    fn doubt(&self, insn: &ChipInsn) -> Option<(Counter, Doubt)>
        ensures { result ≡ doubt_of insn.now self.now }
    {
        match *insn {
            ChipInsn::Lp { counter, .. } if self.on(counter).depth > 0 => {
                Some((counter, Doubt::Reused))
            }
            ChipInsn::LpEnd { counter, .. } if !self.on(counter).has_begun => {
                Some((counter, Doubt::Unset))
            }
            _ => None,
        }
    }
}

// Returns whether the text ends at an instruction.
fn ends_text(insn: &ChipInsn) -> bool
    ensures { result ≡ ends_text insn.now }
{
    match *insn {
        ChipInsn::End => true,
        _ => false,
    }
}

// Adds the warning about the instruction at an offset, if there is one.
fn add_doubt(
    found: &mut Vec<Warning>,
    pc: u32,
    doubt: Option<(Counter, Doubt)>,
) -> Result<(), AllocError>
    ensures { OnOk result (found.new.items ≡ found.old.items ++ warning_at pc doubt) }
{
    if let Some((counter, doubt)) = doubt {
        found.push(Warning { pc, counter, doubt })?;
    }
    Ok(())
}

/// Returns the warnings about a program. Fails if memory runs out.
pub fn warnings_of(alloc: Global, program: &[u8]) -> Result<Vec<Warning>, AllocError>
    ensures { IfOk result (λ found. found.items ≡ warnings_of program.now) }
{
    let mut found = Vec::new(alloc);
    if program.len() > MAX_PROGRAM_BYTES {
        return Ok(found);
    }
    let mut nest = Nest::new();
    let mut pc = 0u32;
    let mut rest = program;
    while !rest.is_empty() {
        let Ok((insn, count)) = decode_chip(rest) else {
            return Ok(found);
        };
        if ends_text(&insn) {
            return Ok(found);
        }
        add_doubt(&mut found, pc, nest.doubt(&insn))?;
        nest.add(&insn);
        let (_, after) = rest.split_at(count);
        pc += count as u32;
        rest = after;
    }
    Ok(found)
}

/// What is wrong with an instruction that has this counter.
#[derive(Drop)]
struct Doubted {
    doubt: Doubt,
    counter: Counter,
}

impl Text for Doubted {
    ghost text = { λ doubted. doubt_text doubted.doubt doubted.counter };

    fn push(&self, out: &mut Vec<u8>) -> Result<(), AllocError> {
        let name = counter_name(self.counter);
        match self.doubt {
            Doubt::Reused => {
                (
                    "DMALP ",
                    name,
                    " sets the counter of a loop that is still open",
                )
                    .push(out)
            }
            Doubt::Unset => ("DMALPEND ", name, " has no DMALP of its counter before it").push(out),
        }
    }
}

impl Text for Warning {
    ghost text = { warning_text };

    fn push(&self, out: &mut Vec<u8>) -> Result<(), AllocError> {
        let Warning { pc, counter, doubt } = *self;
        let words = (": warning: ", Doubted { doubt, counter }, "\n");
        ("offset ", Offset(pc), words).push(out)
    }
}

// Appends a warning as a further line of a message.
#[tactic(auto, using(dma_text::proofs::Begun::begun), unfolding(crate::specs::Warnings::further_line))]
fn push_further(warning: Warning, out: &mut Vec<u8>) -> Result<(), AllocError>
    ensures ok { OnOk result (out.new.items ≡ out.old.items ++ further_line warning) }
    ensures begins { Begins out.new.items out.old.items }
{
    ("  ", warning).push(out)
}

// Appends warnings as further lines of a message.
fn push_all_further(warnings: &[Warning], out: &mut Vec<u8>) -> Result<(), AllocError>
    ensures ok { OnOk result
        (out.new.items ≡ out.old.items ++ flat_map further_line warnings.now) }
    ensures begins { Begins out.new.items out.old.items }
{
    for warning in warnings {
        push_further(*warning, out)?;
    }
    Ok(())
}

/// Appends warnings. They are further lines of a message, or else the first one begins it.
pub fn push_warnings(
    begins: bool,
    warnings: &[Warning],
    out: &mut Vec<u8>,
) -> Result<(), AllocError>
    ensures ok { OnOk result
        (out.new.items ≡ out.old.items ++ warnings_text begins warnings.now) }
    ensures begins { Begins out.new.items out.old.items }
{
    match warnings {
        [first, rest @ ..] if begins => {
            (" ", *first).push(out)?;
            push_all_further(rest, out)
        }
        _ => push_all_further(warnings, out),
    }
}

/// The first instruction that moves the destination while bytes are in the buffer, by its offset.
#[derive(Drop)]
struct LateMove(u32);

impl Text for LateMove {
    ghost text = { λ late. move_text late.0 };

    #[tactic(auto, unfolding(crate::specs::Warnings::move_text))]
    fn push(&self, out: &mut Vec<u8>) -> Result<(), AllocError> {
        (
            ("offset ", Offset(self.0)),
            ": warning: DAR changes while the buffer holds bytes: a chip drops them ",
            "if the old and the new DAR differ in their byte lanes of the bus\n",
        )
            .push(out)
    }
}

/// Appends a warning about such an instruction, if there is one, behind these other warnings.
pub fn push_late(
    warnings: &[Warning],
    late: Option<u32>,
    out: &mut Vec<u8>,
) -> Result<(), AllocError>
    ensures ok { OnOk result (out.new.items ≡ out.old.items ++ late_text warnings.now late) }
    ensures begins { Begins out.new.items out.old.items }
{
    let Some(pc) = late else {
        return Ok(());
    };
    match warnings {
        [] => (" ", LateMove(pc)).push(out),
        [..] => ("  ", LateMove(pc)).push(out),
    }
}
