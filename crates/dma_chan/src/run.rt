//! Runs a program alone.

ghost use Rattle.std.specs.Prelude.{◌≡◌, ◌≤◌, [], length, nat_lt, if◌then◌else◌, IfOk, IfErr, OnOk};
ghost use Rattle.dma_insn.specs.AssemblyText.{most_program_bytes};
ghost use Rattle.dma_chan.specs.Run.{RunsOver, gap_marks};
ghost use Rattle.dma_chan.specs.Fails.{RunFails};
ghost use Rattle.dma_chan.specs.RunPages.{KeepsPages, MakesForStores};

use crate::channel::Channel;
use crate::program::{Program, ProgramFault};
use crate::turn::{ChanTurn, FaultKind};
use dma_insn::insn::Event;
use dma_mem::events::Events;
use dma_mem::marks::Marks;
use dma_mem::ram::Ram;
use std::alloc::Global;
use thiserror::Error;

/// How a program that was run alone ended.
#[derive(Clone, Copy, PartialEq, Eq)]
pub enum RunEnd {
    /// It executed DMAEND. `turns` is the number of instructions, including DMAEND.
    Ended { turns: u32 },
    /// It executed as many instructions as the limit, and none was DMAEND.
    OutOfTurns,
    /// It waits for this event, whose flag was clear.
    Waiting(Event),
    /// The instruction at this offset failed.
    Fault { kind: FaultKind, pc: u32 },
}

/// Why a program wasn't run to its end.
#[derive(Clone, Copy, Debug, PartialEq, Eq, Error)]
pub enum RunFault {
    #[error("the program has more than {} bytes", crate::program::MAX_PROGRAM_BYTES)]
    ProgramTooLong,
    /// A page that a store writes could not be allocated. `turns` instructions were executed before that store, and
    /// what they stored stays in memory.
    #[error("out of memory for a page, after {turns} instructions")]
    PageRefused { turns: u32 },
    /// An allocation failed before any instruction was executed.
    #[error("out of memory")]
    NoMemory,
}

// Returns the program of these bytes.
fn program_of(alloc: Global, bytes: &[u8]) -> Result<Program, RunFault>
    ensures ok { IfOk result (λ program. program.bytes ≡ bytes.now) }
    ensures fits { OnOk result (length bytes.now ≤ most_program_bytes) }
    ensures err { IfErr result (λ fault. fault ≡ (if nat_lt most_program_bytes (length bytes.now)
        then RunFault.ProgramTooLong else RunFault.NoMemory)) }
{
    match Program::from_bytes(alloc, bytes) {
        Ok(program) => Ok(program),
        Err(ProgramFault::ProgramTooLong) => Err(RunFault::ProgramTooLong),
        Err(ProgramFault::NoMemory) => Err(RunFault::NoMemory),
    }
}

// Runs a program on a channel, with no marks except the memory's gaps and with all flags clear.
fn run_on<M: Ram>(
    channel: &mut Channel,
    program: Program,
    marks: &Marks,
    memory: &mut M,
    limit: u32,
) -> Result<RunEnd, RunFault>
    requires limit { length program.bytes ≤ most_program_bytes }
    requires none { marks.now ≡ [] }
    ensures ok { IfOk result (λ how. RunsOver (gap_marks (M.loan memory.old)) program.bytes
        (M.paged memory.old).image limit how (M.paged memory.new).image) }
    ensures err { IfErr result (λ fault. RunFails (gap_marks (M.loan memory.old)) program.bytes
        (M.paged memory.old) limit fault (M.paged memory.new)) }
    ensures pages { KeepsPages (M.paged memory.old) (M.paged memory.new) }
    ensures others { MakesForStores (gap_marks (M.loan memory.old)) program.bytes limit result
        (M.paged memory.old) (M.paged memory.new) }
    ensures loan { M.loan memory.new ≡ M.loan memory.old }
{
    channel.load(program);
    let mut events = Events::new();
    // A page that is known to be made. Most stores lie on the page of the store before, and then the memory isn't
    // asked.
    let mut known = None;
    for turn in 0..limit {
        let pc = channel.pc();
        let next = match channel.next() {
            Ok(next) => next,
            Err(kind) => return Ok(RunEnd::Fault { kind, pc }),
        };
        known = match channel.prepare(next, memory, known) {
            Ok(page) => page,
            Err(_) => return Err(RunFault::PageRefused { turns: turn }),
        };
        match channel.execute(next, memory, &mut events, marks) {
            ChanTurn::Moved => {}
            ChanTurn::Waiting(event) => return Ok(RunEnd::Waiting(event)),
            ChanTurn::Ended => return Ok(RunEnd::Ended { turns: turn + 1 }),
            ChanTurn::Fault(kind) => return Ok(RunEnd::Fault { kind, pc }),
        }
    }
    Ok(RunEnd::OutOfTurns)
}

/// Runs the bytes alone on a channel of their own, with no marks except the gaps of the memory and with all flags
/// clear, for at most `limit` instructions. The pages that a store writes are made just before it is executed, and no
/// others. They stay made.
///
/// The error is `ProgramTooLong` above [`MAX_PROGRAM_BYTES`](crate::program::MAX_PROGRAM_BYTES), or `NoMemory`; then
/// nothing has run. Or it is `PageRefused`; then memory contains the stores of all instructions before the one whose
/// page could not be allocated.
pub fn run_program<M: Ram>(
    alloc: Global,
    bytes: &[u8],
    memory: &mut M,
    limit: u32,
) -> Result<RunEnd, RunFault>
    ensures ok { IfOk result (λ how. RunsOver (gap_marks (M.loan memory.old)) bytes.now
        (M.paged memory.old).image limit how (M.paged memory.new).image) }
    ensures fits { OnOk result (length bytes.now ≤ most_program_bytes) }
    ensures err { IfErr result (λ fault. RunFails (gap_marks (M.loan memory.old)) bytes.now
        (M.paged memory.old) limit fault (M.paged memory.new)) }
    ensures pages { KeepsPages (M.paged memory.old) (M.paged memory.new) }
    ensures others { MakesForStores (gap_marks (M.loan memory.old)) bytes.now limit result
        (M.paged memory.old) (M.paged memory.new) }
    ensures loan { M.loan memory.new ≡ M.loan memory.old }
{
    let program = program_of(alloc, bytes)?;
    let Ok(mut channel) = Channel::new(alloc) else {
        return Err(RunFault::NoMemory);
    };
    run_on(&mut channel, program, &Marks::new(alloc), memory, limit)
}
