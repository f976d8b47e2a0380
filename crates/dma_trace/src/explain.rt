//! Explains a program: what it copies and sets to 0, or why and where nothing explains it.
#![tactic(auto, using(dma_text::proofs::Begun::begun))]

ghost use Rattle.std.specs.Prelude.{◌≡◌, ◌<◌, ◌≤◌, ◌++◌, ℕ, OnOk, OnErr, IfOk, length};
ghost use Rattle.dma_insn.specs.AssemblyText.{most_program_bytes};
ghost use Rattle.dma_explain.specs.Explains.{GoesOn, next_in, traced};
ghost use Rattle.dma_explain.specs.inner.Tracing.{Follows};
ghost use Rattle.dma_chan.specs.Next.{next_on};
ghost use Rattle.dma_text.specs.Text.{Begins};
ghost use Rattle.dma_trace.specs.Explained.{Appends, unexplained_text};
ghost use Rattle.dma_trace.specs.Touches.{touches_in};
ghost use Rattle.dma_trace.specs.inner.Explaining.{Found};

use crate::copies::Copies;
use crate::progress::report;
use crate::touches::{Conflict, Touches};
use crate::warnings::{push_late, push_warnings, warnings_of};
use crate::words::{Front, LongProgram, Place, Point, State, Why, first_byte};
use dma_chan::exec::Registers;
use dma_chan::next::Next;
use dma_chan::turn::FaultKind;
use dma_explain::explain as runs;
use dma_explain::explain::known::Given;
use dma_explain::explain::tracer::Tracer;
use dma_explain::explain::{Cause, Explained, Unexplained};
use dma_insn::chip::ChipInsn;
use dma_io::progress::Progress;
use dma_text::text::Text;
use std::alloc::{AllocError, Global};

/// The most instructions that [`explain`] executes of a program, if no other number is given.
pub const USUAL_MOST: u32 = 10_000_000;

// Returns the next instruction of a program with these registers, or the fault of fetching it.
fn ahead(program: &[u8], registers: &Registers) -> Result<ChipInsn, FaultKind>
    requires offset { registers.now.pc ≤ length program.now }
    requires limit { length program.now ≤ most_program_bytes }
    ensures { result ≡ next_on registers.now.bus program.now registers.now.pc }
{
    Ok(Next::on(registers.bus, program, registers.pc)?.insn())
}

// Returns the run of a program that begins with these registers after `steps` instructions that go on, and which of these
// load and store an address.
fn reached<P: Progress>(
    alloc: Global,
    program: &[u8],
    start: Registers,
    steps: u32,
    addr: u32,
    progress: &mut P,
) -> Result<(Tracer, Touches), AllocError>
    requires long { length program.now ≤ most_program_bytes }
    requires goes { (k : ℕ) → k < steps → let x = traced start program.now k in
        GoesOn (next_in program.now x) x }
    ensures follows { IfOk result (λ found. Follows start program.now steps found.0) }
    ensures touches { IfOk result (λ found. found.1 ≡ touches_in start program.now addr steps) }
{
    let mut tracer = Tracer::new(alloc, Given::all(start));
    let mut touches = Touches::none();
    for done in 0..steps {
        report(progress, done);
        let registers = tracer.registers;
        let Ok(next) = Next::on(registers.bus, program, registers.pc) else {
            unreachable!()
        };
        let insn = next.insn();
        touches.add(&insn, addr, done + 1, &registers);
        if let Err(cause) = tracer.run(program, next, 1) {
            let Cause::NoMemory = cause else {
                unreachable!()
            };
            return Err(AllocError);
        }
    }
    Ok((tracer, touches))
}

// Appends why and where nothing explains a program. The registers that are printed are those of a run from `start`.
fn print_cause<P: Progress>(
    alloc: Global,
    program: &[u8],
    start: Registers,
    found: Unexplained,
    err: &mut Vec<u8>,
    progress: &mut P,
) -> Result<(), AllocError>
    requires long { length program.now ≤ most_program_bytes }
    requires goes { (k : ℕ) → k < found.steps → let x = traced start program.now k in
        GoesOn (next_in program.now x) x }
    ensures ok { OnOk result
        (err.new.items ≡ err.old.items ++ unexplained_text start program.now found) }
    ensures begins { Begins err.new.items err.old.items }
{
    let (tracer, touches) = reached(alloc, program, start, found.steps, found.addr, progress)?;
    let registers = tracer.registers;
    let first = first_byte(program, registers.pc);
    let at = Point {
        ahead: ahead(program, &registers),
        steps: found.steps,
        front: Front {
            registers,
            held: tracer.held,
        },
    };
    let place = Place { first, at: &at };
    let why = Why {
        cause: found.cause,
        first,
        at: &at,
    };
    let conflict = Conflict {
        cause: found.cause,
        addr: found.addr,
        touches: &touches,
    };
    let state = State {
        front: &at.front,
        stored: found.stored,
    };
    (place, (why, conflict), state).push(err)
}

/// Returns what a program copies, or appends to `err` why and where nothing explains it. May have appended a part if
/// memory runs out.
#[tactic(auto, using(crate::proofs::Reached::refused_goes))]
pub(crate) fn find<P: Progress>(
    alloc: Global,
    program: &[u8],
    given: Given,
    most: u32,
    err: &mut Vec<u8>,
    progress: &mut P,
) -> Result<Option<Explained>, AllocError>
    ensures ok { IfOk result (λ found. Found given program.now most found
        err.old.items err.new.items) }
    ensures begins { Begins err.new.items err.old.items }
{
    let start = given.registers;
    match runs::explain_from(alloc, given, program, most) {
        Ok(explained) => Ok(Some(explained)),
        Err(found) => {
            match found.cause {
                Cause::NoMemory => return Err(AllocError),
                Cause::TooLong => LongProgram.push(err)?,
                _ => print_cause(alloc, program, start, found, err, progress)?,
            }
            Ok(None)
        }
    }
}

// Appends what a program copies, or why nothing explains it, and warnings about the program. Returns whether it is
// explained. May have appended a part if memory runs out.
fn explain_all<P: Progress>(
    alloc: Global,
    program: &[u8],
    given: Given,
    most: u32,
    out: &mut Vec<u8>,
    err: &mut Vec<u8>,
    progress: &mut P,
) -> Result<bool, AllocError>
    ensures ok { IfOk result (λ copies. Appends given program.now most copies
        out.old.items err.old.items out.new.items err.new.items) }
    ensures begins { Begins out.new.items out.old.items }
    ensures begins_err { Begins err.new.items err.old.items }
{
    let warnings = warnings_of(alloc, program)?;
    match find(alloc, program, given, most, err, progress)? {
        Some(explained) => {
            Copies {
                given: &given,
                explained: &explained,
            }
            .push(out)?;
            push_warnings(true, &warnings, err)?;
            push_late(&warnings, explained.late, err)?;
            Ok(true)
        }
        None => {
            push_warnings(false, &warnings, err)?;
            Ok(false)
        }
    }
}

/// Explains a program that begins with these registers, executing at most `most` instructions: appends to `out` what it
/// copies and sets to 0 for every memory and for every value of the registers that aren't known, and returns whether it
/// is explained. If it isn't, appends to `err` why and where. Appends warnings about its loops to `err`, and for a
/// program that is explained about its first DMAMOV, DMAADDH or DMAADNH that moves the destination while bytes are in
/// the buffer.
///
/// If memory runs out, it fails and appends nothing.
pub fn explain<P: Progress>(
    alloc: Global,
    program: &[u8],
    given: Given,
    most: u32,
    out: &mut Vec<u8>,
    err: &mut Vec<u8>,
    progress: &mut P,
) -> Result<bool, AllocError>
    ensures ok { IfOk result (λ copies. Appends given program.now most copies
        out.old.items err.old.items out.new.items err.new.items) }
    ensures out { OnErr result (out.new.items ≡ out.old.items) }
    ensures err { OnErr result (err.new.items ≡ err.old.items) }
{
    let (out_len, err_len) = (out.len(), err.len());
    let result = explain_all(alloc, program, given, most, out, err, progress);
    if result.is_err() {
        out.truncate(out_len);
        err.truncate(err_len);
    }
    result
}
