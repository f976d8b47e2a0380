//! The command `race`: executes the lines before `go` on a desk, then puts it on a shift that takes the turns of all
//! jobs at once, and executes the lines after `go` on the resulting engine.
ghost use Rattle.std.specs.Prelude.{◌≡◌, ◌≤◌, ◌+◌, OnErr, IfOk, IfSome};
ghost use Rattle.std.specs.List.{All};
ghost use Rattle.dma_engine.specs.View.{new_view};
ghost use Rattle.dma_io.specs.Command.{Ends, MayAnswer, failures, longest_input, may_print_within};
ghost use Rattle.dma_script.specs.Race.{IsEarly, IsJob, IsRace};
ghost use Rattle.dma_script.specs.Statements.{IsWithin};
ghost use Rattle.dma_work.specs.Desk.{Names};
ghost use Rattle.dma_commands.specs.Raced.{RacePrints, race_may_print};
ghost use Rattle.dmasim.specs.inner.RaceSteps.{AreJobs, PrintsFirst, PrintsGo, PrintsTotals};

mod early;

use crate::race::early::run_early_statements;
use dma_commands::run::{new_engine, run_statements};
use dma_engine::Engine;
use dma_io::command::{Command, refuse, serve};
use dma_io::input::Source;
use dma_io::output::Sink;
use dma_io::printing::print_line;
use dma_script::race::{JobLine, MAX_JOBS, RaceScript, read_race_script};
use dma_script::statements::{RunScript, Statements};
use dma_work::{Desk, DeskName, Job, Parts, Rota, ShareFaultKind, Shift, StatusReader, run_shift};
use std::alloc::{AllocError, Global};
use std::marker::Brand;
use std::sync::Wait;
use std::thread::Threads;

/// Returns the jobs of the job lines. Fails if memory runs out.
fn jobs_of(alloc: Global, lines: &[JobLine]) -> Result<Vec<Job>, AllocError>
    requires { All IsJob lines.now }
    ensures { IfOk result (λ jobs. AreJobs lines.now jobs.items) }
{
    let mut jobs = Vec::with_capacity(alloc, MAX_JOBS)?;
    for line in lines {
        match Job::new(line.first, line.last, u64::from(line.turns)) {
            Some(job) => jobs.push(job)?,
            None => unreachable!(),
        }
    }
    Ok(jobs)
}

/// Returns the rota of the jobs of the job lines. Fails if memory runs out.
fn rota_of(alloc: Global, lines: &[JobLine]) -> Result<Rota, AllocError>
    requires { All IsJob lines.now }
    ensures { IfOk result (λ rota. AreJobs lines.now rota) }
{
    let jobs = jobs_of(alloc, lines)?;
    match Rota::new(alloc, &jobs) {
        Ok(rota) => Ok(rota),
        Err(_) => Err(AllocError),
    }
}

/// Puts a desk on a shift of the rota's jobs, and appends the line of `go`. Returns the engine. If memory runs out,
/// also in a turn, it fails and appends nothing.
fn go<M: DeskName, N: DeskName + Send + Sync, R: Threads + Wait + Sync>(
    rt: &R,
    desk: Desk<M>,
    rota: Rota,
    out: &mut Vec<u8>,
) -> Result<Engine, AllocError>
    requires names { Names N.opening N.base N.log
        (record { engine = desk.engine; base = M.base; log = M.log }) }
    requires jobs { N.jobs ≡ rota }
    ensures ok { IfOk result (λ engine. PrintsTotals desk.engine.view rota engine.view
        out.old.items out.new.items) }
    ensures err { OnErr result (out.new.items ≡ out.old.items) }
{
    let shift = Shift::<N>::new(desk, rota);
    let desk = match run_shift(rt, shift) {
        Ok(desk) => desk,
        Err(_) => return Err(AllocError),
    };
    let totals = desk.book();
    let engine = desk.close(rt);
    print_line(
        out,
        &("go steps ", totals.steps, " finished ", totals.finished),
    )?;
    Ok(engine)
}

/// Executes a script up to and including its `go`. The lines before `go` run on the desk before its shift. Returns the
/// engine. Fails if memory runs out.
fn raced<M: DeskName, R: Threads + Wait + Sync>(
    rt: &R,
    parts: Parts,
    reader: StatusReader,
    lines: Statements,
    rota: Rota,
    out: &mut Vec<u8>,
) -> Result<Engine, AllocError>
    requires names { Names M.opening M.base M.log parts }
    requires follows { (M.log ≡ reader.log) × (M.base ≡ reader.base) }
    requires early { All IsEarly lines }
    ensures ok { IfOk result (λ engine. PrintsGo parts.engine.view lines rota engine.view
        out.old.items out.new.items) }
    ensures err { OnErr result (PrintsFirst parts.engine.view lines out.old.items out.new.items) }
{
    let (desk, early) = run_early_statements(rt, Desk::<M>::new(parts), reader, lines, out);
    if let Err(error) = early {
        desk.close(rt);
        return Err(error);
    }
    go::<M, Brand, R>(rt, desk, rota, out)
}

/// Returns the parts of a desk over a new engine as the memory line describes it, and its reader, or `None` if the desk
/// has no place for a reader. Fails if memory runs out.
fn parts_of<R: Wait>(
    rt: &R,
    alloc: Global,
    script: &RunScript,
) -> Result<Option<(Parts, StatusReader)>, AllocError>
    requires { IsWithin script.now }
    ensures { IfOk result (λ made. IfSome made
        (λ p. (p.0.engine.view ≡ new_view script.now.size script.now.channels)
        × (p.0.log ≡ p.1.log) × (p.0.base ≡ p.1.base))) }
{
    let engine = new_engine(alloc, script)?;
    match Parts::new(rt, alloc, engine, 1) {
        Ok((parts, mut readers)) => {
            let Some(reader) = readers.pop() else {
                unreachable!();
            };
            Ok(Some((parts, reader)))
        }
        Err(refused) => match refused.fault {
            ShareFaultKind::NoReader => Ok(None),
            ShareFaultKind::NoMemory => Err(AllocError),
            ShareFaultKind::BadReaders => unreachable!(),
        },
    }
}

/// Executes a script and returns the status. Fails if memory runs out.
fn run_race<R: Threads + Wait + Sync>(
    rt: &R,
    alloc: Global,
    script: RaceScript,
    out: &mut Vec<u8>,
) -> Result<u8, AllocError>
    requires { IsRace script }
    ensures { MayAnswer (RacePrints script) result out.old.items out.new.items }
{
    let rota = rota_of(alloc, script.jobs.as_slice())?;
    let Some((parts, reader)) = parts_of(rt, alloc, &script.before)? else {
        return refuse(out, &"refused NoReader");
    };
    let RaceScript { before, after, .. } = script;
    let lines = before.statements;
    let engine = raced::<Brand, _>(rt, parts, reader, lines, rota, out)?;
    run_statements(alloc, engine, after, out)
}

/// The command `race`, with the handle for its threads.
#[derive(Drop)]
struct Race<'a, R: Threads + Wait + Sync> {
    rt: &'a R,
}

impl<R: Threads + Wait + Sync> Command for Race<'_, R> {
    ghost use Rattle.std.specs.Prelude.{◌<◌, [], Ok, Err, codes, length, refl};
    ghost use Rattle.std.specs.Thread.{IsSync};
    ghost use Rattle.std.proofs.Math.Nat.{zero-lt-suc};
    ghost use Rattle.dma_io.specs.Command.{Printed, refusal};
    ghost use Rattle.dma_script.specs.Printing.{fault_line};
    ghost use Rattle.dma_script.specs.Race.{race_script_of};
    ghost use Rattle.dma_commands.specs.Raced.{no_reader, race_may_print, race_prints_of, raced_refused};

    ghost may_print = { race_may_print };

    ghost is_ready = { λ race. IsSync R.row };

    fn answer(&self, alloc: Global, input: &[u8], out: &mut Vec<u8>) -> Result<u8, AllocError> {
        match read_race_script(alloc, input) {
            Ok(script) => run_race(self.rt, alloc, script, out),
            Err(error) => refuse(out, &error),
        }
    }

    ghost some_print = { λ input.
        elim (race_script_of input) as (λ read. (printed : Printed) × race_prints_of read printed × (0 < length printed.groups)) [
          | Ok script ↦ (raced_refused (codes "NoReader"), no_reader refl, zero-lt-suc _)
          | Err fault ↦ (refusal (fault_line fault), refl, zero-lt-suc _)
        ] };
}

/// Reads a race script, executes it, writes what it prints and nothing else, and returns the exit status: 0 on
/// success, 1 for a fault of the script, a failing stream or no place for a reader, 3 if out of memory.
pub fn race_script<R: Threads + Wait + Sync, I: Source, W: Sink>(
    rt: &R,
    alloc: Global,
    reader: &mut I,
    writer: &mut W,
) -> u8
    ensures ends { IfSome (I.remaining reader.old) (λ input. Ends
        (failures I.has_failed reader.old reader.new) (failures W.has_failed writer.old writer.new)
        (may_print_within race_may_print input) (W.contents writer.old) (W.contents writer.new) result) }
    ensures reads { I.reads reader.new ≤ I.reads reader.old + (longest_input + 1) }
{
    serve(&Race { rt }, alloc, reader, writer)
}
