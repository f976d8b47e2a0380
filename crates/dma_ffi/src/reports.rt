//! The structs that C sees, and the functions that fill them.

ghost use Rattle.std.specs.Prelude.{◌≡◌};
ghost use Rattle.dma_ffi.specs.Codes.{answer_code};
ghost use Rattle.dma_ffi.specs.Reports.{conflict_of, did, end_of, ended, outcome_of, report_of};

use crate::codes::{
    FINISHED, HALTED, HELD, MOVED, NO_STEP, NOTHING, PAUSED, STARTED, WAITING, done,
    number_of_kind, number_of_result,
};
use crate::steps::StepsTaken;
use dma_chan::run::RunEnd;
use dma_engine::{EngineFault, Outcome, Turn};

// The program hasn't ended after as many instructions as were allowed.
const END_OUT_OF_STEPS: u32 = 0;
// It ended by DMAEND.
const END_ENDED: u32 = 1;
// It waits for an event.
const END_WAITING: u32 = 2;
// An instruction failed.
const END_FAULT: u32 = 3;

/// How a cookie finished.
#[repr(C)]
#[derive(Clone, Copy)]
pub struct DmaOutcome {
    /// The result's number.
    pub result: u32,
    /// The number of its bytes that were not stored.
    pub residue: u32,
}

/// The transfer that a call conflicts with.
#[repr(C)]
#[derive(Clone, Copy)]
pub struct DmaConflict {
    /// Its channel.
    pub channel: u32,
    /// Its cookie.
    pub cookie: u32,
}

/// The number of steps that were taken, and what the last one did.
#[repr(C)]
#[derive(Clone, Copy)]
pub struct DmaReport {
    /// The number of steps that were taken, including the last one.
    pub taken: u32,
    /// The number of what the last one did, `NO_STEP` if none was taken. Each field below is 0 except for what it
    /// names.
    pub last: u32,
    /// The channel of the conflicting transfer, for `HELD`.
    pub channel: u32,
    /// The cookie, for `STARTED`, `HELD` and `FINISHED`.
    pub cookie: u32,
    /// The event, for `WAITING`.
    pub event: u32,
    /// The number of how it finished, for `FINISHED`.
    pub result: u32,
    /// The number of its bytes that were not stored, for `FINISHED`.
    pub residue: u32,
}

/// How a program that was run alone ended.
#[repr(C)]
#[derive(Clone, Copy)]
pub struct DmaRunEnd {
    /// The number of how it ended. Each field below is 0 except for the ends that it names.
    pub end: u32,
    /// The number of executed instructions, including DMAEND, for `END_ENDED`.
    pub steps: u32,
    /// The event, for `END_WAITING`.
    pub event: u32,
    /// The number of the fault, for `END_FAULT`.
    pub fault: u32,
    /// The offset of the instruction, for `END_FAULT`.
    pub pc: u32,
}

/// Returns how a cookie finished.
pub fn outcome_of(outcome: Outcome) -> DmaOutcome
    ensures { result ≡ outcome_of outcome }
{
    DmaOutcome {
        result: number_of_result(outcome.result),
        residue: outcome.residue,
    }
}

/// Returns the code of an answer without a value, and writes the transfer that a `Busy` or `Running` refusal names.
pub fn done_unless(answer: Result<(), EngineFault>, conflict: &mut DmaConflict) -> i32
    ensures code { result ≡ answer_code answer }
    ensures conflict { conflict.new ≡ conflict_of answer conflict.old }
{
    if let Err(EngineFault::Busy { ch, cookie } | EngineFault::Running { ch, cookie }) = answer {
        *conflict = DmaConflict {
            channel: u32::from(ch),
            cookie,
        };
    }
    done(answer)
}

// Returns the report of `taken` steps, the last of which did this, with 0 in all other fields.
fn did(taken: u32, last: u32) -> DmaReport
    ensures { result ≡ did taken last }
{
    DmaReport {
        taken,
        last,
        channel: 0,
        cookie: 0,
        event: 0,
        result: 0,
        residue: 0,
    }
}

/// Returns the report of steps.
pub fn report_of(steps: StepsTaken) -> DmaReport
    ensures { result ≡ report_of steps.count steps.last }
{
    let taken = steps.count;
    match steps.last {
        None => did(taken, NO_STEP),
        Some(Turn::Started(cookie)) => DmaReport {
            cookie,
            ..did(taken, STARTED)
        },
        Some(Turn::Moved) => did(taken, MOVED),
        Some(Turn::Nothing) => did(taken, NOTHING),
        Some(Turn::Held { ch, cookie }) => DmaReport {
            channel: u32::from(ch),
            cookie,
            ..did(taken, HELD)
        },
        Some(Turn::Waiting(event)) => DmaReport {
            event: u32::from(event),
            ..did(taken, WAITING)
        },
        Some(Turn::Paused) => did(taken, PAUSED),
        Some(Turn::Halted) => did(taken, HALTED),
        Some(
            Turn::Finished {
                cookie,
                result: how,
                residue,
            },
        ) => DmaReport {
            cookie,
            result: number_of_result(how),
            residue,
            ..did(taken, FINISHED)
        },
    }
}

// Returns an end with this number and 0 in all other fields.
fn ended(end: u32) -> DmaRunEnd
    ensures { result ≡ ended end }
{
    DmaRunEnd {
        end,
        steps: 0,
        event: 0,
        fault: 0,
        pc: 0,
    }
}

/// Returns how a program ended.
pub fn end_of(how: RunEnd) -> DmaRunEnd
    ensures { result ≡ end_of how }
{
    match how {
        RunEnd::Ended { turns: steps } => DmaRunEnd {
            steps,
            ..ended(END_ENDED)
        },
        RunEnd::OutOfTurns => ended(END_OUT_OF_STEPS),
        RunEnd::Waiting(event) => DmaRunEnd {
            event: u32::from(event.number()),
            ..ended(END_WAITING)
        },
        RunEnd::Fault { kind, pc } => DmaRunEnd {
            fault: number_of_kind(kind),
            pc,
            ..ended(END_FAULT)
        },
    }
}
