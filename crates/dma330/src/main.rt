//! The program `dma330`: a workbench for channel programs.
//!
//! Proved: the answer to a request is a function of its input (`answer`), also if that is hexadecimal text
//! (`read_hexadecimal` of `dma_manual`); unless a write fails, what standard output and standard error get, and the
//! status, are those of the answer (`deliver` of `dma_io`). Not proved: `main`, which reads the command line and
//! the files, writes the file that an option names, and shows progress.
#![tactic(auto)]

mod command_line;
mod files;
mod meter;
mod replies;
mod subcommands;
mod values;

use clap::error::ErrorKind;
use command_line::call_of;
use files::{Failure, run};
use std::env;
use std::process::ExitCode;

/// Returns the words of the command line.
fn words_of(rt: &HostRuntime) -> Result<Vec<String>, Failure<'static>> {
    match env::args(rt) {
        Ok(args) => Ok(args.collect(rt.alloc())?),
        Err(error) => Err(Failure::of("the command line", error)),
    }
}

/// Runs the command line, and exits with its status.
fn main(rt: HostRuntime) -> ExitCode {
    let words = match words_of(&rt) {
        Ok(words) => words,
        Err(failure) => return ExitCode::from(failure.report(&rt)),
    };
    let call = match call_of(rt.alloc(), &words) {
        Ok(call) => call,
        Err(error) if error.kind() == ErrorKind::OutOfMemory => {
            return ExitCode::from(Failure::NoMemory.report(&rt));
        }
        Err(error) => {
            // (a mistake in the words, or a request for help, has its status even if its text can't be written)
            let _ = error.print(&rt);
            return ExitCode::from(error.exit_code() as u8);
        }
    };
    ExitCode::from(match run(&rt, &call) {
        Ok(status) => status,
        Err(failure) => failure.report(&rt),
    })
}
