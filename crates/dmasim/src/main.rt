//! The program `dmasim`: `race`, the threads, and the command line.
//!
//! Proved: each word is its command, any other word prints the usage (`serve_word`); what `race` prints may be printed
//! for its input (`race_script`). Not proved: `main`, which parses the command line.
#![tactic(auto)]

mod command_line;
mod race;
#[cfg(test)]
mod races;

use clap::error::ErrorKind;
use clap::{Command, Error};
use command_line::serve_word;
use dma_io::command::OUT_OF_MEMORY;
use std::alloc::Global;
use std::process::ExitCode;
use std::{env, io};

/// Returns the subcommand that the words of the command line name, if any.
fn subcommand<'a>(alloc: Global, words: &'a [String]) -> Result<Option<&'a str>, Error> {
    let mut command = Command::new(alloc, "dmasim")
        .disable_help_subcommand(true)
        .subcommand_required(true);
    for name in ["asm", "dis", "plan", "run", "race"] {
        command = command.subcommand(Command::new(alloc, name))?;
    }
    let matches = command.try_get_matches_from(words)?;
    Ok(matches.subcommand_name())
}

/// Returns the words of the command line, or no words if one of them isn't valid text. Returns `None` if out of
/// memory.
fn words_of(rt: &HostRuntime) -> Option<Vec<String>> {
    match env::args(rt) {
        Ok(args) => args.collect(rt.alloc()).ok(),
        Err(error) if error.kind() == io::ErrorKind::OutOfMemory => None,
        Err(_) => Some(Vec::new(rt.alloc())),
    }
}

/// Runs the command line over standard input and output, and exits with its status.
fn main(rt: HostRuntime) -> ExitCode {
    let Some(words) = words_of(&rt) else {
        return ExitCode::from(OUT_OF_MEMORY);
    };
    let word = match subcommand(rt.alloc(), &words) {
        Ok(Some(word)) => word,
        Err(error) if error.kind() == ErrorKind::OutOfMemory => {
            return ExitCode::from(OUT_OF_MEMORY);
        }
        // no command has this name
        Ok(None) | Err(_) => "",
    };
    let mut reader = rt.stdin();
    let mut writer = rt.stdout();
    let status = serve_word(&rt, rt.alloc(), word, &mut reader, &mut writer);
    ExitCode::from(status)
}
