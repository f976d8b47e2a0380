//! Selects a command by its word and runs it over a reader and a writer.
ghost use Rattle.std.specs.Prelude.{◌≡◌, ◌≤◌, ◌+◌, None, IfSome};
ghost use Rattle.dma_io.specs.Command.{Ends, failures, longest_input};
ghost use Rattle.dmasim.specs.CommandLine.{WordEnds, subcommand_may_print, subcommand_of};

use crate::race::race_script;
use dma_commands::asm::asm_main;
use dma_commands::dis::dis_main;
use dma_commands::plan::plan_main;
use dma_commands::run::run_script;
use dma_io::command::finish;
use dma_io::input::Source;
use dma_io::output::Sink;
use std::alloc::Global;
use std::sync::Wait;
use std::thread::Threads;

/// The exit status if no command is named.
pub const WRONG_ARGUMENTS: u8 = 2;

/// A command.
#[derive(Clone, Copy, PartialEq, Eq)]
pub enum Subcommand {
    /// `asm`
    Asm,
    /// `dis`
    Dis,
    /// `plan`
    Plan,
    /// `run`
    Run,
    /// `race`
    Race,
}

/// Returns the command that a word names, if any.
fn subcommand_of(word: &str) -> Option<Subcommand>
    ensures { result ≡ subcommand_of word.now }
{
    match word {
        "asm" => Some(Subcommand::Asm),
        "dis" => Some(Subcommand::Dis),
        "plan" => Some(Subcommand::Plan),
        "run" => Some(Subcommand::Run),
        "race" => Some(Subcommand::Race),
        _ => None,
    }
}

/// Runs a command and returns its exit status.
fn serve_subcommand<R: Threads + Wait + Sync, I: Source, W: Sink>(
    rt: &R,
    alloc: Global,
    subcommand: Subcommand,
    reader: &mut I,
    writer: &mut W,
) -> u8
    ensures ends { IfSome (I.remaining reader.old) (λ input. Ends
        (failures I.has_failed reader.old reader.new) (failures W.has_failed writer.old writer.new)
        (subcommand_may_print subcommand input)
        (W.contents writer.old) (W.contents writer.new) result) }
    ensures reads { I.reads reader.new ≤ I.reads reader.old + (longest_input + 1) }
{
    match subcommand {
        Subcommand::Asm => asm_main(alloc, reader, writer),
        Subcommand::Dis => dis_main(alloc, reader, writer),
        Subcommand::Plan => plan_main(alloc, reader, writer),
        Subcommand::Run => run_script(alloc, reader, writer),
        Subcommand::Race => race_script(rt, alloc, reader, writer),
    }
}

/// Runs the command that a word names, and returns its exit status. For any other word it reads nothing, prints the
/// usage, and returns 2, or 1 if the writer fails.
pub fn serve_word<R: Threads + Wait + Sync, I: Source, W: Sink>(
    rt: &R,
    alloc: Global,
    word: &str,
    reader: &mut I,
    writer: &mut W,
) -> u8
    ensures ends { WordEnds (subcommand_of word.now) (I.remaining reader.old)
        (failures I.has_failed reader.old reader.new) (failures W.has_failed writer.old writer.new)
        (W.contents writer.old) (W.contents writer.new) result }
    ensures unread { subcommand_of word.now ≡ None → reader.new ≡ reader.old }
    ensures reads { I.reads reader.new ≤ I.reads reader.old + (longest_input + 1) }
{
    match subcommand_of(word) {
        Some(subcommand) => serve_subcommand(rt, alloc, subcommand, reader, writer),
        None => finish(
            writer,
            b"usage: dmasim asm|dis|plan|run|race\n",
            WRONG_ARGUMENTS,
        ),
    }
}
