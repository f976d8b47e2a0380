//! A race whose turns are taken in the order that a seed determines, as a script of `run`.

ghost use Rattle.std.specs.Prelude.{◌≡◌, ◌≤◌, ◌++◌, IfOk, OnOk, length};
ghost use Rattle.dma_script.specs.Words.{words_of};
ghost use Rattle.dma_seeds.specs.Script.{text_for, text_with, turns_text};
ghost use Rattle.dma_seeds.specs.Turns.{turns_of_seed};

use crate::turns::Turns;
use dma_io::printing::print_line;
use dma_script::race::JobLine;
use dma_script::words::{next_word, split_script_line};
use dma_text::bytes::is_text;
use std::alloc::{AllocError, Global};

/// Returns the lines of turns, a `step` for each. Fails if memory runs out.
#[tactic(auto, using(crate::proofs::ScriptLemmas::turn_more))]
fn text_of_turns(alloc: Global, turns: Turns) -> Result<Vec<u8>, AllocError>
    ensures { IfOk result (λ text. text.items ≡ turns_text turns) }
{
    let mut turns = turns;
    let mut text = Vec::new(alloc);
    while let Some(turn) = turns.next() {
        print_line(&mut text, &("step ", turn.channel))?;
    }
    Ok(text)
}

/// Appends what replaces a line of a race script: nothing for a skipped line or a job, the text of the turns for
/// `go`, or else the line.
fn push_line(line: &[u8], turns: &[u8], out: &mut Vec<u8>) -> Result<(), AllocError>
    ensures { OnOk result
        (out.new.items ≡ out.old.items ++ text_for turns.now line.now (words_of line.now)) }
{
    match next_word(line) {
        None => Ok(()),
        Some((word, _)) if word.first() == Some(&b'#') || is_text(word, b"job") => Ok(()),
        Some((word, _)) if is_text(word, b"go") => out.extend_from_slice(turns),
        Some(_) => print_line(out, &line),
    }
}

/// Appends a race script with the text of its turns in place of `go`, and without its jobs.
fn push_lines(script: &[u8], turns: &[u8], out: &mut Vec<u8>) -> Result<(), AllocError>
    ensures { OnOk result (out.new.items ≡ out.old.items ++ text_with turns.now script.now) }
{
    let mut rest = script;
    while !rest.is_empty() {
        let (line, after) = split_script_line(rest);
        push_line(line, turns, out)?;
        rest = after;
    }
    Ok(())
}

/// Returns a race script without `expect` lines as a script of `run`, whose `step` lines are the turns of its jobs, in
/// the order that a seed determines. Skipped lines are left out. Fails if memory runs out.
pub(crate) fn script_of_jobs(
    alloc: Global,
    script: &[u8],
    jobs: &[JobLine],
    seed: u64,
) -> Result<Vec<u8>, AllocError>
    requires { length jobs.now ≤ 16 }
    ensures { IfOk result (λ text.
        text.items ≡ text_with (turns_text (turns_of_seed jobs.now seed)) script.now) }
{
    let turns = Turns::of_seed(alloc, jobs, seed)?;
    let turns = text_of_turns(alloc, turns)?;
    let mut text = Vec::new(alloc);
    push_lines(script, &turns, &mut text)?;
    Ok(text)
}
