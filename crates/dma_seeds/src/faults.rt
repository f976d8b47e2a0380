//! Messages for the first fault of a script: the number of its line, the cause, and the line.
#![tactic(auto, using(dma_text::proofs::Begun::begun))]

ghost use Rattle.std.specs.Prelude.{◌≡◌, ◌++◌, IfOk, OnOk, map};
ghost use Rattle.dma_text.specs.Text.{Begins};
ghost use Rattle.dma_io.specs.Answer.{prints_of};
ghost use Rattle.dma_seeds.specs.Faults.{fault_text, line_at, missing_message, refused, shown_byte, shown_line};

use dma_io::answer::Answer;
use dma_io::printing::print_line;
use dma_script::fault::{Cause, Fault};
use dma_script::words::split_script_line;
use dma_text::text::Text;
use std::alloc::{AllocError, Global};

/// The most bytes of a line that are shown.
const MOST_SHOWN: usize = 60;

/// Returns the byte that is shown for a byte of a line.
fn shown_byte(byte: u8) -> u8
    ensures { result ≡ shown_byte byte }
{
    match byte {
        b' '..=b'~' => byte,
        b'\t' => b' ',
        _ => b'?',
    }
}

/// Appends the bytes that are shown for bytes of a line. Fails if memory runs out.
fn push_shown(bytes: &[u8], out: &mut Vec<u8>) -> Result<(), AllocError>
    ensures ok { OnOk result (out.new.items ≡ out.old.items ++ map shown_byte bytes.now) }
    ensures begins { Begins out.new.items out.old.items }
{
    for byte in bytes {
        out.push(shown_byte(*byte))?;
    }
    Ok(())
}

/// Appends a line and the quote behind it, or the first bytes of a long line. Fails if memory runs out.
fn push_line(line: &[u8], out: &mut Vec<u8>) -> Result<(), AllocError>
    ensures ok { OnOk result (out.new.items ≡ out.old.items ++ shown_line line.now) }
    ensures begins { Begins out.new.items out.old.items }
{
    if line.len() > MOST_SHOWN {
        push_shown(&line[..MOST_SHOWN], out)?;
        return "'..\n".push(out);
    }
    push_shown(line, out)?;
    "'\n".push(out)
}

/// Returns the line with this number, from 1, or no bytes if there is none.
#[tactic(auto, using(crate::proofs::FaultLemmas::later_line))]
fn line_at(script: &[u8], number: usize) -> &[u8]
    ensures { result.now ≡ line_at script.now number }
{
    let mut rest = script;
    let mut before = number.saturating_sub(1);
    while !rest.is_empty() {
        let (line, after) = split_script_line(rest);
        if before == 0 {
            return line;
        }
        before -= 1;
        rest = after;
    }
    &[]
}

/// Returns which line is missing, if a fault is in no line.
fn missing_message(cause: Cause) -> &'static str
    ensures { result.now ≡ missing_message cause }
{
    match cause {
        Cause::Go => ": the line 'go' is missing\n",
        _ => ": the line 'memory SIZE CHANNELS' is missing\n",
    }
}

/// Appends the message for a fault of a script. Fails if memory runs out, and may have appended a part of it then.
pub fn push_script_fault(script: &[u8], fault: Fault, out: &mut Vec<u8>) -> Result<(), AllocError>
    ensures ok { OnOk result (out.new.items ≡ out.old.items ++ fault_text script.now fault) }
    ensures begins { Begins out.new.items out.old.items }
{
    let name = fault.cause.name();
    if fault.line == 0 {
        return (" ", name, missing_message(fault.cause)).push(out);
    }
    (fault.line, ": ", name, ": '").push(out)?;
    push_line(line_at(script, fault.line), out)
}

/// Returns the answer to a script with this first fault: its line, and the message for it. Fails if memory runs out.
pub(crate) fn refused(alloc: Global, script: &[u8], fault: Fault) -> Result<Answer, AllocError>
    ensures { IfOk result (λ answer. prints_of answer ≡ refused script.now fault) }
{
    let mut out = Vec::new(alloc);
    print_line(&mut out, &fault)?;
    let mut err = Vec::new(alloc);
    push_script_fault(script, fault, &mut err)?;
    Ok(Answer::new(out, err, Vec::new(alloc), false))
}
