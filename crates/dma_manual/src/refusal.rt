//! What is printed for a text that spells no program.
ghost use Rattle.std.specs.Prelude.{◌≡◌, ◌++◌, IfOk, OnOk};
ghost use Rattle.dma_io.specs.Answer.{prints_of};
ghost use Rattle.dma_manual.specs.Refusal.{at_fault, cause_message, doubt_message, dump_message, refusal};

use crate::digit_faults::{digits_message, placed};
use crate::doubts::Doubt;
use crate::dump::Cause;
use crate::pasted::{Fault, Refused};
use dma_io::answer::Answer;
use dma_text::text::{HexByte, print};
use std::alloc::{AllocError, Global};

/// Returns what is wrong with a dump, if it isn't a byte.
fn cause_message(cause: Cause) -> &'static str
    ensures { result.now ≡ cause_message cause }
{
    match cause {
        Cause::Byte => "the dump ends too early\n",
        Cause::Address => "the address is not where the line before ends\n",
        Cause::Text => "the text is not that of the line's bytes\n",
        Cause::Star => "'*' is in place of lines: with -v, hexdump and od print them\n",
        Cause::Large => "a third digit: an array has bytes\n",
        Cause::Elided => "the array is cut: after 'set print elements 0', gdb prints all of it\n",
        Cause::Count => "a count is at most 65529\n",
        Cause::Long => "a dump has at most 1048576 bytes\n",
    }
}

/// Appends what is wrong with the byte of a dump at its fault, if there is one.
fn push_fault(err: &mut Vec<u8>, cause: Cause, byte: Option<u8>) -> Result<(), AllocError>
    ensures { OnOk result (err.new.items ≡ err.old.items ++ at_fault cause byte) }
{
    match (cause, byte) {
        (Cause::Byte, Some(byte)) => print(
            err,
            &("byte 0x", HexByte(byte), " is no part of the dump here\n"),
        ),
        _ => print(err, &cause_message(cause)),
    }
}

/// Returns what is wrong with a dump.
fn dump_message(alloc: Global, text: &[u8], fault: Fault) -> Result<Vec<u8>, AllocError>
    ensures { IfOk result (λ err. err.items ≡ dump_message text.now fault) }
{
    if !fault.is_dump {
        let mut err = Vec::new(alloc);
        let message = " no dump is found: each line has an address, or the bytes are in braces\n";
        print(&mut err, &message)?;
        return Ok(err);
    }
    let mut err = placed(alloc, text, fault.at)?;
    push_fault(&mut err, fault.cause, text.get(fault.at).copied())?;
    Ok(err)
}

/// Returns what a dump may be besides what it looks like, and what to add.
fn doubt_words(doubt: Doubt) -> &'static str
    ensures { result.now ≡ doubt_message doubt }
{
    match doubt {
        Doubt::Order =>
            " the groups may be bytes in this order, as xxd prints them (--hex), or words, as md does (--words)\n",
        Doubt::Radix =>
            " the addresses fit in two radices, with other bytes in each: print single bytes (hexdump -C, od -t x1)\n",
        Doubt::Address =>
            " nothing shows that the line begins with an address: add the line after it, or a colon to the address\n",
    }
}

/// Returns the message for a text that isn't surely a dump.
fn doubt_message(alloc: Global, doubt: Doubt) -> Result<Vec<u8>, AllocError>
    ensures { IfOk result (λ err. err.items ≡ doubt_message doubt) }
{
    let mut err = Vec::new(alloc);
    print(&mut err, &doubt_words(doubt))?;
    Ok(err)
}

/// Returns what is printed for a text that spells no program.
pub fn refusal(alloc: Global, why: Refused, text: &[u8]) -> Result<Answer, AllocError>
    ensures { IfOk result (λ answer. prints_of answer ≡ refusal why text.now) }
{
    let err = match why {
        Refused::Digits { notation, at } => digits_message(alloc, notation, text, at)?,
        Refused::Dump(fault) => dump_message(alloc, text, fault)?,
        Refused::Unsure(doubt) => doubt_message(alloc, doubt)?,
    };
    Ok(Answer::new(Vec::new(alloc), err, Vec::new(alloc), false))
}
