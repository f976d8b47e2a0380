//! Reads the lines of instructions that no channel executes.

ghost use Rattle.std.specs.Prelude.{◌≡◌, map};
ghost use Rattle.dma_manual.specs.Statements.{await_line, awaited_of, by_other_name, go_line, label_view, peripheral_line};

use crate::assembler::{AsmCause, Fault, Operand};
use crate::insns::{Action, Awaited, Channel, ManualInsn, OtherInsn, Peripheral, Request};
use crate::loop_lines::loop_end_line;
use crate::operands::{fault_at, flag_at, lettered, no_more, number_at, operand_after};
use crate::statements::{Named, Statement, bare};
use dma_text::bytes::is_text;

// Reads the word after the name of an instruction with a peripheral.
fn peripheral_line(action: Action, name: &[u8], rest: &[u8]) -> Result<Statement, Fault>
    ensures { result ≡ peripheral_line action name.now rest.now }
{
    let (word, rest) = operand_after(Operand::Peripheral, name, rest)?;
    let number = lettered(b'p', AsmCause::Peripheral, 31, word, rest)?;
    no_more(rest)?;
    let peripheral = Peripheral::of_number(number as u8);
    let insn = OtherInsn::OfPeripheral { action, peripheral };
    Ok(Statement::Plain(ManualInsn::Other(insn)))
}

// Returns which requests a word names.
fn awaited_of(word: &[u8]) -> Option<Awaited>
    ensures { result ≡ awaited_of word.now }
{
    if is_text(word, b"single") {
        Some(Awaited::Single)
    } else if is_text(word, b"burst") {
        Some(Awaited::Burst)
    } else if is_text(word, b"periph") {
        Some(Awaited::Either)
    } else {
        None
    }
}

// Reads the words after DMAWFP: a peripheral, and which requests it waits for.
fn await_line(name: &[u8], rest: &[u8]) -> Result<Statement, Fault>
    ensures { result ≡ await_line name.now rest.now }
{
    let (word, rest) = operand_after(Operand::Peripheral, name, rest)?;
    let number = lettered(b'p', AsmCause::Peripheral, 31, word, rest)?;
    let (kind, rest) = operand_after(Operand::Request, word, rest)?;
    let awaited = awaited_of(kind).ok_or(fault_at(AsmCause::Request, kind, rest))?;
    no_more(rest)?;
    let insn = OtherInsn::OfPeripheral {
        action: Action::Wait(awaited),
        peripheral: Peripheral::of_number(number as u8),
    };
    Ok(Statement::Plain(ManualInsn::Other(insn)))
}

// Reads the words after DMAGO: a channel, an address, and optionally `ns`.
fn go_line(name: &[u8], rest: &[u8]) -> Result<Statement, Fault>
    ensures { result ≡ go_line name.now rest.now }
{
    let (word, rest) = operand_after(Operand::Channel, name, rest)?;
    let number = lettered(b'c', AsmCause::Channel, 7, word, rest)?;
    let (digits, rest) = operand_after(Operand::Address, word, rest)?;
    let address = number_at(AsmCause::Value, 0, 0xffff_ffff, digits, digits, rest)?;
    let non_secure = flag_at(b"ns", rest)?;
    let insn = OtherInsn::Go {
        channel: Channel::of_number(number as u8),
        address: address as u32,
        non_secure,
    };
    Ok(Statement::Plain(ManualInsn::Other(insn)))
}

/// Returns the statement of the name of an instruction that no channel executes, and the words after it.
#[tactic(auto, unfolding(crate::specs::Statements::by_other_name))]
pub fn by_other_name(labels: &[Named], name: &[u8], rest: &[u8]) -> Result<Statement, Fault>
    ensures { result ≡ by_other_name (map label_view labels.now) name.now rest.now }
{
    if is_text(name, b"dmakill") {
        bare(Statement::Plain(ManualInsn::Other(OtherInsn::Kill)), rest)
    } else if is_text(name, b"dmalds") {
        bare(
            Statement::Plain(ManualInsn::Other(OtherInsn::LdIf(Request::Single))),
            rest,
        )
    } else if is_text(name, b"dmaldb") {
        bare(
            Statement::Plain(ManualInsn::Other(OtherInsn::LdIf(Request::Burst))),
            rest,
        )
    } else if is_text(name, b"dmasts") {
        bare(
            Statement::Plain(ManualInsn::Other(OtherInsn::StIf(Request::Single))),
            rest,
        )
    } else if is_text(name, b"dmastb") {
        bare(
            Statement::Plain(ManualInsn::Other(OtherInsn::StIf(Request::Burst))),
            rest,
        )
    } else if is_text(name, b"dmaldps") {
        peripheral_line(Action::Ld(Request::Single), name, rest)
    } else if is_text(name, b"dmaldpb") {
        peripheral_line(Action::Ld(Request::Burst), name, rest)
    } else if is_text(name, b"dmastps") {
        peripheral_line(Action::St(Request::Single), name, rest)
    } else if is_text(name, b"dmastpb") {
        peripheral_line(Action::St(Request::Burst), name, rest)
    } else if is_text(name, b"dmaflushp") {
        peripheral_line(Action::Flush, name, rest)
    } else if is_text(name, b"dmawfp") {
        await_line(name, rest)
    } else if is_text(name, b"dmalpends") {
        loop_end_line(labels, Some(Request::Single), rest)
    } else if is_text(name, b"dmalpendb") {
        loop_end_line(labels, Some(Request::Burst), rest)
    } else if is_text(name, b"dmago") {
        go_line(name, rest)
    } else {
        Err(fault_at(AsmCause::Name, name, rest))
    }
}
