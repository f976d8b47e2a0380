//! Reads one line of assembly text.

ghost use Rattle.std.specs.Prelude.{◌≡◌, map};
ghost use Rattle.dma_manual.specs.Statements.{add_line, address_line, address_of, bare, by_name, byte_line, control_line, event_line, label_of, label_view, set_line, set_value, statement_at, wait_line, word_line};

use crate::assembler::{AsmCause, Fault, Operand};
use crate::fields::fields_at;
use crate::insns::{ManualInsn, Request};
use crate::loop_lines::{loop_end_line, loop_line};
use crate::operands::{fault_at, flag_at, lettered, no_more, number_at, operand_after};
use crate::other_lines::by_other_name;
use crate::words::next_word;
use dma_insn::chip::{Address, ChipInsn};
use dma_insn::insn::{Counter, Event, Reg, Times};
use dma_text::bytes::is_text;

/// A label, and the offset of what follows it.
#[derive(Drop)]
pub struct Named {
    pub name: Vec<u8>,
    pub offset: usize,
}

/// Which loop a DMALPEND ends.
#[derive(Clone, Copy)]
pub enum End {
    /// The innermost open loop.
    Innermost,
    /// The open loop with this counter.
    Of(Counter),
    /// It jumps to the start at an offset.
    To(Counter, usize),
    /// It jumps this number of bytes back.
    Back(Counter, u8),
}

/// When the DMALPEND of a DMALPFE jumps.
#[derive(Clone, Copy)]
pub enum Again {
    /// Always. The counter is the instruction's bit lc, which has no effect, and which the manual sets.
    Always(Counter),
    /// At a request of this kind.
    If(Request),
}

/// What a line of assembly text says.
#[derive(Drop)]
pub enum Statement {
    Nothing,
    /// An instruction that needs nothing of the lines before it.
    Plain(ManualInsn),
    Byte(u8),
    Word(u32),
    Loop {
        counter: Option<Counter>,
        times: Times,
    },
    /// A DMALPEND, which may be for a kind of request.
    LoopEnd {
        condition: Option<Request>,
        end: End,
    },
    /// A DMALPFE.
    Endless,
    /// The DMALPEND of a DMALPFE with the length of its jump.
    LoopAgain {
        again: Again,
        back: u8,
    },
}

/// Returns the offset of a label, or `None` if no label has this name.
pub fn label_of(labels: &[Named], name: &[u8]) -> Option<usize>
    ensures { result ≡ label_of (map label_view labels.now) name.now }
{
    for label in labels {
        if is_text(&label.name, name) {
            return Some(label.offset);
        }
    }
    None
}

/// Returns a statement without operands.
pub fn bare(statement: Statement, rest: &[u8]) -> Result<Statement, Fault>
    ensures { result ≡ bare statement rest.now }
{
    no_more(rest)?;
    Ok(statement)
}

// Reads the word after DMASEV: an event.
fn event_line(name: &[u8], rest: &[u8]) -> Result<Statement, Fault>
    ensures { result ≡ event_line name.now rest.now }
{
    let (word, rest) = operand_after(Operand::Event, name, rest)?;
    let event = lettered(b'e', AsmCause::Event, 31, word, rest)?;
    no_more(rest)?;
    let insn = ChipInsn::Sev(Event::of_number(event as u8));
    Ok(Statement::Plain(ManualInsn::Chip(insn)))
}

// Reads the words after DMAWFE: an event, and optionally `invalid`.
fn wait_line(name: &[u8], rest: &[u8]) -> Result<Statement, Fault>
    ensures { result ≡ wait_line name.now rest.now }
{
    let (word, rest) = operand_after(Operand::Event, name, rest)?;
    let number = lettered(b'e', AsmCause::Event, 31, word, rest)?;
    let invalid = flag_at(b"invalid", rest)?;
    Ok(Statement::Plain(ManualInsn::Chip(ChipInsn::Wfe {
        event: Event::of_number(number as u8),
        invalid,
    })))
}

// Reads the byte after DCB.
fn byte_line(name: &[u8], rest: &[u8]) -> Result<Statement, Fault>
    ensures { result ≡ byte_line name.now rest.now }
{
    let (word, rest) = operand_after(Operand::Byte, name, rest)?;
    let byte = number_at(AsmCause::Byte, 0, 255, word, word, rest)?;
    no_more(rest)?;
    Ok(Statement::Byte(byte as u8))
}

// Reads the number after DCD.
fn word_line(name: &[u8], rest: &[u8]) -> Result<Statement, Fault>
    ensures { result ≡ word_line name.now rest.now }
{
    let (word, rest) = operand_after(Operand::Word, name, rest)?;
    let number = number_at(AsmCause::Value, 0, 0xffff_ffff, word, word, rest)?;
    no_more(rest)?;
    Ok(Statement::Word(number as u32))
}

// Reads a value of 32 bits, the last word of a line.
fn set_value(reg: Reg, word: &[u8], rest: &[u8]) -> Result<Statement, Fault>
    ensures { result ≡ set_value reg word.now rest.now }
{
    let value = number_at(AsmCause::Value, 0, 0xffff_ffff, word, word, rest)?;
    no_more(rest)?;
    let insn = ChipInsn::Mov(reg, value as u32);
    Ok(Statement::Plain(ManualInsn::Chip(insn)))
}

// Reads the words after DMAMOV CCR: a value, or fields.
fn control_line(name: &[u8], rest: &[u8]) -> Result<Statement, Fault>
    ensures { result ≡ control_line name.now rest.now }
{
    let (word, after) = operand_after(Operand::Fields, name, rest)?;
    match word {
        [b'0'..=b'9', ..] => set_value(Reg::Ccr, word, after),
        _ => {
            let insn = ChipInsn::Mov(Reg::Ccr, fields_at(rest)?);
            Ok(Statement::Plain(ManualInsn::Chip(insn)))
        }
    }
}

// Reads the words after DMAMOV SAR or DAR: an address.
fn address_line(reg: Reg, name: &[u8], rest: &[u8]) -> Result<Statement, Fault>
    ensures { result ≡ address_line reg name.now rest.now }
{
    let (word, after) = operand_after(Operand::Address, name, rest)?;
    set_value(reg, word, after)
}

// Reads the words after DMAMOV: a register and what it is set to.
fn set_line(name: &[u8], rest: &[u8]) -> Result<Statement, Fault>
    ensures { result ≡ set_line name.now rest.now }
{
    let (word, rest) = operand_after(Operand::Register, name, rest)?;
    if is_text(word, b"sar") {
        address_line(Reg::Sar, word, rest)
    } else if is_text(word, b"dar") {
        address_line(Reg::Dar, word, rest)
    } else if is_text(word, b"ccr") {
        control_line(word, rest)
    } else {
        Err(fault_at(AsmCause::Register, word, rest))
    }
}

// Returns the address register that a word names.
fn address_of(word: &[u8]) -> Option<Address>
    ensures { result ≡ address_of word.now }
{
    if is_text(word, b"sar") {
        Some(Address::Source)
    } else if is_text(word, b"dar") {
        Some(Address::Destination)
    } else {
        None
    }
}

// Reads the words after DMAADDH or DMAADNH: SAR or DAR, and a number of 16 bits.
fn add_line(negative: bool, name: &[u8], rest: &[u8]) -> Result<Statement, Fault>
    ensures { result ≡ add_line negative name.now rest.now }
{
    let (register, rest) = operand_after(Operand::AddressRegister, name, rest)?;
    let address = address_of(register).ok_or(fault_at(AsmCause::AddressRegister, register, rest))?;
    let (word, rest) = operand_after(Operand::Halfword, register, rest)?;
    let half = number_at(AsmCause::Halfword, 0, 0xffff, word, word, rest)?;
    no_more(rest)?;
    Ok(Statement::Plain(ManualInsn::Chip(ChipInsn::AddHalfword {
        address,
        half: half as u16,
        negative,
    })))
}

// Returns the statement of an instruction's name and the words after it.
#[tactic(auto, unfolding(crate::specs::Statements::by_name))]
fn by_name(labels: &[Named], name: &[u8], rest: &[u8]) -> Result<Statement, Fault>
    ensures { result ≡ by_name (map label_view labels.now) name.now rest.now }
{
    if is_text(name, b"dmaend") {
        bare(Statement::Plain(ManualInsn::Chip(ChipInsn::End)), rest)
    } else if is_text(name, b"dmald") {
        bare(Statement::Plain(ManualInsn::Chip(ChipInsn::Ld)), rest)
    } else if is_text(name, b"dmast") {
        bare(Statement::Plain(ManualInsn::Chip(ChipInsn::St)), rest)
    } else if is_text(name, b"dmarmb") {
        bare(Statement::Plain(ManualInsn::Chip(ChipInsn::Rmb)), rest)
    } else if is_text(name, b"dmawmb") {
        bare(Statement::Plain(ManualInsn::Chip(ChipInsn::Wmb)), rest)
    } else if is_text(name, b"dmanop") {
        bare(Statement::Plain(ManualInsn::Chip(ChipInsn::Nop)), rest)
    } else if is_text(name, b"dmalp") {
        loop_line(name, rest)
    } else if is_text(name, b"dmalpend") {
        loop_end_line(labels, None, rest)
    } else if is_text(name, b"dmasev") {
        event_line(name, rest)
    } else if is_text(name, b"dmawfe") {
        wait_line(name, rest)
    } else if is_text(name, b"dmamov") {
        set_line(name, rest)
    } else if is_text(name, b"dmastz") {
        bare(
            Statement::Plain(ManualInsn::Chip(ChipInsn::StoreZeros)),
            rest,
        )
    } else if is_text(name, b"dmaaddh") {
        add_line(false, name, rest)
    } else if is_text(name, b"dmaadnh") {
        add_line(true, name, rest)
    } else if is_text(name, b"dmalpfe") {
        bare(Statement::Endless, rest)
    } else if is_text(name, b"dcb") {
        byte_line(name, rest)
    } else if is_text(name, b"dcd") {
        word_line(name, rest)
    } else {
        by_other_name(labels, name, rest)
    }
}

/// Returns what the words after a label say.
pub fn statement_at(labels: &[Named], rest: &[u8]) -> Result<Statement, Fault>
    ensures { result ≡ statement_at (map label_view labels.now) rest.now }
{
    match next_word(rest) {
        None => Ok(Statement::Nothing),
        Some((name, rest)) => by_name(labels, name, rest),
    }
}
