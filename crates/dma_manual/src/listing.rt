//! Disassembles a program into lines that the assembler accepts.

ghost use Rattle.std.specs.Prelude.{◌≡◌, ◌++◌, ◌+◌, ◌-◌, ◌%◌, ◌<◌, ◌^◌, OnOk, OnErr, IfOk, ◌==◌};
ghost use Rattle.std.specs.List.{list_any};
ghost use Rattle.dma_manual.specs.Insns.{spelling};
ghost use Rattle.dma_manual.specs.Listing.{blanks_behind, cause_text, comment_text, follow, follow_words, indented, is_end, is_whole, jump_of, label_before, label_behind, label_name, label_text, line_text, listed, more_labels, remarks_of, rest_text, statement_text, stop, stop_text};
ghost use Rattle.dma_text.specs.Text.{Begins};

use crate::codec::decode;
use crate::insns::{ManualInsn, OtherInsn, Request};
use crate::manual::{counter_name, end_name};
use crate::remarks::{Remarks, remarks_of};
use dma_insn::chip::ChipInsn;
use dma_insn::codec::DecodeFault;
use dma_insn::insn::Counter;
use dma_text::text::{Address, HexByte, SpacedBytes, Text};
use std::alloc::{AllocError, Global};

/// Disassembles a program whose first byte has the address `at`.
///
/// Appends a line for each instruction to `out`, with its address and its bytes as a comment, and a line with a label
/// after each DMALP; the comment marks an instruction that no channel executes. Stops after DMAEND and says how many
/// bytes follow. Where bytes are no instruction, appends ` offset N (0xADDRESS): CAUSE` with the bytes to `err` and
/// returns false. Appends nothing if memory runs out.
pub fn disassemble(
    alloc: Global,
    program: &[u8],
    at: u32,
    out: &mut Vec<u8>,
    err: &mut Vec<u8>,
) -> Result<bool, AllocError>
    ensures out { let l = listed at program.now in
        OnOk result (out.new.items ≡ out.old.items ++ (l.text ++ rest_text l.ending)) }
    ensures err { OnOk result (err.new.items ≡ err.old.items ++ stop_text at (listed at program.now).ending) }
    ensures whole { IfOk result (λ whole. whole ≡ is_whole (listed at program.now).ending) }
    ensures out_kept { OnErr result (out.new.items ≡ out.old.items) }
    ensures err_kept { OnErr result (err.new.items ≡ err.old.items) }
{
    let start = out.len();
    let err_start = err.len();
    let listed = list(alloc, program, at, out, err);
    if listed.is_err() {
        out.truncate(start);
        err.truncate(err_start);
    }
    listed
}

// Appends the listing. May have appended a part of it if memory runs out.
#[tactic(auto, using(dma_text::proofs::Begun::begins_more, dma_text::proofs::Begun::begins_same, std::proofs::lemmas::Grind::common_steps))]
fn list(
    alloc: Global,
    program: &[u8],
    at: u32,
    out: &mut Vec<u8>,
    err: &mut Vec<u8>,
) -> Result<bool, AllocError>
    ensures out { let l = listed at program.now in
        OnOk result (out.new.items ≡ out.old.items ++ (l.text ++ rest_text l.ending)) }
    ensures err { OnOk result (err.new.items ≡ err.old.items ++ stop_text at (listed at program.now).ending) }
    ensures whole { IfOk result (λ whole. whole ≡ is_whole (listed at program.now).ending) }
    ensures out_begins { Begins out.new.items out.old.items }
    ensures err_begins { Begins err.new.items err.old.items }
{
    let mut labels = Vec::new(alloc);
    let mut offset = 0usize;
    let mut rest = program;
    while !rest.is_empty() {
        match decode(rest) {
            Ok((insn, count)) => {
                let (code, after) = rest.split_at(count);
                push_line(out, &labels, at, offset, &insn, code)?;
                if is_end(&insn) {
                    push_rest(out, after.len())?;
                    return Ok(true);
                }
                offset += count;
                push_label(out, &mut labels, &insn, offset)?;
                rest = after;
            }
            Err(fault) => {
                push_stop(err, at, offset, fault, rest)?;
                return Ok(false);
            }
        }
    }
    Ok(true)
}

/// The label of a loop body at an offset.
#[derive(Clone, Copy)]
struct Label(usize);

impl Text for Label {
    ghost text = { λ label. label_name label.0 };

    fn push(&self, out: &mut Vec<u8>) -> Result<(), AllocError> {
        let Label(offset) = *self;
        let high = HexByte((offset / 256 % 256) as u8);
        ("loop_", high, HexByte((offset % 256) as u8)).push(out)
    }
}

/// Returns whether an instruction is DMAEND.
pub fn is_end(insn: &ManualInsn) -> bool
    ensures { result ≡ is_end insn.now }
{
    match *insn {
        ManualInsn::Chip(ChipInsn::End) => true,
        _ => false,
    }
}

// Returns the label after an instruction that ends at an offset.
fn label_behind(insn: &ManualInsn, offset: usize) -> Option<usize>
    ensures { result ≡ label_behind insn.now offset }
{
    match *insn {
        ManualInsn::Chip(ChipInsn::Lp { .. }) if offset < 65_536 => Some(offset),
        _ => None,
    }
}

/// Returns the label `back` bytes before an offset.
pub fn label_before(labels: &[usize], offset: usize, back: usize) -> Option<usize>
    ensures { result ≡ label_before labels.now offset back }
{
    if back <= offset && is_among(labels, offset - back) {
        return Some(offset - back);
    }
    None
}

/// The jump of a DMALPEND to a label.
#[derive(Clone, Copy)]
struct Jump {
    condition: Option<Request>,
    counter: Counter,
    label: usize,
}

// Returns the jump of a DMALPEND to one of the labels.
fn jump_of(labels: &[usize], offset: usize, insn: &ManualInsn) -> Option<Jump>
    ensures { result ≡ jump_of labels.now offset insn.now }
{
    let (condition, counter, back) = match *insn {
        ManualInsn::Chip(ChipInsn::LpEnd { counter, back }) => (None, counter, back),
        ManualInsn::Other(
            OtherInsn::LpEndIf {
                request,
                counter,
                back,
            },
        ) => (Some(request), counter, back),
        _ => return None,
    };
    let label = label_before(labels, offset, usize::from(back))?;
    Some(Jump {
        condition,
        counter,
        label,
    })
}

// Returns whether a label is one of several.
fn is_among(labels: &[usize], label: usize) -> bool
    ensures { result ≡ list_any (λ l. l == label) labels.now }
{
    labels.iter().any(|l| *l == label)
}

// Appends an instruction, with the label to which it jumps, if there is one.
fn push_statement(
    out: &mut Vec<u8>,
    labels: &[usize],
    offset: usize,
    insn: &ManualInsn,
) -> Result<(), AllocError>
    ensures ok { OnOk result
        (out.new.items ≡ out.old.items ++ statement_text (jump_of labels.now offset insn.now) insn.now) }
    ensures begins { Begins out.new.items out.old.items }
{
    match jump_of(labels, offset, insn) {
        Some(jump) => {
            let name = end_name(jump.condition);
            let to = (", ", Label(jump.label));
            (name, " ", counter_name(jump.counter), to).push(out)
        }
        None => insn.push(out),
    }
}

/// The spaces up to the column of the comments, after the widest text of an instruction.
const BLANKS: [u8; 62] = [b' '; 62];

// Appends spaces after a text of this width.
fn push_blanks(out: &mut Vec<u8>, width: usize) -> Result<(), AllocError>
    ensures ok { OnOk result (out.new.items ≡ out.old.items ++ blanks_behind width) }
    ensures begins { Begins out.new.items out.old.items }
{
    let from = width.min(BLANKS.len());
    (&BLANKS[from..]).push(out)
}

// Appends an instruction with spaces before it.
#[tactic(auto, using(dma_text::proofs::Begun::begins_more))]
fn push_indented(
    out: &mut Vec<u8>,
    labels: &[usize],
    offset: usize,
    insn: &ManualInsn,
) -> Result<(), AllocError>
    ensures ok { OnOk result
        (out.new.items ≡ out.old.items ++ indented labels.now offset insn.now) }
    ensures begins { Begins out.new.items out.old.items }
{
    "    ".push(out)?;
    push_statement(out, labels, offset, insn)
}

// Appends the comment after a text of this width.
#[tactic(auto, using(dma_text::proofs::Begun::begins_more))]
fn push_comment(
    out: &mut Vec<u8>,
    width: usize,
    at: u32,
    offset: usize,
    code: &[u8],
    remarks: Remarks,
) -> Result<(), AllocError>
    ensures ok { OnOk result
        (out.new.items ≡ out.old.items ++ comment_text width at offset code.now remarks) }
    ensures begins { Begins out.new.items out.old.items }
{
    push_blanks(out, width)?;
    let address = Address(address_of(at, offset));
    let words = (SpacedBytes(code), remarks, "\n");
    (" ; ", address, " ", words).push(out)
}

/// Returns the address of an offset.
pub fn address_of(at: u32, offset: usize) -> u32
    ensures { result ≡ (at + offset) % 2 ^ 32 }
{
    at.wrapping_add((offset % 0x1_0000_0000) as u32)
}

// Appends the line of an instruction.
#[tactic(auto, using(dma_text::proofs::Begun::begins_more))]
fn push_line(
    out: &mut Vec<u8>,
    labels: &[usize],
    at: u32,
    offset: usize,
    insn: &ManualInsn,
    code: &[u8],
) -> Result<(), AllocError>
    requires { code.now ≡ spelling insn.now }
    ensures ok { OnOk result (out.new.items ≡ out.old.items ++ line_text at labels.now offset insn.now) }
    ensures begins { Begins out.new.items out.old.items }
{
    let remarks = remarks_of(labels, at, offset, insn);
    let start = out.len();
    push_indented(out, labels, offset, insn)?;
    push_comment(out, out.len() - start, at, offset, code, remarks)
}

// Appends the line of the label after an instruction, and adds it to the labels.
fn push_label(
    out: &mut Vec<u8>,
    labels: &mut Vec<usize>,
    insn: &ManualInsn,
    offset: usize,
) -> Result<(), AllocError>
    ensures ok { OnOk result (out.new.items ≡ out.old.items ++ label_text (label_behind insn.now offset)) }
    ensures labels { OnOk result (labels.new.items ≡ more_labels labels.old.items (label_behind insn.now offset)) }
    ensures begins { Begins out.new.items out.old.items }
{
    if let Some(label) = label_behind(insn, offset) {
        (Label(label), ":\n").push(out)?;
        labels.push(label)?;
    }
    Ok(())
}

// Returns the words after a number of bytes that follow.
fn follow_words(count: usize) -> &'static str
    ensures { result.now ≡ follow_words count }
{
    if count == 1 {
        " byte follows"
    } else {
        " bytes follow"
    }
}

// Appends the line that says how many bytes follow DMAEND.
fn push_rest(out: &mut Vec<u8>, count: usize) -> Result<(), AllocError>
    ensures ok { OnOk result (out.new.items ≡ out.old.items ++ rest_text (follow count)) }
    ensures begins { Begins out.new.items out.old.items }
{
    if count == 0 {
        return Ok(());
    }
    ("; ", count, follow_words(count), "\n").push(out)
}

/// Why bytes don't begin with an instruction.
#[derive(Drop)]
struct Cause(DecodeFault);

impl Text for Cause {
    ghost text = { λ cause. cause_text cause.0 };

    fn push(&self, out: &mut Vec<u8>) -> Result<(), AllocError> {
        match self.0 {
            DecodeFault::Cut => "the bytes end within an instruction:".push(out),
            DecodeFault::Unknown(_) => "no instruction begins with".push(out),
            DecodeFault::BadField => "a field is outside its range:".push(out),
        }
    }
}

// Appends where the bytes are no instruction, and why.
fn push_stop(
    err: &mut Vec<u8>,
    at: u32,
    offset: usize,
    fault: DecodeFault,
    rest: &[u8],
) -> Result<(), AllocError>
    ensures ok { OnOk result (err.new.items ≡ err.old.items ++ stop_text at (stop offset fault rest.now)) }
    ensures begins { Begins err.new.items err.old.items }
{
    let shown = &rest[..rest.len().min(6)];
    let address = (" (0x", Address(address_of(at, offset)));
    let why = (Cause(fault), SpacedBytes(shown), "\n");
    ((" offset ", offset), address, "): ", why).push(err)
}
