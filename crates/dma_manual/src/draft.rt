//! The program so far, while a text is assembled.

ghost use Rattle.std.specs.Prelude.{◌≡◌, ◌==◌, ◌++◌, ◌+◌, ◌-◌, ◌≤◌, ◌<◌, [], ◌∷◌, length, map, Option, MatchOption, Some, None};
ghost use Rattle.dma_insn.specs.LineReading.{ResultIs};
ghost use Rattle.dma_manual.specs.Words.{next_of};
ghost use Rattle.dma_manual.specs.Assembled.{ResultOr, after_statement, begun, begun_endless, draft_view, empty, ended, ended_again, first_stray, has_zero, label_in, located, place_of, place_at, take_line, unclosed, with_bytes, with_code, with_label, with_statement, word_bytes};
ghost use Rattle.dma_manual.specs.Insns.{spelling};
ghost use Rattle.dma_manual.specs.Listing.{is_end};
ghost use Rattle.dma_manual.specs.Statements.{label_view};

use crate::assembler::{AsmCause, Fault, Located, Place, Stop};
use crate::codec::encode;
use crate::insns::{ManualInsn, Request};
use crate::listing::is_end;
use crate::loops::{LoopKind, Loops, Open, Stray, chosen, jump_of};
use crate::statements::{Again, End, Named, Statement, label_of, statement_at};
use crate::words::next_word;
use dma_insn::assembler::MAX_PROGRAM_BYTES;
use dma_insn::chip::ChipInsn;
use dma_insn::insn::{Counter, Times};
use std::alloc::Global;

/// The program that the lines of a text have made so far, with its labels and the loops that are still open.
#[derive(Drop)]
pub struct Draft {
    pub code: Vec<u8>,
    pub labels: Vec<Named>,
    pub loops: Loops,
    /// Whether an instruction is DMAEND, or a byte of a `DCB` or a `DCD` is 0, which is DMAEND's byte.
    pub stops: bool,
    /// The first DMALPEND that doesn't jump to the start of the open loop of its kind.
    pub stray: Option<Stray>,
}

impl Draft {
    /// Returns an empty program.
    pub fn new(alloc: Global) -> Draft
        ensures { draft_view result ≡ empty }
    {
        Draft {
            code: Vec::new(alloc),
            labels: Vec::new(alloc),
            loops: Loops {
                lc0: None,
                lc1: None,
                endless: None,
            },
            stops: false,
            stray: None,
        }
    }

    /// Succeeds if each loop of DMALPFE, or whose counter was found, is ended.
    pub fn closed(&self) -> Result<(), Located>
        ensures { result ≡ unclosed self.now.loops }
    {
        self.loops.closed()
    }
}

// Returns the place of a word of a line: the word has `len` bytes, and after it are `after`.
fn place_at(number: usize, line: &[u8], len: usize, after: usize) -> Place
    ensures { result ≡ place_at number (length line.now) len after }
{
    let column = line.len().saturating_sub(after).saturating_sub(len) + 1;
    Place {
        line: number,
        column,
        len,
    }
}

// Returns a fault with its place in the text.
fn located(number: usize, line: &[u8], fault: Fault) -> Located
    ensures { result ≡ located number (length line.now) fault }
{
    place_at(number, line, fault.len, fault.after).fault(fault.cause)
}

// Returns the place of the next word.
fn place_of(number: usize, line: &[u8], rest: &[u8]) -> Place
    ensures { result ≡ place_of number (length line.now) (next_of rest.now) }
{
    match next_word(rest) {
        None => place_at(number, line, 0, 0),
        Some((word, after)) => place_at(number, line, word.len(), after.len()),
    }
}

// Appends bytes to the program. Fails if it gets too long.
fn push_bytes(code: &mut Vec<u8>, bytes: &[u8], place: Place) -> Result<(), Stop>
    ensures { ResultOr (λ _. code.new.items) result (with_bytes code.old.items bytes.now place) }
{
    if bytes.len() > MAX_PROGRAM_BYTES || code.len() > MAX_PROGRAM_BYTES - bytes.len() {
        return Err(Stop::At(place.fault(AsmCause::TooLong)));
    }
    code.extend_from_slice(bytes)?;
    Ok(())
}

// Appends an instruction to the program. Fails if it gets too long.
fn push_insn(code: &mut Vec<u8>, insn: ManualInsn, place: Place) -> Result<(), Stop>
    ensures { ResultOr (λ _. code.new.items) result
        (with_bytes code.old.items (spelling insn) place) }
{
    let mut bytes = [0; 6];
    let len = encode(insn, &mut bytes);
    push_bytes(code, &bytes[..len], place)
}

// Appends a DMALP, and opens its loop.
fn begin_loop(
    draft: &mut Draft,
    counter: Option<Counter>,
    times: Times,
    place: Place,
) -> Result<(), Stop>
    ensures { ResultOr (λ _. draft_view draft.new) result
        (begun (draft_view draft.old) counter times place) }
{
    let (counter, unnamed) = chosen(&draft.loops, counter, place)?;
    let insn = ManualInsn::Chip(ChipInsn::Lp { counter, times });
    push_insn(&mut draft.code, insn, place)?;
    let open = Open {
        start: draft.code.len(),
        unnamed,
    };
    draft.loops = draft.loops.with(LoopKind::Counted(counter), Some(open));
    Ok(())
}

// Returns the first DMALPEND that closes no loop: `stray` if there already is one, else this one, unless it closes its
// loop.
fn first_stray(stray: Option<Stray>, closes: bool, this: Stray) -> Option<Stray>
    ensures { result ≡ first_stray stray closes this }
{
    match stray {
        Some(first) => Some(first),
        None if closes => None,
        None => Some(this),
    }
}

// Appends a DMALPEND, and closes its loop.
fn end_loop(
    draft: &mut Draft,
    condition: Option<Request>,
    end: End,
    place: Place,
) -> Result<(), Stop>
    ensures { ResultOr (λ _. draft_view draft.new) result
        (ended (draft_view draft.old) condition end place) }
{
    let here = draft.code.len();
    let (kind, back) = jump_of(&draft.loops, here, end, place)?;
    let closes = draft.loops.is_closed_by(kind, here, back);
    push_insn(&mut draft.code, kind.end(condition, back), place)?;
    draft.loops = draft.loops.with(kind, None);
    let this = Stray {
        place,
        kind,
        condition,
    };
    draft.stray = first_stray(draft.stray, closes, this);
    Ok(())
}

// Opens the loop of a DMALPFE, which has no bytes.
fn begin_endless(draft: &mut Draft, place: Place) -> Result<(), Stop>
    ensures { ResultOr (λ _. draft_view draft.new) result
        (begun_endless (draft_view draft.old) place) }
{
    if draft.loops.endless.is_some() {
        return Err(Stop::At(place.fault(AsmCause::Nested)));
    }
    let open = Open {
        start: draft.code.len(),
        unnamed: Some(place),
    };
    draft.loops = draft.loops.with(LoopKind::Endless, Some(open));
    Ok(())
}

// Appends the DMALPEND of a DMALPFE that has its jump, and closes such a loop.
fn end_endless(draft: &mut Draft, again: Again, back: u8, place: Place) -> Result<(), Stop>
    ensures { ResultOr (λ _. draft_view draft.new) result
        (ended_again (draft_view draft.old) again back place) }
{
    let closes = draft.loops.is_free_or_closed_by(draft.code.len(), back);
    push_insn(&mut draft.code, again.end(back), place)?;
    draft.loops = draft.loops.with(LoopKind::Endless, None);
    let this = Stray {
        place,
        kind: LoopKind::Endless,
        condition: again.condition(),
    };
    draft.stray = first_stray(draft.stray, closes, this);
    Ok(())
}

// Appends an instruction that is no DMALP or DMALPEND.
fn push_plain(draft: &mut Draft, insn: ManualInsn, place: Place) -> Result<(), Stop>
    ensures { ResultOr (λ _. draft_view draft.new) result
        (with_code (draft_view draft.old) (spelling insn) (is_end insn) place) }
{
    push_insn(&mut draft.code, insn, place)?;
    draft.stops = draft.stops || is_end(&insn);
    Ok(())
}

// Appends a byte.
fn push_byte(draft: &mut Draft, byte: u8, place: Place) -> Result<(), Stop>
    ensures { ResultOr (λ _. draft_view draft.new) result
        (with_code (draft_view draft.old) (byte ∷ []) (byte == 0) place) }
{
    push_bytes(&mut draft.code, &[byte], place)?;
    draft.stops = draft.stops || byte == 0;
    Ok(())
}

// Appends the bytes of a number, the lowest first.
fn push_word(draft: &mut Draft, number: u32, place: Place) -> Result<(), Stop>
    ensures { ResultOr (λ _. draft_view draft.new) result
        (with_code (draft_view draft.old) (word_bytes number) (has_zero (word_bytes number)) place) }
{
    let bytes = number.to_le_bytes();
    push_bytes(&mut draft.code, &bytes, place)?;
    draft.stops = draft.stops || bytes.iter().any(|byte| *byte == 0);
    Ok(())
}

// Appends what a statement says.
fn push_statement(draft: &mut Draft, statement: Statement, place: Place) -> Result<(), Stop>
    ensures { ResultOr (λ _. draft_view draft.new) result
        (after_statement (draft_view draft.old) statement place) }
{
    match statement {
        Statement::Nothing => Ok(()),
        Statement::Plain(insn) => push_plain(draft, insn, place),
        Statement::Byte(byte) => push_byte(draft, byte, place),
        Statement::Word(number) => push_word(draft, number, place),
        Statement::Loop { counter, times } => begin_loop(draft, counter, times, place),
        Statement::LoopEnd { condition, end } => end_loop(draft, condition, end, place),
        Statement::Endless => begin_endless(draft, place),
        Statement::LoopAgain { again, back } => end_endless(draft, again, back, place),
    }
}

// Reads what follows a label, and appends it.
#[tactic(auto, unfolding(crate::specs::Assembled::with_statement))]
fn take_statement(draft: &mut Draft, number: usize, line: &[u8], rest: &[u8]) -> Result<(), Stop>
    ensures { ResultOr (λ _. draft_view draft.new) result
        (with_statement (draft_view draft.old) number (length line.now) rest.now) }
{
    let place = place_of(number, line, rest);
    match statement_at(&draft.labels, rest) {
        Ok(statement) => push_statement(draft, statement, place),
        Err(fault) => Err(Stop::At(located(number, line, fault))),
    }
}

/// Returns the label at the front of a line, and what follows it.
pub fn label_in(line: &[u8]) -> Option<(&[u8], &[u8])>
    ensures { MatchOption result (label_in line.now ≡ None)
        (λ w. label_in line.now ≡ Some (w.0.now, w.1.now)) }
{
    let (word, rest) = next_word(line)?;
    match word {
        [name @ .., b':'] => Some((name, rest)),
        _ => None,
    }
}

// Adds a label.
#[tactic(auto, using(std::proofs::lemmas::Grind::common_steps))]
fn add_label(
    draft: &mut Draft,
    number: usize,
    line: &[u8],
    name: &[u8],
    rest: &[u8],
) -> Result<(), Stop>
    ensures { ResultOr (λ _. draft_view draft.new) result
        (with_label (draft_view draft.old) number (length line.now) name.now rest.now) }
{
    if label_of(&draft.labels, name).is_some() {
        let place = place_at(number, line, name.len() + 1, rest.len());
        return Err(Stop::At(place.fault(AsmCause::Twice)));
    }
    let label = Named {
        name: name.to_vec(*draft.code.allocator())?,
        offset: draft.code.len(),
    };
    match draft.labels.push(label) {
        Ok(()) => Ok(()),
        Err(_) => Err(Stop::NoMemory),
    }
}

/// Takes a plain line with its number.
pub fn take_line(draft: &mut Draft, number: usize, line: &[u8]) -> Result<(), Stop>
    ensures { ResultOr (λ _. draft_view draft.new) result
        (take_line (draft_view draft.old) number line.now) }
{
    match label_in(line) {
        None => take_statement(draft, number, line, line),
        Some((name, rest)) => {
            add_label(draft, number, line, name, rest)?;
            take_statement(draft, number, line, rest)
        }
    }
}
