//! The compiler: turns a transfer into the program that copies it.

ghost use Rattle.std.specs.Prelude.{ℕ, Bool, ◌≡◌, ◌+◌, ◌-◌, ◌*◌, ◌≤◌, ◌<◌, ◌^◌, ◌++◌, length, vec_capacity, IfOk, IfSome, not};
ghost use Rattle.dma_insn.specs.Chip.{spelling};
ghost use Rattle.dma_insn.specs.ControlWord.{beat_bytes};
ghost use Rattle.dma_chan.specs.Tree.{Repeat};
ghost use Rattle.dma_chan.specs.inner.Compiling.{Appends, cost_of, word_of};
ghost use Rattle.dma_chan.specs.Compiled.{where_some, body, bursts, under, beats_fit, beat_of, parts, piece_tree, wait_tree, signal_tree};
ghost use Rattle.dma_chan.specs.Compiled.{tree_on, cost, cost_on, compiled, compiled_on, pieces_of, most_compiled};
ghost use Rattle.dma_mem.specs.Limits.{last_event};
ghost use Rattle.dma_mem.specs.Rules.{IsTransfer};

mod counts;

use crate::bus::Bus;
use crate::compile::counts::{beats_cost, cost_on, events_cost};
use crate::pieces::{Piece, Pieces};
use crate::program::Program;
use dma_insn::chip::{ChipInsn, encode_chip};
use dma_insn::control::{Attribute, BeatSize, Beats, BurstEnd, Control};
use dma_insn::insn::{Counter, Event, Reg, Times};
pub use dma_mem::no_memory::NoMemory;
use dma_mem::transfer::Transfer;
use std::alloc::Global;

// The most bytes of a piece's code.
const PIECE_BYTES: usize = 58;

// The number of bytes of a wait, a signal and the end together.
const OTHER_BYTES: usize = 5;

// A beat of a piece: its size in bytes, and whether the source address rises from beat to beat. In a fill it doesn't.
#[derive(Clone, Copy)]
struct Beat {
    size: BeatSize,
    source_rises: bool,
}

/// Returns the program that copies a transfer's sources to its destinations on the engine's bus: what [`compile_on`]
/// returns for the ideal bus.
#[tactic(auto, unfolding(crate::specs::Compiled::compiled))]
pub fn compile(alloc: Global, transfer: &Transfer) -> Result<Program, NoMemory>
    ensures program { IfOk result (λ program. program ≡ compiled transfer.now) }
    ensures limit { IfOk result (λ program. length program.bytes ≤ most_compiled) }
{
    compile_on(alloc, Bus::Ideal, transfer)
}

/// Returns the program that copies a transfer's sources to its destinations, piece by piece, after its wait and before
/// its signal. No beat is wider than the bus. A fill has one piece for each destination segment, with beats of one byte
/// and a source address that doesn't rise.
///
/// It takes time in proportion to the number of pieces. The error is `NoMemory` if an allocation fails.
#[tactic(auto, unfolding(crate::specs::Compiled::compiled_on), using(crate::proofs::PieceCode::compiled_bytes, crate::proofs::PieceCode::pieces_fewer))]
pub fn compile_on(alloc: Global, bus: Bus, transfer: &Transfer) -> Result<Program, NoMemory>
    ensures program { IfOk result (λ program. program ≡ compiled_on bus transfer.now) }
    ensures limit { IfOk result (λ program. length program.bytes ≤ most_compiled) }
{
    let segments = transfer.src().len() + transfer.dst().len();
    let mut code = Vec::with_capacity(alloc, PIECE_BYTES * segments + OTHER_BYTES)?;
    let cost = push_program(&mut code, bus, transfer);
    Ok(Program::of_vec(code, Some(cost)))
}

// Appends the code of a transfer for a bus, and returns how many instructions it executes.
#[tactic(auto, using(crate::proofs::TreeCosts::cost_of_tree, crate::proofs::TreeCosts::cost_counted, crate::proofs::TreeCosts::cost_below))]
pub(crate) fn push_program(code: &mut Vec<u8>, bus: Bus, transfer: &Transfer) -> u32
    requires room { IsTransfer transfer.now
        → length code.old.items + 58 * length (pieces_of transfer.now) + 5 ≤ vec_capacity code.old }
    ensures bytes { Appends code.old.items code.new.items (tree_on bus transfer.now) }
    ensures most { length code.new.items ≤ length code.old.items + most_compiled }
    ensures capacity { vec_capacity code.new ≡ vec_capacity code.old }
    ensures cost { result ≡ cost_on bus transfer.now }
{
    let mut pieces = Pieces::of(transfer);
    push_wait(code, transfer.wait());
    let mut cost = events_cost(transfer);
    while let Some(piece) = pieces.next() {
        cost += push_piece(code, bus, piece);
    }
    push_signal(code, transfer.signal());
    push(code, ChipInsn::End);
    cost
}

/// Returns how many instructions the program of a transfer executes. It takes time in proportion to the number of
/// pieces, and allocates nothing.
#[tactic(auto, unfolding(crate::specs::Compiled::cost))]
pub fn cost_of(transfer: &Transfer) -> u32
    ensures value { result ≡ cost transfer.now }
    ensures limit { result < 2 ^ 19 }
{
    cost_on(Bus::Ideal, transfer)
}

// Appends the wait, if the transfer has one.
fn push_wait(code: &mut Vec<u8>, wait: Option<u8>)
    requires event { IfSome wait (λ event. event ≤ last_event) }
    requires room { length code.old.items + 2 ≤ vec_capacity code.old }
    ensures bytes { Appends code.old.items code.new.items (wait_tree wait) }
    ensures most { length code.new.items ≤ length code.old.items + 2 }
    ensures capacity { vec_capacity code.new ≡ vec_capacity code.old }
{
    let Some(number) = wait else {
        return;
    };
    let (event, invalid) = (Event::of_number(number), false);
    push(code, ChipInsn::Wfe { event, invalid });
}

// Appends the signal, if the transfer has one.
fn push_signal(code: &mut Vec<u8>, signal: Option<u8>)
    requires event { IfSome signal (λ event. event ≤ last_event) }
    requires room { length code.old.items + 2 ≤ vec_capacity code.old }
    ensures bytes { Appends code.old.items code.new.items (signal_tree signal) }
    ensures most { length code.new.items ≤ length code.old.items + 2 }
    ensures capacity { vec_capacity code.new ≡ vec_capacity code.old }
{
    let Some(number) = signal else {
        return;
    };
    push(code, ChipInsn::Sev(Event::of_number(number)));
}

// Appends the code of a piece, and returns how many instructions it executes.
#[tactic(auto, using(crate::proofs::TreeCosts::piece_counts))]
fn push_piece(code: &mut Vec<u8>, bus: Bus, piece: Piece) -> u32
    requires len { piece.len ≤ 2 ^ 20 }
    requires room { length code.old.items + 58 ≤ vec_capacity code.old }
    ensures bytes { Appends code.old.items code.new.items (piece_tree bus piece) }
    ensures most { length code.new.items ≤ length code.old.items + 58 }
    ensures capacity { vec_capacity code.new ≡ vec_capacity code.old }
    ensures cost { result ≡ cost_of (piece_tree bus piece) }
    ensures limit { result ≤ 400000 }
{
    let beat = Beat {
        size: beat_of(bus, piece),
        source_rises: !piece.fill,
    };
    push(code, ChipInsn::Mov(Reg::Sar, piece.src));
    push(code, ChipInsn::Mov(Reg::Dar, piece.dst));
    push_parts(code, beat, piece.len);
    2 + beats_cost(piece.len, beat.size)
}

// Appends the bursts that copy or fill `len` bytes, starting at the addresses in the registers.
#[tactic(auto, unfolding(crate::specs::Compiled::parts))]
fn push_parts(code: &mut Vec<u8>, beat: Beat, len: u32)
    requires len { len ≤ 2 ^ 20 }
    requires room { length code.old.items + 46 ≤ vec_capacity code.old }
    ensures bytes { Appends code.old.items code.new.items
        (parts (not beat.source_rises) beat.size len) }
    ensures most { length code.new.items ≤ length code.old.items + 46 }
    ensures capacity { vec_capacity code.new ≡ vec_capacity code.old }
{
    let bytes = beat.size.bytes();
    let whole = 16 * bytes;
    let left = len % whole;
    let tail = Beat {
        size: BeatSize::One,
        ..beat
    };
    push_whole_bursts(code, beat, len / whole);
    push_burst(code, beat, left / bytes);
    push_burst(code, tail, left % bytes);
}

// Appends `count` bursts of 16 beats under their control word, or nothing if `count` is 0.
#[tactic(auto, using(crate::proofs::PieceCode::where_some_there, crate::proofs::PieceCode::where_some_none))]
fn push_whole_bursts(code: &mut Vec<u8>, beat: Beat, count: u32)
    requires few { count ≤ 65536 }
    requires room { length code.old.items + 26 ≤ vec_capacity code.old }
    ensures bytes { Appends code.old.items code.new.items
        (where_some count (under (word_of beat 16) (bursts count))) }
    ensures most { length code.new.items ≤ length code.old.items + 26 }
    ensures capacity { vec_capacity code.new ≡ vec_capacity code.old }
{
    if count == 0 {
        return;
    }
    push(code, ChipInsn::Mov(Reg::Ccr, control_word(beat, 16)));
    push_bursts(code, count);
}

// Appends `count` bursts.
fn push_bursts(code: &mut Vec<u8>, count: u32)
    requires few { count ≤ 65536 }
    requires room { length code.old.items + 20 ≤ vec_capacity code.old }
    ensures bytes { Appends code.old.items code.new.items (bursts count) }
    ensures most { length code.new.items ≤ length code.old.items + 20 }
    ensures capacity { vec_capacity code.new ≡ vec_capacity code.old }
{
    push_nested_loop(code, (count / 256) as u16);
    push_rest(code, (count % 256) as u16);
}

// Appends nested loops of `rounds` times 256 bursts, or nothing if `rounds` is 0.
#[tactic(auto, using(crate::proofs::PieceCode::where_some_there, crate::proofs::PieceCode::where_some_none))]
fn push_nested_loop(code: &mut Vec<u8>, rounds: u16)
    requires rounds { rounds ≤ 256 }
    requires room { length code.old.items + 12 ≤ vec_capacity code.old }
    ensures bytes { Appends code.old.items code.new.items
        (where_some rounds (Repeat Counter.Lc0 rounds (Repeat Counter.Lc1 256 body))) }
    ensures most { length code.new.items ≤ length code.old.items + 12 }
    ensures capacity { vec_capacity code.new ≡ vec_capacity code.old }
{
    if rounds == 0 {
        return;
    }
    let times = Times::of_number(rounds);
    let counter = Counter::Lc0;
    push(code, ChipInsn::Lp { counter, times });
    push_loop(code, 256);
    push(code, ChipInsn::LpEnd { counter, back: 8 });
}

// Appends a loop of `rest` bursts, or nothing if `rest` is 0.
#[tactic(auto, using(crate::proofs::PieceCode::where_some_there, crate::proofs::PieceCode::where_some_none))]
fn push_rest(code: &mut Vec<u8>, rest: u16)
    requires few { rest ≤ 256 }
    requires room { length code.old.items + 8 ≤ vec_capacity code.old }
    ensures bytes { Appends code.old.items code.new.items
        (where_some rest (Repeat Counter.Lc1 rest body)) }
    ensures most { length code.new.items ≤ length code.old.items + 8 }
    ensures capacity { vec_capacity code.new ≡ vec_capacity code.old }
{
    if rest == 0 {
        return;
    }
    push_loop(code, rest);
}

// Appends a loop around one burst.
fn push_loop(code: &mut Vec<u8>, rounds: u16)
    requires low { 1 ≤ rounds }
    requires high { rounds ≤ 256 }
    requires room { length code.old.items + 8 ≤ vec_capacity code.old }
    ensures bytes { Appends code.old.items code.new.items
        (Repeat Counter.Lc1 rounds body) }
    ensures most { length code.new.items ≤ length code.old.items + 8 }
    ensures capacity { vec_capacity code.new ≡ vec_capacity code.old }
{
    let times = Times::of_number(rounds);
    let counter = Counter::Lc1;
    push(code, ChipInsn::Lp { counter, times });
    push_body(code);
    push(code, ChipInsn::LpEnd { counter, back: 4 });
}

// Appends one burst of this number of beats under its control word, or nothing if the number is 0.
#[tactic(auto, using(crate::proofs::PieceCode::where_some_there, crate::proofs::PieceCode::where_some_none))]
fn push_burst(code: &mut Vec<u8>, beat: Beat, beats: u32)
    requires few { beats ≤ 16 }
    requires room { length code.old.items + 10 ≤ vec_capacity code.old }
    ensures bytes { Appends code.old.items code.new.items
        (where_some beats (under (word_of beat beats) body)) }
    ensures most { length code.new.items ≤ length code.old.items + 10 }
    ensures capacity { vec_capacity code.new ≡ vec_capacity code.old }
{
    if beats == 0 {
        return;
    }
    push(code, ChipInsn::Mov(Reg::Ccr, control_word(beat, beats)));
    push_body(code);
}

// Appends the instructions that read and write one burst.
fn push_body(code: &mut Vec<u8>)
    requires room { length code.old.items + 4 ≤ vec_capacity code.old }
    ensures bytes { Appends code.old.items code.new.items body }
    ensures most { length code.new.items ≤ length code.old.items + 4 }
    ensures capacity { vec_capacity code.new ≡ vec_capacity code.old }
{
    push(code, ChipInsn::Ld);
    push(code, ChipInsn::Rmb);
    push(code, ChipInsn::St);
    push(code, ChipInsn::Wmb);
}

// Appends an instruction's bytes.
#[inline(always)]
fn push(code: &mut Vec<u8>, insn: ChipInsn)
    requires room { length code.old.items + length (spelling insn) ≤ vec_capacity code.old }
    ensures bytes { code.new.items ≡ code.old.items ++ spelling insn }
    ensures len { length code.new.items ≡ length code.old.items + length (spelling insn) }
    ensures capacity { vec_capacity code.new ≡ vec_capacity code.old }
{
    let mut bytes = [0; 6];
    let len = encode_chip(insn, &mut bytes);
    for byte in &bytes[..len] {
        code.push_reserved(*byte);
    }
}

// Returns whether beats of this size fit a bus and a piece.
fn beats_fit(bus: Bus, size: BeatSize, piece: Piece) -> bool
    ensures { result ≡ beats_fit bus (beat_bytes size) piece }
{
    let beat = size.bytes();
    beat <= bus.widest_beat() && piece.src % beat == 0 && piece.dst % beat == 0 && beat <= piece.len
}

// Returns the size of a piece's beats on a bus: one byte in a fill, else the largest size that fits.
#[tactic(auto, unfolding(crate::specs::Compiled::beat_of))]
fn beat_of(bus: Bus, piece: Piece) -> BeatSize
    ensures { result ≡ beat_of bus piece }
{
    if piece.fill {
        BeatSize::One
    } else if beats_fit(bus, BeatSize::Sixteen, piece) {
        BeatSize::Sixteen
    } else if beats_fit(bus, BeatSize::Eight, piece) {
        BeatSize::Eight
    } else if beats_fit(bus, BeatSize::Four, piece) {
        BeatSize::Four
    } else if beats_fit(bus, BeatSize::Two, piece) {
        BeatSize::Two
    } else {
        BeatSize::One
    }
}

// Returns the control word of bursts with this number of beats. The destination increments. The source increments
// unless the piece is a fill.
#[tactic(auto, using(crate::proofs::ControlWords::both_ends))]
fn control_word(beat: Beat, beats: u32) -> u32
    requires low { 1 ≤ beats }
    requires high { beats ≤ 16 }
    ensures { result ≡ word_of beat beats }
{
    let dst = BurstEnd {
        increments: true,
        size: beat.size,
        beats: Beats::of_number(beats as u8),
        protection: Attribute::of_code(0),
        cache: Attribute::of_code(0),
    };
    let src = BurstEnd {
        increments: beat.source_rises,
        ..dst
    };
    Control { src, dst }.bits()
}
