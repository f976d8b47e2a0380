//! How many instructions compiled programs execute.

ghost use Rattle.std.specs.Prelude.{ℕ, Bool, ◌≡◌, ◌+◌, ◌≤◌, ◌<◌, ◌^◌};
ghost use Rattle.dma_insn.specs.declared.control.BeatSize.{BeatSize};
ghost use Rattle.dma_insn.specs.ControlWord.{beat_bytes};
ghost use Rattle.dma_chan.specs.inner.Compiling.{cost_of};
ghost use Rattle.dma_chan.specs.Compiled.{where_some, body, bursts, under, parts, piece_tree, wait_tree, signal_tree, cost_on};

use crate::bus::Bus;
use crate::compile::beat_of;
use crate::pieces::{Piece, Pieces};
use dma_insn::control::BeatSize;
use dma_mem::transfer::Transfer;

// How many instructions a round of the outer of two loops executes: the DMALP of the inner loop, 5 for each of its 256
// bursts, and the DMALPEND of the outer loop.
const PER_ROUND: u32 = 1282;

// Returns how many instructions a transfer's program for a bus executes.
#[tactic(auto, using(crate::proofs::TreeCosts::cost_of_tree, crate::proofs::TreeCosts::cost_counted, crate::proofs::TreeCosts::cost_below))]
pub(super) fn cost_on(bus: Bus, transfer: &Transfer) -> u32
    ensures value { result ≡ cost_on bus transfer.now }
    ensures limit { result < 2 ^ 19 }
{
    let mut pieces = Pieces::of(transfer);
    let mut cost = events_cost(transfer);
    while let Some(piece) = pieces.next() {
        cost += piece_cost(bus, piece);
    }
    cost
}

// Returns how many instructions a transfer's wait, signal and end execute.
pub(super) fn events_cost(transfer: &Transfer) -> u32
    ensures value { let t = transfer.now in
        result ≡ cost_of (wait_tree t.wait) + cost_of (signal_tree t.signal) + 1 }
    ensures limit { result ≤ 3 }
{
    event_cost(transfer.wait()) + event_cost(transfer.signal()) + 1
}

// Returns how many instructions a wait or a signal executes: 1, or 0 if the transfer has none.
#[tactic(auto, using(crate::proofs::TreeCosts::cost_counted))]
fn event_cost(event: Option<u8>) -> u32
    ensures wait { result ≡ cost_of (wait_tree event) }
    ensures signal { result ≡ cost_of (signal_tree event) }
    ensures limit { result ≤ 1 }
{
    match event {
        Some(_) => 1,
        None => 0,
    }
}

// Returns how many instructions a piece's code executes.
#[tactic(auto, using(crate::proofs::TreeCosts::piece_counts))]
fn piece_cost(bus: Bus, piece: Piece) -> u32
    requires { piece.len ≤ 2 ^ 20 }
    ensures value { result ≡ cost_of (piece_tree bus piece) }
    ensures limit { result ≤ 400000 }
{
    2 + beats_cost(piece.len, beat_of(bus, piece))
}

// Returns how many instructions the bursts of `len` bytes execute, with beats of this size. Each arm divides by
// constants.
pub(super) fn beats_cost(len: u32, beat: BeatSize) -> u32
    requires { len ≤ 2 ^ 20 }
    ensures value { (fill : Bool) → result ≡ cost_of (parts fill beat len) }
    ensures limit { result ≤ 390010 }
{
    match beat {
        BeatSize::One => parts_cost(len, 1),
        BeatSize::Two => parts_cost(len, 2),
        BeatSize::Four => parts_cost(len, 4),
        BeatSize::Eight => parts_cost(len, 8),
        BeatSize::Sixteen => parts_cost(len, 16),
    }
}

// Returns how many instructions the bursts of `len` bytes execute, with beats of `beat` bytes.
#[tactic(auto, unfolding(crate::specs::Compiled::parts), using(crate::proofs::TreeCosts::cost_counted))]
fn parts_cost(len: u32, beat: u32) -> u32
    requires len { len ≤ 2 ^ 20 }
    requires low { 1 ≤ beat }
    requires high { beat ≤ 16 }
    ensures value { (fill : Bool) (size : BeatSize) → beat_bytes size ≡ beat →
        result ≡ cost_of (parts fill size len) }
    ensures limit { result ≤ 390010 }
{
    let whole = 16 * beat;
    let left = len % whole;
    whole_bursts_cost(len / whole) + burst_cost(left / beat) + burst_cost(left % beat)
}

// Returns how many instructions `count` bursts of 16 beats execute, including their control word: 0 if there are none.
#[tactic(auto, using(crate::proofs::TreeCosts::cost_counted))]
fn whole_bursts_cost(count: u32) -> u32
    requires { count ≤ 65536 }
    ensures value { (w : ℕ) → result ≡ cost_of (where_some count (under w (bursts count))) }
    ensures limit { result ≤ 390000 }
{
    if count == 0 {
        return 0;
    }
    let rounds = count / 256;
    let rest = count % 256;
    let nested = if rounds == 0 {
        0
    } else {
        1 + rounds * PER_ROUND
    };
    let single = if rest == 0 { 0 } else { 1 + rest * 5 };
    1 + nested + single
}

// Returns how many instructions one burst executes, including its control word: 0 if it has no beats.
#[tactic(auto, using(crate::proofs::TreeCosts::cost_counted))]
fn burst_cost(beats: u32) -> u32
    ensures value { (w : ℕ) → result ≡ cost_of (where_some beats (under w body)) }
    ensures limit { result ≤ 5 }
{
    if beats == 0 { 0 } else { 5 }
}
