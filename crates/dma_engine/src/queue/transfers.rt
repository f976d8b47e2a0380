//! The transfers of a queue's cookies.

ghost use Rattle.std.specs.Prelude.{◌≡◌, ◌+◌, ◌-◌, ◌<◌, ◌≤◌, ◌++◌, length, drop, unwrap_or};
ghost use Rattle.std.specs.Option.{option_map};
ghost use Rattle.dma_mem.specs.Places.{size_of};
ghost use Rattle.dma_engine.specs.Object.{aborted, no_transfer};
ghost use Rattle.dma_engine.specs.inner.Found.{transfer_at, transfers_in};

use crate::entry::Entry;
use crate::outcome::{Outcome, TransResult};
use crate::spare_vec::SpareVec;
use dma_mem::transfer::Transfer;

// Returns the transfer of a cookie, counted from 0 after the forgotten ones. Those of the base come first, then those
// that the history gives.
pub(super) fn transfer_at<'a>(
    kept: &'a [Transfer],
    history: &'a [Entry],
    indices: &SpareVec<usize>,
    n: usize,
) -> Option<&'a Transfer>
    requires { n < length kept.now + length indices.now.items }
    ensures { option_map (λ t. t.now) result
        ≡ transfer_at kept.now history.now indices.now.items n }
{
    if n < kept.len() {
        return kept.get(n);
    }
    match history.get(indices.as_slice()[n - kept.len()]) {
        Some(Entry::Submitted { transfer, .. }) => Some(transfer),
        _ => None,
    }
}

// Returns how many bytes the transfer of `transfer_at` has, or 0 if there is none.
fn size_at(kept: &[Transfer], history: &[Entry], indices: &SpareVec<usize>, n: usize) -> u32
    requires { n < length kept.now + length indices.now.items }
    ensures { result
        ≡ size_of (unwrap_or (transfer_at kept.now history.now indices.now.items n) no_transfer) }
{
    match transfer_at(kept, history, indices, n) {
        Some(transfer) => transfer.len(),
        None => 0,
    }
}

// Adds the outcomes of all cookies that have none, as aborted, with `done` bytes of the first one stored.
pub(super) fn abort_all(
    kept: &[Transfer],
    history: &[Entry],
    indices: &SpareVec<usize>,
    outcomes: &mut SpareVec<Outcome>,
    done: u32,
)
    requires few { length kept.now + length indices.now.items ≤ u32.MAX }
    requires room { length kept.now + length indices.now.items - length outcomes.old.items
        ≤ outcomes.old.spare }
    ensures { outcomes.new.items ≡ outcomes.old.items ++ aborted done
        (drop (length outcomes.old.items) (transfers_in kept.now history.now indices.now.items)) }
{
    let first = outcomes.len();
    let later = indices.len();
    let known = kept.len() + later;
    for n in first..known {
        let stored = if n == first { done } else { 0 };
        let residue = size_at(kept, history, indices, n).saturating_sub(stored);
        outcomes.add(Outcome {
            result: TransResult::Aborted,
            residue,
        });
    }
}
