//! Gates, which workers pass before their turns.

use std::sync::Wait;

/// A gate, which a worker passes before each of its turns, without the lock. It may wait. Contracts see that a worker
/// has passed it before its turn `n` as `passes worker n`.
pub trait Gate: Sync {
    ghost use Rattle.std.specs.Prelude.{ℕ};

    ghost passes: { ℕ → ℕ → Type 0 };

    /// Called when worker `worker` is about to take its turn `n`, the first of which is 1.
    fn turn<R: Wait>(&self, rt: &R, worker: u32, n: u64)
        ensures { passes worker n };
}

/// A gate that never waits.
#[derive(Clone, Copy)]
pub struct NoGate;

impl Gate for NoGate {
    ghost passes = { λ worker n. Unit {0} };

    /// Returns at once.
    fn turn<R: Wait>(&self, _rt: &R, _worker: u32, _n: u64) {}
}
