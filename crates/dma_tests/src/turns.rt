//! The turns of a job, taken by a stepper that records the channels and checks the gate before each turn.

use dma_work::{Gate, Job, Stepper, take_turns};
use std::sync::Wait;
use std::sync::atomic::{AtomicU64, Ordering};
use std::test::Fail;

const WORKER: u32 = 5;

// A gate for one worker.
#[derive(Drop)]
struct Counted {
    // the number of the last turn that passed, or 2^64 - 1 after a turn out of order or of another worker
    passed: AtomicU64,
}

impl Counted {
    fn passed(&self) -> u64 {
        self.passed.load(Ordering::SeqCst)
    }
}

impl Gate for Counted {
    ghost passes = { λ worker n. Unit {0} };

    fn turn<R: Wait>(&self, _rt: &R, worker: u32, n: u64) {
        let is_next = worker == WORKER && self.passed().wrapping_add(1) == n;
        let passed = if is_next { n } else { u64::MAX };
        self.passed.store(passed, Ordering::SeqCst);
    }
}

// Records the channels of its first eight turns, and whether the gate let exactly that turn pass before each turn.
#[derive(Drop)]
struct Noted<'a> {
    gate: &'a Counted,
    is_gated: bool,
    channels: [u8; 8],
    taken: u64,
}

impl Stepper<Counted> for Noted<'_> {
    ghost use Rattle.std.specs.Prelude.{◌≡◌, ◌+◌};

    ghost worker = { λ s. 5 };

    ghost taken = { λ s. s.taken };

    ghost acts = { λ s ch t. t.taken ≡ s.taken + 1 };

    fn worker(&self) -> u32 {
        WORKER
    }

    fn taken(&self) -> u64 {
        self.taken
    }

    fn turn<R: Wait>(&mut self, _rt: &R, ch: u8) {
        if self.taken < 8 {
            self.channels[self.taken as usize] = ch;
        }
        self.taken += 1;
        self.is_gated &= self.gate.passed() == self.taken;
    }
}

#[test]
fn channels_come_in_rotation(rt: HostRuntime) -> Result<(), Fail> {
    let rows: [(u8, u8, u64, [u8; 8]); 4] = [
        (1, 3, 7, [1, 2, 3, 1, 2, 3, 1, 0]),
        (6, 7, 3, [6, 7, 6, 0, 0, 0, 0, 0]),
        (4, 4, 2, [4, 4, 0, 0, 0, 0, 0, 0]),
        (0, 7, 8, [0, 1, 2, 3, 4, 5, 6, 7]),
    ];
    for (first, last, turns, channels) in rows {
        let job = Job::new(first, last, turns).ok_or("no job")?;
        let gate = Counted {
            passed: AtomicU64::new(0),
        };
        let mut noted = Noted {
            gate: &gate,
            is_gated: true,
            channels: [0; 8],
            taken: 0,
        };
        take_turns(&rt, &mut noted, job, &gate);
        assert!(rt; (noted.channels, noted.taken) == (channels, turns));
        assert!(rt; noted.is_gated && gate.passed() == turns);
    }
    Ok(())
}
