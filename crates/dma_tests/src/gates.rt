//! A gate that holds a worker in its turn until the other worker has entered the turn after it. Workers that run one
//! after another never meet there.

ghost use Rattle.std.specs.Prelude.{◌<◌};

use crate::workers::two_copies;
use dma_engine::Status;
use dma_work::{Gate, Job};
use std::sync::{Mutex, Wait};
use std::test::Fail;

// The most times that a held worker looks for the other one.
const MOST_LOOKS: u64 = 20_000_000;

// The last turn in which a worker is held.
const LAST_HELD: u64 = 7;

// Holds worker 0 in its turn 1 until worker 1 has entered its turn 2, worker 1 in its turn 3 until worker 0 has entered
// its turn 4, and so on.
#[derive(Drop)]
struct Ahead {
    // the turn that each of two workers has entered last
    entered: Mutex<[u64; 2]>,
    // in how many turns a held worker has seen the other one come
    met: Mutex<u64>,
}

impl Ahead {
    // Returns whether the other worker enters a turn after this one.
    fn comes<R: Wait>(&self, rt: &R, other: usize, n: u64) -> bool
        requires { other < 2 }
    {
        for _ in 0..MOST_LOOKS {
            if self.entered.lock(rt)[other] > n {
                return true;
            }
        }
        false
    }
}

impl Gate for Ahead {
    ghost passes = { λ worker n. Unit {0} };

    fn turn<R: Wait>(&self, rt: &R, worker: u32, n: u64) {
        if worker > 1 {
            return;
        }
        let me = worker as usize;
        self.entered.lock(rt)[me] = n;
        let is_held = n <= LAST_HELD && n % 4 == 1 + 2 * u64::from(worker);
        if is_held && self.comes(rt, 1 - me, n) {
            let mut met = self.met.lock(rt);
            *met = met.saturating_add(1);
        }
    }
}

#[test]
fn each_worker_waits_for_the_other(rt: HostRuntime) -> Result<(), Fail> {
    let first = Job::new(0, 0, 9).ok_or("no job")?;
    let second = Job::new(1, 1, 9).ok_or("no job")?;
    let gate = Ahead {
        entered: Mutex::new([0; 2]),
        met: Mutex::new(0),
    };
    let done = two_copies(&rt, rt.alloc(), [first, second], &gate)?;
    assert!(rt; done == (16, 2, Some(Status::Complete)));
    let Ahead { entered, met } = gate;
    assert!(rt; entered.into_inner() == [9, 9]);
    assert!(rt; met.into_inner() == 4);
    Ok(())
}
