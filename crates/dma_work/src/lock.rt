//! Takes a lock that other workers take for each of their turns.

use std::hint::spin_loop;
use std::sync::atomic::AtomicU64;
use std::sync::{Mutex, MutexGuard, Wait};
use std::time::Duration;

// How often a worker looks at a lock that another thread has before it sleeps.
const LOOKS: u32 = 8;

// The pauses before each look.
const PAUSES: u32 = 8;

// How often it sleeps before it waits in the lock's own queue.
const SLEEPS: u32 = 16;

// The microseconds of its first sleep. Each of the next takes twice as long, up to `DOUBLINGS` times.
const SHORTEST: u64 = 50;

const DOUBLINGS: u32 = 4;

/// Takes a lock. A free one is taken without a wait.
pub(crate) fn locked<'a, D, R: Wait>(rt: &R, mutex: &'a Mutex<D>) -> MutexGuard<'a, D> {
    match mutex.try_lock() {
        Some(guard) => guard,
        None => locked_later(rt, mutex),
    }
}

// Takes a lock that another thread has. While this worker sleeps, nobody has to wake it, and the other takes many turns
// with the value in its processor's cache.
fn locked_later<'a, D, R: Wait>(rt: &R, mutex: &'a Mutex<D>) -> MutexGuard<'a, D> {
    for slept in 0..SLEEPS {
        if let Some(guard) = locked_soon(mutex) {
            return guard;
        }
        let time = Duration::from_micros(SHORTEST << slept.min(DOUBLINGS));
        AtomicU64::new(0).park_timeout(rt, 0, time);
    }
    mutex.lock(rt)
}

// Takes a lock that becomes free soon.
fn locked_soon<D>(mutex: &Mutex<D>) -> Option<MutexGuard<'_, D>> {
    for _ in 0..LOOKS {
        pause();
        if let Some(guard) = mutex.try_lock() {
            return Some(guard);
        }
    }
    None
}

fn pause() {
    for _ in 0..PAUSES {
        spin_loop();
    }
}
