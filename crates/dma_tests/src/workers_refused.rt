//! Workers that run out of memory before they begin, and then begin. `tests/test_refuse_calls` lets each allocation of
//! this test fail in turn; the row must be out of memory in some run.

use crate::workers::two_copies;
use dma_engine::Status;
use dma_work::{Job, NoGate};
use std::test::Fail;

// The jobs have more turns than they need: a refused step changes nothing, and is taken again in the next turn.
#[test]
fn workers_begin_when_asked_again(rt: HostRuntime) -> Result<(), Fail> {
    let first = Job::new(0, 0, 12).ok_or("no job")?;
    let second = Job::new(1, 1, 12).ok_or("no job")?;
    println!(rt; "row run_workers")?;
    let done = two_copies(&rt, rt.alloc(), [first, second], &NoGate)?;
    assert!(rt; done == (16, 2, Some(Status::Complete)));
    Ok(())
}
