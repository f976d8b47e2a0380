//! A copy of four bytes, step by step.

use dma_engine::{Engine, Status};
use dma_mem::segment::Segment;
use dma_mem::transfer::Transfer;
use std::alloc::Global;
use std::process::Abort;
use std::test::Fail;

#[test]
fn four_bytes_are_copied(rt: HostRuntime) -> Result<(), Fail> {
    let mut engine = Engine::new(rt.alloc(), 0x3000, 1)?;
    copies_four_bytes(&rt, rt.alloc(), &mut engine)
}

fn copies_four_bytes(rt: &impl Abort, alloc: Global, engine: &mut Engine) -> Result<(), Fail> {
    engine.write(0x1000, &[1, 2, 3, 4])?;
    let four = |addr: u32| Segment { addr, len: 4 };
    let copy = Transfer::new(alloc, &[four(0x1000)], &[four(0x2000)], None, None)?;
    let Ok(cookie) = engine.submit(0, copy) else {
        return Err(Fail::from("submit was refused"));
    };
    engine.issue(0)?;
    // the start, and the eight instructions of its program
    for _ in 0..9 {
        assert_eq!(rt; engine.status(0, cookie), Status::InProgress);
        engine.step(0)?;
    }
    assert!(rt; engine.status(0, cookie) == Status::Complete);
    assert!(rt; engine.read(0x2000, 4)?.as_slice() == [1, 2, 3, 4].as_slice());
    Ok(())
}
