//! Copies of four bytes, for other tests.

use dma_engine::Engine;
use dma_mem::segment::Segment;
use dma_mem::transfer::{Transfer, TransferFault};
use std::alloc::Global;
use std::test::Fail;

pub fn four(addr: u32) -> Segment {
    Segment { addr, len: 4 }
}

pub fn copy(alloc: Global, src: u32, dst: u32) -> Result<Transfer, TransferFault> {
    Transfer::new(alloc, &[four(src)], &[four(dst)], None, None)
}

/// Submits a transfer to a channel, and issues it.
pub fn issue(engine: &mut Engine, ch: u8, transfer: Transfer) -> Result<(), Fail> {
    let Ok(_) = engine.submit(ch, transfer) else {
        return Err(Fail::from("submit was refused"));
    };
    engine.issue(ch)?;
    Ok(())
}
