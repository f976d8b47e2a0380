//! The calls that write the program of a transfer.

ghost use Rattle.std.specs.Prelude.{◌≡◌};
ghost use Rattle.dma_mem.specs.Places.{copying, filling};
ghost use Rattle.dma_ffi.specs.Codes.{event_of};
ghost use Rattle.dma_ffi.specs.Explaining.{any_bus};
ghost use Rattle.dma_ffi.specs.Programs.{PlansTransfer};
ghost use Rattle.dma_ffi.specs.inner.Plans.{PlansMade};

use crate::codes::{BAD_CONFIG, NO_MEMORY, code_of_transfer, event_of};
use crate::device_config::any_bus;
use crate::programs::copy_out;
use dma_chan::bus::Bus;
use dma_chan::compile::compile_on;
use dma_mem::segment::Segment;
use dma_mem::transfer::{Transfer, TransferFault};
use std::alloc::Global;

// Writes the program of a transfer that was made, or returns the code of the fault for which none was made.
fn plan(
    alloc: Global,
    made: Result<Transfer, TransferFault>,
    bus: Bus,
    out: &mut [u8],
    len: &mut usize,
) -> i32
    ensures { PlansMade made bus result out.old out.new len.old len.new }
{
    match made {
        Ok(transfer) => match compile_on(alloc, bus, &transfer) {
            Ok(program) => copy_out(program.bytes(), out, len),
            Err(_) => NO_MEMORY,
        },
        Err(fault) => code_of_transfer(fault),
    }
}

/// Writes the program of a copy for the ideal bus or a chip's to `out`, and the program's length to `len`. A negative
/// `wait` or `signal` is no event. Fails if no bus has this number, with the first rule that the copy breaks, if out of
/// memory, or if `out` is too small.
#[unsafe(no_mangle)]
pub extern "C" fn dma330_plan(
    alloc: Global,
    src: &[Segment],
    dst: &[Segment],
    wait: i32,
    signal: i32,
    bus: u32,
    out: &mut [u8],
    len: &mut usize,
) -> i32
    ensures { PlansTransfer (copying src.now dst.now (event_of wait) (event_of signal))
        (any_bus bus) result out.old out.new len.old len.new }
{
    let Some(bus) = any_bus(bus) else {
        return BAD_CONFIG;
    };
    let made = Transfer::new(alloc, src, dst, event_of(wait), event_of(signal));
    plan(alloc, made, bus, out, len)
}

/// Writes the program of a fill with the byte at `src` for the ideal bus or a chip's to `out`, and the program's length
/// to `len`. A negative `wait` or `signal` is no event. Fails if no bus has this number, with the first rule that the
/// fill breaks, if out of memory, or if `out` is too small.
#[unsafe(no_mangle)]
pub extern "C" fn dma330_plan_fill(
    alloc: Global,
    src: u32,
    dst: &[Segment],
    wait: i32,
    signal: i32,
    bus: u32,
    out: &mut [u8],
    len: &mut usize,
) -> i32
    ensures { PlansTransfer (filling src dst.now (event_of wait) (event_of signal))
        (any_bus bus) result out.old out.new len.old len.new }
{
    let Some(bus) = any_bus(bus) else {
        return BAD_CONFIG;
    };
    let made = Transfer::fill(alloc, src, dst, event_of(wait), event_of(signal));
    plan(alloc, made, bus, out, len)
}
