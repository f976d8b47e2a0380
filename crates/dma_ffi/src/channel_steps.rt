//! Steps of channels that C keeps, and their reports.

ghost use Rattle.std.specs.Prelude.{◌≡◌, Some};
ghost use Rattle.dma_ffi.specs.Channels.{ReportsSteps, did, channel_report};

use crate::codes::{
    BAD_REGIONS, ENDED, FAULT, MOVED, NO_PROGRAM, NO_STEP, NOT_OPEN, OK, SIGNALLED, WAITING,
    are_usable, number_of_kind,
};
use crate::kept_channel::KeptChannel;
use dma_chan::lent::{Taken, step_regions};
use dma_chan::turn::ChanTurn;
use dma_insn::insn::Event;
use dma_mem::events::Events;
use dma_mem::regions::Region;
use dma_mem::segment::Segment;

/// The number of steps that were taken, and what the last one did.
#[repr(C)]
#[derive(Clone, Copy)]
pub struct ChannelReport {
    /// The number of steps that were taken, including the last one.
    pub taken: u32,
    /// The number of what the last one did, `NO_STEP` if none was taken. `event` and `fault` are 0 except for what
    /// they name.
    pub last: u32,
    /// The event, for `WAITING` and `SIGNALLED`.
    pub event: u32,
    /// The number of the fault, for `FAULT`.
    pub fault: u32,
    /// The offset of the next instruction in the program. For `WAITING` and `FAULT` it is the instruction that waits or
    /// failed.
    pub pc: u32,
    /// The range that the steps wrote; its length is 0 if they wrote nothing. Each byte in it was written, and no other
    /// byte of the regions was.
    pub written: Segment,
}

// Returns the report of `taken` steps with this offset and written range, the last of which did this, and 0 as event and
// fault.
fn did(taken: u32, pc: u32, written: Segment, last: u32) -> ChannelReport
    ensures { result ≡ did taken pc written last }
{
    ChannelReport {
        taken,
        last,
        event: 0,
        fault: 0,
        pc,
        written,
    }
}

// Returns the report of these steps, where `pc` is the offset of the next instruction.
fn channel_report(steps: Taken, pc: u32) -> ChannelReport
    ensures { result ≡ channel_report steps.count pc steps.written steps.last steps.signal }
{
    let Taken {
        count: taken,
        last,
        signal,
        written,
    } = steps;
    match last {
        None => did(taken, pc, written, NO_STEP),
        Some(turn) => report_of_turn(taken, pc, written, turn, signal),
    }
}

// Returns the report of `taken` steps, the last of which did `turn`, and signalled this event, if any.
fn report_of_turn(
    taken: u32,
    pc: u32,
    written: Segment,
    turn: ChanTurn,
    signal: Option<Event>,
) -> ChannelReport
    ensures { result ≡ channel_report taken pc written (Some turn) signal }
{
    match turn {
        ChanTurn::Moved => match signal {
            None => did(taken, pc, written, MOVED),
            Some(event) => ChannelReport {
                event: u32::from(event.number()),
                ..did(taken, pc, written, SIGNALLED)
            },
        },
        ChanTurn::Waiting(event) => ChannelReport {
            event: u32::from(event.number()),
            ..did(taken, pc, written, WAITING)
        },
        ChanTurn::Ended => did(taken, pc, written, ENDED),
        ChanTurn::Fault(kind) => ChannelReport {
            fault: number_of_kind(kind),
            ..did(taken, pc, written, FAULT)
        },
    }
}

/// Takes at most `most` steps over the regions and the flags, and writes their report. It stops after the first step
/// that doesn't move or that sets a flag, before a step that writes neither in the range written so far nor beside it,
/// and when the channel has executed 4,294,967,295 instructions since the load. The channel keeps no pointer to the
/// regions and the flags. Fails if the channel isn't open, the regions aren't usable, or the channel has no program.
#[unsafe(no_mangle)]
pub extern "C" fn dma330_channel_step(
    kept: &mut KeptChannel,
    regions: &mut [Region<'_>],
    flags: &mut u32,
    most: u32,
    report: &mut ChannelReport,
) -> i32
    ensures { ReportsSteps
        (record { channel = kept.old.channel.value; regions = regions.old; flags = flags.old })
        most result report.old report.new
        (record { channel = kept.new.channel.value; regions = regions.new; flags = flags.new }) }
{
    let Some(marked) = kept.get_mut() else {
        return NOT_OPEN;
    };
    if !are_usable(regions) {
        return BAD_REGIONS;
    }
    if !marked.channel.is_loaded() {
        return NO_PROGRAM;
    }
    let mut events = Events::from_bits(*flags);
    let taken = step_regions(
        &mut marked.channel,
        regions,
        &mut events,
        &marked.marks,
        most,
    );
    *flags = events.bits();
    *report = channel_report(taken, marked.channel.pc());
    OK
}
