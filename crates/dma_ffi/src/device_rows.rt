//! Several turns of a device that C keeps.

ghost use Rattle.std.specs.Prelude.{◌≡◌};
ghost use Rattle.dma_ffi.specs.DeviceSessions.{Called, ask_rows};
ghost use Rattle.dma_ffi.specs.Devices.{rows_report_of};

use crate::codes::{BAD_REGIONS, NOT_OPEN, OK, are_usable};
use crate::device_calls::{DeviceTurn, device_report};
use crate::kept_device::KeptDevice;
use dma_device::device::Device;
use dma_device::device::rows::RowTurns;
use dma_device::device::turns::Turn;
use dma_mem::regions::Region;

/// What several turns of a device's channel did. No byte outside their ranges has changed.
#[repr(C)]
#[derive(Clone, Copy)]
pub struct DeviceRows {
    /// What the first turn wrote, how many steps each turn took, whether a line has changed in one of them, and whether
    /// a channel can step after the last one.
    pub turn: DeviceTurn,
    /// The distance from the beginning of each turn's range to that of the next.
    pub pitch: u32,
    /// The number of turns, at least 1.
    pub count: u32,
    /// Each turn is what `dma330_device_step` does with this `most`.
    pub steps: u32,
}

// Returns the report of turns that left the device like this.
fn rows_report_of(turns: RowTurns, device: &Device) -> DeviceRows
    ensures { result ≡ rows_report_of turns device.now }
{
    let turn = Turn {
        written: turns.rows.first,
        taken: turns.taken,
        lines_changed: turns.lines_changed,
    };
    DeviceRows {
        turn: device_report(turn, device),
        pitch: turns.rows.pitch,
        count: turns.rows.count,
        steps: turns.rows.steps,
    }
}

/// Takes several turns of a channel over the regions, one for each row, where a loop copies the rows of a rectangle,
/// else one turn, and writes their report. Fails if the regions aren't usable.
#[unsafe(no_mangle)]
pub extern "C" fn dma330_device_step_rows(
    kept: &mut KeptDevice,
    channel: u8,
    most: u32,
    regions: &mut [Region<'_>],
    rows: &mut DeviceRows,
) -> i32
    ensures { Called (ask_rows channel most rows.old rows.new) result kept.old.device.value
        regions.old kept.new.device.value regions.new }
{
    let Some(device) = kept.get_mut() else {
        return NOT_OPEN;
    };
    if !are_usable(regions) {
        return BAD_REGIONS;
    }
    let taken = device.step_rows(channel, most, regions);
    *rows = rows_report_of(taken, device);
    OK
}
