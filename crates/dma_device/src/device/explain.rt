//! The channels of a device, and what their programs copy and set to 0.

ghost use Rattle.std.specs.Option.{option_copied};
ghost use Rattle.std.specs.Prelude.{◌≡◌, ◌-◌, IfErr, IfOk, slice_get};
ghost use Rattle.dma_explain.specs.Explains.{bursts_in};
ghost use Rattle.dma_explain.specs.Late.{late_in};
ghost use Rattle.dma_device.specs.Explaining.{FailsFor, FindsFor, IsLoadedAnd, channel_of};

use crate::device::Device;
use crate::thread::Thread;
use dma_chan::channel::Channel;
use dma_explain::explain::{Explained, Unexplained, explain};
use std::alloc::Global;

/// Why a device can't explain a channel's program.
#[derive(Clone, Copy, PartialEq, Eq)]
pub enum ExplainFault {
    /// The device doesn't have the channel.
    NoChannel,
    /// The channel has no program.
    NoProgram,
    /// Nothing explains the program, or memory ran out.
    Unexplained(Unexplained),
}

impl Device {
    /// Returns the thread of channel `n`, or `None` if the device doesn't have it. The registers and counts that it
    /// shows say how far its program has got (`laws::a_dmago_is_underway`, `a_fault_shows_what_was_before`).
    pub fn thread(&self, n: u8) -> Option<&Thread>
        ensures { option_copied result ≡ slice_get self.now.threads n }
    {
        let Some(thread) = self.threads.get(usize::from(n)) else {
            return None;
        };
        Some(thread)
    }

    // Returns channel `n`, or `None` if the device doesn't have it.
    fn channel(&self, n: u8) -> Option<&Channel>
        ensures { option_copied result ≡ channel_of self.now n }
    {
        let Some(thread) = self.threads.get(usize::from(n)) else {
            return None;
        };
        Some(&thread.channel)
    }

    /// Returns what the program of channel `n` copies and sets to 0 from its start, if it begins with the registers
    /// that the channel has now, or why nothing explains it with at most `most` instructions. A DMAGO has copied the
    /// program, so what the guest writes to RAM later doesn't change the answer. Until the channel gets another
    /// program, its turns read and write nothing else (`laws::turns_stay_in`). This needs a channel that a DMAGO
    /// started and that has had no turn yet: its turns change the registers, so that a program which leaves out a
    /// DMAMOV has another answer then, and a channel from a save that isn't trusted may have any registers. An event
    /// that the device doesn't have is no reason to refuse a program: its DMAWFE or DMASEV fails.
    pub fn explain(&self, alloc: Global, n: u8, most: u32) -> Result<Explained, ExplainFault>
        ensures ok { IfOk result (λ x. FindsFor self.now n most x) }
        ensures bursts { IfOk result (λ x. IsLoadedAnd self.now n
            (λ start program. x.bursts ≡ bursts_in start program (x.steps - 1))) }
        ensures late { IfOk result (λ x. IsLoadedAnd self.now n
            (λ start program. x.late ≡ late_in start program (x.steps - 1))) }
        ensures err { IfErr result (λ fault. FailsFor self.now n most fault) }
    {
        let Some(channel) = self.channel(n) else {
            return Err(ExplainFault::NoChannel);
        };
        if !channel.is_loaded() {
            return Err(ExplainFault::NoProgram);
        }
        match explain(alloc, channel.registers(), channel.program(), most) {
            Ok(explained) => Ok(explained),
            Err(unexplained) => Err(ExplainFault::Unexplained(unexplained)),
        }
    }
}
