//! The value that C keeps for a channel between calls.

ghost use Rattle.std.specs.Prelude.{◌≡◌, ◌↔◌, IsTrue, IsSome, Option};
ghost use Rattle.std.specs.Borrow.{sem};
ghost use Rattle.std.specs.Option.{option_map};
ghost use Rattle.dma_ffi.specs.declared.marked_channel.MarkedChannel.{MarkedChannel};
ghost use Rattle.dma_ffi.specs.contracts.marked_channel.MarkedChannel.{the_row};
ghost use Rattle.dma_ffi.specs.inner.Owned.{owned};

use crate::controller::sent;
use crate::kept::Kept;
use crate::marked_channel::MarkedChannel;
use std::marker::Model;

/// The pointer that owns a channel and its marks, or nothing, in the form of an
/// [`EnginePointer`](crate::controller::EnginePointer).
#[repr(C)]
pub struct ChannelPointer {
    at: *mut u8,
    pub ghost value: { Option MarkedChannel },
}

impl Model for ChannelPointer {
    ghost also_owns = { λ p. owned the_row p.at p.value };
}

// What the pointer owns doesn't depend on the thread.
unsafe impl Send for ChannelPointer {}

/// A channel and its marks, or none. C sets it to zeros, which mean no channel, before the first call, and doesn't read
/// or write it otherwise. It has no `Drop`, so the compiler rejects code that drops or overwrites it.
#[repr(C)]
pub struct KeptChannel {
    pub channel: ChannelPointer,
    is_open: bool,
    ghost holds: { IsTrue is_open ↔ IsSome channel.value },
}

impl KeptChannel {
    ghost use Rattle.dma_ffi.specs.inner.Lending.{LendsChannel, LendsKeptChannel, of_channel};

    /// Returns the channel as a [`Kept`], which has the same fields.
    pub fn as_kept(&mut self) -> &mut Kept<MarkedChannel>
        ensures* writes_back { sem 𝓛 (LendsKeptChannel self.entry result) }
        ensures value { result.now ≡ of_channel self.old }
    {
        unsafe { &mut *(self as *mut KeptChannel as *mut Kept<MarkedChannel>) }
    }

    /// Returns the channel, if any.
    pub fn get_mut(&mut self) -> Option<&mut MarkedChannel>
        ensures* writes_back { sem 𝓛 (LendsChannel self.entry result) }
        ensures value { option_map (λ r. r.now) result ≡ self.old.channel.value }
    {
        self.as_kept().get_mut()
    }
}

/// Returns the channel unchanged. It compiles only because a channel may be sent to another thread.
pub fn channel_goes_to_another_thread(channel: KeptChannel) -> KeptChannel
    ensures { result ≡ channel }
{
    sent(channel)
}
