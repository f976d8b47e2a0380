//! The object from which a history begins.

ghost use Rattle.std.specs.Prelude.{◌≡◌, ◌<◌, ◌≤◌, length, replicate, slice_index_or, IfOk, [], false};
ghost use Rattle.dma_engine.specs.Object.{empty_channel, opening, used};

use crate::fault::NoMemory;
use dma_mem::events::Events;
use dma_mem::marks::Marks;
use dma_mem::memory::Memory;
use dma_mem::transfer::Transfer;
use std::alloc::Global;
use std::marker::Model;

/// The state of a channel in a base, from which its history begins.
#[derive(Drop)]
pub struct BaseChannel {
    // how many cookies are finished
    pub(crate) forgotten: u32,
    // how many cookies are issued
    pub(crate) issued: u32,
    // whether a failure has halted the channel
    pub(crate) halted: bool,
    // the unfinished transfers, in the order of their cookies
    pub(crate) unfinished: Vec<Transfer>,
}

impl Model for BaseChannel {
    ghost use Rattle.std.specs.Prelude.{[], false};
    ghost use Rattle.dma_engine.specs.Object.{ChannelState};

    ghost Value = { ChannelState };

    ghost view = { λ c. record {
      forgotten = c.forgotten;
      submitted = c.unfinished.items;
      issued = c.issued;
      outcomes = [];
      passed = false;
      signalled = false;
      halted = c.halted;
    } };
}

/// The object from which a history begins. Without a stored image, its image is all zeros, so that an engine without a
/// checkpoint holds only one memory.
#[derive(Drop)]
pub struct Base {
    pub(crate) size: u32,
    pub(crate) image: Option<Memory>,
    pub(crate) events: Events,
    pub(crate) marks: Marks,
    pub(crate) channels: Vec<BaseChannel>,
}

impl Model for Base {
    ghost use Rattle.std.specs.Prelude.{replicate};
    ghost use Rattle.dma_engine.specs.Object.{Object};
    ghost use Rattle.dma_engine.specs.inner.Stored.{image_stored};

    ghost Value = { Object };

    ghost view = { λ b. record {
      image = image_stored b.image b.size;
      events = b.events;
      marks = b.marks;
      channels = b.channels.items;
    } };
}

impl Base {
    /// Returns the opening object of an engine with this size and number of channels.
    pub fn opening(alloc: Global, size: u32, channels: u8) -> Result<Base, NoMemory>
        ensures { IfOk result (λ base. base ≡ opening size channels) }
    {
        let channels = new_channels(alloc, channels)?;
        Ok(Base {
            size,
            image: None,
            events: Events::new(),
            marks: Marks::new(alloc),
            channels,
        })
    }

    /// Returns how many cookies a channel has given, or 0 if there is no such channel.
    pub fn used(&self, index: usize) -> u32
        requires { used (slice_index_or self.now.channels index empty_channel) ≤ u32.MAX }
        ensures { result ≡ used (slice_index_or self.now.channels index empty_channel) }
    {
        match self.channels.get(index) {
            Some(channel) => channel.forgotten + channel.unfinished.len() as u32,
            None => 0,
        }
    }

    /// Returns the unfinished transfers of a channel, in the order of their cookies.
    pub fn kept(&self, index: usize) -> &[Transfer]
        requires { index < length self.now.channels }
        ensures { result.now ≡ (slice_index_or self.now.channels index empty_channel).submitted }
    {
        self.channels[index].unfinished.as_slice()
    }
}

// Returns channels to which nothing was submitted.
fn new_channels(alloc: Global, count: u8) -> Result<Vec<BaseChannel>, NoMemory>
    ensures { IfOk result (λ channels. channels.items ≡ replicate count empty_channel) }
{
    let mut channels = Vec::new(alloc);
    for _n in 0..count {
        channels.push(BaseChannel {
            forgotten: 0,
            issued: 0,
            halted: false,
            unfinished: Vec::new(alloc),
        })?;
    }
    Ok(channels)
}
