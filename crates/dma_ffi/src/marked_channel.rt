//! A channel and its marks.

use dma_chan::channel::Channel;
use dma_mem::marks::Marks;

/// A channel and the ranges at which its bursts fail.
#[derive(Drop)]
pub struct MarkedChannel {
    pub channel: Channel,
    pub marks: Marks,
}
