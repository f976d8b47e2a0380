//! The transfers of cookies, and whether a front has signalled.

ghost use Rattle.std.specs.Prelude.{◌≡◌};
ghost use Rattle.std.specs.Option.{option_map};
ghost use Rattle.dma_engine.specs.Cookies.{transfer_of};
ghost use Rattle.dma_engine.specs.Object.{channel};
ghost use Rattle.dma_engine.specs.View.{object_of};

use crate::engine::Engine;
use dma_insn::chip::ChipInsn;
use dma_mem::transfer::Transfer;

impl Engine {
    /// Returns the transfer of a cookie. It is `Some` exactly if the cookie was given and isn't forgotten.
    pub fn transfer_of(&self, ch: u8, cookie: u32) -> Option<&Transfer>
        ensures { option_map (λ t. t.now) result
            ≡ transfer_of (object_of self.now.view) ch cookie }
    {
        let forgotten = self.forgotten(ch);
        if cookie <= forgotten || cookie > self.used(ch) {
            return None;
        }
        let place = cookie - forgotten - 1;
        Some(self.transfer(usize::from(ch), place as usize))
    }

    /// Returns whether the front of a channel runs and has signalled its event.
    pub fn signalled(&self, ch: u8) -> bool
        ensures { result ≡ (channel (object_of self.now.view) ch).signalled }
    {
        let index = usize::from(ch);
        if index >= self.queues.len() {
            return false;
        }
        let queue = &self.queues[index];
        if !queue.channel.is_loaded() {
            return false;
        }
        let Ok(next) = queue.channel.next() else {
            unreachable!();
        };
        let ChipInsn::End = next.insn() else {
            return false;
        };
        // A front that signals does it right before its end.
        match self.front(index) {
            Some((transfer, _)) => transfer.signal().is_some(),
            None => false,
        }
    }
}
