//! Saves a channel, and restores it.

ghost use Rattle.std.specs.Prelude.{◌≡◌, ◌≤◌, ◌++◌, length, drop, nat_le, is_some, IsNone, IfSome, IsOk, OnOk, OnErr};
ghost use Rattle.dma_chan.specs.Channel.{ChannelValue, on_bus};
ghost use Rattle.dma_chan.specs.Exec.{buffer_size};
ghost use Rattle.dma_chan.specs.Saved.{head_of, most_saved, saved, IsChannelValue};

use crate::bursts::BUFFER_SIZE;
use crate::bus::Bus;
use crate::channel::Channel;
use crate::save::head::Head;
use crate::save::{RestoreFault, SaveBytes, write};

impl Channel {
    /// Writes the channel's save to the front of `out`, and returns its length in bytes, at most
    /// [`MAX_SAVE`](crate::save::MAX_SAVE). If `out` is shorter, it returns `None` and writes nothing.
    pub fn save(&self, out: &mut [u8]) -> Option<usize>
        ensures bytes { IfSome result (λ n. out.new ≡ saved self.now ++ drop n out.old) }
        ensures len { IfSome result (λ n. n ≡ length (saved self.now)) }
        ensures limit { length (saved self.now) ≤ most_saved }
        ensures room { is_some result ≡ nat_le (length (saved self.now)) (length out.old) }
        ensures unchanged { IsNone result → out.new ≡ out.old }
        ensures channel { IsChannelValue self.now }
    {
        let bytes = self.saved_bytes();
        let len = bytes.len();
        if out.len() < len {
            return None;
        }
        out[..len].copy_from_slice(bytes.as_slice());
        Some(len)
    }

    /// Returns the length of the channel's save in bytes.
    pub fn save_len(&self) -> usize
        ensures len { result ≡ length (saved self.now) }
        ensures limit { length (saved self.now) ≤ most_saved }
        ensures channel { IsChannelValue self.now }
    {
        self.saved_bytes().len()
    }

    /// Replaces the channel with the saved one, on this bus, since a save has no bus. The error is `BadSave` if the
    /// bytes aren't the save of any channel. Then nothing changes.
    pub fn restore(&mut self, save: &[u8], bus: Bus) -> Result<(), RestoreFault>
        // The bytes are the save of the restored channel, which satisfies what every channel does.
        ensures ok { OnOk result (save.now ≡ saved self.new) }
        ensures channel { OnOk result (IsChannelValue self.new) }
        ensures bus { OnOk result (self.new.registers.bus ≡ bus) }
        // The save of any channel restores that channel.
        ensures all { (c : ChannelValue) → IsChannelValue c → save.now ≡ saved c
            → IsOk result × (self.new ≡ on_bus bus c) }
        ensures unchanged { OnErr result (self.new ≡ self.old) }
    {
        let Some(head) = Head::of_save(save, bus) else {
            return Err(RestoreFault::BadSave);
        };
        if head.is_loaded {
            self.program.load(head.program_of(save), head.cost);
        } else {
            self.program.unload();
        }
        self.executor.registers = head.registers;
        self.executor.buffer.clear();
        self.executor.buffer.fill_from_slice(head.buffer_of(save));
        self.taken = head.taken;
        self.stored = head.stored;
        Ok(())
    }

    // Returns the head of the channel's save.
    fn head(&self) -> Head
        ensures head { result ≡ head_of self.now }
        ensures buffer { length self.now.buffer ≤ buffer_size }
    {
        Head {
            registers: self.executor.registers,
            taken: self.taken,
            stored: self.stored,
            is_loaded: self.program.is_loaded(),
            cost: self.program.cost(),
            buffer_len: self.executor.buffer.len() as u16,
            program_len: self.program.bytes().len() as u16,
        }
    }

    // Returns the channel's save.
    fn saved_bytes(&self) -> SaveBytes
        ensures bytes { result.items ≡ saved self.now }
        ensures channel { IsChannelValue self.now }
    {
        let head = self.head();
        let mut block = [0; BUFFER_SIZE];
        let bytes = &mut block[..self.executor.buffer.len()];
        self.executor.buffer.copy_to(bytes);
        write(&head, bytes, self.program.bytes())
    }
}
