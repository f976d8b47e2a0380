//! The threads of a save, one after another.

ghost use Rattle.std.specs.Prelude.{◌≡◌, ◌↔◌, ◌+◌, ◌*◌, ◌^◌, ◌<◌, ◌≤◌, ◌++◌, ℕ, IsTrue, List, Some, IfSome, true, length, drop, take};
ghost use Rattle.std.specs.List.{All, flat_map};
ghost use Rattle.arrayvec.specs.ArrayVec.{array_vec_len};
ghost use Rattle.dma_mem.specs.Limits.{most_channels};
ghost use Rattle.dma_device.specs.Snapshot.{IsThreadValue, saved_thread, thread_bytes};
ghost use Rattle.dma_device.specs.Thread.{IsOn, IsSound};
ghost use Rattle.dma_device.specs.declared.thread.Thread.{Thread};

use crate::config::{BusWidth, Config};
use crate::save::{HeadBytes, THREAD_LEN, push, u32_at};
use crate::thread::{Status, Thread};
use arrayvec::ArrayVec;
use dma_chan::bus::Bus;

impl Thread {
    // Returns what is saved of the thread beside its channel, whose save has this length.
    #[tactic(auto, unfolding(crate::specs::Snapshot::thread_bytes))]
    fn head_bytes(&self, len: u32) -> HeadBytes
        ensures bytes { result.items ≡ thread_bytes self.now len }
        ensures len { array_vec_len result ≡ 20 }
    {
        let mut out = ArrayVec::new();
        push(&mut out, &self.csr().to_le_bytes());
        push(&mut out, &self.fault.to_le_bytes());
        push(&mut out, &self.base.to_le_bytes());
        push(&mut out, &self.pc.to_le_bytes());
        push(&mut out, &len.to_le_bytes());
        out
    }

    // Returns the length of the thread's save.
    #[tactic(auto, using(crate::proofs::SavedDevices::thread_length))]
    fn save_len(&self, events: u8) -> usize
        requires { IsSound events self.now }
        ensures len { result ≡ length (saved_thread self.now) }
        ensures limit { result ≤ 8520 }
        ensures value { IsThreadValue events self.now }
    {
        THREAD_LEN + self.channel.save_len()
    }

    // Writes the thread's save to the front of `out`, and returns its length. There must be room for it.
    #[tactic(auto, using(crate::proofs::SavedDevices::thread_length))]
    fn save(&self, out: &mut [u8]) -> usize
        requires { length (saved_thread self.now) ≤ length out.old }
        ensures bytes { out.new ≡ saved_thread self.now ++ drop result out.old }
        ensures len { result ≡ length (saved_thread self.now) }
    {
        let Some(len) = self.channel.save(&mut out[THREAD_LEN..]) else {
            unreachable!()
        };
        let head = self.head_bytes(len as u32);
        out[..THREAD_LEN].copy_from_slice(head.as_slice());
        THREAD_LEN + len
    }

    // Returns whether the beats of the thread's control word are no wider than the bus, which is that of its channel.
    fn is_on(&self, bus: BusWidth) -> bool
        requires { self.now.channel.registers.bus ≡ Bus.Chip bus }
        ensures { IsTrue result ↔ IsOn bus self.now }
    {
        Bus::Chip(bus).fits(self.channel.control())
    }

    // Returns whether what the thread has goes together, in a device with this configuration, on whose bus it is.
    fn is_possible(&self, config: Config) -> bool
        requires { self.now.channel.registers.bus ≡ Bus.Chip config.bus }
        ensures { IsTrue result ↔ (IsSound config.events self.now × IsOn config.bus self.now) }
    {
        self.is_sound(config.events) && self.is_on(config.bus)
    }

    // Replaces the thread with the one whose save is at the front of these bytes, and returns the length of that save.
    // It returns `None` if no save of a thread is there. The thread is one of a device with this configuration.
    fn restore(&mut self, config: Config, bytes: &[u8]) -> Option<usize>
        requires few { config.events ≤ 32 }
        requires sound { IsSound config.events self.old }
        requires on { IsOn config.bus self.old }
        ensures long { IfSome result (λ n. n ≤ length bytes.now) }
        ensures found { IfSome result (λ n. take n bytes.now ≡ saved_thread self.new) }
        ensures value { IfSome result (λ n. IsThreadValue config.events self.new) }
        ensures sound { IsSound config.events self.new }
        ensures on { IsOn config.bus self.new }
        ensures all { (t : Thread) (rest : List ℕ)
            → IsThreadValue config.events t → IsOn config.bus t → bytes.now ≡ saved_thread t ++ rest
            → (result ≡ Some (length (saved_thread t))) × (self.new ≡ t) }
    {
        if bytes.len() < THREAD_LEN {
            return None;
        }
        let csr = u32_at(bytes, 0);
        let len = u32_at(bytes, 16);
        let rest = &bytes[THREAD_LEN..];
        let Some(status) = Status::from_bits(csr % 512) else {
            return None;
        };
        if rest.len() < len as usize {
            return None;
        }
        let Ok(()) = self
            .channel
            .restore(&rest[..len as usize], Bus::Chip(config.bus))
        else {
            return None;
        };
        self.status = status;
        self.nonsecure = (csr >> 21) % 2 == 1;
        self.fault = u32_at(bytes, 4);
        self.base = u32_at(bytes, 8);
        self.pc = u32_at(bytes, 12);
        if !self.is_possible(config) {
            self.reset(config.bus);
            return None;
        }
        let again = self.head_bytes(len);
        if again.as_slice() == &bytes[..THREAD_LEN] {
            Some(THREAD_LEN + len as usize)
        } else {
            None
        }
    }
}

// Returns the length of the threads' saves together.
#[tactic(auto, using(std::proofs::lemmas::List::take_all))]
pub(crate) fn threads_len(threads: &[Thread], events: u8) -> usize
    requires few { length threads.now ≤ most_channels }
    requires sound { All (IsSound events) threads.now }
    ensures len { result ≡ length (flat_map saved_thread threads.now) }
    ensures limit { result ≤ 8520 * length threads.now }
    ensures values { All (IsThreadValue events) threads.now }
{
    let mut len = 0;
    for n in 0..threads.len() {
        len += threads[n].save_len(events);
    }
    len
}

// Writes the threads' saves to the front of `out`. There must be room for them.
pub(crate) fn save_threads(threads: &[Thread], out: &mut [u8])
    requires { length (flat_map saved_thread threads.now) ≤ length out.old }
    ensures { out.new ≡ flat_map saved_thread threads.now
        ++ drop (length (flat_map saved_thread threads.now)) out.old }
{
    let mut at = 0;
    for n in 0..threads.len() {
        at += threads[n].save(&mut out[at..]);
    }
}

// Replaces the threads of a device with this configuration with those whose saves these bytes are, and returns whether
// they are the saves of as many threads.
pub(crate) fn restore_threads(threads: &mut [Thread], config: Config, bytes: &[u8]) -> bool
    requires few { config.events ≤ 32 }
    requires sound { All (IsSound config.events) threads.old }
    requires on { All (IsOn config.bus) threads.old }
    ensures ok { IsTrue result → bytes.now ≡ flat_map saved_thread threads.new }
    ensures values { IsTrue result → All (IsThreadValue config.events) threads.new }
    ensures sound { All (IsSound config.events) threads.new }
    ensures on { All (IsOn config.bus) threads.new }
    ensures all { (ts : List Thread) → length ts ≡ length threads.old
        → All (IsThreadValue config.events) ts → All (IsOn config.bus) ts
        → bytes.now ≡ flat_map saved_thread ts → (result ≡ true) × (threads.new ≡ ts) }
{
    let mut at = 0;
    for n in 0..threads.len() {
        let Some(len) = threads[n].restore(config, &bytes[at..]) else {
            return false;
        };
        at += len;
    }
    at == bytes.len()
}
