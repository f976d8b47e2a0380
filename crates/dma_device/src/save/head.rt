//! The head of a save.

ghost use Rattle.std.specs.Prelude.{◌≡◌, ◌↔◌, ◌^◌, ◌<◌, ◌≤◌, ◌++◌, IsTrue, IfSome, List, ℕ, Some, drop, length, take};
ghost use Rattle.arrayvec.specs.ArrayVec.{array_vec_len};
ghost use Rattle.dma_insn.specs.ControlWord.{flag};
ghost use Rattle.dma_device.specs.Device.{has_ftrd};
ghost use Rattle.dma_device.specs.Snapshot.{IsOfOther, IsSoundHead, head_bytes, identity};
ghost use Rattle.dma_device.specs.declared.save.head.Head.{Head};
ghost use Rattle.dma_device.specs.inner.Saves.{HasHeadRanges};

use crate::config::Config;
use crate::device::Manager;
use crate::save::{HEAD_LEN, HeadBytes, push, u32_at};
use crate::thread::{DBG_INSTR, DMAGO_ERR, OPERAND_INVALID, UNDEF_INSTR};
use arrayvec::ArrayVec;

// The bytes at the start of every save of a device.
const MAGIC: [u8; 7] = [100, 109, 97, 51, 51, 48, 1];

// The version of the format.
const VERSION: u8 = 1;

/// What the save of a device has before its channel threads: the configuration, the manager, and the registers that
/// belong to no thread.
#[derive(Clone, Copy)]
pub struct Head {
    pub config: Config,
    pub manager: Manager,
    pub events: u32,
    pub interrupts: u32,
    pub inten: u32,
    pub dbginst0: u32,
    pub dbginst1: u32,
}

// Returns 1 for true and 0 for false.
fn flag_of(value: bool) -> u8
    ensures { result ≡ flag value }
{
    if value { 1 } else { 0 }
}

// Returns the version and a configuration, as bytes.
fn identity(config: Config) -> [u8; 8]
    ensures { result ≡ identity config }
{
    let lines = config.lines.to_le_bytes();
    [
        VERSION,
        config.channels,
        config.events,
        flag_of(config.nonsecure),
        config.bus.code() as u8,
        config.revision.code() as u8,
        lines[0],
        lines[1],
    ]
}

// Returns whether the version and this configuration are at their place.
fn has_identity(bytes: &[u8], config: Config) -> bool
    requires { 15 ≤ length bytes.now }
    ensures { IsTrue result ↔ (take 8 (drop 7 bytes.now) ≡ identity config) }
{
    let own = identity(config);
    bytes[7..15] == own[..]
}

// Returns whether bytes begin as the save of a device of another version or configuration.
pub(crate) fn is_of_other(bytes: &[u8], config: Config) -> bool
    ensures { IsTrue result ↔ IsOfOther config bytes.now }
{
    bytes.len() >= 15 && bytes[..7] == MAGIC[..] && !has_identity(bytes, config)
}

// Returns whether a word has bits only for events that the device has.
fn is_known(word: u32, config: Config) -> bool
    requires { config.events ≤ 32 }
    ensures { IsTrue result ↔ (word < 2 ^ config.events) }
{
    u64::from(word) < 1 << config.events
}

impl Head {
    // Returns the bytes of the head.
    #[tactic(auto, unfolding(crate::specs::Snapshot::head_bytes))]
    pub fn bytes(&self) -> HeadBytes
        ensures bytes { result.items ≡ head_bytes self.now }
        ensures len { array_vec_len result ≡ 40 }
        ensures ranges { HasHeadRanges self.now }
    {
        let mut out = ArrayVec::new();
        push(&mut out, &MAGIC);
        push(&mut out, &identity(self.config));
        push(&mut out, &[flag_of(self.manager.is_faulting)]);
        push(&mut out, &self.manager.fault.to_le_bytes());
        push(&mut out, &self.events.to_le_bytes());
        push(&mut out, &self.interrupts.to_le_bytes());
        push(&mut out, &self.inten.to_le_bytes());
        push(&mut out, &self.dbginst0.to_le_bytes());
        push(&mut out, &self.dbginst1.to_le_bytes());
        out
    }

    // Returns the head of these bytes if they are the save of a device of this configuration. For other bytes it is
    // another head.
    fn read(config: Config, bytes: &[u8]) -> Head
        requires { 40 ≤ length bytes.now }
        ensures config { result.config ≡ config }
        ensures same { (h : Head) (rest : List ℕ) → HasHeadRanges h → h.config ≡ config
            → bytes.now ≡ head_bytes h ++ rest → result ≡ h }
    {
        Head {
            config,
            manager: Manager {
                is_faulting: bytes[15] != 0,
                fault: u32_at(bytes, 16),
            },
            events: u32_at(bytes, 20),
            interrupts: u32_at(bytes, 24),
            inten: u32_at(bytes, 28),
            dbginst0: u32_at(bytes, 32),
            dbginst1: u32_at(bytes, 36),
        }
    }

    // Returns whether the events, the interrupts and INTEN have bits only of the device's events, and FTRD goes with the
    // manager.
    fn is_sound(&self) -> bool
        requires { self.now.config.events ≤ 32 }
        ensures { IsTrue result ↔ IsSoundHead self.now }
    {
        is_known(self.events, self.config)
            && is_known(self.interrupts, self.config)
            && is_known(self.inten, self.config)
            && self.has_ftrd()
    }

    // Returns whether FTRD goes with the manager.
    fn has_ftrd(&self) -> bool
        ensures { result ≡ has_ftrd self.now.manager }
    {
        let fault = self.manager.fault;
        fault == 0 && !self.manager.is_faulting
            || fault == DBG_INSTR + UNDEF_INSTR
            || fault == DBG_INSTR + OPERAND_INVALID
            || fault == DBG_INSTR + DMAGO_ERR
    }

    // Returns the head with which these bytes begin, if it is that of a device of this configuration. They begin with
    // such a head exactly if writing what was read gives them again.
    pub fn of_save(config: Config, bytes: &[u8]) -> Option<Head>
        requires { config.events ≤ 32 }
        ensures long { IfSome result (λ h. 40 ≤ length bytes.now) }
        ensures found { IfSome result (λ h. take 40 bytes.now ≡ head_bytes h) }
        ensures config { IfSome result (λ h. h.config ≡ config) }
        ensures known { IfSome result (λ h. IsSoundHead h) }
        ensures ranges { IfSome result (λ h. HasHeadRanges h) }
        ensures only { (h : Head) (rest : List ℕ)
            → HasHeadRanges h → IsSoundHead h → h.config ≡ config
            → bytes.now ≡ head_bytes h ++ rest → result ≡ Some h }
    {
        if bytes.len() < HEAD_LEN {
            return None;
        }
        let head = Head::read(config, bytes);
        if !head.is_sound() {
            return None;
        }
        let again = head.bytes();
        if again.as_slice() == &bytes[..HEAD_LEN] {
            Some(head)
        } else {
            None
        }
    }
}
