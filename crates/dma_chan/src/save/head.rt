//! The head of a save.

ghost use Rattle.std.specs.Prelude.{◌≡◌, ℕ, ◌+◌, ◌≤◌, ◌++◌, ◌↔◌, IsTrue, List, length, drop, Option, Some, is_some, unwrap_or, IfSome, MatchOption};
ghost use Rattle.dma_insn.specs.ControlWord.{flag};
ghost use Rattle.std.specs.Int.{w16, w32, w64, from_le_bytes};
ghost use Rattle.dma_chan.specs.declared.save.head.Head.{Head};
ghost use Rattle.dma_chan.specs.Channel.{ChannelValue, on_bus};
ghost use Rattle.dma_chan.specs.Saved.{head_bytes, saved, IsChannelValue};
ghost use Rattle.dma_chan.specs.inner.Saves.{buffer_in, program_in, channel_in, HasHeadRanges, FitsIn};

use crate::bursts::BUFFER_SIZE;
use crate::bus::Bus;
use crate::exec::Registers;
use crate::program::MAX_PROGRAM_BYTES;
use crate::save::write;
use dma_insn::control::ControlWord;

// The length of a head in bytes.
const HEAD_LEN: usize = 48;

// The length of the checksum in bytes.
const CHECKSUM_LEN: usize = 4;

// The bytes at the start of every save. The last one is the version.
pub const MAGIC: [u8; 8] = [100, 109, 97, 51, 51, 48, 0, 1];

/// The values in the first bytes of a save that describe the channel.
#[derive(Clone, Copy)]
pub struct Head {
    pub registers: Registers,
    pub taken: u32,
    pub stored: u64,
    pub is_loaded: bool,
    pub cost: Option<u32>,
    pub buffer_len: u16,
    pub program_len: u16,
}

// Returns the two-byte number at an offset.
fn u16_at(save: &[u8], at: usize) -> u16
    requires { at + 2 ≤ length save.now }
    ensures { result ≡ from_le_bytes w16 (drop at save.now) }
{
    u16::from_le_bytes([save[at], save[at + 1]])
}

// Returns the four-byte number at an offset.
fn u32_at(save: &[u8], at: usize) -> u32
    requires { at + 4 ≤ length save.now }
    ensures { result ≡ from_le_bytes w32 (drop at save.now) }
{
    u32::from_le_bytes([save[at], save[at + 1], save[at + 2], save[at + 3]])
}

// Returns the eight-byte number at an offset.
fn u64_at(save: &[u8], at: usize) -> u64
    requires { at + 8 ≤ length save.now }
    ensures { result ≡ from_le_bytes w64 (drop at save.now) }
{
    let low = u32_at(save, at);
    let high = u32_at(save, at + 4);
    u64::from(high) << 32 | u64::from(low)
}

// Returns the cost that these two fields encode.
fn cost_of(flag_byte: u8, number: u32) -> Option<u32>
    ensures { (cost : Option ℕ)
        → flag_byte ≡ flag (is_some cost) → number ≡ unwrap_or cost 0
        → result ≡ cost }
{
    if flag_byte != 0 { Some(number) } else { None }
}

// Returns the registers in a head, on this bus, or `None` if the control word isn't accepted.
fn registers_in(save: &[u8], bus: Bus) -> Option<Registers>
    requires { 48 ≤ length save.now }
    ensures bus { IfSome result (λ r. r.bus ≡ bus) }
    ensures read { (h : Head) (rest : List ℕ)
        → h.registers.bus ≡ bus → HasHeadRanges h → save.now ≡ head_bytes h ++ rest
        → result ≡ Some h.registers }
{
    let Ok(ccr) = ControlWord::from_bits(u32_at(save, 20)) else {
        return None;
    };
    Some(Registers {
        pc: u32_at(save, 8),
        sar: u32_at(save, 12),
        dar: u32_at(save, 16),
        ccr,
        lc0: save[24],
        lc1: save[25],
        bus,
    })
}

impl Head {
    // Returns the head of these bytes, on this bus, if they are a save. For other bytes the result may be a head too.
    fn read(save: &[u8], bus: Bus) -> Option<Head>
        requires { 48 ≤ length save.now }
        ensures bus { IfSome result (λ h. h.registers.bus ≡ bus) }
        ensures read { (h : Head) (rest : List ℕ)
            → h.registers.bus ≡ bus → HasHeadRanges h → save.now ≡ head_bytes h ++ rest
            → result ≡ Some h }
    {
        let Some(registers) = registers_in(save, bus) else {
            return None;
        };
        Some(Head {
            registers,
            taken: u32_at(save, 26),
            stored: u64_at(save, 30),
            is_loaded: save[38] != 0,
            cost: cost_of(save[39], u32_at(save, 40)),
            buffer_len: u16_at(save, 44),
            program_len: u16_at(save, 46),
        })
    }

    // Returns whether this can be the head of a save of `len` bytes.
    fn has_size(&self, len: usize) -> bool
        ensures { IsTrue result ↔ FitsIn len self.now }
    {
        let program_len = usize::from(self.program_len);
        let loads = if self.is_loaded {
            self.registers.pc as usize <= program_len
        } else {
            self.cost.is_none() && program_len == 0
        };
        loads
            && usize::from(self.buffer_len) <= BUFFER_SIZE
            && program_len <= MAX_PROGRAM_BYTES
            && len == HEAD_LEN + usize::from(self.buffer_len) + program_len + CHECKSUM_LEN
            && self.stored <= 256 * u64::from(self.taken)
    }

    // Returns the bytes of the buffer in a save with this head.
    pub fn buffer_of<'a>(&self, save: &'a [u8]) -> &'a [u8]
        requires { FitsIn (length save.now) self.now }
        ensures { result.now ≡ buffer_in save.now self.now }
    {
        &save[HEAD_LEN..HEAD_LEN + usize::from(self.buffer_len)]
    }

    // Returns the bytes of the program in a save with this head.
    pub fn program_of<'a>(&self, save: &'a [u8]) -> &'a [u8]
        requires { FitsIn (length save.now) self.now }
        ensures { result.now ≡ program_in save.now self.now }
    {
        let start = HEAD_LEN + usize::from(self.buffer_len);
        &save[start..start + usize::from(self.program_len)]
    }

    // Returns the head of a save, on this bus, or `None` if the bytes aren't a save. They are a save exactly if they
    // equal the save that is written again from the head and the parts that they contain.
    pub fn of_save(save: &[u8], bus: Bus) -> Option<Head>
        ensures fits { IfSome result (λ h. FitsIn (length save.now) h) }
        ensures found { IfSome result (λ h. save.now ≡ saved (channel_in save.now h)) }
        ensures channel { IfSome result (λ h. IsChannelValue (channel_in save.now h)) }
        ensures bus { IfSome result (λ h. h.registers.bus ≡ bus) }
        ensures only { (c : ChannelValue) → IsChannelValue c → save.now ≡ saved c
            → MatchOption result ⊥ (λ h. channel_in save.now h ≡ on_bus bus c) }
    {
        if save.len() < HEAD_LEN {
            return None;
        }
        let Some(head) = Head::read(save, bus) else {
            return None;
        };
        if !head.has_size(save.len()) {
            return None;
        }
        let again = write(&head, head.buffer_of(save), head.program_of(save));
        if again.as_slice() == save {
            Some(head)
        } else {
            None
        }
    }
}
