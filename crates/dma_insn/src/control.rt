//! The channel control word, which DMAMOV CCR sets (PL330 manual, channel control registers). It defines what one burst
//! of a load moves from the source, and what one burst of a store moves to the destination.

ghost use Rattle.std.specs.Prelude.{◌≡◌, ℕ, ◌+◌, ◌<◌, ◌≤◌, ◌^◌, ◌↔◌, Some, IsSome, IfSome, Ok, Err, IfOk, IfErr, IsTrue, is_ok};
ghost use Rattle.dma_insn.specs.ControlWord.{field, size_code, size_of, beat_bytes, burst_bytes, end_at, end_bits, control_of, bits_of, is_control, HasEndRanges, HasFields};

use std::marker::Model;
use thiserror::Error;

/// Why a word is not a valid control word, in the order in which the causes are tested (profile).
#[derive(Clone, Copy, PartialEq, Eq, Debug, Error)]
pub enum ControlFault {
    /// A burst size code is 5, 6 or 7.
    #[error("a burst size code is reserved")]
    ReservedSize,
    /// The endian swap size, bits 30:28, is not 0.
    #[error("an endian swap is asked for")]
    Swap,
    #[error("bit 31 is set")]
    Bit31,
}

/// The number of bytes that one beat of a burst moves: the manual's burst size codes 0 to 4.
#[derive(Clone, Copy, PartialEq, Eq)]
pub enum BeatSize {
    One,
    Two,
    Four,
    Eight,
    Sixteen,
}

impl BeatSize {
    /// Returns the size of a burst size code, or `None` for a reserved code, 5 or above.
    pub fn from_code(code: u8) -> Option<BeatSize>
        ensures { result ≡ size_of code }
    {
        match code {
            0 => Some(BeatSize::One),
            1 => Some(BeatSize::Two),
            2 => Some(BeatSize::Four),
            3 => Some(BeatSize::Eight),
            4 => Some(BeatSize::Sixteen),
            _ => None,
        }
    }

    /// Returns the size's code in a control word, 0 to 4.
    pub fn code(self) -> u8
        ensures value { result ≡ size_code self }
        ensures range { result ≤ 4 }
        ensures again { size_of result ≡ Some self }
    {
        match self {
            BeatSize::One => 0,
            BeatSize::Two => 1,
            BeatSize::Four => 2,
            BeatSize::Eight => 3,
            BeatSize::Sixteen => 4,
        }
    }

    /// Returns the number of bytes that a beat moves, 1 to 16.
    pub fn bytes(self) -> u32
        ensures value { result ≡ beat_bytes self }
        ensures range { (1 ≤ result) × (result ≤ 16) }
    {
        1 << self.code()
    }
}

/// The number of beats of one burst, 1 to 16. A contract sees the number.
#[derive(Clone, Copy, PartialEq, Eq)]
pub struct Beats {
    count: u8,
}

impl Model for Beats {
    ghost use Rattle.std.specs.Prelude.{ℕ, ◌<◌, ◌≤◌};

    ghost Value = { ℕ };

    ghost view = { λ b. b.count };

    ghost invariant = { λ b. (1 ≤ b.count) × (b.count ≤ 16) };

    ghost inverse = { λ n. record { count = n } };
}

impl Beats {
    /// Returns this number of beats, or `None` for 0 or more than 16.
    pub fn new(count: u8) -> Option<Beats>
        ensures some { IsSome result ↔ ((1 ≤ count) × (count ≤ 16)) }
        ensures value { IfSome result (λ beats. beats ≡ count) }
    {
        if 1 <= count && count <= 16 {
            Some(Beats::of_number(count))
        } else {
            None
        }
    }

    /// Returns this number of beats, which has to be 1 to 16.
    pub fn of_number(count: u8) -> Beats
        requires low { 1 ≤ count }
        requires high { count ≤ 16 }
        ensures { result ≡ count }
    {
        Beats { count }
    }

    /// Returns the number of beats, 1 to 16.
    pub fn number(self) -> u8
        ensures value { result ≡ self }
        ensures range { (1 ≤ self) × (self ≤ 16) }
    {
        self.count
    }
}

/// The protection or the cache field of one end, 0 to 7. It is kept and has no effect (profile). A contract sees the
/// number.
#[derive(Clone, Copy, PartialEq, Eq)]
pub struct Attribute {
    code: u8,
}

impl Model for Attribute {
    ghost use Rattle.std.specs.Prelude.{ℕ, ◌<◌, ◌≤◌};

    ghost Value = { ℕ };

    ghost view = { λ a. a.code };

    ghost invariant = { λ a. a.code < 8 };

    ghost inverse = { λ n. record { code = n } };
}

impl Attribute {
    /// Returns the field of a code, or `None` for a code above 7.
    pub fn new(code: u8) -> Option<Attribute>
        ensures some { IsSome result ↔ (code < 8) }
        ensures value { IfSome result (λ field. field ≡ code) }
    {
        if code < 8 {
            Some(Attribute::of_code(code))
        } else {
            None
        }
    }

    /// Returns the field of a code, which has to be at most 7.
    pub fn of_code(code: u8) -> Attribute
        requires { code < 8 }
        ensures { result ≡ code }
    {
        Attribute { code }
    }

    /// Returns the field's code in a control word, 0 to 7.
    pub fn code(self) -> u8
        ensures value { result ≡ self }
        ensures range { self < 8 }
    {
        self.code
    }
}

/// The fields of a control word for one end, the source or the destination.
#[derive(Clone, Copy, PartialEq, Eq)]
pub struct BurstEnd {
    /// Whether the address grows by a burst's bytes; if not, each beat uses the same address.
    pub increments: bool,
    pub size: BeatSize,
    pub beats: Beats,
    pub protection: Attribute,
    pub cache: Attribute,
}

impl BurstEnd {
    /// Returns the number of bytes of one beat, 1 to 16.
    pub fn beat_bytes(&self) -> u32
        ensures value { result ≡ beat_bytes self.now.size }
        ensures range { (1 ≤ result) × (result ≤ 16) }
    {
        self.size.bytes()
    }

    /// Returns the number of bytes of one burst, 1 to 256.
    pub fn burst_bytes(&self) -> u32
        ensures value { result ≡ burst_bytes self.now }
        ensures range { (1 ≤ result) × (result ≤ 256) }
    {
        u32::from(self.beats.number()) * self.beat_bytes()
    }

    // Returns the fields of the end whose lowest bit is bit `from`, or `None` if its size code is reserved.
    #[tactic(auto, unfolding(crate::specs::ControlWord::end_at))]
    fn at(bits: u32, from: u32) -> Option<BurstEnd>
        requires { from ≤ 14 }
        ensures { result ≡ end_at from bits }
    {
        let size = BeatSize::from_code(three_bits(bits, from + 1))?;
        Some(BurstEnd {
            increments: one_bit(bits, from) == 1,
            size,
            beats: Beats::of_number(four_bits(bits, from + 4) + 1),
            protection: Attribute::of_code(three_bits(bits, from + 8)),
            cache: Attribute::of_code(three_bits(bits, from + 11)),
        })
    }

    // Returns the fourteen bits of one end.
    #[tactic(auto, unfolding(crate::specs::ControlWord::end_bits))]
    fn bits(&self) -> u32
        ensures value { result ≡ end_bits self.now }
        ensures range { result < 2 ^ 14 }
        ensures in_range { HasEndRanges self.now }
    {
        let low = if self.increments { 1 } else { 0 };
        let size = u32::from(self.size.code()) << 1;
        let beats = u32::from(self.beats.number() - 1) << 4;
        let protection = u32::from(self.protection.code()) << 8;
        let cache = u32::from(self.cache.code()) << 11;
        low + size + beats + protection + cache
    }
}

/// The fields of a control word: how a load reads the source, and how a store writes the destination.
#[derive(Clone, Copy, PartialEq, Eq)]
pub struct Control {
    pub src: BurstEnd,
    pub dst: BurstEnd,
}

impl Control {
    /// Returns the fields of a word. Fails with `ReservedSize` for a reserved size of either end, then with `Swap`,
    /// then with `Bit31`.
    #[tactic(auto, unfolding(crate::specs::ControlWord::control_of))]
    pub fn from_bits(bits: u32) -> Result<Control, ControlFault>
        // The result as a function of the word.
        ensures exact { result ≡ control_of bits }
        // The fields, bit by bit.
        ensures fields { IfOk result (λ control. HasFields bits control) }
        // The returned fields encode to the same word.
        ensures back { IfOk result (λ control. bits_of control ≡ bits) }
    {
        let (Some(src), Some(dst)) = (BurstEnd::at(bits, 0), BurstEnd::at(bits, 14)) else {
            return Err(ControlFault::ReservedSize);
        };
        if three_bits(bits, 28) != 0 {
            return Err(ControlFault::Swap);
        }
        if one_bit(bits, 31) != 0 {
            return Err(ControlFault::Bit31);
        }
        Ok(Control { src, dst })
    }

    /// Returns the word of these fields.
    #[tactic(auto, unfolding(crate::specs::ControlWord::bits_of))]
    pub fn bits(&self) -> u32
        ensures value { result ≡ bits_of self.now }
        // The types of the fields guarantee these ranges.
        ensures src_in_range { HasEndRanges self.now.src }
        ensures dst_in_range { HasEndRanges self.now.dst }
        // The word has these fields.
        ensures fields { HasFields result self.now }
        // The returned word decodes to the same fields.
        ensures again { control_of result ≡ Ok self.now }
    {
        self.src.bits() + (self.dst.bits() << 14)
    }
}

/// A valid control word: no size is reserved, the endian swap size is 0, and bit 31 is clear. A contract sees the word.
#[derive(Clone, Copy, PartialEq, Eq)]
pub struct ControlWord {
    bits: u32,
}

impl Model for ControlWord {
    ghost use Rattle.std.specs.Prelude.{ℕ, IsTrue};
    ghost use Rattle.dma_insn.specs.ControlWord.{is_control};

    ghost Value = { ℕ };

    ghost view = { λ w. w.bits };

    ghost invariant = { λ w. IsTrue (is_control w.bits) };

    ghost inverse = { λ n. record { bits = n } };
}

impl ControlWord {
    /// Returns the word whose bits are all 0: at both ends a burst of one byte at a fixed address.
    #[tactic(auto, unfolding(crate::specs::ControlWord::is_control, crate::specs::ControlWord::control_of, crate::specs::ControlWord::end_at))]
    pub fn zero() -> ControlWord
        ensures { result ≡ 0 }
    {
        ControlWord { bits: 0 }
    }

    /// Returns the word of these bits. Fails where [`Control::from_bits`] fails, with the same fault.
    #[tactic(auto, unfolding(crate::specs::ControlWord::is_control))]
    pub fn from_bits(bits: u32) -> Result<ControlWord, ControlFault>
        ensures ok { IfOk result (λ word. word ≡ bits) }
        ensures accepted { is_ok result ≡ is_control bits }
        ensures refused { IfErr result (λ fault. control_of bits ≡ Err fault) }
    {
        Control::from_bits(bits)?;
        Ok(ControlWord { bits })
    }

    /// Returns the bits of the word.
    pub fn bits(self) -> u32
        ensures value { result ≡ self }
        ensures accepted { IsTrue (is_control self) }
    {
        self.bits
    }

    /// Returns how a load reads the source.
    #[tactic(auto, unfolding(crate::specs::ControlWord::is_control, crate::specs::ControlWord::control_of))]
    pub fn source(self) -> BurstEnd
        ensures { end_at 0 self ≡ Some result }
    {
        let Some(end) = BurstEnd::at(self.bits, 0) else {
            unreachable!()
        };
        end
    }

    /// Returns how a store writes the destination.
    #[tactic(auto, unfolding(crate::specs::ControlWord::is_control, crate::specs::ControlWord::control_of))]
    pub fn destination(self) -> BurstEnd
        ensures { end_at 14 self ≡ Some result }
    {
        let Some(end) = BurstEnd::at(self.bits, 14) else {
            unreachable!()
        };
        end
    }
}

// Returns bit `from` of a word.
fn one_bit(bits: u32, from: u32) -> u8
    requires { from < 32 }
    ensures value { result ≡ field from 1 bits }
    ensures range { result < 2 }
{
    (bits >> from & 0x1) as u8
}

// Returns three bits of a word, from bit `from` up.
fn three_bits(bits: u32, from: u32) -> u8
    requires { from < 32 }
    ensures value { result ≡ field from 3 bits }
    ensures range { result < 8 }
{
    (bits >> from & 0x7) as u8
}

// Returns four bits of a word, from bit `from` up.
fn four_bits(bits: u32, from: u32) -> u8
    requires { from < 32 }
    ensures value { result ≡ field from 4 bits }
    ensures range { result < 16 }
{
    (bits >> from & 0xf) as u8
}
