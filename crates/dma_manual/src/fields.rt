//! Reads the fields of DMAMOV CCR.

ghost use Rattle.std.specs.Prelude.{◌≡◌, ◌≤◌};
ghost use Rattle.dma_insn.specs.LineReading.{ResultIs};
ghost use Rattle.dma_manual.specs.Fields.{cache_of, end_of, fields_at, free, increments_of, no_end, no_fields, set_beats, set_cache, set_end, set_field, set_increments, set_protection, set_size, size_of_bits, swap_at, word_of};

use crate::assembler::{AsmCause, Fault, Field};
use crate::manual::Side;
use crate::operands::{fault_at, field_at};
use crate::words::next_word;
use dma_insn::control::{Attribute, BeatSize, Beats, BurstEnd, Control};
use dma_text::bytes::is_text;

/// The fields of one end that a DMAMOV CCR sets.
#[derive(Drop)]
pub struct EndFields {
    beats: Option<Beats>,
    size: Option<BeatSize>,
    increments: Option<bool>,
    protection: Option<Attribute>,
    cache: Option<Attribute>,
}

impl EndFields {
    // Returns that nothing is set.
    fn none() -> EndFields
        ensures { result ≡ no_end }
    {
        EndFields {
            beats: None,
            size: None,
            increments: None,
            protection: None,
            cache: None,
        }
    }

    // Returns the fields of the end, with the manual's defaults for those that are not set.
    fn end(&self) -> BurstEnd
        ensures { result ≡ end_of self.now }
    {
        BurstEnd {
            increments: self.increments.unwrap_or(true),
            size: self.size.unwrap_or(BeatSize::One),
            beats: self.beats.unwrap_or(Beats::of_number(1)),
            protection: self.protection.unwrap_or(Attribute::of_code(0)),
            cache: self.cache.unwrap_or(Attribute::of_code(0)),
        }
    }
}

/// The fields that a DMAMOV CCR sets.
#[derive(Drop)]
pub struct Fields {
    src: EndFields,
    dst: EndFields,
    // Whether ES8 is given, which swaps nothing.
    swap: bool,
}

impl Fields {
    // Returns that nothing is set.
    fn none() -> Fields
        ensures { result ≡ no_fields }
    {
        Fields {
            src: EndFields::none(),
            dst: EndFields::none(),
            swap: false,
        }
    }

    // Returns the control word, with the manual's defaults for the fields that are not set.
    fn word(&self) -> u32
        ensures { result ≡ word_of self.now }
    {
        Control {
            src: self.src.end(),
            dst: self.dst.end(),
        }
        .bits()
    }
}

// Succeeds unless a field is set already.
fn free(is_set: bool, word: &[u8], rest: &[u8]) -> Result<(), Fault>
    ensures { result ≡ free is_set word.now rest.now }
{
    if is_set {
        Err(fault_at(AsmCause::Twice, word, rest))
    } else {
        Ok(())
    }
}

// Returns the size of a beat of this number of bits.
fn size_of_bits(bits: u64) -> Option<BeatSize>
    ensures { result ≡ size_of_bits bits }
{
    match bits {
        8 => Some(BeatSize::One),
        16 => Some(BeatSize::Two),
        32 => Some(BeatSize::Four),
        64 => Some(BeatSize::Eight),
        128 => Some(BeatSize::Sixteen),
        _ => None,
    }
}

// Returns whether `i` or `f` says that an address grows.
fn increments_of(name: &[u8]) -> Option<bool>
    ensures { result ≡ increments_of name.now }
{
    match name {
        [b'i'] => Some(true),
        [b'f'] => Some(false),
        _ => None,
    }
}

// Returns the cache field for the four cache signals of the bus, of which one is always low.
fn cache_of(side: Side, signals: u64) -> Option<Attribute>
    requires { signals ≤ 15 }
    ensures { result ≡ cache_of side signals }
{
    match side {
        Side::Source if signals < 8 => Some(Attribute::of_code(signals as u8)),
        Side::Destination if signals % 8 < 4 => {
            Some(Attribute::of_code((signals % 4 + 4 * (signals / 8)) as u8))
        }
        _ => None,
    }
}

fn set_beats(
    end: &mut EndFields,
    side: Side,
    digits: &[u8],
    word: &[u8],
    rest: &[u8],
) -> Result<(), Fault>
    ensures { ResultIs (λ _. end.new) result (set_beats end.old side digits.now word.now rest.now) }
{
    let cause = AsmCause::FieldValue(side, Field::Beats);
    let beats = field_at(cause, 1, 16, digits, word, rest)?;
    free(end.beats.is_some(), word, rest)?;
    end.beats = Some(Beats::of_number(beats as u8));
    Ok(())
}

fn set_size(
    end: &mut EndFields,
    side: Side,
    digits: &[u8],
    word: &[u8],
    rest: &[u8],
) -> Result<(), Fault>
    ensures { ResultIs (λ _. end.new) result (set_size end.old side digits.now word.now rest.now) }
{
    let cause = AsmCause::FieldValue(side, Field::Size);
    let bits = field_at(cause, 8, 128, digits, word, rest)?;
    let size = size_of_bits(bits).ok_or(fault_at(cause, word, rest))?;
    free(end.size.is_some(), word, rest)?;
    end.size = Some(size);
    Ok(())
}

fn set_increments(
    end: &mut EndFields,
    side: Side,
    name: &[u8],
    word: &[u8],
    rest: &[u8],
) -> Result<(), Fault>
    ensures { ResultIs (λ _. end.new) result
        (set_increments end.old side name.now word.now rest.now) }
{
    let cause = AsmCause::FieldValue(side, Field::Address);
    let increments = increments_of(name).ok_or(fault_at(cause, word, rest))?;
    free(end.increments.is_some(), word, rest)?;
    end.increments = Some(increments);
    Ok(())
}

fn set_protection(
    end: &mut EndFields,
    side: Side,
    digits: &[u8],
    word: &[u8],
    rest: &[u8],
) -> Result<(), Fault>
    ensures { ResultIs (λ _. end.new) result
        (set_protection end.old side digits.now word.now rest.now) }
{
    let cause = AsmCause::FieldValue(side, Field::Protection);
    let protection = field_at(cause, 0, 7, digits, word, rest)?;
    free(end.protection.is_some(), word, rest)?;
    end.protection = Some(Attribute::of_code(protection as u8));
    Ok(())
}

fn set_cache(
    end: &mut EndFields,
    side: Side,
    digits: &[u8],
    word: &[u8],
    rest: &[u8],
) -> Result<(), Fault>
    ensures { ResultIs (λ _. end.new) result (set_cache end.old side digits.now word.now rest.now) }
{
    let cause = AsmCause::FieldValue(side, Field::Cache);
    let signals = field_at(cause, 0, 15, digits, word, rest)?;
    let cache = cache_of(side, signals).ok_or(fault_at(cause, word, rest))?;
    free(end.cache.is_some(), word, rest)?;
    end.cache = Some(cache);
    Ok(())
}

// Sets the field of an end whose name, without the end's letter, begins a word.
#[tactic(auto, using(std::proofs::lemmas::Grind::common_steps))]
fn set_end(
    end: &mut EndFields,
    side: Side,
    name: &[u8],
    word: &[u8],
    rest: &[u8],
) -> Result<(), Fault>
    ensures { ResultIs (λ _. end.new) result (set_end end.old side name.now word.now rest.now) }
{
    match name {
        [b'b', digits @ ..] => set_beats(end, side, digits, word, rest),
        [b's', digits @ ..] => set_size(end, side, digits, word, rest),
        [b'a', letter @ ..] => set_increments(end, side, letter, word, rest),
        [b'p', digits @ ..] => set_protection(end, side, digits, word, rest),
        [b'c', digits @ ..] => set_cache(end, side, digits, word, rest),
        _ => Err(fault_at(AsmCause::Field, word, rest)),
    }
}

// Succeeds for the field ES8, which swaps nothing, if it isn't given twice.
fn swap_at(is_set: bool, name: &[u8], word: &[u8], rest: &[u8]) -> Result<(), Fault>
    ensures { result ≡ swap_at is_set name.now word.now rest.now }
{
    match name {
        [b's', digits @ ..] => {
            if is_text(digits, b"8") {
                free(is_set, word, rest)
            } else {
                Err(fault_at(AsmCause::Swap, word, rest))
            }
        }
        _ => Err(fault_at(AsmCause::Field, word, rest)),
    }
}

// Sets the field of a word.
#[tactic(auto, using(std::proofs::lemmas::Grind::common_steps))]
fn set_field(fields: &mut Fields, word: &[u8], rest: &[u8]) -> Result<(), Fault>
    ensures { ResultIs (λ _. fields.new) result (set_field fields.old word.now rest.now) }
{
    match word {
        [b's', name @ ..] => set_end(&mut fields.src, Side::Source, name, word, rest),
        [b'd', name @ ..] => set_end(&mut fields.dst, Side::Destination, name, word, rest),
        [b'e', name @ ..] => {
            swap_at(fields.swap, name, word, rest)?;
            fields.swap = true;
            Ok(())
        }
        _ => Err(fault_at(AsmCause::Field, word, rest)),
    }
}

/// The most words of a DMAMOV CCR: eleven fields, each once.
const MOST_FIELDS: usize = 11;

/// Reads the fields of DMAMOV CCR, and returns the control word.
#[tactic(auto, using(crate::proofs::Readings::reading_fields))]
pub fn fields_at(rest: &[u8]) -> Result<u32, Fault>
    ensures { result ≡ fields_at rest.now }
{
    let mut fields = Fields::none();
    let mut rest = rest;
    let mut left = MOST_FIELDS;
    while left > 0 {
        match next_word(rest) {
            None => return Ok(fields.word()),
            Some((word, after)) => match set_field(&mut fields, word, after) {
                Ok(()) => {
                    rest = after;
                    left -= 1;
                }
                Err(fault) => return Err(fault),
            },
        }
    }
    match next_word(rest) {
        None => Ok(fields.word()),
        Some((word, after)) => Err(fault_at(AsmCause::Extra, word, after)),
    }
}
