//! The values of options: numbers, ranges of addresses, and ranges of seeds.
use dma_explain::explain::known::Given;
use dma_insn::control::ControlWord;
use dma_mem::segment::Segment;
use dma_seeds::seeds::SeedRange;

/// RAM of a trace: a range of addresses, and the file whose bytes it begins with, if any.
#[derive(Clone, Copy)]
pub struct RamRange<'a> {
    pub range: Segment,
    pub file: Option<&'a str>,
}

/// Returns the number that a word spells: decimal digits, or `0x` and hexadecimal digits.
pub fn number(word: &str) -> Option<u32> {
    if word.contains('+') {
        return None;
    }
    match word.strip_prefix("0x") {
        Some(digits) => u32::from_str_radix(digits, 16).ok(),
        None => word.parse().ok(),
    }
}

/// Returns the range of addresses that a word spells: `ADDRESS+LENGTH`.
pub fn range(word: &str) -> Option<Segment> {
    let (addr, len) = word.split_once('+')?;
    Some(Segment {
        addr: number(addr)?,
        len: number(len)?,
    })
}

/// Returns the RAM that a word spells: `ADDRESS+LENGTH` or `ADDRESS+LENGTH=FILE`.
pub fn ram_range(word: &str) -> Option<RamRange<'_>> {
    match word.split_once('=') {
        Some((place, file)) => Some(RamRange {
            range: range(place)?,
            file: Some(file),
        }),
        None => Some(RamRange {
            range: range(word)?,
            file: None,
        }),
    }
}

/// Returns the range of seeds that a word spells: `FIRST-LAST`, with FIRST at most LAST.
pub fn seed_range(word: &str) -> Option<SeedRange> {
    let (first, last) = word.split_once('-')?;
    let seeds = SeedRange {
        first: number(first)?,
        last: number(last)?,
    };
    (seeds.first <= seeds.last).then_some(seeds)
}

/// Returns the registers with one more that is known, as a word spells it: `NAME=VALUE`. There is none if the name or
/// the value isn't one, or the bus doesn't accept the beats of CCR. Of a name's values the last one counts.
fn with_given(mut given: Given, word: &str) -> Option<Given> {
    let (name, digits) = word.split_once('=')?;
    let value = number(digits)?;
    match name {
        "SAR" => {
            given.registers.sar = value;
            given.known.sar = true;
        }
        "DAR" => {
            given.registers.dar = value;
            given.known.dar = true;
        }
        "CCR" if given.registers.bus.fits(value) => {
            given.registers.ccr = ControlWord::from_bits(value).ok()?;
            given.known.ccr = true;
        }
        "LC0" => {
            given.registers.lc0 = u8::try_from(value).ok()?;
            given.known.lc0 = true;
        }
        "LC1" => {
            given.registers.lc1 = u8::try_from(value).ok()?;
            given.known.lc1 = true;
        }
        _ => return None,
    }
    Some(given)
}

/// Returns the registers with those that a word spells, with commas between them: `SAR=0x1000,DAR=0x2000`.
pub fn given(none: Given, word: &str) -> Option<Given> {
    let mut given = none;
    for one in word.split(',') {
        given = with_given(given, one)?;
    }
    Some(given)
}
