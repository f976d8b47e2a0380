//! What is said of an instruction that isn't decoded, by its first byte.

ghost use Rattle.std.specs.Prelude.{◌≡◌};
ghost use Rattle.std.specs.Option.{option_map};
ghost use Rattle.dma_manual.specs.FirstBytes.{field_words, insn_name, longer_name};

use crate::chip_only::chip_only_name;

// Returns the name of the instruction that begins with this byte, if each channel executes it and it has more bytes.
fn longer_name(first: u8) -> Option<&'static str>
    ensures { option_map (λ name. name.now) result ≡ longer_name first }
{
    match first {
        0x20 | 0x22 => Some("DMALP"),
        0x34 => Some("DMASEV"),
        0x36 => Some("DMAWFE"),
        0x38 | 0x3c => Some("DMALPEND"),
        0xbc => Some("DMAMOV"),
        _ => None,
    }
}

/// Returns the name of the instruction that begins with this byte, if it has more bytes or some channel doesn't execute
/// it.
pub fn insn_name(first: u8) -> Option<&'static str>
    ensures { option_map (λ name. name.now) result ≡ insn_name first }
{
    match chip_only_name(first) {
        Some(name) => Some(name),
        None => longer_name(first),
    }
}

/// Returns which field of an instruction that begins with this byte is refused, and why.
pub fn field_words(first: u8) -> &'static str
    ensures { result.now ≡ field_words first }
{
    match first {
        0x34 => "bits 2:0 of its second byte, beside the event, aren't 0",
        0x36 => "bits 2 and 0 of its second byte, beside the event, aren't 0",
        0xbc => "its register, the second byte, isn't 0 (SAR), 1 (CCR) or 2 (DAR)",
        _ => "a field is outside its range",
    }
}
