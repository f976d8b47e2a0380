//! The instructions of a DMA-330 that some channel doesn't execute (ARM DDI 0424, instruction set).

ghost use Rattle.std.specs.Prelude.{◌≡◌};
ghost use Rattle.std.specs.Option.{option_map};
ghost use Rattle.dma_manual.specs.ChipOnly.{chip_only_name, needs_chip_bus};

/// Returns the name of the instruction that begins with this byte, if no channel executes it, or none on the ideal bus.
pub fn chip_only_name(first: u8) -> Option<&'static str>
    ensures { option_map (λ name. name.now) result ≡ chip_only_name first }
{
    match first {
        0x01 => Some("DMAKILL"),
        0x05 => Some("DMALDS"),
        0x07 => Some("DMALDB"),
        0x09 => Some("DMASTS"),
        0x0b => Some("DMASTB"),
        0x0c => Some("DMASTZ"),
        0x25 => Some("DMALDPS"),
        0x27 => Some("DMALDPB"),
        0x29 => Some("DMASTPS"),
        0x2b => Some("DMASTPB"),
        0x28 | 0x2c => Some("DMALPEND of a DMALPFE"),
        0x2d => Some("DMALPENDS of a DMALPFE"),
        0x2f => Some("DMALPENDB of a DMALPFE"),
        0x30 | 0x31 | 0x32 => Some("DMAWFP"),
        0x35 => Some("DMAFLUSHP"),
        0x39 | 0x3d => Some("DMALPENDS"),
        0x3b | 0x3f => Some("DMALPENDB"),
        0x54 | 0x56 => Some("DMAADDH"),
        0x5c | 0x5e => Some("DMAADNH"),
        0xa0 | 0xa2 => Some("DMAGO"),
        _ => None,
    }
}

/// Returns whether an instruction that begins with this byte is executed on a chip's bus, and not on the ideal bus.
pub fn needs_chip_bus(first: u8) -> bool
    ensures { result ≡ needs_chip_bus first }
{
    matches!(first, 0x0c | 0x28 | 0x2c | 0x54 | 0x56 | 0x5c | 0x5e)
}
