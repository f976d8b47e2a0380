//! Laws of what tools print of bytes, each the contract of an empty function.

ghost use Rattle.dma_manual.specs.PrintedLaws.{GdbIsReadBack, HexdumpIsReadBack, MdIsReadBack, ObjdumpIsReadBack, OdIsReadBack, XxdIsReadBack};

/// Law: what `hexdump -v` prints of bytes, with `-C` or without, is read back as these bytes, or refused as doubtful.
pub fn hexdump_is_read_back()
    ensures { HexdumpIsReadBack }
{}

/// Law: what `od -v` prints of bytes is read back as these bytes, or refused as doubtful.
pub fn od_is_read_back()
    ensures { OdIsReadBack }
{}

/// Law: what `xxd -g` prints of bytes is read back as these bytes, or refused as doubtful.
pub fn xxd_is_read_back()
    ensures { XxdIsReadBack }
{}

/// Law: what U-Boot's `md` prints of whole groups is read back as these bytes, or refused as doubtful.
pub fn md_is_read_back()
    ensures { MdIsReadBack }
{}

/// Law: what gdb's `x` prints of whole groups is read back as these bytes, or refused as doubtful.
pub fn gdb_is_read_back()
    ensures { GdbIsReadBack }
{}

/// Law: what `objdump -s` prints of a section is read back as these bytes, or refused as doubtful, if no line is all
/// spaces.
pub fn objdump_is_read_back()
    ensures { ObjdumpIsReadBack }
{}
