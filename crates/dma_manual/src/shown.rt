//! Bytes as the text of a dump shows them.
ghost use Rattle.std.specs.Prelude.{◌≡◌, drop};
ghost use Rattle.dma_manual.specs.Dump.{is_all_zeros, leading_spaces, shown_as};

/// Returns how a byte is shown as text.
pub fn shown_as(byte: u8) -> u8
    ensures { result ≡ shown_as byte }
{
    match byte {
        b' '..=b'~' => byte,
        _ => b'.',
    }
}

/// Returns the bytes from an index on.
pub fn behind(bytes: &[u8], from: usize) -> &[u8]
    ensures { result.now ≡ drop from bytes.now }
{
    if from < bytes.len() {
        &bytes[from..]
    } else {
        &[]
    }
}

/// Returns whether bytes are all 0.
pub fn is_all_zeros(bytes: &[u8]) -> bool
    ensures { result ≡ is_all_zeros bytes.now }
{
    bytes.iter().all(|byte| *byte == 0)
}

/// Returns how many spaces bytes begin with.
pub fn leading_spaces(bytes: &[u8]) -> usize
    ensures { result ≡ leading_spaces bytes.now }
{
    for (count, byte) in bytes.iter().enumerate() {
        if *byte != b' ' {
            return count;
        }
    }
    bytes.len()
}
