//! The values of digits, and the hexadecimal digits of numbers.
ghost use Rattle.std.specs.Prelude.{◌≡◌};
ghost use Rattle.std.specs.Char.{digit_value};
ghost use Rattle.dma_text.specs.Digits.{hex_digits, hex_pair};

/// The two hexadecimal digits of each byte, in capitals. A look-up takes fewer instructions than arithmetic.
const PAIRS: [u8; 512] = *b"\
000102030405060708090A0B0C0D0E0F101112131415161718191A1B1C1D1E1F\
202122232425262728292A2B2C2D2E2F303132333435363738393A3B3C3D3E3F\
404142434445464748494A4B4C4D4E4F505152535455565758595A5B5C5D5E5F\
606162636465666768696A6B6C6D6E6F707172737475767778797A7B7C7D7E7F\
808182838485868788898A8B8C8D8E8F909192939495969798999A9B9C9D9E9F\
A0A1A2A3A4A5A6A7A8A9AAABACADAEAFB0B1B2B3B4B5B6B7B8B9BABBBCBDBEBF\
C0C1C2C3C4C5C6C7C8C9CACBCCCDCECFD0D1D2D3D4D5D6D7D8D9DADBDCDDDEDF\
E0E1E2E3E4E5E6E7E8E9EAEBECEDEEEFF0F1F2F3F4F5F6F7F8F9FAFBFCFDFEFF";

/// Returns the two hexadecimal digits of a byte, in capitals.
#[tactic(auto, using(crate::proofs::PairTable::pair_at))]
pub(crate) fn hex_pair(byte: u8) -> [u8; 2]
    ensures { result ≡ hex_pair byte }
{
    let place = 2 * usize::from(byte);
    [PAIRS[place], PAIRS[place + 1]]
}

/// Returns the eight hexadecimal digits of a number, in capitals.
#[tactic(auto, using(crate::proofs::EightDigits::pairs_joined))]
pub(crate) fn hex_digits(value: u32) -> [u8; 8]
    ensures { result ≡ hex_digits value }
{
    let [a, b] = hex_pair((value / 0x100_0000) as u8);
    let [c, d] = hex_pair((value / 0x1_0000 % 256) as u8);
    let [e, f] = hex_pair((value / 0x100 % 256) as u8);
    let [g, h] = hex_pair((value % 256) as u8);
    [a, b, c, d, e, f, g, h]
}

/// The table's value for a byte that is not a digit.
const NONE: u8 = 36;

/// The value of each byte as a digit, 16 bytes to a row. It's a table, since branches on digits are often mispredicted,
/// and arithmetic without branches takes many instructions.
const DIGIT_VALUES: [u8; 256] = [
    NONE, NONE, NONE, NONE, NONE, NONE, NONE, NONE, NONE, NONE, NONE, NONE, NONE, NONE, NONE, NONE, // 0x00
    NONE, NONE, NONE, NONE, NONE, NONE, NONE, NONE, NONE, NONE, NONE, NONE, NONE, NONE, NONE, NONE, // 0x10
    NONE, NONE, NONE, NONE, NONE, NONE, NONE, NONE, NONE, NONE, NONE, NONE, NONE, NONE, NONE, NONE, // 0x20
    0, 1, 2, 3, 4, 5, 6, 7, 8, 9, NONE, NONE, NONE, NONE, NONE, NONE, // 0x30
    NONE, 10, 11, 12, 13, 14, 15, 16, 17, 18, 19, 20, 21, 22, 23, 24, // 0x40
    25, 26, 27, 28, 29, 30, 31, 32, 33, 34, 35, NONE, NONE, NONE, NONE, NONE, // 0x50
    NONE, 10, 11, 12, 13, 14, 15, 16, 17, 18, 19, 20, 21, 22, 23, 24, // 0x60
    25, 26, 27, 28, 29, 30, 31, 32, 33, 34, 35, NONE, NONE, NONE, NONE, NONE, // 0x70
    NONE, NONE, NONE, NONE, NONE, NONE, NONE, NONE, NONE, NONE, NONE, NONE, NONE, NONE, NONE, NONE, // 0x80
    NONE, NONE, NONE, NONE, NONE, NONE, NONE, NONE, NONE, NONE, NONE, NONE, NONE, NONE, NONE, NONE, // 0x90
    NONE, NONE, NONE, NONE, NONE, NONE, NONE, NONE, NONE, NONE, NONE, NONE, NONE, NONE, NONE, NONE, // 0xa0
    NONE, NONE, NONE, NONE, NONE, NONE, NONE, NONE, NONE, NONE, NONE, NONE, NONE, NONE, NONE, NONE, // 0xb0
    NONE, NONE, NONE, NONE, NONE, NONE, NONE, NONE, NONE, NONE, NONE, NONE, NONE, NONE, NONE, NONE, // 0xc0
    NONE, NONE, NONE, NONE, NONE, NONE, NONE, NONE, NONE, NONE, NONE, NONE, NONE, NONE, NONE, NONE, // 0xd0
    NONE, NONE, NONE, NONE, NONE, NONE, NONE, NONE, NONE, NONE, NONE, NONE, NONE, NONE, NONE, NONE, // 0xe0
    NONE, NONE, NONE, NONE, NONE, NONE, NONE, NONE, NONE, NONE, NONE, NONE, NONE, NONE, NONE, NONE, // 0xf0
];

/// Returns the value of a digit in a base of at most 36, in either case, or 36 for any other byte.
#[tactic(auto, using(crate::proofs::DigitTable::looked_up))]
pub fn digit_value(byte: u8) -> u8
    ensures { result ≡ digit_value byte }
{
    DIGIT_VALUES[usize::from(byte)]
}
