//! The forms of dumps: what tools print around the digits of memory.
ghost use Rattle.std.specs.Prelude.{◌≡◌, ◌≤◌, ◌<◌, true};
ghost use Rattle.std.specs.Char.{digit_value};
ghost use Rattle.dma_manual.specs.Forms.{bytes_first, digits_of, has_address_digit, has_long_groups, has_spaced_text, is_digit_in, is_octal, is_x, least_digits, plain_forms, radix_of, size_of, with_address_digit, with_digit, words_first};

use dma_text::digits::digit_value;

/// What the lines of a dump have around their groups of digits.
#[derive(Clone, Copy)]
pub enum Column {
    /// An address and a colon, and perhaps the text after two spaces, as xxd, U-Boot, gdb and logs have it.
    Colon,
    /// A hexadecimal address, and perhaps the text between bars, as hexdump and `od -A x` have it.
    Hex,
    /// An octal address, and perhaps the text between bars, as `od` has it.
    Octal,
    /// A decimal address, and perhaps the text between bars, as `od -A d` has it.
    Decimal,
    /// A hexadecimal address, and the text after two spaces, below the title of a section, as `objdump -s` has it.
    Headed,
    /// No addresses: elements in braces, as C, `xxd -i` and `p/x` of gdb have them.
    Array,
}

/// How a group spells its bytes: by a number of this size.
#[derive(Clone, Copy)]
pub enum Group {
    /// One byte, two digits.
    Byte,
    /// 16 bits, four digits.
    Half,
    /// 32 bits, eight digits.
    Word,
    /// 64 bits, sixteen digits.
    Long,
    /// 16 bits, six octal digits.
    Octal,
}

/// The form of a dump: what its lines have around their groups, and how a group spells its bytes.
#[derive(Clone, Copy)]
pub struct Form {
    pub column: Column,
    pub group: Group,
}

impl Form {
    /// Returns whether a group of a line without an address could be taken for one.
    pub fn has_long_groups(self) -> bool
        ensures { result ≡ has_long_groups self }
    {
        !self.column.has_spaced_text() && self.group.digits() >= self.column.least_digits()
    }
}

// A row of the table of forms.
macro_rules! form {
    ($column:ident, $group:ident) => {
        Form {
            column: Column::$column,
            group: Group::$group,
        }
    };
}

/// The forms in the order in which they are tried if groups after a colon may be bytes.
static BYTES_FIRST: [Form; 22] = [
    form!(Colon, Byte),
    form!(Colon, Word),
    form!(Colon, Long),
    form!(Colon, Half),
    form!(Colon, Byte),
    form!(Hex, Byte),
    form!(Hex, Half),
    form!(Hex, Word),
    form!(Hex, Long),
    form!(Hex, Octal),
    form!(Octal, Byte),
    form!(Octal, Half),
    form!(Octal, Word),
    form!(Octal, Long),
    form!(Octal, Octal),
    form!(Decimal, Byte),
    form!(Decimal, Half),
    form!(Decimal, Word),
    form!(Decimal, Long),
    form!(Decimal, Octal),
    form!(Headed, Byte),
    form!(Array, Byte),
];

impl Column {
    /// Returns the radix of addresses.
    fn radix(self) -> u8
        ensures radix { result ≡ radix_of self }
        ensures most { result ≤ 16 }
    {
        match self {
            Column::Octal => 8,
            Column::Decimal => 10,
            _ => 16,
        }
    }

    /// Returns whether a byte is a digit of an address.
    pub fn has_digit(self, byte: u8) -> bool
        ensures value { result ≡ has_address_digit self byte }
        ensures digit { result ≡ true → digit_value byte < 16 }
    {
        digit_value(byte) < self.radix()
    }

    /// Returns the address of these digits with one more digit.
    pub fn with_digit(self, value: u64, byte: u8) -> u64
        requires { digit_value byte < 16 }
        ensures { result ≡ with_address_digit self value byte }
    {
        let front = value % (1 << 60);
        let digit = u64::from(digit_value(byte));
        match self {
            Column::Octal => front * 8 + digit,
            Column::Decimal => front * 10 + digit,
            _ => front * 16 + digit,
        }
    }

    /// Returns the least number of digits of an address.
    pub fn least_digits(self) -> u8
        ensures digits { result ≡ least_digits self }
        ensures most { result ≤ 6 }
    {
        match self {
            Column::Hex | Column::Octal | Column::Decimal => 6,
            Column::Colon | Column::Headed | Column::Array => 4,
        }
    }

    /// Returns whether two spaces, not a bar, come before the text.
    pub fn has_spaced_text(self) -> bool
        ensures { result ≡ has_spaced_text self }
    {
        matches!(self, Column::Colon | Column::Headed)
    }
}

impl Group {
    /// Returns how many bytes a group has.
    pub fn size(self) -> u8
        ensures size { result ≡ size_of self }
        ensures least { 1 ≤ result }
        ensures most { result ≤ 8 }
    {
        match self {
            Group::Byte => 1,
            Group::Half | Group::Octal => 2,
            Group::Word => 4,
            Group::Long => 8,
        }
    }

    /// Returns how many digits a group has.
    pub fn digits(self) -> u8
        ensures digits { result ≡ digits_of self }
        ensures most { result ≤ 16 }
    {
        match self {
            Group::Byte => 2,
            Group::Half => 4,
            Group::Octal => 6,
            Group::Word => 8,
            Group::Long => 16,
        }
    }

    /// Returns whether the digits are octal.
    pub fn is_octal(self) -> bool
        ensures { result ≡ is_octal self }
    {
        matches!(self, Group::Octal)
    }
}

/// Returns whether a byte is the letter of a mark `0x`.
pub fn is_x(byte: u8) -> bool
    ensures { result ≡ is_x byte }
{
    matches!(byte, b'x' | b'X')
}

/// Returns whether a byte is an octal or a hexadecimal digit.
pub fn is_digit_in(octal: bool, byte: u8) -> bool
    ensures { result ≡ is_digit_in octal byte }
{
    digit_value(byte) < if octal { 8 } else { 16 }
}

/// Returns the number of these digits with one more digit.
pub fn with_digit(octal: bool, value: u64, byte: u8) -> u64
    requires { digit_value byte < 16 }
    ensures { result ≡ with_digit octal value byte }
{
    let digit = u64::from(digit_value(byte));
    if octal {
        value % (1 << 60) * 8 + digit
    } else {
        value % (1 << 60) * 16 + digit
    }
}

/// Returns the forms in the order in which they are tried, if bytes come first after a colon.
pub fn bytes_first() -> &'static [Form]
    ensures { result.now ≡ bytes_first }
{
    &BYTES_FIRST
}

/// Returns the forms in the order in which they are tried, if words come first after a colon.
pub fn words_first() -> &'static [Form]
    ensures { result.now ≡ words_first }
{
    &BYTES_FIRST[1..]
}

/// Returns the forms without a colon.
pub fn plain_forms() -> &'static [Form]
    ensures { result.now ≡ plain_forms }
{
    &BYTES_FIRST[5..]
}
