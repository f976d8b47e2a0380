//! Reads a dump from one byte of its text to the next.
ghost use Rattle.std.specs.Prelude.{◌≡◌};
ghost use Rattle.dma_manual.specs.Dump.{at_place, line_end, next_of, place_step};

use crate::array::ArrayPlace;
use crate::forms::Form;
use crate::shown::behind;
use dma_text::lines::is_blank;

/// What the last byte of a text was a part of.
#[derive(Clone, Copy)]
pub enum Place {
    /// A line end.
    Start,
    /// The blanks that a line begins with.
    Indent,
    /// The front of a line above the addresses, of which this many bytes are those of a title.
    Title {
        matched: usize,
    },
    /// The rest of the title.
    Titled,
    /// The rest of a line above the addresses that is no title.
    Heading,
    /// A word of a log's line, before the address.
    Word,
    /// The spaces after such a word.
    Break,
    /// The digits of an address, or its mark `0x`, which counts as three. `digits` is their number, counted as far as
    /// needed.
    Address {
        in_log: bool,
        digits: u8,
        value: u64,
    },
    /// The space between an address and a symbol.
    Open {
        value: u64,
    },
    /// The name of a symbol, in angle brackets.
    Symbol {
        last: u8,
    },
    /// The colon that ends a symbol, if no other follows it.
    Closed,
    /// A colon, or the blanks between it and the first group, which are counted up to two.
    Lead {
        blanks: u8,
    },
    /// The `0` that the mark of such a group begins with.
    Zero,
    /// The blanks before a group, where no text begins.
    Gap,
    /// The spaces after a group without a mark; `is_wide` from the second one on.
    Behind {
        is_wide: bool,
    },
    /// A group of digits, or its mark `0x`. `value` is what the digits so far spell.
    Group {
        is_marked: bool,
        digits: u8,
        value: u64,
    },
    /// The text, which has shown this many bytes of the line.
    Text {
        shown: usize,
    },
    /// A part of an array.
    Array(ArrayPlace),
}

/// How far a dump is read, and what the lines before have shown of it.
#[derive(Clone, Copy)]
pub struct Scan {
    pub place: Place,
    /// The address of the first line.
    pub first: Option<u64>,
    /// How many bytes the lines before this one have.
    pub before: usize,
    /// Whether an address is where bytes before it end, or a line has its bytes as text.
    pub is_sure: bool,
}

/// What a byte of the text does to the bytes that are read.
#[derive(Clone, Copy)]
pub enum Effect {
    Nothing,
    /// It ends a group of this value, whose bytes follow.
    Number(u64),
    /// It ends an element of an array, which counts `count` times.
    Element { value: u8, count: u32 },
    /// It ends an address alone, which leaves this many bytes: it leaves out zeros that fill up a group.
    Cut(usize),
}

/// What is wrong with a dump.
#[derive(Clone, Copy)]
pub enum Cause {
    /// A byte can't be there.
    Byte,
    /// An address isn't where the line before ends.
    Address,
    /// The text isn't that of the line's bytes.
    Text,
    /// A `*` is in place of lines.
    Star,
    /// An element of an array has more than two digits.
    Large,
    /// An array isn't printed to its end.
    Elided,
    /// A count of an array is too large.
    Count,
    /// It has more bytes than are read.
    Long,
}

impl Scan {
    /// Goes on to a place in the same line.
    pub fn at(self, place: Place) -> Result<(Scan, Effect), Cause>
        ensures { result ≡ at_place self place }
    {
        Ok((Scan { place, ..self }, Effect::Nothing))
    }

    /// Ends a line.
    pub fn line_end(self) -> Result<(Scan, Effect), Cause>
        ensures { result ≡ line_end self }
    {
        self.at(Place::Start)
    }

    /// Takes the next byte of a place, with `bytes` read so far. It isn't a carriage return.
    pub fn place_step(self, form: Form, bytes: &[u8], byte: u8) -> Result<(Scan, Effect), Cause>
        ensures { result ≡ place_step form self bytes.now self.place byte }
    {
        let line = behind(bytes, self.before);
        match self.place {
            Place::Start => self.start_step(form, false, byte),
            Place::Indent => self.start_step(form, true, byte),
            Place::Title { matched } => self.title_step(matched, byte),
            Place::Titled if byte == b'\n' => self.line_end(),
            Place::Titled => self.at(Place::Titled),
            Place::Heading if byte == b'\n' => self.at(Place::Title { matched: 0 }),
            Place::Heading => self.at(Place::Heading),
            Place::Word => self.word_step(byte),
            Place::Break => self.break_step(byte),
            Place::Address {
                in_log,
                digits,
                value,
            } => self.address_step(form, bytes, in_log, digits, value, byte),
            Place::Open { value } => self.open_step(bytes.len(), value, byte),
            Place::Symbol { last } => self.symbol_step(last, byte),
            Place::Closed => self.closed_step(form, byte),
            Place::Lead { blanks } => self.lead_step(form, blanks, byte),
            Place::Zero => self.zero_step(byte),
            Place::Gap if is_blank(byte) => self.at(Place::Gap),
            Place::Gap => self.content(form, byte),
            Place::Behind { is_wide } => self.behind_step(form, line, is_wide, byte),
            Place::Group {
                is_marked,
                digits,
                value,
            } => self.group_step(form, is_marked, digits, value, byte),
            Place::Text { shown } => self.text_step(form, line, shown, byte),
            Place::Array(place) => {
                let (place, effect) = place.next(byte)?;
                let place = Place::Array(place);
                Ok((Scan { place, ..self }, effect))
            }
        }
    }

    /// Takes the next byte of a text, with `bytes` read so far: returns how far the dump is then read and what is to be
    /// done to the bytes, or what is wrong.
    pub fn next(self, form: Form, bytes: &[u8], byte: u8) -> Result<(Scan, Effect), Cause>
        ensures { result ≡ next_of form self bytes.now byte }
    {
        if byte == b'\r' {
            Ok((self, Effect::Nothing))
        } else {
            self.place_step(form, bytes, byte)
        }
    }
}
