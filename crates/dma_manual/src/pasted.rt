//! Reads a dump in the form that fits, and a program from digits or a dump.
ghost use Rattle.std.specs.Prelude.{◌≡◌, ◌++◌, [], IfOk, MatchResult, OnOk, Some, replicate};
ghost use Rattle.dma_insn.specs.LineReading.{ResultIs};
ghost use Rattle.dma_manual.specs.Forms.{plain_forms, words_first};
ghost use Rattle.dma_manual.specs.Pasted.{applied, begun, colon_form, digits_of, dump_of, ended, fit, forms_for, further, is_whole, lacks_lines, nowhere, other_of, pasted, plain_of, read_as, read_from, says_more, settled, taken};

use crate::array::{ArrayPlace, is_of_array};
use crate::doubts::{Doubt, doubt_of, is_marked};
use crate::dump::{Cause, Effect, Place, Scan};
use crate::forms::{Column, Form, Group, bytes_first, plain_forms, words_first};
use crate::hexadecimal::{Notation, read_hexadecimal};
use crate::notes::ends_at_once;
use std::alloc::{AllocError, Global};

/// The most bytes that a dump has.
const MOST_BYTES: usize = 1 << 20;

/// How a text spells a program.
#[derive(Clone, Copy)]
pub enum Spelling {
    /// By digits, or as a dump.
    Digits(Notation),
    /// As a dump.
    Dump,
}

/// The first fault of a text that is read in a form.
#[derive(Clone, Copy)]
pub struct Fault {
    pub cause: Cause,
    pub at: usize,
    /// Whether bytes were read before, or it is a fault of an array alone.
    pub is_dump: bool,
}

/// A dump, with its form.
#[derive(Drop)]
struct Dump {
    form: Form,
    bytes: Vec<u8>,
    /// Whether it is surely a dump: an address is where bytes before it end, or a line has its bytes as text.
    is_sure: bool,
}

/// A program that is read, with its form if it is a dump.
#[derive(Drop)]
pub struct Pasted {
    pub form: Option<Form>,
    pub bytes: Vec<u8>,
}

/// Why a text is no program.
#[derive(Clone, Copy)]
pub enum Refused {
    /// Its digits have a fault at this offset.
    Digits { notation: Notation, at: usize },
    /// The form that fits the longest front of it has this fault.
    Dump(Fault),
    /// It isn't surely one dump.
    Unsure(Doubt),
}

/// Appends the bytes of a group's value, the lowest first.
fn push_number(bytes: &mut Vec<u8>, group: Group, value: u64) -> Result<(), AllocError>
    ensures { OnOk result (bytes.new.items ≡ applied group (Effect.Number value) bytes.old.items) }
{
    bytes.extend_from_slice(&value.to_le_bytes()[..usize::from(group.size())])
}

/// Appends a byte `count` times.
fn push_element(bytes: &mut Vec<u8>, value: u8, count: u32) -> Result<(), AllocError>
    ensures { OnOk result (bytes.new.items ≡ bytes.old.items ++ replicate count value) }
{
    for _ in 0..count {
        bytes.push(value)?;
    }
    Ok(())
}

/// Does to bytes what a byte of the text does.
fn apply(bytes: &mut Vec<u8>, group: Group, effect: Effect) -> Result<(), AllocError>
    ensures { OnOk result (bytes.new.items ≡ applied group effect bytes.old.items) }
{
    match effect {
        Effect::Nothing => Ok(()),
        Effect::Number(value) => push_number(bytes, group, value),
        Effect::Element { value, count } => push_element(bytes, value, count),
        Effect::Cut(kept) => {
            bytes.truncate(kept);
            Ok(())
        }
    }
}

/// Returns the scan before the first byte of a text.
fn begun(form: Form) -> Scan
    ensures { result ≡ begun form }
{
    let place = match form.column {
        Column::Array => Place::Array(ArrayPlace::Front),
        Column::Headed => Place::Title { matched: 0 },
        _ => Place::Start,
    };
    Scan {
        place,
        first: None,
        before: 0,
        is_sure: false,
    }
}

/// Takes the byte of a text at an offset, with the bytes read so far, and does to them what it does.
fn take(
    form: Form,
    scan: Scan,
    bytes: &mut Vec<u8>,
    at: usize,
    byte: u8,
) -> Result<Result<Scan, Fault>, AllocError>
    ensures { IfOk result (λ taking. ResultIs (λ next. (next, bytes.new.items)) taking
        (taken form scan bytes.old.items at byte)) }
{
    let cause = match scan.next(form, bytes, byte) {
        Ok((next, effect)) => {
            apply(bytes, form.group, effect)?;
            if bytes.len() <= MOST_BYTES {
                return Ok(Ok(next));
            }
            Cause::Long
        }
        Err(cause) => cause,
    };
    Ok(Err(Fault {
        cause,
        at,
        is_dump: is_of_array(cause) || !bytes.is_empty(),
    }))
}

/// Returns whether a text may end after a line end that is a part of this.
fn is_whole(place: Place) -> bool
    ensures { result ≡ is_whole place }
{
    match place {
        Place::Array(place) => matches!(place, ArrayPlace::Rest),
        _ => true,
    }
}

/// Returns the bytes at the end of a text and whether it is surely a dump, or a fault.
fn ended(scan: Scan, bytes: Vec<u8>, at: usize) -> Result<(Vec<u8>, bool), Fault>
    ensures { ResultIs (λ it. (it.0.items, it.1)) result (ended scan bytes.items at) }
{
    if is_whole(scan.place) && !bytes.is_empty() {
        return Ok((bytes, scan.is_sure));
    }
    Err(Fault {
        cause: Cause::Byte,
        at,
        is_dump: !bytes.is_empty(),
    })
}

/// Adds a line end to a text, and returns what `ended` returns after it.
fn finish(
    form: Form,
    scan: Scan,
    mut bytes: Vec<u8>,
    at: usize,
) -> Result<Result<(Vec<u8>, bool), Fault>, AllocError>
    ensures { IfOk result (λ read. ResultIs (λ it. (it.0.items, it.1)) read
        (read_from form scan bytes.items at [])) }
{
    match take(form, scan, &mut bytes, at, b'\n')? {
        Ok(next) => Ok(ended(next, bytes, at)),
        Err(fault) => Ok(Err(fault)),
    }
}

/// Returns the bytes of a text and whether it is surely a dump, or its first fault, if it is read in a form.
pub fn read_as(
    alloc: Global,
    form: Form,
    text: &[u8],
) -> Result<Result<(Vec<u8>, bool), Fault>, AllocError>
    ensures { IfOk result (λ read. ResultIs (λ it. (it.0.items, it.1)) read
        (read_as form text.now)) }
{
    let mut bytes = Vec::new(alloc);
    let mut scan = begun(form);
    for (at, byte) in text.iter().enumerate() {
        match take(form, scan, &mut bytes, at, *byte)? {
            Ok(next) => scan = next,
            Err(fault) => return Ok(Err(fault)),
        }
    }
    finish(form, scan, bytes, text.len())
}

/// Returns the fault that is reported: the second if bytes were read before it, and the first is nearer or has none
/// before it.
fn further(first: Fault, second: Fault) -> Fault
    ensures { result ≡ further first second }
{
    if second.is_dump && (!first.is_dump || first.at < second.at) {
        second
    } else {
        first
    }
}

/// Returns a text as a dump in the first of the forms that fits, or the furthest fault.
fn fit(alloc: Global, forms: &[Form], text: &[u8]) -> Result<Result<Dump, Fault>, AllocError>
    ensures { IfOk result (λ read. ResultIs (λ dump. (dump.form, dump.bytes.items, dump.is_sure)) read
        (fit forms.now nowhere text.now)) }
{
    let mut furthest = Fault {
        cause: Cause::Byte,
        at: 0,
        is_dump: false,
    };
    for form in forms {
        match read_as(alloc, *form, text)? {
            Ok((bytes, is_sure)) => {
                return Ok(Ok(Dump {
                    form: *form,
                    bytes,
                    is_sure,
                }));
            }
            Err(fault) => furthest = further(furthest, fault),
        }
    }
    Ok(Err(furthest))
}

/// Returns the forms in the order in which they are tried for a notation.
fn forms_for(notation: Notation) -> &'static [Form]
    ensures { result.now ≡ forms_for notation }
{
    match notation {
        Notation::Pairs => bytes_first(),
        Notation::Words => words_first(),
    }
}

impl Dump {
    /// Returns the program of a dump.
    fn pasted(self) -> Pasted
        ensures { result ≡ record { form = Some self.form; bytes = self.bytes } }
    {
        Pasted {
            form: Some(self.form),
            bytes: self.bytes,
        }
    }
}

/// Returns the program of a dump, unless something of it is doubtful.
fn settled(
    alloc: Global,
    forms: &[Form],
    dump: Dump,
    text: &[u8],
) -> Result<Result<Pasted, Refused>, AllocError>
    ensures { IfOk result (λ read. ResultIs (λ it. (it.form, it.bytes.items)) read
        (settled forms.now text.now (dump.form, dump.bytes.items, dump.is_sure))) }
{
    let column = dump.form.column;
    match doubt_of(alloc, forms, column, dump.is_sure, text, &dump.bytes)? {
        Some(doubt) => Ok(Err(Refused::Unsure(doubt))),
        None => Ok(Ok(dump.pasted())),
    }
}

/// Returns the program of a text that is a dump.
fn read_dump(alloc: Global, text: &[u8]) -> Result<Result<Pasted, Refused>, AllocError>
    ensures { IfOk result (λ read. ResultIs (λ it. (it.form, it.bytes.items)) read
        (dump_of text.now (fit words_first nowhere text.now))) }
{
    match fit(alloc, words_first(), text)? {
        Ok(dump) => settled(alloc, words_first(), dump, text),
        Err(fault) => Ok(Err(Refused::Dump(fault))),
    }
}

/// Returns whether a dump lacks lines.
fn lacks_lines(fault: Fault) -> bool
    ensures { result ≡ lacks_lines fault }
{
    fault.is_dump && matches!(fault.cause, Cause::Address)
}

/// Returns the program of a text whose digits are these bytes: they are, unless it is surely a dump, or they begin with
/// DMAEND and it is a dump that lacks lines.
fn read_plain(
    alloc: Global,
    bytes: Vec<u8>,
    text: &[u8],
) -> Result<Result<Pasted, Refused>, AllocError>
    ensures { IfOk result (λ read. ResultIs (λ it. (it.form, it.bytes.items)) read
        (plain_of bytes.items text.now (fit plain_forms nowhere text.now))) }
{
    match fit(alloc, plain_forms(), text)? {
        Ok(dump) if dump.is_sure => settled(alloc, plain_forms(), dump, text),
        Err(fault) if ends_at_once(&bytes) && lacks_lines(fault) => Ok(Err(Refused::Dump(fault))),
        _ => Ok(Ok(Pasted { form: None, bytes })),
    }
}

/// Returns the form of a dump with colons whose groups are the numbers of a notation.
fn colon_form(notation: Notation) -> Form
    ensures { result ≡ colon_form notation }
{
    Form {
        column: Column::Colon,
        group: match notation {
            Notation::Pairs => Group::Byte,
            Notation::Words => Group::Word,
        },
    }
}

/// Returns the program of a text whose digits are these bytes, unless it lacks lines as a dump with colons.
fn read_digits(
    alloc: Global,
    notation: Notation,
    bytes: Vec<u8>,
    text: &[u8],
) -> Result<Result<Pasted, Refused>, AllocError>
    ensures { IfOk result (λ read. ResultIs (λ it. (it.form, it.bytes.items)) read
        (digits_of notation text.now (Ok bytes.items))) }
{
    match read_as(alloc, colon_form(notation), text)? {
        Err(fault) if lacks_lines(fault) => Ok(Err(Refused::Dump(fault))),
        _ => read_plain(alloc, bytes, text),
    }
}

/// Returns whether a fault of a dump says more than that of its digits at an offset.
fn says_more(fault: Fault, at: usize) -> bool
    ensures { result ≡ says_more fault at }
{
    fault.is_dump && (at < fault.at || matches!(fault.cause, Cause::Star))
}

/// Returns the program of a text whose digits have a fault, if it is a dump.
fn read_other(
    alloc: Global,
    notation: Notation,
    at: usize,
    text: &[u8],
) -> Result<Result<Pasted, Refused>, AllocError>
    ensures { IfOk result (λ read. ResultIs (λ it. (it.form, it.bytes.items)) read
        (other_of notation at text.now (fit (forms_for notation) nowhere text.now))) }
{
    match fit(alloc, forms_for(notation), text)? {
        Ok(dump) if dump.is_sure || is_marked(dump.form.column) => {
            settled(alloc, plain_forms(), dump, text)
        }
        Err(fault) if says_more(fault, at) => Ok(Err(Refused::Dump(fault))),
        _ => Ok(Err(Refused::Digits { notation, at })),
    }
}

/// Returns the program that a text spells, or why it spells none. Fails if memory runs out.
pub fn read_pasted(
    alloc: Global,
    spelling: Spelling,
    text: &[u8],
) -> Result<Result<Pasted, Refused>, AllocError>
    ensures { IfOk result (λ read. MatchResult read
        (λ it. pasted spelling text.now ≡ Ok (it.form, it.bytes.items))
        (λ why. pasted spelling text.now ≡ Err why)) }
{
    let notation = match spelling {
        Spelling::Digits(notation) => notation,
        Spelling::Dump => return read_dump(alloc, text),
    };
    match read_hexadecimal(alloc, notation, text)? {
        Ok(bytes) => read_digits(alloc, notation, bytes, text),
        Err(at) => read_other(alloc, notation, at, text),
    }
}
