//! Finds what a dump may be besides what it looks like.
ghost use Rattle.std.specs.Prelude.{◌≡◌, IfOk};
ghost use Rattle.dma_manual.specs.Pasted.{doubt_of, is_marked, is_other, is_other_in};

use crate::forms::{Column, Form};
use crate::pasted::read_as;
use dma_text::bytes::is_text;
use std::alloc::{AllocError, Global};

/// Why a text isn't surely one dump.
#[derive(Clone, Copy)]
pub enum Doubt {
    /// Its groups may be bytes in their order, or words.
    Order,
    /// Its addresses fit in two radices, which leave different bytes.
    Radix,
    /// Its line may begin with an address or not.
    Address,
}

/// Returns whether a text is a dump of other bytes in a form.
fn is_other(alloc: Global, form: Form, text: &[u8], bytes: &[u8]) -> Result<bool, AllocError>
    ensures { IfOk result (λ is. is ≡ is_other form text.now bytes.now) }
{
    match read_as(alloc, form, text)? {
        Ok((other, _)) => Ok(!is_text(&other, bytes)),
        Err(_) => Ok(false),
    }
}

/// Returns whether a text is a dump of other bytes in one of these forms.
fn is_other_in(alloc: Global, forms: &[Form], text: &[u8], bytes: &[u8]) -> Result<bool, AllocError>
    ensures { IfOk result (λ is. is ≡ is_other_in forms.now text.now bytes.now) }
{
    for form in forms {
        if is_other(alloc, *form, text, bytes)? {
            return Ok(true);
        }
    }
    Ok(false)
}

/// Returns whether a colon or braces show that a text is no program in digits.
pub fn is_marked(column: Column) -> bool
    ensures { result ≡ is_marked column }
{
    matches!(column, Column::Colon | Column::Array)
}

/// Returns what is doubtful of a dump with these bytes: whether it is one of other bytes in these forms, or whether it
/// has addresses at all.
pub fn doubt_of(
    alloc: Global,
    forms: &[Form],
    column: Column,
    is_sure: bool,
    text: &[u8],
    bytes: &[u8],
) -> Result<Option<Doubt>, AllocError>
    ensures { IfOk result (λ doubt. doubt ≡ doubt_of forms.now column is_sure text.now bytes.now) }
{
    if is_other_in(alloc, forms, text, bytes)? {
        return Ok(Some(match column {
            Column::Colon => Doubt::Order,
            _ => Doubt::Radix,
        }));
    }
    if is_sure || is_marked(column) {
        Ok(None)
    } else {
        Ok(Some(Doubt::Address))
    }
}
