//! Texts that can be appended to bytes: words, numbers in decimal and hexadecimal digits, and several texts in a row.
#![tactic(auto, using(crate::proofs::Begun::begins_same, crate::proofs::Begun::begins_appended, crate::proofs::Begun::begins_more))]

ghost use Rattle.std.specs.Prelude.{◌≡◌, ◌++◌, OnErr, OnOk, decimal};
ghost use Rattle.dma_text.specs.Digits.{hex_digits, hex_pair, spaced_bytes};
ghost use Rattle.dma_text.specs.Text.{Begins};

use crate::digits::{hex_digits, hex_pair};
use itoa::Buffer;
use std::alloc::AllocError;
use std::mem;

/// A value that has a text.
pub trait Text {
    ghost use Rattle.std.specs.Prelude.{ℕ, List};

    // The bytes of the text.
    ghost text: { Self → List ℕ };

    // Which values can be printed. All others, such as a fault that means out of memory, can't.
    ghost is_printed: { Self → Type 0 } = { λ _. Unit {0} };

    /// Appends the text. Fails if the value can't be printed or memory runs out, and may have appended a part of the
    /// text then.
    fn push(&self, out: &mut Vec<u8>) -> Result<(), AllocError>
        ensures ok { OnOk result (out.new.items ≡ out.old.items ++ text self.now) }
        ensures printed { OnOk result (is_printed self.now) }
        ensures begins { Begins out.new.items out.old.items };
}

/// Appends a text. Appends nothing if the value can't be printed or memory runs out.
#[inline]
pub fn print<T: Text>(out: &mut Vec<u8>, text: &T) -> Result<(), AllocError>
    ensures ok { OnOk result (out.new.items ≡ out.old.items ++ T.text text.now) }
    ensures printed { OnOk result (T.is_printed text.now) }
    ensures err { OnErr result (out.new.items ≡ out.old.items) }
{
    let start = out.len();
    let pushed = text.push(out);
    if pushed.is_err() {
        out.truncate(start);
    }
    pushed
}

impl Text for &str {
    ghost text = { λ s. s.now };

    #[inline(always)]
    fn push(&self, out: &mut Vec<u8>) -> Result<(), AllocError> {
        out.extend_from_slice(self.as_bytes())
    }
}

impl Text for &[u8] {
    ghost text = { λ s. s.now };

    #[inline(always)]
    fn push(&self, out: &mut Vec<u8>) -> Result<(), AllocError> {
        out.extend_from_slice(self)
    }
}

// In decimal digits.
impl Text for u64 {
    ghost text = { decimal };

    #[inline(always)]
    #[tactic(auto, using(crate::proofs::Begun::begins_same, crate::proofs::Begun::begins_appended, std::proofs::lemmas::Fmt::decimal_digit))]
    fn push(&self, out: &mut Vec<u8>) -> Result<(), AllocError> {
        let number = *self;
        // Most numbers have one digit.
        if number < 10 {
            out.push(b'0' + number as u8)?;
            return Ok(());
        }
        push_digits(out, number)
    }
}

/// Appends the digits of a number of any size. Makes them on the stack.
#[inline(never)]
fn push_digits(out: &mut Vec<u8>, number: u64) -> Result<(), AllocError>
    ensures ok { OnOk result (out.new.items ≡ out.old.items ++ decimal number) }
    ensures err { OnErr result (out.new.items ≡ out.old.items) }
{
    out.extend_from_slice(Buffer::new().format(number).as_bytes())
}

impl Text for u32 {
    ghost text = { decimal };

    #[inline(always)]
    fn push(&self, out: &mut Vec<u8>) -> Result<(), AllocError> {
        u64::from(*self).push(out)
    }
}

impl Text for u8 {
    ghost text = { decimal };

    #[inline(always)]
    fn push(&self, out: &mut Vec<u8>) -> Result<(), AllocError> {
        u64::from(*self).push(out)
    }
}

impl Text for usize {
    ghost text = { decimal };

    #[inline(always)]
    fn push(&self, out: &mut Vec<u8>) -> Result<(), AllocError> {
        let number = *self;
        (number as u64).push(out)
    }
}

/// A byte in two hexadecimal digits, in capitals.
#[derive(Drop)]
pub struct HexByte(pub u8);

impl Text for HexByte {
    ghost text = { λ byte. hex_pair byte.0 };

    #[inline(always)]
    fn push(&self, out: &mut Vec<u8>) -> Result<(), AllocError> {
        out.extend_from_slice(&hex_pair(self.0))
    }
}

/// An address in eight hexadecimal digits, in capitals.
#[derive(Drop)]
pub struct Address(pub u32);

impl Text for Address {
    ghost text = { λ addr. hex_digits addr.0 };

    #[inline(always)]
    fn push(&self, out: &mut Vec<u8>) -> Result<(), AllocError> {
        out.extend_from_slice(&hex_digits(self.0))
    }
}

/// Bytes in two hexadecimal digits each, with a space before each byte.
#[derive(Drop)]
pub struct SpacedBytes<'a>(pub &'a [u8]);

impl Text for SpacedBytes<'_> {
    ghost text = { λ bytes. spaced_bytes bytes.0.now };

    fn push(&self, out: &mut Vec<u8>) -> Result<(), AllocError> {
        let SpacedBytes(bytes) = *self;
        let Some(room) = bytes.len().checked_mul(3) else {
            return Err(AllocError);
        };
        out.reserve(room)?;
        // As a local variable, the list can have its length in a register.
        let empty = Vec::new(*out.allocator());
        let mut text = mem::replace(out, empty);
        for byte in bytes {
            let [high, low] = hex_pair(*byte);
            text.push_reserved(b' ');
            text.push_reserved(high);
            text.push_reserved(low);
        }
        *out = text;
        Ok(())
    }
}

impl<A: Text, B: Text> Text for (A, B) {
    ghost text = { λ t. A.text t.0 ++ B.text t.1 };

    ghost is_printed = { λ t. A.is_printed t.0 × B.is_printed t.1 };

    #[inline(always)]
    fn push(&self, out: &mut Vec<u8>) -> Result<(), AllocError> {
        self.0.push(out)?;
        self.1.push(out)
    }
}

impl<A: Text, B: Text, C: Text> Text for (A, B, C) {
    ghost text = { λ t. A.text t.0 ++ B.text t.1 ++ C.text t.2 };

    ghost is_printed = { λ t. A.is_printed t.0 × B.is_printed t.1 × C.is_printed t.2 };

    #[inline(always)]
    fn push(&self, out: &mut Vec<u8>) -> Result<(), AllocError> {
        self.0.push(out)?;
        self.1.push(out)?;
        self.2.push(out)
    }
}

impl<A: Text, B: Text, C: Text, D: Text> Text for (A, B, C, D) {
    ghost text = { λ t. A.text t.0 ++ B.text t.1 ++ C.text t.2 ++ D.text t.3 };

    ghost is_printed = { λ t.
        A.is_printed t.0 × B.is_printed t.1 × C.is_printed t.2 × D.is_printed t.3 };

    #[inline(always)]
    fn push(&self, out: &mut Vec<u8>) -> Result<(), AllocError> {
        self.0.push(out)?;
        self.1.push(out)?;
        self.2.push(out)?;
        self.3.push(out)
    }
}
