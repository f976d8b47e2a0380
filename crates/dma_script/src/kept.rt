//! What a script keeps of a line until that is executed. A script may have very many lines, and each takes memory
//! before the first of them runs. So a line is kept in few bytes: a list stands behind a pointer, unless it is short.
ghost use Rattle.std.specs.Prelude.{◌≡◌, ◌≤◌, length, IfOk};
ghost use Rattle.dma_script.specs.inner.Kept.{call_of};

use dma_mem::call::Call;
use dma_mem::lists::Bytes;
use dma_mem::marks::MarkKind;
use dma_mem::segment::Segment;
use std::alloc::{AllocError, Global};
use std::marker::Model;

/// A value behind a pointer, so that a line of a script that has it stays small. Contracts see the value.
#[derive(Drop)]
pub struct Boxed<T> {
    stored: Box<T>,
}

impl<T> Model for Boxed<T> {
    ghost Value = { T };

    ghost view = { λ boxed. boxed.stored.value };
}

impl<T: Drop> Boxed<T> {
    /// Moves a value behind a pointer. Fails with `AllocError` if memory runs out.
    pub(crate) fn new(alloc: Global, value: T) -> Result<Boxed<T>, AllocError>
        ensures { IfOk result (λ boxed. boxed ≡ value) }
    {
        let stored = Box::new(alloc, value)?;
        Ok(Boxed { stored })
    }

    /// Returns the value.
    pub fn into_inner(self) -> T
        ensures { result ≡ self }
    {
        Box::into_inner(self.stored)
    }
}

/// The most bytes of a write that a line keeps in itself.
const INLINE_BYTES: usize = 8;

/// At most [`INLINE_BYTES`] bytes. Contracts see the bytes.
#[derive(Drop)]
pub(crate) struct FewBytes {
    len: u8,
    bytes: [u8; INLINE_BYTES],
}

impl Model for FewBytes {
    ghost use Rattle.std.specs.Prelude.{◌≤◌, List, ℕ, take};

    ghost Value = { List ℕ };

    ghost view = { λ few. take few.len few.bytes };

    ghost invariant = { λ few. few.len ≤ 8 };
}

impl FewBytes {
    /// Returns a copy of a few bytes.
    fn new(given: &[u8]) -> FewBytes
        requires { length given.now ≤ 8 }
        ensures { result ≡ given.now }
    {
        let mut bytes = [0; INLINE_BYTES];
        let front = &mut bytes[..given.len()];
        front.copy_from_slice(given);
        FewBytes {
            len: given.len() as u8,
            bytes,
        }
    }

    /// Returns the bytes.
    fn as_slice(&self) -> &[u8]
        ensures { result.now ≡ self.now }
    {
        &self.bytes[..usize::from(self.len)]
    }
}

/// A call as a line keeps it. The variants but for the first two are those of [`Call`].
#[derive(Drop)]
pub(crate) enum Kept {
    /// Writes a few bytes.
    WriteFew { bytes: FewBytes, addr: u32 },
    /// Writes these bytes.
    Write { addr: u32, bytes: Box<Bytes> },
    Read { addr: u32, len: u32 },
    Issue { ch: u8 },
    Pause { ch: u8 },
    Resume { ch: u8 },
    Terminate { ch: u8 },
    Status { ch: u8, cookie: u32 },
    Result { ch: u8, cookie: u32 },
    Mark { kind: MarkKind, segment: Segment },
    Unmark,
    Raise { event: u8 },
    Checkpoint,
}

/// The call of a line, which is kept in few bytes until the line is executed. Contracts see the call.
#[derive(Drop)]
pub struct KeptCall {
    pub(crate) kept: Kept,
}

impl Model for KeptCall {
    ghost use Rattle.dma_mem.specs.declared.call.Call.{Call};
    ghost use Rattle.dma_script.specs.inner.Kept.{call_of};

    ghost Value = { Call };

    ghost view = { λ line. call_of line.kept };
}

impl KeptCall {
    /// Keeps a write. Fails with `AllocError` if memory runs out.
    pub(crate) fn write(alloc: Global, addr: u32, bytes: Bytes) -> Result<KeptCall, AllocError>
        ensures { IfOk result (λ line. line ≡ Call.Write addr bytes) }
    {
        let kept = match bytes.len() {
            ..=INLINE_BYTES => Kept::WriteFew {
                bytes: FewBytes::new(bytes.as_slice()),
                addr,
            },
            _ => Kept::Write {
                addr,
                bytes: Box::new(alloc, bytes)?,
            },
        };
        Ok(KeptCall { kept })
    }

    /// Returns the call. Fails with `AllocError` if memory runs out.
    // (Inlined, so that the call is made where it is kept next.)
    #[inline(always)]
    pub fn into_call(self, alloc: Global) -> Result<Call, AllocError>
        ensures { IfOk result (λ call. call ≡ self) }
    {
        Ok(match self.kept {
            Kept::WriteFew { bytes, addr } => Call::Write {
                addr,
                bytes: Bytes::from_slice(alloc, bytes.as_slice())?,
            },
            Kept::Write { addr, bytes } => Call::Write {
                addr,
                bytes: Box::into_inner(bytes),
            },
            Kept::Read { addr, len } => Call::Read { addr, len },
            Kept::Issue { ch } => Call::Issue { ch },
            Kept::Pause { ch } => Call::Pause { ch },
            Kept::Resume { ch } => Call::Resume { ch },
            Kept::Terminate { ch } => Call::Terminate { ch },
            Kept::Status { ch, cookie } => Call::Status { ch, cookie },
            Kept::Result { ch, cookie } => Call::Result { ch, cookie },
            Kept::Mark { kind, segment } => Call::Mark { kind, segment },
            Kept::Unmark => Call::Unmark,
            Kept::Raise { event } => Call::Raise { event },
            Kept::Checkpoint => Call::Checkpoint,
        })
    }
}
