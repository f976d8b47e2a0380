//! Cuts a transfer's lists into pieces, each of bytes that are moved together.

ghost use Rattle.std.specs.Prelude.{◌≡◌, ◌∷◌, ◌≤◌, [], slice_get, IfSome, MatchOption};
ghost use Rattle.std.specs.List.{AllByRecursion};
ghost use Rattle.dma_mem.specs.Rules.{IsTransfer};
ghost use Rattle.dma_chan.specs.Compiled.{pieces_of};
ghost use Rattle.dma_chan.specs.inner.Compiling.{IsRange};
ghost use Rattle.dma_chan.specs.inner.Cutting.{past};

use dma_mem::segment::Segment;
use dma_mem::transfer::Transfer;
use std::marker::Model;

/// Bytes that are contiguous at both ends, or in a fill at the destination alone.
#[derive(Clone, Copy)]
pub struct Piece {
    /// The first source address. In a fill it is the address of the byte.
    pub src: u32,
    /// The first destination address.
    pub dst: u32,
    /// The number of bytes.
    pub len: u32,
    /// Whether the piece is a fill, which reads the byte at the source address for each of its bytes.
    pub fill: bool,
}

// What is left of a list of segments. Contracts see the segments, and the first may be the rest of a cut one.
#[derive(Drop)]
struct Rest<'a> {
    list: &'a [Segment],
    // How many bytes of the first segment were taken.
    taken: u32,
}

impl<'a> Model for Rest<'a> {
    ghost use Rattle.std.specs.Prelude.{List};
    ghost use Rattle.std.specs.List.{AllByRecursion};
    ghost use Rattle.dma_mem.specs.declared.segment.Segment.{Segment};
    ghost use Rattle.dma_chan.specs.inner.Compiling.{IsRange};
    ghost use Rattle.dma_chan.specs.inner.Cutting.{without};

    ghost Value = { List Segment };

    ghost view = { λ r. without r.taken r.list.now };

    ghost invariant = { λ r. AllByRecursion IsRange (without r.taken r.list.now) };
}

impl<'a> Rest<'a> {
    // Returns the whole list.
    fn of(list: &'a [Segment]) -> Rest<'a>
        requires { AllByRecursion IsRange list.now }
        ensures { result ≡ list.now }
    {
        Rest { list, taken: 0 }
    }

    // Returns the first segment.
    fn first(&self) -> Option<Segment>
        ensures { result ≡ slice_get self.now 0 }
    {
        let first = self.list.first()?;
        Some(Segment {
            addr: first.addr + self.taken,
            len: first.len - self.taken,
        })
    }

    // Takes `len` bytes off the first segment, which has at least as many.
    fn skip(&mut self, len: u32)
        requires { IfSome (slice_get self.old 0) (λ first. len ≤ first.len) }
        ensures { self.new ≡ past len self.old }
    {
        let Some((first, more)) = self.list.split_first() else {
            return;
        };
        if len < first.len - self.taken {
            self.taken += len;
        } else {
            self.list = more;
            self.taken = 0;
        }
    }
}

/// The pieces of a transfer that were not taken yet, in order. Each is cut when it is taken, so nothing is allocated.
#[derive(Drop)]
pub(crate) struct Pieces<'a> {
    fill: bool,
    src: Rest<'a>,
    dst: Rest<'a>,
}

impl<'a> Model for Pieces<'a> {
    ghost use Rattle.std.specs.Prelude.{List};
    ghost use Rattle.dma_chan.specs.declared.pieces.Piece.{Piece};
    ghost use Rattle.dma_chan.specs.inner.Cutting.{pieces_left};

    ghost Value = { List Piece };

    ghost view = { λ p. pieces_left p.fill p.src p.dst };
}

impl<'a> Pieces<'a> {
    /// Returns all pieces of a transfer.
    pub(crate) fn of(transfer: &'a Transfer) -> Pieces<'a>
        ensures value { result ≡ pieces_of transfer.now }
        ensures rules { IsTransfer transfer.now }
    {
        Pieces {
            fill: transfer.is_fill(),
            src: Rest::of(transfer.src()),
            dst: Rest::of(transfer.dst()),
        }
    }

    /// Takes the next piece, if any.
    #[tactic(auto, using(crate::proofs::CutPlaces::none_to_read, crate::proofs::CutPlaces::none_to_write))]
    pub(crate) fn next(&mut self) -> Option<Piece>
        ensures { MatchOption result (self.old ≡ []) (λ piece. self.old ≡ piece ∷ self.new) }
    {
        let src = self.src.first()?;
        let dst = self.dst.first()?;
        let fill = self.fill;
        let len = if fill { dst.len } else { src.len.min(dst.len) };
        if !fill {
            self.src.skip(len);
        }
        self.dst.skip(len);
        Some(Piece {
            src: src.addr,
            dst: dst.addr,
            len,
            fill,
        })
    }
}
