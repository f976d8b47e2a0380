//! The open loops, while a text is assembled.

ghost use Rattle.std.specs.Prelude.{◌≡◌, ◌-◌, ◌≤◌};
ghost use Rattle.dma_manual.specs.Assembled.{again_of, back_to, chosen, condition_of, end_of, ended_loop, free_counter, innermost, innermost_of, is_closed_by, is_free_or_closed, jump_of, slot, unclosed, with_loop};

use crate::assembler::{AsmCause, Located, Place};
use crate::insns::{ManualInsn, OtherInsn, Request};
use crate::statements::{Again, End};
use dma_insn::chip::ChipInsn;
use dma_insn::insn::Counter;

/// A loop that no DMALPEND has ended yet.
#[derive(Clone, Copy)]
pub struct Open {
    /// The offset of the loop's body.
    pub start: usize,
    /// The place of a DMALPFE, or of a DMALP without a counter, whose loop has to be ended.
    pub unnamed: Option<Place>,
}

/// How often a loop runs.
#[derive(Clone, Copy)]
pub enum LoopKind {
    /// As often as this counter says: a loop of DMALP.
    Counted(Counter),
    /// For ever: a loop of DMALPFE.
    Endless,
}

impl LoopKind {
    /// Returns the DMALPEND that ends such a loop, which may be for a kind of request.
    pub fn end(self, condition: Option<Request>, back: u8) -> ManualInsn
        ensures { result ≡ end_of self condition back }
    {
        match (self, condition) {
            (LoopKind::Counted(counter), None) => {
                ManualInsn::Chip(ChipInsn::LpEnd { counter, back })
            }
            (LoopKind::Counted(counter), Some(request)) => ManualInsn::Other(OtherInsn::LpEndIf {
                request,
                counter,
                back,
            }),
            (LoopKind::Endless, None) => Again::Always(Counter::Lc1).end(back),
            (LoopKind::Endless, Some(request)) => Again::If(request).end(back),
        }
    }
}

impl Again {
    /// Returns the kind of request that the DMALPEND is for.
    pub fn condition(self) -> Option<Request>
        ensures { result ≡ condition_of self }
    {
        match self {
            Again::Always(_) => None,
            Again::If(request) => Some(request),
        }
    }

    /// Returns the DMALPEND with this jump.
    pub fn end(self, back: u8) -> ManualInsn
        ensures { result ≡ again_of self back }
    {
        match self {
            Again::Always(counter) => ManualInsn::Chip(ChipInsn::LoopAgain { counter, back }),
            Again::If(request) => ManualInsn::Other(OtherInsn::LoopAgainIf { request, back }),
        }
    }
}

/// A DMALPEND that doesn't jump to the start of the open loop of its kind.
#[derive(Clone, Copy)]
pub struct Stray {
    pub place: Place,
    pub kind: LoopKind,
    /// The kind of request that the DMALPEND is for.
    pub condition: Option<Request>,
}

/// The open loops: one of each kind.
#[derive(Clone, Copy)]
pub struct Loops {
    pub lc0: Option<Open>,
    pub lc1: Option<Open>,
    pub endless: Option<Open>,
}

impl Loops {
    // Returns the open loop of a kind.
    fn slot(&self, kind: LoopKind) -> Option<Open>
        ensures { result ≡ slot self.now kind }
    {
        match kind {
            LoopKind::Counted(Counter::Lc0) => self.lc0,
            LoopKind::Counted(Counter::Lc1) => self.lc1,
            LoopKind::Endless => self.endless,
        }
    }

    /// Returns the loops with this one in place of that of its kind.
    pub fn with(self, kind: LoopKind, started: Option<Open>) -> Loops
        ensures { result ≡ with_loop self kind started }
    {
        match kind {
            LoopKind::Counted(Counter::Lc0) => Loops {
                lc0: started,
                ..self
            },
            LoopKind::Counted(Counter::Lc1) => Loops {
                lc1: started,
                ..self
            },
            LoopKind::Endless => Loops {
                endless: started,
                ..self
            },
        }
    }

    // Returns the first counter without an open loop.
    fn free_counter(&self) -> Option<Counter>
        ensures { result ≡ free_counter self.now }
    {
        match (self.lc0, self.lc1) {
            (None, _) => Some(Counter::Lc0),
            (Some(_), None) => Some(Counter::Lc1),
            (Some(_), Some(_)) => None,
        }
    }

    // Returns the counter and the start of the open loop with a counter that begins last.
    fn innermost_counted(&self) -> Option<(LoopKind, usize)>
        ensures { result ≡ innermost_of self.now.lc0 self.now.lc1 }
    {
        match (self.lc0, self.lc1) {
            (None, None) => None,
            (Some(a), None) => Some((LoopKind::Counted(Counter::Lc0), a.start)),
            (None, Some(b)) => Some((LoopKind::Counted(Counter::Lc1), b.start)),
            (Some(a), Some(b)) => {
                if a.start < b.start {
                    Some((LoopKind::Counted(Counter::Lc1), b.start))
                } else {
                    Some((LoopKind::Counted(Counter::Lc0), a.start))
                }
            }
        }
    }

    // Returns the kind and the start of the open loop that begins last.
    fn innermost(&self) -> Option<(LoopKind, usize)>
        ensures { result ≡ innermost self.now }
    {
        let Some(endless) = self.endless else {
            return self.innermost_counted();
        };
        match self.innermost_counted() {
            Some((kind, start)) if endless.start < start => Some((kind, start)),
            _ => Some((LoopKind::Endless, endless.start)),
        }
    }

    /// Returns whether a jump of this many bytes back from an offset leads to the start of the open loop of a kind.
    pub fn is_closed_by(&self, kind: LoopKind, here: usize, back: u8) -> bool
        ensures { result ≡ is_closed_by (slot self.now kind) here back }
    {
        let back = usize::from(back);
        match self.slot(kind) {
            Some(open) => back <= here && here - back == open.start,
            None => false,
        }
    }

    /// Returns whether no loop of DMALPFE is open, or such a jump leads to its start.
    pub fn is_free_or_closed_by(&self, here: usize, back: u8) -> bool
        ensures { result ≡ is_free_or_closed self.now.endless here back }
    {
        self.endless.is_none() || self.is_closed_by(LoopKind::Endless, here, back)
    }

    /// Succeeds if each loop of DMALPFE, or whose counter was found, is ended.
    pub fn closed(&self) -> Result<(), Located>
        ensures { result ≡ unclosed self.now }
    {
        ended(self.lc0)?;
        ended(self.lc1)?;
        ended(self.endless)
    }
}

// Succeeds unless a loop that has to be ended is open.
fn ended(begun: Option<Open>) -> Result<(), Located>
    ensures { result ≡ ended_loop begun }
{
    match begun {
        Some(
            Open {
                unnamed: Some(place),
                ..
            },
        ) => Err(place.fault(AsmCause::Open)),
        _ => Ok(()),
    }
}

/// Returns the counter of a DMALP, and its place if the counter has to be found.
pub fn chosen(
    loops: &Loops,
    counter: Option<Counter>,
    place: Place,
) -> Result<(Counter, Option<Place>), Located>
    ensures { result ≡ chosen loops.now counter place }
{
    match counter {
        Some(counter) => Ok((counter, None)),
        None => match loops.free_counter() {
            Some(counter) => Ok((counter, Some(place))),
            None => Err(place.fault(AsmCause::NoCounter)),
        },
    }
}

// Returns the number of bytes from a loop's start to a DMALPEND, at most 255.
fn back_to(here: usize, start: usize, place: Place) -> Result<u8, Located>
    ensures { result ≡ back_to here start place }
{
    if start <= here && here - start <= 255 {
        Ok((here - start) as u8)
    } else {
        Err(place.fault(AsmCause::Far))
    }
}

/// Returns the kind of loop that a DMALPEND at an offset ends, and the length of its jump.
pub fn jump_of(
    loops: &Loops,
    here: usize,
    end: End,
    place: Place,
) -> Result<(LoopKind, u8), Located>
    ensures { result ≡ jump_of loops.now here end place }
{
    let missing = place.fault(AsmCause::NoLoop);
    match end {
        End::Innermost => {
            let (kind, start) = loops.innermost().ok_or(missing)?;
            Ok((kind, back_to(here, start, place)?))
        }
        End::Of(counter) => {
            let kind = LoopKind::Counted(counter);
            let open = loops.slot(kind).ok_or(missing)?;
            Ok((kind, back_to(here, open.start, place)?))
        }
        End::To(counter, start) => Ok((LoopKind::Counted(counter), back_to(here, start, place)?)),
        End::Back(counter, back) => Ok((LoopKind::Counted(counter), back)),
    }
}
