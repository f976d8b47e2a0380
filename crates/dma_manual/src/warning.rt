//! What is printed about a text that is assembled.

ghost use Rattle.std.specs.Prelude.{◌≡◌};
ghost use Rattle.dma_manual.specs.Assembled.{draft_view};
ghost use Rattle.dma_manual.specs.Errors.{start_name, stops_or_empty, warning_text};

use crate::draft::Draft;
use crate::loops::{LoopKind, Stray};
use crate::manual::end_name;
use dma_text::text::Text;
use std::alloc::AllocError;

/// The first warning about a program, if there is one.
#[derive(Clone, Copy)]
pub struct Warning {
    /// The first DMALPEND that doesn't jump to the start of the open loop of its kind.
    pub stray: Option<Stray>,
    /// Whether the text has a DMAEND, or a `DCB` or a `DCD` with a byte 0, or the program has no bytes.
    pub stops: bool,
}

// Returns the name of the instruction that begins a loop of a kind.
fn start_name(kind: LoopKind) -> &'static str
    ensures { result.now ≡ start_name kind }
{
    match kind {
        LoopKind::Counted(_) => "DMALP",
        LoopKind::Endless => "DMALPFE",
    }
}

impl Text for Warning {
    ghost text = { λ w. warning_text w.stray w.stops };

    fn push(&self, out: &mut Vec<u8>) -> Result<(), AllocError> {
        match self.stray {
            Some(stray) => {
                let place = stray.place;
                let words = "' does not jump to the instruction after its ";
                let end = (words, start_name(stray.kind), "\n");
                let warning = (": warning: '", end_name(stray.condition), end);
                (place.line, ":", place.column, warning).push(out)
            }
            None if self.stops => "".push(out),
            None => " warning: the text has no DMAEND\n".push(out),
        }
    }
}

/// Returns the first warning about a program.
pub fn warning_of(draft: &Draft) -> Warning
    ensures stray { result.stray ≡ draft.now.stray }
    ensures stops { result.stops ≡ stops_or_empty (draft_view draft.now) }
{
    Warning {
        stray: draft.stray,
        stops: draft.stops || draft.code.is_empty(),
    }
}
