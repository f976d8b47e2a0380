//! What a program copies and sets to 0, as text.
#![tactic(auto, using(dma_text::proofs::Begun::begun))]

ghost use Rattle.std.specs.Prelude.{◌≡◌, ◌++◌, OnOk, flat_map};
ghost use Rattle.dma_text.specs.Text.{Begins};
ghost use Rattle.dma_trace.specs.Explained.{amounts_text, bursts_text, counter_text, event_line, explained_text, given_text, known_text, none_known, segment_line, source_line};

use crate::amounts::{Bytes, Instructions, Range};
use dma_explain::explain::known::{Given, Known};
use dma_explain::explain::{Amounts, BurstCounts, EventSync, Explained, Happening, Repeated};
use dma_mem::segment::Segment;
use dma_text::text::{Address, Text};
use std::alloc::AllocError;

/// A line for each item that is read.
#[derive(Drop)]
struct Sources<'a>(&'a [Repeated]);

impl Text for Sources<'_> {
    ghost text = { λ sources. flat_map source_line sources.0.now };

    fn push(&self, out: &mut Vec<u8>) -> Result<(), AllocError> {
        let Sources(items) = *self;
        for item in items {
            ("  from ", Range(*item), "\n").push(out)?;
        }
        Ok(())
    }
}

/// A line for each segment that is written, each of which begins with these words.
#[derive(Drop)]
struct Segments<'a> {
    words: &'static str,
    segments: &'a [Segment],
}

impl Text for Segments<'_> {
    ghost text = { λ all. flat_map (segment_line all.words.now) all.segments.now };

    fn push(&self, out: &mut Vec<u8>) -> Result<(), AllocError> {
        let Segments { words, segments } = *self;
        for segment in segments {
            let item = Repeated {
                addr: segment.addr,
                len: segment.len,
                times: 1,
            };
            (words, Range(item), "\n").push(out)?;
        }
        Ok(())
    }
}

/// How many bytes are copied, and how many are set to 0 if there are any.
#[derive(Drop)]
struct Done(Amounts);

impl Text for Done {
    ghost text = { λ done. amounts_text done.0 };

    fn push(&self, out: &mut Vec<u8>) -> Result<(), AllocError> {
        let Amounts { copied, cleared } = self.0;
        if cleared == 0 {
            return Bytes(copied).push(out);
        }
        (Bytes(copied), (" and ", Bytes(cleared), " of zeros")).push(out)
    }
}

// Appends the line of an event.
fn push_event(happening: Happening, out: &mut Vec<u8>) -> Result<(), AllocError>
    ensures ok { OnOk result (out.new.items ≡ out.old.items ++ event_line happening) }
    ensures begins { Begins out.new.items out.old.items }
{
    let done = Done(happening.done);
    match happening.sync {
        EventSync::Waits(event) => {
            ("  after ", done, (": ", ("waits for event ", event), "\n")).push(out)
        }
        EventSync::Signals(event) => {
            ("  after ", done, (": ", ("signals event ", event), "\n")).push(out)
        }
    }
}

/// A line for each event.
#[derive(Drop)]
struct Happenings<'a>(&'a [Happening]);

impl Text for Happenings<'_> {
    ghost text = { λ events. flat_map event_line events.0.now };

    fn push(&self, out: &mut Vec<u8>) -> Result<(), AllocError> {
        let Happenings(events) = *self;
        for happening in events {
            push_event(*happening, out)?;
        }
        Ok(())
    }
}

/// How many bursts a program executes.
#[derive(Drop)]
struct Bursts<'a>(&'a BurstCounts);

impl Text for Bursts<'_> {
    ghost text = { λ bursts. bursts_text bursts.0.now };

    fn push(&self, out: &mut Vec<u8>) -> Result<(), AllocError> {
        let Bursts(counts) = *self;
        let stores = (", stores ", counts.stores, "\n");
        ("  bursts: loads ", counts.loads, stores).push(out)
    }
}

/// A register with which a program begins, if it is known.
#[derive(Drop)]
struct FromAddress {
    known: bool,
    words: &'static str,
    value: u32,
}

impl Text for FromAddress {
    ghost text = { λ from. known_text from.known from.words.now from.value };

    fn push(&self, out: &mut Vec<u8>) -> Result<(), AllocError> {
        if !self.known {
            return Ok(());
        }
        (self.words, Address(self.value)).push(out)
    }
}

/// A loop counter with which a program begins, if it is known.
#[derive(Drop)]
struct FromCounter {
    known: bool,
    words: &'static str,
    value: u8,
}

impl Text for FromCounter {
    ghost text = { λ from. counter_text from.known from.words.now from.value };

    fn push(&self, out: &mut Vec<u8>) -> Result<(), AllocError> {
        if !self.known {
            return Ok(());
        }
        (self.words, u64::from(self.value)).push(out)
    }
}

// Returns whether no register is known.
fn none_known(known: &Known) -> bool
    ensures { result ≡ none_known known.now }
{
    !known.sar && !known.dar && !known.ccr && !known.lc0 && !known.lc1
}

/// The registers from which a program is explained: any, or those that are known.
#[derive(Drop)]
struct FromText<'a>(&'a Given);

impl Text for FromText<'_> {
    ghost text = { λ from. given_text from.0.now };

    fn push(&self, out: &mut Vec<u8>) -> Result<(), AllocError> {
        let Given { registers, known } = *self.0;
        if none_known(&known) {
            return ", for any registers".push(out);
        }
        let sar = FromAddress {
            known: known.sar,
            words: " SAR 0x",
            value: registers.sar,
        };
        let dar = FromAddress {
            known: known.dar,
            words: " DAR 0x",
            value: registers.dar,
        };
        let ccr = FromAddress {
            known: known.ccr,
            words: " CCR 0x",
            value: registers.ccr.bits(),
        };
        let lc0 = FromCounter {
            known: known.lc0,
            words: " LC0 ",
            value: registers.lc0,
        };
        let lc1 = FromCounter {
            known: known.lc1,
            words: " LC1 ",
            value: registers.lc1,
        };
        (", from", (sar, dar, ccr), (lc0, lc1)).push(out)
    }
}

/// What a program copies and sets to 0, from these registers.
#[derive(Drop)]
pub struct Copies<'a> {
    pub given: &'a Given,
    pub explained: &'a Explained,
}

impl Text for Copies<'_> {
    ghost text = { λ copies. explained_text copies.given.now copies.explained.now };

    fn push(&self, out: &mut Vec<u8>) -> Result<(), AllocError> {
        let Copies { given, explained } = *self;
        let size = Bytes(explained.size.copied);
        let steps = Instructions(u64::from(explained.steps));
        let first = ("copies ", size, (", with ", steps, FromText(given), "\n"));
        let sources = Sources(&explained.src);
        let destinations = Segments {
            words: "  to ",
            segments: &explained.dst,
        };
        let zeros = Segments {
            words: "  zeros ",
            segments: &explained.zeros,
        };
        let head = (first, Bursts(&explained.bursts));
        let ranges = (sources, destinations, zeros);
        (head, ranges, Happenings(&explained.events)).push(out)
    }
}
