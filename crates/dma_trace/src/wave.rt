//! The waveform of a trace, as a Value Change Dump (IEEE 1364).
#![tactic(auto, using(dma_text::proofs::Begun::begun))]

ghost use Rattle.std.specs.Prelude.{◌≡◌, ◌++◌, OnOk};
ghost use Rattle.dma_text.specs.Text.{Begins};
ghost use Rattle.dma_trace.specs.Traced.{if_wave};
ghost use Rattle.dma_trace.specs.Wave.{bursts_text, change_text, event_of, events_text, executing, first_text, ftr_of, header_text, last_text, load_bit, load_bytes, registers_text, signal_bit, signals_text, state_of, store_bit, store_bytes, time_text, wait_bit};

use crate::options::TraceOptions;
use crate::vcd::SignalLine;
use crate::words::{Front, Point};
use dma_chan::bursts::{destination_burst, source_burst};
use dma_chan::turn::{ChanTurn, FaultKind};
use dma_insn::chip::ChipInsn;
use dma_text::text::Text;
use std::alloc::AllocError;

/// A channel at an instruction, as the waveform shows it. At the end of a run `answer` is what the last step answered
/// at this instruction. Before the end it is `None`.
#[derive(Clone, Copy)]
pub struct Moment {
    pub at: Point,
    pub answer: Option<ChanTurn>,
}

impl Moment {
    // Returns a channel that executes its next instruction.
    fn executing(at: &Point) -> Moment
        ensures { result ≡ executing at.now }
    {
        Moment {
            at: *at,
            answer: None,
        }
    }
}

// Returns the channel status of CSR (DMA-330 manual, channel status registers).
fn state_of(answer: &Option<ChanTurn>) -> u32
    ensures { result ≡ state_of answer.now }
{
    match *answer {
        None | Some(ChanTurn::Moved) => 1,
        Some(ChanTurn::Ended) => 0,
        Some(ChanTurn::Waiting(_)) => 4,
        Some(ChanTurn::Fault(_)) => 15,
    }
}

// Returns the bits of FTR.
fn ftr_of(answer: &Option<ChanTurn>) -> u32
    ensures { result ≡ ftr_of answer.now }
{
    match *answer {
        Some(ChanTurn::Fault(kind)) => 1 << kind.bit(),
        _ => 0,
    }
}

// Returns 1 at a DMALD, else 0.
fn load_bit(ahead: &Result<ChipInsn, FaultKind>) -> u32
    ensures { result ≡ load_bit ahead.now }
{
    match *ahead {
        Ok(ChipInsn::Ld) => 1,
        _ => 0,
    }
}

// Returns 1 at a DMAST or DMASTZ, else 0.
fn store_bit(ahead: &Result<ChipInsn, FaultKind>) -> u32
    ensures { result ≡ store_bit ahead.now }
{
    match *ahead {
        Ok(ChipInsn::St) | Ok(ChipInsn::StoreZeros) => 1,
        _ => 0,
    }
}

// Returns 1 at a DMASEV, else 0.
fn signal_bit(ahead: &Result<ChipInsn, FaultKind>) -> u32
    ensures { result ≡ signal_bit ahead.now }
{
    match *ahead {
        Ok(ChipInsn::Sev(_)) => 1,
        _ => 0,
    }
}

// Returns 1 at a DMAWFE, else 0.
fn wait_bit(ahead: &Result<ChipInsn, FaultKind>) -> u32
    ensures { result ≡ wait_bit ahead.now }
{
    match *ahead {
        Ok(ChipInsn::Wfe { .. }) => 1,
        _ => 0,
    }
}

// Returns the event of a DMASEV or DMAWFE, else 0.
fn event_of(ahead: &Result<ChipInsn, FaultKind>) -> u32
    ensures { result ≡ event_of ahead.now }
{
    match *ahead {
        Ok(ChipInsn::Sev(event)) => u32::from(event.number()),
        Ok(ChipInsn::Wfe { event, .. }) => u32::from(event.number()),
        _ => 0,
    }
}

// Returns how many bytes a DMALD loads with these registers.
fn load_bytes(front: &Front) -> u32
    ensures { result ≡ load_bytes front.now }
{
    source_burst(&front.registers).len()
}

// Returns how many bytes a DMAST stores with these registers.
fn store_bytes(front: &Front) -> u32
    ensures { result ≡ store_bytes front.now }
{
    destination_burst(&front.registers).len()
}

// The signals, with their widths and codes.
#[derive(Drop)]
struct Header;

impl Text for Header {
    ghost text = { λ _. header_text };

    fn push(&self, out: &mut Vec<u8>) -> Result<(), AllocError> {
        let head = "$comment a time unit is an instruction $end\n\
            $timescale 1 ns $end\n$scope module dma330 $end\n";
        let registers = "$var wire 16 a pc $end\n$var wire 4 b state $end\n\
            $var wire 32 c ftr $end\n$var wire 32 d sar $end\n$var wire 32 e dar $end\n\
            $var wire 32 f ccr $end\n$var wire 8 g lc0 $end\n$var wire 8 h lc1 $end\n\
            $var wire 9 i buffer $end\n";
        let strobes = "$var wire 1 j ld $end\n$var wire 12 k ld_bytes $end\n\
            $var wire 1 l st $end\n$var wire 12 m st_bytes $end\n$var wire 1 n sev $end\n\
            $var wire 1 o wfe $end\n$var wire 5 p event $end\n";
        let tail = "$upscope $end\n$enddefinitions $end\n";
        (head, registers, strobes, tail).push(out)
    }
}

// The lines of the signals that differ between two moments, or of all signals.
#[derive(Drop)]
struct Signals<'a> {
    all: bool,
    before: &'a Moment,
    after: &'a Moment,
}

impl Signals<'_> {
    // Returns the line of a signal.
    fn line(&self, code: &'static str, width: u32, before: u32, after: u32) -> SignalLine
        ensures { result ≡ record {
          all = self.now.all;
          code = code.entry;
          width = width;
          before = before;
          after = after;
        } }
    {
        SignalLine {
            all: self.all,
            code,
            width,
            before,
            after,
        }
    }

    // Appends the status, the registers and the buffer.
    #[tactic(auto, unfolding(crate::specs::Wave::registers_text))]
    fn push_registers(&self, out: &mut Vec<u8>) -> Result<(), AllocError>
        ensures ok { OnOk result (out.new.items ≡ out.old.items
            ++ registers_text self.now.all self.now.before.now self.now.after.now) }
        ensures begins { Begins out.new.items out.old.items }
    {
        let (held, next_held) = (self.before.at.front.held, self.after.at.front.held);
        let before = &self.before.at.front.registers;
        let after = &self.after.at.front.registers;
        let status = (
            self.line("a", 16, before.pc, after.pc),
            self.line(
                "b",
                4,
                state_of(&self.before.answer),
                state_of(&self.after.answer),
            ),
            self.line(
                "c",
                32,
                ftr_of(&self.before.answer),
                ftr_of(&self.after.answer),
            ),
        );
        let addresses = (
            self.line("d", 32, before.sar, after.sar),
            self.line("e", 32, before.dar, after.dar),
            self.line("f", 32, before.ccr.bits(), after.ccr.bits()),
        );
        let counts = (
            self.line("g", 8, u32::from(before.lc0), u32::from(after.lc0)),
            self.line("h", 8, u32::from(before.lc1), u32::from(after.lc1)),
            self.line("i", 9, held, next_held),
        );
        (status, addresses, counts).push(out)
    }

    // Appends what the instruction loads or stores.
    #[tactic(auto, unfolding(crate::specs::Wave::bursts_text))]
    fn push_bursts(&self, out: &mut Vec<u8>) -> Result<(), AllocError>
        ensures ok { OnOk result (out.new.items ≡ out.old.items
            ++ bursts_text self.now.all self.now.before.now self.now.after.now) }
        ensures begins { Begins out.new.items out.old.items }
    {
        let (before, after) = (&self.before.at, &self.after.at);
        (
            self.line("j", 1, load_bit(&before.ahead), load_bit(&after.ahead)),
            self.line("k", 12, load_bytes(&before.front), load_bytes(&after.front)),
            self.line("l", 1, store_bit(&before.ahead), store_bit(&after.ahead)),
            self.line(
                "m",
                12,
                store_bytes(&before.front),
                store_bytes(&after.front),
            ),
        )
            .push(out)
    }

    // Appends what the instruction does with an event.
    #[tactic(auto, unfolding(crate::specs::Wave::events_text))]
    fn push_events(&self, out: &mut Vec<u8>) -> Result<(), AllocError>
        ensures ok { OnOk result (out.new.items ≡ out.old.items
            ++ events_text self.now.all self.now.before.now self.now.after.now) }
        ensures begins { Begins out.new.items out.old.items }
    {
        let (before, after) = (&self.before.at.ahead, &self.after.at.ahead);
        (
            self.line("n", 1, signal_bit(before), signal_bit(after)),
            self.line("o", 1, wait_bit(before), wait_bit(after)),
            self.line("p", 5, event_of(before), event_of(after)),
        )
            .push(out)
    }
}

impl Text for Signals<'_> {
    ghost text = { λ s. signals_text s.all s.before.now s.after.now };

    fn push(&self, out: &mut Vec<u8>) -> Result<(), AllocError> {
        self.push_registers(out)?;
        self.push_bursts(out)?;
        self.push_events(out)
    }
}

// A time.
#[derive(Drop)]
struct Time(u64);

impl Text for Time {
    ghost text = { λ time. time_text time.0 };

    fn push(&self, out: &mut Vec<u8>) -> Result<(), AllocError> {
        ("#", self.0, "\n").push(out)
    }
}

// Appends the header and each signal's value.
fn push_header(first: &Moment, wave: &mut Vec<u8>) -> Result<(), AllocError>
    ensures ok { OnOk result (wave.new.items ≡ wave.old.items ++ first_text first.now) }
    ensures begins { Begins wave.new.items wave.old.items }
{
    let time = Time(u64::from(first.at.steps));
    let signals = Signals {
        all: true,
        before: first,
        after: first,
    };
    ((Header, time, "$dumpvars\n"), signals, "$end\n").push(wave)
}

/// Appends the header and each signal's value at the first instruction, if a waveform is wanted.
pub fn push_first(options: &TraceOptions, at: &Point, wave: &mut Vec<u8>) -> Result<(), AllocError>
    ensures ok { OnOk result (wave.new.items
        ≡ wave.old.items ++ if_wave options.now (first_text (executing at.now))) }
    ensures begins { Begins wave.new.items wave.old.items }
{
    if !options.wave {
        return Ok(());
    }
    push_header(&Moment::executing(at), wave)
}

/// Appends the changes from an instruction to the next one, if a waveform is wanted.
pub fn push_next(
    options: &TraceOptions,
    at: &Point,
    next: &Point,
    wave: &mut Vec<u8>,
) -> Result<(), AllocError>
    ensures ok { OnOk result (wave.new.items ≡ wave.old.items
        ++ if_wave options.now (change_text (executing at.now) (executing next.now))) }
    ensures begins { Begins wave.new.items wave.old.items }
{
    if !options.wave {
        return Ok(());
    }
    let before = Moment::executing(at);
    let after = Moment::executing(next);
    let signals = Signals {
        all: false,
        before: &before,
        after: &after,
    };
    (Time(u64::from(next.steps)), signals).push(wave)
}

/// Appends the waveform's end, if a waveform is wanted. `answer` is that of the last step, made at this instruction.
pub fn push_last(
    options: &TraceOptions,
    at: &Point,
    answer: &Option<ChanTurn>,
    wave: &mut Vec<u8>,
) -> Result<(), AllocError>
    ensures ok { OnOk result (wave.new.items ≡ wave.old.items ++ if_wave options.now (last_text
        (executing at.now) answer.now)) }
    ensures begins { Begins wave.new.items wave.old.items }
{
    if !options.wave {
        return Ok(());
    }
    let steps = u64::from(at.steps);
    let before = Moment::executing(at);
    let after = Moment {
        at: *at,
        answer: *answer,
    };
    let signals = Signals {
        all: false,
        before: &before,
        after: &after,
    };
    (Time(steps + 1), signals, Time(steps + 2)).push(wave)
}
