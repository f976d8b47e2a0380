//! The lines that say why each channel is where it is.
#![tactic(auto, using(dma_text::proofs::Begun::begun))]

ghost use Rattle.std.specs.Prelude.{◌≡◌, ◌-◌, ◌++◌, OnOk};
ghost use Rattle.dma_mem.specs.Places.{size_of};
ghost use Rattle.dma_engine.specs.Object.{channel, finished};
ghost use Rattle.dma_engine.specs.Answer.{done_on, result_of};
ghost use Rattle.dma_engine.specs.View.{object_of};
ghost use Rattle.dma_io.specs.Command.{text_of};
ghost use Rattle.dma_why.specs.Why.{address_text, channel_lines, circle_lines, ending_text, event_lines, explanation, failed_at, front_text, last_text, signaller_lines, state_text, texts_between, transfer_or_none};

use crate::circles::circle_from;
use crate::waits::{Cookie, Wait, holders, signallers, waits};
use dma_commands::printing::Shown;
use dma_engine::{Engine, EngineFault, Outcome, TransResult, Turn};
use dma_io::printing::print_line;
use dma_mem::transfer::Transfer;
use dma_text::text::{Address, Text};
use std::alloc::{AllocError, Global};

/// Returns how many bytes the front of a channel has stored, or 0 if nothing runs there.
fn stored_on(engine: &Engine, ch: u8) -> u32
    ensures { result ≡ done_on engine.now.view ch }
{
    match engine.running(ch) {
        Some(running) => running.stored,
        None => 0,
    }
}

/// Returns how many bytes the transfer of a cookie has, or 0 if there is none.
fn size_at(engine: &Engine, ch: u8, cookie: u32) -> u32
    ensures { result ≡ size_of (transfer_or_none (object_of engine.now.view) ch cookie) }
{
    match engine.transfer_of(ch, cookie) {
        Some(transfer) => transfer.len(),
        None => 0,
    }
}

/// Appends the first unfinished cookie of a channel, and how many of its bytes are stored.
fn push_front(engine: &Engine, ch: u8, out: &mut Vec<u8>) -> Result<(), AllocError>
    ensures { OnOk result (out.new.items ≡ out.old.items ++ front_text engine.now.view ch) }
{
    let finished = engine.finished(ch);
    if finished >= engine.used(ch) {
        return "nothing unfinished".push(out);
    }
    let cookie = finished + 1;
    let stored = ("cookie ", cookie, ", ", stored_on(engine, ch));
    (stored, " of ", size_at(engine, ch, cookie), " bytes").push(out)
}

/// An address at which a transfer failed, or none.
#[derive(Drop)]
struct At(Option<u32>);

impl Text for At {
    ghost text = { λ at. address_text at.0 };

    fn push(&self, out: &mut Vec<u8>) -> Result<(), AllocError> {
        match self.0 {
            Some(addr) => (" at 0x", Address(addr)).push(out),
            None => Ok(()),
        }
    }
}

/// Returns the address at which a transfer failed with `done` bytes stored.
fn failed_at(transfer: &Transfer, how: TransResult, done: u32) -> Option<u32>
    ensures { result ≡ failed_at transfer.now how done }
{
    match how {
        TransResult::ReadFailed => transfer.src_place(done),
        TransResult::WriteFailed => transfer.dst_place(done),
        TransResult::NoError | TransResult::Aborted => None,
    }
}

/// Returns the address at which a cookie with this outcome failed.
fn place_of(engine: &Engine, ch: u8, cookie: u32, outcome: Outcome) -> Option<u32>
    ensures { let t = transfer_or_none (object_of engine.now.view) ch cookie in
        result ≡ failed_at t outcome.result (size_of t - outcome.residue) }
{
    let transfer = engine.transfer_of(ch, cookie)?;
    let done = transfer.len().saturating_sub(outcome.residue);
    failed_at(transfer, outcome.result, done)
}

/// Appends how a cookie finished or will finish, and where it fails.
fn push_ending(
    engine: &Engine,
    ch: u8,
    cookie: u32,
    outcome: Outcome,
    out: &mut Vec<u8>,
) -> Result<(), AllocError>
    ensures { let t = transfer_or_none (object_of engine.now.view) ch cookie in
        OnOk result (out.new.items
        ≡ out.old.items ++ ending_text t outcome.result outcome.residue) }
{
    let place = At(place_of(engine, ch, cookie, outcome));
    (Shown(Some(outcome)), place).push(out)
}

/// Appends the end of the last cookie of a channel that finished.
fn push_last(engine: &Engine, ch: u8, out: &mut Vec<u8>) -> Result<(), AllocError>
    ensures { let o = object_of engine.now.view in OnOk result (out.new.items
        ≡ out.old.items ++ last_text o ch (result_of o ch (finished (channel o ch)))) }
{
    let cookie = engine.finished(ch);
    match engine.result(ch, cookie) {
        Some(outcome) => {
            (", cookie ", cookie, " finished ").push(out)?;
            push_ending(engine, ch, cookie, outcome, out)
        }
        None => Ok(()),
    }
}

/// Appends the texts of some values, with a text between each two.
fn push_between<T: Text>(between: &str, values: &[T], out: &mut Vec<u8>) -> Result<(), AllocError>
    ensures { OnOk result
        (out.new.items ≡ out.old.items ++ texts_between between.now T.text values.now) }
{
    for (index, value) in values.iter().enumerate() {
        if index > 0 {
            between.push(out)?;
        }
        value.push(out)?;
    }
    Ok(())
}

/// Appends what a channel does whose next step has this result.
fn push_state(
    alloc: Global,
    engine: &Engine,
    ch: u8,
    turned: Result<Turn, EngineFault>,
    out: &mut Vec<u8>,
) -> Result<(), AllocError>
    ensures { OnOk result
        (out.new.items ≡ out.old.items ++ state_text engine.now.view ch turned) }
{
    match turned {
        Ok(Turn::Nothing) if engine.unfinished(ch) == 0 => Ok(()),
        Ok(Turn::Nothing) => ": not issued".push(out),
        Ok(Turn::Held { .. }) => {
            let found = holders(alloc, engine, ch)?;
            ": held by ".push(out)?;
            push_between(", ", &found, out)
        }
        Ok(Turn::Started(_)) => ": can start".push(out),
        Ok(Turn::Moved) => ": runs".push(out),
        Ok(Turn::Waiting(event)) => (": waits for event ", event).push(out),
        Ok(Turn::Paused) => ": paused".push(out),
        Ok(Turn::Halted) => {
            ": halted".push(out)?;
            push_last(engine, ch, out)
        }
        Ok(
            Turn::Finished {
                cookie,
                result: how,
                residue,
            },
        ) => {
            ": next finishes ".push(out)?;
            let outcome = Outcome {
                result: how,
                residue,
            };
            push_ending(engine, ch, cookie, outcome, out)
        }
        Err(_) => ": the step count is at its end".push(out),
    }
}

/// Appends the lines of the cookies that would signal an event.
fn push_signallers(found: &[Cookie], out: &mut Vec<u8>) -> Result<(), AllocError>
    ensures { OnOk result
        (out.new.items ≡ out.old.items ++ text_of (signaller_lines found.now)) }
{
    if found.is_empty() {
        return print_line(out, &"  no unfinished cookie would signal it");
    }
    for cookie in found {
        print_line(out, &("  ", *cookie, " would signal it"))?;
    }
    Ok(())
}

/// Appends the lines of the cookies that would signal the event for which a channel waits.
fn push_event(
    alloc: Global,
    engine: &Engine,
    turned: Result<Turn, EngineFault>,
    out: &mut Vec<u8>,
) -> Result<(), AllocError>
    ensures { OnOk result (out.new.items
        ≡ out.old.items ++ text_of (event_lines (object_of engine.now.view) turned)) }
{
    match turned {
        Ok(Turn::Waiting(event)) => {
            let found = signallers(alloc, engine, event)?;
            push_signallers(&found, out)
        }
        _ => Ok(()),
    }
}

/// Appends the lines of a channel.
fn push_channel(alloc: Global, engine: &Engine, ch: u8, out: &mut Vec<u8>) -> Result<(), AllocError>
    ensures { OnOk result
        (out.new.items ≡ out.old.items ++ text_of (channel_lines engine.now.view ch)) }
{
    let turned = engine.next_turn(ch);
    ("channel ", ch, ": ").push(out)?;
    push_front(engine, ch, out)?;
    push_state(alloc, engine, ch, turned, out)?;
    "\n".push(out)?;
    push_event(alloc, engine, turned, out)
}

/// Appends the line of a circle whose lowest channel is this one, if there is one.
fn push_circle(
    alloc: Global,
    waits: &[Wait],
    channels: u8,
    first: u8,
    out: &mut Vec<u8>,
) -> Result<(), AllocError>
    ensures { OnOk result
        (out.new.items ≡ out.old.items ++ text_of (circle_lines waits.now channels first)) }
{
    let Some(circle) = circle_from(alloc, waits, channels, first)? else {
        return Ok(());
    };
    ("circle: ", first).push(out)?;
    push_between(", which", &circle, out)?;
    "\n".push(out)
}

/// Appends why each channel is where it is.
#[tactic(auto, using(crate::proofs::WaitLemmas::text_more))]
pub(crate) fn push_explanation(
    alloc: Global,
    engine: &Engine,
    out: &mut Vec<u8>,
) -> Result<(), AllocError>
    ensures { OnOk result
        (out.new.items ≡ out.old.items ++ text_of (explanation engine.now.view)) }
{
    let channels = engine.channels();
    for ch in 0..channels {
        push_channel(alloc, engine, ch, out)?;
    }
    let waits = waits(alloc, engine)?;
    for first in 0..channels {
        push_circle(alloc, &waits, channels, first, out)?;
    }
    Ok(())
}
