//! What the channels of an engine wait for.

ghost use Rattle.std.specs.Prelude.{◌≡◌, ◌==◌, ◌+◌, ◌<◌, ◌++◌, IfOk, OnOk, map};
ghost use Rattle.std.specs.List.{list_all};
ghost use Rattle.std.specs.Option.{option_and_then, option_map, option_to_list};
ghost use Rattle.dma_engine.specs.Object.{channel, front};
ghost use Rattle.dma_engine.specs.View.{object_of, runs};
ghost use Rattle.dma_why.specs.Waits.{event_wait, holder, holders, signallers, signallers_on, signals_later, waits_of, waits_on};

use dma_engine::{Engine, EngineFault, Turn};
use dma_mem::transfer::Transfer;
use dma_text::text::Text;
use std::alloc::{AllocError, Global};

/// A cookie with its channel, since each channel counts its cookies from 1.
#[derive(Clone, Copy)]
pub struct Cookie {
    /// The channel.
    pub ch: u8,
    /// The cookie's number on the channel, from 1.
    pub number: u32,
}

impl Text for Cookie {
    ghost use Rattle.dma_why.specs.Why.{cookie_text};

    ghost text = { cookie_text };

    fn push(&self, out: &mut Vec<u8>) -> Result<(), AllocError> {
        ("cookie ", self.number, " of channel ", self.ch).push(out)
    }
}

/// What a channel waits for.
#[derive(Clone, Copy)]
pub struct Wait {
    /// The channel.
    pub ch: u8,
    /// The event for which its front waits, or `None` if its front can't start before the cookie `by` has ended.
    pub event: Option<u8>,
    /// The running front that holds the channel's front, or the first cookie that would signal the event.
    pub by: Cookie,
}

impl Text for Wait {
    ghost use Rattle.dma_why.specs.Why.{wait_text};

    ghost text = { wait_text };

    fn push(&self, out: &mut Vec<u8>) -> Result<(), AllocError> {
        match self.event {
            None => (" waits for channel ", self.by.ch).push(out),
            Some(event) => {
                let event = (" waits for event ", event, ", which ");
                (event, self.by, " would signal").push(out)
            }
        }
    }
}

/// Returns whether the unfinished cookie after `before` cookies of a channel would signal an event.
fn signals_later(engine: &Engine, event: u8, ch: u8, before: u32) -> bool
    requires { before < u32.MAX }
    ensures { result ≡ signals_later (object_of engine.now.view) event ch (before + 1) }
{
    if engine.halted(ch) || engine.signalled(ch) && before == engine.finished(ch) {
        return false;
    }
    let Some(transfer) = engine.transfer_of(ch, before + 1) else {
        return false;
    };
    match transfer.signal() {
        Some(signalled) => signalled == event,
        None => false,
    }
}

/// Appends the unfinished cookies of a channel that would signal an event.
fn push_signallers(
    engine: &Engine,
    event: u8,
    ch: u8,
    found: &mut Vec<Cookie>,
) -> Result<(), AllocError>
    ensures { OnOk result (found.new.items
        ≡ found.old.items ++ signallers_on (object_of engine.now.view) event ch) }
{
    for before in engine.finished(ch)..engine.used(ch) {
        if signals_later(engine, event, ch, before) {
            found.push(Cookie {
                ch,
                number: before + 1,
            })?;
        }
    }
    Ok(())
}

/// Returns the unfinished cookies that would signal an event, by channels and then by numbers.
#[tactic(auto, using(crate::proofs::WaitLemmas::items_more))]
pub fn signallers(alloc: Global, engine: &Engine, event: u8) -> Result<Vec<Cookie>, AllocError>
    ensures { IfOk result
        (λ found. found.items ≡ signallers (object_of engine.now.view) event) }
{
    let mut found = Vec::new(alloc);
    for ch in 0..engine.channels() {
        push_signallers(engine, event, ch, &mut found)?;
    }
    Ok(found)
}

/// Returns the first unfinished transfer of a channel.
fn front_of(engine: &Engine, ch: u8) -> Option<&Transfer>
    ensures { option_map (λ t. t.now) result
        ≡ front (channel (object_of engine.now.view) ch) }
{
    let finished = engine.finished(ch);
    if finished >= engine.used(ch) {
        return None;
    }
    engine.transfer_of(ch, finished + 1)
}

/// Returns the cookie that runs on a channel, if a transfer isn't free of it.
fn holder_on(engine: &Engine, transfer: &Transfer, ch: u8) -> Option<Cookie>
    ensures { let v = engine.now.view in result
        ≡ option_and_then (holder transfer.now) (runs (object_of v) v.schedule ch) }
{
    let running = engine.running(ch)?;
    let other = engine.transfer_of(ch, running.cookie)?;
    if transfer.is_free_of(other) {
        return None;
    }
    Some(Cookie {
        ch,
        number: running.cookie,
    })
}

/// Returns the running fronts that hold the front of a channel, by channels.
pub fn holders(alloc: Global, engine: &Engine, ch: u8) -> Result<Vec<Cookie>, AllocError>
    ensures { IfOk result (λ found. found.items ≡ holders engine.now.view ch) }
{
    let mut found = Vec::new(alloc);
    let Some(transfer) = front_of(engine, ch) else {
        return Ok(found);
    };
    for other in 0..engine.channels() {
        if let Some(cookie) = holder_on(engine, transfer, other) {
            found.push(cookie)?;
        }
    }
    Ok(found)
}

/// Returns whether all these cookies are on one channel.
fn are_on(found: &[Cookie], ch: u8) -> bool
    ensures { result ≡ list_all (λ c. c.ch == ch) found.now }
{
    found.iter().all(|cookie| cookie.ch == ch)
}

/// Returns the wait of a channel for an event, given the cookies that would signal it.
fn event_wait(ch: u8, event: u8, found: &[Cookie]) -> Option<Wait>
    ensures { option_to_list result ≡ event_wait ch event found.now }
{
    let by = *found.first()?;
    if !are_on(found, by.ch) {
        return None;
    }
    Some(Wait {
        ch,
        event: Some(event),
        by,
    })
}

/// Appends what a channel waits for.
fn push_waits(
    alloc: Global,
    engine: &Engine,
    ch: u8,
    waits: &mut Vec<Wait>,
) -> Result<(), AllocError>
    ensures { OnOk result
        (waits.new.items ≡ waits.old.items ++ waits_on engine.now.view ch) }
{
    match engine.next_turn(ch) {
        Ok(Turn::Held { .. }) => {
            let found = holders(alloc, engine, ch)?;
            for by in &found {
                waits.push(Wait {
                    ch,
                    event: None,
                    by: *by,
                })?;
            }
            Ok(())
        }
        Ok(Turn::Waiting(event)) => {
            let found = signallers(alloc, engine, event)?;
            if let Some(wait) = event_wait(ch, event, &found) {
                waits.push(wait)?;
            }
            Ok(())
        }
        _ => Ok(()),
    }
}

/// Returns what all channels wait for, by channels.
#[tactic(auto, using(crate::proofs::WaitLemmas::items_more))]
pub fn waits(alloc: Global, engine: &Engine) -> Result<Vec<Wait>, AllocError>
    ensures { IfOk result (λ waits. waits.items ≡ waits_of engine.now.view) }
{
    let mut waits = Vec::new(alloc);
    for ch in 0..engine.channels() {
        push_waits(alloc, engine, ch, &mut waits)?;
    }
    Ok(waits)
}
