//! Circles of channels each of which waits for the next.

ghost use Rattle.std.specs.Prelude.{◌≡◌, ◌-◌, IfOk};
ghost use Rattle.std.specs.Option.{option_map};
ghost use Rattle.dma_why.specs.Circles.{circle_from, wait_between, way};

use crate::waits::Wait;
use std::alloc::{AllocError, Global};

/// Returns the wait of a channel for another, or `None` if it doesn't wait for it.
fn wait_between(waits: &[Wait], from: u8, to: u8) -> Option<Wait>
    ensures { result ≡ wait_between waits.now from to }
{
    waits
        .iter()
        .find(|wait| wait.ch == from && wait.by.ch == to)
        .copied()
}

/// Returns a way from a channel to another of one wait, or `None` if the one doesn't wait for the other.
fn step_between(
    alloc: Global,
    waits: &[Wait],
    from: u8,
    to: u8,
) -> Result<Option<Vec<Wait>>, AllocError>
    ensures { IfOk result
        (λ found. option_map (λ way. way.items) found ≡ way waits.now from to 0 0) }
{
    let Some(wait) = wait_between(waits, from, to) else {
        return Ok(None);
    };
    let mut way = Vec::new(alloc);
    way.push(wait)?;
    Ok(Some(way))
}

/// Returns a way from a channel to another over the channels from `low` on, or `None` if there is none.
fn way(
    alloc: Global,
    waits: &[Wait],
    from: u8,
    to: u8,
    low: u8,
    channels: u8,
) -> Result<Option<Vec<Wait>>, AllocError>
    ensures { IfOk result (λ found. option_map (λ way. way.items) found
        ≡ way waits.now from to low (channels - low)) }
{
    if low >= channels {
        return step_between(alloc, waits, from, to);
    }
    if let Some(found) = way(alloc, waits, from, to, low + 1, channels)? {
        return Ok(Some(found));
    }
    let Some(mut found) = way(alloc, waits, from, low, low + 1, channels)? else {
        return Ok(None);
    };
    let Some(rest) = way(alloc, waits, low, to, low + 1, channels)? else {
        return Ok(None);
    };
    found.extend_from_slice(&rest)?;
    Ok(Some(found))
}

/// Returns a circle whose lowest channel is this one, or `None` if there is none.
pub fn circle_from(
    alloc: Global,
    waits: &[Wait],
    channels: u8,
    first: u8,
) -> Result<Option<Vec<Wait>>, AllocError>
    ensures { IfOk result (λ found. option_map (λ circle. circle.items) found
        ≡ circle_from waits.now channels first) }
{
    if first >= channels {
        return step_between(alloc, waits, first, first);
    }
    way(alloc, waits, first, first, first + 1, channels)
}
