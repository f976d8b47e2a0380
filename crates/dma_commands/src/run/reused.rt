//! A list of calls that is filled again and again.
ghost use Rattle.std.specs.Prelude.{◌≡◌, ◌≤◌, ◌<◌, ◌+◌, ◌++◌, ◌∷◌, [], false, IsTrue, OnErr, OnOk, length, replicate, take};
ghost use Rattle.std.specs.Vec.{vec_capacity};

use dma_engine::Call;
use std::alloc::{AllocError, Global};
use std::marker::Model;

/// Calls for one `run`. After they were made, they stay as places for the next ones: to add a step takes little more
/// than to write its channel, and drops nothing. Contracts see the calls that are to be made.
#[derive(Drop)]
pub struct ReusedCalls {
    places: Vec<Call>,
    // How many of the places have a call that is to be made. Those behind have calls that were made.
    len: usize,
}

impl Model for ReusedCalls {
    ghost use Rattle.std.specs.Prelude.{◌≤◌, List, length, take};
    ghost use Rattle.dma_mem.specs.declared.call.Call.{Call};

    ghost Value = { List Call };

    ghost view = { λ s. take s.len s.places.items };

    ghost invariant = { λ s. s.len ≤ length s.places.items };
}

impl ReusedCalls {
    /// Returns a list without calls. Doesn't allocate.
    pub fn new(alloc: Global) -> ReusedCalls
        ensures { result ≡ [] }
    {
        ReusedCalls {
            places: Vec::new(alloc),
            len: 0,
        }
    }

    /// Returns the number of calls.
    pub fn len(&self) -> usize
        ensures { result ≡ length self.now }
    {
        self.len
    }

    /// Returns the calls.
    pub fn as_slice(&self) -> &[Call]
        ensures { result.now ≡ self.now }
    {
        &self.places[..self.len]
    }

    /// Removes all calls. Their places stay for the next ones.
    pub fn clear(&mut self)
        ensures { self.new ≡ [] }
    {
        self.len = 0;
    }

    /// Makes room for this many more calls. If memory runs out, the list is unchanged.
    pub fn reserve(&mut self, count: usize) -> Result<(), AllocError>
        ensures { self.new ≡ self.old }
    {
        let free = self.places.len() - self.len;
        if count > free {
            self.places.reserve(count - free)?;
        }
        Ok(())
    }

    /// Adds a call. If memory runs out, the list is unchanged.
    #[inline(always)]
    pub fn push(&mut self, call: Call) -> Result<(), AllocError>
        ensures ok { OnOk result (self.new ≡ self.old ++ call ∷ []) }
        ensures err { OnErr result (self.new ≡ self.old) }
    {
        put(&mut self.places, self.len, call)?;
        self.len += 1;
        Ok(())
    }

    /// Adds a step of a channel, if a step that was made has its place. Then it takes no memory. Returns whether it was
    /// added.
    #[inline(always)]
    pub fn reuse_step(&mut self, ch: u8) -> bool
        ensures added { IsTrue result → self.new ≡ self.old ++ Call.Step ch ∷ [] }
        ensures same { result ≡ false → self.new ≡ self.old }
    {
        if self.len < self.places.len()
            && let Call::Step { ch: place } = &mut self.places[self.len]
        {
            *place = ch;
            self.len += 1;
            return true;
        }
        false
    }

    /// Adds this many steps of a channel. If memory runs out, the list is unchanged.
    #[inline(always)]
    pub fn push_steps(&mut self, ch: u8, count: u32) -> Result<(), AllocError>
        ensures ok { OnOk result (self.new ≡ self.old ++ replicate count (Call.Step ch)) }
        ensures err { OnErr result (self.new ≡ self.old) }
    {
        self.reserve(count as usize)?;
        let mut end = self.len;
        for _ in 0..count {
            put_step(&mut self.places, end, ch)?;
            end += 1;
        }
        self.len = end;
        Ok(())
    }
}

/// Writes a call to a place, or to a new one at the end. If memory runs out, the places are unchanged.
#[inline(always)]
fn put(places: &mut Vec<Call>, at: usize, call: Call) -> Result<(), AllocError>
    requires { at ≤ length places.old.items }
    ensures ok { OnOk result (take (at + 1) places.new.items ≡ take at places.old.items ++ call ∷ []) }
    ensures some { OnOk result (at < length places.new.items) }
    ensures err { OnErr result (places.new.items ≡ places.old.items) }
{
    if at < places.len() {
        places[at] = call;
        return Ok(());
    }
    places.push(call)?;
    Ok(())
}

/// Writes a step to a place, or to a new one at the end. If memory runs out, the places are unchanged.
#[inline(always)]
fn put_step(places: &mut Vec<Call>, at: usize, ch: u8) -> Result<(), AllocError>
    requires { at ≤ length places.old.items }
    ensures ok { OnOk result
        (take (at + 1) places.new.items ≡ take at places.old.items ++ Call.Step ch ∷ []) }
    ensures some { OnOk result (at < length places.new.items) }
    ensures err { OnErr result (places.new.items ≡ places.old.items) }
{
    if at < places.len()
        && let Call::Step { ch: place } = &mut places[at]
    {
        *place = ch;
        return Ok(());
    }
    put(places, at, Call::Step { ch })
}
