//! Turns of channels.

ghost use Rattle.std.specs.Prelude.{◌≡◌, ◌+◌, ◌≤◌, [], IsTrue, slice_get};
ghost use Rattle.dma_mem.specs.Regions.{in_order, pieces_of};
ghost use Rattle.dma_chan.specs.LentRegions.{AreKept, with_gaps_of};
ghost use Rattle.dma_device.specs.Turns.{TakesTurn, begins, called, called_if, follows, outcome_of, raises, runs_at, runs_without_store, setup_of, visible_events, with_flags};

use crate::device::Device;
use dma_chan::lent::step_regions;
use dma_insn::insn::Event;
use dma_mem::events::Events;
use dma_mem::regions::Region;
use dma_mem::segment::Segment;

/// What a turn did, so that an emulator knows which bytes have changed, and whether an interrupt line has.
#[derive(Clone, Copy)]
pub struct Turn {
    /// The range that it wrote. Each address in it was written, and no other was.
    pub written: Segment,
    /// How many steps it took, the last one included, whatever it did.
    pub taken: u64,
    /// Whether a line of `irqs`, or `irq_abort`, has changed.
    pub lines_changed: bool,
}

// What a call did.
#[derive(Clone, Copy)]
pub(crate) struct Called {
    pub written: Segment,
    // The event whose flag its last step set, if any.
    pub signal: Option<Event>,
    // How many steps it took.
    pub taken: u32,
}

impl Device {
    /// Takes a turn of channel `n` over these regions: at most `most` steps, until one ends, waits, fails or sets a
    /// flag, or before one that writes apart from the range written so far. If the last step raised an interrupt, it
    /// takes one more, unless that is a store: so no more is copied than before the interrupt. A channel that is
    /// stopped or faulting does nothing. A burst that touches an address outside all regions fails, and so does a store
    /// that touches a read-only region.
    pub fn step(&mut self, n: u8, most: u32, regions: &mut [Region<'_>]) -> Turn
        requires { IsTrue (in_order (pieces_of regions.old)) }
        ensures turn { TakesTurn self.old regions.old n most self.new regions.new result }
        ensures few { result.taken ≤ most + 1 }
    {
        let n = usize::from(n);
        let before = (self.irqs(), self.irq_abort());
        let first = self.call_if(self.begins(n, most), n, most, regions);
        let second = self.call_if(self.follows(n, first), n, 1, regions);
        Turn {
            written: first.written,
            taken: u64::from(first.taken) + u64::from(second.taken),
            lines_changed: before.0 != self.irqs() || before.1 != self.irq_abort(),
        }
    }

    // Returns whether a turn of at most `most` steps begins with a call of channel `n`. If so, the channel runs.
    fn begins(&self, n: usize, most: u32) -> bool
        ensures value { result ≡ begins self.now n most }
        ensures runs { IsTrue result → IsTrue (runs_at self.now n) }
    {
        most > 0 && self.runs(n)
    }

    // Calls channel `n` if `made`, else does nothing. If `made`, the channel must run.
    fn call_if(&mut self, made: bool, n: usize, most: u32, regions: &mut [Region<'_>]) -> Called
        requires order { IsTrue (in_order (pieces_of regions.old)) }
        requires runs { IsTrue made → IsTrue (runs_at self.old n) }
        ensures calls { called_if made (with_gaps_of regions.old []) n most
            (setup_of self.old regions.old) ≡ outcome_of self.new regions.new result }
        ensures few { result.taken ≤ most }
        ensures kept { AreKept regions.new regions.old }
    {
        if made {
            self.call(n, most, regions)
        } else {
            Called {
                written: Segment { addr: 0, len: 0 },
                signal: None,
                taken: 0,
            }
        }
    }

    // Returns whether the device has thread `n`, and it runs.
    #[tactic(auto, using(crate::proofs::Found::found_at, crate::proofs::Found::none_at))]
    pub(super) fn runs(&self, n: usize) -> bool
        ensures { result ≡ runs_at self.now n }
    {
        match self.threads.get(n) {
            Some(thread) => thread.runs(),
            None => false,
        }
    }

    // Calls channel `n`, which runs.
    fn call(&mut self, n: usize, most: u32, regions: &mut [Region<'_>]) -> Called
        requires order { IsTrue (in_order (pieces_of regions.old)) }
        requires runs { IsTrue (runs_at self.old n) }
        ensures calls { called (with_gaps_of regions.old []) n most (slice_get self.old.threads n)
            (setup_of self.old regions.old) ≡ outcome_of self.new regions.new result }
        ensures few { result.taken ≤ most }
        ensures kept { AreKept regions.new regions.old }
    {
        let config = self.config;
        let mut events = Events::from_bits(self.visible_events());
        let thread = &mut self.threads[n];
        let taken = step_regions(
            &mut thread.channel,
            regions,
            &mut events,
            &self.no_marks,
            most,
        );
        thread.answer(config.events, taken.last, taken.signal);
        self.set_flags(events.bits());
        Called {
            written: taken.written,
            signal: taken.signal,
            taken: taken.count,
        }
    }

    // Returns the flags that a channel sees.
    pub(super) fn visible_events(&self) -> u32
        ensures { result ≡ visible_events self.now }
    {
        self.events & !self.inten
    }

    // Sets the events and interrupts after a call that left a channel these flags.
    #[tactic(auto, using(crate::proofs::Sound::and_fewer, crate::proofs::Sound::and_known, crate::proofs::Sound::with_events, std::proofs::lemmas::Nat::or_lt))]
    fn set_flags(&mut self, flags: u32)
        ensures { self.new ≡ with_flags flags self.old }
    {
        let known = flags & self.all_events();
        self.events = self.events & self.inten | known & !self.inten;
        self.interrupts |= known & self.inten;
    }

    // Returns whether one more step follows a call of channel `n` that did this. If so, the channel runs.
    fn follows(&self, n: usize, called: Called) -> bool
        ensures value { result ≡ follows self.now n called }
        ensures runs { IsTrue result → IsTrue (runs_at self.now n) }
    {
        self.raises(called.signal) && self.runs_without_store(n)
    }

    // Returns whether the device has thread `n`, which runs, and whose next instruction is no store.
    #[tactic(auto, using(crate::proofs::Found::found_at, crate::proofs::Found::none_at))]
    fn runs_without_store(&self, n: usize) -> bool
        ensures { result ≡ runs_without_store (slice_get self.now.threads n) }
    {
        match self.threads.get(n) {
            Some(thread) => thread.runs() && !thread.is_before_store(),
            None => false,
        }
    }

    // Returns whether a call that set the flag of this event, if any, raised an interrupt.
    fn raises(&self, signal: Option<Event>) -> bool
        ensures { result ≡ raises self.now signal }
    {
        match signal {
            Some(event) => self.is_interrupt(u32::from(event.number())),
            None => false,
        }
    }
}
