//! The data bus of a channel.

ghost use Rattle.std.specs.Prelude.{◌≡◌, ◌≤◌, ◌^◌};
ghost use Rattle.dma_chan.specs.Bursts.{burst_at, drops};
ghost use Rattle.dma_chan.specs.Bus.{bus_code, fits, widest_beat};

/// The width of a chip's data bus.
#[derive(Clone, Copy, PartialEq, Eq)]
pub enum BusWidth {
    Bits32,
    Bits64,
    Bits128,
}

impl BusWidth {
    /// Returns the code in CRD: the bus has two to this power bytes.
    pub fn code(self) -> u32
        ensures value { result ≡ bus_code self }
        ensures range { result ≤ 4 }
    {
        match self {
            BusWidth::Bits32 => 2,
            BusWidth::Bits64 => 3,
            BusWidth::Bits128 => 4,
        }
    }

    /// Returns how many bytes the bus has.
    pub fn bytes(self) -> u32
        ensures { result ≡ 2 ^ bus_code self }
    {
        match self {
            BusWidth::Bits32 => 4,
            BusWidth::Bits64 => 8,
            BusWidth::Bits128 => 16,
        }
    }
}

/// What a channel's data bus can do. No instruction changes it, and no save has it.
#[derive(Clone, Copy, PartialEq, Eq)]
pub enum Bus {
    /// Beats of up to 16 bytes, each whole at any address (profile). The engine's channels have this bus.
    Ideal,
    /// A chip's: beats of at most this width. The first beat of a burst whose address rises ends at the next multiple
    /// of its size.
    Chip(BusWidth),
}

impl Bus {
    /// Returns how many bytes the widest beat of the bus has.
    pub fn widest_beat(self) -> u32
        ensures { result ≡ widest_beat self }
    {
        match self {
            Bus::Ideal => 16,
            Bus::Chip(width) => width.bytes(),
        }
    }

    /// Returns whether the beats of a control word with these bits fit the bus.
    pub fn fits(self, bits: u32) -> bool
        ensures { result ≡ fits self bits }
    {
        match self {
            Bus::Ideal => true,
            Bus::Chip(width) => {
                (bits >> 1) % 8 <= width.code() && (bits >> 15) % 8 <= width.code()
            }
        }
    }

    /// Returns whether a channel drops the bytes in its buffer when its next store changes: from the one at an address,
    /// by a control word with these bits, to the one at another address, by other bits.
    #[tactic(auto, unfolding(crate::specs::Bursts::burst_at))]
    pub fn drops(self, addr: u32, bits: u32, new_addr: u32, new_bits: u32) -> bool
        ensures { result
            ≡ drops self (burst_at self 14 addr bits) (burst_at self 14 new_addr new_bits) }
    {
        let Bus::Chip(width) = self else {
            return false;
        };
        if addr % width.bytes() != new_addr % width.bytes() {
            return true;
        }
        let rises = (bits >> 14) % 2 == 1;
        let new_rises = (new_bits >> 14) % 2 == 1;
        if rises {
            return !new_rises;
        }
        let size = 1u32 << ((bits >> 15) % 8);
        let new_size = 1u32 << ((new_bits >> 15) % 8);
        new_rises || size != new_size
    }
}
