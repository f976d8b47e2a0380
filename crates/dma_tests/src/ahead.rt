//! The next instruction of a channel, on each kind of bus.

use dma_chan::bus::{Bus, BusWidth};
use dma_chan::channel::Channel;
use dma_chan::exec::Registers;
use dma_chan::turn::FaultKind;
use dma_insn::chip::ChipInsn;
use dma_insn::insn::{Insn, Reg};
use std::test::Fail;

// The ideal bus has no DMASTZ, whose byte is 0x0c.
#[test]
fn an_instruction_is_read_ahead(rt: HostRuntime) -> Result<(), Fail> {
    let mut channel = Channel::new(rt.alloc())?;
    channel.load_bytes(b"\xbc\x02\0\x20\0\0", Registers::start(Bus::Ideal));
    assert!(rt; channel.ahead() == Ok(Insn::Mov(Reg::Dar, 0x2000)));
    channel.load_bytes(b"\x0c", Registers::start(Bus::Ideal));
    assert!(rt; channel.ahead() == Err(FaultKind::UndefInstr));
    channel.load_bytes(b"\x0c", Registers::start(Bus::Chip(BusWidth::Bits32)));
    assert!(rt; matches!(channel.ahead_on_bus(), Ok(ChipInsn::StoreZeros)));
    assert!(rt; channel.taken() == 0 && channel.pc() == 0);
    Ok(())
}
