//! The faults of instructions, before they are executed.

ghost use Rattle.std.specs.Prelude.{◌≤◌, IsNone};
ghost use Rattle.dma_insn.specs.declared.chip.ChipInsn.TheVariants.{Mov, LoopAgain};
ghost use Rattle.dma_chan.specs.inner.Acts.{FaultsAt, FaultsWith};
ghost use Rattle.dma_mem.specs.Lent.{with_gaps};

use crate::bursts::{destination_burst, load_fault, source_burst, store_fault, zero_fault};
use crate::exec::{Executor, Registers, jump_fault};
use crate::turn::FaultKind;
use dma_insn::chip::ChipInsn;
use dma_insn::control::ControlWord;
use dma_insn::insn::{Counter, Reg};
use dma_mem::marks::Marks;
use dma_mem::ram::Ram;

// Returns the fault of DMAMOV: `OperandInvalid` for a control word that isn't accepted, else `None`.
fn set_fault(reg: Reg, value: u32, registers: &Registers) -> Option<FaultKind>
    ensures { FaultsAt (Mov reg value) registers.now result }
{
    match reg {
        Reg::Sar => None,
        Reg::Dar => None,
        Reg::Ccr => {
            if !registers.bus.fits(value) || ControlWord::from_bits(value).is_err() {
                return Some(FaultKind::OperandInvalid);
            }
            None
        }
    }
}

// Returns the fault of the DMALPEND of a loop that DMALPFE begins: `InstrFetchErr` if it jumps to before the program's
// start, else `None`.
fn again_fault(back: u8, registers: &Registers) -> Option<FaultKind>
    ensures fault { (counter : Counter) → FaultsAt (LoopAgain counter back) registers.now result }
    ensures within { IsNone result → back ≤ registers.now.pc }
{
    if registers.pc < u32::from(back) {
        return Some(FaultKind::InstrFetchErr);
    }
    None
}

// Returns the fault that an instruction would return, or `None`. Nothing is executed.
pub(crate) fn fault_of<M: Ram>(
    insn: ChipInsn,
    executor: &Executor,
    memory: &M,
    marks: &Marks,
) -> Option<FaultKind>
    ensures { FaultsWith (with_gaps (M.loan memory.now) marks.now) insn executor.now.registers
        executor.now.buffer (M.paged memory.now).image result }
{
    match insn {
        ChipInsn::Mov(reg, value) => set_fault(reg, value, &executor.registers),
        ChipInsn::Ld => { load_fault(executor, source_burst(&executor.registers), memory, marks) }
        ChipInsn::St => {
            store_fault(
                executor,
                destination_burst(&executor.registers),
                memory,
                marks,
            )
        }
        ChipInsn::LpEnd { counter, back } => jump_fault(counter, back, &executor.registers),
        ChipInsn::Rmb => None,
        ChipInsn::Wmb => None,
        ChipInsn::Nop => None,
        ChipInsn::Lp { .. } => None,
        ChipInsn::Sev(_) => None,
        ChipInsn::Wfe { .. } => None,
        ChipInsn::End => None,
        ChipInsn::StoreZeros => zero_fault(executor, memory, marks),
        ChipInsn::AddHalfword { .. } => None,
        ChipInsn::LoopAgain { back, .. } => again_fault(back, &executor.registers),
    }
}
