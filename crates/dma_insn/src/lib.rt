//! The instructions of PL330 channel programs: bytes, text, and the control word of DMAMOV CCR.
//!
//! Contracts see an instruction as its value, a program and a text as lists of bytes, a control word as a number.
//!
//! Proved: `decode` and `encode` are inverse, and no encoding begins another; `Control::from_bits` and `bits` are
//! inverse for the accepted words; `assemble` returns the bytes exactly if the text is that of a program of at most
//! 8,192 bytes, and otherwise the first fault with its line; `disassemble` returns the text, or the first bytes that
//! are no instruction; the text that it returns assembles to the same bytes (`disassembly_assembles`).
//!
//! Not proved: that the codes and fields are those of the manual (ARM DDI 0424), and that an allocation succeeds.
#![tactic(auto)]

pub mod assembler;
pub mod chip;
pub mod codec;
pub mod control;
pub mod disassembler;
pub mod insn;
mod line;
