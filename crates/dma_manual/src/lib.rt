//! Channel programs as text: in the syntax of the DMA-330's manual (ARM DDI 0424, instruction set and assembler
//! directives), and in dumps.
//!
//! Contracts see a program and a text as lists of bytes.
//!
//! Proved: what `disassemble` appends is a function of the program's bytes; `assemble` returns the bytes of the text's
//! program or the text's first fault with its place, as a function of the text; the listing of a program assembles to
//! the bytes that it shows, if they are at most 8,192 (`laws::listings_assemble`), and the text of each instruction to
//! the instruction's bytes (`laws::texts_assemble`); `read_pasted` returns the bytes that digits or a dump spell, as
//! definitions of their forms say, or why a text spells none; if a text is a dump of some bytes in one of these forms,
//! `Spelling::Dump` reads no other bytes from it (`laws::dumps_are_read_one_way`); what hexdump, od, xxd, md, gdb and
//! objdump print of bytes, by short definitions, is read as these bytes or refused as doubtful (`printed`).
//!
//! Not proved: that syntax and defaults are those of the manual; that tools print what the definitions say; that an
//! allocation succeeds.
#![tactic(auto)]

mod addresses;
pub mod array;
pub mod assembler;
pub mod chip_only;
mod codec;
mod digit_faults;
pub mod doubts;
mod draft;
pub mod dump;
pub mod errors;
mod fields;
pub mod first_bytes;
pub mod forms;
pub mod hexadecimal;
pub mod insns;
pub mod laws;
mod line_contents;
mod line_starts;
pub mod listing;
mod loop_lines;
mod loops;
pub mod manual;
pub mod notes;
mod operands;
mod other_lines;
pub mod pasted;
pub mod printed;
pub mod refusal;
mod remarks;
mod shown;
mod statements;
mod warning;
mod words;
