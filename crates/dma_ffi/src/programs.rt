//! The calls without a controller: the version, and programs that are run alone, assembled and disassembled.

ghost use Rattle.std.specs.Prelude.{◌≡◌, length};
ghost use Rattle.dma_ffi.specs.Programs.{AssemblesText, DisassemblesProgram, RunsProgram, laid_into, room_code, version_text, where_fits};

use crate::codes::{
    BUFFER_TOO_SMALL, NO_MEMORY, OK, PROGRAM_TOO_LONG, SIZE_OUT_OF_RANGE, code_of_cause,
    code_of_decode, code_of_program,
};
use crate::reports::{DmaRunEnd, end_of};
use dma_chan::lent::run_over;
use dma_insn::assembler::{AsmFault, assemble};
use dma_insn::disassembler::{DisFault, disassemble};
use dma_mem::limits::MAX_SIZE;
use std::alloc::Global;

/// The version's text, ended by a zero byte.
const VERSION: &[u8] = b"dilkwafam 1.0\0";

/// Copies bytes to the front of a buffer and writes their number, if the buffer has room. Returns the code.
pub fn copy_out(bytes: &[u8], out: &mut [u8], len: &mut usize) -> i32
    ensures code { result ≡ room_code bytes.now out.old }
    ensures bytes { out.new ≡ laid_into bytes.now out.old }
    ensures len { len.new ≡ where_fits bytes.now out.old (length bytes.now) len.old }
{
    if bytes.len() > out.len() {
        return BUFFER_TOO_SMALL;
    }
    out[..bytes.len()].copy_from_slice(bytes);
    *len = bytes.len();
    OK
}

/// Writes the version's text and a zero byte to `out`, and the length of the text without the zero byte to `len`.
/// Fails if `out` is too small.
#[unsafe(no_mangle)]
pub extern "C" fn dma330_version(out: &mut [u8], len: &mut usize) -> i32
    ensures code { result ≡ room_code version_text out.old }
    ensures text { out.new ≡ laid_into version_text out.old }
    ensures len { len.new ≡ where_fits version_text out.old 13 len.old }
{
    let code = copy_out(VERSION, out, len);
    if code == OK {
        *len -= 1;
    }
    code
}

/// Assembles a text, and writes the bytes of its program to `out` and their number to `len`. If the text has a fault,
/// it writes the line of the first fault to `place` and returns the fault's code. Fails if out of memory or if `out`
/// is too small.
#[unsafe(no_mangle)]
pub extern "C" fn dma330_assemble(
    alloc: Global,
    text: &[u8],
    out: &mut [u8],
    len: &mut usize,
    place: &mut usize,
) -> i32
    ensures { AssemblesText text.now result out.old out.new len.old len.new place.old place.new }
{
    match assemble(alloc, text) {
        Ok(program) => copy_out(&program, out, len),
        Err(AsmFault::Line { n, cause }) => {
            *place = n;
            code_of_cause(cause)
        }
        Err(AsmFault::ProgramTooLong(n)) => {
            *place = n;
            PROGRAM_TOO_LONG
        }
        Err(AsmFault::NoMemory) => NO_MEMORY,
    }
}

/// Disassembles a program, and writes its text to `out` and the text's length to `len`. If the program has a fault, it
/// writes the first offset at which no instruction begins to `place` and returns the fault's code. Fails if out of
/// memory or if `out` is too small.
#[unsafe(no_mangle)]
pub extern "C" fn dma330_disassemble(
    alloc: Global,
    program: &[u8],
    out: &mut [u8],
    len: &mut usize,
    place: &mut usize,
) -> i32
    ensures { DisassemblesProgram program.now result out.old out.new len.old len.new
        place.old place.new }
{
    match disassemble(alloc, program) {
        Ok(text) => copy_out(&text, out, len),
        Err(DisFault::Decode { offset, fault }) => {
            *place = offset;
            code_of_decode(fault)
        }
        Err(DisFault::NoMemory) => NO_MEMORY,
    }
}

/// Runs a program alone over the caller's memory, in place, for at most `limit` instructions, and writes how it ended.
/// Fails if the memory has no valid size, if the program is longer than 8,192 bytes, or if out of memory.
#[unsafe(no_mangle)]
pub extern "C" fn dma330_run_program(
    alloc: Global,
    program: &[u8],
    memory: &mut [u8],
    limit: u32,
    ended: &mut DmaRunEnd,
) -> i32
    ensures { RunsProgram program.now limit result memory.old memory.new ended.old ended.new }
{
    if memory.is_empty() || memory.len() > MAX_SIZE as usize {
        return SIZE_OUT_OF_RANGE;
    }
    match run_over(alloc, program, memory, limit) {
        Ok(how) => {
            *ended = end_of(how);
            OK
        }
        Err(fault) => code_of_program(fault),
    }
}
