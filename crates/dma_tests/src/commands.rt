//! The commands `asm`, `dis` and `plan` over a reader and a writer in memory, and all commands over ones that fail.

use crate::streams::{Bytes, Kept};
use dma_commands::asm::asm_main;
use dma_commands::dis::dis_main;
use dma_commands::plan::plan_main;
use dma_commands::run::run_script;
use dma_io::input::Source;
use std::alloc::Global;
use std::process::Abort;

/// A command.
#[derive(Clone, Copy)]
pub enum Called {
    Asm,
    Dis,
    Plan,
    Run,
}

/// A row has its name, an input, and the status and the output of a command for it.
pub type Row = (&'static str, &'static [u8], u8, &'static [u8]);

static ASSEMBLED: [Row; 9] = [
    (
        "a loop",
        b"DMALP 1 256\nDMALD\nDMAST\nDMALPEND 1 2\nDMAEND",
        0,
        b"22 FF 04 08 3C 02 00\n",
    ),
    (
        "a loop counter that isn't there",
        b"DMALP 2 1",
        1,
        b"line 1: range\n",
    ),
    ("an operand too few", b"DMALP 1", 1, b"line 1: operand\n"),
    (
        "an instruction of a chip",
        b"DMASTZ",
        1,
        b"line 1: mnemonic\n",
    ),
    ("no line", b"", 0, b""),
    (
        "a comment and an empty line",
        b"# a\n\nDMAMOV SAR 0x00001000",
        0,
        b"BC 00 00 10 00 00\n",
    ),
    (
        "an event that isn't there",
        b"DMAWFE 32",
        1,
        b"line 1: range\n",
    ),
    (
        "a number with a leading zero",
        b"DMASEV 03",
        1,
        b"line 1: operand\n",
    ),
    (
        "a space before the name",
        b" DMAEND",
        1,
        b"line 1: mnemonic\n",
    ),
];

static DISASSEMBLED: [Row; 4] = [
    (
        "a loop",
        b"22 FF 04 08 3C 02 00",
        0,
        b"DMALP 1 256\nDMALD\nDMAST\nDMALPEND 1 2\nDMAEND\n",
    ),
    (
        "an instruction that is cut off",
        b"04 BC 00",
        1,
        b"offset 1: Cut\n",
    ),
    ("half a pair of digits", b"3", 1, b"line 1: Hex\n"),
    (
        "an instruction that isn't there",
        b"28",
        1,
        b"offset 0: Unknown 28\n",
    ),
];

static PLANNED: [Row; 15] = [
    (
        "a copy of four bytes",
        b"0x1000+4 to 0x2000+4",
        0,
        b"BC 00 00 10 00 00 BC 02 00 20 00 00 BC 01 05 40\n01 00 04 12 08 13 00\nbytes 23\ncost 8\n",
    ),
    (
        "a copy that waits and signals",
        b"0x1000+4 to 0x2000+4 wait 3 signal 5",
        0,
        b"36 18 BC 00 00 10 00 00 BC 02 00 20 00 00 BC 01\n05 40 01 00 04 12 08 13 34 28 00\nbytes 27\n\
        cost 10\n",
    ),
    (
        "a copy of one byte",
        b"0x1001+1 to 0x2002+1",
        0,
        b"BC 00 01 10 00 00 BC 02 02 20 00 00 BC 01 01 40\n00 00 04 12 08 13 00\nbytes 23\ncost 8\n",
    ),
    (
        "two nested loops, a loop, and the bytes after them",
        b"0x1001+4113 to 0x4002+4113",
        0,
        b"BC 00 01 10 00 00 BC 02 02 40 00 00 BC 01 F1 40\n3C 00 20 00 22 FF 04 12 08 13 3C 04 38 08 22 00\n\
        04 12 08 13 3C 04 BC 01 01 40 00 00 04 12 08 13\n00\nbytes 49\ncost 1298\n",
    ),
    (
        "bursts of 256, 32 and 12 bytes",
        b"0x1000+300 to 0x2000+300",
        0,
        b"BC 00 00 10 00 00 BC 02 00 20 00 00 BC 01 F9 40\n3E 00 22 00 04 12 08 13 3C 04 BC 01 19 40 06 00\n\
        04 12 08 13 BC 01 B1 40 2C 00 04 12 08 13 00\nbytes 47\ncost 20\n",
    ),
    (
        "the longest copy",
        b"0x1+1048576 to 0x200001+1048576",
        0,
        b"BC 00 01 00 00 00 BC 02 01 00 20 00 BC 01 F1 40\n3C 00 20 FF 22 FF 04 12 08 13 3C 04 38 08 00\n\
        bytes 31\ncost 328197\n",
    ),
    (
        "a copy that is too long",
        b"0x1+1048577 to 0x200001+1048577",
        1,
        b"line 1: TooLong\n",
    ),
    (
        "two pieces",
        b"0x10+3,0x21+5 to 0x40+8",
        0,
        b"BC 00 10 00 00 00 BC 02 40 00 00 00 BC 01 03 C0\n00 00 04 12 08 13 BC 01 01 40 00 00 04 12 08 13\n\
        BC 00 21 00 00 00 BC 02 43 00 00 00 BC 01 41 40\n10 00 04 12 08 13 00\nbytes 55\ncost 20\n",
    ),
    (
        "a copy onto its own source",
        b"0x100+8 to 0x104+8",
        1,
        b"line 1: SourceMeetsDestination\n",
    ),
    (
        "a copy beside its own source",
        b"0x100+4 to 0x108+4",
        0,
        b"BC 00 00 01 00 00 BC 02 08 01 00 00 BC 01 05 40\n01 00 04 12 08 13 00\nbytes 23\ncost 8\n",
    ),
    (
        "lists of different lengths",
        b"0x100+4 to 0x108+5",
        1,
        b"line 1: TotalsDiffer\n",
    ),
    (
        "destinations that meet",
        b"0x100+4 to 0x200+2,0x201+2",
        1,
        b"line 1: DestinationsMeet\n",
    ),
    (
        "an empty segment",
        b"0x100+0 to 0x200+0",
        1,
        b"line 1: EmptySegment\n",
    ),
    (
        "a segment that wraps",
        b"0xFFFFFFFF+2 to 0x0+2",
        1,
        b"line 1: SegmentWraps\n",
    ),
    (
        "a fill",
        b"fill 0x10 to 0x20+20",
        0,
        b"BC 00 10 00 00 00 BC 02 20 00 00 00 BC 01 F0 40\n3C 00 22 00 04 12 08 13 3C 04 BC 01 30 40 0C 00\n\
        04 12 08 13 00\nbytes 37\ncost 15\n",
    ),
];

/// Calls a command over a reader, and a writer of which write number `writes`, from 0 on, and all after it fail.
/// Returns the status and the output.
pub fn answer<R: Source>(
    alloc: Global,
    command: Called,
    reader: &mut R,
    writes: u32,
) -> (u8, Vec<u8>) {
    let mut writer = Kept {
        bytes: Vec::new(alloc),
        left: writes,
        failed: false,
    };
    let status = match command {
        Called::Asm => asm_main(alloc, reader, &mut writer),
        Called::Dis => dis_main(alloc, reader, &mut writer),
        Called::Plan => plan_main(alloc, reader, &mut writer),
        Called::Run => run_script(alloc, reader, &mut writer),
    };
    (status, writer.bytes)
}

/// Checks what a command answers to each of these inputs.
pub fn check(rt: &impl Abort, alloc: Global, command: Called, rows: &[Row]) {
    for (name, input, status, output) in rows {
        let mut reader = *input;
        let (answered, bytes) = answer(alloc, command, &mut reader, u32::MAX);
        assert!(rt;
            answered == *status && bytes.as_slice() == *output,
            "{name}"
        );
    }
}

/// `asm_main` writes a program's bytes, or the line of the text's first fault.
#[test]
fn texts_are_assembled(rt: HostRuntime) {
    check(&rt, rt.alloc(), Called::Asm, &ASSEMBLED);
}

/// `dis_main` writes a program's text, or where its bytes are no instruction.
#[test]
fn bytes_are_disassembled(rt: HostRuntime) {
    check(&rt, rt.alloc(), Called::Dis, &DISASSEMBLED);
}

/// `plan_main` writes the program of a transfer with its length and cost, or the rule that the transfer breaks.
#[test]
fn transfers_are_planned(rt: HostRuntime) {
    check(&rt, rt.alloc(), Called::Plan, &PLANNED);
}

/// If a read of its input fails, the first or a later one, a command writes `input failed` alone and returns 1. If a
/// write fails, it returns 1.
#[test]
fn a_stream_of_a_command_fails(rt: HostRuntime) {
    let rows: [(Called, &[u8]); 4] = [
        (Called::Asm, b"DMAEND"),
        (Called::Dis, b"04 00"),
        (Called::Plan, b"0x1000+4 to 0x2000+4"),
        (Called::Run, b"memory 64 1\nread 0+1"),
    ];
    for (command, input) in rows {
        for reads in 0..3 {
            let mut reader = Bytes {
                rest: input,
                left: reads,
                failed: false,
            };
            let (status, bytes) = answer(rt.alloc(), command, &mut reader, u32::MAX);
            assert!(rt; status == 1 && bytes.as_slice() == b"input failed\n".as_slice());
        }
        for writes in 0..2 {
            let mut reader = input;
            let (status, _) = answer(rt.alloc(), command, &mut reader, writes);
            assert!(rt; status == 1);
        }
    }
}
