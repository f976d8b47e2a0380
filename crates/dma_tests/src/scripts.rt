//! Scripts, and what `run_script` writes for them over a reader and a writer in memory.

use crate::commands::{Called, Row, answer, check};

static SCRIPTS: [Row; 20] = [
    (
        "a copy, read with a byte before it and after it",
        b"memory 64 1\nwrite 0x10 AA BB CC\ncopy 0x10+3 to 0x20+3\nread 0x1F+5",
        0,
        b"ok\ncopy finished 1 NoError residue 0\nread 0x0000001F 00 AA BB CC 00\n",
    ),
    ("no line", b"", 1, b"line 0: First\n"),
    (
        "a copy onto its own source, and ranges that end above the size",
        b"memory 16 1\ncopy 0+4 to 2+4\ncopy 0+4 to 14+4\nwrite 15 AA BB\nread 15+1",
        0,
        b"refused SourceMeetsDestination\nrefused OutOfMemoryRange\nrefused OutOfMemoryRange\n\
        read 0x0000000F 00\n",
    ),
    (
        "a memory above sixteen million bytes",
        b"memory 16777217 1",
        0,
        b"",
    ),
    (
        "a copy, step by step",
        b"memory 0x3000 1\nwrite 0x1000 01 02 03 04\nsubmit 0 0x1000+4 to 0x2000+4\nissue 0\nstep 0 9\n\
        read 0x2000+4\nstatus 0 1\nresult 0 1\ntotals",
        0,
        b"ok\ncookie 1\nissued 1\nstep 0 started 1 x1\nstep 0 moved x7\n\
        step 0 finished 1 NoError residue 0 x1\nread 0x00002000 01 02 03 04\nstatus Complete\n\
        result NoError residue 0\ntotals entries 5 steps 8 running 0\n",
    ),
    (
        "a copy that is held by another, and bytes that can't be accessed meanwhile",
        b"memory 0x400 2\nsubmit 0 0x100+4 to 0x200+4\nsubmit 1 0x200+4 to 0x300+4\nissue 0\nissue 1\n\
        step 0 4\nstep 1\nread 0x200+4\nread 0x100+4\nwrite 0x100 FF\nstep 0 5\nstep 1",
        0,
        b"cookie 1\ncookie 1\nissued 1\nissued 1\nstep 0 started 1 x1\nstep 0 moved x3\nstep 1 held 0 1 x1\n\
        refused Busy 0 1\nread 0x00000100 00 00 00 00\nrefused Busy 0 1\nstep 0 moved x4\n\
        step 0 finished 1 NoError residue 0 x1\nstep 1 started 1 x1\n",
    ),
    (
        "a copy on a channel in use",
        b"memory 64 1\nsubmit 0 0+4 to 8+4\ncopy 16+4 to 24+4",
        0,
        b"cookie 1\nrefused ChannelInUse\n",
    ),
    (
        "copies that are terminated, one of them while it runs",
        b"memory 0x4000 1\nwrite 0x101E 11 22 33 44\nsubmit 0 0x1000+36 to 0x2000+36\n\
        submit 0 0x1000+8 to 0x3000+8\nsubmit 0 0x1000+5 to 0x3100+5\nissue 0\nstep 0 7\nterminate 0\n\
        result 0 1\nresult 0 2\nresult 0 3\nread 0x201E+4",
        0,
        b"ok\ncookie 1\ncookie 2\ncookie 3\nissued 3\nstep 0 started 1 x1\nstep 0 moved x6\naborted 3\n\
        result Aborted residue 4\nresult Aborted residue 8\nresult Aborted residue 5\n\
        read 0x0000201E 11 22 00 00\n",
    ),
    (
        "two copies that run together",
        b"memory 0x400 2\nsubmit 0 0x100+4 to 0x200+4\nsubmit 1 0x100+4 to 0x300+4\nissue 0\nissue 1\n\
        step 0\nstep 1",
        0,
        b"cookie 1\ncookie 1\nissued 1\nissued 1\nstep 0 started 1 x1\nstep 1 started 1 x1\n",
    ),
    (
        "a copy that is paused",
        b"memory 0x400 1\nsubmit 0 0x100+4 to 0x200+4\nissue 0\nstep 0 3\npause 0\nstep 0\nread 0x200+4\n\
        resume 0\nstep 0 6\nresult 0 1\nterminate 0",
        0,
        b"cookie 1\nissued 1\nstep 0 started 1 x1\nstep 0 moved x2\nok\nstep 0 paused x1\nrefused Busy 0 1\n\
        ok\nstep 0 moved x5\nstep 0 finished 1 NoError residue 0 x1\nresult NoError residue 0\naborted 0\n",
    ),
    (
        "a copy with a mark in its second burst",
        b"memory 0x4000 1\nwrite 0x101E 11 22 33 44\nmark read 0x1020+1\nsubmit 0 0x1000+36 to 0x2000+36\n\
        issue 0\nstep 0 11\nresult 0 1\nread 0x201E+4\nterminate 0\nstep 0",
        0,
        b"ok\nok\ncookie 1\nissued 1\nstep 0 started 1 x1\nstep 0 moved x8\n\
        step 0 finished 1 ReadFailed residue 4 x1\nstep 0 halted x1\nresult ReadFailed residue 4\n\
        read 0x0000201E 11 22 00 00\naborted 0\nstep 0 nothing x1\n",
    ),
    (
        "two copies that wait for one event",
        b"memory 0x400 2\nsubmit 0 0x100+4 to 0x200+4 wait 3\nsubmit 1 0x100+4 to 0x300+4 wait 3\nissue 0\n\
        issue 1\nstep 0 2\nstep 1 2\nraise 3\nstep 0\nstep 1",
        0,
        b"cookie 1\ncookie 1\nissued 1\nissued 1\nstep 0 started 1 x1\nstep 0 waiting 3 x1\n\
        step 1 started 1 x1\nstep 1 waiting 3 x1\nok\nstep 0 moved x1\nstep 1 waiting 3 x1\n",
    ),
    (
        "statuses, a pause, and refused lines",
        b"memory 16 1\nstatus 0 0\nstatus 0 1\nsubmit 0 0+4 to 8+4\nstatus 0 1\nstep 0\npause 0\nissue 0\n\
        step 0 2\nresume 0\nstep 0\nsubmit 0 0+4 to 13+4\nstep 9\nraise 32\nread 16+0",
        0,
        b"status Unknown\nstatus Unknown\ncookie 1\nstatus InProgress\nstep 0 nothing x1\nok\nissued 1\n\
        step 0 paused x2\nok\nstep 0 started 1 x1\nrefused OutOfMemoryRange\nstep 9 refused NoChannel x1\n\
        refused BadEvent\nread 0x00000010\n",
    ),
    (
        "a copy that signals another",
        b"memory 0x400 2\nwrite 0x100 0A 0B 0C 0D\nsubmit 0 0x100+4 to 0x200+4 signal 3\n\
        submit 1 0x200+4 to 0x300+4 wait 3\nissue 0\nissue 1\nstep 0 10\nstep 1 10\nread 0x300+4",
        0,
        b"ok\ncookie 1\ncookie 1\nissued 1\nissued 1\nstep 0 started 1 x1\nstep 0 moved x8\n\
        step 0 finished 1 NoError residue 0 x1\nstep 1 started 1 x1\nstep 1 moved x8\n\
        step 1 finished 1 NoError residue 0 x1\nread 0x00000300 0A 0B 0C 0D\n",
    ),
    (
        "a copy that holds its ranges while it waits",
        b"memory 0x400 2\nsubmit 0 0x100+4 to 0x200+4 signal 3\nsubmit 1 0x200+4 to 0x300+4 wait 3\n\
        issue 0\nissue 1\nstep 1 2\nstep 0\nraise 3\nstep 1 9\nstep 0",
        0,
        b"cookie 1\ncookie 1\nissued 1\nissued 1\nstep 1 started 1 x1\nstep 1 waiting 3 x1\n\
        step 0 held 1 1 x1\nok\nstep 1 moved x8\nstep 1 finished 1 NoError residue 0 x1\n\
        step 0 started 1 x1\n",
    ),
    (
        "the largest memory",
        b"memory 4294963200 1\nwrite 0xFFFFEFFC 01 02 03 04\ncopy 0xFFFFEFFC+4 to 0xFFE+4\nread 0xFFE+4\n\
        write 0xFFFFEFFD 01 02 03 04",
        0,
        b"ok\ncopy finished 1 NoError residue 0\nread 0x00000FFE 01 02 03 04\nrefused OutOfMemoryRange\n",
    ),
    (
        "a memory that is too large",
        b"memory 4294963201 1",
        1,
        b"line 1: SizeOutOfRange\n",
    ),
    (
        "a fill, and one onto its own source",
        b"memory 64 1\nwrite 0x10 5A\nfill 0x10 to 0x20+3,0x30+2\nread 0x1F+5\nread 0x2F+4\n\
        fill 0x10 to 0x0E+4",
        0,
        b"ok\nfill finished 1 NoError residue 0\nread 0x0000001F 00 5A 5A 5A 00\n\
        read 0x0000002F 00 5A 5A 00\nrefused SourceMeetsDestination\n",
    ),
    (
        "a checkpoint between two copies",
        b"memory 64 1\nwrite 0x10 AA\ncopy 0x10+1 to 0x20+1\ncheckpoint\nresult 0 1\nstatus 0 1\n\
        status 0 2\ntotals\ncopy 0x20+1 to 0x30+1\nresult 0 2\ntotals",
        0,
        b"ok\ncopy finished 1 NoError residue 0\nok\nresult none\nstatus Complete\nstatus Unknown\n\
        totals entries 0 steps 8 running 0\ncopy finished 2 NoError residue 0\nresult NoError residue 0\n\
        totals entries 3 steps 16 running 0\n",
    ),
    (
        "a checkpoint while a copy runs, and after it",
        b"memory 0x400 1\nsubmit 0 0x100+4 to 0x200+4\nissue 0\nstep 0\ncheckpoint\nterminate 0\n\
        checkpoint\ntotals",
        0,
        b"cookie 1\nissued 1\nstep 0 started 1 x1\nrefused Running 0 1\naborted 1\nok\n\
        totals entries 0 steps 0 running 0\n",
    ),
];

/// `run_script` writes the answers to the lines of a script, or the script's first fault.
#[test]
fn scripts_are_carried_out(rt: HostRuntime) {
    check(&rt, rt.alloc(), Called::Run, &SCRIPTS);
}

/// A script that is cut off at any byte is carried out as far as it goes, or has a fault.
#[test]
fn scripts_are_cut_off(rt: HostRuntime) {
    for (name, script, _, _) in &SCRIPTS {
        for len in 0..script.len() {
            let (status, bytes) = answer(rt.alloc(), Called::Run, &mut &script[..len], u32::MAX);
            let is_faulty = bytes.starts_with(b"line ");
            assert!(rt; status == u8::from(is_faulty), "{name} {len}");
        }
    }
}
