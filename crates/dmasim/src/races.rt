//! Races over a reader and a writer in memory.

use crate::race::race_script;
use dma_io::output::Sink;
use std::io;
use std::io::Write;

// Keeps what is written.
#[derive(Drop)]
struct Kept {
    bytes: Vec<u8>,
}

impl Write for Kept {
    fn write(&mut self, buf: &[u8]) -> io::Result<usize> {
        self.bytes.write(buf)
    }

    fn flush(&mut self) -> io::Result<()> {
        Ok(())
    }
}

impl Sink for Kept {
    fn put(&mut self, buf: &[u8]) -> io::Result<usize> {
        self.write(buf)
    }
}

/// `race_script` answers the lines before `go`, lets two jobs finish a copy each, one on each channel or both on both,
/// and answers the lines after it.
#[test]
fn jobs_finish_two_copies(rt: HostRuntime) {
    let output =
        b"ok\ncookie 1\ncookie 1\nissued 1\nissued 1\nstatus InProgress\ngo steps 16 finished 2\n\
        read 0x00000200 0A 0B 0C 0D\nread 0x00000300 0A 0B 0C 0D\ntotals entries 9 steps 16 running 0\n";
    let scripts: [&[u8]; 2] = [
        b"memory 0x400 2\nwrite 0x100 0A 0B 0C 0D\nsubmit 0 0x100+4 to 0x200+4\n\
        submit 1 0x100+4 to 0x300+4\nissue 0\nissue 1\nstatus 1 1\njob 0 0 9\njob 1 1 9\ngo\n\
        read 0x200+4\nread 0x300+4\ntotals",
        b"memory 0x400 2\nwrite 0x100 0A 0B 0C 0D\nsubmit 0 0x100+4 to 0x200+4\n\
        submit 1 0x100+4 to 0x300+4\nissue 0\nissue 1\nstatus 1 1\njob 0 1 20\njob 0 1 20\ngo\n\
        read 0x200+4\nread 0x300+4\ntotals",
    ];
    for script in scripts {
        let mut reader = script;
        let mut writer = Kept {
            bytes: Vec::new(rt.alloc()),
        };
        let status = race_script(&rt, rt.alloc(), &mut reader, &mut writer);
        assert!(rt; status == 0 && writer.bytes.as_slice() == output.as_slice());
    }
}
