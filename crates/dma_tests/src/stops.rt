//! A copy that a desk terminates after each of its instructions, or that meets a mark at one of its bursts, and what a
//! reader returns afterwards.

ghost use Rattle.std.specs.Prelude.{◌≡◌, ◌≤◌, IfOk};
ghost use Rattle.dma_work.specs.Desk.{Names};

use crate::statuses::parts_of;
use dma_engine::{Engine, Outcome, Status, TransResult, Turn};
use dma_mem::marks::MarkKind;
use dma_mem::segment::Segment;
use dma_mem::transfer::Transfer;
use dma_work::{Closed, Desk, DeskName, Parts, Receipt, StatusReader, Tally};
use std::alloc::Global;
use std::marker::Brand;
use std::process::Abort;
use std::sync::Wait;
use std::test::Fail;

pub const SIZE: u32 = 0x4000;

/// The copy has bursts of 256, 32 and 12 bytes, and 20 instructions.
pub const SRC: u32 = 0x1000;

pub const DST: u32 = 0x2000;

pub const LEN: u32 = 300;

/// Returns how many bytes this many instructions of the copy store.
pub fn stored_by(moved: u32) -> u32
    ensures { result ≤ 300 }
{
    match moved {
        0..=6 => 0,
        7..=12 => 256,
        13..=17 => 288,
        _ => 300,
    }
}

/// Returns the byte at a position of the source.
pub fn source_byte(position: u32) -> u8 {
    (position % 251) as u8
}

/// Returns the byte at an address after the copy has stored its first `done` bytes.
pub fn byte_after(addr: u32, done: u32) -> u8
    requires { done ≤ 300 }
{
    if SRC <= addr && addr < SRC + LEN {
        source_byte(addr - SRC)
    } else if DST <= addr && addr < DST + done {
        source_byte(addr - DST)
    } else {
        0
    }
}

/// A mark of one byte: its kind and its address, how many instructions of the copy are executed before the copy ends,
/// how it ends, and the residue.
pub type Mark = (MarkKind, u32, u32, TransResult, u32);

/// Marks of either kind in each burst of the copy, and three that no burst of their kind touches.
pub static MARKS: [Mark; 11] = [
    (MarkKind::Reading, 0x1000, 4, TransResult::ReadFailed, 300),
    (MarkKind::Reading, 0x10ff, 4, TransResult::ReadFailed, 300),
    (MarkKind::Reading, 0x1100, 10, TransResult::ReadFailed, 44),
    (MarkKind::Reading, 0x1120, 15, TransResult::ReadFailed, 12),
    (MarkKind::Reading, 0x112b, 15, TransResult::ReadFailed, 12),
    (MarkKind::Writing, 0x2000, 6, TransResult::WriteFailed, 300),
    (MarkKind::Writing, 0x2100, 12, TransResult::WriteFailed, 44),
    (MarkKind::Writing, 0x2120, 17, TransResult::WriteFailed, 12),
    (MarkKind::Reading, 0x112c, 19, TransResult::NoError, 0),
    (MarkKind::Writing, 0x1000, 19, TransResult::NoError, 0),
    (MarkKind::Reading, 0x2000, 19, TransResult::NoError, 0),
];

// How the copy ends.
#[derive(Clone, Copy)]
enum Ending {
    /// It is terminated after this many instructions.
    Terminated(u32),
    Marked(Mark),
}

// Returns whether the memory is as after the copy has stored its first `done` bytes.
fn has_copied<N: DeskName>(desk: &mut Desk<N>, done: u32) -> Result<bool, Fail>
    requires { done ≤ 300 }
{
    let bytes = desk.read(0, SIZE)?;
    let mut is_right = bytes.len() == SIZE as usize;
    let mut addr = 0;
    for byte in bytes.as_slice() {
        is_right &= *byte == byte_after(addr, done);
        addr = addr.saturating_add(1);
    }
    Ok(is_right)
}

fn fill<N: DeskName>(alloc: Global, desk: &mut Desk<N>) -> Result<(), Fail> {
    let mut bytes = Vec::new(alloc);
    for position in 0..LEN {
        bytes.push(source_byte(position))?;
    }
    desk.write(SRC, bytes.as_slice())?;
    Ok(())
}

// Submits the copy, issues it, and lets the reader learn the ticket. Returns the cookie.
fn submit<N: DeskName, R: Wait>(
    rt: &R,
    alloc: Global,
    desk: &mut Desk<N>,
    reader: &mut StatusReader,
) -> Result<u32, Fail>
    requires { (N.log ≡ reader.old.log) × (N.base ≡ reader.old.base) }
    ensures { (N.log ≡ reader.new.log) × (N.base ≡ reader.new.base) }
{
    let (src, dst) = (
        Segment {
            addr: SRC,
            len: LEN,
        },
        Segment {
            addr: DST,
            len: LEN,
        },
    );
    let copy = Transfer::new(alloc, &[src], &[dst], None, None)?;
    let Ok(Receipt { cookie, ticket, .. }) = desk.submit(rt, 0, copy) else {
        return Err(Fail::from("submit was refused"));
    };
    reader.learn(ticket);
    desk.issue(0)?;
    Ok(cookie)
}

// Starts the copy, and takes this many of its instructions.
fn step<N: DeskName, R: Wait + Abort>(rt: &R, desk: &mut Desk<N>, moved: u32) -> Result<(), Fail> {
    let mut tally: Tally<N> = desk.tally(0);
    assert!(rt; matches!(&desk.step(rt, 0, &mut tally)?, Turn::Started(1)));
    for _ in 0..moved {
        let mut tally: Tally<N> = desk.tally(0);
        assert!(rt; matches!(&desk.step(rt, 0, &mut tally)?, Turn::Moved));
    }
    Ok(())
}

// Terminates the copy after this many instructions. Returns how many bytes are then stored.
fn terminate_after<N: DeskName, R: Wait + Abort>(
    rt: &R,
    desk: &mut Desk<N>,
    moved: u32,
) -> Result<u32, Fail>
    ensures { IfOk result (λ done. done ≤ 300) }
{
    step(rt, desk, moved)?;
    let Closed { count, through, .. } = desk.terminate(rt, 0)?;
    assert!(rt; (count, through) == (1, 1));
    let done = stored_by(moved);
    let wanted = Outcome {
        result: TransResult::Aborted,
        residue: LEN - done,
    };
    assert!(rt; desk.result(0, 1) == Some(wanted));
    assert!(rt; has_copied(desk, done)?);
    let mut tally: Tally<N> = desk.tally(0);
    assert!(rt; matches!(&desk.step(rt, 0, &mut tally)?, Turn::Nothing));
    Ok(done)
}

// Lets the copy end, with a mark. Returns how many bytes are then stored.
fn end_at<N: DeskName, R: Wait + Abort>(rt: &R, desk: &mut Desk<N>, mark: Mark) -> Result<u32, Fail>
    ensures { IfOk result (λ done. done ≤ 300) }
{
    let (kind, addr, moved, result, residue) = mark;
    desk.mark(kind, Segment { addr, len: 1 })?;
    step(rt, desk, moved)?;
    let mut tally: Tally<N> = desk.tally(0);
    let ended = Turn::Finished {
        cookie: 1,
        result,
        residue,
    };
    assert!(rt; desk.step(rt, 0, &mut tally)? == ended);
    assert!(rt; desk.result(0, 1) == Some(Outcome { result, residue }));
    Ok(LEN.saturating_sub(residue))
}

// Stops the copy. A reader that then learns the ticket of another submit knows that the copy is complete.
fn stop<N: DeskName, R: Wait + Abort>(
    rt: &R,
    alloc: Global,
    desk: &mut Desk<N>,
    reader: &mut StatusReader,
    how: Ending,
) -> Result<(), Fail>
    requires { (N.log ≡ reader.old.log) × (N.base ≡ reader.old.base) }
{
    fill(alloc, desk)?;
    assert!(rt; submit(rt, alloc, desk, reader)? == 1);
    assert!(rt; reader.status(0, 1) == Some(Status::InProgress));
    let done = match how {
        Ending::Terminated(moved) => terminate_after(rt, desk, moved)?,
        Ending::Marked(mark) => end_at(rt, desk, mark)?,
    };
    assert!(rt; has_copied(desk, done)?);
    assert!(rt; submit(rt, alloc, desk, reader)? == 2);
    assert!(rt; reader.status(0, 1) == Some(Status::Complete));
    assert!(rt; reader.status(0, 2) == Some(Status::InProgress));
    Ok(())
}

fn stopped_at_a_desk<N: DeskName, R: Wait + Abort>(
    rt: &R,
    alloc: Global,
    parts: Parts,
    mut reader: StatusReader,
    how: Ending,
) -> Result<(), Fail>
    requires names { Names N.opening N.base N.log parts }
    requires follows { (N.log ≡ reader.log) × (N.base ≡ reader.base) }
{
    let mut desk = Desk::<N>::new(parts);
    let stopped = stop(rt, alloc, &mut desk, &mut reader, how);
    desk.close(rt);
    stopped
}

fn stopped<R: Wait + Abort>(rt: &R, alloc: Global, how: Ending) -> Result<(), Fail> {
    let engine = Engine::new(alloc, SIZE, 1)?;
    let (parts, reader) = parts_of(rt, alloc, engine)?;
    stopped_at_a_desk::<Brand, R>(rt, alloc, parts, reader, how)
}

/// A copy is terminated through a desk after any of its instructions.
#[test]
fn a_copy_is_stopped_at_each_step(rt: HostRuntime) -> Result<(), Fail> {
    for moved in 0..20 {
        stopped(&rt, rt.alloc(), Ending::Terminated(moved))?;
    }
    Ok(())
}

/// A copy ends through a desk at the first of its bursts that touches a mark of the burst's kind.
#[test]
fn a_copy_meets_a_mark(rt: HostRuntime) -> Result<(), Fail> {
    for mark in MARKS {
        stopped(&rt, rt.alloc(), Ending::Marked(mark))?;
    }
    Ok(())
}
