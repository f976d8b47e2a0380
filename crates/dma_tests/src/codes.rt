//! The bytes of instructions, and the instructions that bytes begin with.

use dma_insn::codec::{DecodeFault, decode, encode};
use dma_insn::insn::{Counter, Event, Insn, Reg, Times};
use std::process::Abort;
use std::test::Fail;

// Checks that an instruction has these bytes, of which there are `len`, followed by zeros, and that they decode to it.
fn check(rt: &impl Abort, insn: Insn, len: usize, bytes: [u8; 6]) {
    let mut code = [0; 6];
    let written = encode(insn, &mut code);
    assert!(rt; written == len && code == bytes);
    assert!(rt; decode(&bytes) == Ok((insn, len)));
}

/// `encode` writes these bytes for instructions without a number, and `decode` reads them back.
#[test]
fn plain_instructions_have_these_bytes(rt: HostRuntime) {
    let rows = [
        (Insn::End, 0x00),
        (Insn::Ld, 0x04),
        (Insn::St, 0x08),
        (Insn::Rmb, 0x12),
        (Insn::Wmb, 0x13),
        (Insn::Nop, 0x18),
    ];
    for (insn, first) in rows {
        check(&rt, insn, 1, [first, 0, 0, 0, 0, 0]);
    }
}

/// `encode` writes these bytes for loops: the first and the last number of rounds, and the ends of two loop bodies.
#[test]
fn loops_have_these_bytes(rt: HostRuntime) -> Result<(), Fail> {
    let once = Times::new(1).ok_or("no times")?;
    let most = Times::new(256).ok_or("no times")?;
    let (zero, one) = (Counter::Lc0, Counter::Lc1);
    let starts = [
        (zero, once, 0x20, 0x00),
        (zero, most, 0x20, 0xff),
        (one, once, 0x22, 0x00),
        (one, most, 0x22, 0xff),
    ];
    for (counter, times, first, second) in starts {
        let insn = Insn::Lp { counter, times };
        check(&rt, insn, 2, [first, second, 0, 0, 0, 0]);
    }
    for (counter, back, first) in [(zero, 0, 0x38), (zero, 5, 0x38), (one, 255, 0x3c)] {
        let insn = Insn::LpEnd { counter, back };
        check(&rt, insn, 2, [first, back, 0, 0, 0, 0]);
    }
    Ok(())
}

/// `encode` writes these bytes for events: the number times eight, and two more with the invalid flag.
#[test]
fn events_have_these_bytes(rt: HostRuntime) -> Result<(), Fail> {
    for (number, second) in [(0, 0x00), (3, 0x18), (5, 0x28), (31, 0xf8)] {
        let event = Event::new(number).ok_or("no event")?;
        check(&rt, Insn::Sev(event), 2, [0x34, second, 0, 0, 0, 0]);
        for (invalid, flag) in [(false, 0), (true, 2)] {
            let wait = Insn::Wfe { event, invalid };
            check(&rt, wait, 2, [0x36, second | flag, 0, 0, 0, 0]);
        }
    }
    Ok(())
}

/// `encode` writes the number of DMAMOV with its low byte first.
#[test]
fn moves_have_these_bytes(rt: HostRuntime) {
    let rows = [
        (Reg::Sar, 0x1000, [0xbc, 0, 0x00, 0x10, 0x00, 0x00]),
        (Reg::Ccr, 0x003e_40f9, [0xbc, 1, 0xf9, 0x40, 0x3e, 0x00]),
        (Reg::Dar, 0xffff_ffff, [0xbc, 2, 0xff, 0xff, 0xff, 0xff]),
    ];
    for (reg, value, bytes) in rows {
        check(&rt, Insn::Mov(reg, value), 6, bytes);
    }
}

/// `decode` tells no bytes and too few of them from an unknown first byte and from a bad second one. Byte 0x28 ends a
/// loop that has no counter, which the model doesn't have.
#[test]
fn bytes_are_decoded(rt: HostRuntime) -> Result<(), Fail> {
    let times = Times::new(256).ok_or("no times")?;
    let counter = Counter::Lc0;
    let rows: [(&[u8], Result<(Insn, usize), DecodeFault>); 6] = [
        (b"", Err(DecodeFault::Cut)),
        (b"\xbc\0\0", Err(DecodeFault::Cut)),
        (b"\x28\x04", Err(DecodeFault::Unknown(0x28))),
        (b"\x34\x01", Err(DecodeFault::BadField)),
        (b"\xbc\x03\0\0\0\0", Err(DecodeFault::BadField)),
        (b"\x20\xff", Ok((Insn::Lp { counter, times }, 2))),
    ];
    for (bytes, decoded) in rows {
        assert!(rt; decode(bytes) == decoded);
    }
    Ok(())
}

/// Of the 65,536 pairs of first bytes, each followed by four zeros, `decode` takes 2,659, finds a bad field in 669 and
/// no instruction in the others. None is cut off.
#[test]
fn each_pair_of_first_bytes_is_decoded(rt: HostRuntime) {
    let (mut taken, mut bad, mut unknown, mut cut) = (0u32, 0u32, 0u32, 0u32);
    for first in 0..=u8::MAX {
        for second in 0..=u8::MAX {
            let count = match decode(&[first, second, 0, 0, 0, 0]) {
                Ok(_) => &mut taken,
                Err(DecodeFault::BadField) => &mut bad,
                Err(DecodeFault::Unknown(_)) => &mut unknown,
                Err(DecodeFault::Cut) => &mut cut,
            };
            *count = count.saturating_add(1);
        }
    }
    assert!(rt; (taken, bad, unknown, cut) == (2_659, 669, 62_208, 0));
}
