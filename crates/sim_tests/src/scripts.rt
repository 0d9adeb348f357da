use crate::texts::{journal_of, ran, wave_of};
use eb_samples::{DEEP, TWO};
use std::test::Fail;

// A cycle of three records, while another master waits for its slave.
const HELD_JOURNAL: &[u8] = b"journal
cycle 0 whole
w 0000000000000000 0F 0000000000000001 ack
w 0000000000000004 0F 0000000000000002 ack
r 0000000000000000 0F ack 0000000000000001
cycle 1 whole
w 0000000000000000 0F 0000000000000009 ack
";

// A cycle that its master leaves open, and another that reads what it wrote.
const CUT_JOURNAL: &[u8] = b"journal
cycle 0 cut
w 0000000000000000 0F 0000000000000001 ack
cycle 1 whole
r 0000000000000000 0F ack 0000000000000001
";

// Two masters at once, each at a slave of its own.
const BOTH_WAVE: &[u8] = b"wave
0 0 1 0 0 0 0000000000000000 00 0000000000000000 0 0 0 0000000000000000
0 1 1 0 0 0 0000000000000000 00 0000000000000000 0 0 0 0000000000000000
0 h 0 1 -
1 0 1 1 1 0 0000000000000000 0F 0000000011111111 0 0 0 0000000000000000
1 1 1 1 1 0 0000000000001000 0F 0000000022222222 0 0 0 0000000000000000
1 h 0 1 -
2 0 1 0 0 0 0000000000000000 00 0000000000000000 1 0 0 0000000000000000
2 1 1 0 0 0 0000000000000000 00 0000000000000000 1 0 0 0000000000000000
2 h 0 1 -
3 0 0 0 0 0 0000000000000000 00 0000000000000000 0 0 0 0000000000000000
3 1 0 0 0 0 0000000000000000 00 0000000000000000 0 0 0 0000000000000000
3 h - - -
";

// Their cycles, which end in one clock.
const BOTH_JOURNAL: &[u8] = b"journal
cycle 0 whole
w 0000000000000000 0F 0000000011111111 ack
cycle 1 whole
w 0000000000001000 0F 0000000022222222 ack
";

// Five writes to a slow slave, one more than the depth, then a read behind a bridge.
const FAR_WAVE: &[u8] = b"wave
0 0 1 0 0 0 0000000000000000 00 0000000000000000 0 0 0 0000000000000000
0 h 0 0 -
1 0 1 1 1 0 0000000000000000 0F 0000000000000001 0 0 0 0000000000000000
1 h 0 0 -
2 0 1 1 1 0 0000000000000004 0F 0000000000000002 0 0 0 0000000000000000
2 h 0 0 -
3 0 1 1 1 0 0000000000000008 0F 0000000000000003 0 0 0 0000000000000000
3 h 0 0 -
4 0 1 1 1 0 000000000000000C 0F 0000000000000004 0 0 0 0000000000000000
4 h 0 0 -
5 0 1 0 0 0 0000000000000000 00 0000000000000000 0 0 0 0000000000000000
5 h 0 0 -
6 0 1 0 0 0 0000000000000000 00 0000000000000000 0 0 0 0000000000000000
6 h 0 0 -
7 0 1 0 0 0 0000000000000000 00 0000000000000000 0 0 0 0000000000000000
7 h 0 0 -
8 0 1 0 0 0 0000000000000000 00 0000000000000000 0 0 0 0000000000000000
8 h 0 0 -
9 0 1 0 0 0 0000000000000000 00 0000000000000000 1 0 0 0000000000000000
9 h 0 0 -
10 0 1 1 1 0 0000000000000010 0F 0000000000000005 1 0 0 0000000000000000
10 h 0 0 -
11 0 1 1 0 1 0000000000010000 0F 0000000000000000 1 0 0 0000000000000000
11 h 0 0 -
12 0 1 1 0 1 0000000000010000 0F 0000000000000000 1 0 0 0000000000000000
12 h 0 0 -
13 0 1 1 0 1 0000000000010000 0F 0000000000000000 0 0 0 0000000000000000
13 h 0 0 -
14 0 1 1 0 1 0000000000010000 0F 0000000000000000 0 0 0 0000000000000000
14 h 0 0 -
15 0 1 1 0 1 0000000000010000 0F 0000000000000000 0 0 0 0000000000000000
15 h 0 0 -
16 0 1 1 0 1 0000000000010000 0F 0000000000000000 0 0 0 0000000000000000
16 h 0 0 -
17 0 1 1 0 1 0000000000010000 0F 0000000000000000 0 0 0 0000000000000000
17 h 0 0 -
18 0 1 1 0 1 0000000000010000 0F 0000000000000000 1 0 0 0000000000000000
18 h 0 0 -
19 0 1 1 0 0 0000000000010000 0F 0000000000000000 0 0 0 0000000000000000
19 h 0 0 -
20 0 1 0 0 0 0000000000000000 00 0000000000000000 1 0 0 0000000000000000
20 h 0 0 -
21 0 0 0 0 0 0000000000000000 00 0000000000000000 0 0 0 0000000000000000
21 h - - -
";

// Their cycle.
const FAR_JOURNAL: &[u8] = b"journal
cycle 0 whole
w 0000000000000000 0F 0000000000000001 ack
w 0000000000000004 0F 0000000000000002 ack
w 0000000000000008 0F 0000000000000003 ack
w 000000000000000C 0F 0000000000000004 ack
w 0000000000000010 0F 0000000000000005 ack
r 0000000000010000 0F ack 0000000000000000
";

// The one clock of a script without lines.
const EMPTY_WAVE: &[u8] = b"wave
0 0 0 0 0 0 0000000000000000 00 0000000000000000 0 0 0 0000000000000000
0 1 0 0 0 0 0000000000000000 00 0000000000000000 0 0 0 0000000000000000
0 h - - -
";

#[test]
fn a_master_waits_for_a_held_cycle(rt: HostRuntime) -> Result<(), Fail> {
    let alloc = rt.alloc();
    let bus = ran(
        alloc,
        TWO,
        b"0 0 hold w0=1\n0 0 hold w4=2\n0 0 end r0\n1 0 end w0=9",
    )?;
    assert!(rt; journal_of(alloc, &bus)?.octets() == HELD_JOURNAL);
    Ok(())
}

#[test]
fn a_cycle_left_open_is_cut(rt: HostRuntime) -> Result<(), Fail> {
    let alloc = rt.alloc();
    let bus = ran(alloc, TWO, b"0 0 hold w0=1\n1 0 end r0\n")?;
    assert!(rt; journal_of(alloc, &bus)?.octets() == CUT_JOURNAL);
    Ok(())
}

#[test]
fn two_masters_run_at_once(rt: HostRuntime) -> Result<(), Fail> {
    let alloc = rt.alloc();
    let bus = ran(alloc, TWO, b"0 0 end w0=11111111\n1 0 end w1000=22222222\n")?;
    assert!(rt; wave_of(alloc, &bus)?.octets() == BOTH_WAVE);
    assert!(rt; journal_of(alloc, &bus)?.octets() == BOTH_JOURNAL);
    Ok(())
}

#[test]
fn requests_wait_at_the_depth(rt: HostRuntime) -> Result<(), Fail> {
    let alloc = rt.alloc();
    let bus = ran(alloc, DEEP, b"0 0 end w0=1 w4=2 w8=3 wC=4 w10=5 r10000\n")?;
    assert!(rt; wave_of(alloc, &bus)?.octets() == FAR_WAVE);
    assert!(rt; journal_of(alloc, &bus)?.octets() == FAR_JOURNAL);
    Ok(())
}

#[test]
fn a_script_without_lines_takes_one_clock(rt: HostRuntime) -> Result<(), Fail> {
    let alloc = rt.alloc();
    let bus = ran(alloc, TWO, b"")?;
    assert!(rt; wave_of(alloc, &bus)?.octets() == EMPTY_WAVE);
    assert!(rt; journal_of(alloc, &bus)?.octets() == b"journal\n".as_slice());
    Ok(())
}
