use eb_base::NoMemory;
use eb_io::MemSink;
use soc_journal::{Entry, Journal, Pair, Pairs};
use std::alloc::Global;
use std::test::Fail;
use wb_signals::{Answer, Op};

const TEXT: &[u8] = b"journal
cycle 0 whole
w 0000000000000000 0F 0000000000000001 ack
w 0000000000000004 0F 0000000000000002 ack
r 0000000000000000 0F ack 0000000000000001
cycle 1 whole
w 0000000000000000 0F 0000000000000009 ack
";

const FAULTS: &[u8] = b"journal
cycle 255 cut
r 00000000FEDCBA98 80 rty
w 0000000000000010 04 0000000000AD0000 err
";

// Two writes and a read in a cycle that its master held open.
fn held(alloc: Global) -> Result<Pairs, NoMemory> {
    let mut pairs = Pairs::of(Vec::new(alloc));
    pairs.push(Pair {
        op: Op {
            write: true,
            adr: 0,
            dat: 1,
            sel: 0xf,
        },
        answer: Answer::Ack(0),
    })?;
    pairs.push(Pair {
        op: Op {
            write: true,
            adr: 4,
            dat: 2,
            sel: 0xf,
        },
        answer: Answer::Ack(0),
    })?;
    pairs.push(Pair {
        op: Op {
            write: false,
            adr: 0,
            dat: 0,
            sel: 0xf,
        },
        answer: Answer::Ack(1),
    })?;
    Ok(pairs)
}

fn single(alloc: Global) -> Result<Pairs, NoMemory> {
    let mut pairs = Pairs::of(Vec::new(alloc));
    pairs.push(Pair {
        op: Op {
            write: true,
            adr: 0,
            dat: 9,
            sel: 0xf,
        },
        answer: Answer::Ack(0),
    })?;
    Ok(pairs)
}

fn faulty(alloc: Global) -> Result<Pairs, NoMemory> {
    let mut pairs = Pairs::of(Vec::new(alloc));
    pairs.push(Pair {
        op: Op {
            write: false,
            adr: 0xfedc_ba98,
            dat: 0,
            sel: 0x80,
        },
        answer: Answer::Rty,
    })?;
    pairs.push(Pair {
        op: Op {
            write: true,
            adr: 0x10,
            dat: 0x00ad_0000,
            sel: 4,
        },
        answer: Answer::Err,
    })?;
    Ok(pairs)
}

fn two_cycles(alloc: Global) -> Result<Journal, NoMemory> {
    let mut journal = Journal::new(alloc);
    let held = held(alloc)?;
    let single = single(alloc)?;
    journal.reserve(2)?;
    journal.push(Entry {
        master: 0,
        cut: false,
        pairs: held,
    });
    journal.push(Entry {
        master: 1,
        cut: false,
        pairs: single,
    });
    Ok(journal)
}

#[test]
fn text_octet_by_octet(rt: HostRuntime) -> Result<(), Fail> {
    let alloc = rt.alloc();
    let journal = two_cycles(alloc)?;
    assert_eq!(rt; journal.len(), 2);
    assert_eq!(rt; journal.spare(), 0);
    let mut sink = MemSink::new(alloc, 400, 1, Vec::new(alloc))?;
    assert!(rt; journal.write(&mut sink).is_ok());
    assert_eq!(rt; sink.octets(), TEXT);
    Ok(())
}

#[test]
fn faults_and_cuts(rt: HostRuntime) -> Result<(), Fail> {
    let alloc = rt.alloc();
    let mut journal = Journal::new(alloc);
    let pairs = faulty(alloc)?;
    journal.reserve(1)?;
    journal.push(Entry {
        master: 255,
        cut: true,
        pairs,
    });
    let mut sink = MemSink::new(alloc, 400, 1000, Vec::new(alloc))?;
    assert!(rt; journal.write(&mut sink).is_ok());
    assert_eq!(rt; sink.octets(), FAULTS);
    Ok(())
}
