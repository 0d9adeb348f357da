use eb_base::{NoMemory, Widths};
use eb_host::{Host, HostAnswer, HostFault, HostOp};
use eb_io::{MemLink, MemSink, MemSource};
use eb_reader::HostReader;
use sdb_walk::{NoWord, WordReader};
use std::alloc::Global;
use std::test::Fail;

// A link with these replies, which gives 3 octets a read and takes 5 a write. The reads and writes with these numbers
// fail.
fn failing_link(
    alloc: Global,
    replies: &[u8],
    reads: &[u64],
    writes: &[u64],
) -> Result<MemLink, NoMemory> {
    let octets = Vec::from_slice(alloc, replies)?;
    let source = MemSource::new(octets, 3, Vec::from_slice(alloc, reads)?);
    let sink = MemSink::new(alloc, 200, 5, Vec::from_slice(alloc, writes)?)?;
    Ok(MemLink::new(source, sink))
}

fn link(alloc: Global, replies: &[u8]) -> Result<MemLink, NoMemory> {
    failing_link(alloc, replies, &[], &[])
}

// A host with all widths of addresses and a port of 32 bits.
fn open(link: MemLink, alloc: Global) -> Result<Host<MemLink>, HostFault> {
    let widths = Widths {
        addresses: 15,
        ports: 4,
    };
    match Host::open(alloc, link, widths) {
        Ok(host) => Ok(host),
        Err((_, fault)) => Err(fault),
    }
}

// What a read at 0x10 answers over a link with these replies.
fn read_over(alloc: Global, replies: &[u8]) -> Result<HostAnswer, HostFault> {
    let Ok(link) = link(alloc, replies) else {
        return Err(HostFault::NoMemory);
    };
    match open(link, alloc) {
        Ok(mut host) => host.read(0x10),
        Err(fault) => Err(fault),
    }
}

// The replies of a slave with all widths of addresses and ports up to 32 bits: to the probe, to the header, to a read,
// and to the record that ends the cycle.
static REPLIES: [u8; 72] = [
    0x4e, 0x6f, 0x16, 0xf7, 0, 0, 0, 1, //
    0x4e, 0x6f, 0x14, 0x84, 0, 0, 0, 0, //
    0x04, 0x0f, 0x01, 0x00, 0, 0, 0, 0, 0, 0, 0, 0, 0, 0, 0, 0, 0, 0, 0, 0, 0xde, 0xad, 0xbe, 0xef, //
    0x0c, 0x0f, 0x02, 0x00, 0, 0, 0, 0, 0, 0, 0, 0, 0, 0, 0, 0, 0, 0, 0, 0, 0, 0, 0, 0, 0, 0, 0, 0,
    0, 0, 0, 0,
];

// What the host sends for them: the probe, the header, the record of the read, and the one that ends the cycle.
static ASKED: [u8; 72] = [
    0x4e, 0x6f, 0x11, 0xf4, 0, 0, 0, 1, //
    0x4e, 0x6f, 0x10, 0x84, 0, 0, 0, 0, //
    0x80, 0x0f, 0x00, 0x01, 0, 0, 0, 0, 0, 0, 0, 0, 0, 0, 0, 0, 0, 0, 0, 0, 0, 0, 0, 0x10, //
    0xc8, 0x0f, 0x00, 0x02, 0, 0, 0, 0, 0, 0, 0, 0, 0, 0, 0, 0, 0, 0, 0, 0, 0, 0, 0, 0, 0, 0, 0, 0,
    0, 0, 0, 4,
];

// A read: the word that the replies carry, and all that was sent.
#[test]
fn one_read(rt: HostRuntime) -> Result<(), Fail> {
    let alloc = rt.alloc();
    let Ok(mut host) = open(link(alloc, &REPLIES)?, alloc) else {
        return Err(Fail::from("open"));
    };
    assert_eq!(rt; host.read(0x10), Ok(HostAnswer::Done(0xdead_beef)));
    let link = host.into_link();
    assert_eq!(rt; link.octets(), ASKED.as_slice());
    Ok(())
}

// The first fault is answered again, and nothing is sent after it.
#[test]
fn fault_is_kept(rt: HostRuntime) -> Result<(), Fail> {
    let alloc = rt.alloc();
    let Ok(mut host) = open(link(alloc, &REPLIES[0..40])?, alloc) else {
        return Err(Fail::from("open"));
    };
    assert_eq!(rt; host.read(0x10), Err(HostFault::Ended(40)));
    assert_eq!(rt; host.root(), Err(HostFault::Ended(40)));
    let link = host.into_link();
    assert_eq!(rt; link.octets(), ASKED.as_slice());
    Ok(())
}

#[test]
fn failed_calls(rt: HostRuntime) -> Result<(), Fail> {
    let alloc = rt.alloc();
    let no_read = failing_link(alloc, &REPLIES, &[2], &[])?;
    let no_write = failing_link(alloc, &REPLIES, &[], &[3])?;
    assert_eq!(rt; open(no_read, alloc).err(), Some(HostFault::LinkRead));
    assert_eq!(rt; open(no_write, alloc).err(), Some(HostFault::LinkWrite));
    Ok(())
}

// MemLink that are cut after so many octets.
static CUTS: [usize; 8] = [0, 7, 8, 15, 16, 39, 40, 71];

#[test]
fn cut_replies(rt: HostRuntime) -> Result<(), Fail> {
    let alloc = rt.alloc();
    for cut in &CUTS {
        let count = *cut;
        let answer = read_over(alloc, &REPLIES[..count]);
        assert_eq!(rt; answer, Err(HostFault::Ended(count as u64)));
    }
    Ok(())
}

// MemLink of which one octet is inverted, and what the read answers.
static TURNED: [(usize, Result<HostAnswer, HostFault>); 12] = [
    (0, Err(HostFault::BadReply(0))),
    (
        3,
        Err(HostFault::NoCommonWidth(Widths {
            addresses: 0,
            ports: 8,
        })),
    ),
    (7, Err(HostFault::BadReply(7))),
    (11, Err(HostFault::BadReply(11))),
    (12, Ok(HostAnswer::Done(0xdead_beef))),
    (17, Err(HostFault::BadReply(17))),
    (20, Ok(HostAnswer::Done(0xdead_beef))),
    (31, Err(HostFault::BadReply(31))),
    (36, Ok(HostAnswer::Done(0x21ad_beef))),
    (40, Err(HostFault::BadReply(40))),
    (55, Err(HostFault::BadReply(55))),
    (71, Ok(HostAnswer::Error)),
];

#[test]
fn turned_replies(rt: HostRuntime) -> Result<(), Fail> {
    let alloc = rt.alloc();
    for row in &TURNED {
        let (at, expected) = *row;
        let mut replies = REPLIES;
        replies[at] = !replies[at];
        assert_eq!(rt; read_over(alloc, &replies), expected);
    }
    Ok(())
}

// The replies of a slave with addresses of 32 bits: to the probe, to the header, to a cycle of a write and a read of
// which the write failed, to a write, and to the record that reads the address of the root table.
static NARROW: [u8; 72] = [
    0x4e, 0x6f, 0x16, 0x47, 0, 0, 0, 1, //
    0x4e, 0x6f, 0x14, 0x44, //
    0x04, 0x0f, 0x01, 0x00, 0, 0, 0, 0, 0, 0, 0, 7, //
    0x0c, 0x0f, 0x02, 0x00, 0, 0, 0, 0, 0, 0, 0, 0, 0, 0, 0, 2, //
    0x0c, 0x0f, 0x02, 0x00, 0, 0, 0, 0, 0, 0, 0, 0, 0, 0, 0, 4, //
    0x0c, 0x0f, 0x02, 0x00, 0, 0, 0, 0, 0, 0, 0, 0, 0, 0x02, 0x80, 0,
];

// A cycle of two operations.
fn write_and_read(host: &mut Host<MemLink>, alloc: Global) -> Result<Vec<HostAnswer>, HostFault> {
    let write = HostOp {
        write: true,
        adr: 0x4_0000,
        dat: 1,
    };
    let read = HostOp {
        write: false,
        adr: 4,
        dat: 0,
    };
    host.cycle(alloc, &[write, read])
}

#[test]
fn narrow_addresses(rt: HostRuntime) -> Result<(), Fail> {
    let alloc = rt.alloc();
    let Ok(mut host) = open(link(alloc, &NARROW)?, alloc) else {
        return Err(Fail::from("open"));
    };
    let wide = 0x1_0000_0000;
    assert_eq!(rt; host.read(wide), Err(HostFault::TooWide(wide)));
    let Ok(answers) = write_and_read(&mut host, alloc) else {
        return Err(Fail::from("cycle"));
    };
    assert_eq!(rt;
        answers.as_slice(),
        [HostAnswer::Error, HostAnswer::Done(7)].as_slice()
    );
    assert_eq!(rt; host.write(0x10, 1), Ok(HostAnswer::Done(0)));
    assert_eq!(rt; host.root(), Ok(0x2_8000));
    Ok(())
}

// A reader over a host with a port of 32 bits.
fn reader(link: MemLink, alloc: Global) -> Result<HostReader<MemLink>, HostFault> {
    let widths = Widths {
        addresses: 15,
        ports: 4,
    };
    match Host::open(alloc, link, widths) {
        Ok(host) => Ok(HostReader::new(host)),
        Err((_, fault)) => Err(fault),
    }
}

#[test]
fn one_word(rt: HostRuntime) -> Result<(), Fail> {
    let alloc = rt.alloc();
    let Ok(mut reader) = reader(link(alloc, &REPLIES)?, alloc) else {
        return Err(Fail::from("open"));
    };
    let ended = NoWord::Cause(HostFault::Ended(72));
    assert!(rt; reader.word(0x10) == Ok(0xdead_beef));
    assert!(rt; reader.word(0x10) == Err(ended));
    Ok(())
}
