use eb_base::{NoMemory, Width};
use eb_client::{ClientFault, read_over, write_client_line, write_over};
use eb_io::{MemLink, MemSink, MemSource};
use eb_text::Status;
use std::alloc::Global;
use std::test::Fail;

// What the peer answers to a read of the word 0xDEADBEEF: to the probe, to the header, to the read, and to the record
// that ends the cycle.
static REPLIES: [u8; 72] = [
    0x4e, 0x6f, 0x16, 0xf7, 0, 0, 0, 1, //
    0x4e, 0x6f, 0x14, 0x84, 0, 0, 0, 0, //
    0x04, 0x0f, 0x01, 0x00, 0, 0, 0, 0, 0, 0, 0, 0, 0, 0, 0, 0, 0, 0, 0, 0, 0xde, 0xad, 0xbe, 0xef, //
    0x0c, 0x0f, 0x02, 0x00, 0, 0, 0, 0, 0, 0, 0, 0, 0, 0, 0, 0, 0, 0, 0, 0, 0, 0, 0, 0, 0, 0, 0, 0,
    0, 0, 0, 0,
];

// What the client asks for them.
static ASKED: [u8; 72] = [
    0x4e, 0x6f, 0x11, 0xf4, 0, 0, 0, 1, //
    0x4e, 0x6f, 0x10, 0x84, 0, 0, 0, 0, //
    0x80, 0x0f, 0x00, 0x01, 0, 0, 0, 0, 0, 0, 0, 0, 0, 0, 0, 0, 0, 0, 0, 0, 0, 0, 0, 0x10, //
    0xc8, 0x0f, 0x00, 0x02, 0, 0, 0, 0, 0, 0, 0, 0, 0, 0, 0, 0, 0, 0, 0, 0, 0, 0, 0, 0, 0, 0, 0, 0,
    0, 0, 0, 4,
];

// What the peer answers to a write that failed.
static FAILED: [u8; 48] = [
    0x4e, 0x6f, 0x16, 0xf7, 0, 0, 0, 1, //
    0x4e, 0x6f, 0x14, 0x84, 0, 0, 0, 0, //
    0x0c, 0x0f, 0x02, 0x00, 0, 0, 0, 0, 0, 0, 0, 0, 0, 0, 0, 0, 0, 0, 0, 0, 0, 0, 0, 0, 0, 0, 0, 0,
    0, 0, 0, 1,
];

// What the client asks for the write of 1 at 0x40000.
static WRITTEN: [u8; 72] = [
    0x4e, 0x6f, 0x11, 0xf4, 0, 0, 0, 1, //
    0x4e, 0x6f, 0x10, 0x84, 0, 0, 0, 0, //
    0x00, 0x0f, 0x01, 0x00, 0, 0, 0, 0, 0, 0, 0, 0, 0, 4, 0, 0, 0, 0, 0, 0, 0, 0, 0, 1, //
    0xc8, 0x0f, 0x00, 0x02, 0, 0, 0, 0, 0, 0, 0, 0, 0, 0, 0, 0, 0, 0, 0, 0, 0, 0, 0, 0, 0, 0, 0, 0,
    0, 0, 0, 4,
];

// A link whose peer sends these replies, 3 octets a read, and takes 5 a write.
fn link(alloc: Global, replies: &[u8]) -> Result<MemLink, NoMemory> {
    let source = MemSource::new(Vec::from_slice(alloc, replies)?, 3, Vec::new(alloc));
    let sink = MemSink::new(alloc, 200, 5, Vec::new(alloc))?;
    Ok(MemLink::new(source, sink))
}

// The line that a fault is told by, after the status.
fn told(alloc: Global, ended: Result<(), ClientFault>) -> Result<(Status, MemSink), NoMemory> {
    let mut err = MemSink::new(alloc, 96, 96, Vec::new(alloc))?;
    match ended {
        Ok(()) => Ok((Status::OK, err)),
        Err(fault) => {
            let _ = write_client_line(&fault, &mut err);
            Ok((fault.status(), err))
        }
    }
}

// The status and what is shown of a read at 0x10 with these replies, on `out` and on standard error.
fn read_told(alloc: Global, replies: &[u8]) -> Result<(Status, MemSink, MemSink), NoMemory> {
    let mut out = MemSink::new(alloc, 96, 96, Vec::new(alloc))?;
    let (_, ended) = read_over(alloc, link(alloc, replies)?, 0x10, Width::W32, &mut out);
    let (status, err) = told(alloc, ended)?;
    Ok((status, out, err))
}

#[test]
fn one_read(rt: HostRuntime) -> Result<(), Fail> {
    let alloc = rt.alloc();
    let mut out = MemSink::new(alloc, 96, 96, Vec::new(alloc))?;
    let link = link(alloc, &REPLIES)?;
    let (link, ended) = read_over(alloc, link, 0x10, Width::W32, &mut out);
    assert!(rt; ended.is_ok());
    assert_eq!(rt; out.octets(), b"DEADBEEF\n".as_slice());
    assert_eq!(rt; link.octets(), ASKED.as_slice());
    Ok(())
}

#[test]
fn one_write(rt: HostRuntime) -> Result<(), Fail> {
    let alloc = rt.alloc();
    let link = link(alloc, &FAILED)?;
    let (link, ended) = write_over(alloc, link, 0x4_0000, Width::W32, 1);
    let (status, err) = told(alloc, ended)?;
    assert_eq!(rt; status, Status(10));
    assert_eq!(rt; err.octets(), b"bus error at 0000000000040000\n".as_slice());
    assert_eq!(rt; link.octets(), WRITTEN.as_slice());
    Ok(())
}

// Replies that are cut after so many octets, and the line that is told.
static CUTS: [(usize, &str); 6] = [
    (0, "peer ended after 0 octets\n"),
    (7, "peer ended after 7 octets\n"),
    (8, "peer ended after 8 octets\n"),
    (16, "peer ended after 16 octets\n"),
    (40, "peer ended after 40 octets\n"),
    (71, "peer ended after 71 octets\n"),
];

#[test]
fn cut_replies(rt: HostRuntime) -> Result<(), Fail> {
    for row in &CUTS {
        let (count, line) = *row;
        let (status, out, err) = read_told(rt.alloc(), &REPLIES[..count])?;
        assert_eq!(rt; status, Status(9));
        assert_eq!(rt; out.octets().len(), 0);
        assert_eq!(rt; err.octets(), line.as_bytes());
    }
    Ok(())
}

// Replies of which one octet is inverted, with the status, and what is shown on `out` and on standard error.
static TURNED: [(usize, u8, &str, &str); 8] = [
    (0, 9, "", "peer's reply refused at 0\n"),
    (3, 9, "", "no common width\n"),
    (11, 9, "", "peer's reply refused at 11\n"),
    (12, 0, "DEADBEEF\n", ""),
    (36, 0, "21ADBEEF\n", ""),
    (40, 9, "", "peer's reply refused at 40\n"),
    (55, 9, "", "peer's reply refused at 55\n"),
    (71, 10, "", "bus error at 0000000000000010\n"),
];

#[test]
fn turned_replies(rt: HostRuntime) -> Result<(), Fail> {
    for row in &TURNED {
        let (at, number, shown, line) = *row;
        let mut replies = REPLIES;
        replies[at] = !replies[at];
        let (status, out, err) = read_told(rt.alloc(), &replies)?;
        assert_eq!(rt; status, Status(number));
        assert_eq!(rt; out.octets(), shown.as_bytes());
        assert_eq!(rt; err.octets(), line.as_bytes());
    }
    Ok(())
}
