//! The commands of a server, over files and peers in memory.
ghost use Rattle.std.specs.Prelude.{All};
ghost use Rattle.eb_net.specs.MemDoor.{door_state};
ghost use Rattle.eb_net.specs.Network.{IsNewDoor};

use crate::peers::{
    OPENS, Peer, READS, REPLIED, WRITES, door_of_none, door_of_one, door_of_two, one, two,
};
use eb_base::NoMemory;
use eb_io::{MemSink, MemSource, MemWorld};
use eb_net::{Door, MemDoor, MemNet, Net};
use eb_samples::{DEEP, SOC};
use eb_serving::{Around, run_serving};
use eb_text::Status;
use std::alloc::{AllocError, Global};
use std::process::Abort;
use std::sync::Wait;
use std::test::Fail;
use std::thread::Threads;

// The words that stand between single spaces.
fn words_of(alloc: Global, line: &str) -> Result<Vec<String>, AllocError> {
    let mut all = Vec::new(alloc);
    for word in line.split(' ') {
        all.push(String::from_str(alloc, word)?)?;
    }
    Ok(all)
}

// A world with one file of this text, of which the reads of these numbers fail; without a file where there is no text.
fn world_of(alloc: Global, text: &str, fails: &[u64]) -> Result<MemWorld, AllocError> {
    let mut files = Vec::new(alloc);
    if text.is_empty() {
        return Ok(MemWorld::new(alloc, files));
    }
    let octets = Vec::from_slice(alloc, text.as_bytes())?;
    files.push(MemSource::new(octets, 4096, Vec::from_slice(alloc, fails)?))?;
    Ok(MemWorld::new(alloc, files))
}

// What came of a command: the doors that stand in the net, the status, the output and standard error.
#[derive(Drop)]
struct Ran {
    doors: Vec<MemDoor>,
    status: Status,
    out: MemSink,
    err: MemSink,
}

// Runs the words of a line over a world, and these doors, which ports are given in order.
fn run<R: Threads + Wait + Sync>(
    rt: &R,
    alloc: Global,
    line: &str,
    world: MemWorld,
    doors: Vec<MemDoor>,
) -> Result<Ran, NoMemory>
    requires new { All (λ door. IsNewDoor (door_state door)) doors.items }
{
    let words = words_of(alloc, line)?;
    let net = MemNet::new(alloc, doors, None, None);
    let mut around = Around { world, net };
    let mut out = MemSink::new(alloc, 512, 512, Vec::new(alloc))?;
    let mut err = MemSink::new(alloc, 128, 128, Vec::new(alloc))?;
    let status = run_serving(rt, alloc, &words, &mut around, &mut out, &mut err);
    let doors = around.net.doors(alloc);
    Ok(Ran {
        doors,
        status,
        out,
        err,
    })
}

// Compares what came of a command.
fn compare<R: Abort>(rt: &R, ran: &Ran, status: u8, text: &str, line: &str) {
    assert_eq!(rt; ran.status, Status(status));
    assert_eq!(rt; ran.out.octets(), text.as_bytes());
    assert_eq!(rt; ran.err.octets(), line.as_bytes());
}

// What a master of DEEP is told to do by one peer, the next one reads.
#[test]
fn two_connections_of_a_port(rt: HostRuntime) -> Result<(), Fail> {
    let alloc = rt.alloc();
    let writes = Peer {
        octets: &WRITES,
        fails: &[],
    };
    let reads = Peer {
        octets: &READS,
        fails: &[],
    };
    let doors = one(alloc, door_of_two(alloc, writes, reads)?)?;
    let world = world_of(alloc, DEEP, &[])?;
    let mut ran = run(&rt, alloc, "serve deep 60368 2", world, doors)?;
    compare(
        &rt,
        &ran,
        0,
        "port 0 connection 0 clean\nport 0 connection 1 clean\njournal\n\
        cycle 0 whole\nw 0000000000000010 0F 00000000DEADBEEF ack\n\
        cycle 0 whole\nr 0000000000000010 0F ack 00000000DEADBEEF\n",
        "",
    );
    assert_eq!(rt; ran.doors.len(), 1);
    for door in &mut ran.doors {
        assert_eq!(rt; door.link().octets(), REPLIED.as_slice());
    }
    Ok(())
}

const HEADER: [u8; 4] = [0x4E, 0x6F, 0x10, 0x44];

// What the peer of port 0 of SOC sends, its reads that fail, and the accepts of port 1 that do, with the status and the
// text.
static SERVED: [(&[u8], &[u64], &[u64], u8, &str); 6] = [
    (
        &WRITES,
        &[],
        &[],
        0,
        "port 0 connection 0 clean\njournal\n\
        cycle 0 whole\nw 0000000000000010 0F 00000000DEADBEEF ack\n",
    ),
    (
        &OPENS,
        &[1],
        &[],
        4,
        "port 0 connection 0 read fault\njournal\n\
        cycle 0 cut\nw 0000000000000000 0F 0000000000000001 ack\n",
    ),
    (
        &HEADER,
        &[],
        &[0],
        8,
        "port 0 connection 0 clean\nport 1 door fault\njournal\n",
    ),
    (
        &[0x4E, 0x6E],
        &[],
        &[0],
        6,
        "port 0 connection 0 malformed 1 wrong magic\nport 1 door fault\njournal\n",
    ),
    (
        &[0x4E, 0x6F],
        &[],
        &[],
        7,
        "port 0 connection 0 truncated 2\njournal\n",
    ),
    (&[], &[], &[], 0, "port 0 connection 0 clean\njournal\n"),
];

#[test]
fn two_ports(rt: HostRuntime) -> Result<(), Fail> {
    let alloc = rt.alloc();
    for row in &SERVED {
        let (octets, fails, accept_fails, status, text) = *row;
        let first = door_of_one(alloc, Peer { octets, fails })?;
        let doors = two(alloc, first, door_of_none(alloc, accept_fails)?)?;
        let world = world_of(alloc, SOC, &[])?;
        let ran = run(&rt, alloc, "serve soc 60368 1", world, doors)?;
        compare(&rt, &ran, status, text, "");
        assert_eq!(rt; ran.doors.len(), 2);
    }
    Ok(())
}

// Words, the text of the description and its reads that fail, with the status and the line. A net has one door.
static FAULTS: [(&str, &str, &[u64], u8, &str); 30] = [
    ("", SOC, &[], 2, "usage\n"),
    ("serve", SOC, &[], 2, "usage\n"),
    ("serve soc 60368", SOC, &[], 2, "usage\n"),
    ("serve soc 60368 1 1", SOC, &[], 2, "usage\n"),
    ("serve  60368 1", SOC, &[], 2, "usage\n"),
    ("serve soc 0 1", SOC, &[], 2, "usage\n"),
    ("serve soc 65536 1", SOC, &[], 2, "usage\n"),
    ("serve soc +1 1", SOC, &[], 2, "usage\n"),
    ("serve soc 0x10 1", SOC, &[], 2, "usage\n"),
    ("serve soc 000000000000000000001 1", SOC, &[], 2, "usage\n"),
    ("serve soc 60368 0", SOC, &[], 2, "usage\n"),
    ("serve soc 60368 10001", SOC, &[], 2, "usage\n"),
    ("serve soc 60368 1x", SOC, &[], 2, "usage\n"),
    ("serve-udp soc 60368 0", SOC, &[], 2, "usage\n"),
    ("serve-udp soc 65536 1", SOC, &[], 2, "usage\n"),
    ("serve-tcp soc 60368 1", SOC, &[], 2, "usage\n"),
    ("serve soc 65535 1", SOC, &[], 2, "usage\n"),
    (
        "serve soc 60368 1",
        "soc",
        &[],
        3,
        "description refused: not json\n",
    ),
    (
        "serve soc 65535 1",
        "soc",
        &[],
        3,
        "description refused: not json\n",
    ),
    (
        "serve-udp soc 60368 1",
        "soc",
        &[],
        3,
        "description refused: not json\n",
    ),
    (
        "serve soc 60368 1",
        "{}",
        &[],
        3,
        "description refused: missing /version\n",
    ),
    (
        "serve soc 60368 1",
        "[]",
        &[],
        3,
        "description refused: kind \n",
    ),
    ("serve soc 60368 1", "", &[], 4, "read fault\n"),
    ("serve-udp soc 60368 1", "", &[], 4, "read fault\n"),
    ("serve soc 60368 1", SOC, &[0], 4, "read fault\n"),
    ("serve soc 65535 1", SOC, &[1], 4, "read fault\n"),
    ("serve soc 60368 1", SOC, &[], 8, "door fault\n"),
    (
        "serve soc 65534 00000000000000010000",
        SOC,
        &[2],
        8,
        "door fault\n",
    ),
    ("serve-udp soc 60368 1", SOC, &[], 8, "door fault\n"),
    ("serve-udp soc 65535 10000", SOC, &[2], 8, "door fault\n"),
];

#[test]
fn faults(rt: HostRuntime) -> Result<(), Fail> {
    let alloc = rt.alloc();
    for row in &FAULTS {
        let (words, text, fails, status, line) = *row;
        let doors = one(alloc, door_of_none(alloc, &[])?)?;
        let ran = run(&rt, alloc, words, world_of(alloc, text, fails)?, doors)?;
        compare(&rt, &ran, status, "", line);
    }
    Ok(())
}
