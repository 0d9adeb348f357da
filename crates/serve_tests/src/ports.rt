//! Ports that are served to peers in memory.
use crate::peers::{
    OPENS, Peer, READS, REPLIED, WRITES, door_of_none, door_of_one, door_of_two, two,
};
use eb_io::MemSink;
use eb_net::Door;
use eb_samples::SOC;
use eb_serve::{ServedPorts, Unclean, serve};
use eb_server::Ending;
use soc_desc::read;
use std::alloc::Global;
use std::mem::forget;
use std::sync::Wait;
use std::test::Fail;
use std::thread::Threads;

// The text of served ports, which are let go.
fn text_of(alloc: Global, served: ServedPorts) -> Result<MemSink, Fail> {
    let mut out = MemSink::new(alloc, 256, 256, Vec::new(alloc))?;
    let wrote = served.write(&mut out);
    forget(served);
    match wrote {
        Ok(()) => Ok(out),
        Err(_) => Err(Fail::from("text")),
    }
}

/// What came of ports on the bus of a description: the doors, the text, and what didn't end clean.
pub fn served<R: Threads + Wait + Sync, D: Door + Send + Drop>(
    rt: &R,
    alloc: Global,
    description: &str,
    doors: Vec<D>,
    connections: u32,
) -> Result<(Vec<D>, MemSink, Option<Unclean>), Fail>
where
    D::Link: Send,
{
    let Ok(description) = read(alloc, description.as_bytes()) else {
        return Err(Fail::from("description"));
    };
    if doors.is_empty() || doors.len() > usize::from(description.masters) {
        return Err(Fail::from("masters"));
    }
    let (doors, result) = serve(rt, alloc, &description, doors, connections);
    let Ok(served) = result else {
        return Err(Fail::from("memory"));
    };
    let unclean = served.first_unclean();
    Ok((doors, text_of(alloc, served)?, unclean))
}

// What one peer writes, the next one reads.
#[test]
fn two_connections_of_a_port(rt: HostRuntime) -> Result<(), Fail> {
    let alloc = rt.alloc();
    let writes = Peer {
        octets: &WRITES,
        fails: &[],
    };
    let reads = Peer {
        octets: &READS,
        fails: &[],
    };
    let mut doors = Vec::new(alloc);
    doors.push(door_of_two(alloc, writes, reads)?)?;
    let (mut doors, text, unclean) = served(&rt, alloc, SOC, doors, 2)?;
    assert_eq!(rt;
        text.octets(),
        b"port 0 connection 0 clean\nport 0 connection 1 clean\njournal\n\
        cycle 0 whole\nw 0000000000000010 0F 00000000DEADBEEF ack\n\
        cycle 0 whole\nr 0000000000000010 0F ack 00000000DEADBEEF\n"
            .as_slice()
    );
    assert_eq!(rt; unclean, None);
    for door in &mut doors {
        assert_eq!(rt; door.link().octets(), REPLIED.as_slice());
    }
    Ok(())
}

// A peer vanishes in an open cycle, which is cut; the other port has none.
#[test]
fn peer_lost_in_a_cycle(rt: HostRuntime) -> Result<(), Fail> {
    let alloc = rt.alloc();
    let opens = Peer {
        octets: &OPENS,
        fails: &[1],
    };
    let doors = two(alloc, door_of_one(alloc, opens)?, door_of_none(alloc, &[])?)?;
    let (_, text, unclean) = served(&rt, alloc, SOC, doors, 1)?;
    assert_eq!(rt;
        text.octets(),
        b"port 0 connection 0 read fault\njournal\n\
        cycle 0 cut\nw 0000000000000000 0F 0000000000000001 ack\n"
            .as_slice()
    );
    assert_eq!(rt; unclean, Some(Unclean::Connection(Ending::ReadFault)));
    Ok(())
}

// The accept of the second port fails.
#[test]
fn failed_accept(rt: HostRuntime) -> Result<(), Fail> {
    let alloc = rt.alloc();
    let asks = Peer {
        octets: &WRITES[0..4],
        fails: &[],
    };
    let doors = two(alloc, door_of_one(alloc, asks)?, door_of_none(alloc, &[0])?)?;
    let (_, text, unclean) = served(&rt, alloc, SOC, doors, 1)?;
    assert_eq!(rt;
        text.octets(),
        b"port 0 connection 0 clean\nport 1 door fault\njournal\n".as_slice()
    );
    assert_eq!(rt; unclean, Some(Unclean::Door));
    Ok(())
}
