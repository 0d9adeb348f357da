//! Ports served.
ghost use Rattle.std.specs.Prelude.{◌≡◌, ◌<◌, ◌≤◌, length, IfOk, OnErr};
ghost use Rattle.soc_desc.specs.Accepted.{IsAccepted};
ghost use Rattle.eb_ports.specs.Connections.{door_told};
ghost use Rattle.eb_serve.specs.Serves.{Serves};
ghost use Rattle.eb_serve.specs.Readied.{IsReadied};

use crate::lanes::{Kept, seat, serve_lanes, take_ends};
use crate::served::ServedPorts;
use eb_base::{NoMemory, Width};
use eb_net::Door;
use eb_ports::{Ends, PortLane};
use eb_session::Slave;
use eb_shared::{SharedBus, gather};
use soc_bus::Bus;
use soc_desc::Description;
use soc_journal::Journal;
use soc_turn::{Root, Turn};
use std::alloc::Global;
use std::sync::Wait;
use std::thread::Threads;

/// All that takes memory before a connection is accepted: the turn of the bus, and what its lanes need.
#[derive(Drop)]
struct Readied<D> {
    slave: Slave,
    turn: Turn<SharedBus>,
    root: Root<SharedBus>,
    ends: Vec<Ends>,
    lanes: Vec<PortLane<D>>,
    kept: Kept<D>,
}

// Takes all memory that serving so many ports takes before a connection is accepted.
fn ready<D: Door + Drop>(
    alloc: Global,
    description: &Description,
    connections: u32,
    count: usize,
) -> Result<Readied<D>, NoMemory>
    requires accepted { IsAccepted description.now }
    requires some { 0 < count }
    requires few { count ≤ description.now.masters }
    ensures readied { IfOk result (IsReadied description.now connections count) }
{
    let slave = Slave {
        bus: Width::W32,
        root: description.bus.sdb,
    };
    let ends = take_ends(alloc, connections, count)?;
    let lanes = Vec::with_capacity(alloc, count)?;
    let kept = Kept::new(alloc, count)?;
    let bus = Bus::build(alloc, Journal::new(alloc), description)?;
    match Turn::new(alloc, bus, count as u8) {
        Ok((turn, root)) => Ok(Readied {
            slave,
            turn,
            root,
            ends,
            lanes,
            kept,
        }),
        Err(_) => Err(NoMemory),
    }
}

// Serves the connections of doors, and gathers what is kept of them.
fn run<R: Threads + Wait + Sync, D: Door + Send + Drop>(
    rt: &R,
    alloc: Global,
    readied: Readied<D>,
    doors: Vec<D>,
    connections: u32,
) -> (Vec<D>, ServedPorts)
where
    D::Link: Send,
    requires readied { IsReadied readied.root.origin.description connections (length doors.items) readied }
    requires some { 0 < length doors.items }
    ensures served { Serves (door_told D.Link.reading D.Link.writing D.standing D.accepting)
        readied.root.origin.description connections doors.items result.0.items result.1 }
{
    let Readied {
        slave,
        turn,
        mut root,
        ends,
        mut lanes,
        mut kept,
    } = readied;
    seat(&turn, &mut root, connections, ends, doors, &mut lanes);
    serve_lanes(rt, alloc, &turn, &mut lanes, slave, connections);
    kept.add_all(lanes);
    let Kept {
        doors,
        passes,
        ports,
    } = kept;
    let bus = gather(turn, root, passes);
    (doors, ServedPorts { ports, bus })
}

/// Serves ports beside each other on the bus of a description, one thread each: door i as the master i, and so many
/// connections of each, one after another. It waits until all ports are done, and hands the doors back in their order.
///
/// What came of it is one record (`served`): the journal is a legal history, and each port was served as one alone is,
/// with its master's own part of it. There is an ending for each connection that a door opened, as many as asked for,
/// or fewer exactly where an accept failed or no link was left. A connection ends with `NoMemory` also where there was
/// none for its session. Where memory was refused before a connection was accepted, the doors are as they were
/// (`refused`).
pub fn serve<R: Threads + Wait + Sync, D: Door + Send + Drop>(
    rt: &R,
    alloc: Global,
    description: &Description,
    doors: Vec<D>,
    connections: u32,
) -> (Vec<D>, Result<ServedPorts, NoMemory>)
where
    D::Link: Send,
    requires accepted { IsAccepted description.now }
    requires some { 0 < length doors.items }
    requires few { length doors.items ≤ description.now.masters }
    ensures served { IfOk result.1 (Serves (door_told D.Link.reading D.Link.writing D.standing D.accepting)
        description.now connections doors.items result.0.items) }
    ensures refused { OnErr result.1 (result.0.items ≡ doors.items) }
{
    match ready(alloc, description, connections, doors.len()) {
        Ok(readied) => {
            let (doors, served) = run(rt, alloc, readied, doors, connections);
            (doors, Ok(served))
        }
        Err(NoMemory) => (doors, Err(NoMemory)),
    }
}
