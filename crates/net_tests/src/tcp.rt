//! Connections over loopback. A dial is done before the accept: the system keeps the peer waiting.

use crate::ports;
use eb_io::{Got, Opened, Put, Sink, Source};
use eb_net::{Accepted, Door, Net, RealNet, TcpDoor, TcpLink};
use std::alloc::Global;
use std::test::Fail;

// A door of this machine, and two links to it.
fn dialled(rt: HostRuntime, alloc: Global) -> Option<(TcpDoor, TcpLink, TcpLink)> {
    let mut net = RealNet::new(rt, alloc);
    let address = ports::listen(&mut net)?;
    let door = net.doors(alloc).pop()?;
    let first = dial(&mut net, alloc, address)?;
    let second = dial(&mut net, alloc, address)?;
    Some((door, first, second))
}

fn dial(net: &mut RealNet, alloc: Global, address: &str) -> Option<TcpLink> {
    if net.dial(alloc, address) != Opened::Done {
        return None;
    }
    net.link()
}

// What a door's connection reads and writes before the first.
fn early(door: &mut TcpDoor) -> (Got, Put) {
    let mut room = [0; 8];
    (door.link().read(&mut room), door.link().write(b"early"))
}

// Writes five octets at the one end and reads them at the other, and says whether they are the same.
fn carry<W: Sink, S: Source>(from: &mut W, to: &mut S) -> (Put, Got, bool) {
    let mut room = [0; 8];
    let put = from.write(b"there");
    let got = to.read(&mut room);
    (put, got, room == *b"there\0\0\0")
}

// What is read where the other end is closed.
fn last<S: Source>(from: &mut S) -> Got {
    let mut room = [0; 8];
    from.read(&mut room)
}

// Octets go there and back, and the door sees the peer's close as an end. Before the first connection a read is at the
// end, and a write fails.
#[test]
fn there_and_back(rt: HostRuntime) -> Result<(), Fail> {
    let Some((mut door, mut link, _)) = dialled(rt, rt.alloc()) else {
        return Err("no connection".into());
    };
    let before = early(&mut door);
    let accepted = door.accept();
    let there = carry(&mut link, door.link());
    let back = carry(door.link(), &mut link);
    drop(link);
    let end = last(door.link());
    drop(door);
    assert_eq!(rt; before, (Got::End, Put::Failed));
    assert_eq!(rt; accepted, Accepted::Open);
    assert_eq!(rt; there, (Put::Some(5), Got::Some(5), true));
    assert_eq!(rt; back, (Put::Some(5), Got::Some(5), true));
    assert_eq!(rt; end, Got::End);
    Ok(())
}

// The connection that stands is closed before the next is waited for, and the last one when the door is dropped.
#[test]
fn closes(rt: HostRuntime) -> Result<(), Fail> {
    let Some((mut door, mut first, mut second)) = dialled(rt, rt.alloc()) else {
        return Err("no connection".into());
    };
    let accepted = (door.accept(), door.accept());
    let first_end = last(&mut first);
    drop(door);
    let second_end = last(&mut second);
    assert_eq!(rt; accepted, (Accepted::Open, Accepted::Open));
    assert_eq!(rt; (first_end, second_end), (Got::End, Got::End));
    Ok(())
}

// Nobody answers where no door is, and a text need not be an address.
#[test]
fn refused(rt: HostRuntime) -> Result<(), Fail> {
    let alloc = rt.alloc();
    let mut net = RealNet::new(rt, alloc);
    let dialled = (net.dial(alloc, "127.0.0.1:1"), net.dial(alloc, "nowhere"));
    let link = net.link().is_some();
    assert_eq!(rt; dialled, (Opened::Failed, Opened::Failed));
    assert_eq!(rt; link, false);
    Ok(())
}
