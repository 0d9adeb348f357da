//! A net in memory.

ghost use Rattle.std.specs.Prelude.{IfOk};
ghost use Rattle.eb_net.specs.DoorLink.{IsUnused};

use eb_base::NoMemory;
use eb_io::{Got, MemLink, MemSink, MemSource, Opened, Put, Sink, Source};
use eb_net::{Accepted, Door, MemDoor, MemNet, MemPost, Net, Post};
use std::alloc::Global;
use std::test::Fail;

// A link that gives these octets, two a read, and has room for eight.
fn link_of(alloc: Global, octets: &[u8]) -> Result<MemLink, NoMemory>
    ensures unused { IfOk result IsUnused }
{
    let source = MemSource::new(Vec::from_slice(alloc, octets)?, 2, Vec::new(alloc));
    let sink = MemSink::new(alloc, 8, 8, Vec::new(alloc))?;
    Ok(MemLink::new(source, sink))
}

// A net of one door with one peer, a post and a link.
fn net_of(alloc: Global) -> Result<MemNet, NoMemory> {
    let mut links = Vec::new(alloc);
    links.push(link_of(alloc, b"peer")?)?;
    let mut doors = Vec::new(alloc);
    doors.push(MemDoor::new(alloc, links, Vec::new(alloc))?)?;
    let link = link_of(alloc, b"dialled")?;
    let post = MemPost::new(
        alloc,
        Vec::new(alloc),
        Vec::new(alloc),
        1,
        8,
        Vec::new(alloc),
    )?;
    Ok(MemNet::new(alloc, doors, Some(post), Some(link)))
}

// What each call that makes something answers, and then again.
fn twice(net: &mut MemNet, alloc: Global) -> [Opened; 6] {
    [
        net.listen(1),
        net.listen(2),
        net.bind(3),
        net.bind(3),
        net.dial(alloc, "peer"),
        net.dial(alloc, "peer"),
    ]
}

// How much of each kind is handed out, and then again.
fn handed_out(net: &mut MemNet, alloc: Global) -> [usize; 6] {
    [
        net.doors(alloc).len(),
        net.doors(alloc).len(),
        usize::from(net.post().is_some()),
        usize::from(net.post().is_some()),
        usize::from(net.link().is_some()),
        usize::from(net.link().is_some()),
    ]
}

// What the connections of a door do.
fn meet(door: &mut MemDoor) -> (Accepted, Got, Put, Accepted) {
    let mut room = [0; 4];
    let accepted = door.accept();
    let got = door.link().read(&mut room);
    let put = door.link().write(b"hello");
    (accepted, got, put, door.accept())
}

// It gives each once, whatever is asked for, and fails where none is left. What it has is handed out once.
#[test]
fn each_once(rt: HostRuntime) -> Result<(), Fail> {
    let alloc = rt.alloc();
    let mut net = net_of(alloc)?;
    let made = twice(&mut net, alloc);
    let handed = handed_out(&mut net, alloc);
    drop(net);
    let (done, failed) = (Opened::Done, Opened::Failed);
    assert_eq!(rt; made, [done, failed, done, failed, done, failed]);
    assert_eq!(rt; handed, [1, 0, 1, 0, 1, 0]);
    Ok(())
}

// A door gives its peers and is put back, and a post sends as much as it has room for.
#[test]
fn used_and_put_back(rt: HostRuntime) -> Result<(), Fail> {
    let alloc = rt.alloc();
    let mut net = net_of(alloc)?;
    let _ = twice(&mut net, alloc);
    let (mut doors, Some(mut post)) = (net.doors(alloc), net.post()) else {
        return Err("no post".into());
    };
    let mut met = None;
    for door in &mut doors {
        met = Some(meet(door));
    }
    let sent = (post.send(b"sent"), post.send(b"more"));
    net.put_doors(doors);
    net.put_post(post);
    let handed = handed_out(&mut net, alloc);
    drop(net);
    let (open, closed) = (Accepted::Open, Accepted::Closed);
    assert_eq!(rt; met, Some((open, Got::Some(2), Put::Some(5), closed)));
    assert_eq!(rt; sent, (Put::Some(4), Put::Failed));
    assert_eq!(rt; handed, [1, 0, 1, 0, 1, 0]);
    Ok(())
}
