//! Datagrams over loopback.

ghost use Rattle.std.specs.Prelude.{◌≡◌, length};

use crate::ports;
use eb_io::{Got, Put};
use eb_net::{Net, Post, RealNet, UdpPost};
use std::alloc::Global;
use std::net::UdpSocket;
use std::test::Fail;

// A post of this machine, and where datagrams reach it.
fn bound(rt: HostRuntime, alloc: Global) -> Option<(UdpPost, &'static str)> {
    let mut net = RealNet::new(rt, alloc);
    let address = ports::bind(&mut net)?;
    let post = net.post()?;
    Some((post, address))
}

// What the post receives, and whether its sender gets the answer of six octets. Before, it answers nobody.
fn exchange(post: &mut UdpPost, client: &UdpSocket, room: &mut [u8]) -> (Put, Got, Put, usize)
    requires room { length room.old ≡ 65507 }
{
    let early = post.send(b"early");
    let _ = client.send(b"ask");
    let got = post.receive(room);
    let put = post.send(b"answer");
    (early, got, put, client.recv(room).unwrap_or(0))
}

// An empty datagram, and one of 65,507 octets.
fn receive_both(post: &mut UdpPost, client: &UdpSocket, room: &mut [u8]) -> (Got, Got)
    requires room { length room.old ≡ 65507 }
{
    let _ = client.send(b"");
    let least = post.receive(room);
    let _ = client.send(room);
    (least, post.receive(room))
}

// A datagram is received whole and its sender answered; before the first a send fails.
#[test]
fn datagrams(rt: HostRuntime) -> Result<(), Fail> {
    let Some((mut post, address)) = bound(rt, rt.alloc()) else {
        return Err("no post".into());
    };
    let client = UdpSocket::bind(&rt, "127.0.0.1:0")?;
    client.connect(address)?;
    let mut room = [0; 65_507];
    let asked = exchange(&mut post, &client, &mut room);
    let both = receive_both(&mut post, &client, &mut room);
    drop(post);
    assert_eq!(rt; asked, (Put::Failed, Got::Some(3), Put::Some(6), 6));
    assert_eq!(rt; both, (Got::Some(0), Got::Some(65_507)));
    assert_eq!(rt; &room[0..6], b"answer".as_slice());
    Ok(())
}
