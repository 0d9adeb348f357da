ghost use Rattle.std.specs.Prelude.{◌≡◌, ◌≤◌, All, IfOk, length};
ghost use Rattle.eb_net.specs.Posting.{most_of_datagram};
ghost use Rattle.eb_ports.specs.Ends.{no_ends};

use crate::heard::Heard;
use eb_base::{Octets, Width};
use eb_io::MemSink;
use eb_net::MemPost;
use eb_ports::{Ends, serve_post};
use eb_samples::{CAPTURE, SOC};
use eb_serve::{ServedDatagrams, serve_datagrams};
use eb_server::Ending;
use eb_session::Slave;
use soc_desc::read;
use soc_machine::{Machine, PlainMaster};
use soc_trail::Unkept;
use std::alloc::Global;
use std::mem::forget;
use std::sync::Wait;
use std::test::Fail;

// A probe.
const PROBE: [u8; 8] = [0x4E, 0x6F, 0x11, 0xFF, 0x00, 0x00, 0x00, 0x07];

// What is sent for the three datagrams: the widths of a slave of 32 bits, and the replies to a header and two records.
const SENT: [u8; 26] = [
    0xAA, 0x4E, 0x6F, 0x16, 0xF7, 0x00, 0x00, 0x00, 0x07, 0xAA, 0x4E, 0x6F, 0x14, 0x44, 0x0C, 0x0F,
    0x01, 0x00, 0x00, 0x00, 0x00, 0x00, 0xDE, 0xAD, 0xBE, 0xEF,
];

fn ends_for(alloc: Global, most: u32) -> Result<Ends, Fail>
    ensures none { IfOk result (λ ends. ends ≡ no_ends most) }
{
    Ok(Ends::new(alloc, most).ok().ok_or("ends")?)
}

// A probe, an empty datagram, and a capture.
fn three(alloc: Global) -> Result<Vec<Octets>, Fail>
    ensures short { IfOk result (λ v. All (λ octets. length octets ≤ most_of_datagram) v.items) }
{
    let mut datagrams = Vec::new(alloc);
    datagrams.push(Octets::of(Vec::from_slice(alloc, &PROBE)?))?;
    datagrams.push(Octets::of(Vec::new(alloc)))?;
    datagrams.push(Octets::of(Vec::from_slice(alloc, &CAPTURE)?))?;
    Ok(datagrams)
}

// A post that gives them, of which the receives and sends of these numbers fail.
fn heard(alloc: Global, receive_fails: &[u64], send_fails: &[u64]) -> Result<Heard, Fail> {
    let datagrams = three(alloc)?;
    let receive_fails = Vec::from_slice(alloc, receive_fails)?;
    let send_fails = Vec::from_slice(alloc, send_fails)?;
    let Ok(post) = MemPost::new(alloc, datagrams, receive_fails, 3, 256, send_fails) else {
        return Err("post".into());
    };
    Ok(Heard {
        post,
        sent: Vec::with_capacity(alloc, 256)?,
    })
}

// Serves so many datagrams on a RAM.
fn served(alloc: Global, heard: &mut Heard, datagrams: u32) -> Result<Ends, Fail> {
    let mut ends = ends_for(alloc, 8)?;
    if datagrams == 0 || datagrams > 8 {
        return Err("datagrams".into());
    }
    let machine = Machine::ram(alloc, 4096, Width::W32).ok().ok_or("machine")?;
    let mut master = PlainMaster::new(alloc, Unkept::new(), machine, 0);
    let slave = Slave {
        bus: Width::W32,
        root: 0,
    };
    serve_post(alloc, heard, slave, &mut master, datagrams, &mut ends);
    Ok(ends)
}

// The replies to a datagram go out as one; to an empty one none does. No fourth one is left.
#[test]
fn three_datagrams(rt: HostRuntime) -> Result<(), Fail> {
    let mut heard = heard(rt.alloc(), &[], &[])?;
    let ends = served(rt.alloc(), &mut heard, 4)?;
    assert!(rt; ends.count() == 3);
    for i in 0..3 {
        assert_eq!(rt; ends.ending(i), Ending::Clean);
    }
    assert_eq!(rt; heard.sent.as_slice(), SENT.as_slice());
    Ok(())
}

// The second receive and the second send fail.
#[test]
fn faults_of_a_post(rt: HostRuntime) -> Result<(), Fail> {
    let mut heard = heard(rt.alloc(), &[1], &[1])?;
    let ends = served(rt.alloc(), &mut heard, 4)?;
    assert!(rt; ends.count() == 4);
    assert_eq!(rt; ends.ending(0), Ending::Clean);
    assert_eq!(rt; ends.ending(1), Ending::ReadFault);
    assert_eq!(rt; ends.ending(2), Ending::Clean);
    assert_eq!(rt; ends.ending(3), Ending::WriteFault);
    Ok(())
}

// The text of served datagrams, which are let go.
fn text_of(alloc: Global, served: ServedDatagrams) -> Result<MemSink, Fail> {
    let mut out = MemSink::new(alloc, 256, 256, Vec::new(alloc))
        .ok()
        .ok_or("sink")?;
    let wrote = served.write(&mut out);
    forget(served);
    match wrote {
        Ok(()) => Ok(out),
        Err(_) => Err("text".into()),
    }
}

// Serves four datagrams on the bus of SOC: the text of them, and the first ending that isn't clean.
fn described<R: Wait>(
    rt: &R,
    alloc: Global,
    heard: &mut Heard,
) -> Result<(MemSink, Option<Ending>), Fail> {
    let Ok(description) = read(alloc, SOC.as_bytes()) else {
        return Err("description".into());
    };
    let Ok(served) = serve_datagrams(rt, alloc, &description, heard, 4) else {
        return Err("memory".into());
    };
    let unclean = served.first_unclean();
    Ok((text_of(alloc, served)?, unclean))
}

// The three datagrams on a described bus.
#[test]
fn datagrams_of_a_bus(rt: HostRuntime) -> Result<(), Fail> {
    let mut heard = heard(rt.alloc(), &[], &[])?;
    let (text, unclean) = described(&rt, rt.alloc(), &mut heard)?;
    assert_eq!(rt; unclean, None);
    assert_eq!(rt; heard.sent.as_slice(), SENT.as_slice());
    assert_eq!(rt;
        text.octets(),
        b"datagram 0 clean\ndatagram 1 clean\ndatagram 2 clean\njournal\n\
        cycle 0 whole\nw 0000000000000010 0F 00000000DEADBEEF ack\n\
        cycle 0 whole\nr 0000000000000010 0F ack 00000000DEADBEEF\n"
            .as_slice()
    );
    Ok(())
}
