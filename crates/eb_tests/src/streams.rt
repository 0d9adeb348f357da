ghost use Rattle.std.specs.Prelude.{◌≡◌, IfOk};
ghost use Rattle.eb_base.specs.declared.width.Width.TheVariants.{W32};
ghost use Rattle.eb_session.specs.Keeping.{new_session};

use crate::no_room::NoRoom;
use eb_base::Width;
use eb_io::{MemLink, MemSink, MemSource};
use eb_samples::{CAPTURE, REPLY};
use eb_server::{Ending, Rooms, serve, serve_stream};
use eb_session::{Session, Slave};
use soc_machine::{Machine, PlainMaster};
use soc_trail::Unkept;
use std::alloc::Global;
use std::test::Fail;

fn session_of(alloc: Global) -> Result<Session, Fail>
    ensures fresh { IfOk result (λ s. s ≡ new_session (record { bus = W32; root = 0 })) }
{
    let (bus, root) = (Width::W32, 0);
    Ok(
        Session::new(alloc, Slave { bus, root })
            .ok()
            .ok_or("session")?,
    )
}

// Serves the capture over a link that gives 7 octets a read and takes one a write, of which one fails.
fn serve_failing(alloc: Global, fails: u64) -> Result<(Ending, MemLink), Fail> {
    let source = MemSource::new(Vec::from_slice(alloc, &CAPTURE)?, 7, Vec::new(alloc));
    let sink = MemSink::new(alloc, 64, 1, Vec::from_slice(alloc, &[fails])?)?;
    let mut link = MemLink::new(source, sink);
    let machine = Machine::ram(alloc, 4096, Width::W32).ok().ok_or("machine")?;
    let mut master = PlainMaster::new(alloc, Unkept::new(), machine, 0);
    let mut session = session_of(alloc)?;
    let mut rooms = Rooms::new(alloc, 64).ok().ok_or("rooms")?;
    let ending = serve_stream(&mut link, &mut session, &mut master, &mut rooms);
    Ok((ending, link))
}

// Where write k fails, the first k octets of the replies went out.
#[test]
fn front_of_the_replies(rt: HostRuntime) -> Result<(), Fail> {
    for k in 0..16 {
        let (ending, link) = serve_failing(rt.alloc(), k as u64)?;
        assert_eq!(rt; ending, Ending::WriteFault);
        assert_eq!(rt; link.octets(), &REPLY[0..k]);
    }
    let (ending, link) = serve_failing(rt.alloc(), 16)?;
    assert_eq!(rt; ending, Ending::Clean);
    assert_eq!(rt; link.octets(), REPLY.as_slice());
    Ok(())
}

// A record for which the master has no memory: the reply to the header stands.
#[test]
fn no_memory_for_a_record(rt: HostRuntime) -> Result<(), Fail> {
    let alloc = rt.alloc();
    let octets = [
        0x4E, 0x6F, 0x10, 0x44, 0x08, 0x0F, 0x01, 0x00, 0x00, 0x00, 0x00, 0x10, 0xDE, 0xAD, 0xBE,
        0xEF,
    ];
    let mut source = MemSource::new(Vec::from_slice(alloc, &octets)?, 1, Vec::new(alloc));
    let mut sink = MemSink::new(alloc, 64, 3, Vec::new(alloc))?;
    let mut session = session_of(alloc)?;
    let mut master = NoRoom::new();
    let mut rooms = Rooms::new(alloc, 16).ok().ok_or("rooms")?;
    let ending = serve(
        &mut source,
        &mut sink,
        &mut session,
        &mut master,
        &mut rooms,
    );
    assert_eq!(rt; ending, Ending::NoMemory);
    assert_eq!(rt; sink.octets(), [0x4E, 0x6F, 0x14, 0x44].as_slice());
    Ok(())
}
