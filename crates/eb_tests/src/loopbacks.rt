use eb_base::{Width, Widths};
use eb_host::{Host, HostAnswer, HostFault};
use eb_loopback::Loopback;
use eb_session::{Session, Slave};
use soc_machine::{Machine, PlainMaster};
use soc_trail::Unkept;
use std::alloc::Global;
use std::test::Fail;

// A link to a slave with a RAM of 4,096 octets, whose root table is said to stand at 0x100.
fn link(alloc: Global) -> Result<Loopback<PlainMaster<Unkept>>, HostFault> {
    let Ok(machine) = Machine::ram(alloc, 4096, Width::W32) else {
        return Err(HostFault::NoMemory);
    };
    let master = PlainMaster::new(alloc, Unkept::new(), machine, 0);
    let (bus, root) = (Width::W32, 0x100);
    let Ok(session) = Session::new(alloc, Slave { bus, root }) else {
        return Err(HostFault::NoMemory);
    };
    Ok(Loopback::new(alloc, session, master))
}

// A host over it, with a port of 32 bits.
fn open(alloc: Global) -> Result<Host<Loopback<PlainMaster<Unkept>>>, HostFault> {
    let widths = Widths {
        addresses: 15,
        ports: 4,
    };
    match link(alloc) {
        Ok(link) => match Host::open(alloc, link, widths) {
            Ok(host) => Ok(host),
            Err((_, fault)) => Err(fault),
        },
        Err(fault) => Err(fault),
    }
}

// The root table's address, a word that is written and read again, and the session's register of the two operations.
#[test]
fn write_and_read(rt: HostRuntime) -> Result<(), Fail> {
    let alloc = rt.alloc();
    let Ok(mut host) = open(alloc) else {
        return Err(Fail::from("open"));
    };
    assert_eq!(rt; host.root(), Ok(0x100));
    assert_eq!(rt; host.write(8, 7), Ok(HostAnswer::Done(0)));
    assert_eq!(rt; host.read(8), Ok(HostAnswer::Done(7)));
    let link = host.into_link();
    assert_eq!(rt; link.session().errors(), 0);
    Ok(())
}

// A read behind the RAM is an error of the bus.
#[test]
fn missing_address(rt: HostRuntime) -> Result<(), Fail> {
    let alloc = rt.alloc();
    let Ok(mut host) = open(alloc) else {
        return Err(Fail::from("open"));
    };
    assert_eq!(rt; host.read(4096), Ok(HostAnswer::Error));
    assert_eq!(rt; host.read(4092), Ok(HostAnswer::Done(0)));
    let link = host.into_link();
    assert_eq!(rt; link.session().errors(), 0b10);
    Ok(())
}
