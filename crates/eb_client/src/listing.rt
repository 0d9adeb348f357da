//! Discovery over a link.
ghost use Rattle.std.specs.Prelude.{◌≡◌, List, Result};
ghost use Rattle.sdb_walk.specs.declared.found.Found.{Found};
ghost use Rattle.sdb_walk.specs.declared.fault.WalkFault.{WalkFault};
ghost use Rattle.eb_host.specs.declared.op.HostFault.{HostFault};
ghost use Rattle.eb_host.specs.Exchange.{duplex};
ghost use Rattle.eb_client.specs.Listed.{ShowsTree, WalksOver, walk_ending};

use crate::asking::{host_ending, open_for};
use crate::fault::{ClientFault, WalkWhy};
use eb_base::Width;
use eb_host::HostFault;
use eb_io::{Link, Sink, WriteFault};
use eb_reader::HostReader;
use eb_text::{Fault, write_listing};
use sdb_walk::{Tree, WalkFault, discover};
use std::alloc::Global;

// Opens a host over a link, reads the address of the root table, and walks from there. It hands the link back.
fn walk_over<L: Link>(alloc: Global, link: L) -> (L, Result<Tree, WalkFault<HostFault>>)
    ensures walks { WalksOver (duplex (L.reading link) (L.writing link))
        (duplex (L.reading result.0) (L.writing result.0)) result.1 }
{
    let mut host = match open_for(alloc, link, Width::W32) {
        Ok(host) => host,
        Err((link, fault)) => return (link, Err(WalkFault::Reader(fault))),
    };
    let root = match host.root() {
        Ok(root) => root,
        Err(fault) => return (host.into_link().into_link(), Err(WalkFault::Reader(fault))),
    };
    let mut reader = HostReader::new(host);
    let found = discover(alloc, &mut reader, root);
    (reader.into_host().into_link().into_link(), found)
}

// How a command ends by a fault of its walk.
fn walk_ending(fault: WalkFault<HostFault>) -> ClientFault
    ensures ending { result ≡ walk_ending fault }
{
    match fault {
        WalkFault::BusError(adr) => ClientFault::BusError(adr),
        WalkFault::Record(at, why) => ClientFault::Walk(at, WalkWhy::Record(why)),
        WalkFault::WrongPlace(at) => ClientFault::Walk(at, WalkWhy::WrongPlace),
        WalkFault::TooMany(at) => ClientFault::Walk(at, WalkWhy::TooMany),
        WalkFault::OutsideParent(at) => ClientFault::Walk(at, WalkWhy::OutsideParent),
        WalkFault::TooDeep(at) => ClientFault::Walk(at, WalkWhy::TooDeep),
        WalkFault::Reader(fault) => host_ending(fault),
        WalkFault::NoMemory => ClientFault::Common(Fault::NoMemory),
    }
}

// Shows the tree that was found, where there is one.
fn show_tree<O: Sink>(
    found: &Result<Tree, WalkFault<HostFault>>,
    out: &mut O,
) -> Result<(), ClientFault>
    ensures shows { ShowsTree O.writing O.beside_writes found.now out.old out.new result }
{
    match found {
        Ok(tree) => match write_listing(tree, out) {
            Ok(()) => Ok(()),
            Err(WriteFault) => Err(ClientFault::Common(Fault::WriteFault)),
        },
        Err(fault) => Err(walk_ending(*fault)),
    }
}

/// Walks the tables of the slave at the other end of a link, and writes the listing of what is found to `out`. It hands
/// the link back.
///
/// Nothing is written to `out` unless the walk found a tree.
pub fn ls_over<L: Link, O: Sink>(
    alloc: Global,
    link: L,
    out: &mut O,
) -> (L, Result<(), ClientFault>)
    ensures lists { (found : Result (List Found) (WalkFault HostFault))
        × WalksOver (duplex (L.reading link) (L.writing link))
        (duplex (L.reading result.0) (L.writing result.0)) found
        × ShowsTree O.writing O.beside_writes found out.old out.new result.1 }
{
    let (link, found) = walk_over(alloc, link);
    let shown = show_tree(&found, out);
    (link, shown)
}
