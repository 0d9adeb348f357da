//! Datagrams served.
ghost use Rattle.std.specs.Prelude.{◌≡◌, ◌<◌, IfOk, OnErr};
ghost use Rattle.soc_desc.specs.Accepted.{IsAccepted};
ghost use Rattle.eb_serve.specs.Datagrams.{ServesDatagrams};
ghost use Rattle.eb_serve.specs.Alone.{IsAlone};

use crate::served::ServedDatagrams;
use eb_base::{NoMemory, Width};
use eb_net::Post;
use eb_ports::{Ends, serve_post};
use eb_session::Slave;
use eb_shared::{SharedBus, SharedMaster, gather, new_pass};
use soc_bus::Bus;
use soc_desc::Description;
use soc_journal::Journal;
use soc_turn::{Pass, Root, Turn};
use std::alloc::Global;
use std::sync::Wait;

/// All that takes memory before a datagram is received: the turn of a bus that one master has for itself, room for its
/// pass, and for the endings.
#[derive(Drop)]
struct Alone {
    slave: Slave,
    turn: Turn<SharedBus>,
    root: Root<SharedBus>,
    passes: Vec<Pass<SharedBus>>,
    ends: Ends,
}

// Takes all memory that serving so many datagrams takes before one is received.
fn ready(alloc: Global, description: &Description, datagrams: u32) -> Result<Alone, NoMemory>
    requires accepted { IsAccepted description.now }
    ensures readied { IfOk result (IsAlone description.now datagrams) }
{
    let slave = Slave {
        bus: Width::W32,
        root: description.bus.sdb,
    };
    let ends = Ends::new(alloc, datagrams)?;
    let passes = Vec::with_capacity(alloc, 1)?;
    let bus = Bus::build(alloc, Journal::new(alloc), description)?;
    match Turn::new(alloc, bus, 1) {
        Ok((turn, root)) => Ok(Alone {
            slave,
            turn,
            root,
            passes,
            ends,
        }),
        Err(_) => Err(NoMemory),
    }
}

// Serves the datagrams of a post, and keeps how they ended and the bus.
fn run<R: Wait, P: Post>(
    rt: &R,
    alloc: Global,
    alone: Alone,
    post: &mut P,
    datagrams: u32,
) -> ServedDatagrams
    requires alone { IsAlone alone.root.origin.description datagrams alone }
    requires some { 0 < datagrams }
    ensures served { ServesDatagrams alone.root.origin.description datagrams
        (P.posting post.old) (P.posting post.new) result }
{
    let Alone {
        slave,
        turn,
        mut root,
        mut passes,
        mut ends,
    } = alone;
    let pass = new_pass(&turn, &mut root);
    let mut master = SharedMaster::new(rt, alloc, &turn, pass);
    serve_post(alloc, post, slave, &mut master, datagrams, &mut ends);
    passes.push_reserved(master.into_pass());
    let bus = gather(turn, root, passes);
    ServedDatagrams { ends, bus }
}

/// Serves so many datagrams of a post, one after another, as the master 0 of the bus of a description, each by a
/// session of its own. It starts no thread, and the bus has no other master that runs.
///
/// What came of it is one record (`served`): the journal is a legal history, and the post was served as one alone is,
/// with the journal's entries as those that its master made. There is an ending for each receive, as many as asked
/// for, or fewer exactly where none was left; or the one ending `NoMemory`, where there was no memory for a datagram
/// and its replies. Where memory was refused before that, the post is as it was (`refused`).
pub fn serve_datagrams<R: Wait, P: Post>(
    rt: &R,
    alloc: Global,
    description: &Description,
    post: &mut P,
    datagrams: u32,
) -> Result<ServedDatagrams, NoMemory>
    requires accepted { IsAccepted description.now }
    requires some { 0 < datagrams }
    ensures served { IfOk result (ServesDatagrams description.now datagrams (P.posting post.old) (P.posting post.new)) }
    ensures refused { OnErr result (post.new ≡ post.old) }
{
    let alone = ready(alloc, description, datagrams)?;
    Ok(run(rt, alloc, alone, post, datagrams))
}
