//! Ports that are served beside each other, one thread each, on one bus.
ghost use Rattle.std.specs.Prelude.{◌≡◌, ◌<◌, ℕ, All, length, slice_index_or};
ghost use Rattle.eb_base.specs.declared.width.Width.TheVariants.{W32};
ghost use Rattle.eb_shared.specs.Shared.{number_told, cycles_told};
ghost use Rattle.eb_shared.specs.Lanes.{IsThere};
ghost use Rattle.eb_ports.specs.Connections.{door_told, AwaitsEndings, ServedPort};

use crate::ends::Ends;
use crate::port::serve_port;
use eb_net::Door;
use eb_session::Slave;
use eb_shared::{SharedBus, SharedMaster};
use soc_turn::{Pass, Turn};
use std::alloc::Global;
use std::sync::Wait;
use std::thread::{Threads, for_each_mut};

/// A port: the door whose connections are served, its master's pass, and how the connections ended.
#[derive(Drop)]
pub struct PortLane<D> {
    pub door: D,
    pub pass: Option<Pass<SharedBus>>,
    pub ends: Ends,
}

/// Serves a lane's connections.
fn serve_lane<R: Wait, D: Door>(
    rt: &R,
    alloc: Global,
    turn: &Turn<SharedBus>,
    lane: &mut PortLane<D>,
    slave: Slave,
    connections: u32,
)
    requires bus { slave.bus ≡ W32 }
    requires pass { IsThere turn.now lane.old.pass }
    requires ends { AwaitsEndings connections lane.old.ends }
    ensures pass { IsThere turn.now lane.new.pass }
    ensures number { number_told lane.new.pass ≡ number_told lane.old.pass }
    ensures served { ServedPort (number_told lane.old.pass) slave connections
        (door_told D.Link.reading D.Link.writing D.standing D.accepting lane.old.door)
        (door_told D.Link.reading D.Link.writing D.standing D.accepting lane.new.door)
        (cycles_told lane.old.pass) (cycles_told lane.new.pass) lane.new.ends }
{
    let pass = lane.pass.take().unwrap();
    let mut master = SharedMaster::new(rt, alloc, turn, pass);
    serve_port(
        alloc,
        &mut lane.door,
        slave,
        &mut master,
        connections,
        &mut lane.ends,
    );
    lane.pass = Some(master.into_pass());
}

/// Serves the connections of ports beside each other, one thread a port, each as this slave and as a master of one bus.
/// It waits until all of them are done, and takes memory only for sessions and in the master's `record`.
///
/// Each port has its pass of this turn before and after, of the same number and without a cycle (`passes`, `numbers`).
/// Each is served as one alone is (`served`): there is an ending for each connection that its door opened, as many as
/// asked for, or fewer exactly where an accept failed or no link was left; and what the port's master has made grows by
/// the entries of its connections' cycles, in order.
pub fn serve_ports<R: Threads + Wait + Sync, D: Door + Send>(
    rt: &R,
    alloc: Global,
    turn: &Turn<SharedBus>,
    lanes: &mut [PortLane<D>],
    slave: Slave,
    connections: u32,
)
where
    D::Link: Send,
    requires some { 0 < length lanes.old }
    requires bus { slave.bus ≡ W32 }
    requires passes { All (λ l. IsThere turn.now l.pass) lanes.old }
    requires ends { All (λ l. AwaitsEndings connections l.ends) lanes.old }
    ensures passes { All (λ l. IsThere turn.now l.pass) lanes.new }
    ensures numbers { (i : ℕ) (d : PortLane D) → i < length lanes.old
        → number_told (slice_index_or lanes.new i d).pass ≡ number_told (slice_index_or lanes.old i d).pass }
    ensures served { (i : ℕ) (d : PortLane D) → i < length lanes.old
        → ServedPort (number_told (slice_index_or lanes.old i d).pass) slave connections
        (door_told D.Link.reading D.Link.writing D.standing D.accepting (slice_index_or lanes.old i d).door)
        (door_told D.Link.reading D.Link.writing D.standing D.accepting (slice_index_or lanes.new i d).door)
        (cycles_told (slice_index_or lanes.old i d).pass) (cycles_told (slice_index_or lanes.new i d).pass)
        (slice_index_or lanes.new i d).ends }
{
    let threads = lanes.len();
    for_each_mut(
        rt,
        lanes,
        threads,
        &|_, lane: &mut PortLane<D>|
            requires { IsThere turn.now lane.now.pass × AwaitsEndings connections lane.now.ends × (slave.bus ≡ W32) }
            ensures pass { IsThere turn.entry.now lane.exit.now.pass }
            ensures number { number_told lane.exit.now.pass ≡ number_told lane.entry.now.pass }
            ensures served { ServedPort (number_told lane.entry.now.pass) slave connections
                (door_told D.Link.reading D.Link.writing D.standing D.accepting lane.entry.now.door)
                (door_told D.Link.reading D.Link.writing D.standing D.accepting lane.exit.now.door)
                (cycles_told lane.entry.now.pass) (cycles_told lane.exit.now.pass) lane.exit.now.ends }
        { serve_lane(rt, alloc, turn, lane, slave, connections) },
    );
}
