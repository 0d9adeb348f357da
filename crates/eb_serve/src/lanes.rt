//! The lanes of doors: one for each, as a master of its own, and what is kept of them.
ghost use Rattle.std.specs.Prelude.{◌≡◌, ◌<◌, ◌≤◌, ◌+◌, ◌++◌, ◌∷◌, ℕ, suc, [], length, map, vec_capacity, All, IfOk, IsSome, Some};
ghost use Rattle.eb_base.specs.declared.width.Width.TheVariants.{W32};
ghost use Rattle.soc_core.specs.Built.{fabric_of};
ghost use Rattle.soc_core.specs.Core.{built_core};
ghost use Rattle.eb_shared.specs.Lanes.{IsThere};
ghost use Rattle.eb_shared.specs.Shared.{number_told, cycles_told};
ghost use Rattle.eb_replay.specs.Lanes.{EachAt};
ghost use Rattle.eb_ports.specs.Ends.{no_ends};
ghost use Rattle.eb_ports.specs.Connections.{door_told, AwaitsEndings};
ghost use Rattle.eb_serve.specs.Seats.{IsAtDoor, PortsServed, KeepsNone, KeepsSpace, WereKept};

use eb_base::NoMemory;
use eb_net::Door;
use eb_ports::{Ends, PortLane, serve_ports};
use eb_session::Slave;
use eb_shared::{SharedBus, new_pass};
use soc_turn::{Pass, Root, Turn};
use std::alloc::Global;
use std::sync::Wait;
use std::thread::Threads;

/// Takes the memory for the endings of so many ports, with so many connections each.
pub(crate) fn take_ends(
    alloc: Global,
    connections: u32,
    count: usize,
) -> Result<Vec<Ends>, NoMemory>
    ensures count { IfOk result (λ ends. length ends.items ≡ count) }
    ensures none { IfOk result (λ ends. All (λ e. e ≡ no_ends connections) ends.items) }
{
    let mut ends = Vec::with_capacity(alloc, count)?;
    for _ in 0..count {
        ends.push_reserved(Ends::new(alloc, connections)?);
    }
    Ok(ends)
}

/// The lane of a door, whose master's pass is the next.
fn new_lane<D: Door + Drop>(
    turn: &Turn<SharedBus>,
    root: &mut Root<SharedBus>,
    ends: Ends,
    door: D,
) -> PortLane<D>
    requires of { root.old.turn ≡ turn.now }
    requires few { root.old.made < root.old.masters }
    requires masters { root.old.masters ≤ root.old.origin.description.masters }
    requires built { root.old.origin.core ≡ built_core (fabric_of root.old.origin.description) }
    ensures root { root.new ≡ record root.old { made = root.old.made + 1 } }
    ensures door { result.door ≡ door }
    ensures ends { result.ends ≡ ends }
    ensures there { IsThere turn.now result.pass }
    ensures number { number_told result.pass ≡ root.old.made }
    ensures none { cycles_told result.pass ≡ record { made = []; opened = [] } }
{
    PortLane {
        door,
        pass: Some(new_pass(turn, root)),
        ends,
    }
}

/// Makes the lanes of doors, door i as the master i, where there is room for their endings.
pub(crate) fn seat<D: Door + Drop>(
    turn: &Turn<SharedBus>,
    root: &mut Root<SharedBus>,
    connections: u32,
    mut ends: Vec<Ends>,
    doors: Vec<D>,
    lanes: &mut Vec<PortLane<D>>,
)
    requires ready { All (λ e. e ≡ no_ends connections) ends.items }
    requires ends { length ends.items ≡ length doors.items }
    requires of { root.old.turn ≡ turn.now }
    requires first { root.old.made ≡ 0 }
    requires all { root.old.masters ≡ length doors.items }
    requires masters { root.old.masters ≤ root.old.origin.description.masters }
    requires built { root.old.origin.core ≡ built_core (fabric_of root.old.origin.description) }
    requires empty { lanes.old.items ≡ [] }
    requires space { length doors.items ≤ vec_capacity lanes.old }
    ensures root { root.new ≡ record root.old { made = length doors.items } }
    ensures count { length lanes.new.items ≡ length doors.items }
    ensures seated { EachAt (IsAtDoor turn.now connections doors.items) lanes.new.items }
{
    let _most = connections;
    for door in doors {
        let room = ends.pop().unwrap();
        lanes.push_reserved(new_lane(turn, root, room, door));
    }
}

/// Serves the connections of lanes beside each other.
pub(crate) fn serve_lanes<R: Threads + Wait + Sync, D: Door + Send + Drop>(
    rt: &R,
    alloc: Global,
    turn: &Turn<SharedBus>,
    lanes: &mut Vec<PortLane<D>>,
    slave: Slave,
    connections: u32,
)
where
    D::Link: Send,
    requires some { 0 < length lanes.old.items }
    requires bus { slave.bus ≡ W32 }
    requires passes { All (λ l. IsThere turn.now l.pass) lanes.old.items }
    requires ends { All (λ l. AwaitsEndings connections l.ends) lanes.old.items }
    ensures count { length lanes.new.items ≡ length lanes.old.items }
    ensures passes { All (λ l. IsThere turn.now l.pass) lanes.new.items }
    ensures served { PortsServed (door_told D.Link.reading D.Link.writing D.standing D.accepting) slave connections
        lanes.old.items lanes.new.items }
{
    serve_ports(rt, alloc, turn, lanes, slave, connections);
}

/// What is kept of lanes that were served: their doors, passes and endings, in their order.
#[derive(Drop)]
pub(crate) struct Kept<D> {
    pub(crate) doors: Vec<D>,
    pub(crate) passes: Vec<Pass<SharedBus>>,
    pub(crate) ports: Vec<Ends>,
}

impl<D: Door + Drop> Kept<D> {
    /// Takes the memory for so many lanes.
    pub(crate) fn new(alloc: Global, count: usize) -> Result<Kept<D>, NoMemory>
        ensures none { IfOk result KeepsNone }
        ensures space { IfOk result (KeepsSpace count) }
    {
        Ok(Kept {
            doors: Vec::with_capacity(alloc, count)?,
            passes: Vec::with_capacity(alloc, count)?,
            ports: Vec::with_capacity(alloc, count)?,
        })
    }

    // Keeps what is to be kept of a lane.
    fn add(&mut self, lane: PortLane<D>)
        requires space { KeepsSpace 1 self.old }
        requires there { IsSome lane.pass }
        ensures door { self.new.doors.items ≡ self.old.doors.items ++ lane.door ∷ [] }
        ensures pass { map (λ p. Some p) self.new.passes.items
            ≡ map (λ p. Some p) self.old.passes.items ++ lane.pass ∷ [] }
        ensures port { self.new.ports.items ≡ self.old.ports.items ++ lane.ends ∷ [] }
        ensures space { (n : ℕ) → KeepsSpace (suc n) self.old → KeepsSpace n self.new }
    {
        let PortLane { door, pass, ends } = lane;
        self.doors.push_reserved(door);
        self.passes.push_reserved(pass.unwrap());
        self.ports.push_reserved(ends);
    }

    /// Keeps what is to be kept of lanes.
    pub(crate) fn add_all(&mut self, lanes: Vec<PortLane<D>>)
        requires none { KeepsNone self.old }
        requires space { KeepsSpace (length lanes.items) self.old }
        requires there { All (λ lane. IsSome lane.pass) lanes.items }
        ensures kept { WereKept lanes.items self.new.doors.items self.new.passes.items self.new.ports.items }
    {
        for lane in lanes {
            self.add(lane);
        }
    }
}
