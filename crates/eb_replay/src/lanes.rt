//! The lanes of files: one for each, as a master of its own, and what is kept of them.
ghost use Rattle.std.specs.Prelude.{◌≡◌, ◌<◌, ◌≤◌, ◌+◌, ◌++◌, ◌∷◌, ℕ, suc, [], length, map, vec_capacity, All, IfOk, IsSome, Some};
ghost use Rattle.eb_io.specs.Outside.{IsFresh};
ghost use Rattle.soc_core.specs.Built.{fabric_of};
ghost use Rattle.soc_core.specs.Core.{built_core};
ghost use Rattle.eb_server.specs.Rooms.{HasRoom};
ghost use Rattle.eb_shared.specs.Lanes.{IsThere, IsFreshSession};
ghost use Rattle.eb_shared.specs.Shared.{number_told, cycles_told};
ghost use Rattle.eb_replay.specs.Capture.{IsCapture, new_capture};
ghost use Rattle.eb_replay.specs.Replay.{replay_slave};
ghost use Rattle.eb_replay.specs.Lanes.{LanesServed, EachAt, HasNone, HasSpace, HaveEnded, IsUnused, IsSeated, port_of};

use crate::capture::CaptureLink;
use crate::replayed::ReplayedPort;
use eb_base::NoMemory;
use eb_io::Source;
use eb_server::{Ending, Rooms};
use eb_session::{Session, Slave};
use eb_shared::{Lane, SharedBus, new_pass, serve_links};
use soc_turn::{Pass, Root, Turn};
use std::alloc::Global;
use std::sync::Wait;
use std::thread::Threads;

// How many octets of a stream are read at once.
const PIECE: usize = 65_536;

/// What a lane takes of memory before its stream is served.
#[derive(Drop)]
pub(crate) struct LaneRoom {
    session: Session,
    rooms: Rooms,
}

impl LaneRoom {
    fn new(alloc: Global, slave: Slave) -> Result<LaneRoom, NoMemory>
        ensures ready { IfOk result (IsUnused slave) }
    {
        Ok(LaneRoom {
            session: Session::new(alloc, slave)?,
            rooms: Rooms::new(alloc, PIECE)?,
        })
    }
}

/// Takes the memory of so many lanes.
pub(crate) fn take_rooms(
    alloc: Global,
    slave: Slave,
    count: usize,
) -> Result<Vec<LaneRoom>, NoMemory>
    ensures count { IfOk result (λ rooms. length rooms.items ≡ count) }
    ensures ready { IfOk result (λ rooms. All (IsUnused slave) rooms.items) }
{
    let mut rooms = Vec::with_capacity(alloc, count)?;
    for _ in 0..count {
        rooms.push_reserved(LaneRoom::new(alloc, slave)?);
    }
    Ok(rooms)
}

/// The lane of a file, whose master's pass is the next.
fn new_lane<F: Source + Drop>(
    alloc: Global,
    turn: &Turn<SharedBus>,
    root: &mut Root<SharedBus>,
    room: LaneRoom,
    file: F,
) -> Lane<CaptureLink<F>>
    requires fresh { IsFresh (F.reading file) }
    requires of { root.old.turn ≡ turn.now }
    requires few { root.old.made < root.old.masters }
    requires masters { root.old.masters ≤ root.old.origin.description.masters }
    requires built { root.old.origin.core ≡ built_core (fabric_of root.old.origin.description) }
    ensures root { root.new ≡ record root.old { made = root.old.made + 1 } }
    ensures link { result.link ≡ new_capture file }
    ensures session { result.session ≡ room.session }
    ensures rooms { result.rooms ≡ room.rooms }
    ensures there { IsThere turn.now result.pass }
    ensures number { number_told result.pass ≡ root.old.made }
    ensures none { cycles_told result.pass ≡ record { made = []; opened = [] } }
{
    let LaneRoom { session, rooms } = room;
    Lane {
        link: CaptureLink::new(alloc, file),
        session,
        pass: Some(new_pass(turn, root)),
        rooms,
        ending: Ending::Clean,
    }
}

/// Makes the lanes of files, file i as the master i, where there is room for them.
pub(crate) fn seat<F: Source + Drop>(
    alloc: Global,
    turn: &Turn<SharedBus>,
    root: &mut Root<SharedBus>,
    mut rooms: Vec<LaneRoom>,
    files: Vec<F>,
    lanes: &mut Vec<Lane<CaptureLink<F>>>,
)
    requires fresh { All (λ f. IsFresh (F.reading f)) files.items }
    requires ready { All (IsUnused (replay_slave root.old.origin.description)) rooms.items }
    requires rooms { length rooms.items ≡ length files.items }
    requires of { root.old.turn ≡ turn.now }
    requires first { root.old.made ≡ 0 }
    requires all { root.old.masters ≡ length files.items }
    requires masters { root.old.masters ≤ root.old.origin.description.masters }
    requires built { root.old.origin.core ≡ built_core (fabric_of root.old.origin.description) }
    requires empty { lanes.old.items ≡ [] }
    requires space { length files.items ≤ vec_capacity lanes.old }
    ensures root { root.new ≡ record root.old { made = length files.items } }
    ensures count { length lanes.new.items ≡ length files.items }
    ensures seated { EachAt (IsSeated turn.now (replay_slave root.old.origin.description) files.items)
        lanes.new.items }
{
    for file in files {
        let room = rooms.pop().unwrap();
        lanes.push_reserved(new_lane(alloc, turn, root, room, file));
    }
}

/// Serves the streams of lanes beside each other.
pub(crate) fn serve<R: Threads + Wait + Sync, F: Source + Send + Drop>(
    rt: &R,
    alloc: Global,
    turn: &Turn<SharedBus>,
    lanes: &mut Vec<Lane<CaptureLink<F>>>,
)
    requires some { 0 < length lanes.old.items }
    requires passes { All (λ l. IsThere turn.now l.pass) lanes.old.items }
    requires sessions { All (λ l. IsFreshSession l.session) lanes.old.items }
    requires rooms { All (λ l. HasRoom l.rooms) lanes.old.items }
    ensures count { length lanes.new.items ≡ length lanes.old.items }
    ensures passes { All (λ l. IsThere turn.now l.pass) lanes.new.items }
    ensures served { LanesServed F.reading lanes.old.items lanes.new.items }
{
    serve_links(rt, alloc, turn, lanes);
}

/// What is kept of lanes whose streams have ended: their files, passes, replies and endings, in their order.
#[derive(Drop)]
pub(crate) struct Ended<F> {
    pub(crate) files: Vec<F>,
    pub(crate) passes: Vec<Pass<SharedBus>>,
    pub(crate) ports: Vec<ReplayedPort>,
}

impl<F: Source + Drop> Ended<F> {
    /// Takes the memory for so many lanes.
    pub(crate) fn new(alloc: Global, count: usize) -> Result<Ended<F>, NoMemory>
        ensures none { IfOk result HasNone }
        ensures space { IfOk result (HasSpace count) }
    {
        Ok(Ended {
            files: Vec::with_capacity(alloc, count)?,
            passes: Vec::with_capacity(alloc, count)?,
            ports: Vec::with_capacity(alloc, count)?,
        })
    }

    // Keeps what is to be kept of a lane.
    fn add(&mut self, lane: Lane<CaptureLink<F>>)
        requires space { HasSpace 1 self.old }
        requires there { IsSome lane.pass }
        ensures file { self.new.files.items ≡ self.old.files.items ++ lane.link.file ∷ [] }
        ensures pass { map (λ p. Some p) self.new.passes.items
            ≡ map (λ p. Some p) self.old.passes.items ++ lane.pass ∷ [] }
        ensures port { self.new.ports.items ≡ self.old.ports.items ++ port_of lane ∷ [] }
        ensures kept { IsCapture F.reading lane.link }
        ensures space { (n : ℕ) → HasSpace (suc n) self.old → HasSpace n self.new }
    {
        let Lane {
            link,
            session: _,
            pass,
            rooms: _,
            ending,
        } = lane;
        let (file, reply, refused) = link.into_parts();
        let ending = if refused { Ending::NoMemory } else { ending };
        self.files.push_reserved(file);
        self.passes.push_reserved(pass.unwrap());
        self.ports.push_reserved(ReplayedPort { ending, reply });
    }

    /// Keeps what is to be kept of lanes.
    pub(crate) fn add_all(&mut self, lanes: Vec<Lane<CaptureLink<F>>>)
        requires none { HasNone self.old }
        requires space { HasSpace (length lanes.items) self.old }
        requires there { All (λ lane. IsSome lane.pass) lanes.items }
        ensures ended { HaveEnded F.reading lanes.items self.new.files.items self.new.passes.items
            self.new.ports.items }
    {
        for lane in lanes {
            self.add(lane);
        }
    }
}
