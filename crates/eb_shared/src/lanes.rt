//! Streams that are served beside each other, one thread each, on one bus.
ghost use Rattle.std.specs.Prelude.{◌≡◌, ◌<◌, ℕ, All, length, slice_index_or};
ghost use Rattle.eb_server.specs.Rooms.{HasRoom};
ghost use Rattle.eb_server.specs.Serving.{Served};
ghost use Rattle.eb_shared.specs.Shared.{number_told, cycles_told};
ghost use Rattle.eb_shared.specs.Lanes.{IsThere, IsFreshSession};

use crate::shared::SharedMaster;
use crate::steps::SharedBus;
use eb_io::Link;
use eb_server::{Ending, Rooms, serve_stream};
use eb_session::Session;
use soc_turn::{Pass, Turn};
use std::alloc::Global;
use std::sync::Wait;
use std::thread::{Threads, for_each_mut};

/// A lane: the link whose stream is served, its session, its master's pass, the rooms of its pieces, and how it ended.
#[derive(Drop)]
pub struct Lane<L> {
    pub link: L,
    pub session: Session,
    pub pass: Option<Pass<SharedBus>>,
    pub rooms: Rooms,
    pub ending: Ending,
}

/// Serves a lane's stream.
fn serve_lane<R: Wait, L: Link>(rt: &R, alloc: Global, turn: &Turn<SharedBus>, lane: &mut Lane<L>)
    requires pass { IsThere turn.now lane.old.pass }
    requires session { IsFreshSession lane.old.session }
    requires rooms { HasRoom lane.old.rooms }
    ensures pass { IsThere turn.now lane.new.pass }
    ensures number { number_told lane.new.pass ≡ number_told lane.old.pass }
    ensures served { Served (number_told lane.old.pass) lane.old.session.slave
        (cycles_told lane.old.pass) (cycles_told lane.new.pass)
        (L.reading lane.old.link) (L.reading lane.new.link)
        (L.writing lane.old.link) (L.writing lane.new.link) lane.new.ending }
{
    let pass = lane.pass.take().unwrap();
    let mut master = SharedMaster::new(rt, alloc, turn, pass);
    let ending = serve_stream(
        &mut lane.link,
        &mut lane.session,
        &mut master,
        &mut lane.rooms,
    );
    lane.ending = ending;
    lane.pass = Some(master.into_pass());
}

/// Serves the streams of lanes beside each other, one thread a lane, each as a master of one bus. It waits until all of
/// them have ended, and takes no memory but in the master's `record`.
///
/// Each lane has its pass of this turn before and after, of the same number and without a cycle (`passes`, `numbers`).
/// Each stream is served as one alone is (`served`): what the lane's master has made grows by the entries of its
/// cycles, in order, and the lane's ending says how the stream ended.
pub fn serve_links<R: Threads + Wait + Sync, L: Link + Send>(
    rt: &R,
    alloc: Global,
    turn: &Turn<SharedBus>,
    lanes: &mut [Lane<L>],
)
    requires some { 0 < length lanes.old }
    requires passes { All (λ l. IsThere turn.now l.pass) lanes.old }
    requires sessions { All (λ l. IsFreshSession l.session) lanes.old }
    requires rooms { All (λ l. HasRoom l.rooms) lanes.old }
    ensures passes { All (λ l. IsThere turn.now l.pass) lanes.new }
    ensures numbers { (i : ℕ) (d : Lane L) → i < length lanes.old
        → number_told (slice_index_or lanes.new i d).pass ≡ number_told (slice_index_or lanes.old i d).pass }
    ensures served { (i : ℕ) (d : Lane L) → i < length lanes.old
        → Served (number_told (slice_index_or lanes.old i d).pass) (slice_index_or lanes.old i d).session.slave
        (cycles_told (slice_index_or lanes.old i d).pass) (cycles_told (slice_index_or lanes.new i d).pass)
        (L.reading (slice_index_or lanes.old i d).link) (L.reading (slice_index_or lanes.new i d).link)
        (L.writing (slice_index_or lanes.old i d).link) (L.writing (slice_index_or lanes.new i d).link)
        (slice_index_or lanes.new i d).ending }
{
    let threads = lanes.len();
    for_each_mut(
        rt,
        lanes,
        threads,
        &|_, lane: &mut Lane<L>|
            requires { IsThere turn.now lane.now.pass × IsFreshSession lane.now.session × HasRoom lane.now.rooms }
            ensures pass { IsThere turn.entry.now lane.exit.now.pass }
            ensures number { number_told lane.exit.now.pass ≡ number_told lane.entry.now.pass }
            ensures served { Served (number_told lane.entry.now.pass) lane.entry.now.session.slave
                (cycles_told lane.entry.now.pass) (cycles_told lane.exit.now.pass)
                (L.reading lane.entry.now.link) (L.reading lane.exit.now.link)
                (L.writing lane.entry.now.link) (L.writing lane.exit.now.link) lane.exit.now.ending }
        { serve_lane(rt, alloc, turn, lane) },
    );
}
