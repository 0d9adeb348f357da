//! A replay.
ghost use Rattle.std.specs.Prelude.{◌≡◌, ◌<◌, ◌≤◌, length, All, IfOk, OnErr};
ghost use Rattle.eb_io.specs.Outside.{IsFresh};
ghost use Rattle.soc_desc.specs.Accepted.{IsAccepted};
ghost use Rattle.eb_replay.specs.Replay.{Replays};
ghost use Rattle.eb_replay.specs.Prepared.{IsPrepared};

use crate::capture::CaptureLink;
use crate::lanes::{Ended, LaneRoom, seat, serve, take_rooms};
use crate::replayed::Replayed;
use eb_base::{NoMemory, Width};
use eb_io::Source;
use eb_session::Slave;
use eb_shared::{Lane, SharedBus, gather};
use soc_bus::Bus;
use soc_desc::Description;
use soc_journal::Journal;
use soc_turn::{Root, Turn};
use std::alloc::Global;
use std::sync::Wait;
use std::thread::Threads;

/// All that takes memory before a stream begins: the turn of the bus, and what its lanes need.
#[derive(Drop)]
struct Prepared<F: Source> {
    turn: Turn<SharedBus>,
    root: Root<SharedBus>,
    rooms: Vec<LaneRoom>,
    lanes: Vec<Lane<CaptureLink<F>>>,
    ended: Ended<F>,
}

// Takes all memory that replaying so many captures takes before a stream begins.
fn prepare<F: Source + Drop>(
    alloc: Global,
    description: &Description,
    count: usize,
) -> Result<Prepared<F>, NoMemory>
    requires accepted { IsAccepted description.now }
    requires some { 0 < count }
    requires few { count ≤ description.now.masters }
    ensures prepared { IfOk result (IsPrepared description.now count) }
{
    let slave = Slave {
        bus: Width::W32,
        root: description.bus.sdb,
    };
    let rooms = take_rooms(alloc, slave, count)?;
    let lanes = Vec::with_capacity(alloc, count)?;
    let ended = Ended::new(alloc, count)?;
    let bus = Bus::build(alloc, Journal::new(alloc), description)?;
    match Turn::new(alloc, bus, count as u8) {
        Ok((turn, root)) => Ok(Prepared {
            turn,
            root,
            rooms,
            lanes,
            ended,
        }),
        Err(_) => Err(NoMemory),
    }
}

// Serves the streams of files, and gathers what is kept of them.
fn run<R: Threads + Wait + Sync, F: Source + Send + Drop>(
    rt: &R,
    alloc: Global,
    prepared: Prepared<F>,
    files: Vec<F>,
) -> (Vec<F>, Replayed)
    requires prepared { IsPrepared prepared.root.origin.description (length files.items) prepared }
    requires some { 0 < length files.items }
    requires fresh { All (λ f. IsFresh (F.reading f)) files.items }
    ensures replayed { Replays F.reading prepared.root.origin.description files.items result.0.items result.1 }
{
    let Prepared {
        turn,
        mut root,
        rooms,
        mut lanes,
        mut ended,
    } = prepared;
    seat(alloc, &turn, &mut root, rooms, files, &mut lanes);
    serve(rt, alloc, &turn, &mut lanes);
    ended.add_all(lanes);
    let Ended {
        files,
        passes,
        ports,
    } = ended;
    let bus = gather(turn, root, passes);
    (files, Replayed { ports, bus })
}

/// Replays captures beside each other on the bus of a description, one thread each: file i is served as the master i.
/// It waits until all streams have ended, and hands the files back in their order.
///
/// What came of it is one record (`replayed`): the journal is a legal history, and each file's stream was served with
/// its master's own part of it. A stream ends with `NoMemory` at a record for which there was none, or where there was
/// none for the replies to what would have been read next; with `ReadFault` only where the file's count of faults rose;
/// and never with `WriteFault`. Where memory was refused before a stream began, no file was read (`refused`).
pub fn replay<R: Threads + Wait + Sync, F: Source + Send + Drop>(
    rt: &R,
    alloc: Global,
    description: &Description,
    files: Vec<F>,
) -> (Vec<F>, Result<Replayed, NoMemory>)
    requires accepted { IsAccepted description.now }
    requires some { 0 < length files.items }
    requires few { length files.items ≤ description.now.masters }
    requires fresh { All (λ f. IsFresh (F.reading f)) files.items }
    ensures replayed { IfOk result.1 (Replays F.reading description.now files.items result.0.items) }
    ensures refused { OnErr result.1 (result.0.items ≡ files.items) }
{
    match prepare(alloc, description, files.len()) {
        Ok(prepared) => {
            let (files, replayed) = run(rt, alloc, prepared, files);
            (files, Ok(replayed))
        }
        Err(NoMemory) => (files, Err(NoMemory)),
    }
}
