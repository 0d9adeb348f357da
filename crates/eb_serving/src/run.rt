//! The top call of the commands of a server.
ghost use Rattle.std.specs.Prelude.{◌≡◌, map, string_bytes};
ghost use Rattle.eb_ports.specs.Connections.{door_told};
ghost use Rattle.eb_serving.specs.ServingRuns.{port_run, serving_run, serving_status_for, unclean_status, ServingWordsComeTo, TellsServing};
ghost use Rattle.eb_serving.specs.RanServing.{RanServing};

use crate::around::Around;
use crate::command::{Serving, serving_of};
use crate::fault::ServingFault;
use crate::lines::write_serving_line;
use crate::ports::serve_ports;
use crate::posts::answer_datagrams;
use eb_io::{Sink, World};
use eb_net::{Door, Net};
use eb_run::ending_status;
use eb_serve::Unclean;
use eb_text::{Fault, Status};
use std::alloc::Global;
use std::sync::Wait;
use std::thread::Threads;

// Runs the command that the words are.
fn run_words<R: Threads + Wait + Sync, W: World, N: Net, O: Sink>(
    rt: &R,
    alloc: Global,
    words: &[String],
    around: &mut Around<W, N>,
    out: &mut O,
) -> Result<Option<Unclean>, ServingFault>
where
    <N::Door as Door>::Link: Send,
    ensures comes_to { ServingWordsComeTo
        (serving_run W.File.reading (W.outside around.old.world) (W.outside around.new.world)
        (port_run (door_told N.Door.Link.reading N.Door.Link.writing N.Door.standing N.Door.accepting)
        N.Post.posting (N.network around.old.net) (N.network around.new.net) (O.writing out.old) (O.writing out.new)))
        (map string_bytes words.now) result }
{
    match serving_of(words) {
        None => Err(ServingFault::Common(Fault::Usage)),
        Some(Serving::Ports(asked)) => serve_ports(rt, alloc, asked, around, out),
        Some(Serving::Post(asked)) => answer_datagrams(rt, alloc, asked, around, out),
    }
}

// The status of what the output tells first as not clean.
fn unclean_status(first: Option<Unclean>) -> Status
    ensures status { result ≡ unclean_status first }
{
    match first {
        None => Status::OK,
        Some(Unclean::Connection(ending)) => ending_status(ending),
        Some(Unclean::Door) => Status::DOOR,
    }
}

// The status of a result, whose fault is told on standard error.
fn tell<E: Sink>(ran: &Result<Option<Unclean>, ServingFault>, err: &mut E) -> Status
    ensures status { result ≡ serving_status_for ran.now }
    ensures tells { TellsServing (E.writing err.old) (E.writing err.new) ran.now }
{
    match ran {
        Ok(first) => unclean_status(*first),
        Err(fault) => {
            let _ = write_serving_line(fault, err);
            fault.status()
        }
    }
}

/// Runs the command of a server that the words are, over the files of a world and the ports of a net: what it writes
/// goes to `out`, and the line of its fault to `err`.
///
/// Each port is served in a thread of its own, as one master of the described bus, and it waits until all are done.
/// Datagrams are served by the master 0, and no thread is started.
/// Where it returns, the clause `ran` holds. The doors that were made stand in the net then, behind those that it had,
/// and so does the description's file in the world. How the connections ended stands in the output, and the first that
/// didn't end clean gives the status, without a line. A fault in writing `err` changes no status.
///
/// The clause says of each status what was met and done (`ok`, `usage`, `no_task`, `description`, `read_fault`,
/// `write_fault`, `malformed`, `truncated`, `too_long`, `door`, `no_memory`), that there is no other (`listed`), which
/// ports the net was asked for (`asked`), and what the words came to and standard error gets (`came`): there the text
/// that went out tells one legal history of the described bus, and each port was served as one alone is (`Serves`).
///
/// Where the description's file tells its octets, these decide whether the task is refused or begun (`decided`), unless
/// memory was wanting: octets that refuse it leave no other status, and nothing is served (`refuses`); octets that
/// accept it don't end so (`accepts`), and nothing but memory is wanting where doors, peers and the output don't fail
/// and the streams are whole (`complete`).
pub fn run_serving<R: Threads + Wait + Sync, W: World, N: Net, O: Sink, E: Sink>(
    rt: &R,
    alloc: Global,
    words: &[String],
    around: &mut Around<W, N>,
    out: &mut O,
    err: &mut E,
) -> Status
where
    <N::Door as Door>::Link: Send,
    ensures ran { RanServing
        (serving_run W.File.reading (W.outside around.old.world) (W.outside around.new.world)
        (port_run (door_told N.Door.Link.reading N.Door.Link.writing N.Door.standing N.Door.accepting)
        N.Post.posting (N.network around.old.net) (N.network around.new.net) (O.writing out.old) (O.writing out.new)))
        (E.writing err.old) (E.writing err.new) (map string_bytes words.now) result }
{
    let ran = run_words(rt, alloc, words, around, out);
    tell(&ran, err)
}
