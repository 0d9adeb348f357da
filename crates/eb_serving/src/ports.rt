// The command `serve`.
ghost use Rattle.std.specs.Prelude.{◌≡◌};
ghost use Rattle.soc_desc.specs.Accepted.{IsAccepted};
ghost use Rattle.eb_ports.specs.Connections.{door_told};
ghost use Rattle.eb_serve.specs.Text.{serve_text};
ghost use Rattle.eb_serve.specs.Unclean.{first_unclean_port};
ghost use Rattle.eb_serving.specs.ServingWords.{ServingTask, PortsTask, ask_seen};
ghost use Rattle.eb_serving.specs.ServingRuns.{port_run, serving_run, served_answer, ServesPorts, ServingComesTo, TellsServed};

use crate::around::Around;
use crate::command::Asked;
use crate::doors::{make_doors, serve_last};
use crate::fault::ServingFault;
use eb_base::NoMemory;
use eb_io::{Sink, World, WriteFault};
use eb_net::{Door, Net};
use eb_run::read_description;
use eb_serve::{ServedPorts, Unclean};
use eb_text::Fault;
use soc_desc::Description;
use std::alloc::Global;
use std::sync::Wait;
use std::thread::Threads;

// How many ports there are, with the port 0.
const PORTS: u32 = 65_536;

// What a command answers that tells what first didn't end clean. A failed write is the answer only where all ended
// clean.
pub fn answer_of(
    first: Option<Unclean>,
    wrote: Result<(), WriteFault>,
) -> Result<Option<Unclean>, ServingFault>
    ensures answer { result ≡ served_answer first wrote }
{
    match first {
        Some(unclean) => Ok(Some(unclean)),
        None => match wrote {
            Ok(()) => Ok(None),
            Err(_) => Err(ServingFault::Common(Fault::WriteFault)),
        },
    }
}

// Writes the text of served ports.
fn tell_served<O: Sink>(served: &ServedPorts, out: &mut O) -> Result<Option<Unclean>, ServingFault>
    ensures tells { TellsServed (O.writing out.old) (O.writing out.new) (serve_text served.now)
        (first_unclean_port served.now.ports) result }
{
    let wrote = served.write(out);
    answer_of(served.first_unclean(), wrote)
}

// Serves the ports of a described bus.
fn serve_described<R: Threads + Wait + Sync, N: Net, O: Sink>(
    rt: &R,
    alloc: Global,
    description: &Description,
    asked: Asked<'_>,
    net: &mut N,
    out: &mut O,
) -> Result<Option<Unclean>, ServingFault>
where
    <N::Door as Door>::Link: Send,
    requires accepted { IsAccepted description.now }
    ensures serves { ServesPorts
        (port_run (door_told N.Door.Link.reading N.Door.Link.writing N.Door.standing N.Door.accepting)
        N.Post.posting (N.network net.old) (N.network net.new) (O.writing out.old) (O.writing out.new))
        description.now (ask_seen asked.entry) result }
{
    if u32::from(asked.port) + u32::from(description.masters) > PORTS {
        return Err(ServingFault::Common(Fault::Usage));
    }
    make_doors(asked.port, u16::from(description.masters), net)?;
    match serve_last(rt, alloc, description, asked.count, net) {
        Ok(served) => tell_served(&served, out),
        Err(NoMemory) => Err(ServingFault::Common(Fault::NoMemory)),
    }
}

/// `serve DESC PORT CONNECTIONS`
pub fn serve_ports<R: Threads + Wait + Sync, W: World, N: Net, O: Sink>(
    rt: &R,
    alloc: Global,
    asked: Asked<'_>,
    around: &mut Around<W, N>,
    out: &mut O,
) -> Result<Option<Unclean>, ServingFault>
where
    <N::Door as Door>::Link: Send,
    ensures comes_to { ServingComesTo
        (serving_run W.File.reading (W.outside around.old.world) (W.outside around.new.world)
        (port_run (door_told N.Door.Link.reading N.Door.Link.writing N.Door.standing N.Door.accepting)
        N.Post.posting (N.network around.old.net) (N.network around.new.net) (O.writing out.old) (O.writing out.new)))
        (PortsTask (ask_seen asked.entry)) result }
{
    let description = read_description(alloc, asked.description, &mut around.world)?;
    serve_described(rt, alloc, &description, asked, &mut around.net, out)
}
