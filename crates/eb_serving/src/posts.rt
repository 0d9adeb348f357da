// The command `serve-udp`.
ghost use Rattle.std.specs.Prelude.{◌≡◌, ◌<◌, IsSome};
ghost use Rattle.soc_desc.specs.Accepted.{IsAccepted};
ghost use Rattle.eb_ports.specs.Connections.{door_told};
ghost use Rattle.eb_serve.specs.DatagramText.{datagrams_text};
ghost use Rattle.eb_serve.specs.Unclean.{first_unclean_of};
ghost use Rattle.eb_serving.specs.ServingWords.{PostTask, ask_seen};
ghost use Rattle.eb_serving.specs.Posts.{MakesPost, ServesNetPost};
ghost use Rattle.eb_serving.specs.ServingRuns.{port_run, serving_run, unclean_datagram, ServesPost, ServingComesTo, TellsServed};

use crate::around::Around;
use crate::command::Asked;
use crate::fault::ServingFault;
use crate::ports::answer_of;
use eb_base::NoMemory;
use eb_io::{Opened, Sink, World};
use eb_net::Net;
use eb_run::read_description;
use eb_serve::{ServedDatagrams, Unclean, serve_datagrams};
use eb_server::Ending;
use eb_text::Fault;
use soc_desc::Description;
use std::alloc::Global;
use std::sync::Wait;

// Makes a post at this port.
fn make_post<N: Net>(port: u16, net: &mut N) -> Result<(), ServingFault>
    ensures makes { MakesPost N.Post.posting (N.network net.old) (N.network net.new) port result }
{
    match net.bind(port) {
        Opened::Done => Ok(()),
        Opened::Failed => Err(ServingFault::Door),
        Opened::NoMemory => Err(ServingFault::Common(Fault::NoMemory)),
    }
}

// Serves so many datagrams of the net's post, and leaves it in the net.
fn serve_post<R: Wait, N: Net>(
    rt: &R,
    alloc: Global,
    description: &Description,
    datagrams: u32,
    net: &mut N,
) -> Result<ServedDatagrams, NoMemory>
    requires accepted { IsAccepted description.now }
    requires some { 0 < datagrams }
    requires there { IsSome (N.network net.old).post }
    ensures serves { ServesNetPost N.Post.posting description.now datagrams
        (N.network net.old) (N.network net.new) result }
{
    let Some(post) = net.post() else {
        unreachable!();
    };
    let mut post = post;
    let served = serve_datagrams(rt, alloc, description, &mut post, datagrams);
    net.put_post(post);
    served
}

// The first datagram that didn't end clean.
fn unclean_of(first: Option<Ending>) -> Option<Unclean>
    ensures unclean { result ≡ unclean_datagram first }
{
    match first {
        None => None,
        Some(ending) => Some(Unclean::Connection(ending)),
    }
}

// Writes the text of served datagrams.
fn tell_datagrams<O: Sink>(
    served: &ServedDatagrams,
    out: &mut O,
) -> Result<Option<Unclean>, ServingFault>
    ensures tells { TellsServed (O.writing out.old) (O.writing out.new) (datagrams_text served.now)
        (unclean_datagram (first_unclean_of served.now.ends.endings)) result }
{
    let wrote = served.write(out);
    answer_of(unclean_of(served.first_unclean()), wrote)
}

// Serves the post of a described bus.
fn post_described<R: Wait, N: Net, O: Sink>(
    rt: &R,
    alloc: Global,
    description: &Description,
    asked: Asked<'_>,
    net: &mut N,
    out: &mut O,
) -> Result<Option<Unclean>, ServingFault>
    requires accepted { IsAccepted description.now }
    requires some { 0 < asked.count }
    ensures serves { ServesPost
        (port_run (door_told N.Door.Link.reading N.Door.Link.writing N.Door.standing N.Door.accepting)
        N.Post.posting (N.network net.old) (N.network net.new) (O.writing out.old) (O.writing out.new))
        description.now (ask_seen asked.entry) result }
{
    make_post(asked.port, net)?;
    match serve_post(rt, alloc, description, asked.count, net) {
        Ok(served) => tell_datagrams(&served, out),
        Err(NoMemory) => Err(ServingFault::Common(Fault::NoMemory)),
    }
}

/// `serve-udp DESC PORT DATAGRAMS`
pub fn answer_datagrams<R: Wait, W: World, N: Net, O: Sink>(
    rt: &R,
    alloc: Global,
    asked: Asked<'_>,
    around: &mut Around<W, N>,
    out: &mut O,
) -> Result<Option<Unclean>, ServingFault>
    requires some { 0 < asked.count }
    ensures comes_to { ServingComesTo
        (serving_run W.File.reading (W.outside around.old.world) (W.outside around.new.world)
        (port_run (door_told N.Door.Link.reading N.Door.Link.writing N.Door.standing N.Door.accepting)
        N.Post.posting (N.network around.old.net) (N.network around.new.net) (O.writing out.old) (O.writing out.new)))
        (PostTask (ask_seen asked.entry)) result }
{
    let description = read_description(alloc, asked.description, &mut around.world)?;
    post_described(rt, alloc, &description, asked, &mut around.net, out)
}
