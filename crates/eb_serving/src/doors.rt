// Doors made at ports, and served beside each other.
ghost use Rattle.std.specs.Prelude.{◌≡◌, ◌<◌, ◌≤◌, ◌+◌, ◌++◌, [], length, vec_len, vec_capacity, IfOk, OnOk, OnErr};
ghost use Rattle.soc_desc.specs.Accepted.{IsAccepted};
ghost use Rattle.eb_ports.specs.Connections.{door_told};
ghost use Rattle.eb_serving.specs.Doors.{MakesDoors, ServesLast};

use crate::fault::ServingFault;
use eb_base::NoMemory;
use eb_io::Opened;
use eb_net::{Door, Net};
use eb_serve::{ServedPorts, serve};
use eb_text::Fault;
use soc_desc::Description;
use std::alloc::Global;
use std::sync::Wait;
use std::thread::Threads;

// Makes doors at so many ports, from this one on, in order, up to the first that can't be made.
pub fn make_doors<N: Net>(port: u16, count: u16, net: &mut N) -> Result<(), ServingFault>
    requires fits { port + count ≤ 65536 }
    ensures makes { MakesDoors (door_told N.Door.Link.reading N.Door.Link.writing N.Door.standing N.Door.accepting)
        (N.network net.old) (N.network net.new) port count result }
{
    for m in 0..count {
        match net.listen(port + m) {
            Opened::Done => {}
            Opened::Failed => return Err(ServingFault::Door),
            Opened::NoMemory => return Err(ServingFault::Common(Fault::NoMemory)),
        }
    }
    Ok(())
}

// Takes all doors out of a net: the last ones, so many of them, and the others. Where memory is refused, all is as
// before.
fn take_last_doors<N: Net>(
    alloc: Global,
    count: usize,
    net: &mut N,
) -> Result<(Vec<N::Door>, Vec<N::Door>), NoMemory>
    requires some { count ≤ length (N.network net.old).doors }
    ensures taken { IfOk result (λ x. (N.network net.old).doors ≡ x.0.items ++ x.1.items) }
    ensures count { IfOk result (λ x. length x.1.items ≡ count) }
    ensures room { IfOk result (λ x. vec_len x.0 + count ≤ vec_capacity x.0) }
    ensures left { OnOk result (N.network net.new ≡ record (N.network net.old) { doors = [] }) }
    ensures refused { OnErr result (N.network net.new ≡ N.network net.old) }
{
    let mut others = net.doors(alloc);
    let at = others.len() - count;
    match others.split_off(at) {
        Ok(doors) => Ok((others, doors)),
        Err(_) => {
            net.put_doors(others);
            Err(NoMemory)
        }
    }
}

// Puts them back, where the others have room for the last ones.
fn put_last_doors<N: Net>(net: &mut N, others: Vec<N::Door>, last: Vec<N::Door>)
    requires none_left { (N.network net.old).doors ≡ [] }
    requires room { vec_len others + vec_len last ≤ vec_capacity others }
    ensures put { N.network net.new ≡ record (N.network net.old) { doors = others.items ++ last.items } }
{
    let mut doors = others;
    let mut last = last;
    match doors.append(&mut last) {
        Ok(()) => net.put_doors(doors),
        Err(_) => unreachable!(),
    }
}

// Serves so many connections of each of the doors that were made last, one for each master, and leaves them in the net.
pub fn serve_last<R: Threads + Wait + Sync, N: Net>(
    rt: &R,
    alloc: Global,
    description: &Description,
    connections: u32,
    net: &mut N,
) -> Result<ServedPorts, NoMemory>
where
    <N::Door as Door>::Link: Send,
    requires accepted { IsAccepted description.now }
    requires there { description.now.masters ≤ length (N.network net.old).doors }
    ensures serves { ServesLast (door_told N.Door.Link.reading N.Door.Link.writing N.Door.standing N.Door.accepting)
        description.now connections description.now.masters (N.network net.old) (N.network net.new) result }
{
    let (others, doors) = take_last_doors(alloc, usize::from(description.masters), net)?;
    let (doors, served) = serve(rt, alloc, description, doors, connections);
    put_last_doors(net, others, doors);
    served
}
