//! How the connections of a port are served, one after another.
ghost use Rattle.std.specs.Prelude.{◌≡◌, []};
ghost use Rattle.eb_ports.specs.Connections.{door_told, WasServed, AwaitsEndings, ServedPort};

use crate::ends::Ends;
use eb_net::{Accepted, Door};
use eb_server::{Ending, Rooms, serve_stream};
use eb_session::{Session, Slave};
use std::alloc::Global;
use wb_signals::Master;

// How many octets are read at once.
const PIECE: usize = 65_536;

/// Serves the connection that stands at a door, by a session of its own.
fn serve_connection<D: Door, M: Master>(
    alloc: Global,
    door: &mut D,
    slave: Slave,
    master: &mut M,
) -> Ending
    requires width { (M.identity master.old).bus ≡ slave.bus }
    requires none_open { (M.cycles master.old).opened ≡ [] }
    ensures served { WasServed (M.identity master.old).number slave
        (door_told D.Link.reading D.Link.writing D.standing D.accepting door.old)
        (door_told D.Link.reading D.Link.writing D.standing D.accepting door.new)
        (M.cycles master.old) (M.cycles master.new) result }
    ensures none_open { (M.cycles master.new).opened ≡ [] }
    ensures identity { M.identity master.new ≡ M.identity master.old }
{
    let Ok(mut session) = Session::new(alloc, slave) else {
        return Ending::NoMemory;
    };
    let Ok(mut rooms) = Rooms::new(alloc, PIECE) else {
        return Ending::NoMemory;
    };
    serve_stream(door.link(), &mut session, master, &mut rooms)
}

/// Serves so many connections of a door, one after another, each by a session of its own as this slave.
///
/// There is an ending for each connection that the door opened, and fewer than asked for exactly where an accept
/// failed or no link was left; the door is said to have failed exactly where an accept failed. A connection's fault
/// doesn't end the port. `NoMemory` also comes where there was no memory for a connection's session, of which nothing
/// was read then. No cycle is open afterwards.
pub fn serve_port<D: Door, M: Master>(
    alloc: Global,
    door: &mut D,
    slave: Slave,
    master: &mut M,
    connections: u32,
    ends: &mut Ends,
)
    requires width { (M.identity master.old).bus ≡ slave.bus }
    requires none_open { (M.cycles master.old).opened ≡ [] }
    requires ends { AwaitsEndings connections ends.old }
    ensures served { ServedPort (M.identity master.old).number slave connections
        (door_told D.Link.reading D.Link.writing D.standing D.accepting door.old)
        (door_told D.Link.reading D.Link.writing D.standing D.accepting door.new)
        (M.cycles master.old) (M.cycles master.new) ends.new }
    ensures room { ends.new.most ≡ ends.old.most }
    ensures none_open { (M.cycles master.new).opened ≡ [] }
    ensures identity { M.identity master.new ≡ M.identity master.old }
{
    'serving: for _ in 0..connections {
        match door.accept() {
            Accepted::Open => {
                let ending = serve_connection(alloc, door, slave, master);
                ends.add(ending);
            }
            Accepted::Closed => return,
            Accepted::Failed => return ends.fail(),
        }
    }
}
