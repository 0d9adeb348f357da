//! How a post is served, datagram after datagram.
ghost use Rattle.std.specs.Prelude.{◌≡◌, ◌<◌, ◌≤◌, ◌+◌, [], length};
ghost use Rattle.eb_ports.specs.Datagrams.{ServedAll, ServedPost};
ghost use Rattle.eb_ports.specs.DatagramRooms.{HasDatagramRoom};

use crate::datagram::{DatagramRooms, serve_datagram};
use crate::ends::Ends;
use eb_base::NoMemory;
use eb_net::Post;
use eb_server::Ending;
use eb_session::Slave;
use std::alloc::Global;
use wb_signals::Master;

/// Serves so many datagrams, or fewer where none is left.
fn serve_datagrams<P: Post, M: Master>(
    post: &mut P,
    slave: Slave,
    master: &mut M,
    datagrams: u32,
    ends: &mut Ends,
    rooms: &mut DatagramRooms,
)
    requires width { (M.identity master.old).bus ≡ slave.bus }
    requires none_open { (M.cycles master.old).opened ≡ [] }
    requires room { length ends.old.endings + datagrams ≤ ends.old.most }
    requires rooms { HasDatagramRoom rooms.old }
    ensures served { ServedAll (M.identity master.old).number slave datagrams (P.posting post.old) (P.posting post.new)
        (M.cycles master.old) (M.cycles master.new) ends.old ends.new }
    ensures none_open { (M.cycles master.new).opened ≡ [] }
    ensures identity { M.identity master.new ≡ M.identity master.old }
{
    'serving: for _ in 0..datagrams {
        match serve_datagram(post, slave, master, rooms) {
            Some(ending) => ends.add(ending),
            None => return,
        }
    }
}

/// Serves so many datagrams of a post, one after another, each by a session of its own as this slave: its replies, if
/// any, go out as one datagram after its last item that ran.
///
/// There is an ending for each receive, and fewer than asked for exactly where a receive finds none left. A receive
/// that fails counts as a datagram, with the ending `ReadFault`. `WriteFault` comes exactly where the session ended as
/// `Clean` and the send failed; another ending of the session stands, sent or not. `NoMemory` also comes where there
/// was no memory for the session, of which nothing ran then; and as the one ending where there was none for the rooms
/// of a datagram and its replies, which are taken first. No cycle is open afterwards.
pub fn serve_post<P: Post, M: Master>(
    alloc: Global,
    post: &mut P,
    slave: Slave,
    master: &mut M,
    datagrams: u32,
    ends: &mut Ends,
)
    requires width { (M.identity master.old).bus ≡ slave.bus }
    requires none_open { (M.cycles master.old).opened ≡ [] }
    requires some { 0 < datagrams }
    requires room { length ends.old.endings + datagrams ≤ ends.old.most }
    ensures served { ServedPost (M.identity master.old).number slave datagrams (P.posting post.old) (P.posting post.new)
        (M.cycles master.old) (M.cycles master.new) ends.old ends.new }
    ensures none_open { (M.cycles master.new).opened ≡ [] }
    ensures identity { M.identity master.new ≡ M.identity master.old }
{
    match DatagramRooms::new(alloc) {
        Ok(mut rooms) => serve_datagrams(post, slave, master, datagrams, ends, &mut rooms),
        Err(NoMemory) => ends.add(Ending::NoMemory),
    }
}
