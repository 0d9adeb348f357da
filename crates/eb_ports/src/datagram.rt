//! How one datagram is served.
ghost use Rattle.std.specs.Prelude.{◌≡◌, ◌<◌, ◌≤◌, ◌^◌, [], IfOk, IfSome, IfNone, length, vec_capacity};
ghost use Rattle.eb_net.specs.Posting.{Receives, NoDatagramLeft, most_of_datagram};
ghost use Rattle.eb_session.specs.Keeping.{new_session};
ghost use Rattle.eb_server.specs.Serving.{ending_of};
ghost use Rattle.eb_ports.specs.Datagrams.{RanDatagram, GoesOut, WasAnswered, ServedDatagram, unsent as unsent_of};
ghost use Rattle.eb_ports.specs.DatagramRooms.{HasDatagramRoom};

use eb_base::NoMemory;
use eb_codec::encoding::put;
use eb_io::{Got, Put};
use eb_net::Post;
use eb_server::Ending;
use eb_session::{End, Session, Slave};
use std::alloc::Global;
use wb_signals::Master;

// The most octets of a datagram.
const MOST: usize = 65_507;

/// Where a datagram is received, and where the replies to it are gathered.
#[derive(Drop)]
pub(crate) struct DatagramRooms {
    octets: Vec<u8>,
    replies: Vec<u8>,
}

impl DatagramRooms {
    /// Rooms for the greatest datagram and its replies, which have no more octets.
    pub(crate) fn new(alloc: Global) -> Result<DatagramRooms, NoMemory>
        ensures room { IfOk result HasDatagramRoom }
    {
        let Ok(replies) = Vec::with_capacity(alloc, MOST) else {
            return Err(NoMemory);
        };
        let Ok(octets) = vec![in alloc; 0; MOST] else {
            return Err(NoMemory);
        };
        Ok(DatagramRooms { octets, replies })
    }
}

/// The ending of a datagram whose session ended so and whose replies went out, or of which there were none.
fn sent(end: End) -> Ending
    ensures value { result ≡ ending_of end }
{
    match end {
        End::Clean => Ending::Clean,
        End::Truncated(pending) => Ending::Truncated(pending),
        End::Malformed(place, why) => Ending::Malformed(place, why),
        End::NoMemory => Ending::NoMemory,
    }
}

/// The ending of a datagram whose session ended so and whose replies could not be sent.
fn unsent(end: End) -> Ending
    ensures value { result ≡ unsent_of end }
{
    match end {
        End::Clean => Ending::WriteFault,
        End::Truncated(pending) => Ending::Truncated(pending),
        End::Malformed(place, why) => Ending::Malformed(place, why),
        End::NoMemory => Ending::NoMemory,
    }
}

/// Sends the replies as one datagram, where there are any, and gives the ending of the datagram that they answer.
fn send_out<P: Post>(post: &mut P, replies: &[u8], end: End) -> Ending
    ensures out { GoesOut (P.posting post.old) (P.posting post.new) replies.now end result }
{
    if replies.is_empty() {
        return sent(end);
    }
    match post.send(replies) {
        Put::Some(_) => sent(end),
        Put::Failed => unsent(end),
    }
}

/// Runs a whole datagram by a new session, and puts its replies, joined, in place of what `replies` held. There is room
/// for them, since no reply is longer than its request.
fn run_datagram<M: Master>(
    session: &mut Session,
    master: &mut M,
    octets: &[u8],
    replies: &mut Vec<u8>,
) -> End
    requires fresh { session.old ≡ new_session session.old.slave }
    requires width { (M.identity master.old).bus ≡ session.old.slave.bus }
    requires none_open { (M.cycles master.old).opened ≡ [] }
    requires short { length octets.now < 2 ^ 32 }
    requires room { length octets.now ≤ vec_capacity replies.old }
    ensures ran { RanDatagram (M.identity master.old).number session.old.slave
        (M.cycles master.old) (M.cycles master.new) octets.now replies.new.items result }
    ensures room { vec_capacity replies.old ≤ vec_capacity replies.new }
    ensures none_open { (M.cycles master.new).opened ≡ [] }
    ensures identity { M.identity master.new ≡ M.identity master.old }
{
    let alloc = *replies.allocator();
    replies.clear();
    let mut at = 0;
    'feeding: while at < octets.len() {
        match session.feed(alloc, master, &octets[at..]) {
            Err(end) => return end,
            Ok(fed) => {
                put(replies, session.reply());
                at += fed.taken;
            }
        }
    }
    session.finish(master)
}

/// Answers a datagram by a session of its own.
fn answer_datagram<P: Post, M: Master>(
    post: &mut P,
    slave: Slave,
    master: &mut M,
    octets: &[u8],
    replies: &mut Vec<u8>,
) -> Ending
    requires width { (M.identity master.old).bus ≡ slave.bus }
    requires none_open { (M.cycles master.old).opened ≡ [] }
    requires short { length octets.now < 2 ^ 32 }
    requires room { length octets.now ≤ vec_capacity replies.old }
    ensures answered { WasAnswered (M.identity master.old).number slave (P.posting post.old) (P.posting post.new)
        (M.cycles master.old) (M.cycles master.new) octets.now result }
    ensures room { vec_capacity replies.old ≤ vec_capacity replies.new }
    ensures none_open { (M.cycles master.new).opened ≡ [] }
    ensures identity { M.identity master.new ≡ M.identity master.old }
{
    match Session::new(*replies.allocator(), slave) {
        Ok(mut session) => {
            let end = run_datagram(&mut session, master, octets, replies);
            send_out(post, replies, end)
        }
        Err(NoMemory) => Ending::NoMemory,
    }
}

/// Receives the next datagram at the front of the room.
fn receive<P: Post>(post: &mut P, room: &mut Vec<u8>) -> Got
    requires size { length room.old.items ≡ most_of_datagram }
    ensures receives { Receives (P.posting post.old) (P.posting post.new) room.new.items result }
    ensures size { length room.new.items ≡ most_of_datagram }
{
    post.receive(room)
}

/// Receives a datagram and answers it; `None` where none is left.
pub(crate) fn serve_datagram<P: Post, M: Master>(
    post: &mut P,
    slave: Slave,
    master: &mut M,
    rooms: &mut DatagramRooms,
) -> Option<Ending>
    requires width { (M.identity master.old).bus ≡ slave.bus }
    requires none_open { (M.cycles master.old).opened ≡ [] }
    requires rooms { HasDatagramRoom rooms.old }
    ensures served { IfSome result (λ e. ServedDatagram (M.identity master.old).number slave
        (P.posting post.old) (P.posting post.new) (M.cycles master.old) (M.cycles master.new) e) }
    ensures none { IfNone result (NoDatagramLeft (P.posting post.old) (P.posting post.new)) }
    ensures none_ran { IfNone result (M.cycles master.new ≡ M.cycles master.old) }
    ensures rooms { HasDatagramRoom rooms.new }
    ensures none_open { (M.cycles master.new).opened ≡ [] }
    ensures identity { M.identity master.new ≡ M.identity master.old }
{
    match receive(post, &mut rooms.octets) {
        Got::Some(count) => {
            let octets = &rooms.octets[..count];
            let ending = answer_datagram(post, slave, master, octets, &mut rooms.replies);
            Some(ending)
        }
        Got::End => None,
        Got::Failed => Some(Ending::ReadFault),
    }
}
