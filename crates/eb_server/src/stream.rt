//! How the whole stream of a link is served.
ghost use Rattle.std.specs.Prelude.{◌≡◌, ◌<◌, ◌≤◌, ◌+◌, [], length, vec_capacity};
ghost use Rattle.eb_io.specs.Reading.{Reads};
ghost use Rattle.eb_session.specs.Keeping.{new_session};
ghost use Rattle.eb_server.specs.Rooms.{HasRoom};
ghost use Rattle.eb_server.specs.Serving.{Served};

use crate::ending::{Ending, ending_of};
use crate::piece::serve_piece;
use crate::rooms::Rooms;
use crate::serving::MOST_OCTETS;
use eb_io::{Got, Link};
use eb_session::Session;
use wb_signals::Master;

// Reads octets to the front of the room.
fn read_front<L: Link>(link: &mut L, room: &mut [u8]) -> Got
    requires some_room { 0 < length room.old }
    ensures reads { Reads (L.reading link.old) (L.reading link.new) room.new result }
    ensures writing { L.writing link.new ≡ L.writing link.old }
{
    link.read(room)
}

// Serves the whole stream of a link, in pieces of at most the room's length. The replies to a piece are gathered in
// `replies`.
fn serve_link_in<L: Link, M: Master>(
    link: &mut L,
    session: &mut Session,
    master: &mut M,
    room: &mut [u8],
    replies: &mut Vec<u8>,
) -> Ending
    requires some_room { 0 < length room.old }
    requires fits { length room.old + 4103 ≤ vec_capacity replies.old }
    requires fresh { session.old ≡ new_session session.old.slave }
    requires width { (M.identity master.old).bus ≡ session.old.slave.bus }
    requires none_open { (M.cycles master.old).opened ≡ [] }
    ensures served { Served (M.identity master.old).number session.old.slave (M.cycles master.old) (M.cycles master.new)
        (L.reading link.old) (L.reading link.new) (L.writing link.old) (L.writing link.new) result }
    ensures none_open { (M.cycles master.new).opened ≡ [] }
    ensures slave { session.new.slave ≡ session.old.slave }
    ensures identity { M.identity master.new ≡ M.identity master.old }
{
    let alloc = *replies.allocator();
    let mut read = 0;
    'reading: while read < MOST_OCTETS {
        let count = room.len().min(MOST_OCTETS - read);
        let front = &mut room[..count];
        match read_front(link, front) {
            Got::Some(count) => {
                match serve_piece(alloc, link, session, master, &front[..count], replies) {
                    Ok(()) => read += count,
                    Err(ending) => return ending,
                }
            }
            Got::End => return ending_of(session.finish(master)),
            Got::Failed => {
                session.finish(master);
                return Ending::ReadFault;
            }
        }
    }
    session.finish(master);
    Ending::TooLong
}

/// Serves the whole stream of a link as `serve` does that of a source and a sink: what is read of the link is run, and
/// the replies are written to it before it is read again.
///
/// The endings come as those of `serve`. No cycle is open afterwards.
pub fn serve_stream<L: Link, M: Master>(
    link: &mut L,
    session: &mut Session,
    master: &mut M,
    rooms: &mut Rooms,
) -> Ending
    requires rooms { HasRoom rooms.old }
    requires fresh { session.old ≡ new_session session.old.slave }
    requires width { (M.identity master.old).bus ≡ session.old.slave.bus }
    requires none_open { (M.cycles master.old).opened ≡ [] }
    ensures served { Served (M.identity master.old).number session.old.slave (M.cycles master.old) (M.cycles master.new)
        (L.reading link.old) (L.reading link.new) (L.writing link.old) (L.writing link.new) result }
    ensures none_open { (M.cycles master.new).opened ≡ [] }
    ensures slave { session.new.slave ≡ session.old.slave }
    ensures identity { M.identity master.new ≡ M.identity master.old }
{
    serve_link_in(link, session, master, &mut rooms.piece, &mut rooms.replies)
}
