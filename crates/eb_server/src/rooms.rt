//! The rooms of a stream that is served.
ghost use Rattle.std.specs.Prelude.{◌<◌, ◌^◌, IfOk};
ghost use Rattle.eb_server.specs.Rooms.{HasRoom};

use eb_base::NoMemory;
use std::alloc::Global;

// What pends of an item before a piece has fewer octets, and its reply is no longer than that.
const ITEM: usize = 4104;

/// Where the octets of a stream are read to, and where the replies to a piece of it are gathered. They are taken once,
/// and serve one stream after another.
#[derive(Drop)]
pub struct Rooms {
    pub(crate) piece: Vec<u8>,
    pub(crate) replies: Vec<u8>,
}

impl Rooms {
    /// Rooms for pieces of at most so many octets.
    pub fn new(alloc: Global, octets: usize) -> Result<Rooms, NoMemory>
        requires some { 0 < octets }
        requires most { octets < 2 ^ 32 }
        ensures room { IfOk result HasRoom }
    {
        let Ok(replies) = Vec::with_capacity(alloc, octets + ITEM) else {
            return Err(NoMemory);
        };
        let Ok(piece) = vec![in alloc; 0; octets] else {
            return Err(NoMemory);
        };
        Ok(Rooms { piece, replies })
    }
}
