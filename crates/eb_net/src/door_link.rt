//! The connection that stands at a door in memory.

ghost use Rattle.std.specs.Prelude.{◌≡◌};

use crate::counts::Counts;
use eb_io::{Got, Link, MemLink, Put, Sink, Source};

/// The connection that stands at a door in memory, or before the first the lack of one.
#[derive(Drop)]
pub struct DoorLink {
    pub(crate) link: Option<MemLink>,
    pub(crate) read_faults: u64,
    pub(crate) write_faults: u64,
}

impl Source for DoorLink {
    ghost use Rattle.eb_net.specs.DoorLink.{standing_reading, standing_writing};

    ghost reading = { standing_reading };

    ghost beside_reads = { standing_writing };

    /// Before the first connection a read is at the end.
    fn read(&mut self, room: &mut [u8]) -> Got {
        let Some(link) = &mut self.link else {
            return Got::End;
        };
        match link.read(room) {
            Got::Some(count) => Got::Some(count),
            Got::End => Got::End,
            Got::Failed => {
                self.read_faults = self.read_faults.saturating_add(1);
                Got::Failed
            }
        }
    }
}

impl Sink for DoorLink {
    ghost use Rattle.eb_net.specs.DoorLink.{standing_reading, standing_writing};

    ghost writing = { standing_writing };

    ghost beside_writes = { standing_reading };

    /// Before the first connection a write fails.
    fn write(&mut self, piece: &[u8]) -> Put {
        let put = match &mut self.link {
            None => Put::Failed,
            Some(link) => link.write(piece),
        };
        match put {
            Put::Some(count) => Put::Some(count),
            Put::Failed => {
                self.write_faults = self.write_faults.saturating_add(1);
                Put::Failed
            }
        }
    }
}

impl Link for DoorLink {
    ghost use Rattle.std.specs.Prelude.{refl};

    ghost tells_writes = { λ _. refl };

    ghost tells_reads = { λ _. refl };
}

impl DoorLink {
    ghost use Rattle.eb_io.specs.Writing.{Octets};
    ghost use Rattle.eb_net.specs.DoorLink.{standing_writing};

    /// What was written on it so far.
    pub fn octets(&self) -> &[u8]
        ensures written { (standing_writing self.now).written ≡ Octets result.now }
    {
        match &self.link {
            None => &[],
            Some(link) => link.octets(),
        }
    }
}

/// A connection that is over, with the door's counts when it began.
#[derive(Drop)]
pub struct PastLink {
    pub(crate) link: DoorLink,
    pub(crate) began: Counts,
}
