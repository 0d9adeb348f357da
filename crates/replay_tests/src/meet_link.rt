//! A link that waits for what another one does.
ghost use Rattle.std.specs.Prelude.{◌<◌, length};
ghost use Rattle.eb_io.specs.Reading.{Reads};
ghost use Rattle.eb_io.specs.Writing.{Writes};
ghost use Rattle.replay_tests.specs.Untold.{no_reading, no_writing};

use crate::meeting::Meeting;
use eb_io::{Got, Link, MemSource, Put, Sink, Source};
use std::alloc::{AllocError, Global};
use std::sync::Arc;

/// A header and a record, and one more record, each a write to the RAM.
pub const TO_RAM: [u8; 28] = [
    0x4E, 0x6F, 0x10, 0x44, 0x08, 0x0F, 0x01, 0x00, 0x00, 0x00, 0x00, 0x10, 0x00, 0x00, 0x00, 0x01,
    0x08, 0x0F, 0x01, 0x00, 0x00, 0x00, 0x00, 0x14, 0x00, 0x00, 0x00, 0x02,
];

/// The same to the registers.
pub const TO_REGISTERS: [u8; 28] = [
    0x4E, 0x6F, 0x10, 0x44, 0x08, 0x0F, 0x01, 0x00, 0x00, 0x01, 0x00, 0x00, 0x00, 0x00, 0x00, 0x03,
    0x08, 0x0F, 0x01, 0x00, 0x00, 0x01, 0x00, 0x00, 0x00, 0x00, 0x00, 0x04,
];

// The octets of a header and a record.
const FIRST: usize = 16;

/// A link that comes to the meeting by its first write, and waits there in its second read. Where nobody else comes,
/// its stream ends there. It tells no octets, and no call fails.
#[derive(Drop)]
pub struct MeetLink {
    source: MemSource,
    reads: u64,
    writes: u64,
    meeting: Arc<Meeting, Global>,
}

impl MeetLink {
    /// Gives these octets, a header and a record in the first read.
    pub fn new(
        alloc: Global,
        octets: &[u8],
        meeting: &Arc<Meeting, Global>,
    ) -> Result<MeetLink, AllocError> {
        Ok(MeetLink {
            source: MemSource::new(Vec::from_slice(alloc, octets)?, FIRST, Vec::new(alloc)),
            reads: 0,
            writes: 0,
            meeting: Arc::try_clone(meeting)?,
        })
    }
}

impl Source for MeetLink {
    ghost reading = { λ _. no_reading };

    ghost beside_reads = { λ _. no_writing };

    fn read(&mut self, room: &mut [u8]) -> Got
        requires some_room { 0 < length room.old }
        ensures reads { Reads no_reading no_reading room.new result }
    {
        self.reads = self.reads.saturating_add(1);
        if self.reads == 2 && !self.meeting.wait() {
            return Got::End;
        }
        match self.source.read(room) {
            Got::Some(count) => Got::Some(count),
            _ => Got::End,
        }
    }
}

impl Sink for MeetLink {
    ghost writing = { λ _. no_writing };

    ghost beside_writes = { λ _. no_reading };

    fn write(&mut self, piece: &[u8]) -> Put
        requires some_piece { 0 < length piece.now }
        ensures writes { Writes no_writing no_writing piece.now result }
    {
        self.writes = self.writes.saturating_add(1);
        if self.writes == 1 {
            self.meeting.come();
        }
        Put::Some(piece.len())
    }
}

impl Link for MeetLink {
    ghost use Rattle.std.specs.Prelude.{refl};

    ghost tells_writes = { λ _. refl };

    ghost tells_reads = { λ _. refl };
}
