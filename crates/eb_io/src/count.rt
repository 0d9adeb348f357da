// A sink for octets that only count.
ghost use Rattle.std.specs.Prelude.{◌≡◌, ◌<◌, length};
ghost use Rattle.eb_io.specs.Writing.{Count, Writes};

use crate::{Put, Sink};

/// A sink that keeps no octets and tells how many it took. It takes each piece whole, and no write fails.
///
/// The count stands still at `2^64 - 1`.
#[derive(Drop)]
pub struct CountSink {
    count: u64,
}

impl CountSink {
    ghost use Rattle.eb_io.specs.CountSink.{writing_of};

    pub fn new() -> CountSink
        ensures tells { writing_of result ≡ record { written = Count 0; faults = 0 } }
    {
        CountSink { count: 0 }
    }

    /// How many octets were written.
    pub fn count(&self) -> u64
        ensures count { (writing_of self.now).written ≡ Count result }
    {
        self.count
    }
}

impl Sink for CountSink {
    ghost use Rattle.eb_io.specs.CountSink.{writing_of};

    ghost writing = { writing_of };

    fn write(&mut self, piece: &[u8]) -> Put
        requires some_piece { 0 < length piece.now }
        ensures writes { Writes (writing_of self.old) (writing_of self.new) piece.now result }
        ensures whole { result ≡ Put.Some (length piece.now) }
    {
        self.count = self.count.saturating_add(piece.len() as u64);
        Put::Some(piece.len())
    }
}
