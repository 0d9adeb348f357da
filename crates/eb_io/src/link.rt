//! Octets in both directions: the trait `Link`, and a link in memory.
ghost use Rattle.std.specs.Prelude.{◌≡◌, ◌<◌, length};
ghost use Rattle.eb_io.specs.Reading.{Reads};
ghost use Rattle.eb_io.specs.Writing.{Writes, Octets};

use crate::sink::{MemSink, Put, Sink};
use crate::source::{Got, MemSource, Source};

/// A source and a sink in one: a connection to a peer.
pub trait Link: Source + Sink {
    /// What a read leaves alone is what it tells of its writes.
    ghost tells_writes: { (link : Self) → Self.beside_reads link ≡ Self.writing link };

    /// What a write leaves alone is what it tells of its reads.
    ghost tells_reads: { (link : Self) → Self.beside_writes link ≡ Self.reading link };
}

/// A link in memory, which tells its octets: it reads from the one end, and writes to the other.
#[derive(Drop)]
pub struct MemLink {
    source: MemSource,
    sink: MemSink,
}

impl MemLink {
    ghost use Rattle.eb_io.specs.MemSource.{reading_of as source_reading};
    ghost use Rattle.eb_io.specs.MemSink.{writing_of as sink_writing};
    ghost use Rattle.eb_io.specs.MemLink.{reading_of, writing_of};

    /// Reads from the one and writes to the other.
    pub fn new(source: MemSource, sink: MemSink) -> MemLink
        ensures reading { reading_of result ≡ source_reading source }
        ensures writing { writing_of result ≡ sink_writing sink }
    {
        MemLink { source, sink }
    }

    /// What was written so far.
    pub fn octets(&self) -> &[u8]
        ensures written { (writing_of self.now).written ≡ Octets result.now }
    {
        self.sink.octets()
    }
}

impl Source for MemLink {
    ghost use Rattle.eb_io.specs.MemLink.{reading_of, writing_of};

    ghost reading = { reading_of };

    ghost beside_reads = { writing_of };

    fn read(&mut self, room: &mut [u8]) -> Got
        requires some_room { 0 < length room.old }
        ensures reads { Reads (reading_of self.old) (reading_of self.new) room.new result }
        ensures writing { writing_of self.new ≡ writing_of self.old }
    {
        self.source.read(room)
    }
}

impl Sink for MemLink {
    ghost use Rattle.eb_io.specs.MemLink.{reading_of, writing_of};

    ghost writing = { writing_of };

    ghost beside_writes = { reading_of };

    fn write(&mut self, piece: &[u8]) -> Put
        requires some_piece { 0 < length piece.now }
        ensures writes { Writes (writing_of self.old) (writing_of self.new) piece.now result }
        ensures reading { reading_of self.new ≡ reading_of self.old }
    {
        self.sink.write(piece)
    }
}

impl Link for MemLink {
    ghost use Rattle.std.specs.Prelude.{refl};

    ghost tells_writes = { λ _. refl };

    ghost tells_reads = { λ _. refl };
}
