// The edge: readers and writers of std, and with them the real files and the standard streams.
ghost use Rattle.std.specs.Prelude.{None, ◌≡◌, ◌<◌, [], length};
ghost use Rattle.eb_io.specs.Reading.{Reads};
ghost use Rattle.eb_io.specs.Writing.{Nothing, Writes};

use crate::shelf::Shelf;
use crate::{Got, Opened, Put, Sink, Source, World};
use std::alloc::Global;
use std::fs::{self, File};
use std::io::{Read, Write};

/// A reader of std as a source.
#[derive(Drop)]
pub struct ReadSource<R> {
    reader: R,
    faults: u64,
}

impl<R: Read> ReadSource<R> {
    ghost use Rattle.eb_io.specs.ReadSource.{reading_of};

    /// No read failed yet.
    pub fn new(reader: R) -> ReadSource<R>
        ensures tells { reading_of result ≡ record { given = None; left = None; faults = 0 } }
        ensures reader { result.reader ≡ reader }
    {
        ReadSource { reader, faults: 0 }
    }
}

impl<R: Read> Source for ReadSource<R> {
    ghost use Rattle.eb_io.specs.ReadSource.{reading_of, ReadsLeft};

    ghost reading = { reading_of };

    /// One read of the reader.
    fn read(&mut self, room: &mut [u8]) -> Got
        requires some_room { 0 < length room.old }
        ensures reads { Reads (reading_of self.old) (reading_of self.new) room.new result }
        ensures left { ReadsLeft (R.remaining self.old.reader) (R.remaining self.new.reader) room.new result }
    {
        match self.reader.read(room) {
            Ok(0) => Got::End,
            Ok(count) => Got::Some(count),
            Err(_) => {
                self.faults = self.faults.saturating_add(1);
                Got::Failed
            }
        }
    }
}

/// A writer of std as a sink.
#[derive(Drop)]
pub struct WriteSink<W> {
    writer: W,
    faults: u64,
}

impl<W: Write> WriteSink<W> {
    ghost use Rattle.eb_io.specs.WriteSink.{writing_of};

    /// No write failed yet.
    pub fn new(writer: W) -> WriteSink<W>
        ensures tells { writing_of result ≡ record { written = Nothing; faults = 0 } }
        ensures writer { result.writer ≡ writer }
    {
        WriteSink { writer, faults: 0 }
    }
}

impl<W: Write> Sink for WriteSink<W> {
    ghost use Rattle.eb_io.specs.WriteSink.{writing_of, WritesHeld};

    ghost writing = { writing_of };

    /// One write to the writer. One that takes no octet is a failed one.
    fn write(&mut self, piece: &[u8]) -> Put
        requires some_piece { 0 < length piece.now }
        ensures writes { Writes (writing_of self.old) (writing_of self.new) piece.now result }
        ensures held { WritesHeld (W.contents self.old.writer) (W.contents self.new.writer) piece.now result }
    {
        match self.writer.write(piece) {
            Ok(count) if count > 0 => Put::Some(count),
            _ => {
                self.faults = self.faults.saturating_add(1);
                Put::Failed
            }
        }
    }
}

/// The real files, by name.
#[derive(Drop)]
pub struct RealWorld {
    rt: HostRuntime,
    shelf: Shelf<ReadSource<File>>,
}

impl RealWorld {
    ghost use Rattle.eb_io.specs.RealWorld.{world_of};

    /// It has nothing yet, and no open failed.
    pub fn new(rt: HostRuntime, alloc: Global) -> RealWorld
        ensures tells { world_of result ≡ record { asked = []; files = []; faults = 0 } }
    {
        RealWorld {
            rt,
            shelf: Shelf::new(alloc),
        }
    }
}

impl World for RealWorld {
    type File = ReadSource<File>;

    ghost use Rattle.eb_io.specs.RealWorld.{world_of};

    ghost outside = { world_of };

    fn open(&mut self, alloc: Global, name: &str) -> Opened {
        if self.shelf.ask(alloc, name).is_err() {
            return Opened::NoMemory;
        }
        match fs::open(&self.rt, name) {
            Ok(file) => {
                self.shelf.add(ReadSource::new(file));
                Opened::Done
            }
            Err(_) => {
                self.shelf.fail();
                Opened::Failed
            }
        }
    }

    fn files(&mut self, alloc: Global) -> Vec<ReadSource<File>> {
        self.shelf.hand_out(alloc)
    }

    fn put_files(&mut self, files: Vec<ReadSource<File>>)
        requires none_left { (world_of self.old).files ≡ [] }
        ensures put { world_of self.new ≡ record (world_of self.old) { files = files.items } }
    {
        self.shelf.take_back(files);
    }
}
