// The generated stream as a source.
ghost use Rattle.std.specs.Prelude.{IsTrue, Some, IfSome, [], ◌≡◌, ◌≢◌, ◌<◌, ◌≤◌, ◌^◌, ◌++◌, length, take, drop};
ghost use Rattle.eb_io.specs.Reading.{Reads};
ghost use Rattle.eb_load.specs.Filling.{Filled};
ghost use Rattle.eb_load.specs.Stream.{load_octets, octets_of_records};

use crate::draws::Draws;
use crate::piece::Piece;
use crate::record::put_record;
use eb_codec::flags::{MAGIC, VERSION};
use eb_io::{Got, Source};

/// The generated stream: the header, then records of one to four writes and one to four reads each.
///
/// It tells the octets that it gave and has left. It takes no memory, and no read fails.
#[derive(Drop)]
pub struct LoadSource {
    start: u32,
    total: u32,
    given: u64,
    draws: Draws,
    records: u32,
    piece: Piece,
    at: usize,
    ghost within: { at ≤ length piece },
    ghost short: { length (load_octets start total) < 2 ^ 64 },
    ghost few: { given ≤ length (load_octets start total) },
    ghost parts: { load_octets start total ≡ take given (load_octets start total)
        ++ (drop at piece ++ octets_of_records records draws) },
}

impl LoadSource {
    ghost use Rattle.eb_load.specs.LoadSource.{load_given, load_left, load_reading};

    /// The stream of so many records, whose draws begin at `start`.
    pub fn new(start: u32, records: u32) -> LoadSource
        ensures tells { load_reading result
            ≡ record { given = Some []; left = Some (load_octets start records); faults = 0 } }
    {
        let mut piece = Piece::new();
        piece.put([MAGIC[0], MAGIC[1], VERSION, 0x44]);
        LoadSource {
            start,
            total: records,
            given: 0,
            draws: Draws::from(start),
            records,
            piece,
            at: 0,
        }
    }

    /// How many octets it gave.
    pub fn given(&self) -> u64
        ensures count { IfSome (load_reading self.now).given (λ octets. result ≡ length octets) }
    {
        self.given
    }

    // Makes the next record, where all octets of the piece were given. What is left stays the same.
    fn advance(&mut self)
        requires given { self.old.at ≡ length self.old.piece }
        requires more { 0 < self.old.records }
        ensures left { load_left self.new ≡ load_left self.old }
        ensures given { load_given self.new ≡ load_given self.old }
        ensures some { self.new.at < length self.new.piece }
        ensures fewer { self.new.records < self.old.records }
    {
        put_record(&mut self.piece, &mut self.draws);
        self.records -= 1;
        self.at = 0;
    }

    // Gives octets of the piece, of which some are left.
    fn give(&mut self, room: &mut [u8]) -> usize
        requires some_room { 0 < length room.old }
        requires some_left { self.old.at < length self.old.piece }
        ensures some { 0 < result }
        ensures room { result ≤ length room.new }
        ensures octets { load_left self.old ≡ take result room.new ++ load_left self.new }
        ensures given { load_given self.new ≡ load_given self.old ++ take result room.new }
        ensures whole { result < length room.new → self.new.at ≡ length self.new.piece }
        ensures len { length room.new ≡ length room.old }
        ensures records { self.new.records ≡ self.old.records }
    {
        let at = self.at;
        let count = room.len().min(self.piece.len() - at);
        room[..count].copy_from_slice(&self.piece.as_slice()[at..at + count]);
        self.at = at + count;
        self.given += count as u64;
        count
    }

    // Whether a room of which so much is filled takes octets of one more record.
    fn has_more(&self, filled: usize, room: usize) -> bool
        ensures room { IsTrue result → filled < room }
        ensures records { IsTrue result → 0 < self.now.records }
    {
        filled < room && self.records > 0
    }

    // Fills what is left of a room, which the octets of the piece don't fill, with those of the records to come. How
    // much is filled then.
    fn fill(&mut self, room: &mut [u8], count: usize) -> usize
        requires within { count ≤ length room.old }
        requires whole { count < length room.old → self.old.at ≡ length self.old.piece }
        ensures gave { Filled (load_reading self.old) (load_reading self.new) count room.old room.new result }
    {
        let mut filled = count;
        while self.has_more(filled, room.len()) {
            self.advance();
            filled += self.give(&mut room[filled..]);
        }
        filled
    }
}

impl Source for LoadSource {
    ghost use Rattle.eb_load.specs.LoadSource.{load_reading};

    ghost reading = { load_reading };

    /// Gives as many octets as the room takes and the stream has left. It never answers `Failed`.
    fn read(&mut self, room: &mut [u8]) -> Got
        requires some_room { 0 < length room.old }
        ensures reads { Reads (load_reading self.old) (load_reading self.new) room.new result }
        ensures never_fails { result ≢ Got.Failed }
    {
        if self.at == self.piece.len() {
            if self.records == 0 {
                return Got::End;
            }
            self.advance();
        }
        let count = self.give(room);
        Got::Some(self.fill(room, count))
    }
}
