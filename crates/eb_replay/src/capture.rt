//! A file as a link: its octets are read, and the replies to them are kept in memory.
ghost use Rattle.std.specs.Prelude.{◌≡◌, ◌<◌, ◌≤◌, ◌+◌, ◌++◌, ◌↔◌, ℕ, true, false, IsTrue, length, min, vec_capacity};
ghost use Rattle.eb_io.specs.Outside.{IsFresh};
ghost use Rattle.eb_io.specs.Reading.{Reads};
ghost use Rattle.eb_io.specs.Writing.{Writes};
ghost use Rattle.eb_replay.specs.Capture.{IsCapture, new_capture, capture_reading, capture_writing};

use eb_codec::encoding::put;
use eb_io::{Got, Link, Put, Sink, Source};
use soc_trail::Trail;
use std::alloc::Global;
use std::marker::Model;

/// A link that reads a file, and keeps the octets of replies that are written to it.
///
/// No reply is longer than its request, so that it takes as many octets as it gave. Room for them is taken before the
/// file is read: where that is refused, the read fails and the file is left alone. Once a call has failed, the file is
/// not read any more.
///
/// A contract sees its file, the octets that this gave, the replies, how many more octets of them are taken, whether
/// room was refused, and how many calls failed.
#[derive(Drop)]
pub struct CaptureLink<F: Source> {
    file: F,
    octets: Trail<u8>,
    replies: Vec<u8>,
    unanswered: usize,
    refused: bool,
    read_faults: u64,
    write_faults: u64,
}

impl<F: Source> Model for CaptureLink<F> {
    ghost use Rattle.std.specs.Prelude.{◌+◌, ◌≤◌, length, vec_capacity};
    ghost use Rattle.eb_replay.specs.Capture.{CaptureState, IsCapture};

    ghost Value = { CaptureState F };

    ghost view = { λ c. record {
      file = c.file;
      octets = c.octets;
      replies = c.replies.items;
      unanswered = c.unanswered;
      refused = c.refused;
      read_faults = c.read_faults;
      write_faults = c.write_faults;
    } };

    ghost invariant = { λ c. (length c.replies.items + c.unanswered ≤ vec_capacity c.replies)
        × IsCapture F.reading (record {
          file = c.file;
          octets = c.octets;
          replies = c.replies.items;
          unanswered = c.unanswered;
          refused = c.refused;
          read_faults = c.read_faults;
          write_faults = c.write_faults;
        }) };
}

impl<F: Source> CaptureLink<F> {
    /// A link to a file that has given nothing. It takes no memory until it is read.
    pub fn new(alloc: Global, file: F) -> CaptureLink<F>
        requires fresh { IsFresh (F.reading file) }
        ensures new { result ≡ new_capture file }
    {
        CaptureLink {
            file,
            octets: Trail::new(),
            replies: Vec::new(alloc),
            unanswered: 0,
            refused: false,
            read_faults: 0,
            write_faults: 0,
        }
    }

    /// The file, the replies, and whether room for replies was refused.
    pub fn into_parts(self) -> (F, Vec<u8>, bool)
        ensures file { result.0 ≡ self.file }
        ensures replies { result.1.items ≡ self.replies }
        ensures refused { result.2 ≡ self.refused }
        ensures kept { IsCapture F.reading self }
    {
        let CaptureLink {
            file,
            octets: _,
            replies,
            unanswered: _,
            refused,
            read_faults: _,
            write_faults: _,
        } = self;
        (file, replies, refused)
    }
}

// Takes room for replies to what is unanswered and to so many octets more.
fn take_room(replies: &mut Vec<u8>, unanswered: usize, more: usize) -> bool
    ensures room { result ≡ true → length replies.new.items + unanswered + more ≤ vec_capacity replies.new }
    ensures items { replies.new.items ≡ replies.old.items }
    ensures capacity { vec_capacity replies.old ≤ vec_capacity replies.new }
{
    match unanswered.checked_add(more) {
        Some(octets) => replies.reserve(octets).is_ok(),
        None => false,
    }
}

// Adds octets at the end of a trail.
fn push_all(trail: &mut Trail<u8>, octets: &[u8])
    ensures items { trail.new ≡ trail.old ++ octets.now }
{
    for octet in octets {
        trail.push(*octet);
    }
}

impl<F: Source> Source for CaptureLink<F> {
    ghost reading = { capture_reading F.reading };

    ghost beside_reads = { capture_writing };

    /// Reads the file, once there is room for replies to all that fits `room`. Where that room is refused, nothing of
    /// the file is read (`refused`). After a call that failed each read fails.
    fn read(&mut self, room: &mut [u8]) -> Got
        requires some_room { 0 < length room.old }
        ensures reads { Reads (capture_reading F.reading self.old) (capture_reading F.reading self.new) room.new
            result }
        ensures writing { capture_writing self.new ≡ capture_writing self.old }
        ensures refused { self.old.refused ≡ false → self.new.refused ≡ true → self.new.file ≡ self.old.file }
    {
        if self.read_faults > 0 || self.write_faults > 0 {
            self.read_faults = self.read_faults.saturating_add(1);
            return Got::Failed;
        }
        if !take_room(&mut self.replies, self.unanswered, room.len()) {
            self.refused = true;
            self.read_faults = 1;
            return Got::Failed;
        }
        match self.file.read(room) {
            Got::Some(count) => {
                self.unanswered += count;
                push_all(&mut self.octets, &room[..count]);
                Got::Some(count)
            }
            Got::End => Got::End,
            Got::Failed => {
                self.read_faults = 1;
                Got::Failed
            }
        }
    }
}

impl<F: Source> Sink for CaptureLink<F> {
    ghost writing = { capture_writing };

    ghost beside_writes = { capture_reading F.reading };

    /// Keeps as many octets as the piece has and as are unanswered. It fails exactly where none is.
    fn write(&mut self, piece: &[u8]) -> Put
        requires some_piece { 0 < length piece.now }
        ensures writes { Writes (capture_writing self.old) (capture_writing self.new) piece.now result }
        ensures reading { capture_reading F.reading self.new ≡ capture_reading F.reading self.old }
        ensures takes { (n : ℕ) → result ≡ Put.Some n → n ≡ min (length piece.now) self.old.unanswered }
        ensures fails { (result ≡ Put.Failed) ↔ (self.old.unanswered ≡ 0) }
    {
        let count = piece.len().min(self.unanswered);
        if count == 0 {
            self.write_faults = self.write_faults.saturating_add(1);
            return Put::Failed;
        }
        self.unanswered -= count;
        put(&mut self.replies, &piece[..count]);
        Put::Some(count)
    }
}

impl<F: Source> Link for CaptureLink<F> {
    ghost use Rattle.std.specs.Prelude.{refl};

    ghost tells_writes = { λ _. refl };

    ghost tells_reads = { λ _. refl };
}
