//! A link in memory, at whose other end a session serves.

ghost use Rattle.std.specs.Prelude.{None, Some, ◌≡◌, ◌<◌, ◌≤◌, ◌++◌, [], drop, take, length, MatchOption};
ghost use Rattle.eb_io.specs.Reading.{Reads};
ghost use Rattle.eb_io.specs.Writing.{Octets, Took, WriteFailed, Writes};
ghost use Rattle.eb_session.specs.Keeping.{new_session};
ghost use Rattle.eb_loopback.specs.Joined.{FailsPiece, FeedsPiece, GivesReplies, IsJoined, RunsUnlessFailed, TakesPiece, new_loopback, loopback_reading, loopback_writing, serving_of};

use eb_codec::encoding::put;
use eb_host::HostLink;
use eb_io::{Got, Link, Put, Sink, Source};
use eb_session::Session;
use soc_trail::Trail;
use std::alloc::Global;
use std::marker::Model;
use std::snapshot::Snapshot;
use wb_signals::Master;

// The most octets of a reply.
const MOST_REPLY: usize = 2056;

/// A link in memory whose other end is a session on a master: what is written to it is fed to the session, and what
/// is read from it are the session's replies (Etherbone 1.0).
///
/// Contracts see its session, its master, and all that was written and read. Memory keeps the replies that are
/// unread.
#[derive(Drop)]
pub struct Loopback<M: Master> {
    session: Session,
    master: M,
    alloc: Global,
    replies: Vec<u8>,
    at: usize,
    taken: u64,
    faults: u64,
    began: Snapshot<M>,
    written: Trail<u8>,
    read: Trail<u8>,
}

impl<M: Master> Model for Loopback<M> {
    ghost use Rattle.std.specs.Prelude.{◌≤◌, length, drop};
    ghost use Rattle.eb_session.specs.Keeping.{octets_taken};
    ghost use Rattle.eb_loopback.specs.Joined.{LoopbackState, IsJoined, RunsUnlessFailed, loopback_of};

    ghost Value = { LoopbackState M };

    ghost view = { λ l.
        loopback_of l.session l.master l.began.value l.written l.read (drop l.at l.replies.items) l.faults };

    ghost invariant = { λ l. (l.at ≤ length l.replies.items) × (octets_taken l.session ≤ l.taken)
        × IsJoined M.identity M.cycles
        (loopback_of l.session l.master l.began.value l.written l.read (drop l.at l.replies.items) l.faults)
        × RunsUnlessFailed
        (loopback_of l.session l.master l.began.value l.written l.read (drop l.at l.replies.items) l.faults) };
}

impl<M: Master> Loopback<M> {
    /// A link to this session, which is new, on this master, which has no open cycle.
    ///
    /// Nothing was written or read yet. Memory for replies is taken from `alloc`, by writes, and so is what the
    /// master takes.
    pub fn new(alloc: Global, session: Session, master: M) -> Loopback<M>
        requires fresh { session ≡ new_session session.slave }
        requires width { (M.identity master).bus ≡ session.slave.bus }
        requires none_open { (M.cycles master).opened ≡ [] }
        ensures new { result ≡ new_loopback session master }
    {
        let began = Snapshot::of(&master);
        Loopback {
            session,
            master,
            alloc,
            replies: Vec::new(alloc),
            at: 0,
            taken: 0,
            faults: 0,
            began,
            written: Trail::new(),
            read: Trail::new(),
        }
    }

    /// Its session. While that runs it is on its course: the octets that were written are those that it took, and its
    /// replies are those that were read and those that are unread. Where it has ended, it ended in a write that failed,
    /// and where no write failed it runs. The master's bus and number are those that it had when the link was made.
    pub fn session(&self) -> &Session
        ensures session { result.now ≡ self.now.session }
        ensures joined { IsJoined M.identity M.cycles self.now }
        ensures runs { RunsUnlessFailed self.now }
    {
        &self.session
    }

    /// Its master, on which the session's records ran.
    pub fn master(&self) -> &M
        ensures master { result.now ≡ self.now.master }
    {
        &self.master
    }

    // Feeds the session once, and takes its reply. It answers how many octets were taken, or nothing where none were,
    // which counts as a write that failed.
    fn feed(&mut self, piece: &[u8]) -> Option<usize>
        requires some_piece { 0 < length piece.now }
        ensures fed { MatchOption result (WriteFailed (loopback_writing self.old) (loopback_writing self.new))
            (λ n. (0 < n) × (n ≤ length piece.now)
            × Took (loopback_writing self.old) (loopback_writing self.new) (take n piece.now)) }
        ensures reading { loopback_reading self.new ≡ loopback_reading self.old }
        ensures feeds { MatchOption result
            (FailsPiece M.cycles (M.identity self.old.master).number self.old self.new piece.now)
            (TakesPiece M.cycles (M.identity self.old.master).number self.old self.new piece.now) }
        ensures serving { serving_of self.new ≡ serving_of self.old }
    {
        let before = self.faults;
        self.faults = before.saturating_add(1);
        let most = self.taken.checked_add(piece.len() as u64)?;
        if self.replies.reserve(MOST_REPLY).is_err() {
            return None;
        }
        match self.session.feed(self.alloc, &mut self.master, piece) {
            Ok(fed) => {
                self.faults = before;
                self.taken += fed.taken as u64;
                put(&mut self.replies, self.session.reply());
                push_all(&mut self.written, &piece[..fed.taken]);
                Some(fed.taken)
            }
            Err(_) => {
                self.taken = most;
                None
            }
        }
    }
}

// Adds octets at the end of a trail.
fn push_all(trail: &mut Trail<u8>, octets: &[u8])
    ensures items { trail.new ≡ trail.old ++ octets.now }
{
    for octet in octets {
        trail.push(*octet);
    }
}

// Empties the room of replies where all of them were read, and answers where those that are unread begin.
fn forget_read(replies: &mut Vec<u8>, at: usize) -> usize
    requires within { at ≤ length replies.old.items }
    ensures within { result ≤ length replies.new.items }
    ensures unread { drop result replies.new.items ≡ drop at replies.old.items }
{
    if at < replies.len() {
        return at;
    }
    replies.clear();
    0
}

impl<M: Master> Source for Loopback<M> {
    ghost reading = { loopback_reading };

    ghost beside_reads = { loopback_writing };

    /// Gives replies that are unread, in order. `End` comes exactly where there are none; a write may make more.
    fn read(&mut self, room: &mut [u8]) -> Got
        requires some_room { 0 < length room.old }
        ensures reads { Reads (loopback_reading self.old) (loopback_reading self.new) room.new result }
        ensures writing { loopback_writing self.new ≡ loopback_writing self.old }
        ensures gives { GivesReplies self.old self.new room.new result }
        ensures serving { serving_of self.new ≡ serving_of self.old }
    {
        let count = room.len().min(self.replies.len() - self.at);
        if count == 0 {
            return Got::End;
        }
        let end = self.at + count;
        room[..count].copy_from_slice(&self.replies[self.at..end]);
        push_all(&mut self.read, &room[..count]);
        self.at = forget_read(&mut self.replies, end);
        Got::Some(count)
    }
}

impl<M: Master> Sink for Loopback<M> {
    ghost writing = { loopback_writing };

    ghost beside_writes = { loopback_reading };

    /// Feeds the piece to the session, which takes octets up to the end of one item, and keeps its reply.
    ///
    /// `Failed` comes where there is no memory for a reply, or 2^64 octets would have been fed, and then nothing was
    /// fed; or where the session ends in the piece or has ended, as for want of memory in the master.
    fn write(&mut self, piece: &[u8]) -> Put
        requires some_piece { 0 < length piece.now }
        ensures writes { Writes (loopback_writing self.old) (loopback_writing self.new) piece.now result }
        ensures reading { loopback_reading self.new ≡ loopback_reading self.old }
        ensures feeds { FeedsPiece M.cycles (M.identity self.old.master).number self.old self.new piece.now result }
        ensures serving { serving_of self.new ≡ serving_of self.old }
    {
        match self.feed(piece) {
            Some(count) => Put::Some(count),
            None => Put::Failed,
        }
    }
}

impl<M: Master> Link for Loopback<M> {
    ghost use Rattle.std.specs.Prelude.{refl};

    ghost tells_writes = { λ _. refl };

    ghost tells_reads = { λ _. refl };
}

/// At its other end is the slave, on the master as it was when the link was made.
impl<M: Master> HostLink for Loopback<M> {
    ghost use Rattle.eb_loopback.specs.Joined.{Serving, serving_of};

    ghost OtherEnd = { Serving M };

    ghost other_end = { serving_of };

    fn receive(&mut self, room: &mut [u8]) -> Got {
        self.read(room)
    }

    fn send(&mut self, piece: &[u8]) -> Put {
        self.write(piece)
    }
}
