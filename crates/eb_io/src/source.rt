// Where octets come from: the trait, reading to the end, and a source in memory.
ghost use Rattle.std.specs.Prelude.{None, Some, ℕ, ◌≡◌, ◌<◌, ◌≤◌, ◌↔◌, ◌^◌, ◌-◌, [], length, min};
ghost use Rattle.eb_io.specs.Writing.{Writing, Nothing};
ghost use Rattle.eb_io.specs.Reading.{Reading, Reads, Gathers};

use crate::calls::Calls;
use std::alloc::Global;

/// What a read answers.
#[derive(Clone, Copy, Debug, PartialEq, Eq)]
pub enum Got {
    /// So many octets stand at the front of the room.
    Some(usize),
    /// Nothing is left.
    End,
    /// The read failed.
    Failed,
}

/// Octets that come from outside, in order.
pub trait Source {
    /// What it tells: the octets that it gave so far and has left, where it tells them, and how many reads failed.
    ghost reading: { Self → Reading };

    /// What it tells of writes, where it is a sink too. A read leaves that alone.
    ghost beside_reads: { Self → Writing } = { λ _. record { written = Nothing; faults = 0 } };

    /// Puts the next octets at the front of the room, as many as it likes. The rest of the room may change.
    ///
    /// `Some` has at least one octet and at most the room's. `End` comes only where nothing is left. `Failed` comes
    /// only where the count of failed reads rose, and then nothing was given: the next read goes on from there.
    fn read(&mut self, room: &mut [u8]) -> Got
        requires some_room { 0 < length room.old }
        ensures reads { Reads (reading self.old) (reading self.new) room.new result }
        ensures beside { beside_reads self.new ≡ beside_reads self.old };
}

/// What reading a source to its end, or to one octet past a limit, answers.
#[derive(Drop)]
pub enum Gathered {
    /// All octets that were left.
    All(Vec<u8>),
    /// More octets were left than the limit.
    Longer,
    /// A read failed.
    Failed,
    /// There was no memory for what was read.
    NoMemory,
}

// How many octets are asked for at once.
const PIECE: usize = 4096;

/// Reads to the end, or to one octet past the limit, which is in octets.
///
/// After `Longer` the source gave exactly one octet more than the limit; after `Failed` and `NoMemory` those that it
/// gave are lost.
pub fn gather<S: Source>(alloc: Global, source: &mut S, limit: usize) -> Gathered
    requires fits { limit < 2 ^ 63 }
    ensures gathers { Gathers (S.reading source.old) (S.reading source.new) limit result }
    ensures beside { S.beside_reads source.new ≡ S.beside_reads source.old }
{
    let mut octets = Vec::new(alloc);
    let mut piece = [0; PIECE];
    'reading: while octets.len() <= limit {
        let count = PIECE.min(limit + 1 - octets.len());
        let room = &mut piece[..count];
        match source.read(room) {
            Got::Some(count) => {
                if octets.extend_from_slice(&room[..count]).is_err() {
                    return Gathered::NoMemory;
                }
            }
            Got::End => return Gathered::All(octets),
            Got::Failed => return Gathered::Failed,
        }
    }
    Gathered::Longer
}

/// A source in memory, which tells its octets.
#[derive(Drop)]
pub struct MemSource {
    octets: Vec<u8>,
    at: usize,
    calls: Calls,
    faults: u64,
    ghost within: { at ≤ length octets.items },
}

impl MemSource {
    ghost use Rattle.eb_io.specs.MemSource.{reading_of, plan_of, IsNew};

    /// Gives these octets, at most `most` a call, and fails exactly the calls whose numbers, from 0, are in `fails`.
    /// The number of a call stays at `2^64 - 1`.
    pub fn new(octets: Vec<u8>, most: usize, fails: Vec<u64>) -> Self
        requires some { 0 < most }
        ensures new { IsNew result }
        ensures tells { reading_of result ≡ record { given = Some []; left = Some octets.items; faults = 0 } }
        ensures plan { plan_of result ≡ record { most = most; fails = fails.items; next = 0 } }
    {
        MemSource {
            octets,
            at: 0,
            calls: Calls::new(most, fails),
            faults: 0,
        }
    }
}

impl Source for MemSource {
    ghost use Rattle.eb_io.specs.Plan.{FailsNow, after_call};
    ghost use Rattle.eb_io.specs.MemSource.{reading_of, plan_of, left_of};

    ghost reading = { reading_of };

    /// Gives as many octets as the room, the most of a call and what is left allow. It fails exactly the calls that
    /// it was made to fail.
    fn read(&mut self, room: &mut [u8]) -> Got
        requires some_room { 0 < length room.old }
        ensures reads { Reads (reading_of self.old) (reading_of self.new) room.new result }
        ensures fails { (result ≡ Got.Failed) ↔ FailsNow (plan_of self.old) }
        ensures calls { plan_of self.new ≡ after_call (plan_of self.old) }
        ensures most { (n : ℕ) → result ≡ Got.Some n →
            n ≡ min (min (length room.old) (plan_of self.old).most) (length (left_of self.old)) }
    {
        if self.calls.count() {
            self.faults = self.faults.saturating_add(1);
            return Got::Failed;
        }
        let at = self.at;
        let count = room
            .len()
            .min(self.calls.most())
            .min(self.octets.len() - at);
        if count == 0 {
            return Got::End;
        }
        room[..count].copy_from_slice(&self.octets[at..at + count]);
        self.at = at + count;
        Got::Some(count)
    }
}
