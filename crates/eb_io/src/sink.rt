// Where octets go: the trait, the loop that writes a whole text, and a sink in memory.
ghost use Rattle.std.specs.Prelude.{None, ℕ, ◌≡◌, ◌<◌, ◌≤◌, ◌-◌, ◌↔◌, [], flat_map, length, min, IfOk, vec_capacity};
ghost use Rattle.eb_io.specs.Reading.{Reading};
ghost use Rattle.eb_io.specs.Writing.{Writing, Octets, Writes, Wrote};

use crate::calls::Calls;
use eb_base::NoMemory;
use std::alloc::Global;

/// What a write answers.
#[derive(Clone, Copy, Debug, PartialEq, Eq)]
pub enum Put {
    /// So many octets, from the front of the piece, were taken.
    Some(usize),
    /// The write failed.
    Failed,
}

/// A write failed.
#[derive(Clone, Copy, Debug, PartialEq, Eq)]
pub struct WriteFault;

/// Where octets go, in order.
pub trait Sink {
    /// What it tells: of the octets that were written to it so far, and how many writes failed.
    ghost writing: { Self → Writing };

    /// What it tells of reads, where it is a source too. A write leaves that alone.
    ghost beside_writes: { Self → Reading } = { λ _. record { given = None; left = None; faults = 0 } };

    /// Takes octets from the front of the piece, as many as it likes.
    ///
    /// `Some` has at least one octet and at most the piece's. `Failed` comes only where the count of failed writes
    /// rose, and then nothing was taken.
    fn write(&mut self, piece: &[u8]) -> Put
        requires some_piece { 0 < length piece.now }
        ensures writes { Writes (writing self.old) (writing self.new) piece.now result }
        ensures beside { beside_writes self.new ≡ beside_writes self.old };
}

/// Writes all of the octets, in as many calls as the sink makes of them. Where a write fails, a front of them went out.
pub fn put_all<S: Sink>(sink: &mut S, octets: &[u8]) -> Result<(), WriteFault>
    ensures wrote { Wrote S.writing S.beside_writes sink.old sink.new octets.now result }
{
    let mut rest = octets;
    while !rest.is_empty() {
        match sink.write(rest) {
            Put::Some(count) => rest = &rest[count..],
            Put::Failed => return Err(WriteFault),
        }
    }
    Ok(())
}

/// Writes pieces of octets, one after the other.
pub fn put_each<S: Sink>(sink: &mut S, pieces: &[&[u8]]) -> Result<(), WriteFault>
    ensures wrote { Wrote S.writing S.beside_writes sink.old sink.new
        (flat_map (λ piece. piece.now) pieces.now) result }
{
    for piece in pieces {
        put_all(sink, piece)?;
    }
    Ok(())
}

/// A sink in memory, which tells its octets.
#[derive(Drop)]
pub struct MemSink {
    octets: Vec<u8>,
    room: usize,
    calls: Calls,
    faults: u64,
    ghost has_room: { room ≤ vec_capacity octets },
    ghost within: { length octets.items ≤ room },
}

impl MemSink {
    ghost use Rattle.eb_io.specs.MemSink.{writing_of, plan_of, room_of};

    /// Takes memory for `room` octets, which no write takes later. A write takes at most `most` octets. The calls
    /// whose numbers, from 0, are in `fails` fail, and those that find no room left. The number of a call stays at
    /// `2^64 - 1`.
    pub fn new(
        alloc: Global,
        room: usize,
        most: usize,
        fails: Vec<u64>,
    ) -> Result<MemSink, NoMemory>
        requires some { 0 < most }
        ensures tells { IfOk result (λ sink. writing_of sink ≡ record { written = Octets []; faults = 0 }) }
        ensures plan { IfOk result (λ sink. plan_of sink ≡ record { most = most; fails = fails.items; next = 0 }) }
        ensures room { IfOk result (λ sink. room_of sink ≡ room) }
    {
        let octets = Vec::with_capacity(alloc, room)?;
        Ok(MemSink {
            octets,
            room,
            calls: Calls::new(most, fails),
            faults: 0,
        })
    }

    /// What was written so far.
    pub fn octets(&self) -> &[u8]
        ensures written { (writing_of self.now).written ≡ Octets result.now }
    {
        &self.octets
    }
}

impl Sink for MemSink {
    ghost use Rattle.eb_io.specs.Plan.{after_call};
    ghost use Rattle.eb_io.specs.MemSink.{writing_of, plan_of, room_of, room_left, WillFail};

    ghost writing = { writing_of };

    /// Takes as many octets as the piece has, a call may take and there is room for. It fails exactly the calls that
    /// it was made to fail and those that find no room left.
    fn write(&mut self, piece: &[u8]) -> Put
        requires some_piece { 0 < length piece.now }
        ensures writes { Writes (writing_of self.old) (writing_of self.new) piece.now result }
        ensures fails { (result ≡ Put.Failed) ↔ WillFail self.old }
        ensures calls { plan_of self.new ≡ after_call (plan_of self.old) }
        ensures room { room_of self.new ≡ room_of self.old }
        ensures most { (n : ℕ) → result ≡ Put.Some n →
            n ≡ min (min (length piece.now) (plan_of self.old).most) (room_left self.old) }
    {
        let fails = self.calls.count();
        let count = piece
            .len()
            .min(self.calls.most())
            .min(self.room - self.octets.len());
        if fails || count == 0 {
            self.faults = self.faults.saturating_add(1);
            return Put::Failed;
        }
        match self.octets.extend_from_slice(&piece[..count]) {
            Ok(()) => Put::Some(count),
            Err(_) => unreachable!(),
        }
    }
}
