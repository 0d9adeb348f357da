//! A post in memory.

ghost use Rattle.std.specs.Prelude.{◌≡◌, ◌≤◌, [], Some, IfOk, All, length, sum, vec_capacity};
ghost use Rattle.eb_net.specs.Posting.{most_of_datagram};

use crate::counts::Counts;
use crate::post::Post;
use crate::tries::Tries;
use eb_base::{NoMemory, Octets};
use eb_io::{Got, Put};
use std::alloc::Global;

/// A post in memory, which tells its datagrams.
#[derive(Drop)]
pub struct MemPost {
    datagrams: Vec<Octets>,
    // Of each datagram received, the counts of failed receives and sends then.
    counts: Vec<Counts>,
    // What was sent, one datagram behind the other, and their lengths.
    octets: Vec<u8>,
    lengths: Vec<usize>,
    most_sends: usize,
    room: usize,
    receives: Tries,
    sends: Tries,
    read_faults: u64,
    write_faults: u64,
    ghost received: { length counts.items ≤ length datagrams.items },
    ghost room_for_counts: { length datagrams.items ≤ vec_capacity counts },
    ghost short: { All (λ octets. length octets ≤ most_of_datagram) datagrams.items },
    ghost parted: { sum lengths.items ≡ length octets.items },
    ghost room_for_octets: { room ≤ vec_capacity octets },
    ghost room_for_lengths: { most_sends ≤ vec_capacity lengths },
    ghost within_room: { length octets.items ≤ room },
    ghost within_sends: { length lengths.items ≤ most_sends },
}

impl MemPost {
    ghost use Rattle.eb_net.specs.MemPost.{mem_posting, receives_of, sends_of, sends_left, send_room};

    /// Gives these datagrams, of at most 65,507 octets each, in order. It has room for `sends` sent datagrams of
    /// together `room` octets. The receives and the sends whose numbers, from 0, are in the lists fail, and a send that
    /// finds no room left.
    ///
    /// Takes the memory that receives and sends need, so that these take none.
    pub fn new(
        alloc: Global,
        datagrams: Vec<Octets>,
        receive_fails: Vec<u64>,
        sends: u32,
        room: usize,
        send_fails: Vec<u64>,
    ) -> Result<MemPost, NoMemory>
        requires short { All (λ octets. length octets ≤ most_of_datagram) datagrams.items }
        ensures tells { IfOk result (λ post. mem_posting post ≡ record {
          received = Some [];
          left = Some datagrams.items;
          sent = Some [];
          faults = record { reads = 0; writes = 0 };
        }) }
        ensures receives { IfOk result (λ post. receives_of post ≡ record
            { most = 1; fails = receive_fails.items; next = 0 }) }
        ensures sends { IfOk result (λ post. sends_of post ≡ record { most = 1; fails = send_fails.items; next = 0 }) }
        ensures room { IfOk result (λ post. (sends_left post ≡ sends) × (send_room post ≡ room)) }
    {
        let most_sends = sends as usize;
        let counts = Vec::with_capacity(alloc, datagrams.len())?;
        let octets = Vec::with_capacity(alloc, room)?;
        let lengths = Vec::with_capacity(alloc, most_sends)?;
        Ok(MemPost {
            datagrams,
            counts,
            octets,
            lengths,
            most_sends,
            room,
            receives: Tries::new(receive_fails),
            sends: Tries::new(send_fails),
            read_faults: 0,
            write_faults: 0,
        })
    }
}

impl Post for MemPost {
    ghost use Rattle.std.specs.Prelude.{◌↔◌, ◌-◌};
    ghost use Rattle.eb_io.specs.Plan.{FailsNow, after_call};
    ghost use Rattle.eb_net.specs.Posting.{Receives, Sends};
    ghost use Rattle.eb_net.specs.MemPost.{mem_posting, receives_of, sends_of, sends_left, send_room, SendWillFail};

    ghost posting = { mem_posting };

    /// It fails exactly the receives that it was made to fail.
    fn receive(&mut self, room: &mut [u8]) -> Got
        requires room { length room.old ≡ most_of_datagram }
        ensures receives { Receives (mem_posting self.old) (mem_posting self.new) room.new result }
        ensures fails { (result ≡ Got.Failed) ↔ FailsNow (receives_of self.old) }
        ensures plan { receives_of self.new ≡ after_call (receives_of self.old) }
    {
        if self.receives.count() {
            self.read_faults = self.read_faults.saturating_add(1);
            return Got::Failed;
        }
        let at = self.counts.len();
        if at == self.datagrams.len() {
            return Got::End;
        }
        let octets = self.datagrams[at].as_slice();
        let count = octets.len();
        room[..count].copy_from_slice(octets);
        self.counts.push_reserved(Counts {
            reads: self.read_faults,
            writes: self.write_faults,
        });
        Got::Some(count)
    }

    /// It fails exactly the sends that it was made to fail and those that find no room left.
    fn send(&mut self, piece: &[u8]) -> Put
        ensures sends { Sends (mem_posting self.old) (mem_posting self.new) piece.now result }
        ensures fails { (result ≡ Put.Failed) ↔ SendWillFail self.old (length piece.now) }
        ensures plan { sends_of self.new ≡ after_call (sends_of self.old) }
    {
        let fails = self.sends.count();
        if fails
            || self.lengths.len() == self.most_sends
            || piece.len() > self.room - self.octets.len()
        {
            self.write_faults = self.write_faults.saturating_add(1);
            return Put::Failed;
        }
        match self.octets.extend_from_slice(piece) {
            Ok(()) => {}
            Err(_) => unreachable!(),
        }
        self.lengths.push_reserved(piece.len());
        Put::Some(piece.len())
    }
}
