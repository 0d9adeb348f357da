//! The rooms of a host, in which stand what a call asks, what it expects, and what it hears.

ghost use Rattle.std.specs.Prelude.{◌≡◌, ◌≤◌, ◌∷◌, [], length, All, MatchResult, vec_capacity};
ghost use Rattle.eb_base.specs.Width.{AreSets};
ghost use Rattle.eb_host.specs.Asks.{FitsOp, asks as asks_for, expects, closing, cycle_records};
ghost use Rattle.eb_host.specs.Exchange.{Exchanges, duplex};
ghost use Rattle.eb_host.specs.Host.{header as header_with};
ghost use Rattle.eb_host.specs.Opening.{Shaken, Fails};

use crate::asks::{put_alone, put_cycle};
use crate::exchange::exchange;
use crate::expected::{expect_alone, expect_cycle};
use crate::link::HostLink;
use crate::op::{HostFault, HostOp};
use crate::opening::shake;
use eb_base::{NoMemory, Widths};
use eb_codec::Header;
use std::alloc::Global;

// The most octets of a request and of its replies, both those of 64 operations: a record of 24 octets for each, and
// one of 80 that ends the cycle. A head, a base and a word have 8 octets each where addresses or words have 64 bits,
// and the last record has 8 words where the port has 8 bits.
const MOST: usize = 64 * 24 + 80;

/// Rooms for the longest request and for its replies, which are taken once.
#[derive(Drop)]
pub struct HostRooms {
    asks: Vec<u8>,
    expected: Vec<Option<u8>>,
    heard: Vec<u8>,
    ghost room_to_ask: { 1616 ≤ vec_capacity asks },
    ghost room_to_expect: { 1616 ≤ vec_capacity expected },
    ghost room_to_hear: { 1616 ≤ vec_capacity heard },
    ghost short: { length expected.items ≤ 1616 },
}

impl HostRooms {
    // Rooms in which nothing stands.
    pub fn new(alloc: Global) -> Result<HostRooms, NoMemory> {
        Ok(HostRooms {
            asks: Vec::with_capacity(alloc, MOST)?,
            expected: Vec::with_capacity(alloc, MOST)?,
            heard: Vec::with_capacity(alloc, MOST)?,
        })
    }

    // Opens a link: the header with the widths that were chosen.
    pub fn shake<L: HostLink>(&mut self, link: &mut L, widths: Widths) -> Result<Header, HostFault>
        requires sets { AreSets widths }
        ensures shakes { MatchResult result
            (λ h. (h ≡ header_with h.address h.port) × Shaken widths (duplex (L.reading link.old) (L.writing link.old))
            (duplex (L.reading link.new) (L.writing link.new)) h)
            (λ f. Fails widths (duplex (L.reading link.old) (L.writing link.old))
            (duplex (L.reading link.new) (L.writing link.new)) f) }
        ensures other_end { L.other_end link.new ≡ L.other_end link.old }
    {
        shake(link, widths, &mut self.heard)
    }

    // What a cycle asks and expects.
    pub fn put_cycle(&mut self, header: Header, ops: &[HostOp])
        requires few { length ops.now ≤ 64 }
        requires fit { All (FitsOp header) ops.now }
        ensures asks { self.new.asks.items ≡ asks_for header (cycle_records header ops.now) }
        ensures expected { self.new.expected.items ≡ expects header (cycle_records header ops.now) }
    {
        put_cycle(&mut self.asks, header, ops);
        expect_cycle(&mut self.expected, header, ops);
    }

    // What a read of 8 octets of configuration space from an address on asks and expects.
    pub fn put_closing(&mut self, header: Header, at: u64)
        requires low { at ≤ 8 }
        ensures asks { self.new.asks.items ≡ asks_for header (closing header at ∷ []) }
        ensures expected { self.new.expected.items ≡ expects header (closing header at ∷ []) }
    {
        put_alone(&mut self.asks, header, at);
        expect_alone(&mut self.expected, header, at);
    }

    // Sends what is asked, and reads what is expected.
    pub fn exchange<L: HostLink>(&mut self, link: &mut L, read: u64) -> Result<(), HostFault>
        ensures exchanges { Exchanges (duplex (L.reading link.old) (L.writing link.old))
            (duplex (L.reading link.new) (L.writing link.new)) self.old.asks.items self.old.expected.items read
            self.new.heard.items result }
        ensures other_end { L.other_end link.new ≡ L.other_end link.old }
    {
        exchange(link, &self.asks, &self.expected, &mut self.heard, read)
    }

    // What was heard.
    pub fn heard(&self) -> &[u8]
        ensures heard { result.now ≡ self.now.heard.items }
    {
        &self.heard
    }
}
