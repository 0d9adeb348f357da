//! The host: it opens a link, runs cycles, and keeps its first fault.

ghost use Rattle.std.specs.Prelude.{◌≡◌, ◌<◌, ◌≤◌, ◌^◌, [], length, All, nat_lt, vec_capacity, ◌∷◌, ◌/◌, IfOk, MatchResult, Ok, true, false};
ghost use Rattle.eb_base.specs.declared.width.Width.{Width};
ghost use Rattle.eb_base.specs.Width.{octets, bit, AreSets};
ghost use Rattle.eb_codec.specs.Form.{Fills};
ghost use Rattle.eb_host.specs.Asks.{FitsOp, asks, expects, closing, cycle_records};
ghost use Rattle.eb_host.specs.Answers.{answered, joined, FitsPort};
ghost use Rattle.eb_host.specs.Exchange.{duplex};
ghost use Rattle.eb_host.specs.Host.{too_wide as too_wide_in, header as header_with, Sends, Calls, CallFails, RunsCycle, CallsCycle, ReadsRoot, root_in, given, alone};
ghost use Rattle.eb_host.specs.Opening.{Opened, NotOpened};
ghost use Rattle.eb_host.specs.View.{link_of, sent_header, host_state};

use crate::link::HostLink;
use crate::op::{HostAnswer, HostFault, HostOp};
use crate::replies::{answer, closing_at, joined_at, next_at, op_word, put_answers};
use crate::rooms::HostRooms;
use eb_base::{NoMemory, Width, Widths};
use eb_codec::Header;
use eb_codec::sizes::unit_len;
use std::alloc::Global;

/// The host at one end of a link, which a slave of Etherbone 1.0 serves at the other.
///
/// Contracts see it as a `HostState`: what its link tells, the header that it sent, how many octets it read, and the
/// fault that it keeps. The rooms for a call are taken when it is opened.
#[derive(Drop)]
pub struct Host<L> {
    link: L,
    address: Width,
    port: Width,
    read: u64,
    fault: Option<HostFault>,
    rooms: HostRooms,
}

// Whether an address has no more bits than the width.
fn is_narrow(width: Width, adr: u64) -> bool
    ensures { result ≡ nat_lt adr (256 ^ octets width) }
{
    match width {
        Width::W8 => adr < 0x100,
        Width::W16 => adr < 0x1_0000,
        Width::W32 => adr < 0x1_0000_0000,
        Width::W64 => true,
    }
}

// The first address that is too wide.
fn too_wide(header: Header, ops: &[HostOp]) -> Option<u64>
    ensures { result ≡ too_wide_in header ops.now }
{
    for i in 0..ops.len() {
        if !is_narrow(header.address, ops[i].adr) {
            return Some(ops[i].adr);
        }
    }
    None
}

impl<L: HostLink> Host<L> {
    /// Opens a link: it asks the slave for its widths by a probe with these sets of width bits, chooses the greatest
    /// width of addresses and the greatest width of the port that both have, sends the header, and reads its answer.
    ///
    /// Neither set is empty. Where one width of the port is asked for, it is the one chosen. `NoCommonWidth` comes
    /// exactly where a set of the slave's answer has no width in common, and then no header was sent. After a fault
    /// the link is handed back. `NoMemory` comes before anything is sent.
    pub fn open(alloc: Global, link: L, widths: Widths) -> Result<Host<L>, (L, HostFault)>
        requires sets { AreSets widths }
        requires some_addresses { 0 < widths.addresses }
        requires some_ports { 0 < widths.ports }
        ensures opens { MatchResult result
            (λ host. Opened widths (duplex (L.reading link) (L.writing link)) (host_state L.reading L.writing host))
            (λ e. NotOpened widths (duplex (L.reading link) (L.writing link))
            (duplex (L.reading e.0) (L.writing e.0)) e.1) }
        ensures only_port { IfOk result (λ host. (w : Width) → widths.ports ≡ bit w →
            (sent_header host).port ≡ w) }
        ensures other_end { MatchResult result (λ host. L.other_end (link_of host) ≡ L.other_end link)
            (λ e. L.other_end e.0 ≡ L.other_end link) }
    {
        let mut rooms = match HostRooms::new(alloc) {
            Ok(rooms) => rooms,
            Err(NoMemory) => return Err((link, HostFault::NoMemory)),
        };
        let mut link = link;
        match rooms.shake(&mut link, widths) {
            Ok(header) => Ok(Host {
                link,
                address: header.address,
                port: header.port,
                read: 8 + unit_len(header) as u64,
                fault: None,
                rooms,
            }),
            Err(fault) => Err((link, fault)),
        }
    }

    /// The widths that were chosen, as width bits.
    pub fn widths(&self) -> Widths
        ensures widths { result ≡ record {
          addresses = bit (sent_header self.now).address;
          ports = bit (sent_header self.now).port;
        } }
    {
        Widths {
            addresses: self.address.bit(),
            ports: self.port.bit(),
        }
    }

    // The header that was sent.
    fn header(&self) -> Header
        ensures { result ≡ sent_header self.now }
    {
        Header {
            no_reply: false,
            address: self.address,
            port: self.port,
        }
    }

    // Sends what stands in the rooms, reads what is expected, and keeps a fault.
    fn send(&mut self) -> Result<(), HostFault>
        ensures sends { Sends self.old.rooms.asks.items self.old.rooms.expected.items
            (host_state L.reading L.writing self.old) (host_state L.reading L.writing self.new)
            self.new.rooms.heard.items result }
        ensures header { sent_header self.new ≡ sent_header self.old }
        ensures other_end { L.other_end (link_of self.new) ≡ L.other_end (link_of self.old) }
    {
        match self.rooms.exchange(&mut self.link, self.read) {
            Ok(()) => {
                self.read = self.read.saturating_add(self.rooms.heard().len() as u64);
                Ok(())
            }
            Err(fault) => {
                self.fault = Some(fault);
                Err(fault)
            }
        }
    }

    // Sends a cycle whose addresses have the address width, and reads its replies.
    fn ask_cycle(&mut self, ops: &[HostOp]) -> Result<(), HostFault>
        requires most { length ops.now ≤ 64 }
        requires fit { All (FitsOp (sent_header self.old)) ops.now }
        ensures sends { MatchResult result
            (λ _. Sends (asks (sent_header self.old) (cycle_records (sent_header self.old) ops.now))
            (expects (sent_header self.old) (cycle_records (sent_header self.old) ops.now))
            (host_state L.reading L.writing self.old) (host_state L.reading L.writing self.new)
            self.new.rooms.heard.items (Ok tt))
            (λ f. CallFails (cycle_records (sent_header self.old) ops.now) (host_state L.reading L.writing self.old)
            (host_state L.reading L.writing self.new) f) }
        ensures header { sent_header self.new ≡ sent_header self.old }
        ensures other_end { L.other_end (link_of self.new) ≡ L.other_end (link_of self.old) }
    {
        let header = self.header();
        self.rooms.put_cycle(header, ops);
        match self.send() {
            Ok(()) => Ok(()),
            Err(fault) => Err(fault),
        }
    }

    /// Runs 1 to 64 operations as one cycle, and answers each: the word that was read, 0 for a write, or an error of
    /// the bus (ERR or RTY).
    ///
    /// The data have the port's width. A fault of the link or of a reply is kept, and answered from then on, without
    /// anything being sent. `TooWide` comes exactly where no fault is kept and an address is wider than the address
    /// width, with the first such address. `NoMemory` comes where there is none for the list of answers. Both come
    /// before anything is sent, and aren't kept.
    pub fn cycle(&mut self, alloc: Global, ops: &[HostOp]) -> Result<Vec<HostAnswer>, HostFault>
        requires least { 0 < length ops.now }
        requires most { length ops.now ≤ 64 }
        requires fit { All (λ op. op.dat < 256 ^ octets (sent_header self.old).port) ops.now }
        ensures cycle { CallsCycle (host_state L.reading L.writing self.old) (host_state L.reading L.writing self.new)
            ops.now (given result) }
        ensures count { IfOk result (λ answers. length answers.items ≡ length ops.now) }
        ensures words { IfOk result (λ answers. All (FitsPort (sent_header self.old)) answers.items) }
        ensures header { sent_header self.new ≡ sent_header self.old }
        ensures other_end { L.other_end (link_of self.new) ≡ L.other_end (link_of self.old) }
    {
        if let Some(fault) = self.fault {
            return Err(fault);
        }
        if let Some(adr) = too_wide(self.header(), ops) {
            return Err(HostFault::TooWide(adr));
        }
        let mut answers = match Vec::with_capacity(alloc, ops.len()) {
            Ok(answers) => answers,
            Err(_) => return Err(HostFault::NoMemory),
        };
        match self.ask_cycle(ops) {
            Ok(()) => {}
            Err(fault) => return Err(fault),
        }
        take_answers(self.header(), ops, self.rooms.heard(), &mut answers);
        Ok(answers)
    }

    // A cycle of one operation.
    fn one(&mut self, op: HostOp) -> Result<HostAnswer, HostFault>
        requires fit { op.dat < 256 ^ octets (sent_header self.old).port }
        ensures cycle { RunsCycle (host_state L.reading L.writing self.old) (host_state L.reading L.writing self.new)
            (op ∷ []) (alone result) }
        ensures word { IfOk result (FitsPort (sent_header self.old)) }
        ensures header { sent_header self.new ≡ sent_header self.old }
        ensures other_end { L.other_end (link_of self.new) ≡ L.other_end (link_of self.old) }
    {
        if let Some(fault) = self.fault {
            return Err(fault);
        }
        let ops = [op];
        if let Some(adr) = too_wide(self.header(), &ops) {
            return Err(HostFault::TooWide(adr));
        }
        match self.ask_cycle(&ops) {
            Ok(()) => Ok(take_answer(self.header(), op, self.rooms.heard())),
            Err(fault) => Err(fault),
        }
    }

    /// Reads the word at an address, as a cycle of its own. Faults are those of `cycle`,
    /// but for `NoMemory`.
    pub fn read(&mut self, adr: u64) -> Result<HostAnswer, HostFault>
        ensures cycle { RunsCycle (host_state L.reading L.writing self.old) (host_state L.reading L.writing self.new)
            (record { write = false; adr = adr; dat = 0 } ∷ []) (alone result) }
        ensures word { IfOk result (FitsPort (sent_header self.old)) }
        ensures header { sent_header self.new ≡ sent_header self.old }
        ensures other_end { L.other_end (link_of self.new) ≡ L.other_end (link_of self.old) }
    {
        self.one(HostOp {
            write: false,
            adr,
            dat: 0,
        })
    }

    /// Writes a word of the port's width to an address, as a cycle of its own. Faults are those of `cycle`,
    /// but for `NoMemory`.
    pub fn write(&mut self, adr: u64, dat: u64) -> Result<HostAnswer, HostFault>
        requires fit { dat < 256 ^ octets (sent_header self.old).port }
        ensures cycle { RunsCycle (host_state L.reading L.writing self.old) (host_state L.reading L.writing self.new)
            (record { write = true; adr = adr; dat = dat } ∷ []) (alone result) }
        ensures word { IfOk result (FitsPort (sent_header self.old)) }
        ensures header { sent_header self.new ≡ sent_header self.old }
        ensures other_end { L.other_end (link_of self.new) ≡ L.other_end (link_of self.old) }
    {
        self.one(HostOp {
            write: true,
            adr,
            dat,
        })
    }

    /// The address of the table of the root bus, from the slave's configuration space. Faults are those of `cycle`,
    /// but for `TooWide` and `NoMemory`.
    pub fn root(&mut self) -> Result<u64, HostFault>
        ensures root { ReadsRoot (host_state L.reading L.writing self.old) (host_state L.reading L.writing self.new)
            result }
        ensures header { sent_header self.new ≡ sent_header self.old }
        ensures other_end { L.other_end (link_of self.new) ≡ L.other_end (link_of self.old) }
    {
        if let Some(fault) = self.fault {
            return Err(fault);
        }
        self.ask_root()
    }

    // The same where no fault is kept.
    fn ask_root(&mut self) -> Result<u64, HostFault>
        ensures calls { Calls (closing (sent_header self.old) 8 ∷ []) (root_in (sent_header self.old))
            (host_state L.reading L.writing self.old) (host_state L.reading L.writing self.new) result }
        ensures header { sent_header self.new ≡ sent_header self.old }
        ensures other_end { L.other_end (link_of self.new) ≡ L.other_end (link_of self.old) }
    {
        let header = self.header();
        self.rooms.put_closing(header, 8);
        match self.send() {
            Ok(()) => Ok(take_root(header, self.rooms.heard())),
            Err(fault) => Err(fault),
        }
    }

    /// Gives the link back, as the last call left it.
    pub fn into_link(self) -> L
        ensures link { result ≡ link_of self }
    {
        self.link
    }
}

// The number in the reply to the record that reads 8 octets.
fn take_root(header: Header, heard: &[u8]) -> u64
    requires fills { Fills heard.now (expects header (closing header 8 ∷ [])) }
    ensures { result ≡ joined header heard.now 0 (8 / octets header.port) }
{
    joined_at(header, heard, 0)
}

// The answer of a cycle of one operation from its replies.
fn take_answer(header: Header, op: HostOp, heard: &[u8]) -> HostAnswer
    requires fills { Fills heard.now (expects header (cycle_records header (op ∷ []))) }
    ensures same { result ∷ [] ≡ answered header (op ∷ []) heard.now }
    ensures fits { FitsPort header result }
{
    let errors = joined_at(header, heard, next_at(header, 0, op));
    answer(header, errors, 0, op_word(header, heard, 0, op))
}

// The answers of a cycle from its replies.
fn take_answers(header: Header, ops: &[HostOp], heard: &[u8], answers: &mut Vec<HostAnswer>)
    requires most { length ops.now ≤ 64 }
    requires fills { Fills heard.now (expects header (cycle_records header ops.now)) }
    requires empty { answers.old.items ≡ [] }
    requires room { length ops.now ≤ vec_capacity answers.old }
    ensures same { answers.new.items ≡ answered header ops.now heard.now }
    ensures count { length answers.new.items ≡ length ops.now }
    ensures fit { All (FitsPort header) answers.new.items }
{
    let errors = joined_at(header, heard, closing_at(header, ops));
    put_answers(header, ops, heard, errors, answers);
}
