// The lines that tell how a client's command ended.
ghost use Rattle.std.specs.Prelude.{◌≡◌, ◌≤◌, length};
ghost use Rattle.eb_io.specs.Text.{line};
ghost use Rattle.eb_io.specs.Writing.{Wrote};
ghost use Rattle.eb_client.specs.ClientLines.{bus_line, client_line, ended_line, record_why_text, reply_line, walk_line, walk_why_text};

use crate::fault::{ClientFault, WalkWhy};
use eb_io::{Line, Sink, WriteFault, put_all, put_each};
use eb_text::write_line;
use sdb_record::{RecordFault, RecordWhy};

// How many octets the peer sent before it ended.
fn ended_line(octets: u64) -> Line<64>
    ensures value { result ≡ ended_line octets }
{
    let mut out = Line::of(b"peer ended after ");
    out.put_decimal(octets);
    out.put(b" octets");
    out.put(b"\n");
    out
}

// Which octet of the peer's replies is refused.
fn reply_line(place: u64) -> Line<64>
    ensures value { result ≡ reply_line place }
{
    let mut out = Line::of(b"peer's reply refused at ");
    out.put_decimal(place);
    out.put(b"\n");
    out
}

// The address at which the bus answered with an error.
fn bus_line(adr: u64) -> Line<64>
    ensures value { result ≡ bus_line adr }
{
    let mut out = Line::of(b"bus error at ");
    out.put_word(adr);
    out.put(b"\n");
    out
}

// What is wrong with the octets of a record.
fn record_why_text(why: RecordWhy) -> &'static [u8]
    ensures text { result.now ≡ record_why_text why }
    ensures short { length result.now ≤ 11 }
{
    match why {
        RecordWhy::UnknownType => b"UnknownType",
        RecordWhy::BadMagic => b"BadMagic",
        RecordWhy::BadCount => b"BadCount",
        RecordWhy::BadVersion => b"BadVersion",
        RecordWhy::BadBus => b"BadBus",
        RecordWhy::BadRange => b"BadRange",
        RecordWhy::BadName => b"BadName",
    }
}

// Why octets are no record, and at which of them.
fn record_text(fault: RecordFault) -> Line<40>
    ensures text { result ≡ walk_why_text (WalkWhy.Record fault) }
    ensures short { length result ≤ 40 }
{
    let mut out = Line::of(b"record ");
    out.put_decimal(u64::from(fault.at));
    out.put(b" ");
    out.put(record_why_text(fault.why));
    out
}

// The rule of a walk that a record breaks.
fn walk_why_text(why: WalkWhy) -> Line<40>
    ensures text { result ≡ walk_why_text why }
    ensures short { length result ≤ 40 }
{
    match why {
        WalkWhy::Record(fault) => record_text(fault),
        WalkWhy::WrongPlace => Line::of(b"wrong place"),
        WalkWhy::TooMany => Line::of(b"too many"),
        WalkWhy::OutsideParent => Line::of(b"outside parent"),
        WalkWhy::TooDeep => Line::of(b"too deep"),
    }
}

// The record that breaks a rule of the walk first, and which.
fn walk_line(at: u64, why: WalkWhy) -> Line<96>
    ensures value { result ≡ walk_line at why }
{
    let mut out = Line::of(b"walk refused at ");
    out.put_word(at);
    out.put(b": ");
    out.put(walk_why_text(why).as_slice());
    out.put(b"\n");
    out
}

// Writes a text and the end of its line.
fn put_line<K: Sink>(text: &[u8], sink: &mut K) -> Result<(), WriteFault>
    ensures wrote { Wrote K.writing K.beside_writes sink.old sink.new (line text.now) result }
{
    put_each(sink, &[text, b"\n"])
}

/// Writes the line on standard error that tells how a client's command ended. Where a write fails, a front of the line
/// went out. It takes no memory.
pub fn write_client_line<K: Sink>(fault: &ClientFault, sink: &mut K) -> Result<(), WriteFault>
    ensures wrote { Wrote K.writing K.beside_writes sink.old sink.new (client_line fault.now) result }
{
    match fault {
        ClientFault::Common(fault) => write_line(fault, sink),
        ClientFault::Door => put_line(b"door fault", sink),
        ClientFault::Ended(octets) => put_all(sink, ended_line(*octets).as_slice()),
        ClientFault::BadReply(place) => put_all(sink, reply_line(*place).as_slice()),
        ClientFault::NoCommonWidth(_) => put_line(b"no common width", sink),
        ClientFault::TooWide(_) => put_line(b"address too wide", sink),
        ClientFault::BusError(adr) => put_all(sink, bus_line(*adr).as_slice()),
        ClientFault::Walk(at, why) => put_all(sink, walk_line(*at, *why).as_slice()),
    }
}
