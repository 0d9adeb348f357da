//! One word read or written over a link.
ghost use Rattle.std.specs.Prelude.{◌≡◌, ◌≤◌, ◌<◌, ◌^◌, length, IfOk, Result, Ok};
ghost use Rattle.eb_base.specs.declared.width.Width.TheVariants.{W8, W16, W32, W64};
ghost use Rattle.eb_base.specs.Width.{octets};
ghost use Rattle.eb_io.specs.Text.{line, hex_text};
ghost use Rattle.eb_host.specs.declared.op.HostAnswer.{HostAnswer};
ghost use Rattle.eb_host.specs.declared.op.HostFault.{HostFault};
ghost use Rattle.eb_host.specs.Exchange.{duplex};
ghost use Rattle.eb_client.specs.Asking.{AsksOne, FitsWord, ShowsAnswer, answer_ending, read_op, word_line, write_op};

use crate::asking::{host_ending, read_word, write_word};
use crate::fault::ClientFault;
use eb_base::Width;
use eb_host::{HostAnswer, HostFault};
use eb_io::{Line, Link, Sink, WriteFault, put_all};
use eb_text::Fault;
use std::alloc::Global;

// Octets in hexadecimal digits, on a line.
fn hex_line(octets: &[u8]) -> Line<17>
    requires few { length octets.now ≤ 8 }
    ensures value { result ≡ line (hex_text octets.now) }
{
    let mut out = Line::of(b"");
    out.put_hex(octets);
    out.put(b"\n");
    out
}

fn line_of_16(word: u16) -> Line<17>
    ensures value { result ≡ word_line W16 word }
{
    hex_line(&word.to_be_bytes())
}

fn line_of_32(word: u32) -> Line<17>
    ensures value { result ≡ word_line W32 word }
{
    hex_line(&word.to_be_bytes())
}

fn line_of_64(word: u64) -> Line<17>
    ensures value { result ≡ word_line W64 word }
{
    hex_line(&word.to_be_bytes())
}

fn line_of_8(word: u8) -> Line<17>
    ensures value { result ≡ word_line W8 word }
{
    hex_line(&word.to_be_bytes())
}

// A word in hexadecimal digits, on a line.
fn word_line(width: Width, word: u64) -> Line<17>
    requires fits { word < 256 ^ octets width }
    ensures value { result ≡ word_line width word }
{
    match width {
        Width::W8 => line_of_8(word as u8),
        Width::W16 => line_of_16(word as u16),
        Width::W32 => line_of_32(word as u32),
        Width::W64 => line_of_64(word),
    }
}

// Shows the word that was read.
fn show_word<O: Sink>(
    place: u64,
    width: Width,
    answer: HostAnswer,
    out: &mut O,
) -> Result<(), ClientFault>
    requires word { FitsWord width answer }
    ensures shows { ShowsAnswer O.writing O.beside_writes width place (Ok answer) out.old out.new result }
{
    match answer {
        HostAnswer::Done(word) => match put_all(out, word_line(width, word).as_slice()) {
            Ok(()) => Ok(()),
            Err(WriteFault) => Err(ClientFault::Common(Fault::WriteFault)),
        },
        HostAnswer::Error => Err(ClientFault::BusError(place)),
    }
}

// Shows the word of an answer, where there is one.
fn show<O: Sink>(
    place: u64,
    width: Width,
    answer: Result<HostAnswer, HostFault>,
    out: &mut O,
) -> Result<(), ClientFault>
    requires word { IfOk answer (FitsWord width) }
    ensures shows { ShowsAnswer O.writing O.beside_writes width place answer out.old out.new result }
{
    match answer {
        Ok(answer) => show_word(place, width, answer, out),
        Err(fault) => Err(host_ending(fault)),
    }
}

/// Reads a word of this width at a place over a link, and writes its digits to `out`. It hands the link back.
///
/// The host sends the opening and one cycle with one read. Nothing is written to `out` unless the answer is a word.
pub fn read_over<L: Link, O: Sink>(
    alloc: Global,
    link: L,
    place: u64,
    width: Width,
    out: &mut O,
) -> (L, Result<(), ClientFault>)
    ensures reads { (answer : Result HostAnswer HostFault)
        × AsksOne width (read_op place) (duplex (L.reading link) (L.writing link))
        (duplex (L.reading result.0) (L.writing result.0)) answer
        × ShowsAnswer O.writing O.beside_writes width place answer out.old out.new result.1 }
{
    let (link, answer) = read_word(alloc, link, place, width);
    (link, show(place, width, answer, out))
}

// How a write ends by its answer.
fn answer_ending(place: u64, answer: Result<HostAnswer, HostFault>) -> Result<(), ClientFault>
    ensures ending { result ≡ answer_ending place answer }
{
    match answer {
        Ok(HostAnswer::Done(_)) => Ok(()),
        Ok(HostAnswer::Error) => Err(ClientFault::BusError(place)),
        Err(fault) => Err(host_ending(fault)),
    }
}

/// Writes a word of this width to a place over a link. It hands the link back.
///
/// The host sends the opening and one cycle with one write.
pub fn write_over<L: Link>(
    alloc: Global,
    link: L,
    place: u64,
    width: Width,
    value: u64,
) -> (L, Result<(), ClientFault>)
    requires fits { value < 256 ^ octets width }
    ensures writes { (answer : Result HostAnswer HostFault)
        × AsksOne width (write_op place value) (duplex (L.reading link) (L.writing link))
        (duplex (L.reading result.0) (L.writing result.0)) answer
        × (result.1 ≡ answer_ending place answer) }
{
    let (link, answer) = write_word(alloc, link, place, width, value);
    (link, answer_ending(place, answer))
}
