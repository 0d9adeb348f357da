//! A reply in digits.
ghost use Rattle.std.specs.Prelude.{◌≡◌, ◌≤◌, length};
ghost use Rattle.eb_io.specs.Text.{hex_text, line};
ghost use Rattle.eb_io.specs.Page.{Paged};
ghost use Rattle.eb_replay.specs.Digits.{reply_text};

use eb_io::{Line, Page, Sink, WriteFault};

// How many octets are made digits at once.
const PIECE: usize = 64;

fn digits(octets: &[u8]) -> Line<128>
    requires few { length octets.now ≤ 64 }
    ensures value { result ≡ hex_text octets.now }
{
    let mut text = Line::of(b"");
    text.put_hex(octets);
    text
}

// Puts octets in hexadecimal digits.
fn put_digits<K: Sink>(octets: &[u8], page: &mut Page, sink: &mut K) -> Result<(), WriteFault>
    ensures paged { Paged K.writing K.beside_writes sink.old sink.new page.old page.new (hex_text octets.now) result }
{
    let mut rest = octets;
    'pieces: while !rest.is_empty() {
        let count = rest.len().min(PIECE);
        page.put(digits(&rest[..count]).as_slice(), sink)?;
        rest = &rest[count..];
    }
    Ok(())
}

fn put_octets<K: Sink>(reply: &[u8], page: &mut Page, sink: &mut K) -> Result<(), WriteFault>
    ensures paged { Paged K.writing K.beside_writes sink.old sink.new page.old page.new (reply_text reply.now) result }
{
    if reply.is_empty() {
        return page.put(b"-", sink);
    }
    put_digits(reply, page, sink)
}

/// Puts a reply in hexadecimal digits, or `-` where it has no octets, and the end of the line.
pub(crate) fn put_reply<K: Sink>(
    reply: &[u8],
    page: &mut Page,
    sink: &mut K,
) -> Result<(), WriteFault>
    ensures paged { Paged K.writing K.beside_writes sink.old sink.new page.old page.new
        (line (reply_text reply.now)) result }
{
    put_octets(reply, page, sink)?;
    page.put(b"\n", sink)
}
