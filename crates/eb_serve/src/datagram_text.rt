//! The text of served datagrams.
ghost use Rattle.std.specs.Prelude.{◌≡◌};
ghost use Rattle.eb_io.specs.Writing.{Wrote};
ghost use Rattle.eb_io.specs.Page.{Paged};
ghost use Rattle.eb_serve.specs.DatagramText.{datagram_line, datagram_lines, datagrams_text};

use crate::served::ServedDatagrams;
use eb_io::{Line, Page, Sink, WriteFault};
use eb_ports::Ends;
use eb_replay::end_text;
use eb_server::Ending;

// A datagram, and how it ended.
fn datagram_line(number: u64, ending: Ending) -> Line<96>
    ensures value { result ≡ datagram_line number ending }
{
    let mut text = Line::of(b"datagram ");
    text.put_decimal(number);
    text.put(b" ");
    text.put(end_text(ending).as_slice());
    text.put(b"\n");
    text
}

fn put_datagrams<K: Sink>(ends: &Ends, page: &mut Page, sink: &mut K) -> Result<(), WriteFault>
    ensures paged { Paged K.writing K.beside_writes sink.old sink.new page.old page.new
        (datagram_lines 0 ends.now.endings) result }
{
    for i in 0..ends.count() {
        let line = datagram_line(u64::from(i), ends.ending(i));
        page.put(line.as_slice(), sink)?;
    }
    Ok(())
}

fn write_datagrams<K: Sink>(ends: &Ends, sink: &mut K) -> Result<(), WriteFault>
    ensures wrote { Wrote K.writing K.beside_writes sink.old sink.new (datagram_lines 0 ends.now.endings) result }
{
    let mut page = Page::new();
    put_datagrams(ends, &mut page, sink)?;
    page.flush(sink)
}

impl ServedDatagrams {
    /// Writes the served datagrams as text: a line `datagram K END` for each, K being its number from 0; then the
    /// journal.
    ///
    /// END is as `end_text` has it. Where a write fails, a front of the text went out. It takes no memory.
    pub fn write<K: Sink>(&self, sink: &mut K) -> Result<(), WriteFault>
        ensures wrote { Wrote K.writing K.beside_writes sink.old sink.new (datagrams_text self.now) result }
    {
        write_datagrams(&self.ends, sink)?;
        self.bus.journal().write(sink)
    }
}
