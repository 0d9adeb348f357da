//! The text of a replay.
ghost use Rattle.std.specs.Prelude.{◌≡◌, ◌≤◌, ◌++◌, length};
ghost use Rattle.eb_io.specs.Writing.{Wrote};
ghost use Rattle.eb_io.specs.Page.{Paged};
ghost use Rattle.eb_replay.specs.Text.{first_unclean, port_head, reply_line, reply_lines, replay_text};

use crate::digits::put_reply;
use crate::ends::end_text;
use crate::replayed::{Replayed, ReplayedPort};
use eb_io::{Line, Page, Sink, WriteFault};
use eb_server::Ending;

// A port by its number, and how its stream ended.
fn port_head(number: u64, ending: Ending) -> Line<128>
    ensures value { result ≡ port_head number ending }
{
    let mut text = Line::of(b"port ");
    text.put_decimal(number);
    text.put(b" ");
    text.put(end_text(ending).as_slice());
    text.put(b" ");
    text
}

fn put_port<K: Sink>(
    number: u64,
    port: &ReplayedPort,
    page: &mut Page,
    sink: &mut K,
) -> Result<(), WriteFault>
    ensures paged { Paged K.writing K.beside_writes sink.old sink.new page.old page.new
        (reply_line number port.now) result }
{
    page.put(port_head(number, port.ending).as_slice(), sink)?;
    put_reply(&port.reply, page, sink)
}

fn put_ports<K: Sink>(
    ports: &[ReplayedPort],
    page: &mut Page,
    sink: &mut K,
) -> Result<(), WriteFault>
    ensures paged { Paged K.writing K.beside_writes sink.old sink.new page.old page.new
        (reply_lines 0 ports.now) result }
{
    let mut number = 0;
    for port in ports {
        put_port(number, port, page, sink)?;
        number += 1;
    }
    Ok(())
}

fn write_ports<K: Sink>(ports: &[ReplayedPort], sink: &mut K) -> Result<(), WriteFault>
    ensures wrote { Wrote K.writing K.beside_writes sink.old sink.new (reply_lines 0 ports.now) result }
{
    let mut page = Page::new();
    put_ports(ports, &mut page, sink)?;
    page.flush(sink)
}

impl Replayed {
    /// Writes the replay as text: for each capture, M being its number from 0, a line `port M END REPLY`, and then the
    /// journal.
    ///
    /// END is as `end_text` has it. REPLY are the octets of the reply in hexadecimal digits, in upper case, or `-`
    /// where there are none. Where a write fails, a front of the text went out. It takes no memory.
    pub fn write<K: Sink>(&self, sink: &mut K) -> Result<(), WriteFault>
        ensures wrote { Wrote K.writing K.beside_writes sink.old sink.new (replay_text self.now) result }
    {
        write_ports(&self.ports, sink)?;
        self.bus.journal().write(sink)
    }

    /// How the first stream ended that didn't end clean, by the order of the ports, or `Clean` where all did.
    pub fn first_unclean(&self) -> Ending
        ensures ending { result ≡ first_unclean self.now.ports }
    {
        for port in &self.ports {
            if port.ending != Ending::Clean {
                return port.ending;
            }
        }
        Ending::Clean
    }
}
