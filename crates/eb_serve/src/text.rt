//! The text of served ports.
ghost use Rattle.std.specs.Prelude.{◌≡◌, ◌≤◌, length};
ghost use Rattle.eb_io.specs.Writing.{Wrote};
ghost use Rattle.eb_io.specs.Page.{Paged};
ghost use Rattle.eb_serve.specs.Text.{connection_line, connection_lines, door_line, fault_lines, port_text, ports_text, serve_text};

use crate::served::ServedPorts;
use eb_io::{Line, Page, Sink, WriteFault};
use eb_ports::Ends;
use eb_replay::end_text;
use eb_server::Ending;

// A connection of a port, and how it ended.
fn connection_line(port: u64, connection: u64, ending: Ending) -> Line<128>
    ensures value { result ≡ connection_line port connection ending }
{
    let mut text = Line::of(b"port ");
    text.put_decimal(port);
    text.put(b" connection ");
    text.put_decimal(connection);
    text.put(b" ");
    text.put(end_text(ending).as_slice());
    text.put(b"\n");
    text
}

// A port whose door failed.
fn door_line(port: u64) -> Line<64>
    ensures value { result ≡ door_line port }
{
    let mut text = Line::of(b"port ");
    text.put_decimal(port);
    text.put(b" door fault\n");
    text
}

fn put_connections<K: Sink>(
    port: u64,
    ends: &Ends,
    page: &mut Page,
    sink: &mut K,
) -> Result<(), WriteFault>
    ensures paged { Paged K.writing K.beside_writes sink.old sink.new page.old page.new
        (connection_lines port 0 ends.now.endings) result }
{
    for i in 0..ends.count() {
        let line = connection_line(port, u64::from(i), ends.ending(i));
        page.put(line.as_slice(), sink)?;
    }
    Ok(())
}

fn put_fault<K: Sink>(
    port: u64,
    failed: bool,
    page: &mut Page,
    sink: &mut K,
) -> Result<(), WriteFault>
    ensures paged { Paged K.writing K.beside_writes sink.old sink.new page.old page.new
        (fault_lines port failed) result }
{
    if failed {
        return page.put(door_line(port).as_slice(), sink);
    }
    Ok(())
}

fn put_port<K: Sink>(
    port: u64,
    ends: &Ends,
    page: &mut Page,
    sink: &mut K,
) -> Result<(), WriteFault>
    ensures paged { Paged K.writing K.beside_writes sink.old sink.new page.old page.new
        (port_text port ends.now) result }
{
    put_connections(port, ends, page, sink)?;
    put_fault(port, ends.door_failed(), page, sink)
}

fn put_ports<K: Sink>(ports: &[Ends], page: &mut Page, sink: &mut K) -> Result<(), WriteFault>
    ensures paged { Paged K.writing K.beside_writes sink.old sink.new page.old page.new
        (ports_text 0 ports.now) result }
{
    let mut number = 0;
    for port in ports {
        put_port(number, port, page, sink)?;
        number += 1;
    }
    Ok(())
}

fn write_ports<K: Sink>(ports: &[Ends], sink: &mut K) -> Result<(), WriteFault>
    ensures wrote { Wrote K.writing K.beside_writes sink.old sink.new (ports_text 0 ports.now) result }
{
    let mut page = Page::new();
    put_ports(ports, &mut page, sink)?;
    page.flush(sink)
}

impl ServedPorts {
    /// Writes the served ports as text: for each port, M being its number from 0, and each of its connections, K being
    /// its number from 0, a line `port M connection K END`, and a line `port M door fault` behind them where an accept
    /// failed; then the journal.
    ///
    /// END is as `end_text` has it. Where a write fails, a front of the text went out. It takes no memory.
    pub fn write<K: Sink>(&self, sink: &mut K) -> Result<(), WriteFault>
        ensures wrote { Wrote K.writing K.beside_writes sink.old sink.new (serve_text self.now) result }
    {
        write_ports(&self.ports, sink)?;
        self.bus.journal().write(sink)
    }
}
