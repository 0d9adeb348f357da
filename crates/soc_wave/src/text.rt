//! The text of a wave, line by line.
ghost use Rattle.std.specs.Prelude.{◌≡◌, ◌≤◌, ◌++◌, ◌+◌, ◌*◌, codes, decimal, length, take};
ghost use Rattle.eb_io.specs.Writing.{Wrote};
ghost use Rattle.eb_io.specs.Page.{Paged};
ghost use Rattle.soc_wave.specs.Text.{bit_text, word_text, holder_line, holder_text, holder_texts, port_line, port_lines, row_text, rows_text, wave_text};

use crate::view::RowView;
use crate::wave::Wave;
use eb_io::{Line, Page, Sink, WriteFault};
use wb_signals::PortRow;

fn bit_text(bit: bool) -> &'static [u8]
    ensures value { result.now ≡ bit_text bit }
    ensures short { length result.now ≤ 2 }
{
    if bit { b" 1" } else { b" 0" }
}

/// Adds a truth value.
fn put_bit(line: &mut Line<128>, bit: bool)
    requires room { length line.old + 2 ≤ 128 }
    ensures added { line.new ≡ line.old ++ bit_text bit }
    ensures len { length line.new ≤ length line.old + 2 }
{
    line.put(bit_text(bit));
}

/// Adds a number in 16 digits.
fn put_number(line: &mut Line<128>, n: u64)
    requires room { length line.old + 17 ≤ 128 }
    ensures added { line.new ≡ line.old ++ word_text n }
    ensures len { length line.new ≤ length line.old + 17 }
{
    line.put(b" ");
    line.put_word(n);
}

fn port_line(clock: usize, m: usize, port: &PortRow) -> Line<128>
    ensures value { result ≡ port_line clock m port.now }
{
    let mut line = Line::of(b"");
    line.put_decimal(clock as u64);
    line.put(b" ");
    line.put_decimal(m as u64);
    put_bit(&mut line, port.cyc);
    put_bit(&mut line, port.stb);
    put_bit(&mut line, port.we);
    put_bit(&mut line, port.stall);
    put_number(&mut line, port.adr);
    line.put(b" ");
    line.put_hex(&[port.sel]);
    put_number(&mut line, port.dat);
    put_bit(&mut line, port.ack);
    put_bit(&mut line, port.err);
    put_bit(&mut line, port.rty);
    put_number(&mut line, port.read);
    line.put(b"\n");
    line
}

fn put_holder(line: &mut Line<4096>, holder: Option<u8>)
    requires room { length line.old + 22 ≤ 4096 }
    ensures added { line.new ≡ line.old ++ holder_text holder }
    ensures len { length line.new ≤ length line.old + 22 }
{
    match holder {
        None => line.put(b" -"),
        Some(m) => {
            line.put(b" ");
            line.put_decimal(u64::from(m));
        }
    }
}

fn holder_line(clock: usize, holders: &[Option<u8>]) -> Line<4096>
    requires few { length holders.now ≤ 128 }
    ensures value { result ≡ holder_line clock holders.now }
{
    let mut line = Line::of(b"");
    line.put_decimal(clock as u64);
    line.put(b" h");
    for holder in holders {
        put_holder(&mut line, *holder);
    }
    line.put(b"\n");
    line
}

fn put_ports<S: Sink>(
    clock: usize,
    ports: &[PortRow],
    page: &mut Page,
    sink: &mut S,
) -> Result<(), WriteFault>
    ensures paged { Paged S.writing S.beside_writes sink.old sink.new page.old page.new
        (port_lines clock 0 ports.now) result }
{
    for m in 0..ports.len() {
        page.put(port_line(clock, m, &ports[m]).as_slice(), sink)?;
    }
    Ok(())
}

fn put_row<S: Sink>(
    clock: usize,
    row: &RowView<'_>,
    page: &mut Page,
    sink: &mut S,
) -> Result<(), WriteFault>
    requires few { length row.now.holders ≤ 128 }
    ensures paged { Paged S.writing S.beside_writes sink.old sink.new page.old page.new
        (row_text clock row.now) result }
{
    put_ports(clock, row.ports(), page, sink)?;
    page.put(holder_line(clock, row.holders()).as_slice(), sink)
}

fn put_rows<S: Sink>(wave: &Wave, page: &mut Page, sink: &mut S) -> Result<(), WriteFault>
    ensures paged { Paged S.writing S.beside_writes sink.old sink.new page.old page.new
        (rows_text 0 wave.now.rows) result }
{
    for clock in 0..wave.len() {
        put_row(clock, &wave.get(clock), page, sink)?;
    }
    Ok(())
}

fn put_wave<S: Sink>(wave: &Wave, page: &mut Page, sink: &mut S) -> Result<(), WriteFault>
    ensures paged { Paged S.writing S.beside_writes sink.old sink.new page.old page.new
        (wave_text wave.now.rows) result }
{
    page.put(b"wave\n", sink)?;
    put_rows(wave, page, sink)
}

impl Wave {
    /// Writes the wave as text: a line `wave`, then for each clock a line for each port, `CLOCK PORT CYC STB WE STALL
    /// ADR SEL DAT ACK ERR RTY READ`, and a line `CLOCK h` with the port that holds each top slave, or `-`.
    ///
    /// CLOCK and PORT are decimal, truth values are 0 or 1, ADR, DAT and READ have 16 hexadecimal digits, SEL 2. Where
    /// a write fails, a front of the text went out. It takes no memory.
    pub fn write<S: Sink>(&self, sink: &mut S) -> Result<(), WriteFault>
        ensures wrote { Wrote S.writing S.beside_writes sink.old sink.new (wave_text self.now.rows) result }
    {
        let mut page = Page::new();
        put_wave(self, &mut page, sink)?;
        page.flush(sink)
    }
}
