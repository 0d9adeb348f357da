// The text of the SDB tables of a description.
ghost use Rattle.std.specs.Prelude.{◌≡◌, length};
ghost use Rattle.eb_io.specs.Text.{hex_text, line};
ghost use Rattle.eb_io.specs.Writing.{Wrote};
ghost use Rattle.eb_io.specs.Page.{Paged};
ghost use Rattle.eb_text.specs.Build.{build_text, record_count, record_lines, table_line, table_text};

use eb_io::{Line, Page, Sink, WriteFault};
use sdb_build::Image;

// The octets of an SDB record.
const RECORD_LEN: usize = 64;

// A record as 128 hexadecimal digits on a line.
fn record_line(octets: &[u8]) -> Line<129>
    requires record_ { length octets.now ≡ 64 }
    ensures value { result ≡ line (hex_text octets.now) }
{
    let mut line = Line::of(b"");
    line.put_hex(octets);
    line.put(b"\n");
    line
}

// Puts the records of a table.
fn put_records<K: Sink>(octets: &[u8], page: &mut Page, sink: &mut K) -> Result<(), WriteFault>
    ensures paged { Paged K.writing K.beside_writes sink.old sink.new page.old page.new
        (record_lines (record_count octets.now) octets.now) result }
{
    let mut rest = octets;
    'records: while rest.len() >= RECORD_LEN {
        page.put(record_line(&rest[..RECORD_LEN]).as_slice(), sink)?;
        rest = &rest[RECORD_LEN..];
    }
    Ok(())
}

// Where a table stands, and how many records it has.
fn table_line(at: u64, count: u64) -> Line<44>
    ensures value { result ≡ table_line at count }
{
    let mut line = Line::of(b"table ");
    line.put_word(at);
    line.put(b" ");
    line.put_decimal(count);
    line.put(b"\n");
    line
}

// Puts a table.
fn put_table<K: Sink>(
    at: u64,
    octets: &[u8],
    page: &mut Page,
    sink: &mut K,
) -> Result<(), WriteFault>
    ensures paged { Paged K.writing K.beside_writes sink.old sink.new page.old page.new
        (table_text at octets.now) result }
{
    let count = (octets.len() / RECORD_LEN) as u64;
    page.put(table_line(at, count).as_slice(), sink)?;
    put_records(octets, page, sink)
}

fn put_tables<K: Sink>(images: &[Image], page: &mut Page, sink: &mut K) -> Result<(), WriteFault>
    ensures paged { Paged K.writing K.beside_writes sink.old sink.new page.old page.new
        (build_text images.now) result }
{
    for image in images {
        put_table(image.at, image.octets.as_slice(), page, sink)?;
    }
    Ok(())
}

/// Writes the tables of a description as text: for each bus a line `table ADDRESS COUNT`, ADDRESS being the absolute
/// address of its table in 16 hexadecimal digits and COUNT the number of its records in decimal, and then each record
/// as 128 digits on a line. Where a write fails, a front of the text went out. It takes no memory.
pub fn write_build<K: Sink>(images: &[Image], sink: &mut K) -> Result<(), WriteFault>
    ensures wrote { Wrote K.writing K.beside_writes sink.old sink.new (build_text images.now) result }
{
    let mut page = Page::new();
    put_tables(images, &mut page, sink)?;
    page.flush(sink)
}
