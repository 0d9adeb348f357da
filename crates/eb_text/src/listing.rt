// The listing: the records of a tree, as text.
ghost use Rattle.std.specs.Prelude.{◌≡◌, ◌≤◌, ◌+◌, ◌++◌, true, codes, decimal, length};
ghost use Rattle.eb_base.specs.Name.{are_printed};
ghost use Rattle.eb_io.specs.Text.{line};
ghost use Rattle.eb_io.specs.Writing.{Wrote};
ghost use Rattle.eb_io.specs.Page.{Paged};
ghost use Rattle.sdb_record.specs.Text.{text_in};
ghost use Rattle.eb_text.specs.Listing.{component_text, digits_8, entry_text, found_line, listing_text, path_text, product_text, steps_text};

use eb_base::Product;
use eb_io::{Line, Page, Sink, WriteFault};
use sdb_record::Record;
use sdb_walk::{Found, Tree};

// What stands behind a path, at most 112 octets: a space, the 12 of the longest kind, a range of 33 between two spaces,
// a product of 63, and the line's end.
type Text = Line<112>;

// Adds a number in 8 hexadecimal digits.
fn put_number(out: &mut Text, n: u32)
    requires room { length out.old + 8 ≤ 112 }
    ensures added { out.new ≡ out.old ++ digits_8 n }
    ensures len { length out.new ≡ length out.old + 8 }
{
    out.put_hex(&n.to_be_bytes());
}

// A name without the spaces that pad it.
fn text_of(name: &[u8]) -> &[u8]
    requires printed { are_printed name.now ≡ true }
    ensures text { result.now ≡ text_in name.now }
    ensures within { length result.now ≤ length name.now }
{
    name.trim_ascii_end()
}

fn product_text(product: &Product) -> Text
    ensures value { result ≡ product_text product.now }
    ensures short { length result ≤ 63 }
{
    let mut out = Text::of(b"");
    out.put_word(product.vendor);
    out.put(b":");
    put_number(&mut out, product.device);
    out.put(b" ");
    put_number(&mut out, product.version);
    out.put(b" ");
    put_number(&mut out, product.date);
    out.put(b" ");
    out.put(text_of(&product.name.octets()));
    out
}

// A record with a range, which is that of these absolute addresses.
fn component_text(kind: &[u8], first: u64, last: u64, product: &Product) -> Text
    requires short_kind { length kind.now ≤ 12 }
    ensures value { result ≡ component_text kind.now first last product.now }
    ensures short { length result ≤ 110 }
{
    let mut out = Text::of(kind);
    out.put(b" ");
    out.put_word(first);
    out.put(b"-");
    out.put_word(last);
    out.put(b" ");
    out.put(product_text(product).as_slice());
    out
}

fn integration_text(product: &Product) -> Text
    ensures value { result ≡ codes "integration " ++ product_text product.now }
    ensures short { length result ≤ 110 }
{
    let mut out = Text::of(b"integration ");
    out.put(product_text(product).as_slice());
    out
}

fn entry_text(entry: &Record, first: u64, last: u64) -> Text
    ensures value { result ≡ entry_text entry.now first last }
    ensures short { length result ≤ 110 }
{
    match entry {
        Record::Interconnect { product, .. } => component_text(
            b"interconnect",
            first,
            last,
            product,
        ),
        Record::Device { product, .. } => component_text(b"device", first, last, product),
        Record::Bridge { product, .. } => component_text(b"bridge", first, last, product),
        Record::Integration { product } => integration_text(product),
        Record::Empty => Text::of(b"empty"),
    }
}

// What stands behind the path of a record.
fn entry_line(found: &Found) -> Text
    ensures value { result ≡ line (codes " " ++ entry_text found.now.entry found.now.first found.now.last) }
{
    let mut out = Text::of(b" ");
    out.put(entry_text(&found.entry, found.first, found.last).as_slice());
    out.put(b"\n");
    out
}

// A place in a table.
fn step_text(before: &[u8], step: u16) -> Line<21>
    requires short { length before.now ≤ 1 }
    ensures value { result ≡ before.now ++ decimal step }
{
    let mut out = Line::of(before);
    out.put_decimal(u64::from(step));
    out
}

// Puts places, each behind a dot.
fn put_steps<K: Sink>(steps: &[u16], page: &mut Page, sink: &mut K) -> Result<(), WriteFault>
    ensures paged { Paged K.writing K.beside_writes sink.old sink.new page.old page.new
        (steps_text steps.now) result }
{
    for step in steps {
        page.put(step_text(b".", *step).as_slice(), sink)?;
    }
    Ok(())
}

// Puts the path of a record. It goes out in parts, since it may have any number of places.
fn put_path<K: Sink>(path: &[u16], page: &mut Page, sink: &mut K) -> Result<(), WriteFault>
    ensures paged { Paged K.writing K.beside_writes sink.old sink.new page.old page.new
        (path_text path.now) result }
{
    let [first, steps @ ..] = path else {
        return Ok(());
    };
    page.put(step_text(b"", *first).as_slice(), sink)?;
    put_steps(steps, page, sink)
}

fn put_found<K: Sink>(found: &Found, page: &mut Page, sink: &mut K) -> Result<(), WriteFault>
    ensures paged { Paged K.writing K.beside_writes sink.old sink.new page.old page.new
        (found_line found.now) result }
{
    put_path(found.path.as_slice(), page, sink)?;
    page.put(entry_line(found).as_slice(), sink)
}

fn put_tree<K: Sink>(tree: &Tree, page: &mut Page, sink: &mut K) -> Result<(), WriteFault>
    ensures paged { Paged K.writing K.beside_writes sink.old sink.new page.old page.new
        (listing_text tree.now) result }
{
    for found in tree.as_slice() {
        put_found(found, page, sink)?;
    }
    Ok(())
}

/// Writes the records of a tree as text, in its order, a line a record:
///
/// - `PATH KIND FIRST-LAST VENDOR:DEVICE VERSION DATE NAME`, KIND being `interconnect`, `device` or `bridge`
/// - `PATH integration VENDOR:DEVICE VERSION DATE NAME`
/// - `PATH empty`
///
/// PATH is the number of the record in its table, in decimal and from 0, with the bridge's path and a dot before it in
/// a table behind a bridge. FIRST, LAST and VENDOR have 16 hexadecimal digits, DEVICE, VERSION and DATE 8. FIRST and
/// LAST are absolute addresses in octets, both in the range. NAME has no padding, and a space stands before it even
/// where it is empty. Where a write fails, a front of the text went out. It takes no memory.
pub fn write_listing<K: Sink>(tree: &Tree, sink: &mut K) -> Result<(), WriteFault>
    ensures wrote { Wrote K.writing K.beside_writes sink.old sink.new (listing_text tree.now) result }
{
    let mut page = Page::new();
    put_tree(tree, &mut page, sink)?;
    page.flush(sink)
}
