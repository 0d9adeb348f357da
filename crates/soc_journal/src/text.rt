// The text of a journal, line by line.
ghost use Rattle.std.specs.Prelude.{◌≡◌, ◌≤◌, ◌++◌, codes, length};
ghost use Rattle.eb_io.specs.Text.{digits_16};
ghost use Rattle.eb_io.specs.Writing.{Wrote};
ghost use Rattle.eb_io.specs.Page.{Paged};
ghost use Rattle.soc_journal.specs.Text.{answer_text, cycle_line, entries_text, entry_text, journal_text, pair_line, pair_lines, read_text, request_text, write_text};

use crate::entry::Entry;
use crate::journal::Journal;
use crate::pair::Pair;
use eb_io::{Line, Page, Sink, WriteFault};
use wb_signals::{Answer, Op};

fn write_text(op: &Op) -> Line<64>
    ensures value { result ≡ write_text op.now }
    ensures short { length result ≤ 38 }
{
    let mut line = Line::of(b"w ");
    line.put_word(op.adr);
    line.put(b" ");
    line.put_hex(&[op.sel]);
    line.put(b" ");
    line.put_word(op.dat);
    line
}

fn read_text(op: &Op) -> Line<64>
    ensures value { result ≡ read_text op.now }
    ensures short { length result ≤ 38 }
{
    let mut line = Line::of(b"r ");
    line.put_word(op.adr);
    line.put(b" ");
    line.put_hex(&[op.sel]);
    line
}

fn request_text(op: &Op) -> Line<64>
    ensures value { result ≡ request_text op.now }
    ensures short { length result ≤ 38 }
{
    if op.write {
        write_text(op)
    } else {
        read_text(op)
    }
}

fn word_text(word: u64) -> Line<64>
    ensures value { result ≡ codes "ack " ++ digits_16 word }
    ensures short { length result ≤ 20 }
{
    let mut line = Line::of(b"ack ");
    line.put_word(word);
    line
}

// The answer of a write or a read.
fn answer_text(write: bool, answer: Answer) -> Line<64>
    ensures value { result ≡ answer_text write answer }
    ensures short { length result ≤ 20 }
{
    match answer {
        Answer::Ack(word) => {
            if write {
                Line::of(b"ack")
            } else {
                word_text(word)
            }
        }
        Answer::Err => Line::of(b"err"),
        Answer::Rty => Line::of(b"rty"),
    }
}

fn pair_line(pair: &Pair) -> Line<64>
    ensures value { result ≡ pair_line pair.now }
{
    let mut line = request_text(&pair.op);
    line.put(b" ");
    line.put(answer_text(pair.op.write, pair.answer).as_slice());
    line.put(b"\n");
    line
}

fn cycle_line(master: u8, cut: bool) -> Line<64>
    ensures value { result ≡ cycle_line master cut }
{
    let mut line = Line::of(b"cycle ");
    line.put_decimal(u64::from(master));
    line.put(b" ");
    let mark: &[u8] = if cut { b"cut" } else { b"whole" };
    line.put(mark);
    line.put(b"\n");
    line
}

fn put_pairs<S: Sink>(pairs: &[Pair], page: &mut Page, sink: &mut S) -> Result<(), WriteFault>
    ensures paged { Paged S.writing S.beside_writes sink.old sink.new page.old page.new (pair_lines pairs.now) result }
{
    for pair in pairs {
        page.put(pair_line(pair).as_slice(), sink)?;
    }
    Ok(())
}

fn put_entry<S: Sink>(entry: &Entry, page: &mut Page, sink: &mut S) -> Result<(), WriteFault>
    ensures paged { Paged S.writing S.beside_writes sink.old sink.new page.old page.new (entry_text entry.now) result }
{
    page.put(cycle_line(entry.master, entry.cut).as_slice(), sink)?;
    put_pairs(entry.pairs.as_slice(), page, sink)
}

fn put_entries<S: Sink>(entries: &[Entry], page: &mut Page, sink: &mut S) -> Result<(), WriteFault>
    ensures paged { Paged S.writing S.beside_writes sink.old sink.new page.old page.new
        (entries_text entries.now) result }
{
    for entry in entries {
        put_entry(entry, page, sink)?;
    }
    Ok(())
}

fn put_journal<S: Sink>(entries: &[Entry], page: &mut Page, sink: &mut S) -> Result<(), WriteFault>
    ensures paged { Paged S.writing S.beside_writes sink.old sink.new page.old page.new
        (journal_text entries.now) result }
{
    page.put(b"journal\n", sink)?;
    put_entries(entries, page, sink)
}

impl Journal {
    /// Writes the journal as text: a line `journal`, then for each entry a line `cycle M whole` or `cycle M cut`, then
    /// a line for each of its operations, `w ADR SEL DAT ANSWER` or `r ADR SEL ANSWER`.
    ///
    /// M is decimal, ADR and DAT have 16 hexadecimal digits, SEL 2. ANSWER is `err`, `rty`, `ack` for a write, or
    /// `ack` and 16 digits for a read. Where a write fails, a front of the text went out. It takes no memory.
    pub fn write<S: Sink>(&self, sink: &mut S) -> Result<(), WriteFault>
        ensures wrote { Wrote S.writing S.beside_writes sink.old sink.new (journal_text self.now.entries) result }
    {
        let mut page = Page::new();
        put_journal(self.entries(), &mut page, sink)?;
        page.flush(sink)
    }
}
