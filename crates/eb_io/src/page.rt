// A page: texts on their way to a sink, gathered so that they go out in few writes.
ghost use Rattle.std.specs.Prelude.{◌≡◌, ◌≤◌, ◌+◌, ◌++◌, ◌↔◌, [], length, IsTrue};
ghost use Rattle.eb_io.specs.Writing.{Wrote};
ghost use Rattle.eb_io.specs.Page.{Paged};

use crate::sink::{Sink, WriteFault, put_all};
use arrayvec::ArrayVec;
use std::marker::Model;

// How many octets a page has room for.
const ROOM: usize = 8192;

/// Octets that weren't written yet, at most 8192, kept where they stand. A page takes no memory.
#[derive(Drop)]
pub struct Page {
    octets: ArrayVec<u8, ROOM>,
}

impl Model for Page {
    ghost use Rattle.std.specs.Prelude.{ℕ, List};

    ghost Value = { List ℕ };

    ghost view = { λ a. a.octets.items };
}

impl Page {
    /// Begins with nothing on it.
    pub fn new() -> Page
        ensures empty { result ≡ [] }
    {
        Page {
            octets: ArrayVec::new(),
        }
    }

    // Whether there is room for so many octets more.
    fn fits(&self, count: usize) -> bool
        ensures room { IsTrue result ↔ (length self.now + count ≤ 8192) }
    {
        count <= ROOM - self.octets.len()
    }

    fn add(&mut self, text: &[u8])
        requires room { length self.old + length text.now ≤ 8192 }
        ensures added { self.new ≡ self.old ++ text.now }
    {
        self.octets.try_extend_from_slice(text).unwrap();
    }

    // Puts a text on an empty page, or writes it where it is longer than a page.
    fn begin<S: Sink>(&mut self, text: &[u8], sink: &mut S) -> Result<(), WriteFault>
        requires empty { self.old ≡ [] }
        ensures paged { Paged S.writing S.beside_writes sink.old sink.new self.old self.new text.now result }
    {
        if self.fits(text.len()) {
            self.add(text);
            return Ok(());
        }
        put_all(sink, text)
    }

    /// Puts a text behind what stands on the page. Where there is no room for it, what stands there is written first;
    /// a text that is longer than a page is written too.
    ///
    /// Where a write fails, a front of what stood on the page and then the text went out, and the page tells nothing.
    pub fn put<S: Sink>(&mut self, text: &[u8], sink: &mut S) -> Result<(), WriteFault>
        ensures paged { Paged S.writing S.beside_writes sink.old sink.new self.old self.new text.now result }
    {
        if self.fits(text.len()) {
            self.add(text);
            return Ok(());
        }
        self.flush(sink)?;
        self.begin(text, sink)
    }

    /// Writes what stands on the page, and empties it.
    ///
    /// Where a write fails, a front of what stood there went out.
    pub fn flush<S: Sink>(&mut self, sink: &mut S) -> Result<(), WriteFault>
        ensures wrote { Wrote S.writing S.beside_writes sink.old sink.new self.old result }
        ensures emptied { self.new ≡ [] }
    {
        let result = put_all(sink, self.octets.as_slice());
        self.octets.clear();
        result
    }
}
