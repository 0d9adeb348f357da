// The octets of a record, or of the header.
ghost use Rattle.std.specs.Prelude.{[], ◌≡◌, ◌≤◌, ◌+◌, ◌++◌, length};

use std::marker::Model;

// How many octets the longest record has.
const MOST: usize = 44;

// Octets of a stream, at most those of a record, made where they stand: a record takes the place of the one before.
#[derive(Drop)]
pub struct Piece {
    octets: [u8; MOST],
    len: usize,
    ghost within: { len ≤ 44 },
}

impl Model for Piece {
    ghost use Rattle.std.specs.Prelude.{ℕ, List, take};

    ghost Value = { List ℕ };

    ghost view = { λ p. take p.len p.octets };
}

impl Piece {
    // A piece with no octets.
    pub fn new() -> Piece
        ensures none { result ≡ [] }
    {
        Piece {
            octets: [0; MOST],
            len: 0,
        }
    }

    // Lets all octets go.
    pub fn clear(&mut self)
        ensures none { self.new ≡ [] }
    {
        self.len = 0;
    }

    // Adds four octets.
    #[inline(always)]
    pub fn put(&mut self, octets: [u8; 4])
        requires room { length self.old + 4 ≤ 44 }
        ensures added { self.new ≡ self.old ++ octets }
        ensures len { length self.new ≡ length self.old + 4 }
    {
        let at = self.len;
        self.octets[at..at + 4].copy_from_slice(&octets);
        self.len = at + 4;
    }

    // How many octets it has.
    pub fn len(&self) -> usize
        ensures len { result ≡ length self.now }
    {
        self.len
    }

    pub fn as_slice(&self) -> &[u8]
        ensures octets { result.now ≡ self.now }
    {
        &self.octets[..self.len]
    }
}
