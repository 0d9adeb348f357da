// A line of text that is made in place, with numbers in decimal and hexadecimal digits.
ghost use Rattle.std.specs.Prelude.{◌≡◌, ◌≤◌, ◌+◌, ◌*◌, ◌++◌, length, decimal};
ghost use Rattle.eb_io.specs.Text.{digits_16, hex_text};

use arrayvec::ArrayVec;
use itoa::Buffer;
use std::marker::Model;

/// Octets of a text, at most `N`, kept where they stand.
#[derive(Drop)]
pub struct Line<const N: usize> {
    octets: ArrayVec<u8, N>,
}

impl<const N: usize> Model for Line<N> {
    ghost use Rattle.std.specs.Prelude.{ℕ, List};

    ghost Value = { List ℕ };

    ghost view = { λ a. a.octets.items };
}

impl<const N: usize> Line<N> {
    /// Begins with these octets.
    pub fn of(piece: &[u8]) -> Line<N>
        requires room { length piece.now ≤ N }
        ensures octets { result ≡ piece.now }
    {
        let mut octets = ArrayVec::new();
        octets.try_extend_from_slice(piece).unwrap();
        Line { octets }
    }

    /// Adds octets.
    pub fn put(&mut self, piece: &[u8])
        requires room { length self.old + length piece.now ≤ N }
        ensures added { self.new ≡ self.old ++ piece.now }
        ensures len { length self.new ≡ length self.old + length piece.now }
    {
        self.octets.try_extend_from_slice(piece).unwrap();
    }

    /// Adds a number in decimal digits, at most 20.
    pub fn put_decimal(&mut self, n: u64)
        requires room { length self.old + 20 ≤ N }
        ensures added { self.new ≡ self.old ++ decimal n }
        ensures len { length self.new ≤ length self.old + 20 }
    {
        self.put(Buffer::new().format(n).as_bytes());
    }

    /// Adds octets, at most 64, in hexadecimal digits, in upper case: two an octet.
    pub fn put_hex(&mut self, octets: &[u8])
        requires few { length octets.now ≤ 64 }
        requires room { length self.old + 2 * length octets.now ≤ N }
        ensures added { self.new ≡ self.old ++ hex_text octets.now }
        ensures len { length self.new ≡ length self.old + 2 * length octets.now }
    {
        let mut room = [0; 128];
        let digits = &mut room[..2 * octets.len()];
        put_digits(octets, digits);
        self.put(digits);
    }

    /// Adds a number in 16 hexadecimal digits, in upper case.
    pub fn put_word(&mut self, n: u64)
        requires room { length self.old + 16 ≤ N }
        ensures added { self.new ≡ self.old ++ digits_16 n }
        ensures len { length self.new ≡ length self.old + 16 }
    {
        self.put_hex(&n.to_be_bytes());
    }

    /// How many octets it has.
    pub fn len(&self) -> usize
        ensures len { result ≡ length self.now }
    {
        self.octets.len()
    }

    pub fn as_slice(&self) -> &[u8]
        ensures octets { result.now ≡ self.now }
    {
        self.octets.as_slice()
    }
}

fn put_digits(octets: &[u8], digits: &mut [u8])
    requires room { length digits.old ≡ 2 * length octets.now }
    ensures value { digits.new ≡ hex_text octets.now }
{
    hex::encode_to_slice(octets, digits).unwrap();
    digits.make_ascii_uppercase();
}
