// The pieces of a text, one after another.
ghost use Rattle.std.specs.Prelude.{◌≡◌, ◌≢◌, ◌<◌, ◌≤◌, ◌∷◌, [], ℕ, length, slice_index, option_copied, MatchOption};
ghost use Rattle.soc_script.specs.Words.{left_behind, lines_of, pieces_of, without_newline, words_of};

use std::marker::Model;

/// The pieces of a text that stand between the octets of one kind. Contracts see those that are left, in order.
#[derive(Drop)]
pub struct Pieces<'a> {
    text: Option<&'a [u8]>,
    octet: u8,
}

impl<'a> Model for Pieces<'a> {
    ghost use Rattle.std.specs.Prelude.{ℕ, List, option_copied};
    ghost use Rattle.soc_script.specs.Words.{pieces_left};

    ghost Value = { List (List ℕ) };

    ghost view = { λ a. pieces_left a.octet (option_copied a.text) };
}

impl<'a> Pieces<'a> {
    /// The two sides of each `=` of a word.
    pub fn sides(word: &'a [u8]) -> Pieces<'a>
        ensures sides { result ≡ pieces_of 61 word.now }
    {
        Pieces {
            text: Some(word),
            octet: b'=',
        }
    }

    /// The words of a line.
    pub fn words(line: &'a [u8]) -> Pieces<'a>
        ensures words { result ≡ words_of line.now }
    {
        Pieces {
            text: Some(line),
            octet: b' ',
        }
    }

    /// The lines of a text.
    pub fn lines(text: &'a [u8]) -> Pieces<'a>
        ensures lines { result ≡ lines_of text.now }
    {
        let text = if text.is_empty() {
            None
        } else {
            Some(without_newline(text))
        };
        Pieces { text, octet: b'\n' }
    }

    /// Takes the next piece. None where none is left.
    pub fn next(&mut self) -> Option<&'a [u8]>
        ensures taken { MatchOption result ((self.old ≡ []) × (self.new ≡ []))
            (λ piece. self.old ≡ piece.now ∷ self.new) }
    {
        let text = self.text?;
        let at = end_of_piece(text, self.octet);
        self.text = left_behind(text, at);
        Some(&text[..at])
    }
}

// Where the first piece of a text ends: before the first such octet, or where the text does.
fn end_of_piece(text: &[u8], octet: u8) -> usize
    ensures within { result ≤ length text.now }
    ensures before { (k : ℕ) → k < result → slice_index text.now k ≢ octet }
    ensures found { result < length text.now → slice_index text.now result ≡ octet }
{
    for (i, x) in text.iter().enumerate() {
        if *x == octet {
            return i;
        }
    }
    text.len()
}

// What is left of a text behind its first piece and the octet that ends it.
fn left_behind(text: &[u8], at: usize) -> Option<&[u8]>
    ensures left { option_copied result ≡ left_behind at text.now }
{
    if at < text.len() {
        Some(&text[at + 1..])
    } else {
        None
    }
}

fn without_newline(text: &[u8]) -> &[u8]
    requires some { 0 < length text.now }
    ensures value { result.now ≡ without_newline text.now }
{
    let last = text.len() - 1;
    if text[last] == b'\n' {
        &text[..last]
    } else {
        text
    }
}
