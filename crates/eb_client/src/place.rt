// Reads the place of an access: its address, and its width.
ghost use Rattle.std.specs.Prelude.{◌≡◌, ◌<◌, ◌+◌, ◌%◌, nat_eq, ℕ, length, take, drop, MatchOption, IfSome};
ghost use Rattle.eb_base.specs.declared.width.Width.{Width};
ghost use Rattle.eb_base.specs.Width.{octets};
ghost use Rattle.eb_text.specs.Command.{Says};
ghost use Rattle.eb_client.specs.Place.{HasNoSlash, IsCutAt, IsPlace, SaysNumber};

use crate::numbers::{decimal_of, number_in};
use eb_base::Width;

// The number of the first slash, from 0.
fn slash_in(word: &[u8]) -> Option<usize>
    ensures slash { MatchOption result (HasNoSlash word.now)
        (λ at. IsCutAt word.now (take at word.now) (drop (at + 1) word.now)) }
    ensures inside { IfSome result (λ at. at < length word.now) }
{
    for i in 0..word.len() {
        if word[i] == b'/' {
            return Some(i);
        }
    }
    None
}

// The width that a word says in octets.
fn width_of(word: &[u8]) -> Option<Width>
    ensures { MatchOption result ((w : Width) → Says word.now (octets w) → ⊥) (λ w. Says word.now (octets w)) }
{
    match decimal_of(word) {
        Some(1) => Some(Width::W8),
        Some(2) => Some(Width::W16),
        Some(4) => Some(Width::W32),
        Some(8) => Some(Width::W64),
        _ => None,
    }
}

// Whether an address is a multiple of the width's octets.
fn is_whole(place: u64, width: Width) -> bool
    ensures { result ≡ nat_eq (place % octets width) 0 }
{
    place % u64::from(width.octets()) == 0
}

// The address of a 32-bit access that a word says.
fn place_of_32(word: &[u8]) -> Option<u64>
    ensures { MatchOption result ((place : ℕ) → SaysNumber word.now place → place % 4 ≡ 0 → ⊥)
        (λ place. SaysNumber word.now place × (place % 4 ≡ 0)) }
{
    let Some(place) = number_in(word) else {
        return None;
    };
    if is_whole(place, Width::W32) {
        Some(place)
    } else {
        None
    }
}

// The address and the width that two words say.
fn place_in(place_word: &[u8], width_word: &[u8]) -> Option<(u64, Width)>
    ensures { MatchOption result ((place : ℕ) (width : Width) → SaysNumber place_word.now place
        → Says width_word.now (octets width) → place % octets width ≡ 0 → ⊥)
        (λ x. SaysNumber place_word.now x.0 × Says width_word.now (octets x.1) × (x.0 % octets x.1 ≡ 0)) }
{
    let width = width_of(width_word)?;
    let Some(place) = number_in(place_word) else {
        return None;
    };
    if is_whole(place, width) {
        Some((place, width))
    } else {
        None
    }
}

/// The address and the width that a word names: `WHERE`, which is of 32 bits, or `WHERE/WIDTH`.
pub fn place_of(word: &[u8]) -> Option<(u64, Width)>
    ensures { MatchOption result ((place : ℕ) (width : Width) → IsPlace word.now place width → ⊥)
        (λ x. IsPlace word.now x.0 x.1) }
{
    match slash_in(word) {
        None => match place_of_32(word) {
            None => None,
            Some(place) => Some((place, Width::W32)),
        },
        Some(at) => place_in(&word[..at], &word[at + 1..]),
    }
}
