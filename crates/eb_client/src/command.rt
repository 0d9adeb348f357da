//! The commands of a client, read from their words.
ghost use Rattle.std.specs.Prelude.{◌≡◌, ◌<◌, ◌^◌, nat_lt, ℕ, List, map, MatchOption, string_bytes};
ghost use Rattle.eb_base.specs.declared.width.Width.{Width};
ghost use Rattle.eb_base.specs.Width.{octets};
ghost use Rattle.eb_client.specs.Place.{SaysNumber};
ghost use Rattle.eb_client.specs.ClientWords.{IsLs, IsRead, IsWrite, IsTask, IsNoTask, task_seen};

use crate::numbers::number_in;
use crate::place::place_of;
use eb_base::Width;

/// A command of a client, as its words name it. An address that is dialled is any text that isn't empty; a place is an
/// address on the bus, in octets, and a multiple of the width's.
#[derive(Clone, Copy, Debug, PartialEq, Eq)]
pub enum ClientCommand<'a> {
    /// Shows what discovery finds at the other end.
    Ls {
        address: &'a str,
    },
    /// Reads a word and shows it.
    Read {
        address: &'a str,
        place: u64,
        width: Width,
    },
    /// Writes a word, which fits in the width.
    Write {
        address: &'a str,
        place: u64,
        width: Width,
        value: u64,
    },
}

// Whether a number fits in the width.
fn is_word(width: Width, value: u64) -> bool
    ensures { result ≡ nat_lt value (256 ^ octets width) }
{
    match width {
        Width::W8 => value < 0x100,
        Width::W16 => value < 0x1_0000,
        Width::W32 => value < 0x1_0000_0000,
        Width::W64 => true,
    }
}

// `ls ADDRESS`.
fn ls_of(words: &[String]) -> Option<&str>
    ensures { MatchOption result ((address : List ℕ) → IsLs (map string_bytes words.now) address → ⊥)
        (λ x. IsLs (map string_bytes words.now) x.now) }
{
    let [first, address] = words else {
        return None;
    };
    if first.as_str() != "ls" || address.is_empty() {
        return None;
    }
    Some(address.as_str())
}

// `read ADDRESS WHERE` or `read ADDRESS WHERE/WIDTH`.
fn read_of(words: &[String]) -> Option<(&str, u64, Width)>
    ensures { MatchOption result ((address : List ℕ) (place : ℕ) (width : Width)
        → IsRead (map string_bytes words.now) address place width → ⊥)
        (λ x. IsRead (map string_bytes words.now) x.0.now x.1 x.2) }
{
    let [first, address, place_word] = words else {
        return None;
    };
    if first.as_str() != "read" || address.is_empty() {
        return None;
    }
    let Some((place, width)) = place_of(place_word.as_bytes()) else {
        return None;
    };
    Some((address.as_str(), place, width))
}

// The value that a word says, where it fits in the width.
fn value_of(word: &[u8], width: Width) -> Option<u64>
    ensures { MatchOption result ((value : ℕ) → SaysNumber word.now value → value < 256 ^ octets width → ⊥)
        (λ value. SaysNumber word.now value × (value < 256 ^ octets width)) }
{
    let Some(value) = number_in(word) else {
        return None;
    };
    if is_word(width, value) {
        Some(value)
    } else {
        None
    }
}

// `write ADDRESS WHERE VALUE` or `write ADDRESS WHERE/WIDTH VALUE`.
fn write_of(words: &[String]) -> Option<(&str, u64, Width, u64)>
    ensures { MatchOption result ((address : List ℕ) (place : ℕ) (width : Width) (value : ℕ)
        → IsWrite (map string_bytes words.now) address place width value → ⊥)
        (λ x. IsWrite (map string_bytes words.now) x.0.now x.1 x.2 x.3) }
{
    let [first, address, place_word, value_word] = words else {
        return None;
    };
    if first.as_str() != "write" || address.is_empty() {
        return None;
    }
    let Some((place, width)) = place_of(place_word.as_bytes()) else {
        return None;
    };
    let Some(value) = value_of(value_word.as_bytes(), width) else {
        return None;
    };
    Some((address.as_str(), place, width, value))
}

/// The command of a client that has exactly these words; none where no command of a client has them.
pub fn client_command_of(words: &[String]) -> Option<ClientCommand<'_>>
    ensures command { MatchOption result (IsNoTask (map string_bytes words.now))
        (λ x. IsTask (map string_bytes words.now) (task_seen x)) }
{
    if let Some(address) = ls_of(words) {
        return Some(ClientCommand::Ls { address });
    }
    if let Some((address, place, width)) = read_of(words) {
        return Some(ClientCommand::Read {
            address,
            place,
            width,
        });
    }
    match write_of(words) {
        None => None,
        Some((address, place, width, value)) => Some(ClientCommand::Write {
            address,
            place,
            width,
            value,
        }),
    }
}
