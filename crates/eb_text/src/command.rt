// The commands, read from their words.
ghost use Rattle.std.specs.Prelude.{◌≡◌, ◌≢◌, ◌↔◌, ℕ, Bool, List, [], map, All, IsTrue, MatchOption, string_bytes};
ghost use Rattle.eb_text.specs.Command.{IsAnswerRam, IsAnswer, IsSim, IsBuild, IsTour, IsLoad, IsReplay, IsShow, IsCommand, IsNoCommand, command_seen, wave_words};

use crate::numbers::{number_at_most, ram_size_of};
use crate::texts::{help, version};

const MOST_START: u32 = 2_147_483_647;

const MOST_CYCLES: u32 = 100_000;

/// A command, as its words name it.
#[derive(Clone, Copy, Debug, PartialEq, Eq)]
pub enum Command<'a> {
    /// Answers a capture on a RAM of so many octets.
    AnswerRam {
        octets: u32,
        capture: &'a str,
    },
    /// Answers a capture on a described bus.
    Answer {
        description: &'a str,
        capture: &'a str,
    },
    /// Runs a script on a described bus, and shows the journal, behind the wave if that is asked for.
    Sim {
        description: &'a str,
        script: &'a str,
        wave: bool,
    },
    /// Shows the tables of a described bus.
    Build {
        description: &'a str,
    },
    /// Shows what discovery finds on a described bus.
    Tour {
        description: &'a str,
    },
    /// Answers so many cycles that are made from a number.
    Load {
        start: u32,
        cycles: u32,
    },
    /// Answers captures beside each other on a described bus, each as a master of its own.
    Replay {
        description: &'a str,
        captures: &'a [String],
    },
    /// Shows a text.
    Show(&'static [u8]),
}

// `answer --ram N CAPTURE`.
fn answer_ram_of(words: &[String]) -> Option<(u32, &str)>
    ensures { MatchOption result
        ((octets : ℕ) (capture : List ℕ) → IsAnswerRam (map string_bytes words.now) octets capture → ⊥)
        (λ x. IsAnswerRam (map string_bytes words.now) x.0 x.1.now) }
{
    let [first, second, size, capture] = words else {
        return None;
    };
    if first.as_str() != "answer" || second.as_str() != "--ram" || capture.is_empty() {
        return None;
    }
    match ram_size_of(size.as_str()) {
        None => None,
        Some(octets) => Some((octets, capture.as_str())),
    }
}

// `answer DESC CAPTURE`.
fn answer_of(words: &[String]) -> Option<(&str, &str)>
    ensures { MatchOption result
        ((description capture : List ℕ) → IsAnswer (map string_bytes words.now) description capture → ⊥)
        (λ x. IsAnswer (map string_bytes words.now) x.0.now x.1.now) }
{
    let [first, description, capture] = words else {
        return None;
    };
    if first.as_str() != "answer" || description.is_empty() || capture.is_empty() {
        return None;
    }
    if description.as_str() == "--ram" {
        return None;
    }
    Some((description.as_str(), capture.as_str()))
}

// What stands behind the script: nothing, or `--wave`.
fn wave_of(words: &[String]) -> Option<bool>
    ensures { MatchOption result ((wave : Bool) → map string_bytes words.now ≡ wave_words wave → ⊥)
        (λ wave. map string_bytes words.now ≡ wave_words wave) }
{
    if words.is_empty() {
        return Some(false);
    }
    let [word] = words else {
        return None;
    };
    if word.as_str() == "--wave" {
        Some(true)
    } else {
        None
    }
}

// `sim DESC SCRIPT`, or the same with `--wave`.
fn sim_of(words: &[String]) -> Option<(&str, &str, bool)>
    ensures { MatchOption result
        ((description script : List ℕ) (wave : Bool) → IsSim (map string_bytes words.now) description script wave → ⊥)
        (λ x. IsSim (map string_bytes words.now) x.0.now x.1.now x.2) }
{
    let [first, description, script, others @ ..] = words else {
        return None;
    };
    if first.as_str() != "sim" || description.is_empty() || script.is_empty() {
        return None;
    }
    let (description, script) = (description.as_str(), script.as_str());
    let wave = wave_of(others)?;
    Some((description, script, wave))
}

// `build DESC`.
fn build_of(words: &[String]) -> Option<&str>
    ensures { MatchOption result ((description : List ℕ) → IsBuild (map string_bytes words.now) description → ⊥)
        (λ x. IsBuild (map string_bytes words.now) x.now) }
{
    let [first, description] = words else {
        return None;
    };
    if first.as_str() != "build" || description.is_empty() {
        return None;
    }
    Some(description.as_str())
}

// `tour DESC`.
fn tour_of(words: &[String]) -> Option<&str>
    ensures { MatchOption result ((description : List ℕ) → IsTour (map string_bytes words.now) description → ⊥)
        (λ x. IsTour (map string_bytes words.now) x.now) }
{
    let [first, description] = words else {
        return None;
    };
    if first.as_str() != "tour" || description.is_empty() {
        return None;
    }
    Some(description.as_str())
}

// `load START N`.
fn load_of(words: &[String]) -> Option<(u32, u32)>
    ensures { MatchOption result ((start cycles : ℕ) → IsLoad (map string_bytes words.now) start cycles → ⊥)
        (λ x. IsLoad (map string_bytes words.now) x.0 x.1) }
{
    let [first, start_word, cycles_word] = words else {
        return None;
    };
    if first.as_str() != "load" {
        return None;
    }
    let start = number_at_most(start_word.as_str(), MOST_START)?;
    let cycles = number_at_most(cycles_word.as_str(), MOST_CYCLES)?;
    Some((start, cycles))
}

// None of the words is empty.
fn are_named(words: &[String]) -> bool
    ensures named { IsTrue result ↔ All (λ name. name ≢ []) (map string_bytes words.now) }
{
    for word in words {
        if word.is_empty() {
            return false;
        }
    }
    true
}

/// The description and the captures that the words `replay DESC CAPTURE..` name; none where they are other words.
pub fn replay_of(words: &[String]) -> Option<(&str, &[String])>
    ensures { MatchOption result
        ((description : List ℕ) (captures : List (List ℕ)) → IsReplay (map string_bytes words.now) description captures
        → ⊥)
        (λ x. IsReplay (map string_bytes words.now) x.0.now (map string_bytes x.1.now)) }
{
    let [first, description, captures @ ..] = words else {
        return None;
    };
    if first.as_str() != "replay" || description.is_empty() || captures.is_empty() {
        return None;
    }
    if !are_named(captures) {
        return None;
    }
    Some((description.as_str(), captures))
}

// The text that `--help` or `--version` shows.
fn text_of(words: &[String]) -> Option<&'static [u8]>
    ensures { MatchOption result ((text : List ℕ) → IsShow (map string_bytes words.now) text → ⊥)
        (λ x. IsShow (map string_bytes words.now) x.now) }
{
    let [word] = words else {
        return None;
    };
    if word.as_str() == "--help" {
        Some(help())
    } else if word.as_str() == "--version" {
        Some(version())
    } else {
        None
    }
}

/// The command that has exactly these words; none where no command has them.
pub fn command_of(words: &[String]) -> Option<Command<'_>>
    ensures command { MatchOption result (IsNoCommand (map string_bytes words.now))
        (λ x. IsCommand (map string_bytes words.now) (command_seen x)) }
{
    if let Some((octets, capture)) = answer_ram_of(words) {
        return Some(Command::AnswerRam { octets, capture });
    }
    if let Some((description, capture)) = answer_of(words) {
        return Some(Command::Answer {
            description,
            capture,
        });
    }
    if let Some((description, script, wave)) = sim_of(words) {
        return Some(Command::Sim {
            description,
            script,
            wave,
        });
    }
    if let Some(description) = build_of(words) {
        return Some(Command::Build { description });
    }
    if let Some(description) = tour_of(words) {
        return Some(Command::Tour { description });
    }
    if let Some((start, cycles)) = load_of(words) {
        return Some(Command::Load { start, cycles });
    }
    if let Some((description, captures)) = replay_of(words) {
        return Some(Command::Replay {
            description,
            captures,
        });
    }
    match text_of(words) {
        None => None,
        Some(text) => Some(Command::Show(text)),
    }
}
