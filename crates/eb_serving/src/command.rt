//! The commands of a server, read from their words.
ghost use Rattle.std.specs.Prelude.{◌≡◌, map, MatchOption, string_bytes};
ghost use Rattle.eb_serving.specs.ServingWords.{AreAsk, ServingAsk, IsServingTask, IsNoServing, ask_seen, serving_seen};

use crate::numbers::number_to;

const MOST_PORT: u32 = 65_535;

const MOST_COUNT: u32 = 10_000;

/// What a server is asked for: the name of the description, the port or the first of them, from 1 to 65,535, and how
/// often it serves, from 1 to 10,000 times.
#[derive(Clone, Copy, Debug, PartialEq, Eq)]
pub struct Asked<'a> {
    pub description: &'a str,
    pub port: u16,
    pub count: u32,
}

/// A command of a server, as its words name it.
#[derive(Clone, Copy, Debug, PartialEq, Eq)]
pub enum Serving<'a> {
    /// Each master at a port of its own serves so many connections.
    Ports(Asked<'a>),
    /// The master 0 answers so many datagrams.
    Post(Asked<'a>),
}

// What is asked for behind this first word.
fn asked_of<'a>(words: &'a [String], word: &str) -> Option<Asked<'a>>
    ensures { MatchOption result
        ((ask : ServingAsk) → AreAsk word.now (map string_bytes words.entry.now) ask → ⊥)
        (λ x. AreAsk word.now (map string_bytes words.entry.now) (ask_seen x)) }
{
    let [first, description, port_word, count_word] = words else {
        return None;
    };
    if first.as_str() != word {
        return None;
    }
    if description.is_empty() {
        return None;
    }
    let Some(port) = number_to(port_word.as_str(), MOST_PORT) else {
        return None;
    };
    let Some(count) = number_to(count_word.as_str(), MOST_COUNT) else {
        return None;
    };
    Some(Asked {
        description: description.as_str(),
        port: port as u16,
        count,
    })
}

/// What the words `serve DESC PORT CONNECTIONS` or `serve-udp DESC PORT DATAGRAMS` ask for; none where they are other
/// words.
pub fn serving_of(words: &[String]) -> Option<Serving<'_>>
    ensures command { MatchOption result (IsNoServing (map string_bytes words.now))
        (λ x. IsServingTask (map string_bytes words.now) (serving_seen x)) }
{
    if let Some(asked) = asked_of(words, "serve") {
        return Some(Serving::Ports(asked));
    }
    match asked_of(words, "serve-udp") {
        Some(asked) => Some(Serving::Post(asked)),
        None => None,
    }
}
