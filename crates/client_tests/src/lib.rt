//! Tests of a client over links in memory: words and replies that were worked out by hand, and what is shown of them.
//!
//! - `words`: the commands of words
//! - `replies`: a word read and a word written, over replies that were kept, cut or changed
#![tactic(auto)]

#[cfg(test)]
mod replies;
#[cfg(test)]
mod words;
