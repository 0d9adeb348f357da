//! Tests of values that threads take in turns: that each turn comes and goes, which no contract says.
//!
//! - `tally`: a journal that two masters add to
//! - `turns`: its turns, in two threads
#![tactic(auto)]

#[cfg(test)]
mod tally;
#[cfg(test)]
mod turns;
