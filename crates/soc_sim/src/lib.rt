//! A bus that is watched from its first clock on, and a script run on it clock by clock.
//!
//! A `WatchedBus` is a bus with the rows of its clocks. It is made of a bus as it was built, each of its calls is one
//! event of a watched core, and a tick adds its row in room that was taken before. So its rows are a legal wave at
//! every moment, and its journal has the cycles that rose and fell in them.
//!
//! `run_script` builds the bus of a description and runs a script on it: before each tick the masters, in rising order,
//! have answers taken, release, raise and load as their next lines say. The rows are a wave of the script, the journal
//! is their history, and each master's own part is what the script asks of it.
//!
//! - `watched`: the bus and its calls
//! - `todos`: the lines that the masters have still to do
//! - `steps`: what is done before a tick
//! - `runner`: the clocks of a script
//! - `laws`: which scripts a bus takes
#![tactic(auto)]

pub mod laws;
mod runner;
mod steps;
mod todos;
mod watched;

pub use runner::run_script;
pub use watched::WatchedBus;
