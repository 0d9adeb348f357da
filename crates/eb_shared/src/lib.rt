//! A bus that several masters share, each from a thread of its own, and the streams that are served on it.
//!
//! The bus passes between its masters in turns. A `SharedMaster` is one of them, with its pass: each of its calls takes
//! the bus, makes at most one load and eight ticks, and puts the bus back, until the call is done. A cycle's grant
//! stands in the bus between turns. What a master has made is its own part of the one journal, and what it has open is
//! its stake, which the others leave as it is.
//!
//! `serve_links` serves a stream for each master, in a thread each, and each stream's contract is that of a stream
//! served alone. `gather` ends it: the journal is a legal history, and each master's own part is what its pass tells.
//! That a turn ever comes is not claimed.
//!
//! - `gathering`: the bus after all its masters are done
//! - `lanes`: streams served beside each other
//! - `passes`: the passes of a bus that is as it was built
//! - `records`: a record of a master, turn by turn
//! - `shared`: one of several masters
//! - `steps`: what a master does to the bus in one turn
//! - `turns`: the turns of a master
#![tactic(auto)]

mod gathering;
mod lanes;
mod passes;
mod records;
mod shared;
mod steps;
mod turns;

pub use gathering::gather;
pub use lanes::{Lane, serve_links};
pub use passes::new_pass;
pub use shared::SharedMaster;
pub use steps::{Reached, SharedBus, Stage};
