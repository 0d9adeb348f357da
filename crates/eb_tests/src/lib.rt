//! Tests of the stream, the session, the host and the commands through their public calls: what no contract says (that
//! there is an answer other than want of memory), and values from examples that were worked out by hand.
//!
//! Tests stand in crates of their own, since a crate with tests is proved twice: those of the clocked bus in
//! `wb_tests`, those of descriptions and SDB records in `sdb_tests`.
#![tactic(auto)]

#[cfg(test)]
mod codec;
#[cfg(test)]
mod commands;
#[cfg(test)]
mod hosts;
#[cfg(test)]
mod journal;
#[cfg(test)]
mod loopbacks;
#[cfg(test)]
mod machine;
#[cfg(test)]
mod no_room;
#[cfg(test)]
mod numbers;
#[cfg(test)]
mod outside;
#[cfg(test)]
mod streams;
#[cfg(test)]
mod texts;
