//! Tests of ports that are served on a described bus: that connections come to an end of their own, which no contract
//! says, and texts that were worked out by hand.
//!
//! - `peers`: peers in memory
//! - `ports`: ports that are served to them
//! - `commands`: the commands of a server, over files and peers in memory
//! - `clients`: a port that is served to the commands of a client, over loopback
#![tactic(auto)]

#[cfg(test)]
mod clients;
#[cfg(test)]
mod commands;
#[cfg(test)]
mod peers;
#[cfg(test)]
mod ports;
