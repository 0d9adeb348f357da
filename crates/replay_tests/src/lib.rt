//! Tests that streams are served beside each other: two threads are inside both at once, which no contract says. Each
//! waits, inside a call of its own stream, for what the other does in its stream, so that one thread can't do both.
//!
//! - `meeting`: what two threads wait at
//! - `meet_link`: a link that waits there
//! - `links`: two links of one bus
//! - `ports`: two ports of one bus
//! - `files`: two captures of one replay
#![tactic(auto)]

#[cfg(test)]
mod files;
#[cfg(test)]
mod links;
#[cfg(test)]
mod meet_link;
#[cfg(test)]
mod meeting;
#[cfg(test)]
mod ports;
