//! A host and a slave joined in memory: what the host of `eb_host` asks for, the slave of `eb_session` runs, and what
//! it replies, the host takes.
//!
//! What the host sends spells its items for the slave. A cycle of the host is one cycle of the bus, with an operation
//! for each of the host's, and the host's answers are the bus's: the word of a read, 0 for a write, an error for ERR
//! and RTY. The address of the root table that the host reads is the slave's.
//!
//! `Loopback` is the link between them: a host over it talks to a session on a master.
//!
//! - `laws`: an opening, a cycle, and the address of the root table
//! - `loopback`: the link
#![tactic(auto)]

pub mod laws;
mod loopback;

pub use loopback::Loopback;
