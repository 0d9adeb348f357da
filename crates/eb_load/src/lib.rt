//! A generated stream of Etherbone records, a load for a slave, as a source, and the summary of a run of it. The octets
//! spell the items of the generator; the summary is that of the entries.
//!
//! The records write and read words of a RAM of 65,536 octets, on a port of 32 bits; their numbers come from a linear
//! congruential generator, so that the same start gives the same stream.
//!
//! - `draws`: the numbers that a stream is made of
//! - `piece`: octets that are made where they stand
//! - `record`: the octets of its records
//! - `source`: the stream as a source
//! - `counted`: cycles that are counted as they end
//! - `summary`: what is counted of a run, and its text
//! - `laws`: what holds of each generated stream
#![tactic(auto)]

mod counted;
mod draws;
pub mod laws;
mod piece;
mod record;
mod source;
mod summary;

pub use counted::Counted;
pub use source::LoadSource;
pub use summary::Summary;
