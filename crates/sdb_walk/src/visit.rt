//! A record that is to be read.
use crate::found::Steps;

/// A record of a table that is still to be read. Its range, if it has one, must lie in that from `first` to `last`.
#[derive(Debug, Drop)]
pub struct Visit {
    /// The absolute address of its first octet.
    pub at: u64,
    /// The base of the table's bus, from which the addresses in its records count.
    pub base: u64,
    /// The way to the bridge of that bus; no steps for the root's.
    pub bridge: Steps,
    /// Its number in the table, from 0.
    pub index: u16,
    pub first: u64,
    pub last: u64,
}
