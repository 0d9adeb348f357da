//! The journal of a bus: the cycles that have ended, in order, with the operations of each and their answers. `push`
//! adds one entry and needs a spare place; the text is exact; and the laws say how a history grows while several
//! masters add to it.
//!
//! - `pair`: an operation with its answer, and the list of those of a cycle
//! - `entry`: a cycle that has ended
//! - `journal`: the entries and the spare places
//! - `text`: the text of a journal
//! - `laws`: how a history grows
#![tactic(auto)]

mod entry;
mod journal;
pub mod laws;
mod pair;
mod text;

pub use entry::Entry;
pub use journal::Journal;
pub use pair::{Pair, Pairs};
