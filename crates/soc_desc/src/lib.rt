//! The JSON description of a system on a chip: its buses, what stands on them, and its masters. `serde_json` reads it.
//!
//! A description is accepted exactly where it breaks no rule; else the first broken one is named, with its path. What
//! is accepted keeps every limit.
//!
//! - `description`: what was read
//! - `view`: what an item is on its bus, whatever its kind
//! - `reading`: from a text to a description, in four stages
//! - `shape`, `checks`: the objects with their keys, and the checks of one value
//! - `geometry`: where items and ROMs stand
//! - `totals`: how much there is in all buses together
//! - `fault`, `path`: the broken rule, and where
//! - `laws`: what a sound bus and its items keep
#![tactic(auto)]

mod checks;
pub mod description;
pub mod fault;
mod geometry;
pub mod laws;
pub mod path;
mod reading;
mod shape;
mod totals;
pub mod view;

pub use description::{BusDescription, Description, ItemDescription, Items, PortWord};
pub use fault::DescFault;
pub use path::Path;
pub use reading::read;
