//! What an Etherbone slave makes of a stream: the bus cycles of its items, the entries that fit them, the error shift
//! register, configuration words, and the reply. `Session` runs a stream on any master, in any pieces. Its contract:
//! the entries fit the cycles of the items that ran, and the replies are those of these items with these answers.
//!
//! - `slave`: a slave, and the widths that it has
//! - `session`: the session of one stream
//! - `operations`: the operations of a record
//! - `short`: a short record, its operations and its reply
//! - `running`: what a session asks of its master
//! - `replying`: the replies to items
//! - `configuration`: the configuration space, and the error register
//! - `course`: the laws of whole runs
#![tactic(auto)]

mod configuration;
pub mod course;
mod operations;
mod replying;
mod running;
pub mod session;
mod short;
mod slave;

pub use session::{End, Fed, Session};
pub use slave::Slave;
