//! A bus that several masters share, clock by clock.
//!
//! A `Bus` is built from a description. Each of its calls is one event of the core of a bus, whose definitions and
//! laws are those of `soc_core`: a master's port raises CYC for a set of slaves, is loaded with operations once it is
//! granted them, has the answers taken, and releases CYC; a tick is one clock of all ports. The core is sound after
//! each call: the journal is a legal history at every moment, and no port has more unanswered requests than the depth.
//!
//! What becomes of the cycles is a parameter of the bus: with a `Journal` its entries stand in memory, with `Unkept`
//! clauses alone see them, and memory doesn't grow with what runs. Contracts tell the same of both.
//!
//! `Local` is one port of a bus whose other ports are idle, as a master of sessions.
//!
//! - `alone`: one clock in which one port alone is active
//! - `bus`: the bus and its calls
//! - `clock`: one clock of all ports, after the grants
//! - `cycle`: the cycle of a port, its phase and its pairs
//! - `grant`: who is granted
//! - `kept`: entries and pairs in memory
//! - `ledgered`: a bus as a value that threads take in turns
//! - `local`: one port as a master
//! - `phase`: where a port stands
//! - `recorder`: what becomes of the cycles of a bus
//! - `sets`: sets of top slaves
//! - `tree`: from a description to the tree of its buses
//! - `unkept`: entries and pairs that only clauses see
//! - `waiting`: ticks until a port has its answers
#![tactic(auto)]

mod alone;
mod bus;
mod clock;
mod cycle;
mod grant;
mod kept;
mod ledgered;
mod local;
mod phase;
mod recorder;
mod sets;
mod tree;
mod unkept;
mod waiting;

pub use bus::Bus;
pub use cycle::Cycle;
pub use local::Local;
pub use phase::Phase;
pub use recorder::{BusRecorder, PairRecorder};
pub use unkept::Unkept;
pub use waiting::run_all;
