//! The core of a bus that several masters share on a clock: its state and its events as definitions, and their laws.
//!
//! A core has for each port where it stands, the pairs of its open cycle, the operations that it has loaded, and the
//! answers that it got and is owed; and it has what the places of the bus hold, the port that the arbiter looks at
//! first, and the journal. Its events are that a port raises CYC for a set of slaves, is loaded with operations, has
//! its answers taken, or releases CYC, and that the bus makes a tick. No code here runs a bus: the crate of the bus
//! makes each of its calls exactly one event.
//!
//! A core is sound as it is built, and each event keeps it so: the journal is a legal history; held sets are disjoint;
//! places hold what the operations that ran make of them; the answers of an open cycle are those of the whole cycle;
//! and the requests of a port that have no answer are never more than the depth. Each load has all its answers after a
//! number of ticks that is known when it is made.
//!
//! - `laws`: what holds of every core and every event
//!
//! In `specs`: `Fabric`, what a bus is made of; `Core`, the state and the events; `Sound`, when it is sound, and the
//! memory that it needs; `Events`, lists of events; `Stakes`, what an event leaves to others; `Run`, what ticks keep;
//! `Built`, the bus of a description; `Laws`, the statements of the laws.
#![tactic(auto)]

pub mod laws;
