//! Discovery of a described system, as a host at the other end of a link does it: a bus is built from the
//! description, a session serves one of its ports in memory, and a host over that link reads the root table's address
//! and walks.
//!
//! Every word that the walk reads goes out as octets of the host, runs as a cycle of the bus, and comes back as octets
//! of the slave. That what is found is the description's tree follows from the contracts of all of these: the octets
//! have one list of items, the entries are the only legal history of their cycles, and the replies are theirs.
//!
//! - `touring`: discovery over a link to a session, on any master; and of a description
#![tactic(auto)]

mod touring;

pub use touring::{tour_described, tour_over};
