//! Ports that are served beside each other on the bus of a description, one thread each; a post that is served there;
//! and the texts of both.
//!
//! `serve` serves each door's connections as a master of its own. Its contract says all of it: the journal is one legal
//! history of the described system, and each port was served as one alone is, with its master's own part of it. That
//! it returns is not claimed, since its threads wait for peers and for each other. `serve_datagrams` serves the
//! datagrams of a post by the master 0, and says the same of it.
//!
//! - `datagrams`: datagrams served
//! - `datagram_text`: the text of served datagrams
//! - `lanes`: the lanes of the doors, and what is kept of them
//! - `running`: ports served
//! - `served`: what is kept of served ports, and of datagrams
//! - `text`: the text of served ports
//! - `unclean`: the first that didn't end clean
#![tactic(auto)]

mod datagram_text;
mod datagrams;
mod lanes;
mod running;
mod served;
mod text;
mod unclean;

pub use datagrams::serve_datagrams;
pub use running::serve;
pub use served::{ServedDatagrams, ServedPorts};
pub use unclean::Unclean;
