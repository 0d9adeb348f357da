//! What peers reach is served: the connections of a port, one after another, and the datagrams of a post. Each
//! connection and each datagram has a session of its own, and an ending. Its contract: what was received, which items
//! ran, what was sent for them, and where the port or post stopped. Several ports are served beside each other, in a
//! thread each, as masters of one bus, and the contract of each is that of a port served alone.
//!
//! - `ends`: how the connections or datagrams ended
//! - `post`: datagrams, one after another
//! - `datagram`: one datagram
//! - `port`: connections, one after another
//! - `ports`: ports beside each other
#![tactic(auto)]

mod datagram;
mod ends;
mod port;
mod ports;
mod post;

pub use ends::Ends;
pub use port::serve_port;
pub use ports::{PortLane, serve_ports};
pub use post::serve_post;
