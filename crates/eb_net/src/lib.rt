//! The outside that peers reach: doors that accept connections, posts that receive datagrams, and nets that make them
//! and dial peers, with memory forms that tell their contents, and adapters for TCP and UDP, which tell their counts of
//! faults alone.
//!
//! A door lends the link of the connection that stands. What it tells of its accepts, no read or write of that link
//! changes. A call answers `Failed` only where its count of faults rose, and the other answers leave the counts as
//! before.
//!
//! - `door`: the trait `Door`
//! - `mem_door`: a door in memory
//! - `door_link`: the connection that stands at it
//! - `post`: the trait `Post`
//! - `mem_post`: a post in memory
//! - `sockets`: TCP and UDP
//! - `net`: the trait `Net`: doors, a post and a link, by port and address
//! - `mem_net`: a net in memory
//! - `real_net`: the net of this machine
//! - `net_shelf`: what a net keeps
//! - `tries`: which calls of a form in memory fail
//! - `counts`: counts of failed reads and writes
#![tactic(auto)]

mod counts;
mod door;
mod door_link;
mod mem_door;
mod mem_net;
mod mem_post;
mod net;
mod net_shelf;
mod post;
mod real_net;
mod sockets;
mod tries;

pub use door::{Accepted, Door};
pub use door_link::DoorLink;
pub use mem_door::MemDoor;
pub use mem_net::MemNet;
pub use mem_post::MemPost;
pub use net::Net;
pub use post::Post;
pub use real_net::RealNet;
pub use sockets::{TcpDoor, TcpLink, UdpPost};
