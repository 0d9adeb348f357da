//! The client of a slave at the other end of a link: it lists what is there, reads a word, or writes one.
//!
//! Words are a command exactly by their forms, and have one. A command opens a host over the link, with all widths of
//! addresses and one width of the port, asks for what it needs, and hands the link back. What goes over the link is the
//! exchange of that host, and what is shown is the answer to it: the digits of a word, a listing, or a fault, which has
//! a status and a line.
//!
//! - `command`: the commands, read from their words
//! - `numbers`: the numbers in words
//! - `place`: the place of an access, from its word
//! - `fault`: how a command ends otherwise than well
//! - `lines`: the lines that tell how a command ended
//! - `plain_link`: a link of which nothing is known but its octets
//! - `asking`: one operation over a link
//! - `access`: one word read or written over a link
//! - `listing`: discovery over a link
//! - `task`: a command over a link
//! - `run`: the top call
//! - `laws`: what holds of all words
#![tactic(auto)]

mod access;
mod asking;
pub mod command;
pub mod fault;
pub mod laws;
mod lines;
mod listing;
mod numbers;
mod place;
pub mod plain_link;
mod run;
mod task;

pub use access::{read_over, write_over};
pub use command::{ClientCommand, client_command_of};
pub use fault::{ClientFault, WalkWhy};
pub use lines::write_client_line;
pub use listing::ls_over;
pub use run::run_client;
pub use task::client_over;
