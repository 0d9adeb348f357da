//! The server of a described bus: peers connect to ports of this machine, and each port is a master of the bus.
//!
//! Words are a command exactly by their forms, and have one. A command reads its description, makes a door at a port
//! for each master, serves the connections of all of them beside each other, and writes how they ended, and the journal
//! of the bus. Its contract says all of it: what goes out tells one legal history of the described bus, of which each
//! port's master made its own part. The doors stand in the net afterwards. That it returns is not claimed, since it
//! waits for peers.
//!
//! - `command`: the commands, read from their words
//! - `numbers`: the numbers in words
//! - `fault`: how a command ends otherwise than well
//! - `lines`: the lines that tell how a command ended
//! - `doors`: doors made at ports, and served
//! - `ports`: the command `serve`
//! - `posts`: the command `serve-udp`
//! - `around`: what a server meets
//! - `run`: the top call
//! - `laws`: what holds of all words
#![tactic(auto)]

mod around;
pub mod command;
mod doors;
pub mod fault;
pub mod laws;
mod lines;
mod numbers;
mod ports;
mod posts;
mod run;

pub use around::Around;
pub use command::{Asked, Serving, serving_of};
pub use fault::ServingFault;
pub use lines::write_serving_line;
pub use run::run_serving;
