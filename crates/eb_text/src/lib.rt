//! The commands and their words, and the texts that the program writes. Words are a command exactly by their forms, and
//! have one; each fault has its status and its line; the build text and the listing have a line for each record.
//!
//! - `command`: the commands, read from their words
//! - `numbers`: the numbers in words
//! - `fault`: how a command ends otherwise than well
//! - `status`: the statuses of the program
//! - `lines`: the lines that tell how a command ended
//! - `build`: the text of the SDB tables of a description
//! - `listing`: the records of a tree, as text
//! - `texts`: what `--help` and `--version` show
//! - `laws`: what holds of all words and of every build text
#![tactic(auto)]

mod build;
mod command;
mod fault;
pub mod laws;
mod lines;
mod listing;
mod numbers;
mod status;
mod texts;

pub use build::write_build;
pub use command::{Command, command_of, replay_of};
pub use fault::Fault;
pub use lines::{rule_text, write_line};
pub use listing::write_listing;
pub use status::Status;
