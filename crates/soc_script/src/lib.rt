//! Scripts of a bus with several masters: lines, each with its master, the clock from which on it may run, whether it
//! ends its cycle, and its operations.
//!
//! `read_script` reads the text of one. It accepts a text with these lines exactly where the text spells them by every
//! rule and they keep every limit, and else refuses it at the first line that doesn't, which the fault names. The laws
//! say that a text has one script or one such line, never both.
//!
//! - `digits`: numbers in digits
//! - `pieces`: the pieces of a text, one after another
//! - `operation`: an operation from its word
//! - `line`: a line of a script, and its text
//! - `script`: a script, and its text
//! - `fault`: why a text was refused
//! - `laws`: what holds of scripts and their texts
#![tactic(auto)]

mod digits;
mod fault;
pub mod laws;
mod line;
mod operation;
mod pieces;
mod script;

pub use fault::ScriptFault;
pub use line::ScriptLine;
pub use script::{Script, read_script};
