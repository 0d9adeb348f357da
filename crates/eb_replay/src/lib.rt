//! Captures that are replayed beside each other on the bus of a description, one thread each, and the text of that.
//!
//! `replay` serves each file's stream as a master of its own, and keeps the replies in memory. Its contract says all of
//! it: the journal is one legal history of the described system, each file's octets were served with its master's own
//! part of it, and the replies are whole. That it returns is not claimed, since its threads wait for each other.
//!
//! - `capture`: a file as a link that keeps what is written to it
//! - `digits`: a reply in digits
//! - `ends`: how the ending of a stream is told
//! - `lanes`: the lanes of the files, and what is kept of them
//! - `replayed`: what is kept of a replay
//! - `running`: a replay
//! - `text`: the text of a replay
#![tactic(auto)]

mod capture;
mod digits;
mod ends;
mod lanes;
mod replayed;
mod running;
mod text;

pub use capture::CaptureLink;
pub use ends::end_text;
pub use replayed::{Replayed, ReplayedPort};
pub use running::replay;
