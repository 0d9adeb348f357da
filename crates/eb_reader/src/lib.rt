//! Words of 32 bits read through a host, as discovery asks for them.
//!
//! Each word is a cycle of one read. An error of the bus is told as such, and a fault of the host as the reader's
//! cause. Clauses see all that was asked and answered, and that the host read just this; memory keeps none of it, and
//! no read takes any.
//!
//! - `reader`: the reader
#![tactic(auto)]

mod reader;

pub use reader::HostReader;
