//! The outside as traits: `Source`, `Sink`, `Link`, `World`, with memory forms that tell their contents, and adapters
//! for readers and writers of std, real files among them. What an object tells is one ghost record a trait; content
//! that isn't told makes an equation trivial and never a premise. A call answers `Failed` only where its count of
//! faults rose, and the other answers leave the counts as before. A text is written in one way: lines that are made in
//! place (`Line`), `put_all`, and `?`.
//!
//! - `source`: the trait `Source`, reading to the end, a source in memory
//! - `sink`: the trait `Sink`, writing a whole text, a sink in memory
//! - `count`: a sink that counts
//! - `line`: a line of text, with numbers in decimal and hexadecimal digits
//! - `link`: the trait `Link`, a link in memory
//! - `page`: texts that are gathered before they are written
//! - `world`: the trait `World`, a world in memory
//! - `adapters`: readers and writers of std, and the real files
//! - `shelf`: what a world keeps
//! - `calls`: which calls of a form in memory fail
#![tactic(auto)]

mod adapters;
mod calls;
mod count;
mod line;
mod link;
mod page;
mod shelf;
mod sink;
mod source;
mod world;

pub use adapters::{ReadSource, RealWorld, WriteSink};
pub use count::CountSink;
pub use line::Line;
pub use link::{Link, MemLink};
pub use page::Page;
pub use sink::{MemSink, Put, Sink, WriteFault, put_all, put_each};
pub use source::{Gathered, Got, MemSource, Source, gather};
pub use world::{MemWorld, Opened, World};
