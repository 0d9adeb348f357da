//! The grammar of an Etherbone 1.0 stream, as forms with holes where padding stands, its encoders, and a decoder that
//! takes a stream in any pieces and keeps one item in a fixed room.
//!
//! A stream is any number of probes, then at most one header, then records. All numbers in it are big-endian. The
//! decoder gives exactly the items, one at a time, in any pieces, and refuses exactly the first bad octet with the
//! lowest rule that it breaks.
//!
//! - `flags`: the magic and the flags
//! - `item`: probes, headers, records, and the rules
//! - `words`: a list of numbers
//! - `sizes`: how many octets the parts of an item take
//! - `encoding`: the encoders
//! - `event`: what a call of the decoder answers
//! - `decoder`: the decoder
//! - `short`: a short record
//! - `view`: a whole record as one value
//! - `laws`: what holds of all runs of the decoder, of the encoders and of the grammar
//! - `rules`: the rule that an octet breaks
//! - `reading`: whole octets read as items
//! - `room`: the decoder's room
#![tactic(auto)]

pub mod decoder;
pub mod encoding;
pub mod event;
pub mod flags;
pub mod item;
pub mod laws;
mod reading;
mod room;
mod rules;
pub mod short;
pub mod sizes;
pub mod view;
pub mod words;

pub use decoder::Decoder;
pub use event::{Item, Malformed, Step};
pub use item::{Header, Probe, Record, RecordHead, Why};
pub use short::ShortRecord;
pub use view::RecordView;
pub use words::Words;
