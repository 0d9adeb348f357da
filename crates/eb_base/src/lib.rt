//! Widths, lanes, fields of octets, names, registers, and the answer of want of memory: the small types that every
//! part names.
#![tactic(auto)]

pub mod bytes;
pub mod fields;
pub mod lanes;
pub mod memory;
pub mod name;
pub mod reg;
pub mod width;

pub use bytes::Octets;
pub use fields::{get, get16, get32, get64, put, put16, put32, put64};
pub use lanes::{Lanes, place, selected, word};
pub use memory::NoMemory;
pub use name::{Name, Product};
pub use reg::{Mode, Reg, RegList};
pub use width::{Width, Widths};
