//! The records of the Self-Describing Bus (SDB 1.1), 64 octets each.
//!
//! One table of fields serves both ways: a record has exactly the octets that the table gives, and octets are a
//! record's or have their first fault.
//!
//! - `kinds`: the five records
//! - `encoding`: from a record to its octets
//! - `decoding`: from octets to a record
//! - `faults`: what can be wrong with octets
//! - `layout`: where the fields begin
//! - `fields`: numbers in octets
//! - `text`: names in octets
#![tactic(auto)]

pub mod decoding;
pub mod encoding;
pub mod faults;
mod fields;
pub mod kinds;
mod layout;
mod text;

pub use decoding::decode;
pub use encoding::encode;
pub use faults::{RecordFault, RecordWhy};
pub use kinds::Record;
