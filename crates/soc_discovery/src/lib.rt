//! Discovery of a described system: what a walk through its SDB tables finds.
//!
//! The tree of a description is made of the same records as its tables. A law says that a walk whose words are those
//! that the system gives, as it is built, finds exactly this tree: all ways, records and absolute ranges. It is a law
//! on definitions, so the crate has no code beside it.
//!
//! - `laws`: what a walk finds on every accepted description
#![tactic(auto)]

pub mod laws;
