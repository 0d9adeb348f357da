//! The tables of the Self-Describing Bus (SDB 1.1) of the buses of a description, and the ROM images that hold them.
//!
//! The octets of each table are those of its records, 64 for each, at the absolute address of its bus's ROM. Buses may
//! have 32 or 64 data bits.
//!
//! - `records`: the record of a bus and of an item
//! - `tables`: the octets of a table
//! - `image`: the images of all buses
//! - `laws`: what holds of the images of every description
#![tactic(auto)]

pub mod image;
pub mod laws;
mod records;
mod tables;

pub use image::{Image, images};
pub use tables::table;
