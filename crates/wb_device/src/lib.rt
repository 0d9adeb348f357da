//! Devices on a Wishbone bus of 32 or 64 data bits: RAM, ROM, registers, and a FIFO, whose words `circular_buffer`
//! keeps.
//!
//! An operation on a device makes of what it holds exactly what the device function says, and has its answer.
//!
//! `Held` and `Piped` make the same operations clock by clock, on a classic and on a pipelined bus.
//!
//! - `device`: a device of any kind, and an operation on it
//! - `memory`: RAM and ROM
//! - `registers`: registers
//! - `fifo`: the FIFO
//! - `lanes`: the selected lanes of a word
//! - `held`: a device on a classic bus, clock by clock
//! - `piped`: a device on a pipelined bus, clock by clock
#![tactic(auto)]

mod device;
mod fifo;
mod held;
mod lanes;
mod memory;
mod piped;
mod registers;

pub use device::Device;
pub use held::Held;
pub use piped::Piped;
