//! Tests of nets: that octets and datagrams come through real sockets, which no contract says, and one of a net in
//! memory.
//!
//! - `ports`: ports of this machine
//! - `tcp`: connections over loopback
//! - `udp`: datagrams over loopback
//! - `memory`: a net in memory
#![tactic(auto)]

#[cfg(test)]
mod memory;
#[cfg(test)]
mod ports;
#[cfg(test)]
mod tcp;
#[cfg(test)]
mod udp;
