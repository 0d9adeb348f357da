//! The magic and the flags of Etherbone 1.0. Definitions cite them by these names.

/// The first two octets of a header or probe.
pub const MAGIC: [u8; 2] = [0x4e, 0x6f];

// Octet 2 of a header or probe.

/// Version 1, in the high half.
pub const VERSION: u8 = 0x10;
/// A reserved bit.
pub const RESERVED: u8 = 0x08;
/// No reply is wanted.
pub const NR: u8 = 0x04;
/// The answer to a probe.
pub const PR: u8 = 0x02;
/// A probe.
pub const PF: u8 = 0x01;

// Octet 0 of a record.

/// The base address of the reply is one of configuration space.
pub const BCA: u8 = 0x80;
/// The reads are of configuration space.
pub const RCA: u8 = 0x40;
/// All words of the reply go to its base address.
pub const RFF: u8 = 0x20;
/// The cycle ends after the record.
pub const CYC: u8 = 0x08;
/// The writes are to configuration space.
pub const WCA: u8 = 0x04;
/// All writes go to the base address.
pub const WFF: u8 = 0x02;
/// The reserved bits.
pub const RESERVED_FLAGS: u8 = 0x11;
