//! The items of a stream, and the rules that they keep.

use crate::words::Words;
use eb_base::{Width, Widths};

/// The header of an Etherbone 1.0 stream: whether replies are unwanted (the flag NR), the width of each address and
/// that of the port, which is the width of each value.
#[derive(Clone, Copy, Debug, PartialEq, Eq)]
pub struct Header {
    pub no_reply: bool,
    pub address: Width,
    pub port: Width,
}

/// A probe (the flag PF): it asks a slave for its widths. Each set is four bits: 1, 2, 4 and 8 for 8, 16, 32 and 64
/// bits. The answer carries the same id. The flag NR changes nothing.
#[derive(Clone, Copy, Debug, PartialEq, Eq)]
pub struct Probe {
    pub no_reply: bool,
    pub widths: Widths,
    pub id: u32,
}

/// The first four octets of a record: its flags, the byte enable of each access (bit i selects octet i of a word, the
/// lowest being the least significant), and how many values it writes and addresses it reads.
///
/// The flags are those of `flags`.
#[derive(Clone, Copy, Debug, PartialEq, Eq)]
pub struct RecordHead {
    pub flags: u8,
    pub enable: u8,
    pub writes: u8,
    pub reads: u8,
}

/// A record: values to write from a base address on, and addresses to read, with the base address of the reply. Where
/// there are no values or no addresses, that base is 0.
#[derive(Drop, Debug)]
pub struct Record {
    pub head: RecordHead,
    pub write_base: u64,
    pub values: Words,
    pub return_base: u64,
    pub addresses: Words,
}

/// The rules that an octet of a stream may break, in the order of their numbers. Where one octet breaks several, the
/// first of them is told. Octets are counted from the item's first as 0.
#[derive(Clone, Copy, Debug, PartialEq, Eq)]
pub enum Why {
    /// Octet 0 or 1 of a header or probe isn't the magic.
    Magic,
    /// The high half of octet 2 isn't version 1.
    Version,
    /// Octet 2 has the flag PR: an answer to a probe.
    Response,
    /// Octet 2 has the reserved bit.
    Reserved,
    /// Octet 3 of a probe has a set with no width that the slave has; that of a header a half that isn't exactly one
    /// width that the slave has.
    Width,
    /// Octet 0 of a record has a reserved bit.
    Flag,
    /// Octet 1 of a record enables an octet beyond the port: it is `2^P` or more, for a port of P octets.
    Beyond,
    /// Octet 2 or 3 of a record, its byte enable being 0, is a count that isn't 0.
    NoEnable,
    /// Octet 3 of a record, after a header that wants no reply, is a count that isn't 0.
    NoReply,
}
