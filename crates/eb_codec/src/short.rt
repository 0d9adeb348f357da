//! A short record: one write and one read of 32 bits, told at once.

ghost use Rattle.std.specs.Prelude.{◌≡◌, ◌↔◌, IsTrue, Some, take};
ghost use Rattle.eb_codec.specs.Reading.{record_of};
ghost use Rattle.eb_codec.specs.Short.{BeginsShort, short_header, short_record};

use crate::item::Header;
use eb_base::{Width, get32};

/// The octets of a short record.
pub const SHORT: usize = 20;

/// The flags that a short record lacks: all but `BCA` and `CYC`.
pub const LONG_FLAGS: u8 = 0x77;

/// A record of one write and one read, both of 32 bits with all lanes, whose flags are at most `BCA` and `CYC`.
#[derive(Clone, Copy, Debug, PartialEq, Eq)]
pub struct ShortRecord {
    pub flags: u8,
    pub write_base: u32,
    pub value: u32,
    pub return_base: u32,
    pub address: u32,
}

/// Whether records behind this header may be short.
#[inline(always)]
pub fn lets_short(header: Option<Header>) -> bool
    ensures lets { IsTrue result ↔ (header ≡ Some short_header) }
{
    matches!(
        header,
        Some(Header {
            no_reply: false,
            address: Width::W32,
            port: Width::W32,
        })
    )
}

/// Whether the octets begin with a short record, behind a header that lets it be one.
#[inline(always)]
pub fn begins_short(octets: &[u8]) -> bool
    ensures begins { IsTrue result ↔ BeginsShort octets.now }
{
    if octets.len() < SHORT {
        return false;
    }
    if octets[1] != 15 || octets[2] != 1 || octets[3] != 1 {
        return false;
    }
    octets[0] & LONG_FLAGS == 0
}

/// The short record that the octets begin with.
#[inline(always)]
pub fn read_short(octets: &[u8]) -> ShortRecord
    requires { BeginsShort octets.now }
    ensures { record_of short_header (take 20 octets.now) ≡ short_record result }
{
    ShortRecord {
        flags: octets[0],
        write_base: get32(octets, 4),
        value: get32(octets, 8),
        return_base: get32(octets, 12),
        address: get32(octets, 16),
    }
}
