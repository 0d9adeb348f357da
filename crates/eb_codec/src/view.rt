//! A whole record as one value, whose numbers are read where they lie.

ghost use Rattle.std.specs.Prelude.{◌≡◌, ◌<◌, ◌≤◌, ◌+◌, ◌^◌, length, slice_index, drop, IfSome};
ghost use Rattle.eb_base.specs.Width.{octets as width_octets};
ghost use Rattle.eb_codec.specs.Form.{FitsRecord, KeepsRules};
ghost use Rattle.eb_codec.specs.Sizes.{field_octets, unit_octets};
ghost use Rattle.eb_codec.specs.Reading.{record_of, base_in, list_in, part_octets, IsRecord};

use crate::item::{Header, RecordHead};
use crate::reading::read_head;
use crate::sizes::{field_len, part_len, unit_len};
use eb_base::{Width, get};
use std::marker::Model;

/// A whole record in its octets, with the header that it stands behind. Contracts see the two.
#[derive(Drop)]
pub struct RecordView<'a> {
    header: Header,
    octets: &'a [u8],
}

impl<'a> Model for RecordView<'a> {
    ghost use Rattle.eb_codec.specs.Reading.{record_of, RecordBehind, IsRecord};

    ghost Value = { RecordBehind };

    ghost view = { λ v. record { header = v.header; item = record_of v.header v.octets.now } };

    ghost invariant = { λ v. IsRecord v.header v.octets.now };
}

impl<'a> RecordView<'a> {
    /// The record that these octets spell behind the header.
    pub fn new(header: Header, octets: &'a [u8]) -> RecordView<'a>
        requires spelled { IsRecord header octets.now }
        ensures value { result ≡ record { header = header; item = record_of header octets.now } }
    {
        RecordView { header, octets }
    }

    /// The same record, where its addresses and its port have 32 bits. The compiler then knows these widths.
    #[inline(always)]
    pub fn words(&self) -> Option<RecordView<'a>>
        ensures same { IfSome result (λ v. v ≡ self.now) }
    {
        let no_reply = self.header.no_reply;
        match (self.header.address, self.header.port) {
            (Width::W32, Width::W32) => Some(RecordView {
                header: Header {
                    no_reply,
                    address: Width::W32,
                    port: Width::W32,
                },
                octets: self.octets,
            }),
            _ => None,
        }
    }

    /// The header that the record stands behind.
    #[inline(always)]
    pub fn header(&self) -> Header
        ensures value { result ≡ self.now.header }
    {
        self.header
    }

    /// The record's first four octets. The record has as many numbers as they say, and breaks no rule.
    #[inline(always)]
    pub fn head(&self) -> RecordHead
        ensures value { result ≡ self.now.item.head }
        ensures fits { FitsRecord self.now.header self.now.item }
        ensures rules { KeepsRules self.now.header self.now.item.head }
    {
        read_head(self.octets)
    }

    /// The base address of the writes, 0 where there are none.
    #[inline(always)]
    pub fn write_base(&self) -> u64
        ensures value { result ≡ self.now.item.write_base }
        ensures most { result < 256 ^ width_octets self.now.header.address }
    {
        let part = unit_len(self.header);
        base_at(self.header, self.octets, part, self.octets[2])
    }

    /// The value of number i, from 0.
    #[inline(always)]
    pub fn value(&self, i: usize) -> u64
        requires there { i < self.now.item.head.writes }
        ensures value { result ≡ slice_index self.now.item.values i }
        ensures most { result < 256 ^ width_octets self.now.header.port }
    {
        let (header, octets) = (self.header, self.octets);
        let part = unit_len(header);
        number_at(header, header.port, octets, part, octets[2], i)
    }

    /// The base address of the reply, 0 where nothing is read.
    #[inline(always)]
    pub fn return_base(&self) -> u64
        ensures value { result ≡ self.now.item.return_base }
        ensures most { result < 256 ^ width_octets self.now.header.address }
    {
        let part = second_part(self.header, self.octets);
        base_at(self.header, self.octets, part, self.octets[3])
    }

    /// The address of number i, from 0, that is read.
    #[inline(always)]
    pub fn address(&self, i: usize) -> u64
        requires there { i < self.now.item.head.reads }
        ensures value { result ≡ slice_index self.now.item.addresses i }
        ensures most { result < 256 ^ width_octets self.now.header.address }
    {
        let (header, octets) = (self.header, self.octets);
        let part = second_part(header, octets);
        number_at(header, header.address, octets, part, octets[3], i)
    }
}

// Where a number begins in its field.
#[inline(always)]
fn offset(header: Header, width: Width) -> usize
    requires { width_octets width ≤ field_octets header }
    ensures { result + width_octets width ≡ field_octets header }
{
    field_len(header) - width.octets() as usize
}

// The base address of the part that begins at an octet.
#[inline(always)]
fn base_at(header: Header, octets: &[u8], part: usize, count: u8) -> u64
    requires within { part + part_octets header count ≤ length octets.now }
    ensures { result ≡ base_in header count (drop part octets.now) }
{
    if count == 0 {
        0
    } else {
        get(
            header.address,
            octets,
            part + offset(header, header.address),
        )
    }
}

// A number of the list of the part that begins at an octet.
#[inline(always)]
fn number_at(header: Header, width: Width, octets: &[u8], part: usize, count: u8, i: usize) -> u64
    requires within { part + part_octets header count ≤ length octets.now }
    requires there { i < count }
    requires fits { width_octets width ≤ field_octets header }
    ensures { result ≡ slice_index (list_in header width count (drop part octets.now)) i }
{
    let field = field_len(header);
    let at = part + (field + (field * i + offset(header, width)));
    get(width, octets, at)
}

// Where the part of the reads begins.
#[inline(always)]
fn second_part(header: Header, octets: &[u8]) -> usize
    requires { 4 ≤ length octets.now }
    ensures { result ≡ unit_octets header + part_octets header (slice_index octets.now 2) }
{
    unit_len(header) + part_len(header, octets[2])
}
