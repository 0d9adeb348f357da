//! The encoders of items, and the fields that they write.

ghost use Rattle.std.specs.Prelude.{◌≡◌, ◌<◌, ◌≤◌, ◌+◌, ◌-◌, ◌*◌, ◌^◌, ◌++◌, length, flat_map, replicate, All, OnOk, OnErr, vec_len, vec_capacity};
ghost use Rattle.eb_base.specs.Width.{octets as width_octets};
ghost use Rattle.eb_base.specs.Field.{octets_of};
ghost use Rattle.eb_codec.specs.Sizes.{field_octets, gap};
ghost use Rattle.eb_codec.specs.Form.{zeroed, field, part, header_form, probe_form, record_form, FitsProbe, FitsRecord, KeepsRules};
ghost use Rattle.eb_codec.specs.Reading.{part_octets, record_octets};

use crate::flags::{MAGIC, NR, PF, VERSION};
use crate::item::{Header, Probe, Record};
use crate::sizes::{field_len, record_len, trailing, unit_len};
use crate::words::Words;
use eb_base::{NoMemory, Width};

const ZEROS: [u8; 8] = [0; 8];

/// Appends octets for which there is room.
#[inline(always)]
pub fn put(out: &mut Vec<u8>, octets: &[u8])
    requires { vec_len out.old + length octets.now ≤ vec_capacity out.old }
    ensures items { out.new.items ≡ out.old.items ++ octets.now }
    ensures len { vec_len out.new ≡ vec_len out.old + length octets.now }
    ensures capacity { vec_capacity out.old ≤ vec_capacity out.new }
{
    match out.extend_from_slice(octets) {
        Ok(()) => {}
        Err(_) => unreachable!(),
    }
}

/// Appends padding for which there is room.
#[inline(always)]
pub fn put_zeros(out: &mut Vec<u8>, n: usize)
    requires room { vec_len out.old + n ≤ vec_capacity out.old }
    requires few { n ≤ 8 }
    ensures items { out.new.items ≡ out.old.items ++ replicate n 0 }
    ensures len { vec_len out.new ≡ vec_len out.old + n }
    ensures capacity { vec_capacity out.old ≤ vec_capacity out.new }
{
    put(out, &ZEROS[..n]);
}

// Appends the octets of a number.
#[tactic(auto, unfolding(eb_base::specs::Field::octets_of))]
#[inline(always)]
fn put_number(out: &mut Vec<u8>, width: Width, n: u64)
    requires room { vec_len out.old + width_octets width ≤ vec_capacity out.old }
    requires fits { n < 256 ^ width_octets width }
    ensures items { out.new.items ≡ out.old.items ++ octets_of width n }
    ensures len { vec_len out.new ≡ vec_len out.old + width_octets width }
    ensures capacity { vec_capacity out.old ≤ vec_capacity out.new }
{
    match width {
        Width::W8 => put(out, &(n as u8).to_be_bytes()),
        Width::W16 => put(out, &(n as u16).to_be_bytes()),
        Width::W32 => put(out, &(n as u32).to_be_bytes()),
        Width::W64 => put(out, &n.to_be_bytes()),
    }
}

/// Appends a number in its field, for which there is room.
#[inline(always)]
pub fn put_field(out: &mut Vec<u8>, header: Header, width: Width, n: u64)
    requires room { vec_len out.old + field_octets header ≤ vec_capacity out.old }
    requires fits { n < 256 ^ width_octets width }
    requires narrow { width_octets width ≤ field_octets header }
    ensures items { out.new.items ≡ out.old.items ++ zeroed (field header width n) }
    ensures len { vec_len out.new ≡ vec_len out.old + field_octets header }
    ensures capacity { vec_capacity out.old ≤ vec_capacity out.new }
{
    put_zeros(out, field_len(header) - width.octets() as usize);
    put_number(out, width, n);
}

// Appends numbers, each in a field.
fn put_fields(out: &mut Vec<u8>, header: Header, width: Width, numbers: &Words)
    requires room { vec_len out.old + field_octets header * length numbers.now ≤ vec_capacity out.old }
    requires fit { All (λ v. v < 256 ^ width_octets width) numbers.now }
    requires narrow { width_octets width ≤ field_octets header }
    ensures items { out.new.items ≡ out.old.items ++ zeroed (flat_map (field header width) numbers.now) }
    ensures len { vec_len out.new ≡ vec_len out.old + field_octets header * length numbers.now }
    ensures capacity { vec_capacity out.old ≤ vec_capacity out.new }
{
    for i in 0..numbers.len() {
        put_field(out, header, width, *numbers.get(i));
    }
}

// Appends a base and its numbers, nothing where there are none.
fn put_part(out: &mut Vec<u8>, header: Header, width: Width, base: u64, numbers: &Words)
    requires room { vec_len out.old + part_octets header (length numbers.now) ≤ vec_capacity out.old }
    requires base_fits { base < 256 ^ width_octets header.address }
    requires fit { All (λ v. v < 256 ^ width_octets width) numbers.now }
    requires narrow { width_octets width ≤ field_octets header }
    ensures items { out.new.items ≡ out.old.items ++ zeroed (part header width base numbers.now) }
    ensures len { vec_len out.new ≡ vec_len out.old + part_octets header (length numbers.now) }
    ensures capacity { vec_capacity out.old ≤ vec_capacity out.new }
{
    if numbers.len() == 0 {
        return;
    }
    put_field(out, header, header.address, base);
    put_fields(out, header, width, numbers);
}

// Appends a record, for which there is room.
fn put_record(out: &mut Vec<u8>, header: Header, item: &Record)
    requires room { vec_len out.old + record_octets header item.now.head.writes item.now.head.reads
        ≤ vec_capacity out.old }
    requires fits { FitsRecord header item.now }
    ensures { out.new.items ≡ out.old.items ++ zeroed (record_form header item.now) }
{
    let head = item.head;
    let unit = unit_len(header);
    put(out, &[head.flags, head.enable, head.writes, head.reads]);
    put_zeros(out, unit - 4);
    put_part(out, header, header.port, item.write_base, &item.values);
    put_part(
        out,
        header,
        header.address,
        item.return_base,
        &item.addresses,
    );
    put_zeros(out, trailing(header, head.writes, head.reads));
}

/// Appends the octets of a record behind this header, with zero padding.
///
/// They are its head of 4 octets, then, in fields as wide as the widest of an address, a value and 2 octets, the base
/// address of the writes and the values, and the base address of the reply and the addresses to read, each part only
/// where it has numbers. Numbers stand at the end of their fields, the highest octet first. The whole is padded to a
/// multiple of 4 octets, of 8 where a field has 8, and has 4,104 at most.
///
/// Its condition is that the record fits the header's widths and breaks no rule. Room for all octets is taken first:
/// after `NoMemory` nothing has been appended.
pub fn encode_record(header: &Header, item: &Record, out: &mut Vec<u8>) -> Result<(), NoMemory>
    requires fits { FitsRecord header.now item.now }
    requires legal { KeepsRules header.now item.now.head }
    ensures ok { OnOk result (out.new.items ≡ out.old.items ++ zeroed (record_form header.now item.now)) }
    ensures err { OnErr result (out.new.items ≡ out.old.items) }
{
    let len = record_len(*header, item.head.writes, item.head.reads);
    if out.reserve(len).is_err() {
        return Err(NoMemory);
    }
    put_record(out, *header, item);
    Ok(())
}

/// Appends the octets of a header, with zero padding: the magic; version 1 in the high half of an octet whose flag NR
/// says that no reply is wanted; the bits of the address width and the port width in the halves of the next. They are 4
/// octets, and 8 where one of the widths is 64 bits.
///
/// Room for all of them is taken first: after `NoMemory` nothing has been appended.
pub fn encode_header(header: &Header, out: &mut Vec<u8>) -> Result<(), NoMemory>
    ensures ok { OnOk result (out.new.items ≡ out.old.items ++ zeroed (header_form header.now)) }
    ensures err { OnErr result (out.new.items ≡ out.old.items) }
{
    let unit = unit_len(*header);
    if out.reserve(unit).is_err() {
        return Err(NoMemory);
    }
    let version = if header.no_reply {
        VERSION + NR
    } else {
        VERSION
    };
    let widths = 16 * header.address.bit() + header.port.bit();
    put(out, &[MAGIC[0], MAGIC[1], version, widths]);
    put_zeros(out, unit - 4);
    Ok(())
}

/// Appends the 8 octets of a probe: the magic, version 1 with the flag PF, the two sets of widths in the halves of an
/// octet, and the id, its highest octet first. A slave answers it where it has a width of each set.
///
/// Room for all of them is taken first: after `NoMemory` nothing has been appended.
#[tactic(auto, unfolding(eb_base::specs::Field::octets_of))]
pub fn encode_probe(probe: &Probe, out: &mut Vec<u8>) -> Result<(), NoMemory>
    requires fits { FitsProbe probe.now }
    ensures ok { OnOk result (out.new.items ≡ out.old.items ++ zeroed (probe_form probe.now)) }
    ensures err { OnErr result (out.new.items ≡ out.old.items) }
{
    if out.reserve(8).is_err() {
        return Err(NoMemory);
    }
    let version = if probe.no_reply {
        VERSION + NR + PF
    } else {
        VERSION + PF
    };
    let widths = 16 * probe.widths.addresses + probe.widths.ports;
    put(out, &[MAGIC[0], MAGIC[1], version, widths]);
    put(out, &probe.id.to_be_bytes());
    Ok(())
}
