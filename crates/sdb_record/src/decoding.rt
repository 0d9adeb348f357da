//! From 64 octets to a record.
ghost use Rattle.std.specs.Prelude.{◌≡◌, ◌≤◌, IfOk, Ok, None, length};
ghost use Rattle.std.specs.Result.{result_err};
ghost use Rattle.sdb_record.specs.Text.{text_in as text_of, spaced, unprinted as unprinted_in};
ghost use Rattle.sdb_record.specs.Layout.{wishbone};
ghost use Rattle.sdb_record.specs.Relation.{IsRecord};
ghost use Rattle.sdb_record.specs.Faults.{first_fault as fault_of, type_in, has_product, bad_in_name};
ghost use Rattle.sdb_record.specs.Decoding.{decoded, product_of, record_of};

use crate::faults::{RecordFault, first_fault};
use crate::fields::{Octets, get8};
use crate::kinds::Record;
use crate::layout::*;
use crate::text::text_in;
use eb_base::{Name, Product, get16, get32, get64};

fn name_in(field: &[u8]) -> Name
    requires printed { unprinted_in (text_of field.now) ≡ None }
    requires short { length field.now ≤ 19 }
    ensures { result ≡ spaced 19 (text_of field.now) }
{
    match Name::new(text_in(field)) {
        Some(name) => name,
        None => unreachable!(),
    }
}

#[tactic(auto, unfolding(crate::specs::Decoding::product_of))]
fn product_in(bytes: &Octets) -> Product
    requires { bad_in_name bytes.now ≡ None }
    ensures { result ≡ product_of bytes.now }
{
    Product {
        vendor: get64(bytes, VENDOR_AT),
        device: get32(bytes, DEVICE_AT),
        version: get32(bytes, VERSION_AT),
        date: get32(bytes, DATE_AT),
        name: name_in(&bytes[NAME_AT..NAME_AT + NAME_LEN]),
    }
}

// The record of octets that have no fault.
#[tactic(auto, unfolding(crate::specs::Decoding::record_of))]
fn record_in(bus: u8, bytes: &Octets) -> Record
    requires { fault_of bus bytes.now ≡ None }
    ensures { result ≡ record_of bytes.now }
{
    match get8(bytes, TYPE_AT) {
        INTERCONNECT => Record::Interconnect {
            records: get16(bytes, RECORDS_AT),
            first: get64(bytes, FIRST_AT),
            last: get64(bytes, LAST_AT),
            product: product_in(bytes),
        },
        DEVICE => Record::Device {
            class: get16(bytes, CLASS_AT),
            major: get8(bytes, MAJOR_AT),
            minor: get8(bytes, MINOR_AT),
            bus_specific: get32(bytes, BUS_SPECIFIC_AT),
            first: get64(bytes, FIRST_AT),
            last: get64(bytes, LAST_AT),
            product: product_in(bytes),
        },
        BRIDGE => Record::Bridge {
            child: get64(bytes, CHILD_AT),
            first: get64(bytes, FIRST_AT),
            last: get64(bytes, LAST_AT),
            product: product_in(bytes),
        },
        INTEGRATION => Record::Integration {
            product: product_in(bytes),
        },
        _ => Record::Empty,
    }
}

fn decode_in(bus: u8, bytes: &Octets) -> Result<Record, RecordFault>
    ensures { result ≡ decoded bus bytes.now }
{
    match first_fault(bus, bytes) {
        Some(fault) => Err(fault),
        None => Ok(record_in(bus, bytes)),
    }
}

/// The record that 64 octets are, in a table of a Wishbone bus (SDB 1.1). Reserved octets may be any, and spaces and
/// zeros may stand behind a name. Else the first fault, in the order of [`crate::RecordWhy`]. It takes no memory.
pub fn decode(bytes: &[u8; 64]) -> Result<Record, RecordFault>
    ensures value { result ≡ decoded wishbone bytes.now }
    ensures related { IfOk result (λ r. IsRecord wishbone r bytes.now) }
    ensures only { (r : Record) → IsRecord wishbone r bytes.now → result ≡ Ok r }
    ensures fault { result_err result ≡ fault_of wishbone bytes.now }
{
    decode_in(WISHBONE, bytes)
}
