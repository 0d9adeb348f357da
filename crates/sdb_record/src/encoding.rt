//! From a record to its 64 octets.
ghost use Rattle.std.specs.Prelude.{◌≡◌, Ok, ◌++◌};
ghost use Rattle.sdb_record.specs.declared.kinds.Record.TheVariants.{Interconnect};
ghost use Rattle.sdb_record.specs.Layout.{wishbone, product_fields, component_fields, interface_fields, type_field, fields as fields_of};
ghost use Rattle.sdb_record.specs.Relation.{IsValid, IsRecord, FitFields, with_fields, encoded};
ghost use Rattle.sdb_record.specs.Decoding.{decoded};

use crate::fields::{Octets, put_name, put8, put16, put32, put64};
use crate::kinds::Record;
use crate::layout::*;
use eb_base::Product;

// The fields from the product on.
fn put_product(out: &mut Octets, product: &Product, kind: u8)
    ensures written { out.new ≡ with_fields out.old (product_fields product.now ++ type_field kind) }
    ensures fit { FitFields (product_fields product.now ++ type_field kind) }
{
    put64(out, VENDOR_AT, product.vendor);
    put32(out, DEVICE_AT, product.device);
    put32(out, VERSION_AT, product.version);
    put32(out, DATE_AT, product.date);
    put_name(out, NAME_AT, &product.name);
    put8(out, TYPE_AT, kind);
}

// The fields from the range on.
fn put_component(out: &mut Octets, first: u64, last: u64, product: &Product, kind: u8)
    ensures written { out.new ≡ with_fields out.old (component_fields first last product.now ++ type_field kind) }
    ensures fit { FitFields (component_fields first last product.now ++ type_field kind) }
{
    put64(out, FIRST_AT, first);
    put64(out, LAST_AT, last);
    put_product(out, product, kind);
}

fn put_interconnect(out: &mut Octets, records: u16, first: u64, last: u64, product: &Product)
    ensures written { out.new ≡ with_fields out.old (fields_of wishbone (Interconnect records first last product.now)) }
    ensures fit { FitFields (fields_of wishbone (Interconnect records first last product.now)) }
{
    put32(out, MAGIC_AT, MAGIC);
    put16(out, RECORDS_AT, records);
    put8(out, FORMAT_AT, FORMAT);
    put8(out, BUS_TYPE_AT, WISHBONE);
    put_component(out, first, last, product, INTERCONNECT);
}

// What a device's record begins with.
fn put_interface(out: &mut Octets, class: u16, major: u8, minor: u8, bus_specific: u32)
    ensures written { out.new ≡ with_fields out.old (interface_fields class major minor bus_specific) }
    ensures fit { FitFields (interface_fields class major minor bus_specific) }
{
    put16(out, CLASS_AT, class);
    put8(out, MAJOR_AT, major);
    put8(out, MINOR_AT, minor);
    put32(out, BUS_SPECIFIC_AT, bus_specific);
}

// All fields of a record.
fn put_record(out: &mut Octets, value: &Record)
    ensures written { out.new ≡ with_fields out.old (fields_of wishbone value.now) }
    ensures fit { FitFields (fields_of wishbone value.now) }
{
    match value {
        Record::Interconnect {
            records,
            first,
            last,
            product,
        } => put_interconnect(out, *records, *first, *last, product),
        Record::Device {
            class,
            major,
            minor,
            bus_specific,
            first,
            last,
            product,
        } => {
            put_interface(out, *class, *major, *minor, *bus_specific);
            put_component(out, *first, *last, product, DEVICE);
        }
        Record::Bridge {
            child,
            first,
            last,
            product,
        } => {
            put64(out, CHILD_AT, *child);
            put_component(out, *first, *last, product, BRIDGE);
        }
        Record::Integration { product } => put_product(out, product, INTEGRATION),
        Record::Empty => put8(out, TYPE_AT, EMPTY),
    }
}

/// The 64 octets of a record (SDB 1.1), in a table of a Wishbone bus. Reserved octets are zero, and a name is padded
/// with spaces. The record is valid: an interconnect counts at least itself, and no first address is above the last.
/// It takes no memory.
pub fn encode(value: &Record) -> [u8; 64]
    requires valid { IsValid value.now }
    ensures octets { result ≡ encoded wishbone value.now }
    ensures related { IsRecord wishbone value.now result }
    ensures again { decoded wishbone result ≡ Ok value.now }
{
    let mut out = [0; RECORD_LEN];
    put_record(&mut out, value);
    out
}
