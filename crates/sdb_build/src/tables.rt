//! The octets of a table.
ghost use Rattle.std.specs.Prelude.{◌≡◌, ◌+◌, ◌*◌, ◌++◌, length, map, vec_len, IfOk, OnOk};
ghost use Rattle.sdb_record.specs.Layout.{wishbone};
ghost use Rattle.sdb_record.specs.Relation.{IsValid, encoded};
ghost use Rattle.soc_desc.specs.Accepted.{IsSoundBusOf, is_32_or_64};
ghost use Rattle.soc_desc.specs.declared.description.ItemDescription.TheViews.{out-BusDescription};
ghost use Rattle.sdb_build.specs.Tables.{spelled, entries, item_tables, image_of};
ghost use Rattle.sdb_build.specs.Sound.{AreSoundItems};

use crate::records::{entry, interconnect};
use eb_base::{NoMemory, Width};
use sdb_record::{Record, encode};
use soc_desc::{BusDescription, ItemDescription};
use std::alloc::{AllocError, Global};

/// The octets of a record.
const RECORD_LEN: usize = 64;

fn push_record(out: &mut Vec<u8>, value: &Record) -> Result<(), AllocError>
    requires { IsValid value.now }
    ensures octets { OnOk result (out.new.items ≡ out.old.items ++ encoded wishbone value.now) }
    ensures len { OnOk result (vec_len out.new ≡ vec_len out.old + 64) }
{
    out.extend_from_slice(&encode(value))
}

fn push_entries(
    out: &mut Vec<u8>,
    width: Width,
    items: &[ItemDescription],
) -> Result<(), AllocError>
    requires { AreSoundItems is_32_or_64 0 items.now }
    ensures octets { OnOk result (out.new.items
        ≡ out.old.items ++ spelled (entries width (map item_tables items.now))) }
    ensures len { OnOk result (vec_len out.new ≡ vec_len out.old + 64 * length items.now) }
{
    for item in items {
        push_record(out, &entry(width, item))?;
    }
    Ok(())
}

/// The SDB table of a bus, as the octets of its ROM: 64 for the bus itself and 64 for each item, in their order.
/// Addresses in it are relative to the base of the bus, reserved octets are zero, and names are padded with spaces.
pub fn table(alloc: Global, bus: &BusDescription) -> Result<Vec<u8>, NoMemory>
    requires sound { IsSoundBusOf is_32_or_64 bus.now }
    ensures octets { IfOk result (λ v. v.items ≡ image_of bus.now) }
    ensures len { let b = out-BusDescription bus.now in IfOk result (λ v. vec_len v ≡ 64 * (length b.items + 1)) }
{
    let mut out = Vec::with_capacity(alloc, RECORD_LEN * (bus.items.len() + 1))?;
    push_record(&mut out, &interconnect(bus))?;
    push_entries(&mut out, bus.width, bus.items.as_slice())?;
    Ok(out)
}
