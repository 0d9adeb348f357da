//! The records of a table.
ghost use Rattle.std.specs.Prelude.{◌≡◌, ◌+◌, ◌≤◌, ◌^◌, length};
ghost use Rattle.sdb_record.specs.Relation.{IsValid};
ghost use Rattle.soc_desc.specs.Accepted.{IsSoundBusOf, is_32_or_64};
ghost use Rattle.soc_desc.specs.declared.description.ItemDescription.TheViews.{out-BusDescription};
ghost use Rattle.sdb_build.specs.Tables.{access_widths, device_entry, interconnect, item_tables};
ghost use Rattle.soc_desc.specs.View.{made, device_shown, octets_in};
ghost use Rattle.sdb_build.specs.Sound.{IsSoundAt};

use eb_base::Width;
use sdb_record::Record;
use soc_desc::view::{DeviceView, ItemView, octets_in, on_bus};
use soc_desc::{BusDescription, ItemDescription};

/// The access widths of a device on a bus of this width, as bits.
fn access_widths(width: Width) -> u32
    ensures { result ≡ access_widths width }
{
    match width {
        Width::W8 => 1,
        Width::W16 => 3,
        Width::W32 => 7,
        Width::W64 => 15,
    }
}

/// The record of the bus itself, which counts it with the records of its items.
pub fn interconnect(bus: &BusDescription) -> Record
    requires sound { IsSoundBusOf is_32_or_64 bus.now }
    ensures value { let b = out-BusDescription bus.now in result ≡ interconnect b.product b.last (length b.items) }
    ensures valid { IsValid result }
{
    Record::Interconnect {
        records: (bus.items.len() + 1) as u16,
        first: 0,
        last: bus.last,
        product: bus.product,
    }
}

/// The record of a device on a bus of this width.
fn device_record(width: Width, seen: DeviceView) -> Record
    requires some { 1 ≤ octets_in (made seen.make) }
    requires inside { seen.at + octets_in (made seen.make) ≤ 2 ^ 64 }
    ensures value { result ≡ device_entry (device_shown seen.entry) width }
    ensures valid { IsValid result }
{
    let last = u128::from(seen.at) + (octets_in(seen.make) - 1);
    Record::Device {
        class: seen.interface.class,
        major: seen.interface.major,
        minor: seen.interface.minor,
        bus_specific: access_widths(width),
        first: seen.at,
        last: last as u64,
        product: *seen.product,
    }
}

/// The record of an item in the table of a bus of this width.
pub fn entry(width: Width, item: &ItemDescription) -> Record
    requires sound { IsSoundAt is_32_or_64 0 item.now }
    ensures value { result ≡ (item_tables item.now).entry width }
    ensures valid { IsValid result }
{
    match on_bus(item) {
        ItemView::Device(device) => device_record(width, device),
        ItemView::Bridge { product, at, bus } => Record::Bridge {
            child: at + bus.sdb,
            first: at,
            last: at + bus.last,
            product: *product,
        },
        ItemView::Note { product } => Record::Integration { product: *product },
        ItemView::Empty => Record::Empty,
    }
}
