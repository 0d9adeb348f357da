//! How much a description has in all its buses together.
ghost use Rattle.std.specs.Prelude.{◌≡◌, ◌≤◌, map, IfOk};
ghost use Rattle.soc_desc.specs.Checks.{Gives};
ghost use Rattle.soc_desc.specs.Totals.{of, plus, capped, item_totals, bus_totals, ram_in, within, sum_of};
ghost use Rattle.soc_desc.specs.View.{made};

use crate::description::{BusDescription, ItemDescription};
use crate::fault::DescFault;
use crate::path::Path;
use crate::view::{ItemView, MakeView, on_bus};
use std::alloc::Global;

/// Devices, records of SDB tables, and octets of RAM.
#[derive(Clone, Copy)]
pub struct Totals {
    pub devices: u64,
    pub records: u64,
    pub ram: u64,
}

fn of(devices: u64, records: u64, ram: u64) -> Totals
    ensures { result ≡ of devices records ram }
{
    Totals {
        devices,
        records,
        ram,
    }
}

fn plus(a: Totals, b: Totals) -> Totals
    ensures { result ≡ capped (plus a b) }
{
    Totals {
        devices: a.devices.saturating_add(b.devices),
        records: a.records.saturating_add(b.records),
        ram: a.ram.saturating_add(b.ram),
    }
}

#[cycle(totals)]
fn bus_totals(bus: &BusDescription) -> Totals
    ensures { result ≡ capped (bus_totals bus.now) }
{
    let own = Totals {
        devices: 0,
        records: 1,
        ram: 0,
    };
    plus(own, items_totals(bus.items.as_slice()))
}

#[cycle(totals)]
fn items_totals(items: &[ItemDescription]) -> Totals
    ensures { result ≡ capped (sum_of (map item_totals items.now)) }
{
    let mut sum = of(0, 0, 0);
    for item in items {
        sum = plus(sum, item_totals(item));
    }
    sum
}

#[cycle(totals)]
fn item_totals(item: &ItemDescription) -> Totals
    ensures { result ≡ capped (item_totals item.now) }
{
    match on_bus(item) {
        ItemView::Device(device) => of(1, 1, ram_in(device.make)),
        ItemView::Bridge { bus, .. } => plus(of(0, 1, 0), bus_totals(bus)),
        ItemView::Note { .. } => of(0, 1, 0),
        ItemView::Empty => of(0, 1, 0),
    }
}

/// The octets of RAM that a device has.
fn ram_in(make: MakeView) -> u64
    ensures { result ≡ ram_in (made make.entry) }
{
    match make {
        MakeView::Ram(size) => u64::from(size),
        MakeView::Regs(_) => 0,
        MakeView::Fifo(_) => 0,
    }
}

/// Checks the totals of a bus with all buses under it.
pub fn within_limits(alloc: Global, path: &Path, bus: &BusDescription) -> Result<(), DescFault>
    ensures found { Gives (λ u. tt) result (within path.now (bus_totals bus.now)) }
    ensures devices { IfOk result (λ u. (bus_totals bus.now).devices ≤ 256) }
    ensures records { IfOk result (λ u. (bus_totals bus.now).records ≤ 4096) }
    ensures ram { IfOk result (λ u. (bus_totals bus.now).ram ≤ 16777216) }
{
    let totals = bus_totals(bus);
    if totals.devices > 256 || totals.records > 4096 {
        return Err(DescFault::TooMany(path.copy(alloc)?));
    }
    if totals.ram > 16_777_216 {
        return Err(DescFault::Range(path.copy(alloc)?));
    }
    Ok(())
}
