//! The ROM images of the buses of a description.
ghost use Rattle.std.specs.Prelude.{◌≡◌, ◌+◌, ◌<◌, ◌^◌, ◌++◌, ◌∷◌, [], map, IfOk, OnOk};
ghost use Rattle.soc_desc.specs.Accepted.{IsSoundBusOf, is_32_or_64};
ghost use Rattle.soc_desc.specs.declared.description.ItemDescription.TheViews.{out-BusDescription};
ghost use Rattle.sdb_build.specs.Tables.{item_tables, image_at, images_behind, bus_images, images_of};
ghost use Rattle.sdb_build.specs.Sound.{IsSoundAt, AreSoundItems};

use crate::tables::table;
use eb_base::{NoMemory, Octets};
use soc_desc::{BusDescription, Description, ItemDescription};
use std::alloc::Global;

/// A ROM: the absolute address of its first octet, and its octets.
#[derive(Debug, Drop)]
pub struct Image {
    pub at: u64,
    pub octets: Octets,
}

/// The image of a bus with this base.
fn push_image(
    alloc: Global,
    images: &mut Vec<Image>,
    base: u64,
    bus: &BusDescription,
) -> Result<(), NoMemory>
    requires sound { IsSoundBusOf is_32_or_64 bus.now }
    requires inside { base + (out-BusDescription bus.now).last < 2 ^ 64 }
    ensures { OnOk result (images.new.items ≡ images.old.items ++ image_at bus.now base ∷ []) }
{
    let octets = Octets::of(table(alloc, bus)?);
    images.push(Image {
        at: base + bus.sdb,
        octets,
    })?;
    Ok(())
}

/// The images of a bus with this base and of all buses under it, in pre-order.
#[cycle(images)]
fn push_bus(
    alloc: Global,
    images: &mut Vec<Image>,
    base: u64,
    bus: &BusDescription,
) -> Result<(), NoMemory>
    requires sound { IsSoundBusOf is_32_or_64 bus.now }
    requires inside { base + (out-BusDescription bus.now).last < 2 ^ 64 }
    ensures { OnOk result (images.new.items ≡ images.old.items ++ bus_images bus.now base) }
{
    push_image(alloc, images, base, bus)?;
    push_behind(alloc, images, base, bus.items.as_slice())
}

#[cycle(images)]
fn push_behind(
    alloc: Global,
    images: &mut Vec<Image>,
    base: u64,
    items: &[ItemDescription],
) -> Result<(), NoMemory>
    requires sound { AreSoundItems is_32_or_64 base items.now }
    ensures { OnOk result (images.new.items ≡ images.old.items ++ images_behind base (map item_tables items.now)) }
{
    for item in items {
        push_item(alloc, images, base, item)?;
    }
    Ok(())
}

#[cycle(images)]
fn push_item(
    alloc: Global,
    images: &mut Vec<Image>,
    base: u64,
    item: &ItemDescription,
) -> Result<(), NoMemory>
    requires sound { IsSoundAt is_32_or_64 base item.now }
    ensures { OnOk result (images.new.items ≡ images.old.items ++ (item_tables item.now).images base) }
{
    match item {
        ItemDescription::Bridge { at, bus, .. } => push_bus(alloc, images, base + *at, bus),
        _ => Ok(()),
    }
}

/// The ROM images of a description: one for each bus, the root first and each bus before those behind its bridges, in
/// the order of the items. Their addresses are absolute: the root's base is 0, and that of a bus behind a bridge is
/// the base of the bridge's bus with the bridge's address.
pub fn images(alloc: Global, description: &Description) -> Result<Vec<Image>, NoMemory>
    requires sound { IsSoundBusOf is_32_or_64 description.now.bus }
    ensures images { IfOk result (λ v. v.items ≡ images_of description.now) }
{
    let mut images = Vec::new(alloc);
    push_bus(alloc, &mut images, 0, &description.bus)?;
    Ok(images)
}
