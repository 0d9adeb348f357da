//! Where the items of each bus and its ROM stand.
ghost use Rattle.std.specs.Prelude.{◌≡◌, ◌<◌, ◌^◌, true, [], ◌∷◌, ◌++◌, length, map, option_map, Ok, IfOk};
ghost use Rattle.std.specs.List.{find};
ghost use Rattle.soc_desc.specs.Checks.{Gives};
ghost use Rattle.soc_desc.specs.Geometry.{octets_at, rom_extent, meets, spans_meet, placed, placed_after, are_placed, all_behind, extents, item_place, bus_place, spans_from, buses_from, located, all_placed, geometry};
ghost use Rattle.soc_desc.specs.declared.description.ItemDescription.TheViews.{out-BusDescription};

use crate::description::{BusDescription, ItemDescription};
use crate::fault::DescFault;
use crate::path::Path;
use crate::view::{ItemView, octets_in, on_bus};
use std::alloc::{AllocError, Global};

/// The addresses that something takes on a bus; wide enough for a range that would end beyond 64 bits.
#[derive(Clone, Copy)]
pub struct Extent {
    pub first: u128,
    pub last: u128,
}

/// An item or a ROM with the addresses that it takes.
#[derive(Drop)]
pub struct Span {
    pub path: Path,
    pub extent: Extent,
}

fn octets_at(at: u64, octets: u128) -> Extent
    requires fits { octets < 2 ^ 72 }
    ensures range { result ≡ octets_at at octets }
{
    let first = u128::from(at);
    Extent {
        first,
        last: (first + octets).saturating_sub(1),
    }
}

fn extent_of(item: &ItemDescription) -> Option<Extent>
    ensures { result ≡ (item_place item.now).extent }
{
    match on_bus(item) {
        ItemView::Device(device) => Some(octets_at(device.at, octets_in(device.make))),
        ItemView::Bridge { at, bus, .. } => Some(Extent {
            first: u128::from(at),
            last: u128::from(at) + u128::from(bus.last),
        }),
        ItemView::Note { .. } => None,
        ItemView::Empty => None,
    }
}

/// The ROM of a bus: a record of 64 octets for the bus, and one for each item.
fn rom_extent(sdb: u64, items: usize) -> Extent
    ensures { result ≡ rom_extent sdb items }
{
    octets_at(sdb, 64 * (items as u128 + 1))
}

/// Whether two ranges have an address in common.
fn meets(a: Extent, b: Extent) -> bool
    ensures { result ≡ meets a b }
{
    a.first <= b.last && b.first <= a.last
}

fn first_met<'s>(span: &Span, before: &'s [Span]) -> Option<&'s Span>
    ensures { option_map (λ s. s.now) result ≡ find (spans_meet span.now) before.now }
{
    for earlier in before {
        if meets(span.extent, earlier.extent) {
            return Some(earlier);
        }
    }
    None
}

/// Checks one span after those before it.
fn placed(alloc: Global, last: u64, before: &[Span], span: &Span) -> Result<(), DescFault>
    ensures { Gives (λ u. tt) result (placed last before.now span.now) }
{
    if span.extent.last > u128::from(last) {
        return Err(DescFault::Outside(span.path.copy(alloc)?));
    }
    match first_met(span, before) {
        None => Ok(()),
        Some(earlier) => Err(DescFault::Overlap(earlier.path.copy(alloc)?, span.path.copy(alloc)?)),
    }
}

fn spans_placed(alloc: Global, last: u64, spans: &[Span]) -> Result<(), DescFault>
    ensures { Gives (λ u. tt) result (placed_after last [] spans.now) }
{
    for i in 0..spans.len() {
        placed(alloc, last, &spans[..i], &spans[i])?;
    }
    Ok(())
}

/// The spans of the items of a bus that take addresses, in order.
fn item_spans(
    alloc: Global,
    path: &Path,
    items: &[ItemDescription],
) -> Result<Vec<Span>, AllocError>
    ensures { IfOk result (λ v. v.items ≡ spans_from path.now 0 (map item_place items.now)) }
{
    let mut spans = Vec::new(alloc);
    for i in 0..items.len() {
        if let Some(extent) = extent_of(&items[i]) {
            spans.push(Span {
                path: path.nth(alloc, i)?,
                extent,
            })?;
        }
    }
    Ok(spans)
}

/// The spans of all that takes addresses on a bus, the ROM last.
fn bus_spans(alloc: Global, path: &Path, bus: &BusDescription) -> Result<Vec<Span>, AllocError>
    ensures { let b = out-BusDescription bus.now in
        IfOk result (λ v. v.items ≡ (located path.now b.last b.sdb (map item_place b.items)).spans) }
{
    let inner = path.key(alloc, "items")?;
    let mut spans = item_spans(alloc, &inner, bus.items.as_slice())?;
    spans.push(Span {
        path: path.key(alloc, "sdb")?,
        extent: rom_extent(bus.sdb, bus.items.len()),
    })?;
    Ok(spans)
}

/// Checks what stands on one bus.
fn bus_placed(alloc: Global, path: &Path, bus: &BusDescription) -> Result<(), DescFault>
    ensures found { let b = out-BusDescription bus.now in
        Gives (λ u. tt) result
        (placed_after b.last [] (located path.now b.last b.sdb (map item_place b.items)).spans) }
    ensures sound { let b = out-BusDescription bus.now in
        IfOk result
        (λ u. are_placed b.last (extents (map item_place b.items)
        ++ rom_extent b.sdb (length (map item_place b.items)) ∷ []) ≡ true) }
{
    let spans = bus_spans(alloc, path, bus)?;
    spans_placed(alloc, bus.last, &spans)
}

/// Checks what stands on a bus, and on each bus under it in pre-order.
#[cycle(geometry)]
pub fn geometry(alloc: Global, path: &Path, bus: &BusDescription) -> Result<(), DescFault>
    ensures found { Gives (λ u. tt) result (geometry path.now bus.now) }
    ensures sound { IfOk result (λ u. (bus_place bus.now).placed ≡ true) }
{
    bus_placed(alloc, path, bus)?;
    let inner = path.key(alloc, "items")?;
    inner_placed(alloc, &inner, bus.items.as_slice())
}

#[cycle(geometry)]
fn inner_placed(alloc: Global, path: &Path, items: &[ItemDescription]) -> Result<(), DescFault>
    ensures found { Gives (λ u. tt) result (all_placed (buses_from path.now 0 (map item_place items.now))) }
    ensures sound { IfOk result (λ u. all_behind (map item_place items.now) ≡ true) }
{
    for i in 0..items.len() {
        let inner = path.nth(alloc, i)?;
        item_placed(alloc, &inner, &items[i])?;
    }
    Ok(())
}

#[cycle(geometry)]
fn item_placed(alloc: Global, path: &Path, item: &ItemDescription) -> Result<(), DescFault>
    ensures found { Gives (λ u. tt) result (all_placed ((item_place item.now).buses path.now)) }
    ensures sound { IfOk result (λ u. (item_place item.now).placed ≡ true) }
{
    match item {
        ItemDescription::Bridge { bus, .. } => {
            let inner = path.key(alloc, "bus")?;
            geometry(alloc, &inner, bus)
        }
        _ => Ok(()),
    }
}
