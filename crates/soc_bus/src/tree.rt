//! From a description to the tree of its buses.
ghost use Rattle.std.specs.Prelude.{◌≡◌, ◌<◌, ◌≤◌, ◌+◌, ◌-◌, ◌%◌, ◌^◌, ◌∷◌, ◌++◌, [], true, false, length, map, OnOk, IfOk};
ghost use Rattle.eb_base.specs.declared.width.Width.TheVariants.{W32};
ghost use Rattle.soc_desc.specs.Accepted.{IsSoundBus, is_32, is_make};
ghost use Rattle.soc_desc.specs.View.{made};
ghost use Rattle.sdb_build.specs.Sound.{IsSoundAt, AreSoundItems};
ghost use Rattle.wb_signals.specs.Content.{Rom};
ghost use Rattle.wb_signals.specs.Bus.{leaf};
ghost use Rattle.wb_device.specs.State.{on_bus};
ghost use Rattle.soc_machine.specs.Described.{built, item_parts, bus_parts, parts_in, parts_of, path_wait, port_stalls};
ghost use Rattle.wb_tree.specs.Tree.{node_slave, part_slave, IsSound, IsSoundPart, AllSound};
ghost use Rattle.wb_tree.specs.Leaves.{leaf_slave};
ghost use Rattle.wb_crossbar.specs.Inside.{parts_of as slots_of, AllSound as AllSoundSlots};
ghost use Rattle.soc_core.specs.Built.{root_shown};
ghost use Rattle.soc_bus.specs.Tree.{part_built, part_listed, IsSoundGiven};

use eb_base::{NoMemory, Width};
use sdb_build::table;
use soc_desc::view::{ItemView, MakeView, octets_in, on_bus};
use soc_desc::{BusDescription, ItemDescription, PortWord};
use std::alloc::Global;
use wb_crossbar::Slot;
use wb_device::Device;
use wb_tree::{Node, Part};

/// The top slaves of a bus: its items that take addresses, in their order, then its ROM.
pub fn top_slots(alloc: Global, bus: &BusDescription) -> Result<Vec<Slot<Node>>, NoMemory>
    requires sound { IsSoundBus bus.now }
    ensures slots { IfOk result (λ s. slots_of node_slave s.items ≡ map part_built (parts_of (root_shown bus.now))) }
    ensures made { IfOk result (λ s. AllSoundSlots IsSound s.items) }
    ensures few { IfOk result (λ s. length s.items ≤ 128) }
{
    let mut slots = Vec::new(alloc);
    put_slots(alloc, bus.items.as_slice(), &mut slots)?;
    let rom = rom_part(table(alloc, bus)?, bus.sdb);
    add_slot(&mut slots, Some(rom))?;
    Ok(slots)
}

fn put_slots(
    alloc: Global,
    items: &[ItemDescription],
    slots: &mut Vec<Slot<Node>>,
) -> Result<(), NoMemory>
    requires sound { AreSoundItems is_32 0 items.now }
    requires made { AllSoundSlots IsSound slots.old.items }
    ensures slots { OnOk result (slots_of node_slave slots.new.items
        ≡ slots_of node_slave slots.old.items ++ map part_built (parts_in W32 (map item_parts items.now))) }
    ensures made { OnOk result (AllSoundSlots IsSound slots.new.items) }
{
    for item in items {
        let part = item_part(alloc, item)?;
        add_slot(slots, part)?;
    }
    Ok(())
}

/// Adds a part as a top slave, if there is one.
fn add_slot(slots: &mut Vec<Slot<Node>>, part: Option<Part>) -> Result<(), NoMemory>
    requires sound { IsSoundGiven part }
    requires made { AllSoundSlots IsSound slots.old.items }
    ensures slots { OnOk result
        (slots_of node_slave slots.new.items ≡ slots_of node_slave slots.old.items ++ part_listed part) }
    ensures made { OnOk result (AllSoundSlots IsSound slots.new.items) }
{
    if let Some(part) = part {
        put_slot(slots, part)?;
    }
    Ok(())
}

fn put_slot(slots: &mut Vec<Slot<Node>>, part: Part) -> Result<(), NoMemory>
    requires sound { IsSoundPart part }
    requires made { AllSoundSlots IsSound slots.old.items }
    ensures slots { OnOk result
        (slots_of node_slave slots.new.items ≡ slots_of node_slave slots.old.items ++ part_slave part ∷ []) }
    ensures made { OnOk result (AllSoundSlots IsSound slots.new.items) }
{
    let first = part.first;
    let last = part.last;
    let node = part.into_node();
    slots.push(Slot { first, last, node })?;
    Ok(())
}

/// A bus behind a bridge.
#[cycle(tree)]
fn bus_node(alloc: Global, bus: &BusDescription) -> Result<Node, NoMemory>
    requires sound { IsSoundBus bus.now }
    ensures slave { IfOk result (λ n. node_slave n
        ≡ record { wiring = (bus_parts bus.now).wiring; contents = (bus_parts bus.now).contents; owed = [] }) }
    ensures made { IfOk result IsSound }
{
    let mut parts = Vec::new(alloc);
    put_items(alloc, bus.items.as_slice(), &mut parts)?;
    let rom = rom_part(table(alloc, bus)?, bus.sdb);
    add(&mut parts, Some(rom))?;
    Node::bus(alloc, parts, Width::W32)
}

#[cycle(tree)]
fn put_items(
    alloc: Global,
    items: &[ItemDescription],
    parts: &mut Vec<Part>,
) -> Result<(), NoMemory>
    requires sound { AreSoundItems is_32 0 items.now }
    requires made { AllSound parts.old.items }
    ensures parts { OnOk result (map part_slave parts.new.items
        ≡ map part_slave parts.old.items ++ map part_built (parts_in W32 (map item_parts items.now))) }
    ensures made { OnOk result (AllSound parts.new.items) }
{
    for item in items {
        let part = item_part(alloc, item)?;
        add(parts, part)?;
    }
    Ok(())
}

/// The part that an item is on its bus, if it takes addresses.
#[cycle(tree)]
fn item_part(alloc: Global, item: &ItemDescription) -> Result<Option<Part>, NoMemory>
    requires sound { IsSoundAt is_32 0 item.now }
    ensures part { IfOk result (λ p. part_listed p ≡ map part_built ((item_parts item.now).parts W32)) }
    ensures made { IfOk result IsSoundGiven }
{
    match on_bus(item) {
        ItemView::Device(device) => {
            let octets = octets_in(device.make) as u64;
            let built = built(alloc, device.make)?;
            let node = joined(built, device.interface.port, device.interface.wait);
            Ok(Some(Part::new(device.at, device.at + (octets - 1), node)))
        }
        ItemView::Bridge { at, bus, .. } => {
            let node = bus_node(alloc, bus)?;
            Ok(Some(Part::new(at, at + bus.last, node)))
        }
        ItemView::Note { .. } => Ok(None),
        ItemView::Empty => Ok(None),
    }
}

/// Adds a part, if there is one.
fn add(parts: &mut Vec<Part>, part: Option<Part>) -> Result<(), NoMemory>
    requires sound { IsSoundGiven part }
    requires made { AllSound parts.old.items }
    ensures parts { OnOk result (map part_slave parts.new.items ≡ map part_slave parts.old.items ++ part_listed part) }
    ensures made { OnOk result (AllSound parts.new.items) }
{
    if let Some(part) = part {
        put_part(parts, part)?;
    }
    Ok(())
}

fn put_part(parts: &mut Vec<Part>, part: Part) -> Result<(), NoMemory>
    requires sound { IsSoundPart part }
    requires made { AllSound parts.old.items }
    ensures parts { OnOk result
        (map part_slave parts.new.items ≡ map part_slave parts.old.items ++ part_slave part ∷ []) }
    ensures made { OnOk result (AllSound parts.new.items) }
{
    parts.push(part)?;
    Ok(())
}

/// The device as it is built.
fn built(alloc: Global, make: MakeView) -> Result<Device, NoMemory>
    requires kept { is_make (made make) ≡ true }
    ensures built { IfOk result (λ d. d ≡ on_bus W32 (built (made make.entry))) }
{
    match make {
        MakeView::Ram(octets) => Device::ram(alloc, octets, Width::W32),
        MakeView::Regs(words) => Device::regs(alloc, words.as_slice()),
        MakeView::Fifo(depth) => Device::fifo(alloc, depth),
    }
}

/// A device as it is joined to its bus.
fn joined(device: Device, port: PortWord, wait: u8) -> Node
    requires wait { wait ≤ 15 }
    ensures slave { node_slave result ≡ leaf_slave device (path_wait port wait) (port_stalls port) }
    ensures made { IsSound result }
{
    match port {
        PortWord::Pipelined => Node::pipelined(device, wait),
        PortWord::Classic => Node::classic(device, wait),
        PortWord::Wrapped => Node::wrapped(device, wait),
    }
}

/// A ROM of whole records of 64 octets.
fn rom_part(octets: Vec<u8>, at: u64) -> Part
    requires words { length octets.items % 64 ≡ 0 }
    requires some { 64 ≤ length octets.items }
    requires fits { at + length octets.items ≤ 2 ^ 64 }
    ensures part { part_slave result ≡ record {
      first = at;
      last = at + length octets.items - 1;
      slave = record { wiring = leaf W32 (length octets.items) 0 false; contents = Rom octets.items ∷ []; owed = [] };
    } }
    ensures made { IsSoundPart result }
{
    let length = octets.len() as u64;
    let rom = Device::rom(octets, Width::W32);
    Part::new(at, at + (length - 1), joined(rom, PortWord::Pipelined, 0))
}
