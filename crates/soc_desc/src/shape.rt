//! The objects of a description, each by its table of keys.
ghost use Rattle.std.specs.Prelude.{◌≡◌, ◌≤◌, ◌+◌, IfOk, true, map, length};
ghost use Rattle.std.specs.List.{list_all};
ghost use Rattle.serde_json.specs.View.{view, items_view, members_view};
ghost use Rattle.soc_desc.specs.Checks.{Gives, from_to, required, optional, word, list, each_from, known};
ghost use Rattle.soc_desc.specs.Shape.{product, name, reg, modes, ports, kinds, interface, ram_item, regs_item, fifo_item, integration_item, bridge_item, item, bus_of, bus, root, keys, device_keys};
ghost use Rattle.soc_desc.specs.Accepted.{all_of, greatest, is_padded, is_product, is_reg, is_interface, is_32, item_fields, bus_fields, item_levels, bus_levels};

use crate::checks::{Range, find, known, number_at, number_or, object, object_of};
use crate::description::{BusDescription, Description, ItemDescription, Items, PortWord};
use crate::fault::DescFault;
use crate::path::Path;
use crate::view::Interface;
use eb_base::{Mode, Name, Product, Reg, RegList, Width};
use serde_json::{Map, Value};
use std::alloc::Global;

/// The numbers from one to another.
fn from_to(least: u64, most: u64) -> Range
    ensures range { result ≡ from_to least most }
{
    Range {
        least,
        most,
        step: 1,
        rest: 0,
    }
}

const ADDRESS: Range = Range {
    least: 0,
    most: u64::MAX,
    step: 4,
    rest: 0,
};

const LAST: Range = Range {
    least: 0,
    most: u64::MAX,
    step: 4,
    rest: 3,
};

const RAM_SIZE: Range = Range {
    least: 4,
    most: 1_048_576,
    step: 4,
    rest: 0,
};

/// The kind of an item.
#[derive(Clone, Copy)]
pub enum ItemKind {
    Ram,
    Regs,
    Fifo,
    Bridge,
    Integration,
    Empty,
}

fn name_at(
    alloc: Global,
    path: &Path,
    members: &Map<String, Value>,
    key: &str,
) -> Result<Name, DescFault>
    ensures found { Gives (λ n. n) result (required name path.now key.now (members_view members.now.entries)) }
    ensures padded { IfOk result (λ n. is_padded n ≡ true) }
{
    let Some(value) = find(members, key) else {
        return Err(DescFault::Missing(path.key(alloc, key)?));
    };
    let Some(text) = value.as_str() else {
        return Err(DescFault::Kind(path.key(alloc, key)?));
    };
    match Name::new(text.as_bytes()) {
        Some(name) => Ok(name),
        None => Err(DescFault::Name(path.key(alloc, key)?)),
    }
}

fn mode_at(
    alloc: Global,
    path: &Path,
    members: &Map<String, Value>,
    key: &str,
) -> Result<Mode, DescFault>
    ensures { Gives (λ m. m) result (required (word modes) path.now key.now (members_view members.now.entries)) }
{
    let Some(value) = find(members, key) else {
        return Err(DescFault::Missing(path.key(alloc, key)?));
    };
    match value.as_str() {
        Some("ro") => Ok(Mode::Ro),
        Some("rw") => Ok(Mode::Rw),
        Some("w1c") => Ok(Mode::W1c),
        _ => Err(DescFault::Kind(path.key(alloc, key)?)),
    }
}

fn port_or(
    alloc: Global,
    path: &Path,
    members: &Map<String, Value>,
    key: &str,
    missing: PortWord,
) -> Result<PortWord, DescFault>
    ensures { Gives (λ p. p) result
        (optional (word ports) missing path.now key.now (members_view members.now.entries)) }
{
    let Some(value) = find(members, key) else {
        return Ok(missing);
    };
    match value.as_str() {
        Some("pipelined") => Ok(PortWord::Pipelined),
        Some("classic") => Ok(PortWord::Classic),
        Some("wrapped") => Ok(PortWord::Wrapped),
        _ => Err(DescFault::Kind(path.key(alloc, key)?)),
    }
}

#[tactic(auto, unfolding(crate::specs::Shape::product))]
fn product(alloc: Global, path: &Path, value: &Value) -> Result<Product, DescFault>
    ensures found { Gives (λ p. p) result (product path.now (view value.now)) }
    ensures fields { IfOk result (λ p. is_product p ≡ true) }
{
    let members = object_of(
        alloc,
        path,
        value,
        &["vendor", "device", "version", "date", "name"],
    )?;
    let vendor = number_at(alloc, path, members, "vendor", from_to(0, u64::MAX))?;
    let device = number_at(alloc, path, members, "device", from_to(0, 0xffff_ffff))? as u32;
    let version = number_at(alloc, path, members, "version", from_to(0, 0xffff_ffff))? as u32;
    let date = number_at(alloc, path, members, "date", from_to(0, 0xffff_ffff))? as u32;
    let name = name_at(alloc, path, members, "name")?;
    Ok(Product {
        vendor,
        device,
        version,
        date,
        name,
    })
}

fn product_at(
    alloc: Global,
    path: &Path,
    members: &Map<String, Value>,
    key: &str,
) -> Result<Product, DescFault>
    ensures found { Gives (λ p. p) result (required product path.now key.now (members_view members.now.entries)) }
    ensures fields { IfOk result (λ p. is_product p ≡ true) }
{
    match find(members, key) {
        None => Err(DescFault::Missing(path.key(alloc, key)?)),
        Some(value) => {
            let inner = path.key(alloc, key)?;
            product(alloc, &inner, value)
        }
    }
}

#[tactic(auto, unfolding(crate::specs::Shape::reg))]
fn reg(alloc: Global, path: &Path, value: &Value) -> Result<Reg, DescFault>
    ensures found { Gives (λ r. r) result (reg path.now (view value.now)) }
    ensures fields { IfOk result (λ r. is_reg r ≡ true) }
{
    let members = object_of(alloc, path, value, &["mode", "reset"])?;
    let mode = mode_at(alloc, path, members, "mode")?;
    let reset = number_or(alloc, path, members, "reset", from_to(0, 0xffff_ffff), 0)? as u32;
    Ok(Reg { mode, reset })
}

#[tactic(auto, unfolding(crate::specs::Shape::interface))]
fn interface_at(
    alloc: Global,
    path: &Path,
    members: &Map<String, Value>,
) -> Result<Interface, DescFault>
    ensures found { Gives (λ a. a) result (interface path.now (members_view members.now.entries)) }
    ensures fields { IfOk result (λ a. is_interface a ≡ true) }
{
    let port = port_or(alloc, path, members, "port", PortWord::Pipelined)?;
    let wait = number_or(alloc, path, members, "wait", from_to(0, 15), 0)? as u8;
    let class = number_or(alloc, path, members, "abi_class", from_to(0, 0xffff), 0)? as u16;
    let major = number_or(alloc, path, members, "abi_major", from_to(0, 0xff), 0)? as u8;
    let minor = number_or(alloc, path, members, "abi_minor", from_to(0, 0xff), 0)? as u8;
    Ok(Interface {
        port,
        wait,
        class,
        major,
        minor,
    })
}

#[tactic(auto, using(crate::proofs::Each::items_len_is))]
fn words_at(
    alloc: Global,
    path: &Path,
    members: &Map<String, Value>,
    key: &str,
) -> Result<RegList, DescFault>
    ensures found { Gives (λ v. v) result
        (required (list 1 1024 reg) path.now key.now (members_view members.now.entries)) }
    ensures fields { IfOk result (λ v. list_all is_reg v ≡ true) }
    ensures count { IfOk result (λ v. (1 ≤ length v) × (length v ≤ 1024)) }
{
    let Some(value) = find(members, key) else {
        return Err(DescFault::Missing(path.key(alloc, key)?));
    };
    let inner = path.key(alloc, key)?;
    let Some(values) = value.as_array() else {
        return Err(DescFault::Kind(inner));
    };
    if values.len() > 1024 {
        return Err(DescFault::TooMany(inner));
    }
    if values.is_empty() {
        return Err(DescFault::Range(inner));
    }
    regs(alloc, &inner, values)
}

fn regs(alloc: Global, path: &Path, values: &Vec<Value>) -> Result<RegList, DescFault>
    ensures found { Gives (λ v. v) result (each_from reg path.now 0 (items_view values.now.items)) }
    ensures fields { IfOk result (λ v. list_all is_reg v ≡ true) }
    ensures count { IfOk result (λ v. length v ≡ length values.now.items) }
{
    let mut regs = Vec::new(alloc);
    for i in 0..values.len() {
        let inner = path.nth(alloc, i)?;
        let one = reg(alloc, &inner, &values[i])?;
        regs.push(one)?;
    }
    Ok(RegList::of(regs))
}

fn kind_at(
    alloc: Global,
    path: &Path,
    members: &Map<String, Value>,
    key: &str,
) -> Result<ItemKind, DescFault>
    ensures { Gives (λ k. k) result (required (word kinds) path.now key.now (members_view members.now.entries)) }
{
    let Some(value) = find(members, key) else {
        return Err(DescFault::Missing(path.key(alloc, key)?));
    };
    match value.as_str() {
        Some("ram") => Ok(ItemKind::Ram),
        Some("regs") => Ok(ItemKind::Regs),
        Some("fifo") => Ok(ItemKind::Fifo),
        Some("bridge") => Ok(ItemKind::Bridge),
        Some("integration") => Ok(ItemKind::Integration),
        Some("empty") => Ok(ItemKind::Empty),
        _ => Err(DescFault::Kind(path.key(alloc, key)?)),
    }
}

/// The members of a device, if it has no keys but those of its kind, of which `own` is the one that no other kind has.
fn known_device<'v>(
    alloc: Global,
    path: &Path,
    members: &'v Map<String, Value>,
    own: &str,
) -> Result<&'v Map<String, Value>, DescFault>
    ensures { Gives (λ m. members_view m.now.entries) result
        (known (device_keys own.now) path.now (members_view members.now.entries)) }
{
    let keys = [
        "kind",
        "product",
        "at",
        own,
        "port",
        "wait",
        "abi_class",
        "abi_major",
        "abi_minor",
    ];
    known(alloc, path, members, &keys)
}

/// The members of an item, if it has no keys but those of its kind.
fn known_for<'v>(
    alloc: Global,
    path: &Path,
    members: &'v Map<String, Value>,
    kind: ItemKind,
) -> Result<&'v Map<String, Value>, DescFault>
    ensures { Gives (λ m. members_view m.now.entries) result
        (known (keys kind) path.now (members_view members.now.entries)) }
{
    match kind {
        ItemKind::Ram => known_device(alloc, path, members, "size"),
        ItemKind::Regs => known_device(alloc, path, members, "words"),
        ItemKind::Fifo => known_device(alloc, path, members, "depth"),
        ItemKind::Bridge => known(alloc, path, members, &["kind", "product", "at", "bus"]),
        ItemKind::Integration => known(alloc, path, members, &["kind", "product"]),
        ItemKind::Empty => known(alloc, path, members, &["kind"]),
    }
}

#[tactic(auto, unfolding(crate::specs::Shape::ram_item))]
fn ram_item(
    alloc: Global,
    path: &Path,
    members: &Map<String, Value>,
) -> Result<ItemDescription, DescFault>
    ensures found { Gives (λ i. i) result (ram_item path.now (members_view members.now.entries)) }
    ensures levels { IfOk result (λ i. item_levels i ≡ 0) }
    ensures fields { IfOk result (λ i. item_fields is_32 i ≡ true) }
{
    let product = product_at(alloc, path, members, "product")?;
    let at = number_at(alloc, path, members, "at", ADDRESS)?;
    let size = number_at(alloc, path, members, "size", RAM_SIZE)? as u32;
    let interface = interface_at(alloc, path, members)?;
    Ok(ItemDescription::Ram {
        product,
        at,
        size,
        port: interface.port,
        wait: interface.wait,
        class: interface.class,
        major: interface.major,
        minor: interface.minor,
    })
}

#[tactic(auto, unfolding(crate::specs::Shape::regs_item))]
fn regs_item(
    alloc: Global,
    path: &Path,
    members: &Map<String, Value>,
) -> Result<ItemDescription, DescFault>
    ensures found { Gives (λ i. i) result (regs_item path.now (members_view members.now.entries)) }
    ensures levels { IfOk result (λ i. item_levels i ≡ 0) }
    ensures fields { IfOk result (λ i. item_fields is_32 i ≡ true) }
{
    let product = product_at(alloc, path, members, "product")?;
    let at = number_at(alloc, path, members, "at", ADDRESS)?;
    let words = words_at(alloc, path, members, "words")?;
    let interface = interface_at(alloc, path, members)?;
    Ok(ItemDescription::Regs {
        product,
        at,
        words,
        port: interface.port,
        wait: interface.wait,
        class: interface.class,
        major: interface.major,
        minor: interface.minor,
    })
}

#[tactic(auto, unfolding(crate::specs::Shape::fifo_item))]
fn fifo_item(
    alloc: Global,
    path: &Path,
    members: &Map<String, Value>,
) -> Result<ItemDescription, DescFault>
    ensures found { Gives (λ i. i) result (fifo_item path.now (members_view members.now.entries)) }
    ensures levels { IfOk result (λ i. item_levels i ≡ 0) }
    ensures fields { IfOk result (λ i. item_fields is_32 i ≡ true) }
{
    let product = product_at(alloc, path, members, "product")?;
    let at = number_at(alloc, path, members, "at", ADDRESS)?;
    let depth = number_at(alloc, path, members, "depth", from_to(1, 1024))? as u32;
    let interface = interface_at(alloc, path, members)?;
    Ok(ItemDescription::Fifo {
        product,
        at,
        depth,
        port: interface.port,
        wait: interface.wait,
        class: interface.class,
        major: interface.major,
        minor: interface.minor,
    })
}

#[tactic(auto, unfolding(crate::specs::Shape::integration_item))]
fn integration_item(
    alloc: Global,
    path: &Path,
    members: &Map<String, Value>,
) -> Result<ItemDescription, DescFault>
    ensures found { Gives (λ i. i) result (integration_item path.now (members_view members.now.entries)) }
    ensures levels { IfOk result (λ i. item_levels i ≡ 0) }
    ensures fields { IfOk result (λ i. item_fields is_32 i ≡ true) }
{
    let product = product_at(alloc, path, members, "product")?;
    Ok(ItemDescription::Integration { product })
}

#[cycle(bus)]
#[tactic(auto, unfolding(crate::specs::Shape::bridge_item))]
fn bridge_item(
    alloc: Global,
    path: &Path,
    members: &Map<String, Value>,
    levels: u32,
) -> Result<ItemDescription, DescFault>
    ensures found { Gives (λ i. i) result (bridge_item (bus levels) path.now (members_view members.now.entries)) }
    ensures levels { IfOk result (λ i. item_levels i ≤ levels) }
    ensures fields { IfOk result (λ i. item_fields is_32 i ≡ true) }
{
    let product = product_at(alloc, path, members, "product")?;
    let at = number_at(alloc, path, members, "at", ADDRESS)?;
    let bus = bus_at(alloc, path, members, "bus", levels)?;
    Ok(ItemDescription::Bridge { product, at, bus })
}

#[cycle(bus)]
#[tactic(auto, unfolding(crate::specs::Shape::item))]
fn item(
    alloc: Global,
    path: &Path,
    value: &Value,
    levels: u32,
) -> Result<ItemDescription, DescFault>
    ensures found { Gives (λ i. i) result (item (bus levels) path.now (view value.now)) }
    ensures levels { IfOk result (λ i. item_levels i ≤ levels) }
    ensures fields { IfOk result (λ i. item_fields is_32 i ≡ true) }
{
    let members = object(alloc, path, value)?;
    let kind = kind_at(alloc, path, members, "kind")?;
    let members = known_for(alloc, path, members, kind)?;
    match kind {
        ItemKind::Ram => ram_item(alloc, path, members),
        ItemKind::Regs => regs_item(alloc, path, members),
        ItemKind::Fifo => fifo_item(alloc, path, members),
        ItemKind::Bridge => bridge_item(alloc, path, members, levels),
        ItemKind::Integration => integration_item(alloc, path, members),
        ItemKind::Empty => Ok(ItemDescription::Empty),
    }
}

#[cycle(bus)]
fn items(alloc: Global, path: &Path, values: &Vec<Value>, levels: u32) -> Result<Items, DescFault>
    ensures found { Gives (λ v. v) result (each_from (item (bus levels)) path.now 0 (items_view values.now.items)) }
    ensures levels { IfOk result (λ v. greatest (map item_levels v) ≤ levels) }
    ensures fields { IfOk result (λ v. all_of (map (item_fields is_32) v) ≡ true) }
    ensures count { IfOk result (λ v. length v ≡ length values.now.items) }
{
    let mut items = Vec::new(alloc);
    for i in 0..values.len() {
        let inner = path.nth(alloc, i)?;
        let one = item(alloc, &inner, &values[i], levels)?;
        items.push(one)?;
    }
    Ok(Items::from_vec(items))
}

#[cycle(bus)]
#[tactic(auto, using(crate::proofs::Each::items_len_is))]
fn items_at(
    alloc: Global,
    path: &Path,
    members: &Map<String, Value>,
    key: &str,
    levels: u32,
) -> Result<Items, DescFault>
    ensures found { Gives (λ v. v) result
        (required (list 0 64 (item (bus levels))) path.now key.now (members_view members.now.entries)) }
    ensures levels { IfOk result (λ v. greatest (map item_levels v) ≤ levels) }
    ensures fields { IfOk result (λ v. all_of (map (item_fields is_32) v) ≡ true) }
    ensures count { IfOk result (λ v. length v ≤ 64) }
{
    let Some(value) = find(members, key) else {
        return Err(DescFault::Missing(path.key(alloc, key)?));
    };
    let inner = path.key(alloc, key)?;
    let Some(values) = value.as_array() else {
        return Err(DescFault::Kind(inner));
    };
    if values.len() > 64 {
        return Err(DescFault::TooMany(inner));
    }
    items(alloc, &inner, values, levels)
}

#[cycle(bus)]
#[tactic(auto, unfolding(crate::specs::Shape::bus))]
fn bus(alloc: Global, path: &Path, value: &Value, levels: u32) -> Result<BusDescription, DescFault>
    ensures found { Gives (λ b. b) result (bus levels path.now (view value.now)) }
    ensures levels { IfOk result (λ b. bus_levels b ≤ levels) }
    ensures fields { IfOk result (λ b. bus_fields is_32 b ≡ true) }
{
    if levels == 0 {
        object(alloc, path, value)?;
        return Err(DescFault::TooDeep(path.copy(alloc)?));
    }
    bus_of(alloc, path, value, levels - 1)
}

#[cycle(bus)]
#[tactic(auto, unfolding(crate::specs::Shape::bus_of))]
fn bus_of(
    alloc: Global,
    path: &Path,
    value: &Value,
    levels: u32,
) -> Result<BusDescription, DescFault>
    ensures found { Gives (λ b. b) result (bus_of (item (bus levels)) path.now (view value.now)) }
    ensures levels { IfOk result (λ b. bus_levels b ≤ levels + 1) }
    ensures fields { IfOk result (λ b. bus_fields is_32 b ≡ true) }
{
    let members = object_of(alloc, path, value, &["product", "last", "sdb", "items"])?;
    let product = product_at(alloc, path, members, "product")?;
    let last = number_at(alloc, path, members, "last", LAST)?;
    let sdb = number_at(alloc, path, members, "sdb", ADDRESS)?;
    let items = items_at(alloc, path, members, "items", levels)?;
    Ok(BusDescription {
        product,
        width: Width::W32,
        last,
        sdb,
        items,
    })
}

#[cycle(bus)]
fn bus_at(
    alloc: Global,
    path: &Path,
    members: &Map<String, Value>,
    key: &str,
    levels: u32,
) -> Result<BusDescription, DescFault>
    ensures found { Gives (λ b. b) result (required (bus levels) path.now key.now (members_view members.now.entries)) }
    ensures levels { IfOk result (λ b. bus_levels b ≤ levels) }
    ensures fields { IfOk result (λ b. bus_fields is_32 b ≡ true) }
{
    match find(members, key) {
        None => Err(DescFault::Missing(path.key(alloc, key)?)),
        Some(value) => {
            let inner = path.key(alloc, key)?;
            bus(alloc, &inner, value, levels)
        }
    }
}

/// The description that a value spells, or its first fault of shape.
#[tactic(auto, unfolding(crate::specs::Shape::root))]
pub fn root(alloc: Global, path: &Path, value: &Value) -> Result<Description, DescFault>
    ensures found { Gives (λ d. d) result (root path.now (view value.now)) }
    ensures depth_most { IfOk result (λ d. d.depth ≤ 16) }
    ensures depth_least { IfOk result (λ d. 1 ≤ d.depth) }
    ensures masters_most { IfOk result (λ d. d.masters ≤ 16) }
    ensures masters_least { IfOk result (λ d. 1 ≤ d.masters) }
    ensures levels { IfOk result (λ d. bus_levels d.bus ≤ 4) }
    ensures fields { IfOk result (λ d. bus_fields is_32 d.bus ≡ true) }
{
    let members = object_of(
        alloc,
        path,
        value,
        &["version", "data", "depth", "masters", "bus"],
    )?;
    number_at(alloc, path, members, "version", from_to(1, 1))?;
    number_at(alloc, path, members, "data", from_to(32, 32))?;
    let depth = number_at(alloc, path, members, "depth", from_to(1, 16))? as u8;
    let masters = number_at(alloc, path, members, "masters", from_to(1, 16))? as u8;
    let bus = bus_at(alloc, path, members, "bus", 4)?;
    Ok(Description {
        depth,
        masters,
        bus,
    })
}
