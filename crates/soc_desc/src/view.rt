//! What an item is on its bus, whatever its kind: all that reads a description's items goes by these four cases.
ghost use Rattle.std.specs.Prelude.{◌≡◌, ◌<◌, ◌^◌};
ghost use Rattle.soc_desc.specs.View.{on_bus, viewed, made, octets_in, interface, device, OfDevice};
ghost use Rattle.soc_desc.specs.declared.description.ItemDescription.TheViews.{out-ItemDescription};

use crate::description::{BusDescription, ItemDescription, PortWord};
use crate::view::MakeView::{Fifo, Ram, Regs};
use eb_base::{Product, RegList};

/// What all devices have: how they are joined to their bus, and the ABI that their SDB records name.
#[derive(Clone, Copy)]
pub struct Interface {
    pub port: PortWord,
    pub wait: u8,
    pub class: u16,
    pub major: u8,
    pub minor: u8,
}

/// How a device is made.
#[derive(Clone, Copy)]
pub enum MakeView<'d> {
    /// A RAM of so many octets.
    Ram(u32),
    /// Registers of 4 octets each.
    Regs(&'d RegList),
    /// A FIFO of so many words.
    Fifo(u32),
}

/// A device as its bus sees it.
#[derive(Clone, Copy)]
pub struct DeviceView<'d> {
    pub product: &'d Product,
    /// Its first address.
    pub at: u64,
    pub make: MakeView<'d>,
    pub interface: Interface,
}

/// What an item is on its bus.
#[derive(Clone, Copy)]
pub enum ItemView<'d> {
    Device(DeviceView<'d>),
    /// A bridge at an address to another bus.
    Bridge {
        product: &'d Product,
        at: u64,
        bus: &'d BusDescription,
    },
    /// A record that has no address.
    Note {
        product: &'d Product,
    },
    /// An empty record.
    Empty,
}

/// The octets of addresses that a device takes.
pub fn octets_in(make: MakeView) -> u128
    ensures octets { result ≡ octets_in (made make.entry) }
    ensures small { result < 2 ^ 72 }
{
    match make {
        MakeView::Ram(size) => u128::from(size),
        MakeView::Regs(words) => 4 * words.len() as u128,
        MakeView::Fifo(_) => 8,
    }
}

/// A device, of which `joined` has the fields of its interface in their order.
fn device<'d>(
    product: &'d Product,
    at: &u64,
    make: MakeView<'d>,
    joined: (&PortWord, &u8, &u16, &u8, &u8),
) -> ItemView<'d>
    ensures device { let j = joined.entry in
        let own = interface j.0.now j.1.now j.2.now j.3.now j.4.now in
        viewed result ≡ OfDevice (device product.now at.now (made make.entry) own) }
{
    let (port, wait, class, major, minor) = joined;
    ItemView::Device(DeviceView {
        product,
        at: *at,
        make,
        interface: Interface {
            port: *port,
            wait: *wait,
            class: *class,
            major: *major,
            minor: *minor,
        },
    })
}

/// What an item is on its bus.
pub fn on_bus(item: &ItemDescription) -> ItemView<'_>
    ensures view { viewed result ≡ on_bus (out-ItemDescription item.now) }
{
    match item {
        ItemDescription::Ram {
            product,
            at,
            size,
            port,
            wait,
            class,
            major,
            minor,
        } => device(product, at, Ram(*size), (port, wait, class, major, minor)),
        ItemDescription::Regs {
            product,
            at,
            words,
            port,
            wait,
            class,
            major,
            minor,
        } => device(product, at, Regs(words), (port, wait, class, major, minor)),
        ItemDescription::Fifo {
            product,
            at,
            depth,
            port,
            wait,
            class,
            major,
            minor,
        } => device(product, at, Fifo(*depth), (port, wait, class, major, minor)),
        ItemDescription::Bridge { product, at, bus } => ItemView::Bridge {
            product,
            at: *at,
            bus,
        },
        ItemDescription::Integration { product } => ItemView::Note { product },
        ItemDescription::Empty => ItemView::Empty,
    }
}
