//! The five records of a table.
use eb_base::Product;

/// A record of a table of the Self-Describing Bus (SDB 1.1). Addresses are in octets, relative to the base of the bus
/// that holds the table; `last` is the last address of the range.
#[derive(Clone, Copy, Debug, PartialEq, Eq)]
pub enum Record {
    /// The first record of a table: how many records it has with this one, and the bus's range.
    Interconnect {
        records: u16,
        first: u64,
        last: u64,
        product: Product,
    },
    /// A device: its interface (`class` with its version `major.minor`), and its access widths (`bus_specific`).
    Device {
        class: u16,
        major: u8,
        minor: u8,
        bus_specific: u32,
        first: u64,
        last: u64,
        product: Product,
    },
    /// A bridge to another bus, and where that bus's table stands.
    Bridge {
        child: u64,
        first: u64,
        last: u64,
        product: Product,
    },
    /// The product that the whole is part of.
    Integration {
        product: Product,
    },
    /// A record that says nothing.
    Empty,
}
