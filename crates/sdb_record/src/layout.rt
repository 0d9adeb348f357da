//! Where the fields of a record begin (SDB 1.1: `sdb_interconnect`, `sdb_device`, `sdb_bridge`, `sdb_integration` and
//! `sdb_empty`, with `sdb_component` and `sdb_product`), and the values that are always the same.

pub const RECORD_LEN: usize = 64;

pub const MAGIC_AT: usize = 0x00;

pub const RECORDS_AT: usize = 0x04;

pub const FORMAT_AT: usize = 0x06;

pub const BUS_TYPE_AT: usize = 0x07;

pub const CLASS_AT: usize = 0x00;

pub const MAJOR_AT: usize = 0x02;

pub const MINOR_AT: usize = 0x03;

pub const BUS_SPECIFIC_AT: usize = 0x04;

pub const CHILD_AT: usize = 0x00;

pub const FIRST_AT: usize = 0x08;

pub const LAST_AT: usize = 0x10;

pub const VENDOR_AT: usize = 0x18;

pub const DEVICE_AT: usize = 0x20;

pub const VERSION_AT: usize = 0x24;

pub const DATE_AT: usize = 0x28;

pub const NAME_AT: usize = 0x2c;

pub const NAME_LEN: usize = 19;

pub const TYPE_AT: usize = 0x3f;

/// `SDB-`.
pub const MAGIC: u32 = 0x5344_422d;
/// The version of the format.
pub const FORMAT: u8 = 1;
/// The bus type of Wishbone.
pub const WISHBONE: u8 = 0;

pub const INTERCONNECT: u8 = 0x00;

pub const DEVICE: u8 = 0x01;

pub const BRIDGE: u8 = 0x02;

pub const INTEGRATION: u8 = 0x80;

pub const EMPTY: u8 = 0xff;
