use eb_base::{Name, Product};
use eb_io::MemSink;
use eb_text::write_listing;
use sdb_record::Record;
use sdb_walk::{Found, Steps, Tree};
use std::alloc::Global;
use std::test::Fail;

#[derive(Clone, Copy)]
enum Kind {
    Interconnect,
    Device,
    Bridge,
    Integration,
    Empty,
}

/// A record: its path, its kind, its absolute range, its device and its name.
struct Row {
    path: &'static [u16],
    kind: Kind,
    first: u64,
    last: u64,
    device: u32,
    name: &'static [u8],
}

static ROWS: [Row; 11] = [
    Row {
        path: &[0],
        kind: Kind::Interconnect,
        first: 0,
        last: 0xfffff,
        device: 1,
        name: b"soc-root",
    },
    Row {
        path: &[1],
        kind: Kind::Device,
        first: 0,
        last: 0xffff,
        device: 16,
        name: b"main-ram",
    },
    Row {
        path: &[2],
        kind: Kind::Device,
        first: 0x10000,
        last: 0x10007,
        device: 17,
        name: b"control",
    },
    Row {
        path: &[3],
        kind: Kind::Device,
        first: 0x11000,
        last: 0x11007,
        device: 18,
        name: b"fifo",
    },
    Row {
        path: &[4],
        kind: Kind::Bridge,
        first: 0x20000,
        last: 0x2ffff,
        device: 32,
        name: b"io-bridge",
    },
    Row {
        path: &[4, 0],
        kind: Kind::Interconnect,
        first: 0x20000,
        last: 0x2ffff,
        device: 33,
        name: b"io-bus",
    },
    Row {
        path: &[4, 1],
        kind: Kind::Device,
        first: 0x20000,
        last: 0x20fff,
        device: 16,
        name: b"io-ram",
    },
    Row {
        path: &[4, 2],
        kind: Kind::Device,
        first: 0x21000,
        last: 0x21003,
        device: 17,
        name: b"io-control",
    },
    Row {
        path: &[5],
        kind: Kind::Integration,
        first: 0,
        last: 0,
        device: 48,
        name: b"demo-board",
    },
    Row {
        path: &[6],
        kind: Kind::Empty,
        first: 0,
        last: 0,
        device: 0,
        name: b"",
    },
    // As many places as a walk finds, and no name.
    Row {
        path: &[1, 2, 3, 4, 5, 6, 7, 65535],
        kind: Kind::Integration,
        first: 0,
        last: 0,
        device: 0xfedcba98,
        name: b"",
    },
];

const TEXT: &[u8] = b"\
0 interconnect 0000000000000000-00000000000FFFFF 0000000000001001:00000001 00000001 20240101 soc-root
1 device 0000000000000000-000000000000FFFF 0000000000001001:00000010 00000001 20240101 main-ram
2 device 0000000000010000-0000000000010007 0000000000001001:00000011 00000001 20240101 control
3 device 0000000000011000-0000000000011007 0000000000001001:00000012 00000001 20240101 fifo
4 bridge 0000000000020000-000000000002FFFF 0000000000001001:00000020 00000001 20240101 io-bridge
4.0 interconnect 0000000000020000-000000000002FFFF 0000000000001001:00000021 00000001 20240101 io-bus
4.1 device 0000000000020000-0000000000020FFF 0000000000001001:00000010 00000001 20240101 io-ram
4.2 device 0000000000021000-0000000000021003 0000000000001001:00000011 00000001 20240101 io-control
5 integration 0000000000001001:00000030 00000001 20240101 demo-board
6 empty
1.2.3.4.5.6.7.65535 integration 0000000000001001:FEDCBA98 00000001 20240101\x20
";

/// A record of this kind. Where it has a range, that is one of its bus, and no line tells it.
fn record(kind: Kind, product: Product) -> Record {
    match kind {
        Kind::Interconnect => Record::Interconnect {
            records: 3,
            first: 0,
            last: 3,
            product,
        },
        Kind::Device => Record::Device {
            class: 0,
            major: 0,
            minor: 0,
            bus_specific: 7,
            first: 0,
            last: 3,
            product,
        },
        Kind::Bridge => Record::Bridge {
            child: 0,
            first: 0,
            last: 3,
            product,
        },
        Kind::Integration => Record::Integration { product },
        Kind::Empty => Record::Empty,
    }
}

fn found(alloc: Global, row: &Row) -> Result<Found, Fail> {
    let mut steps = Vec::new(alloc);
    steps.extend_from_slice(row.path)?;
    let product = Product {
        vendor: 0x1001,
        device: row.device,
        version: 1,
        date: 0x20240101,
        name: Name::new(row.name).ok_or("name")?,
    };
    Ok(Found {
        path: Steps::of(steps),
        entry: record(row.kind, product),
        first: row.first,
        last: row.last,
    })
}

fn tree(alloc: Global) -> Result<Tree, Fail> {
    let mut items = Vec::new(alloc);
    for row in &ROWS {
        items.push(found(alloc, row)?)?;
    }
    Ok(Tree::of(items))
}

#[test]
fn a_line_a_record(rt: HostRuntime) -> Result<(), Fail> {
    let alloc = rt.alloc();
    let tree = tree(alloc)?;
    let mut sink = MemSink::new(alloc, 2000, 7, Vec::new(alloc))?;
    assert!(rt; write_listing(&tree, &mut sink).is_ok());
    assert_eq!(rt; sink.octets(), TEXT);
    Ok(())
}
