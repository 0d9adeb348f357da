ghost use Rattle.std.specs.Prelude.{◌≡◌};
ghost use Rattle.sdb_record.specs.Relation.{IsValid};

use eb_base::{Name, Product};
use eb_samples::{RAM, ROOT};
use sdb_record::{Record, RecordFault, RecordWhy, decode, encode};
use std::process::Abort;
use std::test::Fail;

fn product(device: u32, text: &[u8]) -> Option<Product> {
    let name = Name::new(text)?;
    Some(Product {
        vendor: 0x1001,
        device,
        version: 1,
        date: 0x2024_0101,
        name,
    })
}

#[test]
fn known_records(rt: HostRuntime) -> Result<(), Fail> {
    let root = Record::Interconnect {
        records: 7,
        first: 0,
        last: 0xf_ffff,
        product: product(1, b"soc-root").ok_or("name")?,
    };
    let ram = Record::Device {
        class: 0,
        major: 0,
        minor: 0,
        bus_specific: 7,
        first: 0,
        last: 0xffff,
        product: product(16, b"main-ram").ok_or("name")?,
    };
    assert_eq!(rt; encode(&root), ROOT);
    assert_eq!(rt; encode(&ram), RAM);
    assert_eq!(rt; decode(&ROOT), Ok(root));
    assert_eq!(rt; decode(&RAM), Ok(ram));
    Ok(())
}

// A record and some of its octets, both ways.
fn both_ways<R: Abort>(rt: &R, value: &Record, octets: &[(u8, u8)])
    requires { IsValid value.now }
{
    let bytes = encode(value);
    for (place, octet) in octets {
        assert_eq!(rt; bytes[usize::from(*place % 64)], *octet, "octet {place}");
    }
    assert_eq!(rt; decode(&bytes), Ok(*value));
}

#[test]
fn least_values(rt: HostRuntime) -> Result<(), Fail> {
    let least = Product {
        vendor: 0,
        device: 0,
        version: 0,
        date: 0,
        name: Name::new(b"").ok_or("name")?,
    };
    let bus = Record::Interconnect {
        records: 1,
        first: u64::MAX,
        last: u64::MAX,
        product: least,
    };
    both_ways(
        &rt,
        &bus,
        &[
            (4, 0),
            (5, 1),
            (8, 0xff),
            (23, 0xff),
            (24, 0),
            (44, 0x20),
            (62, 0x20),
            (63, 0),
        ],
    );
    let bridge = Record::Bridge {
        child: 0x0102_0304_0506_0708,
        first: 0,
        last: 0x1000,
        product: least,
    };
    both_ways(&rt, &bridge, &[(0, 1), (7, 8), (22, 0x10), (63, 2)]);
    both_ways(&rt, &Record::Empty, &[(0, 0), (44, 0), (62, 0), (63, 0xff)]);
    Ok(())
}

#[test]
fn greatest_values(rt: HostRuntime) -> Result<(), Fail> {
    let most = Product {
        vendor: u64::MAX,
        device: u32::MAX,
        version: u32::MAX,
        date: u32::MAX,
        name: Name::new(b"~~~~~~~~~~~~~~~~~~~").ok_or("name")?,
    };
    let bus = Record::Interconnect {
        records: u16::MAX,
        first: 0,
        last: 0,
        product: most,
    };
    both_ways(
        &rt,
        &bus,
        &[
            (4, 0xff),
            (5, 0xff),
            (6, 1),
            (7, 0),
            (8, 0),
            (24, 0xff),
            (62, 0x7e),
            (63, 0),
        ],
    );
    let integration = Record::Integration { product: most };
    both_ways(
        &rt,
        &integration,
        &[(0, 0), (23, 0), (24, 0xff), (63, 0x80)],
    );
    Ok(())
}

#[test]
fn a_device(rt: HostRuntime) -> Result<(), Fail> {
    let most = Product {
        vendor: u64::MAX,
        device: u32::MAX,
        version: u32::MAX,
        date: u32::MAX,
        name: Name::new(b"~~~~~~~~~~~~~~~~~~~").ok_or("name")?,
    };
    let device = Record::Device {
        class: 0x0102,
        major: 3,
        minor: 4,
        bus_specific: 0x0506_0708,
        first: 0x0102_0304_0506_0708,
        last: u64::MAX,
        product: most,
    };
    both_ways(
        &rt,
        &device,
        &[
            (0, 1),
            (1, 2),
            (2, 3),
            (3, 4),
            (4, 5),
            (7, 8),
            (8, 1),
            (15, 8),
            (16, 0xff),
            (63, 1),
        ],
    );
    Ok(())
}

// The octets with some of them changed.
fn changed(octets: &[u8; 64], edits: &[(u8, u8)]) -> [u8; 64] {
    let mut bytes = *octets;
    for (place, octet) in edits {
        bytes[usize::from(*place % 64)] = *octet;
    }
    bytes
}

#[test]
fn faults_in_order(rt: HostRuntime) -> Result<(), Fail> {
    let cases: [(&[u8; 64], &[(u8, u8)], u8, RecordWhy); 24] = [
        (&ROOT, &[(63, 0x03)], 63, RecordWhy::UnknownType),
        (&ROOT, &[(63, 0x81)], 63, RecordWhy::UnknownType),
        (&RAM, &[(63, 0xfe)], 63, RecordWhy::UnknownType),
        (&ROOT, &[(0, 0x54)], 0, RecordWhy::BadMagic),
        (&ROOT, &[(3, 0x2e)], 0, RecordWhy::BadMagic),
        (&RAM, &[(63, 0x00)], 0, RecordWhy::BadMagic),
        (&ROOT, &[(5, 0)], 4, RecordWhy::BadCount),
        (&ROOT, &[(6, 0)], 6, RecordWhy::BadVersion),
        (&ROOT, &[(6, 2)], 6, RecordWhy::BadVersion),
        (&ROOT, &[(7, 1)], 7, RecordWhy::BadBus),
        (&ROOT, &[(8, 1)], 8, RecordWhy::BadRange),
        (&RAM, &[(13, 1)], 8, RecordWhy::BadRange),
        (&RAM, &[(63, 2), (13, 1)], 8, RecordWhy::BadRange),
        (&ROOT, &[(44, 0x1f)], 44, RecordWhy::BadName),
        (&ROOT, &[(46, 0x7f)], 46, RecordWhy::BadName),
        (&RAM, &[(45, 0)], 45, RecordWhy::BadName),
        (&RAM, &[(62, 0x80), (60, 0)], 60, RecordWhy::BadName),
        (&ROOT, &[(63, 0x80), (62, 0x0a)], 62, RecordWhy::BadName),
        (
            &ROOT,
            &[(63, 0x04), (0, 0), (44, 0)],
            63,
            RecordWhy::UnknownType,
        ),
        (&ROOT, &[(0, 0), (5, 0)], 0, RecordWhy::BadMagic),
        (&ROOT, &[(5, 0), (6, 0)], 4, RecordWhy::BadCount),
        (&ROOT, &[(6, 0), (7, 1)], 6, RecordWhy::BadVersion),
        (&ROOT, &[(7, 1), (8, 1)], 7, RecordWhy::BadBus),
        (&ROOT, &[(8, 1), (44, 0)], 8, RecordWhy::BadRange),
    ];
    for (octets, edits, at, why) in &cases {
        assert_eq!(rt;
            decode(&changed(octets, edits)),
            Err(RecordFault { at: *at, why: *why }),
            "at {at}"
        );
    }
    Ok(())
}

#[test]
fn free_octets(rt: HostRuntime) -> Result<(), Fail> {
    let board = Record::Integration {
        product: product(1, b"soc-root").ok_or("name")?,
    };
    assert_eq!(rt;
        decode(&changed(&ROOT, &[(63, 0x80), (8, 1), (23, 0)])),
        Ok(board)
    );
    assert_eq!(rt;
        decode(&changed(&ROOT, &[(63, 0xff), (44, 0x80)])),
        Ok(Record::Empty)
    );
    let names: [(&[(u8, u8)], &[u8]); 4] = [
        (&[(52, 0), (53, 0x20), (54, 0), (62, 0)], b"main-ram"),
        (&[(48, 0), (49, 0x20), (50, 0), (51, 0)], b"main"),
        (&[(48, 0x20), (53, 0x21)], b"main ram !"),
        (
            &[
                (52, 0x31),
                (53, 0x32),
                (54, 0x33),
                (55, 0x34),
                (56, 0x35),
                (57, 0x36),
                (58, 0x37),
                (59, 0x38),
                (60, 0x39),
                (61, 0x30),
                (62, 0x7e),
            ],
            b"main-ram1234567890~",
        ),
    ];
    for (edits, text) in &names {
        let found = match decode(&changed(&RAM, edits)) {
            Ok(Record::Device { product, .. }) => Some(product.name),
            _ => None,
        };
        assert_eq!(rt; found, Name::new(text));
    }
    Ok(())
}
