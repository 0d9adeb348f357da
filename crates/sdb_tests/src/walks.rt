ghost use Rattle.std.specs.Prelude.{IfSome, Some, ◌≡◌, ◌≤◌, ◌<◌, ◌+◌, length};
ghost use Rattle.sdb_record.specs.Relation.{IsValid};

use eb_base::{Name, Product, get32};
use sdb_record::{Record, RecordFault, RecordWhy, encode};
use sdb_walk::{Exchange, Found, NoWord, WalkFault, WordReader, discover};
use soc_trail::Trail;
use std::alloc::Global;
use std::test::Fail;

/// Octets at the addresses from `first` on. The word at `refused` is an error of the bus, and that at `broken` the
/// cause 7. It counts the words that it was asked for, and tells them.
#[derive(Drop)]
struct Memory {
    first: u64,
    octets: Vec<u8>,
    refused: u64,
    broken: u64,
    asked: u64,
    told: Trail<Exchange<u8>>,
}

impl Memory {
    /// The word at an address.
    fn answer(&self, adr: u64) -> Result<u32, NoWord<u8>> {
        if adr == self.broken {
            return Err(NoWord::Cause(7));
        }
        let len = self.octets.len();
        if adr == self.refused || len < 4 || adr < self.first || adr - self.first > len as u64 - 4 {
            return Err(NoWord::BusError);
        }
        Ok(get32(&self.octets, (adr - self.first) as usize))
    }
}

impl WordReader for Memory {
    type Cause = u8;

    ghost told = { λ memory. Some memory.told };

    ghost Origin = { Unit {0} };

    ghost origin = { λ memory. tt };

    fn word(&mut self, adr: u64) -> Result<u32, NoWord<u8>> {
        let word = self.answer(adr);
        self.asked = self.asked.saturating_add(1);
        self.told.push(Exchange { adr, word });
        word
    }
}

/// A record by what a walk looks at: how many records there are, where a child's table stands, the range.
#[derive(Clone, Copy)]
enum Item {
    Interconnect(u16, u64, u64),
    Device(u64, u64),
    Bridge(u64, u64, u64),
    Integration,
}

fn record(item: Item, product: Product) -> Option<Record>
    ensures { IfSome result IsValid }
{
    match item {
        Item::Interconnect(records, first, last) => {
            if records == 0 || last < first {
                return None;
            }
            Some(Record::Interconnect {
                records,
                first,
                last,
                product,
            })
        }
        Item::Device(first, last) => {
            if last < first {
                return None;
            }
            Some(Record::Device {
                class: 0,
                major: 0,
                minor: 0,
                bus_specific: 7,
                first,
                last,
                product,
            })
        }
        Item::Bridge(child, first, last) => {
            if last < first {
                return None;
            }
            Some(Record::Bridge {
                child,
                first,
                last,
                product,
            })
        }
        Item::Integration => Some(Record::Integration { product }),
    }
}

/// The octets of these records, and 64 zeros.
fn octets(alloc: Global, items: &[Item]) -> Result<Vec<u8>, Fail> {
    let product = Product {
        vendor: 1,
        device: 2,
        version: 3,
        date: 4,
        name: Name::new(b"x").ok_or("name")?,
    };
    let mut octets = Vec::new(alloc);
    for item in items {
        let value = record(*item, product).ok_or("record")?;
        octets.extend_from_slice(&encode(&value))?;
    }
    octets.extend_from_slice(&[0; 64])?;
    Ok(octets)
}

/// Records from an address on, the address of the root table, the words that can't be read, and what comes of it: the
/// fault and how many words were asked for.
struct Row {
    items: &'static [Item],
    first: u64,
    root: u64,
    refused: u64,
    broken: u64,
    fault: WalkFault<u8>,
    asked: u64,
}

/// No address of a word.
const NOWHERE: u64 = u64::MAX;

static FAULTS: [Row; 9] = [
    // A bridge behind the range of its bus.
    Row {
        items: &[
            Item::Interconnect(2, 0, 0xfff),
            Item::Bridge(0x1000, 0x1000, 0x1fff),
        ],
        first: 0,
        root: 0,
        refused: NOWHERE,
        broken: NOWHERE,
        fault: WalkFault::OutsideParent(0x40),
        asked: 32,
    },
    Row {
        items: &[Item::Interconnect(4097, 0, 0xfff)],
        first: 0,
        root: 0,
        refused: NOWHERE,
        broken: NOWHERE,
        fault: WalkFault::TooMany(0),
        asked: 16,
    },
    // A bridge to its own bus.
    Row {
        items: &[Item::Interconnect(2, 0, 0xffff), Item::Bridge(0, 0, 0xffff)],
        first: 0,
        root: 0,
        refused: NOWHERE,
        broken: NOWHERE,
        fault: WalkFault::TooDeep(0x40),
        asked: 256,
    },
    Row {
        items: &[Item::Device(0, 3)],
        first: 0,
        root: 0,
        refused: NOWHERE,
        broken: NOWHERE,
        fault: WalkFault::WrongPlace(0),
        asked: 16,
    },
    // No room for a record.
    Row {
        items: &[],
        first: 0,
        root: u64::MAX - 31,
        refused: NOWHERE,
        broken: NOWHERE,
        fault: WalkFault::OutsideParent(u64::MAX - 31),
        asked: 0,
    },
    Row {
        items: &[Item::Interconnect(1, 0, 0xfff)],
        first: 0,
        root: 0,
        refused: 0xc,
        broken: NOWHERE,
        fault: WalkFault::BusError(0xc),
        asked: 4,
    },
    Row {
        items: &[
            Item::Interconnect(2, 0, 0xfff),
            Item::Interconnect(1, 0, 0xfff),
        ],
        first: 0,
        root: 0,
        refused: NOWHERE,
        broken: NOWHERE,
        fault: WalkFault::WrongPlace(0x40),
        asked: 32,
    },
    // Zeros are no record.
    Row {
        items: &[Item::Interconnect(2, 0, 0xfff)],
        first: 0,
        root: 0,
        refused: NOWHERE,
        broken: NOWHERE,
        fault: WalkFault::Record(
            0x40,
            RecordFault {
                at: 0,
                why: RecordWhy::BadMagic,
            },
        ),
        asked: 32,
    },
    Row {
        items: &[Item::Interconnect(2, 0, 0xfff), Item::Device(0, 3)],
        first: 0,
        root: 0,
        refused: NOWHERE,
        broken: 0x44,
        fault: WalkFault::Reader(7),
        asked: 18,
    },
];

/// Ranges, tables and numbers of records at their limits.
static LIMITS: [Row; 7] = [
    // A child's table outside its bridge.
    Row {
        items: &[
            Item::Interconnect(2, 0, 0xffff),
            Item::Bridge(0x3000, 0x1000, 0x1fff),
        ],
        first: 0,
        root: 0,
        refused: NOWHERE,
        broken: NOWHERE,
        fault: WalkFault::OutsideParent(0x40),
        asked: 32,
    },
    // A child's bus one octet wider than its bridge.
    Row {
        items: &[
            Item::Interconnect(2, 0, 0xffff),
            Item::Bridge(0x80, 0x80, 0x1ff),
            Item::Interconnect(1, 0, 0x180),
        ],
        first: 0,
        root: 0,
        refused: NOWHERE,
        broken: NOWHERE,
        fault: WalkFault::OutsideParent(0x80),
        asked: 48,
    },
    // A device that ends behind its bus.
    Row {
        items: &[Item::Interconnect(2, 0, 0xfff), Item::Device(0xffc, 0x1000)],
        first: 0,
        root: 0,
        refused: NOWHERE,
        broken: NOWHERE,
        fault: WalkFault::OutsideParent(0x40),
        asked: 32,
    },
    // An absolute address past the last one.
    Row {
        items: &[
            Item::Interconnect(2, 0, u64::MAX),
            Item::Bridge(0x80, 0x80, u64::MAX),
            Item::Interconnect(1, 0, u64::MAX),
        ],
        first: 0,
        root: 0,
        refused: NOWHERE,
        broken: NOWHERE,
        fault: WalkFault::OutsideParent(0x80),
        asked: 48,
    },
    // A table that ends past the last address.
    Row {
        items: &[Item::Interconnect(2, 0, u64::MAX)],
        first: u64::MAX - 63,
        root: u64::MAX - 63,
        refused: NOWHERE,
        broken: NOWHERE,
        fault: WalkFault::OutsideParent(u64::MAX - 63),
        asked: 16,
    },
    // 4,097 records in two tables.
    Row {
        items: &[
            Item::Interconnect(2, 0, 0xf_ffff),
            Item::Bridge(0x80, 0x80, 0xf_ffff),
            Item::Interconnect(4095, 0, 0xf_ff7f),
        ],
        first: 0,
        root: 0,
        refused: NOWHERE,
        broken: NOWHERE,
        fault: WalkFault::TooMany(0x80),
        asked: 48,
    },
    // 4,096 are not too many.
    Row {
        items: &[
            Item::Interconnect(2, 0, 0xf_ffff),
            Item::Bridge(0x80, 0x80, 0xf_ffff),
            Item::Interconnect(4094, 0, 0xf_ff7f),
        ],
        first: 0,
        root: 0,
        refused: NOWHERE,
        broken: NOWHERE,
        fault: WalkFault::Record(
            0xc0,
            RecordFault {
                at: 0,
                why: RecordWhy::BadMagic,
            },
        ),
        asked: 64,
    },
];

/// The fault of a walk over a row's memory, and how many words it asked for.
fn walked(alloc: Global, row: &Row) -> Result<(Option<WalkFault<u8>>, u64), Fail> {
    let mut memory = Memory {
        first: row.first,
        octets: octets(alloc, row.items)?,
        refused: row.refused,
        broken: row.broken,
        asked: 0,
        told: Trail::new(),
    };
    let fault = discover(alloc, &mut memory, row.root).err();
    Ok((fault, memory.asked))
}

#[test]
fn faults_of_a_walk(rt: HostRuntime) -> Result<(), Fail> {
    let alloc = rt.alloc();
    for row in &FAULTS {
        let came = walked(alloc, row)?;
        assert!(rt; came == (Some(row.fault), row.asked));
    }
    Ok(())
}

#[test]
fn limits_of_a_walk(rt: HostRuntime) -> Result<(), Fail> {
    let alloc = rt.alloc();
    for row in &LIMITS {
        let came = walked(alloc, row)?;
        assert!(rt; came == (Some(row.fault), row.asked));
    }
    Ok(())
}

/// Four levels of buses, each table right behind that above it.
static FOUR_LEVELS: [Item; 9] = [
    Item::Interconnect(3, 0, 0xffff),
    Item::Bridge(0xc0, 0xc0, 0xffff),
    Item::Integration,
    Item::Interconnect(2, 0, 0xff3f),
    Item::Bridge(0x80, 0x80, 0xff3f),
    Item::Interconnect(2, 0, 0xfebf),
    Item::Bridge(0x80, 0x80, 0xfebf),
    Item::Interconnect(2, 0, 0xfe3f),
    Item::Device(0x100, 0x1ff),
];

/// The ways and absolute ranges of their records, in the order of the walk.
static FOUND: [(&[u16], u64, u64); 9] = [
    (&[0], 0, 0xffff),
    (&[1], 0xc0, 0xffff),
    (&[1, 0], 0xc0, 0xffff),
    (&[1, 1], 0x140, 0xffff),
    (&[1, 1, 0], 0x140, 0xffff),
    (&[1, 1, 1], 0x1c0, 0xffff),
    (&[1, 1, 1, 0], 0x1c0, 0xffff),
    (&[1, 1, 1, 1], 0x2c0, 0x3bf),
    (&[2], 0, 0),
];

/// Whether a record was found by this way, with this range.
fn is_found(one: &Found, path: &[u16], first: u64, last: u64) -> bool {
    one.path.as_slice() == path && one.first == first && one.last == last
}

#[test]
fn tree_of_four_levels(rt: HostRuntime) -> Result<(), Fail> {
    let alloc = rt.alloc();
    let mut memory = Memory {
        first: 0,
        octets: octets(alloc, &FOUR_LEVELS)?,
        refused: NOWHERE,
        broken: NOWHERE,
        asked: 0,
        told: Trail::new(),
    };
    let tree = match discover(alloc, &mut memory, 0) {
        Ok(tree) => tree,
        Err(_) => return Err(Fail::from("walk")),
    };
    assert!(rt; tree.len() == FOUND.len() && memory.asked == 144);
    for (one, (path, first, last)) in tree.as_slice().iter().zip(FOUND.iter()) {
        assert!(rt; is_found(one, path, *first, *last));
    }
    Ok(())
}
