ghost use Rattle.std.specs.Prelude.{◌<◌, ◌+◌, ◌^◌, length};

use eb_base::{NoMemory, Width, Widths};
use eb_codec::encoding::{encode_header, encode_probe, encode_record};
use eb_codec::{Decoder, Header, Item, Malformed, Probe, Record, RecordHead, Why, Words};
use std::alloc::Global;
use std::test::Fail;

// A probe and a header in one piece, of which one item a call is taken.
#[test]
fn probe_then_header(rt: HostRuntime) -> Result<(), Fail> {
    let sets = Widths {
        addresses: 15,
        ports: 7,
    };
    let Ok(mut decoder) = Decoder::new(rt.alloc(), sets) else {
        return Err(Fail::from("room"));
    };
    let octets = [0x4e, 0x6f, 0x11, 0xff, 0, 0, 0, 7, 0x4e, 0x6f, 0x10, 0x44];
    let Ok(first) = decoder.feed(&octets) else {
        return Err(Fail::from("probe"));
    };
    let Ok(second) = decoder.feed(&octets[8..]) else {
        return Err(Fail::from("header"));
    };
    let Ok(third) = decoder.feed(&octets[12..]) else {
        return Err(Fail::from("nothing"));
    };
    assert_eq!(rt; (first.taken, second.taken, third.taken), (8, 4, 0));
    let Item::Probe(probe) = first.item else {
        return Err(Fail::from("a probe"));
    };
    assert_eq!(rt; (probe.id, probe.no_reply), (7, false));
    assert!(rt; matches!(second.item, Item::Header(_)));
    assert!(rt; matches!(third.item, Item::NotYet));
    Ok(())
}

#[test]
fn same_refusal_again(rt: HostRuntime) -> Result<(), Fail> {
    let sets = Widths {
        addresses: 15,
        ports: 7,
    };
    let mut decoder = Decoder::new(rt.alloc(), sets).ok().ok_or("room")?;
    let refusal = Malformed {
        place: 1,
        why: Why::Magic,
    };
    let step = decoder.feed(&[0x4e]).ok().ok_or("first")?;
    assert_eq!(rt; step.taken, 1);
    assert!(rt; step.item == Item::NotYet);
    assert!(rt; decoder.feed(&[0x70]) == Err(refusal));
    assert!(rt; decoder.feed(&[0x6f]) == Err(refusal));
    Ok(())
}

// The first bad octet of a stream in two pieces, for a slave with all widths.
fn refusal_of_two(alloc: Global, first: &[u8], second: &[u8]) -> Result<Option<Malformed>, NoMemory>
    requires fewer { length first.now + length second.now < 2 ^ 64 }
{
    let sets = Widths {
        addresses: 15,
        ports: 15,
    };
    let mut decoder = Decoder::new(alloc, sets)?;
    match decoder.feed(first) {
        Ok(_) => Ok(decoder.feed(second).err()),
        Err(refusal) => Ok(Some(refusal)),
    }
}

// A header for ports of 64 bits, four octets of a record behind it, its first bad octet, and the rule.
static WIDE: [([u8; 8], [u8; 4], u64, Why); 4] = [
    (
        [0x4e, 0x6f, 0x10, 0x48, 0xff, 0xff, 0xff, 0xff],
        [0x01, 0xff, 1, 0],
        8,
        Why::Flag,
    ),
    (
        [0x4e, 0x6f, 0x10, 0x48, 0, 0, 0, 0],
        [0x08, 0, 1, 0],
        10,
        Why::NoEnable,
    ),
    (
        [0x4e, 0x6f, 0x10, 0x48, 0, 0, 0, 0],
        [0x08, 0, 0, 1],
        11,
        Why::NoEnable,
    ),
    (
        [0x4e, 0x6f, 0x14, 0x18, 0, 0, 0, 0],
        [0x08, 0xff, 1, 1],
        11,
        Why::NoReply,
    ),
];

#[test]
fn rules_of_wide_ports(rt: HostRuntime) -> Result<(), Fail> {
    for row in &WIDE {
        let (header, record, place, why) = *row;
        let found = refusal_of_two(rt.alloc(), &header, &record)
            .ok()
            .ok_or("room")?;
        assert!(rt; found == Some(Malformed { place, why }));
    }
    Ok(())
}

// A probe behind another octet, and a header for ports of 64 bits.
#[test]
fn spellings(rt: HostRuntime) -> Result<(), Fail> {
    let mut out = vec![in rt.alloc(); 0xaa]?;
    let probe = Probe {
        no_reply: false,
        widths: Widths {
            addresses: 15,
            ports: 15,
        },
        id: 7,
    };
    encode_probe(&probe, &mut out).ok().ok_or("probe")?;
    let wide = Header {
        no_reply: true,
        address: Width::W32,
        port: Width::W64,
    };
    encode_header(&wide, &mut out).ok().ok_or("header")?;
    let spelled = [
        0xaa, 0x4e, 0x6f, 0x11, 0xff, 0, 0, 0, 7, 0x4e, 0x6f, 0x14, 0x48, 0, 0, 0, 0,
    ];
    assert!(rt; out.as_slice() == spelled.as_slice());
    Ok(())
}

// Two values written to 0x11 by a port of 16 bits.
#[test]
fn narrow_record(rt: HostRuntime) -> Result<(), Fail> {
    let header = Header {
        no_reply: false,
        address: Width::W16,
        port: Width::W16,
    };
    let mut values = Words::of(vec![in rt.alloc(); 0xbeef]?);
    values.push(0xcafe).ok().ok_or("value")?;
    let record = Record {
        head: RecordHead {
            flags: 0x08,
            enable: 3,
            writes: 2,
            reads: 0,
        },
        write_base: 0x11,
        values,
        return_base: 0,
        addresses: Words::of(Vec::new(rt.alloc())),
    };
    let mut out = Vec::new(rt.alloc());
    encode_record(&header, &record, &mut out)
        .ok()
        .ok_or("record")?;
    assert!(rt;
        out.as_slice() == [0x08, 3, 2, 0, 0, 0x11, 0xbe, 0xef, 0xca, 0xfe, 0, 0].as_slice()
    );
    Ok(())
}

// The last word that a stream writes, for a slave with all widths; none where the stream is refused.
fn last_word(alloc: Global, octets: &[u8]) -> Result<Option<u64>, NoMemory>
    requires fewer { length octets.now < 2 ^ 64 }
{
    let sets = Widths {
        addresses: 15,
        ports: 15,
    };
    let mut decoder = Decoder::new(alloc, sets)?;
    let mut last = None;
    let mut at = 0;
    'feeding: while at < octets.len() {
        let Ok(step) = decoder.feed(&octets[at..]) else {
            return Ok(None);
        };
        if let Item::Record(_) = step.item {
            let record = decoder.record();
            let writes = record.head().writes;
            if writes > 0 {
                last = Some(record.value(usize::from(writes) - 1));
            }
        }
        at += step.taken;
    }
    Ok(last)
}

// The header and a record of two values, in fields of 2 octets.
#[test]
fn last_word_of_two(rt: HostRuntime) -> Result<(), Fail> {
    let octets = [
        0x4e, 0x6f, 0x10, 0x22, 0x08, 3, 2, 0, 0, 0x11, 0xbe, 0xef, 0xca, 0xfe, 0, 0,
    ];
    let word = last_word(rt.alloc(), &octets).ok().ok_or("room")?;
    assert!(rt; word == Some(0xcafe));
    Ok(())
}
