ghost use Rattle.soc_desc.specs.Accepted.{IsSoundBus, IsSoundBusOf, is_32_or_64};

use eb_base::Width;
use eb_samples::{ROOT, SOC};
use sdb_build::table;
use soc_desc::{BusDescription, read};
use std::test::Fail;

#[test]
fn table_of_soc(rt: HostRuntime) -> Result<(), Fail> {
    let alloc = rt.alloc();
    let Ok(soc) = read(alloc, SOC.as_bytes()) else {
        return Err(Fail::from("soc"));
    };
    let octets = table(alloc, &soc.bus).ok().ok_or("memory")?;
    assert_eq!(rt; octets.len(), 7 * 64);
    assert!(rt; octets.starts_with(&ROOT));
    Ok(())
}

// The bus with 64 data bits.
fn widened(bus: BusDescription) -> BusDescription
    requires { IsSoundBus bus }
    ensures { IsSoundBusOf is_32_or_64 result }
{
    BusDescription {
        product: bus.product,
        width: Width::W64,
        last: bus.last,
        sdb: bus.sdb,
        items: bus.items,
    }
}

#[test]
fn table_of_64_bits(rt: HostRuntime) -> Result<(), Fail> {
    let alloc = rt.alloc();
    let Ok(soc) = read(alloc, SOC.as_bytes()) else {
        return Err(Fail::from("soc"));
    };
    let octets = table(alloc, &widened(soc.bus)).ok().ok_or("memory")?;
    // The interconnect, and the class, version and access widths of the first device.
    assert_eq!(rt; octets.len(), 7 * 64);
    assert!(rt; octets.starts_with(&ROOT));
    assert!(rt; octets[64..72].starts_with(&[0, 0, 0, 0, 0, 0, 0, 15]));
    Ok(())
}
