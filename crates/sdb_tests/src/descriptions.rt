use eb_base::Width;
use eb_samples::{DEEP, SOC, TWO};
use soc_desc::{DescFault, Path, read};
use std::alloc::{AllocError, Global};
use std::test::Fail;

// Each row: what stands in TWO, what is written there instead, and the answer. The folder cases has more.
static CHANGES: [(&str, &str, &str); 7] = [
    ("\"depth\":4,", "", "missing /depth"),
    (
        "\"at\":0,",
        "\"zz\":1,\"at\":\"12\",",
        "unknown /bus/items/0/zz",
    ),
    ("\"at\":4096", "\"at\":\"0xFFFC\"", "outside /bus/items/1"),
    ("\"masters\":2", "\"masters\":17", "range /masters"),
    ("\"0x8000\"", "0", "overlap /bus/items/0 /bus/sdb"),
    (
        "\"at\":4096",
        "\"at\":\"0x800\"",
        "overlap /bus/items/0 /bus/items/1",
    ),
    (
        "\"ram-a\"",
        "\"12345678901234567890\"",
        "name /bus/items/0/product/name",
    ),
];

// Whole texts.
static TEXTS: [(&str, &str); 4] = [
    (TWO, "accepted"),
    (DEEP, "accepted"),
    (SOC, "accepted"),
    ("{", "not json"),
];

// The answer to a text, a fault by its name and its paths.
fn answer(alloc: Global, text: &str) -> Result<String, AllocError> {
    match read(alloc, text.as_bytes()) {
        Ok(_) => "accepted".to_string(alloc),
        Err(fault) => named(alloc, &fault),
    }
}

fn named(alloc: Global, fault: &DescFault) -> Result<String, AllocError> {
    match fault {
        DescFault::NotJson => "not json".to_string(alloc),
        DescFault::Missing(path) => with_path(alloc, "missing", path),
        DescFault::Unknown(path) => with_path(alloc, "unknown", path),
        DescFault::Kind(path) => with_path(alloc, "kind", path),
        DescFault::Range(path) => with_path(alloc, "range", path),
        DescFault::Overlap(earlier, path) => {
            let front = with_path(alloc, "overlap", earlier)?;
            with_path(alloc, front.as_str(), path)
        }
        DescFault::Outside(path) => with_path(alloc, "outside", path),
        DescFault::TooMany(path) => with_path(alloc, "too many", path),
        DescFault::TooDeep(path) => with_path(alloc, "too deep", path),
        DescFault::Name(path) => with_path(alloc, "name", path),
        DescFault::NoMemory => "no memory".to_string(alloc),
    }
}

fn with_path(alloc: Global, front: &str, path: &Path) -> Result<String, AllocError> {
    let shown = std::str::from_utf8(path.as_slice()).unwrap_or("no text");
    format!(in alloc; "{front} {shown}")
}

#[test]
fn whole_texts(rt: HostRuntime) -> Result<(), Fail> {
    let alloc = rt.alloc();
    for row in &TEXTS {
        let (text, wanted) = *row;
        assert_eq!(rt; answer(alloc, text)?.as_str(), wanted);
    }
    Ok(())
}

#[test]
fn changed_texts(rt: HostRuntime) -> Result<(), Fail> {
    let alloc = rt.alloc();
    for change in &CHANGES {
        let (old, new, wanted) = *change;
        let text = TWO.replacen(alloc, old, new, 1)?;
        assert_eq!(rt; answer(alloc, text.as_str())?.as_str(), wanted);
    }
    Ok(())
}

#[test]
fn fields_of_soc(rt: HostRuntime) -> Result<(), Fail> {
    let soc = read(rt.alloc(), SOC.as_bytes()).ok().ok_or("soc")?;
    let numbers = (soc.depth, soc.masters, soc.bus.last, soc.bus.sdb);
    assert_eq!(rt; numbers, (4, 2, 0xfffff, 0x30000));
    assert_eq!(rt; soc.bus.width, Width::W32);
    Ok(())
}

#[test]
fn pushed_path(rt: HostRuntime) -> Result<(), Fail> {
    let alloc = rt.alloc();
    let mut path = Path::of(Vec::from_slice(alloc, b"/bus")?);
    assert!(rt; path.push(b'/').is_ok());
    assert_eq!(rt; path.as_slice(), b"/bus/".as_slice());
    Ok(())
}
