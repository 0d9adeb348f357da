use eb_io::{Got, MemSink, Opened, Page, RealWorld, Source, World, WriteSink, put_all};
use std::test::Fail;

#[test]
fn sinks_take_what_they_have_room_for(rt: HostRuntime) -> Result<(), Fail> {
    let alloc = rt.alloc();
    let mut sink = MemSink::new(alloc, 5, 2, Vec::from_slice(alloc, &[2])?)?;
    assert!(rt; put_all(&mut sink, &[1, 2, 3]).is_ok());
    assert!(rt; put_all(&mut sink, &[4]).is_err());
    assert!(rt; put_all(&mut sink, &[5, 6, 7]).is_err());
    assert_eq!(rt; sink.octets(), [1, 2, 3, 5, 6].as_slice());
    Ok(())
}

#[test]
fn a_page_whose_write_fails_leaves_a_front(rt: HostRuntime) -> Result<(), Fail> {
    let alloc = rt.alloc();
    for (k, front) in [
        (0, b"".as_slice()),
        (3, b"abc".as_slice()),
        (7, b"abcdefg".as_slice()),
    ] {
        let mut sink = MemSink::new(alloc, 8, 1, Vec::from_slice(alloc, &[k])?)?;
        let mut page = Page::new();
        assert!(rt; page.put(b"abcd", &mut sink).is_ok());
        assert!(rt; page.put(b"efgh", &mut sink).is_ok());
        assert!(rt; page.flush(&mut sink).is_err());
        assert_eq!(rt; sink.octets(), front);
    }
    Ok(())
}

#[test]
fn real_files_are_opened(rt: HostRuntime) -> Result<(), Fail> {
    let alloc = rt.alloc();
    let mut world = RealWorld::new(rt, alloc);
    assert_eq!(rt; world.open(alloc, "no/such/file"), Opened::Failed);
    assert_eq!(rt; world.open(alloc, "."), Opened::Done);
    assert_eq!(rt; world.open(alloc, "/dev/null"), Opened::Done);
    let mut room = [0; 4];
    let mut files = world.files(alloc);
    assert_eq!(rt; files.len(), 2);
    for (file, got) in files.iter_mut().zip([Got::Failed, Got::End]) {
        assert_eq!(rt; file.read(&mut room), got);
    }
    Ok(())
}

#[test]
fn standard_streams_take_octets(rt: HostRuntime) {
    let mut sink = WriteSink::new(rt.stderr());
    assert!(rt; put_all(&mut sink, b"\n").is_ok());
}
