use eb_io::MemSink;
use eb_text::{Fault, Status, write_line};
use std::test::Fail;

// The line of a fault that no example meets.
#[test]
fn too_long(rt: HostRuntime) -> Result<(), Fail> {
    let alloc = rt.alloc();
    let mut sink = MemSink::new(alloc, 16, 3, Vec::new(alloc))?;
    assert!(rt; write_line(&Fault::TooLong, &mut sink).is_ok());
    assert_eq!(rt; sink.octets(), b"too long\n".as_slice());
    assert_eq!(rt; Fault::TooLong.status(), Status::TOO_LONG);
    Ok(())
}
