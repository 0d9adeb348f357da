use eb_base::Width;
use soc_script::{ScriptFault, read_script};
use std::test::Fail;

// Two records of one cycle and a cycle of another master.
const TWO_MASTERS: &[u8] = b"0 0 hold w0=1\n0 0 end r0\n1 0 end w0=9";

// The address of the second line is no multiple of 4.
const ODD_ADDRESS: &[u8] = b"0 0 end w0=1\n0 0 end w2=1\n";

#[test]
fn a_script_is_read(rt: HostRuntime) -> Result<(), Fail> {
    let alloc = rt.alloc();
    let Ok(script) = read_script(alloc, TWO_MASTERS, 2, Width::W32) else {
        return Err(Fail::from("refused"));
    };
    assert_eq!(rt; script.lines().len(), 3);
    Ok(())
}

#[test]
fn a_script_is_refused_at_its_first_bad_line(rt: HostRuntime) -> Result<(), Fail> {
    let alloc = rt.alloc();
    let line = match read_script(alloc, ODD_ADDRESS, 2, Width::W32) {
        Err(ScriptFault::Refused(line)) => line,
        _ => return Err(Fail::from("read")),
    };
    assert_eq!(rt; line, 2);
    Ok(())
}
