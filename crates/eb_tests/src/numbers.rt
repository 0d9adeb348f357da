use eb_base::{Mode, Octets, Reg, RegList};
use std::test::Fail;

#[test]
fn lists_grow(rt: HostRuntime) -> Result<(), Fail> {
    let mut octets = Octets::of(Vec::new(rt.alloc()));
    octets.push(7).ok().ok_or("octet")?;
    assert_eq!(rt; octets.len(), 1);
    assert_eq!(rt; *octets.get(0), 7);
    let mut registers = RegList::of(Vec::new(rt.alloc()));
    let control = Reg {
        mode: Mode::W1c,
        reset: 255,
    };
    registers.push(control).ok().ok_or("register")?;
    assert_eq!(rt; registers.len(), 1);
    assert!(rt; *registers.get(0) == control);
    Ok(())
}
