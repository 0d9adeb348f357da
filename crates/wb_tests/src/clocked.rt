ghost use Rattle.std.specs.Prelude.{◌≡◌, ◌≤◌, ◌<◌, ◌%◌, ◌^◌, IfOk};
ghost use Rattle.eb_base.specs.Width.{octets};
ghost use Rattle.eb_base.specs.declared.width.Width.TheVariants.{W32, W64};
ghost use Rattle.wb_signals.specs.Narrow.{IsOf32};
ghost use Rattle.wb_device.specs.Limits.{IsBusWidth};
ghost use Rattle.wb_tree.specs.Tree.{node_slave};
ghost use Rattle.wb_tests.specs.Quiet.{IsQuietNode, IsRoomy};

use eb_base::{Mode, NoMemory, Reg, Width};
use std::alloc::Global;
use std::test::Fail;
use wb_device::Device;
use wb_signals::{Answer, Clocked, Op};
use wb_tree::{Node, Part};

/// The clock in which an operation is answered that passes in clock 1, its answer, and the clocks that stall another
/// one until then, as bits.
pub type Course = (u32, Option<Answer>, u32);

/// A device of each kind on a bus of 32 data bits: a RAM, registers, a FIFO and a ROM.
fn device(alloc: Global, kind: u8) -> Result<Device, NoMemory>
    ensures roomy { IfOk result (IsRoomy W32) }
{
    match kind {
        0 => Device::ram(alloc, 16, Width::W32),
        1 => {
            let word = Reg {
                mode: Mode::Rw,
                reset: 0x2a,
            };
            Device::regs(alloc, &[word, word])
        }
        2 => Device::fifo(alloc, 2),
        _ => rom(alloc, Width::W32),
    }
}

/// A device of each kind on a bus of 64 data bits: a RAM and a ROM.
fn wide(alloc: Global, kind: u8) -> Result<Device, NoMemory>
    ensures roomy { IfOk result (IsRoomy W64) }
{
    match kind {
        4 => Device::ram(alloc, 16, Width::W64),
        _ => rom(alloc, Width::W64),
    }
}

/// A ROM with the words 1 and 2 of 32 bits.
pub fn rom(alloc: Global, bus: Width) -> Result<Device, NoMemory>
    requires width { IsBusWidth bus }
    ensures roomy { IfOk result (IsRoomy bus) }
{
    let mut bytes = vec![in alloc; 0; 64]?;
    bytes[3] = 1;
    bytes[7] = 2;
    Ok(Device::rom(bytes, bus))
}

/// The device with a wait of 2 on a bus of this width, by its port word: pipelined, classic or wrapped.
pub fn leaf(device: Device, bus: Width, port: u8) -> Node
    requires roomy { IsRoomy bus device }
    ensures quiet { IsQuietNode bus 7 result }
    ensures half { bus ≡ W32 → IsOf32 (node_slave result).wiring }
{
    match port {
        0 => Node::pipelined(device, 2),
        1 => Node::classic(device, 2),
        _ => Node::wrapped(device, 2),
    }
}

/// A bus of this width with this node at the addresses from 0 to `last`.
fn under(alloc: Global, node: Node, last: u64, bus: Width) -> Result<Node, NoMemory>
    requires quiet { IsQuietNode bus last node }
    ensures quiet { IfOk result (IsQuietNode bus 15) }
{
    let parts = vec![in alloc; Part::new(0, last, node)]?;
    let bus = Node::bus(alloc, parts, bus)?;
    Ok(bus)
}

/// The node under three bridges of this width.
fn deep(alloc: Global, node: Node, bus: Width) -> Result<Node, NoMemory>
    requires quiet { IsQuietNode bus 7 node }
    ensures quiet { IfOk result (IsQuietNode bus 15) }
{
    let one = under(alloc, node, 7, bus)?;
    let two = under(alloc, one, 15, bus)?;
    let three = under(alloc, two, 15, bus)?;
    Ok(three)
}

/// A bus of 32 data bits behind a port of 64, with this device of 32 at address 0.
fn narrow(alloc: Global, device: Device, port: u8) -> Result<Node, NoMemory>
    requires roomy { IsRoomy W32 device }
    ensures quiet { IfOk result (IsQuietNode W64 7) }
{
    let node = leaf(device, Width::W32, port);
    let parts = vec![in alloc; Part::new(0, 7, node)]?;
    let bus = Node::narrow(alloc, parts)?;
    Ok(bus)
}

/// A read, or a write of zero.
fn op(write: bool, adr: u64, sel: u8) -> Op
    requires some { 0 < sel }
    ensures adr { result.adr ≡ adr }
    ensures sel { result.sel ≡ sel }
{
    Op {
        write,
        adr,
        dat: 0,
        sel,
    }
}

fn course(node: Node, bus: Width, last: u64, op: Op) -> Course
    requires quiet { IsQuietNode bus last node }
    requires word { op.adr % octets bus ≡ 0 }
    requires within { op.adr ≤ last }
    requires lanes { op.sel < 2 ^ octets bus }
{
    let mut node = node;
    let mut stalls = 0;
    node.tick(Some(op));
    for clock in 2..8 {
        if node.stalled(&op) {
            stalls |= 1 << clock;
        }
        let answer = node.tick(None);
        if answer.is_some() {
            return (clock, answer, stalls);
        }
    }
    (8, None, stalls)
}

/// The course of an operation at a device alone, and at another one under three bridges.
fn courses(
    alloc: Global,
    alone: Device,
    below: Device,
    bus: Width,
    port: u8,
    op: Op,
) -> Result<(Course, Course), NoMemory>
    requires alone { IsRoomy bus alone }
    requires below { IsRoomy bus below }
    requires word { op.adr % octets bus ≡ 0 }
    requires within { op.adr ≤ 7 }
    requires lanes { op.sel < 2 ^ octets bus }
{
    let alone = leaf(alone, bus, port);
    let below = deep(alloc, leaf(below, bus, port), bus)?;
    Ok((course(alone, bus, 7, op), course(below, bus, 15, op)))
}

/// The courses at a device of each kind, those from 4 on on a bus of 64 data bits.
fn courses_at(
    alloc: Global,
    kind: u8,
    port: u8,
    write: bool,
) -> Result<(Course, Course), NoMemory> {
    if kind < 4 {
        let (alone, below) = (device(alloc, kind)?, device(alloc, kind)?);
        courses(alloc, alone, below, Width::W32, port, op(write, 0, 15))
    } else {
        let (alone, below) = (wide(alloc, kind)?, wide(alloc, kind)?);
        courses(alloc, alone, below, Width::W64, port, op(write, 0, 255))
    }
}

/// The course of a miss under three bridges, of 32 data bits and of 64.
fn missed(alloc: Global, port: u8) -> Result<(Course, Course), NoMemory> {
    let short = leaf(device(alloc, 0)?, Width::W32, port);
    let long = leaf(wide(alloc, 4)?, Width::W64, port);
    let short = deep(alloc, short, Width::W32)?;
    let long = deep(alloc, long, Width::W64)?;
    Ok((
        course(short, Width::W32, 15, op(false, 8, 15)),
        course(long, Width::W64, 15, op(false, 8, 255)),
    ))
}

/// The course of a read through a port of 64 data bits, and through a bus of 64 before it.
fn halved(alloc: Global, port: u8, sel: u8) -> Result<(Course, Course), NoMemory>
    requires some { 0 < sel }
{
    let alone = narrow(alloc, device(alloc, 3)?, port)?;
    let below = narrow(alloc, device(alloc, 3)?, port)?;
    let below = under(alloc, below, 7, Width::W64)?;
    let op = op(false, 0, sel);
    Ok((
        course(alone, Width::W64, 7, op),
        course(below, Width::W64, 15, op),
    ))
}

/// The port words, with the clock of the answer and the clocks that stall.
pub static PORTS: [(u8, u32, u32); 3] = [(0, 4, 0), (1, 5, 0b01_1100), (2, 6, 0b11_1100)];

#[test]
fn each_device_by_port(rt: HostRuntime) -> Result<(), Fail> {
    for (kind, read, written) in [
        (0, Answer::Ack(0), Answer::Ack(0)),
        (1, Answer::Ack(0x2a), Answer::Ack(0)),
        (2, Answer::Rty, Answer::Ack(0)),
        (3, Answer::Ack(1), Answer::Err),
        (4, Answer::Ack(0), Answer::Ack(0)),
        (5, Answer::Ack(0x1_0000_0002), Answer::Err),
    ] {
        for row in &PORTS {
            let (port, clock, stalls) = *row;
            for (write, answer) in [(false, read), (true, written)] {
                let course = (clock, Some(answer), stalls);
                let told = courses_at(rt.alloc(), kind, port, write)
                    .ok()
                    .ok_or("room")?;
                assert_eq!(rt; told, (course, course), "{kind} {port}");
            }
        }
    }
    Ok(())
}

#[test]
fn miss_under_bridges(rt: HostRuntime) -> Result<(), Fail> {
    let course = (2, Some(Answer::Err), 0);
    for port in 0..3 {
        let told = missed(rt.alloc(), port).ok().ok_or("room")?;
        assert_eq!(rt; told, (course, course), "{port}");
    }
    Ok(())
}

// The upper half has the lower address. An operation on both halves is a miss.
#[test]
fn halves_of_a_narrow_bus(rt: HostRuntime) -> Result<(), Fail> {
    for row in &PORTS {
        let (port, clock, stalls) = *row;
        for (sel, course) in [
            (0xf0, (clock, Some(Answer::Ack(1 << 32)), stalls)),
            (0x0f, (clock, Some(Answer::Ack(2)), stalls)),
            (0xff, (2, Some(Answer::Err), 0)),
        ] {
            let told = halved(rt.alloc(), port, sel).ok().ok_or("room")?;
            assert_eq!(rt; told, (course, course), "{port} {sel}");
        }
    }
    Ok(())
}
