ghost use Rattle.std.specs.Prelude.{◌≡◌, ◌%◌, ◌<◌, Some, IfOk};
ghost use Rattle.eb_base.specs.declared.width.Width.TheVariants.{W32};
ghost use Rattle.wb_signals.specs.Request.{IsRequest};
ghost use Rattle.wb_signals.specs.Cycles.{FitsBus};
ghost use Rattle.wb_signals.specs.Rows.{asked};
ghost use Rattle.wb_tests.specs.Shared.{IsShared};

use crate::clocked::{Course, PORTS, leaf, rom};
use eb_base::{NoMemory, Width};
use std::alloc::Global;
use std::test::Fail;
use wb_crossbar::{Arbiter, Crossbar, Slot};
use wb_port::Port;
use wb_signals::{Answer, Op, PortRow, SlaveSet, WaveRow};
use wb_tree::Node;

fn read(adr: u64) -> Op
    requires word { adr % 4 ≡ 0 }
    ensures fits { FitsBus W32 result }
{
    Op {
        write: false,
        adr,
        dat: 0,
        sel: 15,
    }
}

/// A crossbar of one port, with a ROM by its port word at address 0.
fn crossbar(alloc: Global, port: u8) -> Result<Crossbar<Node>, NoMemory>
    ensures shared { IfOk result IsShared }
{
    let node = leaf(rom(alloc, Width::W32)?, Width::W32, port);
    let slot = Slot {
        first: 0,
        last: 7,
        node,
    };
    let slots = vec![in alloc; slot]?;
    let crossbar = Crossbar::new(alloc, slots, 1, Width::W32)?;
    Ok(crossbar)
}

/// The row of a port that requests an operation.
fn requesting(op: Op) -> PortRow
    ensures asks { asked result ≡ Some op }
    ensures operation { IsRequest op }
{
    PortRow {
        cyc: true,
        stb: true,
        we: op.write,
        adr: op.adr,
        dat: op.dat,
        sel: op.sel,
        ..PortRow::none()
    }
}

/// A clock in which the port, which holds the slave, requests an operation.
fn clock(crossbar: &mut Crossbar<Node>, op: Op) -> PortRow
    requires shared { IsShared crossbar.old }
    requires fits { FitsBus W32 op }
    ensures shared { IsShared crossbar.new }
{
    let mut rows = [requesting(op)];
    crossbar.tick(&mut rows);
    rows[0]
}

/// The same clock, where it is said that no other port asks.
fn clock_alone(crossbar: &mut Crossbar<Node>, op: Op) -> PortRow
    requires shared { IsShared crossbar.old }
    requires fits { FitsBus W32 op }
    ensures shared { IsShared crossbar.new }
{
    let mut row = requesting(op);
    crossbar.tick_alone(0, &mut row);
    row
}

/// The course of an operation that is requested in each clock until it is answered.
fn course(crossbar: Crossbar<Node>, op: Op) -> Course
    requires shared { IsShared crossbar }
    requires fits { FitsBus W32 op }
{
    let mut crossbar = crossbar;
    let mut stalls = 0;
    clock(&mut crossbar, op);
    for clocks in 2..8 {
        let row = clock(&mut crossbar, op);
        if row.stall {
            stalls |= 1 << clocks;
        }
        if row.ack {
            return (clocks, Some(Answer::Ack(row.read)), stalls);
        }
        if row.err {
            return (clocks, Some(Answer::Err), stalls);
        }
    }
    (8, None, stalls)
}

fn courses(alloc: Global, port: u8) -> Result<(Course, Course), NoMemory> {
    let (hit, miss) = (crossbar(alloc, port)?, crossbar(alloc, port)?);
    Ok((course(hit, read(4)), course(miss, read(8))))
}

#[test]
fn one_port(rt: HostRuntime) -> Result<(), Fail> {
    for row in &PORTS {
        let (port, clock, stalls) = *row;
        let hit = (clock, Some(Answer::Ack(2)), stalls);
        let miss = (2, Some(Answer::Err), 0);
        let told = courses(rt.alloc(), port).ok().ok_or("room")?;
        assert_eq!(rt; told, (hit, miss), "{port}");
    }
    Ok(())
}

/// Whether a lone port's clocks are those of all ports.
fn same_clocks(alloc: Global) -> Result<bool, NoMemory> {
    let mut all = crossbar(alloc, 16)?;
    let mut alone = crossbar(alloc, 16)?;
    for _ in 0..4 {
        if clock_alone(&mut alone, read(4)) != clock(&mut all, read(4)) {
            return Ok(false);
        }
    }
    Ok(true)
}

#[test]
fn one_port_alone(rt: HostRuntime) -> Result<(), Fail> {
    let same = same_clocks(rt.alloc()).ok().ok_or("room")?;
    assert!(rt; same);
    Ok(())
}

// The slaves 0 and 1 by themselves, then both.
#[test]
fn grants_in_turn(rt: HostRuntime) -> Result<(), Fail> {
    let (zero, one) = (Some(SlaveSet(0b01)), Some(SlaveSet(0b10)));
    let both = Some(SlaveSet(0b11));
    let mut arbiter = Arbiter::new(3);
    let first = arbiter.step(&[zero, both, one], SlaveSet(0));
    let second = arbiter.step(&[None, both, None], SlaveSet(0b11));
    let third = arbiter.step(&[zero, both, None], SlaveSet(0));
    assert_eq!(rt; (first, second, third), (5, 0, 1));
    Ok(())
}

// A lone port is granted as it would be beside others that don't wait, and the port after it is first then.
#[test]
fn grants_a_lone_port(rt: HostRuntime) -> Result<(), Fail> {
    let (zero, both) = (Some(SlaveSet(0b01)), Some(SlaveSet(0b11)));
    let mut arbiter = Arbiter::new(3);
    let held = arbiter.step_lone(1, SlaveSet(0b11), SlaveSet(0b10));
    let free = arbiter.step_lone(1, SlaveSet(0b11), SlaveSet(0));
    let next = arbiter.step(&[zero, None, both], SlaveSet(0));
    assert_eq!(rt; (held, free, next), (false, true, 4));
    Ok(())
}

// A port with one request unanswered drives no other.
#[test]
fn one_at_a_time(rt: HostRuntime) -> Result<(), Fail> {
    let mut port = Port::new(rt.alloc(), 1).ok().ok_or("room")?;
    port.load(&[read(0)]);
    let first = port.drive();
    port.sample(true, None);
    let second = port.drive();
    port.sample(false, Some(Answer::Ack(7)));
    assert_eq!(rt; (first, second), (Some(read(0)), None));
    assert_eq!(rt; (port.done(), port.answer(0)), (true, Answer::Ack(7)));
    Ok(())
}

#[test]
fn signals_of_a_bus(rt: HostRuntime) -> Result<(), Fail> {
    let alloc = rt.alloc();
    let asks = PortRow {
        cyc: true,
        ..PortRow::none()
    };
    let ports = Vec::from_slice(alloc, &[PortRow::none(), asks])?;
    let row = WaveRow::new(ports, Vec::from_slice(alloc, &[None, Some(1)])?);
    assert_eq!(rt; row.port(1), asks);
    assert_eq!(rt; (row.holder(0), row.holder(1)), (None, Some(1)));
    Ok(())
}
