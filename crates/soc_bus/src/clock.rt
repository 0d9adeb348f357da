//! One clock of all ports.
ghost use Rattle.std.specs.Prelude.{◌≡◌, ◌≢◌, ◌≤◌, ◌<◌, ◌==◌, ℕ, Some, None, true, length, slice_get, slice_index_or};
ghost use Rattle.std.specs.Int.{bit_at};
ghost use Rattle.std.specs.Option.{is_some};
ghost use Rattle.wb_signals.specs.Request.{Request, IsRequest};
ghost use Rattle.wb_signals.specs.Rows.{asked};
ghost use Rattle.wb_signals.specs.declared.port_row.PortRow.{PortRow};
ghost use Rattle.wb_port.specs.Port.{PortState, driven};
ghost use Rattle.wb_tree.specs.Tree.{node_slave, IsSound};
ghost use Rattle.wb_crossbar.specs.Crossbar.{wiring_of, rows_after, after_tick};
ghost use Rattle.wb_crossbar.specs.Inside.{crossbar_of, IsCrossbar};
ghost use Rattle.soc_bus.specs.View.{states};
ghost use Rattle.soc_bus.specs.Clocked.{driving, driven_rows, is_sent, answer_got, sampled_all, IsHeldAlso, AreServed, AreOperations};
ghost use Rattle.soc_bus.specs.Alone.{AreOthersDone};
ghost use Rattle.soc_wave.specs.Shown.{holders_from};

use crate::alone::{Active, active_in, clock_one, rest_all};
use crate::cycle::Cycle;
use crate::recorder::PairRecorder;
use wb_crossbar::Crossbar;
use wb_port::Port;
use wb_signals::{Answer, PortRow};
use wb_tree::Node;

/// One clock, after the grants: what the ports drive, what the slaves make of it, and what the ports get. Where one
/// port alone is active, the others are passed over.
pub fn clock<P: PairRecorder>(
    crossbar: &mut Crossbar<Node>,
    cycles: &[Cycle<P>],
    ports: &mut Vec<Port>,
    rows: &mut [PortRow],
)
    requires sound { IsCrossbar node_slave IsSound crossbar.old }
    requires served { AreServed (crossbar_of node_slave crossbar.old)
        (holders_from (states cycles.now) 0 (length (crossbar_of node_slave crossbar.old).children)) ports.old.items }
    requires cycles { length cycles.now ≡ length ports.old.items }
    requires rows { length rows.old ≡ length ports.old.items }
    ensures rows { rows.new ≡ rows_after (wiring_of (crossbar_of node_slave crossbar.old))
        (crossbar_of node_slave crossbar.old).owed (driven_rows (states cycles.now) ports.old.items) }
    ensures crossbar { crossbar_of node_slave crossbar.new
        ≡ after_tick (crossbar_of node_slave crossbar.old) (driven_rows (states cycles.now) ports.old.items) }
    ensures sound { IsCrossbar node_slave IsSound crossbar.new }
    ensures ports { ports.new.items ≡ sampled_all ports.old.items rows.new }
{
    match active_in(ports) {
        Active::One(m) => clock_alone(crossbar, cycles, ports, m, rows),
        _ => clock_all(crossbar, cycles, ports, rows),
    }
}

/// One clock of which nobody sees the rows. Where no port is active, all stays as it is.
pub fn unseen_clock<P: PairRecorder>(
    crossbar: &mut Crossbar<Node>,
    cycles: &[Cycle<P>],
    ports: &mut Vec<Port>,
)
    requires sound { IsCrossbar node_slave IsSound crossbar.old }
    requires served { AreServed (crossbar_of node_slave crossbar.old)
        (holders_from (states cycles.now) 0 (length (crossbar_of node_slave crossbar.old).children)) ports.old.items }
    requires cycles { length cycles.now ≡ length ports.old.items }
    requires few { length ports.old.items ≤ 16 }
    ensures crossbar { crossbar_of node_slave crossbar.new
        ≡ after_tick (crossbar_of node_slave crossbar.old) (driven_rows (states cycles.now) ports.old.items) }
    ensures sound { IsCrossbar node_slave IsSound crossbar.new }
    ensures ports { ports.new.items ≡ sampled_all ports.old.items
        (rows_after (wiring_of (crossbar_of node_slave crossbar.old))
        (crossbar_of node_slave crossbar.old).owed (driven_rows (states cycles.now) ports.old.items)) }
{
    match active_in(ports) {
        Active::Nobody => {}
        Active::One(m) => {
            let _row = clock_one(crossbar, cycles, ports, m);
        }
        Active::Many => unseen_rows(crossbar, cycles, ports),
    }
}

/// One clock of all ports of which nobody sees the rows. Few ports, the common case, take no room for 16.
fn unseen_rows<P: PairRecorder>(
    crossbar: &mut Crossbar<Node>,
    cycles: &[Cycle<P>],
    ports: &mut Vec<Port>,
)
    requires sound { IsCrossbar node_slave IsSound crossbar.old }
    requires served { AreServed (crossbar_of node_slave crossbar.old)
        (holders_from (states cycles.now) 0 (length (crossbar_of node_slave crossbar.old).children)) ports.old.items }
    requires cycles { length cycles.now ≡ length ports.old.items }
    requires few { length ports.old.items ≤ 16 }
    ensures crossbar { crossbar_of node_slave crossbar.new
        ≡ after_tick (crossbar_of node_slave crossbar.old) (driven_rows (states cycles.now) ports.old.items) }
    ensures sound { IsCrossbar node_slave IsSound crossbar.new }
    ensures ports { ports.new.items ≡ sampled_all ports.old.items
        (rows_after (wiring_of (crossbar_of node_slave crossbar.old))
        (crossbar_of node_slave crossbar.old).owed (driven_rows (states cycles.now) ports.old.items)) }
{
    let count = ports.len();
    if count <= 2 {
        let mut rows = [PortRow::none(); 2];
        clock_all(crossbar, cycles, ports, &mut rows[..count]);
    } else {
        let mut rows = [PortRow::none(); 16];
        clock_all(crossbar, cycles, ports, &mut rows[..count]);
    }
}

/// One clock in which the port m alone is active.
fn clock_alone<P: PairRecorder>(
    crossbar: &mut Crossbar<Node>,
    cycles: &[Cycle<P>],
    ports: &mut Vec<Port>,
    m: usize,
    rows: &mut [PortRow],
)
    requires sound { IsCrossbar node_slave IsSound crossbar.old }
    requires served { AreServed (crossbar_of node_slave crossbar.old)
        (holders_from (states cycles.now) 0 (length (crossbar_of node_slave crossbar.old).children)) ports.old.items }
    requires cycles { length cycles.now ≡ length ports.old.items }
    requires rows { length rows.old ≡ length ports.old.items }
    requires within { m < length ports.old.items }
    requires others { AreOthersDone m ports.old.items }
    ensures rows { rows.new ≡ rows_after (wiring_of (crossbar_of node_slave crossbar.old))
        (crossbar_of node_slave crossbar.old).owed (driven_rows (states cycles.now) ports.old.items) }
    ensures crossbar { crossbar_of node_slave crossbar.new
        ≡ after_tick (crossbar_of node_slave crossbar.old) (driven_rows (states cycles.now) ports.old.items) }
    ensures sound { IsCrossbar node_slave IsSound crossbar.new }
    ensures ports { ports.new.items ≡ sampled_all ports.old.items rows.new }
{
    let row = clock_one(crossbar, cycles, ports, m);
    rest_all(cycles, rows);
    rows[m] = row;
}

/// One clock of all ports.
fn clock_all<P: PairRecorder>(
    crossbar: &mut Crossbar<Node>,
    cycles: &[Cycle<P>],
    ports: &mut Vec<Port>,
    rows: &mut [PortRow],
)
    requires sound { IsCrossbar node_slave IsSound crossbar.old }
    requires served { AreServed (crossbar_of node_slave crossbar.old)
        (holders_from (states cycles.now) 0 (length (crossbar_of node_slave crossbar.old).children)) ports.old.items }
    requires cycles { length cycles.now ≡ length ports.old.items }
    requires rows { length rows.old ≡ length ports.old.items }
    ensures rows { rows.new ≡ rows_after (wiring_of (crossbar_of node_slave crossbar.old))
        (crossbar_of node_slave crossbar.old).owed (driven_rows (states cycles.now) ports.old.items) }
    ensures crossbar { crossbar_of node_slave crossbar.new
        ≡ after_tick (crossbar_of node_slave crossbar.old) (driven_rows (states cycles.now) ports.old.items) }
    ensures sound { IsCrossbar node_slave IsSound crossbar.new }
    ensures ports { ports.new.items ≡ sampled_all ports.old.items rows.new }
{
    drive_all(cycles, ports, rows);
    crossbar.tick(rows);
    sample_all(ports, rows);
}

/// The port that holds each top slave.
///
/// The ports are looked at from the last one on, so that a slave is shown with the first that holds it.
pub fn hold_all<P: PairRecorder>(cycles: &[Cycle<P>], holders: &mut [Option<u8>])
    requires few { length cycles.now ≤ 16 }
    requires most { length holders.old ≤ 128 }
    ensures holders { holders.new ≡ holders_from (states cycles.now) 0 (length holders.old) }
    ensures length { length holders.new ≡ length holders.old }
{
    hold_none(holders);
    let count = cycles.len();
    for i in 0..count {
        let m = count - 1 - i;
        hold_set(holders, cycles[m].held(), m as u8);
    }
}

/// Nobody holds a slave.
fn hold_none(holders: &mut [Option<u8>])
    ensures none { (k : ℕ) → slice_index_or holders.new k None ≡ None }
    ensures length { length holders.new ≡ length holders.old }
{
    for i in 0..holders.len() {
        holders[i] = None;
    }
}

/// A port holds the slaves of its set. Most ports hold none.
fn hold_set(holders: &mut [Option<u8>], set: u128, m: u8)
    requires most { length holders.old ≤ 128 }
    ensures given { IsHeldAlso set m holders.old holders.new }
    ensures length { length holders.new ≡ length holders.old }
{
    if set != 0 {
        hold_some(holders, set, m);
    }
}

/// A port holds the slaves of its set.
fn hold_some(holders: &mut [Option<u8>], set: u128, m: u8)
    requires most { length holders.old ≤ 128 }
    ensures given { IsHeldAlso set m holders.old holders.new }
    ensures length { length holders.new ≡ length holders.old }
{
    for i in 0..holders.len() {
        if has(set, i) {
            holders[i] = Some(m);
        }
    }
}

/// Whether a slave is in a set.
fn has(set: u128, slave: usize) -> bool
    requires below { slave < 128 }
    ensures has { result ≡ (bit_at set slave == 1) }
{
    (set >> slave) & 1 == 1
}

/// The row of a port, in a cycle or not, that drives its next operation, or none.
pub fn driving(cyc: bool, port: &Port) -> PortRow
    ensures row { result ≡ driving cyc (driven port.now) }
    ensures operation { (r : Request) → asked result ≡ Some r → IsRequest r }
{
    if !port.drives() {
        return PortRow {
            cyc,
            ..PortRow::none()
        };
    }
    let op = port.head();
    PortRow {
        cyc,
        stb: true,
        we: op.write,
        adr: op.adr,
        dat: op.dat,
        sel: op.sel,
        stall: false,
        ack: false,
        err: false,
        rty: false,
        read: 0,
    }
}

/// What each port drives in this clock.
fn drive_all<P: PairRecorder>(cycles: &[Cycle<P>], ports: &[Port], rows: &mut [PortRow])
    requires cycles { length cycles.now ≡ length ports.now }
    requires rows { length rows.old ≡ length ports.now }
    ensures rows { rows.new ≡ driven_rows (states cycles.now) ports.now }
    ensures operations { AreOperations rows.new }
{
    for m in 0..rows.len() {
        rows[m] = driving(cycles[m].is_busy(), &ports[m]);
    }
}

pub fn answer_got(row: &PortRow) -> Option<Answer>
    ensures answer { result ≡ answer_got row.now }
{
    if row.ack {
        Some(Answer::Ack(row.read))
    } else if row.err {
        Some(Answer::Err)
    } else if row.rty {
        Some(Answer::Rty)
    } else {
        None
    }
}

pub fn is_sent(row: &PortRow) -> bool
    ensures passed { result ≡ is_sent row.now }
{
    row.stb && !row.stall
}

/// What each port gets in this clock.
fn sample_all(ports: &mut Vec<Port>, rows: &[PortRow])
    requires rows { length rows.now ≡ length ports.old.items }
    requires passes { (m : ℕ) (p : PortState) (row : PortRow) → slice_get ports.old.items m ≡ Some p
        → slice_get rows.now m ≡ Some row → is_sent row ≡ true → driven p ≢ None }
    requires answers { (m : ℕ) (p : PortState) (row : PortRow) → slice_get ports.old.items m ≡ Some p
        → slice_get rows.now m ≡ Some row → is_some (answer_got row) ≡ true → length p.answers < p.passed }
    ensures ports { ports.new.items ≡ sampled_all ports.old.items rows.now }
{
    for m in 0..ports.len() {
        let row = &rows[m];
        ports[m].sample(is_sent(row), answer_got(row));
    }
}
