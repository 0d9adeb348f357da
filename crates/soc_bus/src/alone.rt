//! A clock in which one port alone has a request or is owed an answer.
ghost use Rattle.std.specs.Prelude.{◌≡◌, ◌≤◌, ◌<◌, length, slice_set};
ghost use Rattle.wb_tree.specs.Tree.{node_slave, IsSound};
ghost use Rattle.wb_crossbar.specs.Crossbar.{wiring_of, rows_after, after_tick};
ghost use Rattle.wb_crossbar.specs.Inside.{crossbar_of, IsCrossbar};
ghost use Rattle.soc_wave.specs.Shown.{holders_from};
ghost use Rattle.soc_bus.specs.View.{states};
ghost use Rattle.soc_bus.specs.Clocked.{driven_rows, sampled_all, AreServed};
ghost use Rattle.soc_bus.specs.Alone.{IsActive, AreDoneBetween, AreOthersDone, resting_rows};

use crate::clock::{answer_got, driving, is_sent};
use crate::cycle::Cycle;
use crate::recorder::PairRecorder;
use wb_crossbar::Crossbar;
use wb_port::Port;
use wb_signals::PortRow;
use wb_tree::Node;

/// Which ports have a request or are owed an answer.
#[derive(Clone, Copy)]
pub enum Active {
    Nobody,
    One(usize),
    Many,
}

/// Looks which ports have a request or are owed an answer.
pub fn active_in(ports: &[Port]) -> Active
    ensures active { IsActive result ports.now }
{
    let first = first_active(ports, 0);
    if first == ports.len() {
        return Active::Nobody;
    }
    if first_active(ports, first + 1) < ports.len() {
        return Active::Many;
    }
    Active::One(first)
}

/// The first port from here on that has a request or is owed an answer, or the number of ports.
fn first_active(ports: &[Port], from: usize) -> usize
    requires from { from ≤ length ports.now }
    ensures within { result ≤ length ports.now }
    ensures done { AreDoneBetween from result ports.now }
{
    for m in from..ports.len() {
        if !ports[m].done() {
            return m;
        }
    }
    ports.len()
}

/// One clock in which all ports but one have all their answers. Only that port drives a row, which is returned as the
/// clock leaves it, and gets an answer.
pub fn clock_one<P: PairRecorder>(
    crossbar: &mut Crossbar<Node>,
    cycles: &[Cycle<P>],
    ports: &mut Vec<Port>,
    m: usize,
) -> PortRow
    requires sound { IsCrossbar node_slave IsSound crossbar.old }
    requires served { AreServed (crossbar_of node_slave crossbar.old)
        (holders_from (states cycles.now) 0 (length (crossbar_of node_slave crossbar.old).children)) ports.old.items }
    requires cycles { length cycles.now ≡ length ports.old.items }
    requires within { m < length ports.old.items }
    requires others { AreOthersDone m ports.old.items }
    ensures row { rows_after (wiring_of (crossbar_of node_slave crossbar.old))
        (crossbar_of node_slave crossbar.old).owed (driven_rows (states cycles.now) ports.old.items)
        ≡ slice_set (driven_rows (states cycles.now) ports.old.items) m result }
    ensures crossbar { crossbar_of node_slave crossbar.new
        ≡ after_tick (crossbar_of node_slave crossbar.old) (driven_rows (states cycles.now) ports.old.items) }
    ensures sound { IsCrossbar node_slave IsSound crossbar.new }
    ensures ports { ports.new.items ≡ sampled_all ports.old.items
        (slice_set (driven_rows (states cycles.now) ports.old.items) m result) }
{
    let mut row = driving(cycles[m].is_busy(), &ports[m]);
    crossbar.tick_alone(m, &mut row);
    ports[m].sample(is_sent(&row), answer_got(&row));
    row
}

/// The rows of ports that drive nothing: CYC alone.
pub fn rest_all<P: PairRecorder>(cycles: &[Cycle<P>], rows: &mut [PortRow])
    requires rows { length rows.old ≡ length cycles.now }
    ensures rows { rows.new ≡ resting_rows (states cycles.now) }
{
    for i in 0..rows.len() {
        rows[i] = PortRow {
            cyc: cycles[i].is_busy(),
            ..PortRow::none()
        };
    }
}
