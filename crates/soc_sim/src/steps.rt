//! What is done before a tick.
ghost use Rattle.std.specs.Prelude.{◌≡◌, ◌<◌, ◌==◌, ◌&&◌, [], length, slice_index_or, slice_set, nat_le, OnOk};
ghost use Rattle.soc_core.specs.Built.{fabric_of};
ghost use Rattle.soc_core.specs.Core.{port, CanRelease};
ghost use Rattle.soc_script_wave.specs.Runner.{advanced, after_taken, is_over, is_released, is_nil, is_through, left_from, lines_left, prepared, prepared_from, settled};
ghost use Rattle.soc_sim.specs.Steps.{MayBegin, MaySettle, MayPrepare, MayAllPrepare};

use crate::todos::Todos;
use crate::watched::WatchedBus;
use eb_base::NoMemory;
use soc_bus::{Bus, BusRecorder};

/// Whether a port's line is loaded and all is answered.
fn is_through<R: BusRecorder>(bus: &Bus<R>, m: u8) -> bool
    requires within { m < bus.now.description.masters }
    ensures through { result ≡ is_through (port bus.now.core m) }
{
    bus.loaded(m) > 0 && bus.pending(m) == 0
}

/// Releases a port whose answers were taken, where the line ended its cycle or was its master's last.
fn leave<R: BusRecorder>(bus: &mut WatchedBus<R>, m: u8, last: bool, todos: &Todos<'_>)
    requires within { m < length todos.now }
    requires can { CanRelease (fabric_of bus.old.description) bus.old.core m }
    ensures left { bus.new
        ≡ record bus.old { core = after_taken m last (slice_index_or todos.now m []) bus.old.core } }
{
    if last {
        bus.release(m, false);
    } else if todos.next(m).is_none() {
        bus.release(m, true);
    }
}

/// The first step of a master: a line that is through is taken, and its cycle released where it ends.
fn settle<R: BusRecorder>(bus: &mut WatchedBus<R>, m: u8, todos: &mut Todos<'_>)
    requires within { m < bus.old.description.masters }
    requires count { length todos.old ≡ bus.old.description.masters }
    requires may { MaySettle (fabric_of bus.old.description) m bus.old.core }
    ensures settled { bus.new
        ≡ record bus.old { core = settled m (slice_index_or todos.old m []) bus.old.core } }
    ensures left { todos.new
        ≡ slice_set todos.old m (lines_left (port bus.old.core m) (slice_index_or todos.old m [])) }
{
    let Some(line) = todos.next(m) else {
        return;
    };
    if !is_through(bus.bus(), m) {
        return;
    }
    bus.take(m);
    todos.advance(m);
    leave(bus, m, line.last, todos);
}

/// The second step: where the next line's clock has come, an idle port raises its set, and a granted port with nothing
/// loaded loads it.
fn begin<R: BusRecorder>(
    bus: &mut WatchedBus<R>,
    t: usize,
    m: u8,
    todos: &Todos<'_>,
) -> Result<(), NoMemory>
    requires within { m < bus.old.description.masters }
    requires count { length todos.now ≡ bus.old.description.masters }
    requires may { MayBegin (fabric_of bus.old.description) m (slice_index_or todos.now m []) bus.old.core }
    ensures begun { OnOk result (bus.new ≡ record bus.old {
      core = advanced (fabric_of bus.old.description) t m (slice_index_or todos.now m []) bus.old.core;
    }) }
{
    let Some(line) = todos.next(m) else {
        return Ok(());
    };
    if usize::from(line.clock) > t {
        return Ok(());
    }
    if bus.bus().idle(m) {
        let set = bus.bus().set_of(&line.ops, line.last);
        return bus.raise(m, set);
    }
    if !bus.bus().granted(m) {
        return Ok(());
    }
    if bus.bus().loaded(m) > 0 {
        return Ok(());
    }
    bus.load(m, &line.ops)
}

/// Both steps of a master.
fn prepare<R: BusRecorder>(
    bus: &mut WatchedBus<R>,
    t: usize,
    m: u8,
    todos: &mut Todos<'_>,
) -> Result<(), NoMemory>
    requires within { m < bus.old.description.masters }
    requires count { length todos.old ≡ bus.old.description.masters }
    requires may { MayPrepare (fabric_of bus.old.description) m (slice_index_or todos.old m []) bus.old.core }
    ensures prepared { OnOk result (bus.new ≡ record bus.old {
      core = prepared (fabric_of bus.old.description) t m (slice_index_or todos.old m []) bus.old.core;
    }) }
    ensures left { todos.new
        ≡ slice_set todos.old m (lines_left (port bus.old.core m) (slice_index_or todos.old m [])) }
{
    settle(bus, m, todos);
    begin(bus, t, m, todos)
}

/// What is done before the tick of clock `t`, for all masters in rising order.
pub fn prepare_all<R: BusRecorder>(
    bus: &mut WatchedBus<R>,
    t: usize,
    todos: &mut Todos<'_>,
) -> Result<(), NoMemory>
    requires count { length todos.old ≡ bus.old.description.masters }
    requires may { MayAllPrepare (fabric_of bus.old.description) t 0 todos.old bus.old.core }
    ensures prepared { OnOk result (bus.new ≡ record bus.old {
      core = prepared_from (fabric_of bus.old.description) t 0 todos.old bus.old.core;
    }) }
    ensures left { OnOk result (todos.new ≡ left_from 0 todos.old bus.old.core) }
{
    for m in 0..bus.bus().masters() {
        prepare(bus, t, m, todos)?;
    }
    Ok(())
}

/// Whether a master has no line left, and its port is released.
fn is_over_for<R: BusRecorder>(bus: &Bus<R>, m: u8, todos: &Todos<'_>) -> bool
    requires within { m < bus.now.description.masters }
    requires count { length todos.now ≡ bus.now.description.masters }
    ensures over { result
        ≡ (is_nil (slice_index_or todos.now m []) && is_released (port bus.now.core m).phase) }
{
    todos.next(m).is_none() && !bus.busy(m)
}

/// Whether every line is done and every port released.
pub fn is_over<R: BusRecorder>(bus: &Bus<R>, todos: &Todos<'_>) -> bool
    requires count { length todos.now ≡ bus.now.description.masters }
    ensures over { result ≡ is_over 0 todos.now bus.now.core }
{
    for m in 0..bus.masters() {
        if !is_over_for(bus, m, todos) {
            return false;
        }
    }
    true
}
