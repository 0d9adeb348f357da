//! A bus that is watched.
ghost use Rattle.std.specs.Prelude.{◌≡◌, ◌≤◌, ◌-◌, ◌++◌, ◌∷◌, [], length, max, OnOk, OnErr};
ghost use Rattle.soc_core.specs.Built.{fabric_of};
ghost use Rattle.soc_core.specs.Core.{built_core, raised, loaded, taken, released, CanRaise, CanLoad, CanTake, CanRelease};
ghost use Rattle.soc_core.specs.Events.{Tick};
ghost use Rattle.soc_wave.specs.Shown.{ShowsTick};
ghost use Rattle.soc_bus.specs.View.{IsBus};
ghost use Rattle.soc_sim.specs.Watched.{IsWatched, LeadsOn};

use eb_base::NoMemory;
use soc_bus::{Bus, BusRecorder};
use soc_wave::Wave;
use std::alloc::Global;
use std::marker::Model;
use wb_signals::{Op, PortRow, SlaveSet};

/// A bus with the rows of its clocks, of which the first is clock 0.
///
/// It has spare room for more rows, taken by `room`. A tick uses that of one row.
#[derive(Drop)]
pub struct WatchedBus<R: BusRecorder> {
    bus: Bus<R>,
    wave: Wave,
}

impl<R: BusRecorder> Model for WatchedBus<R> {
    ghost use Rattle.std.specs.Prelude.{◌≡◌};
    ghost use Rattle.std.specs.Coded.{codes};
    ghost use Rattle.soc_desc.specs.contracts.description.ItemDescription as item;
    ghost use Rattle.soc_core.specs.Built.{fabric_of};
    ghost use Rattle.soc_sim.specs.Watched.{WatchedState, HasBeenWatched};

    ghost Value = { WatchedState };

    ghost coded = { Prim.hlevel (codes, item.the_row.coded) };

    ghost view = { λ w. record {
      description = w.bus.description;
      core = w.bus.core;
      rows = w.wave.rows;
      spare = w.wave.spare;
    } };

    ghost invariant = { λ w. (w.wave.ports ≡ w.bus.description.masters)
        × (w.wave.slaves ≡ (fabric_of w.bus.description).slaves)
        × HasBeenWatched (record {
          description = w.bus.description;
          core = w.bus.core;
          rows = w.wave.rows;
          spare = w.wave.spare;
        }) };
}

impl<R: BusRecorder> WatchedBus<R> {
    /// Watches a bus that is as it was built. It takes no memory.
    pub fn new(alloc: Global, bus: Bus<R>) -> WatchedBus<R>
        requires built { bus.core ≡ built_core (fabric_of bus.description) }
        ensures watched { result ≡ record {
          description = bus.description;
          core = bus.core;
          rows = [];
          spare = 0;
        } }
    {
        let _ = bus.journal();
        let masters = bus.masters();
        let slaves = slaves_of(&bus) as u8;
        WatchedBus {
            bus,
            wave: Wave::new(alloc, masters, slaves),
        }
    }

    /// The bus, to ask how its ports stand.
    pub fn bus(&self) -> &Bus<R>
        ensures core { result.now.core ≡ self.now.core }
        ensures description { result.now.description ≡ self.now.description }
        ensures kept { IsBus result.now }
    {
        let _ = self.bus.journal();
        &self.bus
    }

    /// The rows of its clocks.
    pub fn wave(&self) -> &Wave
        ensures rows { result.now.rows ≡ self.now.rows }
        ensures watched { IsWatched self.now }
    {
        let _ = self.bus.journal();
        &self.wave
    }

    /// The entries of the cycles that have ended.
    pub fn journal(&self) -> &R
        ensures entries { (R.journal result.now).entries ≡ self.now.core.journal }
    {
        self.bus.journal()
    }

    /// The number of the next clock.
    pub fn clock(&self) -> usize
        ensures clock { result ≡ length self.now.rows }
    {
        self.wave.len()
    }

    /// Makes room for at least so many more rows. Where memory is refused, all is as before.
    pub fn room(&mut self, rows: usize) -> Result<(), NoMemory>
        ensures ok { OnOk result (self.new ≡ record self.old { spare = max self.old.spare rows }) }
        ensures err { OnErr result (self.new ≡ self.old) }
    {
        self.wave.room(rows)
    }

    /// Raises CYC of an idle port for a set of slaves. Where memory is refused, all is as before.
    pub fn raise(&mut self, m: u8, set: SlaveSet) -> Result<(), NoMemory>
        requires can { CanRaise (fabric_of self.old.description) self.old.core m set.0 }
        ensures ok { OnOk result (self.new ≡ record self.old { core = raised self.old.core m set.0 }) }
        ensures err { OnErr result (self.new ≡ self.old) }
    {
        self.bus.raise(m, set)
    }

    /// Gives a port that holds its set operations to send. Where memory is refused, all is as before.
    pub fn load(&mut self, m: u8, ops: &[Op]) -> Result<(), NoMemory>
        requires can { CanLoad (fabric_of self.old.description) self.old.core m ops.now }
        ensures ok { OnOk result (self.new ≡ record self.old { core = loaded self.old.core m ops.now }) }
        ensures err { OnErr result (self.new ≡ self.old) }
    {
        self.bus.load(m, ops)
    }

    /// Adds a port's loaded operations, which have all their answers, to its open cycle.
    pub fn take(&mut self, m: u8)
        requires can { CanTake (fabric_of self.old.description) self.old.core m }
        ensures taken { self.new ≡ record self.old { core = taken self.old.core m } }
    {
        self.bus.take(m);
    }

    /// Releases CYC of a port. A cycle with a pair is an entry of the journal.
    pub fn release(&mut self, m: u8, cut: bool)
        requires can { CanRelease (fabric_of self.old.description) self.old.core m }
        ensures released { self.new ≡ record self.old { core = released self.old.core m cut } }
    {
        self.bus.release(m, cut);
    }

    /// One tick, which adds its row in spare room. It takes no memory.
    pub fn tick(&mut self)
        requires spare { 1 ≤ self.old.spare }
        ensures tick { LeadsOn Tick self.old self.new }
        ensures spare { self.new.spare ≡ self.old.spare - 1 }
        ensures description { self.new.description ≡ self.old.description }
    {
        let ports = usize::from(self.bus.masters());
        let slaves = slaves_of(&self.bus);
        let mut rows = [PortRow::none(); 16];
        let mut holders = [None; 128];
        add_tick(
            &mut self.bus,
            &mut self.wave,
            &mut rows[..ports],
            &mut holders[..slaves],
        );
    }
}

/// How many top slaves a bus has. A set of them has a bit for each, so that they are at most 128.
fn slaves_of<R: BusRecorder>(bus: &Bus<R>) -> usize
    ensures slaves { result ≡ (fabric_of bus.now.description).slaves }
    ensures most { result ≤ 128 }
{
    let _ = bus.all_slaves();
    bus.slaves()
}

/// One tick of a bus, whose row is added to a wave.
fn add_tick<R: BusRecorder>(
    bus: &mut Bus<R>,
    wave: &mut Wave,
    rows: &mut [PortRow],
    holders: &mut [Option<u8>],
)
    requires spare { 1 ≤ wave.old.spare }
    requires ports { wave.old.ports ≡ bus.old.description.masters }
    requires slaves { wave.old.slaves ≡ (fabric_of bus.old.description).slaves }
    requires rows { length rows.old ≡ bus.old.description.masters }
    requires holders { length holders.old ≡ (fabric_of bus.old.description).slaves }
    ensures shows { ShowsTick (fabric_of bus.old.description) bus.old.core bus.new.core
        (record { ports = rows.new; holders = holders.new }) }
    ensures added { wave.new ≡ record wave.old {
      rows = wave.old.rows ++ record { ports = rows.new; holders = holders.new } ∷ [];
      spare = wave.old.spare - 1;
    } }
    ensures description { bus.new.description ≡ bus.old.description }
{
    bus.tick_showing(rows, holders);
    wave.add(rows, holders);
}
