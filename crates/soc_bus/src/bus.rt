//! The bus.
ghost use Rattle.std.specs.Prelude.{IsTrue, ◌≡◌, ◌≢◌, ◌↔◌, ◌≤◌, ◌<◌, ◌+◌, length, take, replicate, [], false, IfOk, OnOk, OnErr, Some, slice_get};
ghost use Rattle.soc_desc.specs.Accepted.{IsAccepted};
ghost use Rattle.wb_port.specs.Port.{idle_port as idle_engine};
ghost use Rattle.soc_core.specs.Built.{fabric_of, set_of_cycle};
ghost use Rattle.wb_signals.specs.Cycles.{made_with};
ghost use Rattle.soc_core.specs.Core.{port, resting_port, resting_ports, built_core, is_idle, is_granted, pending, raised, loaded, taken, released, CanRaise, CanLoad, CanTake, CanRelease, IsTick};
ghost use Rattle.soc_core.specs.Sound.{is_busy_phase};
ghost use Rattle.soc_wave.specs.Shown.{ShowsTick, holders_from};
ghost use Rattle.soc_bus.specs.Local.{AllIdle};
ghost use Rattle.soc_bus.specs.Ledger.{AddsOwn, KeepsLedger};
ghost use Rattle.soc_bus.specs.View.{IsBus, states};

use crate::clock::{clock, hold_all, unseen_clock};
use crate::cycle::Cycle;
use crate::grant::grant_all;
use crate::recorder::{BusRecorder, PairRecorder};
use crate::sets::{all_of, asked};
use crate::tree::top_slots;
use eb_base::{NoMemory, Width};
use soc_desc::Description;
use std::alloc::Global;
use std::marker::Model;
use std::snapshot::Snapshot;
use wb_crossbar::{Arbiter, Crossbar};
use wb_port::Port;
use wb_signals::{Answer, Op, PortRow, SlaveSet};
use wb_tree::Node;

/// A bus with many ports, clock by clock.
#[derive(Drop)]
pub struct Bus<R: BusRecorder> {
    crossbar: Crossbar<Node>,
    cycles: Vec<Cycle<R::Pairs>>,
    ports: Vec<Port>,
    arbiter: Arbiter,
    journal: R,
    description: Snapshot<Description>,
}

impl<R: BusRecorder> Model for Bus<R> {
    ghost use Rattle.std.specs.Coded.{codes};
    ghost use Rattle.soc_desc.specs.contracts.description.ItemDescription as item;
    ghost use Rattle.wb_tree.specs.Tree.{node_slave, IsSound};
    ghost use Rattle.wb_crossbar.specs.Inside.{crossbar_of, IsCrossbar};
    ghost use Rattle.soc_bus.specs.View.{BusState, IsBus, IsMadeOf, bus_state};

    ghost Value = { BusState };

    ghost coded = { Prim.hlevel (codes, item.the_row.coded) };

    ghost view = { λ b.
        bus_state b.description.value (crossbar_of node_slave b.crossbar) b.cycles.items b.ports.items b.arbiter
        (R.journal b.journal) };

    ghost invariant = { λ b.
        IsBus (bus_state b.description.value (crossbar_of node_slave b.crossbar) b.cycles.items b.ports.items b.arbiter
        (R.journal b.journal))
        × IsMadeOf b.description.value (crossbar_of node_slave b.crossbar) b.cycles.items b.ports.items b.arbiter
        × IsCrossbar node_slave IsSound b.crossbar };
}

impl<R: BusRecorder> Bus<R> {
    /// The bus of a description: its devices as they are built, all ports idle, and no entries.
    pub fn build(alloc: Global, recorder: R, description: &Description) -> Result<Bus<R>, NoMemory>
        requires none { (R.journal recorder).entries ≡ [] }
        requires accepted { IsAccepted description.now }
        ensures description { IfOk result (λ b. b.description ≡ description.now) }
        ensures core { IfOk result (λ b. b.core ≡ built_core (fabric_of description.now)) }
        ensures idle { IfOk result (λ b. AllIdle b.core) }
        ensures first { IfOk result (λ b. 1 ≤ b.description.masters) }
    {
        let masters = description.masters;
        let slots = top_slots(alloc, &description.bus)?;
        let crossbar = Crossbar::new(alloc, slots, masters, Width::W32)?;
        let cycles = idle_cycles(alloc, masters)?;
        let ports = idle_ports(alloc, masters, description.depth)?;
        Ok(Bus {
            crossbar,
            cycles,
            ports,
            arbiter: Arbiter::new(masters),
            journal: recorder,
            description: Snapshot::of(description),
        })
    }

    /// The slaves that a cycle holds whose opening record has these operations: those that it asks for where it also
    /// ends the cycle, else all top slaves.
    pub fn set_of(&self, ops: &[Op], last: bool) -> SlaveSet
        ensures set { result.0 ≡ set_of_cycle (fabric_of self.now.description) ops.now last }
    {
        let slaves = self.crossbar.slaves();
        if last {
            SlaveSet(asked(&self.crossbar, ops))
        } else {
            SlaveSet(all_of(slaves))
        }
    }

    /// All top slaves.
    pub fn all_slaves(&self) -> SlaveSet
        ensures all { result.0 ≡ set_of_cycle (fabric_of self.now.description) [] false }
    {
        SlaveSet(all_of(self.crossbar.slaves()))
    }

    /// Whether a port asks for nothing.
    pub fn idle(&self, m: u8) -> bool
        requires within { m < self.now.description.masters }
        ensures idle { result ≡ is_idle (port self.now.core m).phase }
    {
        self.cycles[m as usize].is_idle()
    }

    /// Whether a port holds its set.
    pub fn granted(&self, m: u8) -> bool
        requires within { m < self.now.description.masters }
        ensures granted { result ≡ is_granted (port self.now.core m).phase }
    {
        self.cycles[m as usize].is_granted()
    }

    /// How many ports it has.
    pub fn masters(&self) -> u8
        ensures masters { result ≡ self.now.description.masters }
        ensures few { result ≤ 16 }
    {
        self.ports.len() as u8
    }

    /// Whether a port's CYC stands.
    pub fn busy(&self, m: u8) -> bool
        requires within { m < self.now.description.masters }
        ensures busy { result ≡ is_busy_phase (port self.now.core m).phase }
    {
        self.cycles[m as usize].is_busy()
    }

    /// How many operations a port has loaded.
    pub fn loaded(&self, m: u8) -> usize
        requires within { m < self.now.description.masters }
        ensures loaded { result ≡ length (port self.now.core m).loaded }
    {
        self.ports[m as usize].loaded()
    }

    /// How many of a port's loaded operations have no answer.
    pub fn pending(&self, m: u8) -> usize
        requires within { m < self.now.description.masters }
        ensures pending { result ≡ pending (port self.now.core m) }
    {
        self.ports[m as usize].pending()
    }

    /// The answer to a loaded operation of a port that has all its answers.
    pub fn answer(&self, m: u8, i: usize) -> Answer
        requires within { m < self.now.description.masters }
        requires none_pending { pending (port self.now.core m) ≡ 0 }
        requires below { i < length (port self.now.core m).loaded }
        ensures answer { slice_get (port self.now.core m).got i ≡ Some result }
    {
        self.ports[m as usize].answer(i)
    }

    /// Whether a port's open cycle has pairs.
    pub fn is_open(&self, m: u8) -> bool
        requires within { m < self.now.description.masters }
        ensures is_open { IsTrue result ↔ ((port self.now.core m).opened ≢ []) }
    {
        self.cycles[m as usize].is_open()
    }

    /// The entries of the cycles that have ended.
    pub fn journal(&self) -> &R
        ensures entries { (R.journal result.now).entries ≡ self.now.core.journal }
        ensures kept { IsBus self.now }
    {
        &self.journal
    }

    /// Raises CYC of an idle port for a set of slaves. Where memory is refused, all is as before.
    pub fn raise(&mut self, m: u8, set: SlaveSet) -> Result<(), NoMemory>
        requires can { CanRaise (fabric_of self.old.description) self.old.core m set.0 }
        ensures adds { AddsOwn m self.old self.new }
        ensures ok { OnOk result (self.new.core ≡ raised self.old.core m set.0) }
        ensures err { OnErr result (self.new.core ≡ self.old.core) }
        ensures description { self.new.description ≡ self.old.description }
    {
        self.journal.reserve(self.cycles.len())?;
        self.cycles[m as usize].raise(set);
        Ok(())
    }

    /// Gives a port that holds its set operations to send. Where memory is refused, all is as before.
    pub fn load(&mut self, m: u8, ops: &[Op]) -> Result<(), NoMemory>
        requires can { CanLoad (fabric_of self.old.description) self.old.core m ops.now }
        ensures adds { AddsOwn m self.old self.new }
        ensures ok { OnOk result (self.new.core ≡ loaded self.old.core m ops.now) }
        ensures err { OnErr result (self.new.core ≡ self.old.core) }
        ensures description { self.new.description ≡ self.old.description }
    {
        self.cycles[m as usize].reserve(ops.len())?;
        self.ports[m as usize].load(ops);
        Ok(())
    }

    /// Adds a port's loaded operations, which have all their answers, to its open cycle.
    pub fn take(&mut self, m: u8)
        requires can { CanTake (fabric_of self.old.description) self.old.core m }
        ensures adds { AddsOwn m self.old self.new }
        ensures taken { self.new.core ≡ taken self.old.core m }
        ensures description { self.new.description ≡ self.old.description }
    {
        self.cycles[m as usize].take(&self.ports[m as usize]);
        self.ports[m as usize].clear();
    }

    /// Releases CYC of a port. A cycle with a pair is an entry of the journal.
    pub fn release(&mut self, m: u8, cut: bool)
        requires can { CanRelease (fabric_of self.old.description) self.old.core m }
        ensures adds { AddsOwn m self.old self.new }
        ensures released { self.new.core ≡ released self.old.core m cut }
        ensures description { self.new.description ≡ self.old.description }
    {
        let pairs = self.cycles[m as usize].release();
        enter(&mut self.journal, m, cut, pairs);
    }

    /// How many top slaves it has.
    pub fn slaves(&self) -> usize
        ensures slaves { result ≡ (fabric_of self.now.description).slaves }
    {
        self.crossbar.slaves()
    }

    /// One tick. The ports that wait are granted by the arbiter's rule. Then each port that holds its set drives its
    /// next operation, the crossbar passes what isn't stalled, and each port gets the answer that is due.
    pub fn tick(&mut self)
        ensures keeps { KeepsLedger self.old self.new }
        ensures tick { IsTick (fabric_of self.old.description) self.old.core self.new.core }
        ensures description { self.new.description ≡ self.old.description }
    {
        let _grant = grant_all(&mut self.arbiter, &mut self.cycles);
        unseen_clock(&mut self.crossbar, &self.cycles, &mut self.ports);
    }

    /// One tick, which shows the signals of the ports in its clock, and who holds each top slave.
    pub fn tick_showing(&mut self, rows: &mut [PortRow], holders: &mut [Option<u8>])
        requires rows { length rows.old ≡ self.old.description.masters }
        requires holders { length holders.old ≡ (fabric_of self.old.description).slaves }
        ensures keeps { KeepsLedger self.old self.new }
        ensures shows { ShowsTick (fabric_of self.old.description) self.old.core self.new.core
            (record { ports = rows.new; holders = holders.new }) }
        ensures description { self.new.description ≡ self.old.description }
        ensures rows { length rows.new ≡ length rows.old }
        ensures holders { length holders.new ≡ length holders.old }
    {
        self.tick_over(rows);
        hold_all(&self.cycles, holders);
    }

    /// One tick, which leaves in `rows` the signals of the ports in its clock.
    fn tick_over(&mut self, rows: &mut [PortRow])
        requires rows { length rows.old ≡ self.old.description.masters }
        ensures keeps { KeepsLedger self.old self.new }
        ensures shows { ShowsTick (fabric_of self.old.description) self.old.core self.new.core
            (record {
              ports = rows.new;
              holders = holders_from self.new.core.ports 0 (fabric_of self.old.description).slaves;
            }) }
        ensures description { self.new.description ≡ self.old.description }
    {
        let _grant = grant_all(&mut self.arbiter, &mut self.cycles);
        clock(&mut self.crossbar, &self.cycles, &mut self.ports, rows);
    }
}

/// So many ports that ask for nothing.
fn idle_cycles<P: PairRecorder>(alloc: Global, count: u8) -> Result<Vec<Cycle<P>>, NoMemory>
    ensures states { IfOk result (λ cycles. states cycles.items ≡ resting_ports count) }
{
    let mut cycles = Vec::new(alloc);
    for _ in 0..count {
        cycles.push(Cycle::new(alloc))?;
    }
    Ok(cycles)
}

/// So many engines of this depth with nothing loaded.
fn idle_ports(alloc: Global, count: u8, depth: u8) -> Result<Vec<Port>, NoMemory>
    requires some { 1 ≤ depth }
    requires deep { depth ≤ 16 }
    ensures ports { IfOk result (λ ports. ports.items ≡ replicate count (idle_engine depth)) }
{
    let mut ports = Vec::new(alloc);
    for _ in 0..count {
        ports.push(Port::new(alloc, depth)?)?;
    }
    Ok(ports)
}

/// Makes an entry of a cycle that has a pair, for which there is a place.
fn enter<R: BusRecorder>(journal: &mut R, master: u8, cut: bool, pairs: R::Pairs)
    requires spare { 1 ≤ (R.journal journal.old).spare }
    ensures entries { (R.journal journal.new).entries
        ≡ made_with master cut (R.journal journal.old).entries (R.Pairs.pairs pairs) }
    ensures spare { (R.journal journal.old).spare ≤ (R.journal journal.new).spare + 1 }
{
    if pairs.is_some() {
        journal.push(master, cut, pairs);
    }
}
