//! The cycle of a port.
ghost use Rattle.std.specs.Prelude.{◌≡◌, ◌≢◌, ◌↔◌, IsTrue, ◌≤◌, ◌+◌, ◌-◌, ◌++◌, [], ℕ, false, bit_and, length, OnOk, OnErr, Some, vec_len, vec_capacity};
ghost use Rattle.wb_signals.specs.Cycles.{paired};
ghost use Rattle.soc_core.specs.Core.{Wants, Leaves, resting_port, unloaded, is_idle, is_granted, with_phase, phase_after, wants_of, held_by};
ghost use Rattle.soc_core.specs.Sound.{is_busy_phase};
ghost use Rattle.wb_crossbar.specs.Looks.{set_in};
ghost use Rattle.soc_bus.specs.View.{phase_of};

use crate::phase::Phase;
use crate::recorder::PairRecorder;
use eb_base::NoMemory;
use soc_journal::Pair;
use std::alloc::Global;
use std::marker::Model;
use wb_port::Port;
use wb_signals::SlaveSet;

/// The cycle of a port: its phase, and the pairs so far.
#[derive(Drop)]
pub struct Cycle<P: PairRecorder> {
    phase: Phase,
    opened: P,
}

impl<P: PairRecorder> Model for Cycle<P> {
    ghost use Rattle.std.specs.Prelude.{◌-◌, vec_len, vec_capacity};
    ghost use Rattle.soc_core.specs.Core.{unloaded};
    ghost use Rattle.soc_bus.specs.View.{CycleView, phase_of};

    ghost Value = { CycleView };

    ghost view = { λ c. record {
      state = unloaded (phase_of c.phase) (P.pairs c.opened);
      room = P.room c.opened;
    } };

    ghost invariant = { λ _. Unit {0} };
}

impl<P: PairRecorder> Cycle<P> {
    /// A port that asks for nothing. It takes no memory.
    pub fn new(alloc: Global) -> Cycle<P>
        ensures idle { result.state ≡ resting_port }
    {
        Cycle {
            phase: Phase::Idle,
            opened: P::new(alloc),
        }
    }

    /// Whether it asks for nothing.
    pub fn is_idle(&self) -> bool
        ensures idle { result ≡ is_idle self.now.state.phase }
    {
        matches!(self.phase, Phase::Idle)
    }

    /// Whether it holds its set.
    pub fn is_granted(&self) -> bool
        ensures granted { result ≡ is_granted self.now.state.phase }
    {
        matches!(self.phase, Phase::Holds(_))
    }

    /// Whether its CYC stands.
    pub fn is_busy(&self) -> bool
        ensures busy { result ≡ is_busy_phase self.now.state.phase }
    {
        matches!(self.phase, Phase::Wants(_) | Phase::Holds(_))
    }

    /// Its phase.
    pub fn phase(&self) -> Phase
        ensures phase { phase_of result ≡ self.now.state.phase }
    {
        self.phase
    }

    /// Whether it waits for a set that meets none of these slaves.
    pub fn is_free(&self, held: u128) -> bool
        ensures free { result ≡ false → (set : ℕ) → wants_of self.now.state.phase ≡ Some set → bit_and held set ≢ 0 }
    {
        match self.phase {
            Phase::Wants(set) => held & set.0 == 0,
            _ => false,
        }
    }

    /// The set that it waits for.
    pub fn wants(&self) -> Option<SlaveSet>
        ensures wants { set_in (Some result) ≡ wants_of self.now.state.phase }
    {
        match self.phase {
            Phase::Wants(set) => Some(set),
            _ => None,
        }
    }

    /// The slaves that it holds.
    pub fn held(&self) -> u128
        ensures held { result ≡ held_by self.now.state.phase }
    {
        match self.phase {
            Phase::Holds(set) => set.0,
            _ => 0,
        }
    }

    /// Whether it has pairs.
    pub fn is_open(&self) -> bool
        ensures some { IsTrue result ↔ (self.now.state.opened ≢ []) }
    {
        self.opened.is_some()
    }

    /// Raises CYC for a set of slaves.
    pub fn raise(&mut self, set: SlaveSet)
        ensures state { self.new.state ≡ with_phase (Wants set.0) self.old.state }
        ensures room { self.new.room ≡ self.old.room }
    {
        self.phase = Phase::Wants(set);
    }

    /// Steps to the next phase in a tick.
    pub fn step(&mut self, granted: bool)
        ensures state { self.new.state ≡ with_phase (phase_after granted self.old.state.phase) self.old.state }
        ensures room { self.new.room ≡ self.old.room }
    {
        match self.phase {
            Phase::Wants(set) => {
                if granted {
                    self.phase = Phase::Holds(set);
                }
            }
            Phase::Leaves => self.phase = Phase::Idle,
            Phase::Idle | Phase::Holds(_) => {}
        }
    }

    /// Makes room for so many more pairs.
    pub fn reserve(&mut self, pairs: usize) -> Result<(), NoMemory>
        ensures state { self.new.state ≡ self.old.state }
        ensures room { OnOk result (pairs ≤ self.new.room) }
        ensures err_room { OnErr result (self.old.room ≤ self.new.room) }
    {
        self.opened.reserve(pairs)
    }

    /// Adds the operations that a port has loaded, with their answers.
    pub fn take(&mut self, port: &Port)
        requires answered { length port.now.answers ≡ length port.now.loaded }
        requires room { length port.now.loaded ≤ self.old.room }
        ensures state { self.new.state
            ≡ unloaded self.old.state.phase (self.old.state.opened ++ paired port.now.loaded port.now.answers) }
    {
        pair_up(port, &mut self.opened);
    }

    /// Releases CYC, and hands out the pairs.
    pub fn release(&mut self) -> P
        ensures state { self.new.state ≡ unloaded Leaves [] }
        ensures pairs { P.pairs result ≡ self.old.state.opened }
    {
        self.phase = Phase::Leaves;
        self.opened.take()
    }
}

/// Adds the loaded operations of a port, with their answers, to pairs.
fn pair_up<P: PairRecorder>(port: &Port, pairs: &mut P)
    requires same { length port.now.answers ≡ length port.now.loaded }
    requires room { length port.now.loaded ≤ P.room pairs.old }
    ensures pairs { P.pairs pairs.new ≡ P.pairs pairs.old ++ paired port.now.loaded port.now.answers }
{
    for i in 0..port.loaded() {
        pairs.add(Pair {
            op: port.op(i),
            answer: port.answer(i),
        });
    }
}
