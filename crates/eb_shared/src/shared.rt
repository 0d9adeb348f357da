//! One of several masters that share a bus.
ghost use Rattle.std.specs.Prelude.{◌≡◌, ◌<◌, [], IsSome, IfSome};
ghost use Rattle.std.specs.Option.{ForSome};
ghost use Rattle.eb_shared.specs.Shared.{no_stake, stake_by, cycles_told, IsBetween};

use crate::records::{Standing, cut_on, record_on};
use crate::steps::{Part, SharedBus};
use eb_base::NoMemory;
use soc_turn::{Pass, Turn};
use std::alloc::Global;
use std::sync::Wait;
use wb_signals::{Answer, Master, Op, SlaveSet};

/// A master on a bus that others share. Its calls wait: each takes turns, and in each turn the whole bus is taken, at
/// most one load and eight ticks are made, and the bus is put back, also where the master's port holds its set.
///
/// A contract sees the entries and the open cycle of its master as its pass tells them: the entries are the master's
/// own part of the journal, and the open pairs those of its stake.
#[derive(Drop)]
pub struct SharedMaster<'a, R: Wait> {
    rt: &'a R,
    turn: &'a Turn<SharedBus>,
    pass: Option<Pass<SharedBus>>,
    standing: Standing,
    answers: Vec<Answer>,
    ghost ready: { IsSome pass },
    ghost of: { ForSome pass (λ p. p.turn ≡ turn.now) },
    ghost between: { ForSome pass (λ p. IsBetween standing.is_open standing.set.0 p) },
}

impl<'a, R: Wait> SharedMaster<'a, R> {
    /// The master of a pass of this turn that has no cycle. It takes no memory.
    pub fn new(
        rt: &'a R,
        alloc: Global,
        turn: &'a Turn<SharedBus>,
        pass: Pass<SharedBus>,
    ) -> SharedMaster<'a, R>
        requires of { pass.turn ≡ turn.now }
        requires within { pass.number < pass.last.description.masters }
        requires none { stake_by pass ≡ no_stake }
        ensures turn { result.turn.now ≡ turn.now }
        ensures pass { IfSome result.pass (λ p. p ≡ pass) }
    {
        SharedMaster {
            rt,
            turn,
            pass: Some(pass),
            standing: Standing {
                set: SlaveSet(0),
                is_open: false,
            },
            answers: Vec::new(alloc),
        }
    }

    /// Its pass, where no cycle is open. It is of the same turn, has the same number, and has no cycle.
    pub fn into_pass(self) -> Pass<SharedBus>
        requires none_open { (cycles_told self.pass).opened ≡ [] }
        ensures pass { IfSome self.entry.pass (λ p. result ≡ p) }
        ensures of { result.turn ≡ self.entry.turn.now }
        ensures within { result.number < result.last.description.masters }
        ensures none { stake_by result ≡ no_stake }
    {
        let SharedMaster {
            rt: _,
            turn: _,
            pass,
            standing: _,
            answers: _,
        } = self;
        pass.unwrap()
    }
}

impl<'a, R: Wait> Master for SharedMaster<'a, R> {
    ghost use Rattle.eb_base.specs.declared.width.Width.TheVariants.{W32};
    ghost use Rattle.eb_shared.specs.Shared.{Sharing, number_told, cycles_told, description_told};

    ghost cycles = { λ s. cycles_told s.pass };

    ghost Kept = { Sharing };

    ghost identity = { λ s. record {
      bus = W32;
      number = number_told s.pass;
      kept = record { turn = s.turn.now; description = description_told s.pass };
    } };

    ghost answered = { λ s. s.answers.items };

    fn record(&mut self, _alloc: Global, ops: &[Op], last: bool) -> Result<(), NoMemory> {
        self.answers.clear();
        self.answers.reserve(ops.len())?;
        let pass = self.pass.take().unwrap();
        let (pass, set, done) = record_on(
            self.rt,
            self.turn,
            pass,
            self.standing,
            Part { ops, last },
            &mut self.answers,
        );
        self.pass = Some(pass);
        self.standing.set = set;
        if done {
            self.standing.is_open = !last;
            Ok(())
        } else {
            Err(NoMemory)
        }
    }

    fn answers(&self) -> usize {
        self.answers.len()
    }

    fn answer(&self, i: usize) -> Answer {
        self.answers[i]
    }

    fn cut(&mut self) {
        let pass = self.pass.take().unwrap();
        self.pass = Some(cut_on(self.rt, self.turn, pass, self.standing.set));
        self.standing.is_open = false;
    }

    fn is_open(&self) -> bool {
        self.standing.is_open
    }
}
