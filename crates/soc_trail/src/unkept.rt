//! Entries that only clauses see.
ghost use Rattle.std.specs.Prelude.{◌≡◌, []};

use crate::recorder::Recorder;
use crate::trail::Trail;
use eb_base::NoMemory;
use soc_journal::Pair;
use std::marker::Model;
use std::mem;

/// A cycle that has ended.
#[derive(Drop)]
struct Cycle {
    master: u8,
    cut: bool,
    pairs: Trail<Pair>,
}

impl Model for Cycle {
    ghost use Rattle.wb_signals.specs.History.{Entry};

    ghost Value = { Entry };

    ghost view = { λ a. record { master = a.master; cut = a.cut; pairs = a.pairs } };
}

/// Entries and pairs that only clauses see. Its size doesn't grow, and it refuses nothing.
#[derive(Drop)]
pub struct Unkept {
    made: Trail<Cycle>,
    opened: Trail<Pair>,
}

impl Unkept {
    /// No entry and no pair.
    pub fn new() -> Unkept
        ensures made { result.made ≡ [] }
        ensures opened { result.opened ≡ [] }
    {
        Unkept {
            made: Trail::new(),
            opened: Trail::new(),
        }
    }
}

impl Recorder for Unkept {
    ghost use Rattle.std.specs.Prelude.{◌^◌};

    ghost made = { λ u. u.made };

    ghost opened = { λ u. u.opened };

    ghost room = { λ _. 2 ^ 64 };

    ghost spare = { λ _. 1 };

    fn reserve(&mut self, _count: usize) -> Result<(), NoMemory> {
        Ok(())
    }

    fn add(&mut self, pair: Pair) {
        self.opened.push(pair);
    }

    fn end(&mut self, number: u8, cut: bool) {
        let pairs = mem::replace(&mut self.opened, Trail::new());
        self.made.push(Cycle {
            master: number,
            cut,
            pairs,
        });
    }

    fn is_open(&self) -> bool {
        self.opened.is_some()
    }
}
