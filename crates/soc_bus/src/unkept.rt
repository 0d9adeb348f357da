//! Entries and pairs that only clauses see.
ghost use Rattle.std.specs.Prelude.{◌≡◌, []};

use crate::recorder::{BusRecorder, PairRecorder};
use eb_base::NoMemory;
use soc_journal::Pair;
use soc_trail::Trail;
use std::alloc::Global;
use std::marker::Model;
use std::mem;

impl PairRecorder for Trail<Pair> {
    ghost use Rattle.std.specs.Prelude.{◌^◌};

    ghost pairs = { λ t. t };

    ghost room = { λ _. 2 ^ 64 };

    fn new(_alloc: Global) -> Trail<Pair> {
        Trail::new()
    }

    fn reserve(&mut self, _count: usize) -> Result<(), NoMemory> {
        Ok(())
    }

    fn add(&mut self, pair: Pair) {
        self.push(pair);
    }

    fn take(&mut self) -> Trail<Pair> {
        mem::replace(self, Trail::new())
    }

    fn is_some(&self) -> bool {
        Trail::is_some(self)
    }
}

/// A cycle that has ended, of which memory holds at most the last pair.
#[derive(Drop)]
struct Ended {
    master: u8,
    cut: bool,
    pairs: Trail<Pair>,
}

impl Model for Ended {
    ghost use Rattle.wb_signals.specs.History.{Entry};

    ghost Value = { Entry };

    ghost view = { λ a. record { master = a.master; cut = a.cut; pairs = a.pairs } };
}

/// Entries that only clauses see. Its size doesn't grow, and it refuses nothing.
#[derive(Drop)]
pub struct Unkept {
    entries: Trail<Ended>,
}

impl Unkept {
    /// No entries.
    pub fn new() -> Unkept
        ensures none { result.entries ≡ [] }
    {
        Unkept {
            entries: Trail::new(),
        }
    }
}

impl BusRecorder for Unkept {
    type Pairs = Trail<Pair>;

    ghost use Rattle.std.specs.Prelude.{◌^◌};

    ghost journal = { λ u. record { entries = u.entries; spare = 2 ^ 64 } };

    fn reserve(&mut self, _count: usize) -> Result<(), NoMemory> {
        Ok(())
    }

    fn push(&mut self, master: u8, cut: bool, pairs: Trail<Pair>) {
        self.entries.push(Ended { master, cut, pairs });
    }
}
