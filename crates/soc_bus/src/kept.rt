//! Entries and pairs in memory.
use crate::recorder::{BusRecorder, PairRecorder};
use eb_base::NoMemory;
use soc_journal::{Entry, Journal, Pair, Pairs};
use std::alloc::Global;
use std::mem;

impl PairRecorder for Vec<Pair> {
    ghost use Rattle.std.specs.Prelude.{◌-◌, vec_len, vec_capacity};

    ghost pairs = { λ v. v.items };

    ghost room = { λ v. vec_capacity v - vec_len v };

    fn new(alloc: Global) -> Vec<Pair> {
        Vec::new(alloc)
    }

    fn reserve(&mut self, count: usize) -> Result<(), NoMemory> {
        if self.is_empty() {
            self.reserve_exact(count)?;
            return Ok(());
        }
        Vec::reserve(self, count)?;
        Ok(())
    }

    fn add(&mut self, pair: Pair) {
        self.push_reserved(pair);
    }

    fn take(&mut self) -> Vec<Pair> {
        let empty = Vec::new(*self.allocator());
        mem::replace(self, empty)
    }

    fn is_some(&self) -> bool {
        !self.is_empty()
    }
}

impl BusRecorder for Journal {
    type Pairs = Vec<Pair>;

    ghost journal = { λ j. j };

    fn reserve(&mut self, count: usize) -> Result<(), NoMemory> {
        Journal::reserve(self, count)
    }

    fn push(&mut self, master: u8, cut: bool, pairs: Vec<Pair>) {
        let pairs = Pairs::of(pairs);
        Journal::push(self, Entry { master, cut, pairs });
    }
}
