//! Entries in memory.
ghost use Rattle.std.specs.Prelude.{◌≡◌, ◌-◌, [], vec_len, vec_capacity};

use crate::recorder::Recorder;
use eb_base::NoMemory;
use soc_journal::{Entry, Journal, Pair, Pairs};
use std::alloc::Global;
use std::mem;

/// Entries and pairs in memory.
#[derive(Drop)]
pub struct Kept {
    journal: Journal,
    opened: Vec<Pair>,
}

impl Kept {
    /// No entry and no pair.
    pub fn new(alloc: Global) -> Kept
        ensures made { result.journal.entries ≡ [] }
        ensures opened { result.opened.items ≡ [] }
    {
        Kept {
            journal: Journal::new(alloc),
            opened: Vec::new(alloc),
        }
    }

    /// The entries.
    pub fn journal(&self) -> &Journal
        ensures journal { result.now ≡ self.now.journal }
    {
        &self.journal
    }
}

impl Recorder for Kept {
    ghost made = { λ k. k.journal.entries };

    ghost opened = { λ k. k.opened.items };

    ghost room = { λ k. vec_capacity k.opened - vec_len k.opened };

    ghost spare = { λ k. k.journal.spare };

    fn reserve(&mut self, count: usize) -> Result<(), NoMemory> {
        self.journal.reserve(1)?;
        if self.opened.is_empty() {
            self.opened.reserve_exact(count)?;
            return Ok(());
        }
        self.opened.reserve(count)?;
        Ok(())
    }

    fn add(&mut self, pair: Pair) {
        self.opened.push_reserved(pair);
    }

    fn end(&mut self, number: u8, cut: bool) {
        let empty = Vec::new(*self.opened.allocator());
        let pairs = Pairs::of(mem::replace(&mut self.opened, empty));
        self.journal.push(Entry {
            master: number,
            cut,
            pairs,
        });
    }

    fn is_open(&self) -> bool {
        !self.opened.is_empty()
    }
}
