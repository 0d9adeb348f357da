// The journal: the entries, and places for more.
ghost use Rattle.std.specs.Prelude.{◌≡◌, ◌-◌, ◌<◌, ◌≤◌, ◌++◌, ◌∷◌, [], length, max, OnOk, OnErr, Some, slice_get};
ghost use Rattle.soc_journal.specs.Journal.{JournalState};

use crate::entry::Entry;
use eb_base::NoMemory;
use std::alloc::{AllocFailed, Global};
use std::marker::Model;

/// The cycles that have ended, in order.
///
/// It has spare places, taken by `reserve`. A `push` uses one of them and takes no memory.
#[derive(Debug, Drop)]
pub struct Journal {
    entries: Vec<Entry>,
    spare: usize,
}

impl Model for Journal {
    ghost use Rattle.std.specs.Prelude.{◌≤◌, ◌+◌, vec_len, vec_capacity};
    ghost use Rattle.soc_journal.specs.Journal.{JournalState};

    ghost Value = { JournalState };

    ghost view = { λ a. record { entries = a.entries.items; spare = a.spare } };

    ghost invariant = { λ a. vec_len a.entries + a.spare ≤ vec_capacity a.entries };
}

impl Journal {
    /// A journal without entries and without spare places. It takes no memory.
    pub fn new(alloc: Global) -> Journal
        ensures empty { result ≡ record { entries = []; spare = 0 } }
    {
        Journal {
            entries: Vec::new(alloc),
            spare: 0,
        }
    }

    /// Makes at least so many places spare. Where memory is refused, all is as before.
    pub fn reserve(&mut self, entries: usize) -> Result<(), NoMemory>
        ensures ok { OnOk result (self.new ≡ record self.old { spare = max self.old.spare entries }) }
        ensures err { OnErr result (self.new ≡ self.old) }
    {
        if entries > self.spare {
            self.entries.reserve(entries)?;
            self.spare = entries;
        }
        Ok(())
    }

    /// Adds an entry at the end, in a spare place.
    pub fn push(&mut self, entry: Entry)
        requires spare { 1 ≤ self.old.spare }
        ensures pushed { self.new ≡ record { entries = self.old.entries ++ entry ∷ []; spare = self.old.spare - 1 } }
    {
        match self.entries.push(entry) {
            Ok(()) => self.spare -= 1,
            Err(_) => unreachable!(),
        }
    }

    /// How many entries there are.
    pub fn len(&self) -> usize
        ensures len { result ≡ length self.now.entries }
    {
        self.entries.len()
    }

    /// The entry at the index `i`.
    pub fn entry(&self, i: usize) -> &Entry
        requires in_range { i < length self.now.entries }
        ensures item { slice_get self.now.entries i ≡ Some result.now }
    {
        &self.entries[i]
    }

    /// How many places are spare.
    pub fn spare(&self) -> usize
        ensures spare { result ≡ self.now.spare }
    {
        self.spare
    }

    /// All entries.
    pub fn entries(&self) -> &[Entry]
        ensures entries { result.now ≡ self.now.entries }
    {
        self.entries.as_slice()
    }
}
