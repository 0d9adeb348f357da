//! What becomes of the cycles of a bus.
ghost use Rattle.std.specs.Prelude.{◌≡◌, ◌≢◌, ◌≤◌, ◌+◌, ◌↔◌, ◌++◌, ◌∷◌, ℕ, List, [], IsTrue, OnOk, OnErr};
ghost use Rattle.wb_signals.specs.History.{Pair};
ghost use Rattle.soc_journal.specs.Journal.{JournalState};

use eb_base::NoMemory;
use soc_journal::Pair;
use std::alloc::Global;

/// The pairs of a port's open cycle, in memory or for clauses alone.
pub trait PairRecorder: Drop {
    ghost pairs: { Self → List Pair };

    // For how many more pairs there is room.
    ghost room: { Self → ℕ };

    /// No pairs. It takes no memory.
    fn new(alloc: Global) -> Self
        ensures none { pairs result ≡ [] };

    /// Makes room for so many more pairs.
    fn reserve(&mut self, count: usize) -> Result<(), NoMemory>
        ensures pairs { pairs self.new ≡ pairs self.old }
        ensures room { OnOk result (count ≤ room self.new) }
        ensures kept { OnErr result (room self.old ≤ room self.new) };

    /// Adds a pair.
    fn add(&mut self, pair: Pair)
        requires room { 1 ≤ room self.old }
        ensures pairs { pairs self.new ≡ pairs self.old ++ pair ∷ [] }
        ensures room { room self.old ≤ room self.new + 1 };

    /// Hands the pairs out, and leaves none.
    fn take(&mut self) -> Self
        ensures taken { pairs result ≡ pairs self.old }
        ensures none { pairs self.new ≡ [] };

    /// Whether there are pairs.
    fn is_some(&self) -> bool
        ensures some { IsTrue result ↔ (pairs self.now ≢ []) };
}

/// The entries of the cycles that have ended, in memory or for clauses alone.
pub trait BusRecorder: Drop {
    /// The pairs of an open cycle.
    type Pairs: PairRecorder;

    // The entries, and for how many more there is room.
    ghost journal: { Self → JournalState };

    /// Makes room for so many more entries. Where memory is refused, all is as before.
    fn reserve(&mut self, count: usize) -> Result<(), NoMemory>
        ensures entries { OnOk result ((journal self.new).entries ≡ (journal self.old).entries) }
        ensures room { OnOk result (count ≤ (journal self.new).spare) }
        ensures err { OnErr result (journal self.new ≡ journal self.old) };

    /// Adds the entry of a cycle that has ended.
    fn push(&mut self, master: u8, cut: bool, pairs: Self::Pairs)
        requires spare { 1 ≤ (journal self.old).spare }
        ensures entries { (journal self.new).entries
            ≡ (journal self.old).entries
            ++ record { master = master; cut = cut; pairs = Self.Pairs.pairs pairs } ∷ [] }
        ensures spare { (journal self.old).spare ≤ (journal self.new).spare + 1 };
}
