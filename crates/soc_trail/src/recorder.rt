//! What becomes of a master's cycles.
ghost use Rattle.std.specs.Prelude.{◌≡◌, ◌≢◌, ◌≤◌, ◌+◌, ◌↔◌, ◌++◌, ◌∷◌, ℕ, List, [], IsTrue, OnOk};
ghost use Rattle.wb_signals.specs.History.{Entry, Pair};
ghost use Rattle.wb_signals.specs.Cycles.{ended};

use eb_base::NoMemory;
use soc_journal::Pair;

/// What becomes of a master's cycles: its entries and the pairs of its open cycle, in memory or for clauses alone.
pub trait Recorder: Drop {
    ghost made: { Self → List Entry };

    ghost opened: { Self → List Pair };

    // For how many more pairs, and for how many more entries, there is room.
    ghost room: { Self → ℕ };

    ghost spare: { Self → ℕ };

    /// Makes room for so many more pairs, and for the entry in which they end.
    fn reserve(&mut self, count: usize) -> Result<(), NoMemory>
        ensures made { made self.new ≡ made self.old }
        ensures opened { opened self.new ≡ opened self.old }
        ensures kept { spare self.old ≤ spare self.new }
        ensures room { OnOk result (count ≤ room self.new) }
        ensures spare { OnOk result (1 ≤ spare self.new) };

    /// Adds a pair to the open cycle.
    fn add(&mut self, pair: Pair)
        requires room { 1 ≤ room self.old }
        ensures opened { opened self.new ≡ opened self.old ++ pair ∷ [] }
        ensures made { made self.new ≡ made self.old }
        ensures room { room self.old ≤ room self.new + 1 }
        ensures spare { spare self.new ≡ spare self.old };

    /// Ends the open cycle as an entry.
    fn end(&mut self, number: u8, cut: bool)
        requires spare { 1 ≤ spare self.old }
        ensures made { made self.new ≡ ended number cut (made self.old) (opened self.old) }
        ensures opened { opened self.new ≡ [] };

    /// Whether the open cycle has pairs.
    fn is_open(&self) -> bool
        ensures is_open { IsTrue result ↔ (opened self.now ≢ []) };
}
