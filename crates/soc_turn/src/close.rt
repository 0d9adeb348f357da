//! The end of a turn.

ghost use Rattle.std.specs.Prelude.{◌≡◌, ℕ, ◌≤◌, length, All};
ghost use Rattle.soc_journal.specs.Ledger.{Follows};

use crate::ledger::Ledgered;
use crate::plays::Gather;
use crate::turn::{Pass, Root, Turn};
use std::alloc::Global;

impl<T: Ledgered> Turn<T> {
    /// The value, once the root and all passes are back. Waits for nothing: then nobody holds the value.
    ///
    /// Its history extends what each pass has seen by entries of others, each pass's stake is as it left it (`passes`),
    /// and of a number for which no pass was made there is no entry that the first value had not (`rest`). The charter
    /// is that of the first value (`charter`).
    pub fn close(self, root: Root<T>, mut passes: Vec<Pass<T>, Global>) -> T
        requires root { root.turn ≡ self }
        requires of { All (λ p. p.turn ≡ self) passes.items }
        requires all { length passes.items ≡ root.made }
        ensures charter { T.charter result ≡ T.charter root.origin }
        ensures rest { (n : ℕ) → root.made ≤ n → Follows T.history T.stake T.charter n root.origin result }
        ensures passes { All (λ p. Follows T.history T.stake T.charter p.number p.last result) passes.items }
    {
        let mut place = root.into_place();
        let table = self.into_table();
        while let Some(pass) = passes.pop() {
            table
                .shared
                .join_seat::<Gather>(&mut place, pass.into_place());
        }
        passes.destroy_empty();
        let mut closed = table.close_with(place);
        let value = closed.take(0).unwrap();
        closed.free();
        value
    }
}
