//! A list that only clauses see.
ghost use Rattle.std.specs.Prelude.{◌≡◌, ◌≢◌, ◌↔◌, ◌++◌, ◌∷◌, [], IsTrue};

use std::marker::Model;
use std::snapshot::Snapshot;

/// A list as clauses see it. Memory holds only whether it has items.
#[cycle(trail)]
#[derive(Drop)]
pub struct Trail<T> {
    last: Last<T>,
}

/// The items before the last one, and the last one.
#[cycle(trail)]
#[derive(Drop)]
enum Last<T> {
    None,
    Some(Snapshot<Trail<T>>, Snapshot<T>),
}

impl<T> Model for Trail<T> {
    ghost use Rattle.std.specs.Prelude.{List, length};

    ghost Value = { List T };

    ghost use Rattle.soc_trail.specs.Trail.{items_of};

    ghost view = { λ t. items_of t.last };

    ghost size = { length };

    ghost use Rattle.std.proofs.Common.{arith, length-append};

    ghost size_decreases = { λ t h. Prim.grind (arith, length-append) };
}

impl<T: Drop> Trail<T> {
    /// No items.
    pub fn new() -> Trail<T>
        ensures items { result ≡ [] }
    {
        Trail { last: Last::None }
    }

    /// Adds an item at the end. It takes no memory.
    pub fn push(&mut self, item: T)
        ensures items { self.new ≡ self.old ++ item ∷ [] }
    {
        let before = Snapshot::of(self);
        let item = Snapshot::of(&item);
        *self = Trail {
            last: Last::Some(before, item),
        };
    }

    /// Whether there are items.
    pub fn is_some(&self) -> bool
        ensures some { IsTrue result ↔ (self.now ≢ []) }
    {
        match &self.last {
            Last::None => false,
            Last::Some(_, _) => true,
        }
    }
}
