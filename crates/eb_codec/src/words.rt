//! A list of numbers, which contracts see as the list.

ghost use Rattle.std.specs.Prelude.{◌≡◌, ◌++◌, ◌∷◌, ◌<◌, [], length, slice_index, OnOk, OnErr};

use eb_base::NoMemory;
use std::marker::Model;

/// A list of 64-bit numbers, the values or the addresses of a record. Contracts see the list.
#[derive(Drop, Debug)]
pub struct Words {
    items: Vec<u64>,
}

impl Model for Words {
    ghost use Rattle.std.specs.Prelude.{List, ℕ};

    ghost Value = { List ℕ };

    ghost view = { λ w. w.items.items };
}

impl Words {
    /// The list of these. It takes no memory.
    pub fn of(items: Vec<u64>) -> Self
        ensures value { result ≡ items.items }
    {
        Words { items }
    }

    /// How many there are.
    pub fn len(&self) -> usize
        ensures value { result ≡ length self.now }
    {
        self.items.len()
    }

    /// The number of index i, from 0.
    pub fn get(&self, i: usize) -> &u64
        requires there { i < length self.now }
        ensures value { result.now ≡ slice_index self.now i }
    {
        &self.items[i]
    }

    /// Adds one at the end. After `NoMemory` the list is as it was.
    pub fn push(&mut self, item: u64) -> Result<(), NoMemory>
        ensures ok { OnOk result (self.new ≡ self.old ++ item ∷ []) }
        ensures err { OnErr result (self.new ≡ self.old) }
    {
        match self.items.push(item) {
            Ok(()) => Ok(()),
            Err(_) => Err(NoMemory),
        }
    }
}
