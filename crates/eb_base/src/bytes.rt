ghost use Rattle.std.specs.Prelude.{◌≡◌, ◌<◌, ◌++◌, ◌∷◌, [], length, OnOk, OnErr, slice_index};

use crate::memory::NoMemory;
use std::marker::Model;

/// A list of octets.
#[derive(Debug, Drop)]
pub struct Octets {
    items: Vec<u8>,
}

impl Model for Octets {
    ghost use Rattle.std.specs.Prelude.{ℕ, List};

    ghost Value = { List ℕ };

    ghost view = { λ a. a.items.items };
}

impl Octets {
    /// The list of these octets. It takes no memory.
    pub fn of(items: Vec<u8>) -> Octets
        ensures items { result ≡ items.items }
    {
        Octets { items }
    }

    /// How many octets there are.
    pub fn len(&self) -> usize
        ensures len { result ≡ length self.now }
    {
        self.items.len()
    }

    /// The octet at the index `i`.
    pub fn get(&self, i: usize) -> &u8
        requires in_range { i < length self.now }
        ensures item { result.now ≡ slice_index self.now i }
    {
        &self.items[i]
    }

    /// All octets.
    pub fn as_slice(&self) -> &[u8]
        ensures items { result.now ≡ self.now }
    {
        self.items.as_slice()
    }

    /// Adds an octet at the end. Where memory is refused, all is as before.
    pub fn push(&mut self, item: u8) -> Result<(), NoMemory>
        ensures ok { OnOk result (self.new ≡ self.old ++ item ∷ []) }
        ensures err { OnErr result (self.new ≡ self.old) }
    {
        self.items.push(item)?;
        Ok(())
    }
}
