ghost use Rattle.std.specs.Prelude.{◌≡◌, ◌<◌, ◌++◌, ◌∷◌, [], length, OnOk, OnErr, Some, slice_get};

use crate::memory::NoMemory;
use std::marker::Model;

/// How a register takes a write.
#[derive(Clone, Copy, Debug, PartialEq, Eq)]
pub enum Mode {
    /// A write changes nothing.
    Ro,
    /// A write replaces the selected lanes.
    Rw,
    /// A write clears the bits that are set in its data.
    W1c,
}

/// A register of 32 bits: how it takes a write, and what it holds at first.
#[derive(Clone, Copy, Debug, PartialEq, Eq)]
pub struct Reg {
    pub mode: Mode,
    pub reset: u32,
}

/// A list of registers.
#[derive(Debug, Drop)]
pub struct RegList {
    items: Vec<Reg>,
}

impl Model for RegList {
    ghost use Rattle.std.specs.Prelude.{List};
    ghost use Rattle.eb_base.specs.declared.reg.Reg.{Reg};

    ghost Value = { List Reg };

    ghost view = { λ a. a.items.items };
}

impl RegList {
    /// The list of these registers. It takes no memory.
    pub fn of(items: Vec<Reg>) -> RegList
        ensures items { result ≡ items.items }
    {
        RegList { items }
    }

    /// How many registers there are.
    pub fn len(&self) -> usize
        ensures len { result ≡ length self.now }
    {
        self.items.len()
    }

    /// The register at the index `i`.
    pub fn get(&self, i: usize) -> &Reg
        requires in_range { i < length self.now }
        ensures item { slice_get self.now i ≡ Some result.now }
    {
        &self.items[i]
    }

    /// All registers.
    pub fn as_slice(&self) -> &[Reg]
        ensures items { result.now ≡ self.now }
    {
        self.items.as_slice()
    }

    /// Adds a register at the end. Where memory is refused, all is as before.
    pub fn push(&mut self, item: Reg) -> Result<(), NoMemory>
        ensures ok { OnOk result (self.new ≡ self.old ++ item ∷ []) }
        ensures err { OnErr result (self.new ≡ self.old) }
    {
        self.items.push(item)?;
        Ok(())
    }
}
