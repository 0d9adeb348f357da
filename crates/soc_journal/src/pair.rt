// An operation with its answer, and those of a cycle.
ghost use Rattle.std.specs.Prelude.{◌≡◌, ◌<◌, ◌++◌, ◌∷◌, [], length, OnOk, OnErr, Some, slice_get};

use eb_base::NoMemory;
use std::marker::Model;
use wb_signals::{Answer, Op};

/// An operation with its answer.
#[derive(Clone, Copy, Debug, PartialEq, Eq)]
pub struct Pair {
    pub op: Op,
    pub answer: Answer,
}

impl Model for Pair {
    ghost use Rattle.wb_signals.specs.History.{Pair};

    ghost Value = { Pair };

    ghost view = { λ a. record { request = a.op; answer = a.answer } };

    ghost inverse = { λ p. record { op = p.request; answer = p.answer } };
}

/// The operations of a cycle with their answers, in order.
#[derive(Debug, Drop)]
pub struct Pairs {
    items: Vec<Pair>,
}

impl Model for Pairs {
    ghost use Rattle.std.specs.Prelude.{List};
    ghost use Rattle.wb_signals.specs.History.{Pair};

    ghost Value = { List Pair };

    ghost view = { λ a. a.items.items };
}

impl Pairs {
    /// The list of these pairs. It takes no memory.
    pub fn of(items: Vec<Pair>) -> Pairs
        ensures items { result ≡ items.items }
    {
        Pairs { items }
    }

    /// How many pairs there are.
    pub fn len(&self) -> usize
        ensures len { result ≡ length self.now }
    {
        self.items.len()
    }

    /// The pair at the index `i`.
    pub fn get(&self, i: usize) -> &Pair
        requires in_range { i < length self.now }
        ensures item { slice_get self.now i ≡ Some result.now }
    {
        &self.items[i]
    }

    /// All pairs.
    pub fn as_slice(&self) -> &[Pair]
        ensures items { result.now ≡ self.now }
    {
        self.items.as_slice()
    }

    /// Adds a pair at the end. Where memory is refused, all is as before.
    pub fn push(&mut self, item: Pair) -> Result<(), NoMemory>
        ensures ok { OnOk result (self.new ≡ self.old ++ item ∷ []) }
        ensures err { OnErr result (self.new ≡ self.old) }
    {
        self.items.push(item)?;
        Ok(())
    }
}
