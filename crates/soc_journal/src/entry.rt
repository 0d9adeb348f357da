// A cycle that has ended.
use crate::pair::Pairs;
use std::marker::Model;

/// A cycle that has ended: the number of its master, whether it was cut, and its operations with their answers.
///
/// A cycle is cut where its master went away before it ended the cycle itself.
#[derive(Debug, Drop)]
pub struct Entry {
    pub master: u8,
    pub cut: bool,
    pub pairs: Pairs,
}

impl Model for Entry {
    ghost use Rattle.wb_signals.specs.History.{Entry};

    ghost Value = { Entry };

    ghost view = { λ a. record { master = a.master; cut = a.cut; pairs = a.pairs } };
}
