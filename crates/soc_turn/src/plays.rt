//! The rule of the table, and the kinds of step.
//!
//! The table has one slot with the value, and two words: the next ticket and the ticket served, both modulo 2^64. There
//! are seven kinds of step and no others: to draw a ticket, to look at the ticket served, to take the value out of the
//! slot, to put it back, to publish it to the next ticket, to split a pass from the root, and to join it again. The
//! exchanges that take and put the value change no view, and need no name here.

use crate::knows::Knows;
use crate::ledger::Ledgered;
use atomic_table::{Join, Play, Seat, Shared, Split, Table, TableRule};
use std::alloc::Global;
use std::snapshot::Snapshot;

/// The rule: the tickets from the one served to the next are out, each at one seat; the value is in its slot or with
/// the seat served; and it is such as each seat may find it.
pub struct Law;

impl<T: Ledgered> TableRule<Option<T>, Knows<T>, Snapshot<T>> for Law {
    ghost use Rattle.soc_turn.specs.Turns.{Ruled, rooted};

    ghost holds = { λ _. Ruled T.history T.stake T.charter };

    ghost first = { λ key. rooted key.value };
}

/// A pass draws the next ticket.
pub struct Draw;

impl<T> Play<Option<T>, Knows<T>> for Draw {
    ghost use Rattle.soc_turn.specs.Turns.{drew};

    ghost then = { drew };
}

/// A pass looks at the ticket served. Where it is its own, the slot is its, with a value that it may find.
pub struct Look;

impl<T: Ledgered> Play<Option<T>, Knows<T>> for Look {
    ghost use Rattle.soc_turn.specs.Turns.{looked};

    ghost then = { looked T.history T.stake T.charter };
}

/// A pass gives the slot back and lets the next ticket be served. What it has seen is the value in the slot.
pub struct Publish;

impl<T> Play<Option<T>, Knows<T>> for Publish {
    ghost use Rattle.soc_turn.specs.Turns.{published};

    ghost then = { published };
}

/// A pass is split from the root.
pub struct Give;

impl<T> Split<Knows<T>> for Give {
    ghost use Rattle.soc_turn.specs.Turns.{gave, pass_given};

    ghost left = { gave };

    ghost right = { pass_given };
}

/// A pass is joined with the root.
pub struct Gather;

impl<T> Join<Knows<T>> for Gather {
    ghost use Rattle.soc_turn.specs.Turns.{gathered};
    ghost use Rattle.soc_turn.specs.declared.knows.Knows.TheVariants.{Spent};

    ghost both = { gathered };

    ghost spent = { Spent };
}

/// The table of a turn, for its one owner.
pub type Board<T> = Table<Option<T>, Knows<T>, Snapshot<T>, Law, Global>;

/// A seat at the table.
pub type Place<T> = Seat<Option<T>, Knows<T>>;
