//! A value that threads take in turns: one thread at a time takes it out whole, changes it, and puts it back.
//!
//! The value tells a history, to which each master adds entries of its own, for each master a stake that the others
//! leave as it is, and a charter that nobody changes. A master holds a pass, which tells the value as the master has
//! last seen it. Who takes the value finds that the history has only grown, without an entry of its own, and that its
//! stake and the charter are as it left them; who puts it back owes as much to the others.
//!
//! Masters are served in the order of their tickets. A master that waits yields to the other threads between two
//! looks; the one that is next looks again at once, for some microseconds at most, before it does. Of those that had
//! to wait for turn after turn some rest before they draw the next ticket. That a turn ever comes is not claimed: who
//! has taken the value may keep it.
//!
//! - `ledger`: what is told of such a value
//! - `turn`: the turn, its root, passes and holds
//! - `pace`: how a master spaces its turns
//! - `close`: the end of a turn
//! - `knows`: what a seat at the table knows
//! - `plays`: the rule of the table, and the kinds of step
#![tactic(auto)]

mod close;
mod knows;
mod ledger;
mod pace;
mod plays;
mod turn;

pub use knows::Knows;
pub use ledger::Ledgered;
pub use turn::{Held, Pass, Root, Turn};
