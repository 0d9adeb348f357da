//! The turn, and what its threads hold.

ghost use Rattle.std.specs.Prelude.{◌≡◌, ℕ, ◌+◌, ◌<◌, ◌≤◌, [], ◌∷◌, IfOk, IfErr, true};
ghost use Rattle.soc_turn.specs.declared.knows.Knows.TheVariants.{Rooted, Idle};
ghost use Rattle.soc_journal.specs.Ledger.{Follows, Adds};
ghost use Rattle.soc_turn.specs.Roles.{number_of, made_of, is_root, is_pass, is_held};

use crate::ledger::Ledgered;
use crate::pace::Pace;
use crate::plays::{Board, Draw, Give, Look, Place, Publish};
use atomic_table::{Refused, Table};
use std::alloc::{AllocFailed, Global};
use std::marker::Model;
use std::snapshot::Snapshot;
use std::sync::Wait;

/// A value that threads take in turns. Contracts see which turn it is, by its table.
///
/// Where the value may be sent to another thread, a turn may be shared between threads, and its root, passes and holds
/// may be sent. A turn that is dropped drops its value.
#[derive(Drop)]
pub struct Turn<T: Ledgered> {
    table: Board<T>,
    ghost sizes: { (table.shared.table_id.words ≡ 2) × (table.shared.table_id.slots ≡ 1) },
}

impl<T: Ledgered> Model for Turn<T> {
    ghost use Rattle.atomic_table.specs.Seated.{TableId};

    ghost Value = { TableId };

    ghost view = { λ t. t.table.shared.table_id };
}

/// The right to make the passes of a turn, and to end it.
///
/// Contracts see its turn, the value that the turn began with, how many passes were made, and how many may be.
#[derive(Drop)]
pub struct Root<T: Ledgered> {
    made: u8,
    masters: u8,
    seat: Place<T>,
    ghost rooted: { is_root seat.me ≡ true },
    ghost count: { made ≡ made_of seat.me.0 },
}

impl<T: Ledgered> Model for Root<T> {
    ghost use Rattle.std.specs.Prelude.{◌≤◌};
    ghost use Rattle.soc_turn.specs.Views.{RootView};
    ghost use Rattle.soc_turn.specs.Roles.{origin_of};

    ghost Value = { RootView T };

    ghost view = { λ r. record {
      turn = r.seat.table_id;
      origin = origin_of r.seat.me r.rooted;
      made = r.made;
      masters = r.masters;
    } };

    ghost invariant = { λ r. (r.masters ≤ 16) × (r.made ≤ r.masters) };
}

/// A master that has not the value: it may take it.
///
/// Contracts see its turn, its number, and the value as it has last seen it. From that follows what it made (its own
/// part of the history), its stake, and the charter. A pass that is dropped is lost to its turn, which then can't be
/// closed.
#[derive(Drop)]
pub struct Pass<T: Ledgered> {
    number: u8,
    pace: Pace,
    seat: Place<T>,
    ghost waits: { is_pass seat.me ≡ true },
    ghost named: { number ≡ number_of seat.me.0 },
}

impl<T: Ledgered> Model for Pass<T> {
    ghost use Rattle.soc_turn.specs.Views.{PassView};
    ghost use Rattle.soc_turn.specs.Roles.{last_of};

    ghost Value = { PassView T };

    ghost view = { λ p. record { turn = p.seat.table_id; number = p.number; last = last_of p.seat.me p.waits } };
}

/// A master that has taken the value: it owes to put it back.
///
/// Contracts see its turn, its number, and the value as it was taken. A hold can't be dropped, for the other masters
/// would wait forever.
pub struct Held<T: Ledgered> {
    number: u8,
    pace: Pace,
    seat: Place<T>,
    ghost holds: { is_held seat.me ≡ true },
    ghost named: { number ≡ number_of seat.me.0 },
}

impl<T: Ledgered> Model for Held<T> {
    ghost use Rattle.soc_turn.specs.Views.{HeldView};
    ghost use Rattle.soc_turn.specs.Roles.{taken_of};

    ghost Value = { HeldView T };

    ghost view = { λ h. record { turn = h.seat.table_id; number = h.number; taken = taken_of h.seat.me h.holds } };
}

impl<T: Ledgered> Turn<T> {
    /// The turn of a value, for 1 to 16 masters, and its root, by which no pass is made yet.
    ///
    /// Takes memory for the table, and hands the value back for want of it alone.
    pub fn new(alloc: Global, value: T, masters: u8) -> Result<(Turn<T>, Root<T>), T>
        requires masters { (1 ≤ masters) × (masters ≤ 16) }
        ensures ok { IfOk result (λ t. t.1 ≡ record { turn = t.0; origin = value; made = 0; masters = masters }) }
        ensures err { IfErr result (λ v. v ≡ value) }
    {
        let origin = Snapshot::of(&value);
        let mut slots = Vec::new(alloc);
        if let Err(failed) = slots.push(Some(value)) {
            let AllocFailed { value } = failed;
            slots.destroy_empty();
            return Err(value.unwrap());
        }
        let made = Table::new(alloc, &[0, 0], slots, &origin);
        match made {
            Ok((table, seat)) => Ok((
                Turn { table },
                Root {
                    made: 0,
                    masters,
                    seat,
                },
            )),
            Err(Refused { mut slots }) => {
                let value = slots.pop().unwrap().unwrap();
                slots.destroy_empty();
                Err(value)
            }
        }
    }

    /// The pass with the next number, from 0, while there are fewer than the masters. It has seen the value that the
    /// turn began with, and the root then counts one pass more.
    pub fn pass(&self, root: &mut Root<T>) -> Pass<T>
        requires of { root.old.turn ≡ self.now }
        requires few { root.old.made < root.old.masters }
        ensures root { root.new ≡ record root.old { made = root.old.made + 1 } }
        ensures pass { result ≡ record { turn = self.now; number = root.old.made; last = root.old.origin } }
    {
        let number = root.made;
        let seat = self.table.shared.split_seat::<Give>(&mut root.seat);
        root.made += 1;
        let pace = Pace::new();
        Pass { number, pace, seat }
    }

    /// Waits for the pass's turn, and takes the value. It yields to the other threads between two looks, except that
    /// it looks again at once, for some microseconds, when it is the next. Of masters that had to wait for eight turns
    /// in a row some first rest for 2 ms.
    ///
    /// The value's history extends what the pass has seen by entries of others, and the pass's stake and the charter
    /// are as it has seen them. The pass has become the hold, by which the value is put back.
    pub fn take<R: Wait>(&self, rt: &R, pass: Pass<T>) -> (Held<T>, T)
        requires of { pass.turn ≡ self.now }
        ensures held { result.0 ≡ record { turn = self.now; number = pass.number; taken = result.1 } }
        ensures value { Follows T.history T.stake T.charter pass.number pass.last result.1 }
    {
        let Pass {
            number,
            mut pace,
            mut seat,
        } = pass;
        let shared = &self.table.shared;
        pace.begin(rt);
        let ticket = shared.fetch_add::<Draw>(&mut seat, 0, 1);
        for _ in rt.forever() {
            let served = shared.load::<Look>(&mut seat, 1);
            if served == ticket {
                let value = shared.exchange(&mut seat, 0, None).unwrap();
                return (Held { number, pace, seat }, value);
            }
            pace.wait(ticket, ticket.wrapping_sub(served));
        }
        unreachable!()
    }

    /// Puts the value back, and lets the next master take it. Waits for nothing.
    ///
    /// What was added to the history is the master's own, and the stakes of all others and the charter are as they were
    /// when the value was taken. The hold has become the pass again, which has seen the value as it is put.
    pub fn put(&self, held: Held<T>, value: T) -> Pass<T>
        requires of { held.turn ≡ self.now }
        requires adds { Adds T.history T.stake T.charter held.number held.taken value }
        ensures pass { result ≡ record { turn = self.now; number = held.number; last = value } }
    {
        let Held {
            number,
            pace,
            mut seat,
        } = held;
        let shared = &self.table.shared;
        let hole = shared.exchange(&mut seat, 0, Some(value));
        let None = hole else { unreachable!() };
        shared.fetch_add::<Publish>(&mut seat, 1, 1);
        Pass { number, pace, seat }
    }

    /// The table of the turn.
    pub(crate) fn into_table(self) -> Board<T>
        ensures table { result.shared.table_id ≡ self }
        ensures sizes { (self.words ≡ 2) × (self.slots ≡ 1) }
    {
        let Turn { table } = self;
        table
    }
}

impl<T: Ledgered> Root<T> {
    /// The root's seat at the table.
    pub(crate) fn into_place(self) -> Place<T>
        ensures table { result.table_id ≡ self.turn }
        ensures me { result.me ≡ (Rooted self.origin self.made [], []) }
    {
        let Root {
            made: _,
            masters: _,
            seat,
        } = self;
        seat
    }
}

impl<T: Ledgered> Pass<T> {
    /// The number of the master, from 0.
    pub fn number(&self) -> u8
        ensures number { result ≡ self.now.number }
    {
        self.number
    }

    /// The pass's seat at the table.
    pub(crate) fn into_place(self) -> Place<T>
        ensures table { result.table_id ≡ self.turn }
        ensures me { result.me ≡ (Idle self.number self.last, []) }
    {
        let Pass {
            number: _,
            pace: _,
            seat,
        } = self;
        seat
    }
}
