//! A journal that two masters add to.

ghost use Rattle.std.specs.Prelude.{◌≡◌, ◌<◌};
ghost use Rattle.soc_journal.specs.Ledger.{Adds};
ghost use Rattle.turn_tests.specs.Tally.{added_by};

use eb_base::NoMemory;
use soc_journal::{Entry, Journal, Pair, Pairs};
use soc_turn::Ledgered;
use std::alloc::Global;
use wb_signals::{Answer, Op};

/// A journal, how many entries each of two masters added, and a name that nobody changes.
#[derive(Drop)]
pub struct Tally {
    pub journal: Journal,
    pub first: u64,
    pub second: u64,
    pub name: u64,
}

impl Ledgered for Tally {
    ghost use Rattle.std.specs.Prelude.{ℕ};
    ghost use Rattle.turn_tests.specs.Tally.{added_by};

    ghost Stake = { ℕ };

    ghost Charter = { ℕ };

    ghost history = { λ t. t.journal.entries };

    ghost stake = { λ t n. added_by t.first t.second n };

    ghost charter = { λ t. t.name };
}

// The one write of an entry, which tells its number among those of its master.
fn write_of(alloc: Global, number: u64) -> Result<Pairs, NoMemory> {
    let mut pairs = Pairs::of(Vec::new(alloc));
    pairs.push(Pair {
        op: Op {
            write: true,
            adr: number,
            dat: 0,
            sel: 0xf,
        },
        answer: Answer::Ack(0),
    })?;
    Ok(pairs)
}

impl Tally {
    /// A tally without entries.
    pub fn new(alloc: Global, name: u64) -> Tally {
        Tally {
            journal: Journal::new(alloc),
            first: 0,
            second: 0,
            name,
        }
    }

    /// Adds the next entry of a master. Where memory is refused, none.
    pub fn add(&mut self, alloc: Global, master: u8) -> Result<(), NoMemory>
        requires master { master < 2 }
        ensures only { Adds (λ t. t.journal.entries) (λ t n. added_by t.first t.second n) (λ t. t.name)
            master self.old self.new }
    {
        let number = if master == 0 { self.first } else { self.second };
        let pairs = write_of(alloc, number)?;
        self.journal.reserve(1)?;
        self.journal.push(Entry {
            master,
            cut: false,
            pairs,
        });
        if master == 0 {
            self.first = number.wrapping_add(1);
        } else {
            self.second = number.wrapping_add(1);
        }
        Ok(())
    }
}

/// Whether a master's entries are there, each once and in order, from 0 up to `count`.
pub fn has_all_of(journal: &Journal, master: u8, count: u64) -> bool {
    let mut next: u64 = 0;
    for entry in journal.entries() {
        if entry.master == master {
            if entry.pairs.len() != 1 || entry.pairs.get(0).op.adr != next {
                return false;
            }
            next = next.wrapping_add(1);
        }
    }
    next == count
}
