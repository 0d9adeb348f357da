//! A door in memory.

ghost use Rattle.std.specs.Prelude.{◌≡◌, ◌≤◌, ◌<◌, ◌+◌, ◌++◌, [], Some, None, All, IfOk, length, map, vec_capacity};
ghost use Rattle.eb_net.specs.DoorLink.{IsUnused, left_on, past_since};

use crate::counts::Counts;
use crate::door::{Accepted, Door};
use crate::door_link::{DoorLink, PastLink};
use crate::tries::Tries;
use eb_base::NoMemory;
use eb_io::MemLink;
use std::alloc::Global;
use std::mem;

/// A door in memory, which tells its octets.
#[derive(Drop)]
pub struct MemDoor {
    // Those left, the next one first.
    links: Vec<MemLink>,
    earlier: Vec<PastLink>,
    standing: DoorLink,
    // The counts when the connection that stands began; none before the first.
    began: Option<Counts>,
    tries: Tries,
    faults: u64,
    ghost unused: { All IsUnused links.items },
    ghost room: { length earlier.items + length links.items ≤ vec_capacity earlier },
}

// Keeps a connection that is over, where there was one, which began at these counts.
fn keep(earlier: &mut Vec<PastLink>, link: DoorLink, began: Option<Counts>)
    requires room { length earlier.old.items < vec_capacity earlier.old }
    ensures kept { earlier.new.items ≡ earlier.old.items ++ past_since began link }
    ensures capacity { vec_capacity earlier.new ≡ vec_capacity earlier.old }
{
    if let Some(began) = began {
        earlier.push_reserved(PastLink { link, began });
    }
}

impl MemDoor {
    ghost use Rattle.eb_io.specs.Writing.{Octets};
    ghost use Rattle.eb_net.specs.MemDoor.{accepts_of, door_state};

    /// Gives these links in order, and fails exactly the accepts whose numbers, from 0, are in `fails`. Each link has
    /// given nothing, nothing was written to it, and nothing failed.
    ///
    /// Takes the memory that accepts need, so that these take none.
    pub fn new(alloc: Global, links: Vec<MemLink>, fails: Vec<u64>) -> Result<MemDoor, NoMemory>
        requires unused { All IsUnused links.items }
        ensures tells { IfOk result (λ door. door_state door ≡ record {
          reading = record { given = Some []; left = Some []; faults = 0 };
          writing = record { written = Octets []; faults = 0 };
          accepting = record { links = Some (map left_on links.items); earlier = Some []; began = None; faults = 0 };
        }) }
        ensures plan { IfOk result (λ door. accepts_of door ≡ record { most = 1; fails = fails.items; next = 0 }) }
    {
        let earlier = Vec::with_capacity(alloc, links.len())?;
        Ok(MemDoor {
            links,
            earlier,
            standing: DoorLink {
                link: None,
                read_faults: 0,
                write_faults: 0,
            },
            began: None,
            tries: Tries::new(fails),
            faults: 0,
        })
    }
}

impl Door for MemDoor {
    type Link = DoorLink;

    ghost use Rattle.std.specs.Prelude.{◌↔◌, refl};
    ghost use Rattle.eb_io.specs.Plan.{FailsNow, after_call};
    ghost use Rattle.eb_net.specs.Accepting.{Accepts};
    ghost use Rattle.eb_net.specs.MemDoor.{accepts_of, door_accepting, door_state, door_with};

    ghost standing = { λ d. d.standing };

    ghost with_standing = { door_with };

    ghost accepting = { door_accepting };

    /// It fails exactly the accepts that it was made to fail.
    fn accept(&mut self) -> Accepted
        ensures accepts { Accepts (door_state self.old) (door_state self.new) result }
        ensures fails { (result ≡ Accepted.Failed) ↔ FailsNow (accepts_of self.old) }
        ensures plan { accepts_of self.new ≡ after_call (accepts_of self.old) }
    {
        if self.tries.count() {
            self.faults = self.faults.saturating_add(1);
            return Accepted::Failed;
        }
        if self.links.is_empty() {
            return Accepted::Closed;
        }
        let counts = Counts {
            reads: self.standing.read_faults,
            writes: self.standing.write_faults,
        };
        let next = DoorLink {
            link: Some(self.links.remove(0)),
            read_faults: counts.reads,
            write_faults: counts.writes,
        };
        let over = mem::replace(&mut self.standing, next);
        keep(&mut self.earlier, over, self.began);
        self.began = Some(counts);
        Accepted::Open
    }

    fn link(&mut self) -> &mut DoorLink {
        &mut self.standing
    }

    ghost stands = { λ _ _. refl };

    ghost keeps_accepts = { λ _ _. refl };
}
