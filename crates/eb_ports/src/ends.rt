//! How the connections of a port, or the datagrams of a post, ended.
ghost use Rattle.std.specs.Prelude.{◌≡◌, ◌<◌, ◌∷◌, [], IfOk, Some, true, length, slice_get};
ghost use Rattle.eb_ports.specs.Ends.{no_ends, endings_added};

use eb_base::NoMemory;
use eb_server::Ending;
use std::alloc::Global;
use std::marker::Model;

/// How the connections of a port, or the datagrams of a post, ended, and whether the port's door failed.
///
/// A contract sees the endings in order, how many there is room for in all, and whether the door failed.
#[derive(Drop)]
pub struct Ends {
    endings: Vec<Ending>,
    most: u32,
    door_failed: bool,
}

impl Model for Ends {
    ghost use Rattle.std.specs.Prelude.{◌≤◌, length, vec_capacity};
    ghost use Rattle.eb_ports.specs.Ends.{EndsState};

    ghost Value = { EndsState };

    ghost view = { λ e. record { endings = e.endings.items; most = e.most; door_failed = e.door_failed } };

    ghost invariant = { λ e. (length e.endings.items ≤ e.most) × (e.most ≤ vec_capacity e.endings) };
}

impl Ends {
    /// Takes memory for so many endings.
    pub fn new(alloc: Global, most: u32) -> Result<Ends, NoMemory>
        ensures none { IfOk result (λ ends. ends ≡ no_ends most) }
    {
        let endings = Vec::with_capacity(alloc, most as usize)?;
        Ok(Ends {
            endings,
            most,
            door_failed: false,
        })
    }

    /// How many endings there are.
    pub fn count(&self) -> u32
        ensures count { result ≡ length self.now.endings }
    {
        let _most = self.most;
        self.endings.len() as u32
    }

    /// The ending with the number `i`, from 0.
    pub fn ending(&self, i: u32) -> Ending
        requires below { i < length self.now.endings }
        ensures ending { slice_get self.now.endings i ≡ Some result }
    {
        self.endings[i as usize]
    }

    /// Whether an accept of the door failed.
    pub fn door_failed(&self) -> bool
        ensures failed { result ≡ self.now.door_failed }
    {
        self.door_failed
    }

    /// Adds an ending, for which there is room.
    pub(crate) fn add(&mut self, ending: Ending)
        requires room { length self.old.endings < self.old.most }
        ensures added { self.new ≡ endings_added self.old (ending ∷ []) }
    {
        self.endings.push_reserved(ending);
    }

    /// Notes that an accept failed.
    pub(crate) fn fail(&mut self)
        ensures failed { self.new ≡ record self.old { door_failed = true } }
    {
        self.door_failed = true;
    }
}
