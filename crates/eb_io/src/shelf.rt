// What a world keeps: the names asked for, the files opened, and the count of failed opens.
ghost use Rattle.std.specs.Prelude.{◌≡◌, ◌<◌, ◌++◌, ◌∷◌, [], OnOk, OnErr, vec_len, vec_capacity};
ghost use Rattle.eb_io.specs.Counts.{Rose};
ghost use Rattle.eb_io.specs.Shelf.{outside_of};

use eb_base::NoMemory;
use std::alloc::Global;
use std::mem;

#[derive(Drop)]
pub struct Shelf<F> {
    asked: Vec<String>,
    files: Vec<F>,
    faults: u64,
}

impl<F: Drop> Shelf<F> {
    pub fn new(alloc: Global) -> Self
        ensures tells { outside_of result ≡ record { asked = []; files = []; faults = 0 } }
    {
        Shelf {
            asked: Vec::new(alloc),
            files: Vec::new(alloc),
            faults: 0,
        }
    }

    /// Notes that a name is asked for, and makes room for its file first, so that `add` takes no memory.
    pub fn ask(&mut self, alloc: Global, name: &str) -> Result<(), NoMemory>
        ensures ok { OnOk result (outside_of self.new ≡ record (outside_of self.old)
            { asked = (outside_of self.old).asked ++ name.now ∷ [] }) }
        ensures room { OnOk result (vec_len self.new.files < vec_capacity self.new.files) }
        ensures err { OnErr result (outside_of self.new ≡ outside_of self.old) }
    {
        let name = String::from_str(alloc, name)?;
        self.files.reserve(1)?;
        self.asked.push(name)?;
        Ok(())
    }

    /// Adds a file in the room that `ask` made.
    pub fn add(&mut self, file: F)
        requires room { vec_len self.old.files < vec_capacity self.old.files }
        ensures added { outside_of self.new ≡ record (outside_of self.old)
            { files = (outside_of self.old).files ++ file ∷ [] } }
    {
        match self.files.push(file) {
            Ok(()) => {}
            Err(_) => unreachable!(),
        }
    }

    /// Counts a failed open.
    pub fn fail(&mut self)
        ensures asked { (outside_of self.new).asked ≡ (outside_of self.old).asked }
        ensures files { (outside_of self.new).files ≡ (outside_of self.old).files }
        ensures faults { Rose (outside_of self.old).faults (outside_of self.new).faults }
    {
        self.faults = self.faults.saturating_add(1);
    }

    /// Hands all files out, and leaves none.
    pub fn hand_out(&mut self, alloc: Global) -> Vec<F>
        ensures handed { result.items ≡ (outside_of self.old).files }
        ensures left { outside_of self.new ≡ record (outside_of self.old) { files = [] } }
    {
        mem::replace(&mut self.files, Vec::new(alloc))
    }

    /// Takes files back.
    pub fn take_back(&mut self, files: Vec<F>)
        ensures put { outside_of self.new ≡ record (outside_of self.old) { files = files.items } }
    {
        self.files = files;
    }
}
