// All that a program meets outside by name: the trait, and a world in memory.
ghost use Rattle.std.specs.Prelude.{◌≡◌, [], All};
ghost use Rattle.eb_io.specs.Outside.{Outside, Opens};
ghost use Rattle.eb_io.specs.Shelf.{outside_of};
ghost use Rattle.eb_io.specs.MemSource.{IsNew};

use crate::shelf::Shelf;
use crate::{MemSource, Source};
use std::alloc::Global;

/// What an open answers.
#[derive(Clone, Copy, Debug, PartialEq, Eq)]
pub enum Opened {
    /// The world has one more.
    Done,
    /// The open failed.
    Failed,
    /// There was no memory for it.
    NoMemory,
}

/// All that a program meets outside, by name.
pub trait World {
    /// A file that is read.
    type File: Source + Drop + Send;

    /// What it tells: the names that it was asked for, the files that it has, and how many opens failed.
    ghost outside: { Self → Outside Self.File };

    /// Opens the file of this name and adds it at the end of the world's files. It has given nothing yet.
    ///
    /// `Failed` comes only where the count of failed opens rose: the files are as before, and the name was asked for.
    /// After `NoMemory` all is as before.
    fn open(&mut self, alloc: Global, name: &str) -> Opened
        ensures opens { Opens Self.File.reading (outside self.old) (outside self.new) name.now result };

    /// Hands all files out, in the order in which they were opened, and leaves none. It takes no memory.
    fn files(&mut self, alloc: Global) -> Vec<Self::File>
        ensures handed { result.items ≡ (outside self.old).files }
        ensures left { outside self.new ≡ record (outside self.old) { files = [] } };

    /// Puts files back into a world that has none.
    fn put_files(&mut self, files: Vec<Self::File>)
        requires none_left { (outside self.old).files ≡ [] }
        ensures put { outside self.new ≡ record (outside self.old) { files = files.items } };
}

/// A world in memory, which gives the files that it was made with.
#[derive(Drop)]
pub struct MemWorld {
    supply: Vec<MemSource>,
    shelf: Shelf<MemSource>,
    ghost all_new: { All IsNew supply.items },
}

impl MemWorld {
    ghost use Rattle.eb_io.specs.MemWorld.{world_of, supply_of};

    /// Gives these files in order, whatever names are asked for. Each has given nothing and failed no read.
    pub fn new(alloc: Global, files: Vec<MemSource>) -> MemWorld
        requires all_new { All IsNew files.items }
        ensures tells { world_of result ≡ record { asked = []; files = []; faults = 0 } }
        ensures supply { supply_of result ≡ files.items }
    {
        MemWorld {
            supply: files,
            shelf: Shelf::new(alloc),
        }
    }
}

impl World for MemWorld {
    type File = MemSource;

    ghost use Rattle.eb_io.specs.MemSource.{reading_of};
    ghost use Rattle.eb_io.specs.MemWorld.{world_of, supply_of, TakesFrom};

    ghost outside = { world_of };

    /// Adds the next file that it was made with. It fails exactly where none is left.
    fn open(&mut self, alloc: Global, name: &str) -> Opened
        ensures opens { Opens reading_of (world_of self.old) (world_of self.new) name.now result }
        ensures next { TakesFrom self.old self.new result }
    {
        if self.shelf.ask(alloc, name).is_err() {
            return Opened::NoMemory;
        }
        if self.supply.is_empty() {
            self.shelf.fail();
            return Opened::Failed;
        }
        let file = self.supply.remove(0);
        self.shelf.add(file);
        Opened::Done
    }

    fn files(&mut self, alloc: Global) -> Vec<MemSource>
        ensures handed { result.items ≡ (world_of self.old).files }
        ensures left { world_of self.new ≡ record (world_of self.old) { files = [] } }
        ensures supply { supply_of self.new ≡ supply_of self.old }
    {
        self.shelf.hand_out(alloc)
    }

    fn put_files(&mut self, files: Vec<MemSource>)
        requires none_left { (world_of self.old).files ≡ [] }
        ensures put { world_of self.new ≡ record (world_of self.old) { files = files.items } }
        ensures supply { supply_of self.new ≡ supply_of self.old }
    {
        self.shelf.take_back(files);
    }
}
