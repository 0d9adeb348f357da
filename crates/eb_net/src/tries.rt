// Which calls of a door or a post in memory fail.

ghost use Rattle.std.specs.Prelude.{◌≡◌, ◌↔◌, IsTrue};
ghost use Rattle.eb_io.specs.Plan.{FailsNow, after_call};
ghost use Rattle.eb_net.specs.Tries.{tries_of};

/// The calls of one kind, numbered from 0.
#[derive(Drop)]
pub struct Tries {
    fails: Vec<u64>,
    next: u64,
}

impl Tries {
    /// No call was made yet. Those whose numbers are in `fails` fail.
    pub fn new(fails: Vec<u64>) -> Tries
        ensures plan { tries_of result ≡ record { most = 1; fails = fails.items; next = 0 } }
    {
        Tries { fails, next: 0 }
    }

    /// Counts a call, and says whether it is one that fails.
    pub fn count(&mut self) -> bool
        ensures fails { IsTrue result ↔ FailsNow (tries_of self.old) }
        ensures plan { tries_of self.new ≡ after_call (tries_of self.old) }
    {
        let call = self.next;
        self.next = call.saturating_add(1);
        self.fails.contains(&call)
    }
}
