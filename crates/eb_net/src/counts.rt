// Counts of failed reads and writes.

use std::marker::Model;

/// How many reads and how many writes have failed so far.
#[derive(Clone, Copy)]
pub struct Counts {
    pub reads: u64,
    pub writes: u64,
}

impl Model for Counts {
    ghost use Rattle.eb_net.specs.Accepting.{Faults};

    ghost Value = { Faults };

    ghost view = { λ c. record { reads = c.reads; writes = c.writes } };

    ghost inverse = { λ f. record { reads = f.reads; writes = f.writes } };
}
