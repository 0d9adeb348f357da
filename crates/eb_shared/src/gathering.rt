//! The bus after all its masters are done.
ghost use Rattle.std.specs.Prelude.{◌≡◌, ◌≤◌, ℕ, length, All};
ghost use Rattle.wb_signals.specs.History.{own, IsLegal};
ghost use Rattle.soc_core.specs.Built.{fabric_of};
ghost use Rattle.eb_shared.specs.Shared.{made_by};

use crate::steps::SharedBus;
use soc_turn::{Pass, Root, Turn};

/// Gathers the passes, and hands out the bus. Its journal is one legal history from the built state (`legal`), each
/// master's own part of it is what its pass tells (`own`), a master without a pass has no entry that the first bus had
/// not (`rest`), and the description is the one that the turn began with. Waits for nothing.
pub fn gather(
    turn: Turn<SharedBus>,
    root: Root<SharedBus>,
    passes: Vec<Pass<SharedBus>>,
) -> SharedBus
    requires root { root.turn ≡ turn }
    requires of { All (λ p. p.turn ≡ turn) passes.items }
    requires all { length passes.items ≡ root.made }
    ensures legal { IsLegal (fabric_of result.description).wiring (fabric_of result.description).built
        result.core.journal }
    ensures own { All (λ p. own p.number result.core.journal ≡ made_by p) passes.items }
    ensures rest { (m : ℕ) → root.made ≤ m → own m result.core.journal ≡ own m root.origin.core.journal }
    ensures description { result.description ≡ root.origin.description }
{
    let bus = turn.close(root, passes);
    let _ = bus.journal();
    bus
}
