//! The passes of a bus that is as it was built.
ghost use Rattle.std.specs.Prelude.{◌≡◌, ◌+◌, ◌<◌, ◌≤◌, [], Some};
ghost use Rattle.soc_core.specs.Built.{fabric_of};
ghost use Rattle.soc_core.specs.Core.{built_core};
ghost use Rattle.eb_shared.specs.Shared.{made_by};
ghost use Rattle.eb_shared.specs.Lanes.{IsThere};

use crate::steps::SharedBus;
use soc_turn::{Pass, Root, Turn};

/// The next pass of a turn whose bus is as it was built. Its master is one of the bus's, has no cycle (`there`), and
/// has made nothing (`none`).
pub fn new_pass(turn: &Turn<SharedBus>, root: &mut Root<SharedBus>) -> Pass<SharedBus>
    requires of { root.old.turn ≡ turn.now }
    requires few { root.old.made < root.old.masters }
    requires masters { root.old.masters ≤ root.old.origin.description.masters }
    requires built { root.old.origin.core ≡ built_core (fabric_of root.old.origin.description) }
    ensures root { root.new ≡ record root.old { made = root.old.made + 1 } }
    ensures pass { result ≡ record { turn = turn.now; number = root.old.made; last = root.old.origin } }
    ensures there { IsThere turn.now (Some result) }
    ensures none { made_by result ≡ [] }
{
    turn.pass(root)
}
