//! Which scripts a bus takes, as the contract of a function that does nothing.

ghost use Rattle.soc_sim.specs.Laws.{ScriptIsOfBus};

/// A bus takes each line of a script that was read for its masters and 32 data bits.
pub fn scripts()
    ensures lines { ScriptIsOfBus }
{}
