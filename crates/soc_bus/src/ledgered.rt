//! A bus as a value that threads take in turns.

use crate::bus::Bus;
use crate::recorder::BusRecorder;
use soc_turn::Ledgered;

/// Its history is its journal, a master's stake is what its port has raised, taken and loaded, and the charter is the
/// description that it was built from, and that it isn't watched.
impl<R: BusRecorder> Ledgered for Bus<R> {
    ghost use Rattle.soc_core.specs.Core.{Stake};
    ghost use Rattle.soc_bus.specs.Ledger.{Charter, history_of, stake_in, charter_of};

    ghost Stake = { Stake };

    ghost Charter = { Charter };

    ghost history = { history_of };

    ghost stake = { stake_in };

    ghost charter = { charter_of };
}
