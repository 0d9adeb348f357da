//! What a session asks of its master.
ghost use Rattle.std.specs.Prelude.{◌≡◌, ◌≢◌, ◌≤◌, ◌↔◌, [], IsTrue, true, length, OnOk, OnErr};
ghost use Rattle.wb_signals.specs.Cycles.{AllFitBus, Asks, paired, pairs_added, cycle_ended};
ghost use Rattle.eb_session.specs.Operations.{answered_to};

use eb_base::NoMemory;
use std::alloc::Global;
use wb_signals::{Master, Op};

// Whether a master is asked: there are operations, or the open cycle ends.
fn asks<M: Master>(master: &M, ops: &[Op], last: bool) -> bool
    ensures value { IsTrue result ↔ Asks (M.cycles master.now).opened ops.now last }
{
    if !ops.is_empty() {
        return true;
    }
    if !last {
        return false;
    }
    master.is_open()
}

/// Runs the operations of a record, which may end the cycle that is open. Where there is nothing to ask of the master,
/// it isn't asked.
pub fn run_ops<M: Master>(
    alloc: Global,
    master: &mut M,
    ops: &[Op],
    last: bool,
) -> Result<(), NoMemory>
    requires most { length ops.now ≤ 510 }
    requires fit { AllFitBus (M.identity master.old).bus ops.now }
    ensures answers { OnOk result (length (answered_to ops.now (M.answered master.new)) ≡ length ops.now) }
    ensures ran { OnOk result (M.cycles master.new ≡ pairs_added (M.identity master.old).number (M.cycles master.old)
        (paired ops.now (answered_to ops.now (M.answered master.new))) last) }
    ensures asked { OnErr result (Asks (M.cycles master.old).opened ops.now last) }
    ensures unrun { OnErr result (M.cycles master.new ≡ M.cycles master.old) }
    ensures identity { M.identity master.new ≡ M.identity master.old }
{
    if !asks(master, ops, last) {
        return Ok(());
    }
    master.record(alloc, ops, last)
}

/// Cuts the open cycle, where there is one.
pub fn cut_open<M: Master>(master: &mut M)
    ensures cut { M.cycles master.new ≡ cycle_ended (M.identity master.old).number true (M.cycles master.old) }
    ensures identity { M.identity master.new ≡ M.identity master.old }
{
    if master.is_open() {
        master.cut();
    }
}
