//! A record of a shared master, turn by turn.
ghost use Rattle.std.specs.Prelude.{◌≡◌, ◌≢◌, ◌≤◌, [], not, length, true, false, vec_capacity};
ghost use Rattle.eb_base.specs.declared.width.Width.TheVariants.{W32};
ghost use Rattle.wb_signals.specs.Cycles.{AllFitBus, CanRecord, cycle_ended};
ghost use Rattle.eb_shared.specs.Shared.{cycles_by, stake_by, IsSameMaster, IsBetween, HasRecorded, IsRefused};

use crate::steps::{Part, Reached, SharedBus, Stage, Way};
use crate::turns::{first_turn, release_turn, turns_to_end};
use soc_turn::{Pass, Turn};
use std::sync::Wait;
use wb_signals::{Answer, SlaveSet};

/// Where a master stands between two records: whether its cycle is open, and the set that it then holds.
#[derive(Clone, Copy)]
pub struct Standing {
    pub(crate) set: SlaveSet,
    pub(crate) is_open: bool,
}

/// The first record of a cycle.
fn first_record<R: Wait>(
    rt: &R,
    turn: &Turn<SharedBus>,
    pass: Pass<SharedBus>,
    part: Part,
    answers: &mut Vec<Answer>,
) -> (Pass<SharedBus>, SlaveSet, bool)
    requires of { pass.turn ≡ turn.now }
    requires between { IsBetween false 0 pass }
    requires fit { AllFitBus W32 part.ops.now }
    requires some { part.ops.now ≢ [] }
    requires most { length part.ops.now ≤ 510 }
    requires empty { answers.old.items ≡ [] }
    requires room { length part.ops.now ≤ vec_capacity answers.old }
    ensures same { IsSameMaster pass result.0 }
    ensures recorded { result.2 ≡ true
        → HasRecorded pass result.0 part.entry.ops.now answers.new.items part.entry.last }
    ensures between { result.2 ≡ true → IsBetween (not part.entry.last) result.1.0 result.0 }
    ensures refused { result.2 ≡ false → IsRefused pass result.0 }
    ensures idle { result.2 ≡ false → IsBetween false result.1.0 result.0 }
{
    let (pass, set, reached) = first_turn(rt, turn, pass, part, answers);
    match reached {
        Reached::Goes(stage) => {
            let way = Way { set, stage };
            let (pass, done) = turns_to_end(rt, turn, pass, way, part, answers);
            if !done {
                return (release_turn(rt, turn, pass, set, false), set, false);
            }
            (pass, set, true)
        }
        Reached::Taken => (pass, set, true),
        Reached::Refused => (pass, set, false),
    }
}

/// A later record of a cycle.
fn later_record<R: Wait>(
    rt: &R,
    turn: &Turn<SharedBus>,
    pass: Pass<SharedBus>,
    set: SlaveSet,
    part: Part,
    answers: &mut Vec<Answer>,
) -> (Pass<SharedBus>, bool)
    requires of { pass.turn ≡ turn.now }
    requires between { IsBetween true set.0 pass }
    requires fit { AllFitBus W32 part.ops.now }
    requires some { part.ops.now ≢ [] }
    requires most { length part.ops.now ≤ 510 }
    requires empty { answers.old.items ≡ [] }
    requires room { length part.ops.now ≤ vec_capacity answers.old }
    ensures same { IsSameMaster pass result.0 }
    ensures recorded { result.1 ≡ true
        → HasRecorded pass result.0 part.entry.ops.now answers.new.items part.entry.last }
    ensures between { result.1 ≡ true → IsBetween (not part.entry.last) set.0 result.0 }
    ensures refused { result.1 ≡ false → IsRefused pass result.0 }
    ensures goes_on { result.1 ≡ false → IsBetween true set.0 result.0 }
{
    let stage = Stage::Raised;
    turns_to_end(rt, turn, pass, Way { set, stage }, part, answers)
}

/// Ends a cycle by a record without operations.
fn last_record<R: Wait>(
    rt: &R,
    turn: &Turn<SharedBus>,
    pass: Pass<SharedBus>,
    set: SlaveSet,
) -> Pass<SharedBus>
    requires of { pass.turn ≡ turn.now }
    requires between { IsBetween true set.0 pass }
    ensures same { IsSameMaster pass result }
    ensures recorded { HasRecorded pass result [] [] true }
    ensures between { IsBetween false set.0 result }
{
    release_turn(rt, turn, pass, set, false)
}

/// A record: the first of a cycle where none is open, else a later one, or its last one without operations.
///
/// Gives the pass, the set that was raised, and whether the record ran. Where it did not, for want of memory, the
/// master's entries and its stake are as they were.
pub(crate) fn record_on<R: Wait>(
    rt: &R,
    turn: &Turn<SharedBus>,
    pass: Pass<SharedBus>,
    standing: Standing,
    part: Part,
    answers: &mut Vec<Answer>,
) -> (Pass<SharedBus>, SlaveSet, bool)
    requires of { pass.turn ≡ turn.now }
    requires between { IsBetween standing.is_open standing.set.0 pass }
    requires can { CanRecord W32 (stake_by pass).opened part.ops.now part.last }
    requires empty { answers.old.items ≡ [] }
    requires room { length part.ops.now ≤ vec_capacity answers.old }
    ensures same { IsSameMaster pass result.0 }
    ensures recorded { result.2 ≡ true
        → HasRecorded pass result.0 part.entry.ops.now answers.new.items part.entry.last }
    ensures between { result.2 ≡ true → IsBetween (not part.entry.last) result.1.0 result.0 }
    ensures refused { result.2 ≡ false → IsRefused pass result.0 }
    ensures goes_on { result.2 ≡ false → IsBetween standing.is_open result.1.0 result.0 }
{
    let set = standing.set;
    if !standing.is_open {
        first_record(rt, turn, pass, part, answers)
    } else if part.ops.is_empty() {
        (last_record(rt, turn, pass, set), set, true)
    } else {
        let (pass, done) = later_record(rt, turn, pass, set, part, answers);
        (pass, set, done)
    }
}

/// Cuts an open cycle.
pub(crate) fn cut_on<R: Wait>(
    rt: &R,
    turn: &Turn<SharedBus>,
    pass: Pass<SharedBus>,
    set: SlaveSet,
) -> Pass<SharedBus>
    requires of { pass.turn ≡ turn.now }
    requires between { IsBetween true set.0 pass }
    ensures same { IsSameMaster pass result }
    ensures cut { cycles_by result ≡ cycle_ended pass.number true (cycles_by pass) }
    ensures between { IsBetween false set.0 result }
{
    release_turn(rt, turn, pass, set, true)
}
