//! The turns of a master: each takes the bus, does its part, and puts the bus back.
ghost use Rattle.std.specs.Prelude.{◌≡◌, ◌≢◌, ◌≤◌, ◌<◌, ◌++◌, [], length, true, false, vec_capacity, Some};
ghost use Rattle.eb_base.specs.declared.width.Width.TheVariants.{W32};
ghost use Rattle.wb_signals.specs.Cycles.{AllFitBus, paired, made_with};
ghost use Rattle.soc_core.specs.Built.{fabric_of, set_of_cycle};
ghost use Rattle.soc_core.specs.Core.{};
ghost use Rattle.eb_shared.specs.Shared.{no_stake, cycle_stake, stake_on, stake_after, journal_after, CameTo, IfGoes, IsSetFor, made_by, stake_by, IsSameMaster};

use crate::steps::{Part, Reached, SharedBus, Way, go_on, open_cycle, release};
use soc_turn::{Pass, Turn};
use std::sync::Wait;
use wb_signals::{Answer, SlaveSet};

/// The first turn of a cycle: raises CYC for the set of a cycle with this opening record, and goes on with the record
/// as far as it comes. Where memory is refused, CYC is down.
pub(crate) fn first_turn<R: Wait>(
    rt: &R,
    turn: &Turn<SharedBus>,
    pass: Pass<SharedBus>,
    part: Part,
    answers: &mut Vec<Answer>,
) -> (Pass<SharedBus>, SlaveSet, Reached)
    requires of { pass.turn ≡ turn.now }
    requires within { pass.number < pass.last.description.masters }
    requires none { stake_by pass ≡ no_stake }
    requires fit { AllFitBus W32 part.ops.now }
    requires some { part.ops.now ≢ [] }
    requires most { length part.ops.now ≤ 510 }
    requires empty { answers.old.items ≡ [] }
    requires room { length part.ops.now ≤ vec_capacity answers.old }
    ensures same { IsSameMaster pass result.0 }
    ensures set { result.1.0
        ≡ set_of_cycle (fabric_of pass.last.description) part.entry.ops.now part.entry.last }
    ensures came { CameTo result.2 pass.number result.1.0 part.entry.ops.now part.entry.last [] (made_by pass) no_stake
        (stake_by result.0) (made_by result.0) answers.new.items }
    ensures kept { IfGoes result.2 (answers.new ≡ answers.old) }
{
    let m = pass.number();
    let (held, mut bus) = turn.take(rt, pass);
    let _ = bus.journal();
    let set = bus.set_of(part.ops, part.last);
    let reached = open_cycle(&mut bus, m, set, part, answers);
    (turn.put(held, bus), set, reached)
}

/// A later turn of a record, which goes on with it as far as it comes.
fn next_turn<R: Wait>(
    rt: &R,
    turn: &Turn<SharedBus>,
    pass: Pass<SharedBus>,
    way: Way,
    part: Part,
    answers: &mut Vec<Answer>,
) -> (Pass<SharedBus>, Reached)
    requires of { pass.turn ≡ turn.now }
    requires within { pass.number < pass.last.description.masters }
    requires stage { stake_by pass ≡ stake_on way.stage way.set.0 (stake_by pass).opened part.ops.now }
    requires set { IsSetFor (fabric_of pass.last.description) way.set.0 part.ops.now }
    requires fit { AllFitBus W32 part.ops.now }
    requires some { part.ops.now ≢ [] }
    requires most { length part.ops.now ≤ 510 }
    requires empty { answers.old.items ≡ [] }
    requires room { length part.ops.now ≤ vec_capacity answers.old }
    ensures same { IsSameMaster pass result.0 }
    ensures came { CameTo result.1 pass.number way.set.0 part.entry.ops.now part.entry.last (stake_by pass).opened
        (made_by pass) (cycle_stake way.set.0 (stake_by pass).opened [])
        (stake_by result.0) (made_by result.0) answers.new.items }
    ensures kept { IfGoes result.1 (answers.new ≡ answers.old) }
{
    let m = pass.number();
    let (held, mut bus) = turn.take(rt, pass);
    let _ = bus.journal();
    let reached = go_on(&mut bus, m, way, part, answers);
    (turn.put(held, bus), reached)
}

/// One turn: releases CYC.
pub(crate) fn release_turn<R: Wait>(
    rt: &R,
    turn: &Turn<SharedBus>,
    pass: Pass<SharedBus>,
    set: SlaveSet,
    cut: bool,
) -> Pass<SharedBus>
    requires of { pass.turn ≡ turn.now }
    requires within { pass.number < pass.last.description.masters }
    requires raised { (stake_by pass).raised ≡ Some set.0 }
    requires nothing { (stake_by pass).loaded ≡ [] }
    ensures same { IsSameMaster pass result }
    ensures stake { stake_by result ≡ no_stake }
    ensures made { made_by result ≡ made_with pass.number cut (made_by pass) (stake_by pass).opened }
{
    let m = pass.number();
    let (held, mut bus) = turn.take(rt, pass);
    release(&mut bus, m, set, cut);
    turn.put(held, bus)
}

/// Turns until the answers to a record's operations are taken, or the operations were refused for want of memory.
pub(crate) fn turns_to_end<R: Wait>(
    rt: &R,
    turn: &Turn<SharedBus>,
    pass: Pass<SharedBus>,
    way: Way,
    part: Part,
    answers: &mut Vec<Answer>,
) -> (Pass<SharedBus>, bool)
    requires of { pass.turn ≡ turn.now }
    requires within { pass.number < pass.last.description.masters }
    requires stage { stake_by pass ≡ stake_on way.stage way.set.0 (stake_by pass).opened part.ops.now }
    requires set { IsSetFor (fabric_of pass.last.description) way.set.0 part.ops.now }
    requires fit { AllFitBus W32 part.ops.now }
    requires some { part.ops.now ≢ [] }
    requires most { length part.ops.now ≤ 510 }
    requires empty { answers.old.items ≡ [] }
    requires room { length part.ops.now ≤ vec_capacity answers.old }
    ensures same { IsSameMaster pass result.0 }
    ensures count { result.1 ≡ true → length answers.new.items ≡ length part.entry.ops.now }
    ensures stake { result.1 ≡ true → stake_by result.0
        ≡ stake_after way.set.0
        ((stake_by pass).opened ++ paired part.entry.ops.now answers.new.items) part.entry.last }
    ensures made { result.1 ≡ true → made_by result.0
        ≡ journal_after pass.number (made_by pass)
        ((stake_by pass).opened ++ paired part.entry.ops.now answers.new.items) part.entry.last }
    ensures refused { result.1 ≡ false
        → stake_by result.0 ≡ cycle_stake way.set.0 (stake_by pass).opened [] }
    ensures same_made { result.1 ≡ false → made_by result.0 ≡ made_by pass }
{
    let mut pass = pass;
    let mut way = way;
    for _ in rt.forever() {
        let (next, reached) = next_turn(rt, turn, pass, way, part, answers);
        pass = next;
        match reached {
            Reached::Goes(stage) => way.stage = stage,
            Reached::Taken => return (pass, true),
            Reached::Refused => return (pass, false),
        }
    }
    unreachable!()
}
