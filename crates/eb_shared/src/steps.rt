//! What a master does to the bus in one turn: at most one load and eight ticks.
ghost use Rattle.std.specs.Prelude.{◌≡◌, ◌≢◌, ◌≤◌, ◌<◌, ◌^◌, ◌++◌, [], length, true, false, vec_capacity, None, Some, IsSome};
ghost use Rattle.eb_base.specs.declared.width.Width.TheVariants.{W32};
ghost use Rattle.wb_signals.specs.Cycles.{AllFitBus, paired, made_with};
ghost use Rattle.soc_core.specs.Fabric.{AllGoIn};
ghost use Rattle.soc_core.specs.Built.{fabric_of};
ghost use Rattle.soc_core.specs.Core.{Idle, port, pending, is_granted, stake};
ghost use Rattle.soc_bus.specs.Ledger.{AddsOwn, KeepsLedger};
ghost use Rattle.eb_shared.specs.Shared.{no_stake, cycle_stake, stake_after, journal_after, stake_on, CameTo, IfGoes};

use soc_bus::Bus;
use soc_journal::Journal;
use wb_signals::{Answer, Op, SlaveSet};

/// The bus that masters share, with its journal.
pub type SharedBus = Bus<Journal>;

/// The most ticks in one turn.
const TICKS: u8 = 8;

/// What a record asks for: operations, and whether the cycle ends with them.
#[derive(Clone, Copy)]
pub(crate) struct Part<'a> {
    pub(crate) ops: &'a [Op],
    pub(crate) last: bool,
}

/// Where a record stands between two turns.
#[derive(Clone, Copy)]
pub enum Stage {
    /// CYC is raised.
    Raised,
    /// Its operations are loaded.
    Loaded,
}

/// What a turn of a record came to.
#[derive(Clone, Copy)]
pub enum Reached {
    /// It goes on in another turn.
    Goes(Stage),
    /// Its answers are taken, and the cycle has ended if it was the last.
    Taken,
    /// There was no memory for its operations.
    Refused,
}

/// A record that goes on: the set of its cycle, and where it stands.
#[derive(Clone, Copy)]
pub(crate) struct Way {
    pub(crate) set: SlaveSet,
    pub(crate) stage: Stage,
}

/// A port without a set is idle, after a tick where it has just released its set.
fn make_idle(bus: &mut SharedBus, m: u8)
    requires within { m < bus.old.description.masters }
    requires none { (stake bus.old.core m).raised ≡ None }
    ensures idle { (port bus.new.core m).phase ≡ Idle }
    ensures keeps { KeepsLedger bus.old bus.new }
    ensures description { bus.new.description ≡ bus.old.description }
{
    let _ = bus.journal();
    if !bus.idle(m) {
        bus.tick();
    }
}

/// Raises CYC for a set.
fn raise(bus: &mut SharedBus, m: u8, set: SlaveSet) -> bool
    requires within { m < bus.old.description.masters }
    requires below { set.0 < 2 ^ (fabric_of bus.old.description).slaves }
    requires none { stake bus.old.core m ≡ no_stake }
    ensures adds { AddsOwn m bus.old bus.new }
    ensures raised { result ≡ true → stake bus.new.core m ≡ cycle_stake set.0 [] [] }
    ensures refused { result ≡ false → stake bus.new.core m ≡ no_stake }
    ensures journal { bus.new.core.journal ≡ bus.old.core.journal }
    ensures description { bus.new.description ≡ bus.old.description }
{
    make_idle(bus, m);
    let _ = bus.journal();
    bus.raise(m, set).is_ok()
}

/// Ticks until the port is granted, and tells how many of the ticks are left then; or makes them all.
fn run_to_grant(bus: &mut SharedBus, m: u8, ticks: u8) -> Option<u8>
    requires within { m < bus.old.description.masters }
    ensures granted { IsSome result → is_granted (port bus.new.core m).phase ≡ true }
    ensures keeps { KeepsLedger bus.old bus.new }
    ensures description { bus.new.description ≡ bus.old.description }
{
    for used in 0..ticks {
        if bus.granted(m) {
            return Some(ticks - used);
        }
        bus.tick();
    }
    if bus.granted(m) { Some(0) } else { None }
}

/// Ticks until the port has all its answers, or makes all the ticks.
fn run_to_answers(bus: &mut SharedBus, m: u8, ticks: u8) -> bool
    requires within { m < bus.old.description.masters }
    ensures none_pending { result ≡ true → pending (port bus.new.core m) ≡ 0 }
    ensures keeps { KeepsLedger bus.old bus.new }
    ensures description { bus.new.description ≡ bus.old.description }
{
    for _ in 0..ticks {
        if bus.pending(m) == 0 {
            return true;
        }
        bus.tick();
    }
    bus.pending(m) == 0
}

/// Loads operations at a port that is granted.
fn load(bus: &mut SharedBus, m: u8, set: SlaveSet, ops: &[Op]) -> bool
    requires within { m < bus.old.description.masters }
    requires granted { is_granted (port bus.old.core m).phase ≡ true }
    requires raised { stake bus.old.core m ≡ cycle_stake set.0 (stake bus.old.core m).opened [] }
    requires go { AllGoIn (fabric_of bus.old.description) set.0 ops.now }
    requires fit { AllFitBus W32 ops.now }
    requires some { ops.now ≢ [] }
    requires most { length ops.now ≤ 510 }
    ensures adds { AddsOwn m bus.old bus.new }
    ensures loaded { result ≡ true
        → stake bus.new.core m ≡ cycle_stake set.0 (stake bus.old.core m).opened ops.now }
    ensures refused { result ≡ false → stake bus.new.core m ≡ stake bus.old.core m }
    ensures journal { bus.new.core.journal ≡ bus.old.core.journal }
    ensures description { bus.new.description ≡ bus.old.description }
{
    let _ = set;
    let _ = bus.journal();
    bus.load(m, ops).is_ok()
}

/// Copies the answers of a port that has all of them.
fn copy_answers(bus: &SharedBus, m: u8, count: usize, answers: &mut Vec<Answer>)
    requires within { m < bus.now.description.masters }
    requires none_pending { pending (port bus.now.core m) ≡ 0 }
    requires count { count ≡ length (port bus.now.core m).loaded }
    requires same { length (port bus.now.core m).got ≡ count }
    requires empty { answers.old.items ≡ [] }
    requires room { count ≤ vec_capacity answers.old }
    ensures answers { answers.new.items ≡ (port bus.now.core m).got }
{
    for i in 0..count {
        answers.push_reserved(bus.answer(m, i));
    }
}

/// Releases CYC.
pub(crate) fn release(bus: &mut SharedBus, m: u8, set: SlaveSet, cut: bool)
    requires within { m < bus.old.description.masters }
    requires raised { (stake bus.old.core m).raised ≡ Some set.0 }
    requires nothing { (stake bus.old.core m).loaded ≡ [] }
    ensures adds { AddsOwn m bus.old bus.new }
    ensures none { stake bus.new.core m ≡ no_stake }
    ensures journal { bus.new.core.journal
        ≡ made_with m cut bus.old.core.journal (stake bus.old.core m).opened }
    ensures description { bus.new.description ≡ bus.old.description }
{
    let _ = set;
    let _ = bus.journal();
    bus.release(m, cut);
}

fn release_if(bus: &mut SharedBus, m: u8, set: SlaveSet, last: bool)
    requires within { m < bus.old.description.masters }
    requires raised { (stake bus.old.core m).raised ≡ Some set.0 }
    requires nothing { (stake bus.old.core m).loaded ≡ [] }
    ensures adds { AddsOwn m bus.old bus.new }
    ensures stake { stake bus.new.core m ≡ stake_after set.0 (stake bus.old.core m).opened last }
    ensures journal { bus.new.core.journal
        ≡ journal_after m bus.old.core.journal (stake bus.old.core m).opened last }
    ensures description { bus.new.description ≡ bus.old.description }
{
    if last {
        release(bus, m, set, false);
    }
}

/// Takes the answers of a port that has all of them, and ends the cycle with its last record.
fn finish(bus: &mut SharedBus, m: u8, set: SlaveSet, part: Part, answers: &mut Vec<Answer>)
    requires within { m < bus.old.description.masters }
    requires raised { (stake bus.old.core m).raised ≡ Some set.0 }
    requires loaded { (stake bus.old.core m).loaded ≡ part.ops.now }
    requires none_pending { pending (port bus.old.core m) ≡ 0 }
    requires empty { answers.old.items ≡ [] }
    requires room { length part.ops.now ≤ vec_capacity answers.old }
    ensures adds { AddsOwn m bus.old bus.new }
    ensures count { length answers.new.items ≡ length part.entry.ops.now }
    ensures stake { stake bus.new.core m
        ≡ stake_after set.0 ((stake bus.old.core m).opened ++ paired part.entry.ops.now answers.new.items)
        part.entry.last }
    ensures journal { bus.new.core.journal
        ≡ journal_after m bus.old.core.journal
        ((stake bus.old.core m).opened ++ paired part.entry.ops.now answers.new.items) part.entry.last }
    ensures description { bus.new.description ≡ bus.old.description }
{
    let _ = bus.journal();
    copy_answers(bus, m, part.ops.len(), answers);
    bus.take(m);
    release_if(bus, m, set, part.last);
}

/// Takes the answers once the port has all of them, and ends the cycle with its last record.
fn collect(
    bus: &mut SharedBus,
    m: u8,
    set: SlaveSet,
    part: Part,
    answers: &mut Vec<Answer>,
    ticks: u8,
) -> Reached
    requires within { m < bus.old.description.masters }
    requires loaded { stake bus.old.core m
        ≡ cycle_stake set.0 (stake bus.old.core m).opened part.ops.now }
    requires empty { answers.old.items ≡ [] }
    requires room { length part.ops.now ≤ vec_capacity answers.old }
    ensures adds { AddsOwn m bus.old bus.new }
    ensures came { CameTo result m set.0 part.entry.ops.now part.entry.last (stake bus.old.core m).opened
        bus.old.core.journal (cycle_stake set.0 (stake bus.old.core m).opened [])
        (stake bus.new.core m) bus.new.core.journal answers.new.items }
    ensures kept { IfGoes result (answers.new ≡ answers.old) }
    ensures description { bus.new.description ≡ bus.old.description }
{
    if !run_to_answers(bus, m, ticks) {
        return Reached::Goes(Stage::Loaded);
    }
    finish(bus, m, set, part, answers);
    Reached::Taken
}

/// Goes on with a record whose CYC is raised: loads its operations once the port is granted, and takes their answers
/// once all are there.
fn advance(
    bus: &mut SharedBus,
    m: u8,
    set: SlaveSet,
    part: Part,
    answers: &mut Vec<Answer>,
    ticks: u8,
) -> Reached
    requires within { m < bus.old.description.masters }
    requires raised { stake bus.old.core m ≡ cycle_stake set.0 (stake bus.old.core m).opened [] }
    requires go { AllGoIn (fabric_of bus.old.description) set.0 part.ops.now }
    requires fit { AllFitBus W32 part.ops.now }
    requires some { part.ops.now ≢ [] }
    requires most { length part.ops.now ≤ 510 }
    requires empty { answers.old.items ≡ [] }
    requires room { length part.ops.now ≤ vec_capacity answers.old }
    ensures adds { AddsOwn m bus.old bus.new }
    ensures came { CameTo result m set.0 part.entry.ops.now part.entry.last (stake bus.old.core m).opened
        bus.old.core.journal (cycle_stake set.0 (stake bus.old.core m).opened [])
        (stake bus.new.core m) bus.new.core.journal answers.new.items }
    ensures kept { IfGoes result (answers.new ≡ answers.old) }
    ensures description { bus.new.description ≡ bus.old.description }
{
    let Some(left) = run_to_grant(bus, m, ticks) else {
        return Reached::Goes(Stage::Raised);
    };
    if !load(bus, m, set, part.ops) {
        return Reached::Refused;
    }
    collect(bus, m, set, part, answers, left)
}

/// The first turn of a cycle: raises CYC, and goes on with its opening record. Where memory is refused, CYC is down.
pub(crate) fn open_cycle(
    bus: &mut SharedBus,
    m: u8,
    set: SlaveSet,
    part: Part,
    answers: &mut Vec<Answer>,
) -> Reached
    requires within { m < bus.old.description.masters }
    requires below { set.0 < 2 ^ (fabric_of bus.old.description).slaves }
    requires none { stake bus.old.core m ≡ no_stake }
    requires go { AllGoIn (fabric_of bus.old.description) set.0 part.ops.now }
    requires fit { AllFitBus W32 part.ops.now }
    requires some { part.ops.now ≢ [] }
    requires most { length part.ops.now ≤ 510 }
    requires empty { answers.old.items ≡ [] }
    requires room { length part.ops.now ≤ vec_capacity answers.old }
    ensures adds { AddsOwn m bus.old bus.new }
    ensures came { CameTo result m set.0 part.entry.ops.now part.entry.last [] bus.old.core.journal no_stake
        (stake bus.new.core m) bus.new.core.journal answers.new.items }
    ensures kept { IfGoes result (answers.new ≡ answers.old) }
    ensures description { bus.new.description ≡ bus.old.description }
{
    if !raise(bus, m, set) {
        return Reached::Refused;
    }
    match advance(bus, m, set, part, answers, TICKS - 1) {
        Reached::Goes(stage) => Reached::Goes(stage),
        Reached::Taken => Reached::Taken,
        Reached::Refused => {
            release(bus, m, set, false);
            Reached::Refused
        }
    }
}

/// A later turn of a record.
pub(crate) fn go_on(
    bus: &mut SharedBus,
    m: u8,
    way: Way,
    part: Part,
    answers: &mut Vec<Answer>,
) -> Reached
    requires within { m < bus.old.description.masters }
    requires stage { stake bus.old.core m
        ≡ stake_on way.stage way.set.0 (stake bus.old.core m).opened part.ops.now }
    requires go { AllGoIn (fabric_of bus.old.description) way.set.0 part.ops.now }
    requires fit { AllFitBus W32 part.ops.now }
    requires some { part.ops.now ≢ [] }
    requires most { length part.ops.now ≤ 510 }
    requires empty { answers.old.items ≡ [] }
    requires room { length part.ops.now ≤ vec_capacity answers.old }
    ensures adds { AddsOwn m bus.old bus.new }
    ensures came { CameTo result m way.set.0 part.entry.ops.now part.entry.last (stake bus.old.core m).opened
        bus.old.core.journal (cycle_stake way.set.0 (stake bus.old.core m).opened [])
        (stake bus.new.core m) bus.new.core.journal answers.new.items }
    ensures kept { IfGoes result (answers.new ≡ answers.old) }
    ensures description { bus.new.description ≡ bus.old.description }
{
    match way.stage {
        Stage::Raised => advance(bus, m, way.set, part, answers, TICKS),
        Stage::Loaded => collect(bus, m, way.set, part, answers, TICKS),
    }
}
