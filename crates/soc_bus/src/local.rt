//! One port of a bus as a master.
ghost use Rattle.std.specs.Prelude.{◌≡◌, ◌≢◌, ◌≤◌, ◌<◌, ◌^◌, ◌++◌, [], length, true, false, OnOk, OnErr, vec_capacity};
ghost use Rattle.eb_base.specs.declared.width.Width.TheVariants.{W32};
ghost use Rattle.wb_signals.specs.Cycles.{AllFitBus, CanRecord, paired, ended, made_after, opened_after, made_with};
ghost use Rattle.soc_core.specs.Fabric.{AllGoIn};
ghost use Rattle.soc_core.specs.Built.{fabric_of};
ghost use Rattle.soc_core.specs.Core.{port, pending};
ghost use Rattle.soc_bus.specs.Local.{AllIdle, IsOpen, IsReady, IsRecorded, IsLocal, MadeLegal, all_slaves};

use crate::bus::Bus;
use crate::recorder::BusRecorder;
use crate::waiting::run_all;
use eb_base::NoMemory;
use std::alloc::Global;
use std::snapshot::Snapshot;
use wb_signals::{Answer, Master, Op, SlaveSet};

/// Raises CYC of a port for a set, on a bus whose ports are idle, and is granted it.
fn open_cycle<R: BusRecorder>(bus: &mut Bus<R>, m: u8, set: SlaveSet) -> Result<(), NoMemory>
    requires within { m < bus.old.description.masters }
    requires below { set.0 < 2 ^ (fabric_of bus.old.description).slaves }
    requires idle { AllIdle bus.old.core }
    ensures is_open { OnOk result (IsOpen bus.new.core m set.0) }
    ensures none { OnOk result ((port bus.new.core m).opened ≡ []) }
    ensures journal { OnOk result (bus.new.core.journal ≡ bus.old.core.journal) }
    ensures err { OnErr result (bus.new.core ≡ bus.old.core) }
    ensures description { bus.new.description ≡ bus.old.description }
{
    let _ = bus.journal();
    bus.raise(m, set)?;
    bus.tick();
    Ok(())
}

/// Ends the open cycle, cut or not.
fn close_cycle<R: BusRecorder>(bus: &mut Bus<R>, m: u8, set: SlaveSet, cut: bool)
    requires within { m < bus.old.description.masters }
    requires is_open { IsOpen bus.old.core m set.0 }
    ensures idle { AllIdle bus.new.core }
    ensures none { (port bus.new.core m).opened ≡ [] }
    ensures journal { bus.new.core.journal ≡ made_with m cut bus.old.core.journal (port bus.old.core m).opened }
    ensures description { bus.new.description ≡ bus.old.description }
{
    let _ = set;
    let _ = bus.journal();
    bus.release(m, cut);
    bus.tick();
}

/// Copies the answers of a port that has all of them.
fn copy_answers<R: BusRecorder>(bus: &Bus<R>, m: u8, count: usize, answers: &mut Vec<Answer>)
    requires within { m < bus.now.description.masters }
    requires none_pending { pending (port bus.now.core m) ≡ 0 }
    requires count { count ≡ length (port bus.now.core m).loaded }
    requires same { length (port bus.now.core m).got ≡ count }
    requires empty { answers.old.items ≡ [] }
    requires room { count ≤ vec_capacity answers.old }
    ensures answers { answers.new.items ≡ (port bus.now.core m).got }
{
    for i in 0..count {
        answers.push_reserved(bus.answer(m, i));
    }
}

/// Runs operations in the open cycle.
fn run_in_cycle<R: BusRecorder>(
    bus: &mut Bus<R>,
    m: u8,
    set: SlaveSet,
    ops: &[Op],
    answers: &mut Vec<Answer>,
) -> Result<(), NoMemory>
    requires within { m < bus.old.description.masters }
    requires is_open { IsOpen bus.old.core m set.0 }
    requires go { AllGoIn (fabric_of bus.old.description) set.0 ops.now }
    requires fit { AllFitBus W32 ops.now }
    requires some { ops.now ≢ [] }
    requires most { length ops.now ≤ 510 }
    ensures is_open { OnOk result (IsOpen bus.new.core m set.0) }
    ensures opened { OnOk result
        ((port bus.new.core m).opened ≡ (port bus.old.core m).opened ++ paired ops.now answers.new.items) }
    ensures count { OnOk result (length answers.new.items ≡ length ops.now) }
    ensures journal { OnOk result (bus.new.core.journal ≡ bus.old.core.journal) }
    ensures err { OnErr result (bus.new.core ≡ bus.old.core) }
    ensures description { bus.new.description ≡ bus.old.description }
{
    let _ = set;
    let _ = bus.journal();
    answers.clear();
    answers.reserve(ops.len())?;
    bus.load(m, ops)?;
    run_all(bus, m);
    copy_answers(bus, m, ops.len(), answers);
    bus.take(m);
    Ok(())
}

/// Ends the open cycle with its last record.
fn end_if<R: BusRecorder>(bus: &mut Bus<R>, m: u8, set: SlaveSet, last: bool)
    requires within { m < bus.old.description.masters }
    requires is_open { IsOpen bus.old.core m set.0 }
    requires all { last ≡ false → set.0 ≡ all_slaves (fabric_of bus.old.description) }
    requires some { (port bus.old.core m).opened ≢ [] }
    ensures journal { bus.new.core.journal
        ≡ made_after m bus.old.core.journal (port bus.old.core m).opened last }
    ensures opened { (port bus.new.core m).opened ≡ opened_after (port bus.old.core m).opened last }
    ensures ready { IsReady (fabric_of bus.old.description) bus.new.core m }
    ensures description { bus.new.description ≡ bus.old.description }
{
    if last {
        close_cycle(bus, m, set, false);
    }
}

/// Runs the first record of a cycle.
fn first_record<R: BusRecorder>(
    bus: &mut Bus<R>,
    m: u8,
    ops: &[Op],
    last: bool,
    answers: &mut Vec<Answer>,
) -> Result<(), NoMemory>
    requires within { m < bus.old.description.masters }
    requires idle { AllIdle bus.old.core }
    requires none { (port bus.old.core m).opened ≡ [] }
    requires fit { AllFitBus W32 ops.now }
    requires some { ops.now ≢ [] }
    requires most { length ops.now ≤ 510 }
    ensures ok { OnOk result
        (IsRecorded (fabric_of bus.old.description) bus.old.core bus.new.core m ops.now answers.new.items last) }
    ensures err { OnErr result (AllIdle bus.new.core) }
    ensures err_opened { OnErr result ((port bus.new.core m).opened ≡ []) }
    ensures err_journal { OnErr result (bus.new.core.journal ≡ bus.old.core.journal) }
    ensures description { bus.new.description ≡ bus.old.description }
{
    let _ = bus.journal();
    let set = bus.set_of(ops, last);
    open_cycle(bus, m, set)?;
    match run_in_cycle(bus, m, set, ops, answers) {
        Ok(()) => {
            end_if(bus, m, set, last);
            Ok(())
        }
        Err(e) => {
            close_cycle(bus, m, set, false);
            Err(e)
        }
    }
}

/// Runs a later record of a cycle.
fn later_record<R: BusRecorder>(
    bus: &mut Bus<R>,
    m: u8,
    ops: &[Op],
    last: bool,
    answers: &mut Vec<Answer>,
) -> Result<(), NoMemory>
    requires within { m < bus.old.description.masters }
    requires is_open { IsOpen bus.old.core m (all_slaves (fabric_of bus.old.description)) }
    requires opened { (port bus.old.core m).opened ≢ [] }
    requires fit { AllFitBus W32 ops.now }
    requires some { ops.now ≢ [] }
    requires most { length ops.now ≤ 510 }
    ensures ok { OnOk result
        (IsRecorded (fabric_of bus.old.description) bus.old.core bus.new.core m ops.now answers.new.items last) }
    ensures err { OnErr result (bus.new.core ≡ bus.old.core) }
    ensures description { bus.new.description ≡ bus.old.description }
{
    let _ = bus.journal();
    let set = bus.all_slaves();
    run_in_cycle(bus, m, set, ops, answers)?;
    end_if(bus, m, set, last);
    Ok(())
}

/// Ends a cycle by a record without operations.
fn last_record<R: BusRecorder>(bus: &mut Bus<R>, m: u8, answers: &mut Vec<Answer>)
    requires within { m < bus.old.description.masters }
    requires is_open { IsOpen bus.old.core m (all_slaves (fabric_of bus.old.description)) }
    requires opened { (port bus.old.core m).opened ≢ [] }
    ensures recorded { IsRecorded (fabric_of bus.old.description)
        bus.old.core bus.new.core m [] answers.new.items true }
    ensures description { bus.new.description ≡ bus.old.description }
{
    answers.clear();
    let set = bus.all_slaves();
    end_if(bus, m, set, true);
}

/// Runs a record of an open cycle: a later one, or its last one without operations.
fn record_open<R: BusRecorder>(
    bus: &mut Bus<R>,
    m: u8,
    ops: &[Op],
    last: bool,
    answers: &mut Vec<Answer>,
) -> Result<(), NoMemory>
    requires within { m < bus.old.description.masters }
    requires is_open { IsOpen bus.old.core m (all_slaves (fabric_of bus.old.description)) }
    requires opened { (port bus.old.core m).opened ≢ [] }
    requires can { CanRecord W32 (port bus.old.core m).opened ops.now last }
    ensures ok { OnOk result
        (IsRecorded (fabric_of bus.old.description) bus.old.core bus.new.core m ops.now answers.new.items last) }
    ensures err { OnErr result (bus.new.core ≡ bus.old.core) }
    ensures description { bus.new.description ≡ bus.old.description }
{
    if ops.is_empty() {
        last_record(bus, m, answers);
        Ok(())
    } else {
        later_record(bus, m, ops, last, answers)
    }
}

/// Runs a record: the first of a cycle where none is open, else a later one, or its last one without operations.
fn record_on<R: BusRecorder>(
    bus: &mut Bus<R>,
    m: u8,
    ops: &[Op],
    last: bool,
    answers: &mut Vec<Answer>,
) -> Result<(), NoMemory>
    requires within { m < bus.old.description.masters }
    requires ready { IsReady (fabric_of bus.old.description) bus.old.core m }
    requires can { CanRecord W32 (port bus.old.core m).opened ops.now last }
    ensures ok { OnOk result
        (IsRecorded (fabric_of bus.old.description) bus.old.core bus.new.core m ops.now answers.new.items last) }
    ensures err { OnErr result (IsReady (fabric_of bus.old.description) bus.new.core m) }
    ensures err_opened { OnErr result ((port bus.new.core m).opened ≡ (port bus.old.core m).opened) }
    ensures err_journal { OnErr result (bus.new.core.journal ≡ bus.old.core.journal) }
    ensures description { bus.new.description ≡ bus.old.description }
{
    if bus.is_open(m) {
        record_open(bus, m, ops, last, answers)
    } else {
        first_record(bus, m, ops, last, answers)
    }
}

/// Cuts an open cycle.
fn cut_on<R: BusRecorder>(bus: &mut Bus<R>, m: u8)
    requires within { m < bus.old.description.masters }
    requires ready { IsReady (fabric_of bus.old.description) bus.old.core m }
    requires opened { (port bus.old.core m).opened ≢ [] }
    ensures journal { bus.new.core.journal ≡ ended m true bus.old.core.journal (port bus.old.core m).opened }
    ensures none { (port bus.new.core m).opened ≡ [] }
    ensures idle { AllIdle bus.new.core }
    ensures description { bus.new.description ≡ bus.old.description }
{
    let set = bus.all_slaves();
    close_cycle(bus, m, set, true);
}

/// One port of a bus whose other ports are idle, as a master.
#[derive(Drop)]
pub struct Local<'a, R: BusRecorder> {
    bus: &'a mut Bus<R>,
    m: u8,
    answers: Vec<Answer>,
    began: Snapshot<Bus<R>>,
    ghost local: { IsLocal began.value bus.now m },
}

impl<'a, R: BusRecorder> Local<'a, R> {
    /// The port with this number of a bus whose ports are idle. It takes no memory.
    pub fn new(alloc: Global, bus: &'a mut Bus<R>, m: u8) -> Local<'a, R>
        requires within { m < bus.old.description.masters }
        requires idle { AllIdle bus.old.core }
        ensures same_bus { result.bus.ghost_name ≡ bus.entry.ghost_name }
        ensures now { result.bus.now ≡ bus.old }
        ensures began { result.began.value ≡ bus.old }
        ensures number { result.m ≡ m }
    {
        let began = Snapshot::of(&*bus);
        let _ = bus.journal();
        Local {
            bus,
            m,
            answers: Vec::new(alloc),
            began,
        }
    }

    /// The entries that it has made are by themselves a legal history from what the places held when it began.
    pub fn entries_are_legal(&self)
        ensures legal { MadeLegal self.now.began.value self.now.bus.now }
    {
        let _ = self.bus.journal();
    }
}

impl<'a, R: BusRecorder> Master for Local<'a, R> {
    ghost use Rattle.eb_base.specs.declared.width.Width.TheVariants.{W32};
    ghost use Rattle.soc_bus.specs.Local.{LocalOrigin, cycles_since};

    ghost cycles = { λ p. cycles_since p.began.value p.bus.now p.m };

    ghost Kept = { LocalOrigin };

    ghost identity = { λ p.
        record {
          bus = W32;
          number = p.m;
          kept = record { began = p.began.value; description = p.bus.now.description };
        } };

    ghost answered = { λ p. p.answers.items };

    fn record(&mut self, _alloc: Global, ops: &[Op], last: bool) -> Result<(), NoMemory> {
        record_on(self.bus, self.m, ops, last, &mut self.answers)
    }

    fn answers(&self) -> usize {
        self.answers.len()
    }

    fn answer(&self, i: usize) -> Answer {
        self.answers[i]
    }

    fn cut(&mut self) {
        cut_on(self.bus, self.m);
    }

    fn is_open(&self) -> bool {
        self.bus.is_open(self.m)
    }
}
