//! A master over a machine of its own.
ghost use Rattle.std.specs.Prelude.{◌≡◌, ◌≢◌, ◌≤◌, ◌+◌, ◌++◌, [], length, OnOk, vec_capacity};
ghost use Rattle.wb_signals.specs.Cycles.{AllFitBus, ended, made_after, opened_after};
ghost use Rattle.wb_signals.specs.History.{IsLegal, answers_of, contents_after, cycle};
ghost use Rattle.soc_machine.specs.Machine.{machine_width, wiring_of};
ghost use Rattle.soc_machine.specs.Plain.{IsPlain, new_plain};

use crate::machine::Machine;
use eb_base::NoMemory;
use soc_journal::Pair;
use soc_trail::Recorder;
use std::alloc::Global;
use std::marker::Model;
use std::snapshot::Snapshot;
use wb_signals::{Answer, Master, Op};

/// A master over a machine of its own, on which every cycle runs at once. Its recorder has what becomes of the cycles.
#[derive(Drop)]
pub struct PlainMaster<R: Recorder> {
    machine: Machine,
    number: u8,
    recorder: R,
    answers: Vec<Answer>,
    began: Snapshot<Machine>,
}

impl<R: Recorder> Model for PlainMaster<R> {
    ghost use Rattle.std.specs.Prelude.{◌≢◌, ◌≤◌, []};
    ghost use Rattle.soc_machine.specs.Plain.{PlainState, IsPlain, plain};
    ghost use Rattle.std.specs.Coded.{codes};
    ghost use Rattle.soc_desc.specs.contracts.description.ItemDescription as item;

    ghost Value = { PlainState };

    ghost coded = { Prim.hlevel (codes, item.the_row.coded) };

    ghost view = { λ p.
        plain p.began.value p.machine p.number (R.made p.recorder) (R.opened p.recorder) p.answers.items };

    ghost invariant = { λ p.
        IsPlain (plain p.began.value p.machine p.number (R.made p.recorder) (R.opened p.recorder) p.answers.items)
        × (R.opened p.recorder ≢ [] → 1 ≤ R.spare p.recorder) };
}

impl<R: Recorder> PlainMaster<R> {
    /// A master of this number that has made no entry on the machine.
    pub fn new(alloc: Global, recorder: R, machine: Machine, number: u8) -> PlainMaster<R>
        requires made { R.made recorder ≡ [] }
        requires opened { R.opened recorder ≡ [] }
        ensures master { result ≡ new_plain machine number }
    {
        let began = Snapshot::of(&machine);
        PlainMaster {
            machine,
            number,
            recorder,
            answers: Vec::new(alloc),
            began,
        }
    }

    /// The recorder with the entries. They are by themselves a legal history from the state that the machine had when
    /// it was given.
    pub fn recorder(&self) -> &R
        ensures entries { R.made result.now ≡ self.now.made }
        ensures legal { IsLegal (wiring_of self.now.began) self.now.began.contents self.now.made }
        ensures plain { IsPlain self.now }
    {
        &self.recorder
    }
}

impl<R: Recorder> Master for PlainMaster<R> {
    ghost use Rattle.soc_machine.specs.Machine.{MachineState, machine_width};

    ghost cycles = { λ p. record { made = p.made; opened = p.opened } };

    ghost Kept = { MachineState };

    ghost identity = { λ p. record { bus = machine_width p.began; number = p.number; kept = p.began } };

    ghost answered = { λ p. p.answered };

    fn record(&mut self, _alloc: Global, ops: &[Op], last: bool) -> Result<(), NoMemory> {
        make_room(&mut self.recorder, &mut self.answers, ops.len())?;
        run(
            &mut self.machine,
            ops,
            &mut self.recorder,
            &mut self.answers,
        );
        end_if(last, self.number, &mut self.recorder);
        Ok(())
    }

    fn answers(&self) -> usize {
        self.answers.len()
    }

    fn answer(&self, i: usize) -> Answer {
        self.answers[i]
    }

    fn cut(&mut self) {
        self.recorder.end(self.number, true);
    }

    fn is_open(&self) -> bool {
        self.recorder.is_open()
    }
}

/// Makes room for so many more pairs and their entry, and for so many answers in place of those that are there.
fn make_room<R: Recorder>(
    recorder: &mut R,
    answers: &mut Vec<Answer>,
    count: usize,
) -> Result<(), NoMemory>
    ensures made { R.made recorder.new ≡ R.made recorder.old }
    ensures opened { R.opened recorder.new ≡ R.opened recorder.old }
    ensures answers { answers.new.items ≡ answers.old.items }
    ensures kept { R.spare recorder.old ≤ R.spare recorder.new }
    ensures room { OnOk result (count ≤ R.room recorder.new) }
    ensures spare { OnOk result (1 ≤ R.spare recorder.new) }
    ensures answers_room { OnOk result (count ≤ vec_capacity answers.new) }
{
    recorder.reserve(count)?;
    answers.reserve(count.saturating_sub(answers.len()))?;
    Ok(())
}

/// Runs operations one after the other. Each is added to the open cycle with its answer, and the answers are those to
/// them.
fn run<R: Recorder>(machine: &mut Machine, ops: &[Op], recorder: &mut R, answers: &mut Vec<Answer>)
    requires fit { AllFitBus (machine_width machine.old) ops.now }
    requires room { length ops.now ≤ R.room recorder.old }
    requires answers_room { length ops.now ≤ vec_capacity answers.old }
    ensures contents { machine.new.contents ≡ contents_after (wiring_of machine.old) machine.old.contents ops.now }
    ensures plan { machine.new.plan ≡ machine.old.plan }
    ensures made { R.made recorder.new ≡ R.made recorder.old }
    ensures pairs { R.opened recorder.new
        ≡ R.opened recorder.old ++ cycle (wiring_of machine.old) machine.old.contents ops.now }
    ensures spare { R.spare recorder.new ≡ R.spare recorder.old }
    ensures answers { answers.new.items ≡ answers_of (cycle (wiring_of machine.old) machine.old.contents ops.now) }
{
    answers.clear();
    for op in ops {
        let answer = machine.op(op);
        recorder.add(Pair { op: *op, answer });
        answers.push_reserved(answer);
    }
}

/// Ends the open cycle as a whole one with its last record.
fn end_if<R: Recorder>(last: bool, number: u8, recorder: &mut R)
    requires spare { 1 ≤ R.spare recorder.old }
    ensures made { R.made recorder.new ≡ made_after number (R.made recorder.old) (R.opened recorder.old) last }
    ensures opened { R.opened recorder.new ≡ opened_after (R.opened recorder.old) last }
    ensures spare { R.opened recorder.new ≢ [] → 1 ≤ R.spare recorder.new }
{
    if last {
        recorder.end(number, false);
    }
}
