//! Cycles that are counted as they end.
ghost use Rattle.std.specs.Prelude.{◌≡◌, ◌∷◌, [], if◌then◌else◌, length};
ghost use Rattle.eb_load.specs.Summary.{is_refusal, word_in, totals, joined, operations, capped};

use eb_base::NoMemory;
use soc_journal::Pair;
use soc_trail::Recorder;
use wb_signals::Answer;

// What is counted of operations.
#[derive(Clone, Copy)]
pub(crate) struct Totals {
    pub writes: u64,
    pub reads: u64,
    pub errors: u64,
    pub sum: u64,
}

const NOTHING: Totals = Totals {
    writes: 0,
    reads: 0,
    errors: 0,
    sum: 0,
};

// How many refusals an answer is: one or none.
fn refusals(answer: Answer) -> u64
    ensures value { result ≡ (if is_refusal answer then 1 else 0) }
{
    match answer {
        Answer::Ack(_) => 0,
        Answer::Err => 1,
        Answer::Rty => 1,
    }
}

fn word_in(answer: Answer) -> u64
    ensures value { result ≡ word_in answer }
{
    match answer {
        Answer::Ack(word) => word,
        Answer::Err => 0,
        Answer::Rty => 0,
    }
}

#[inline(always)]
fn joined(a: Totals, b: Totals) -> Totals
    ensures value { result ≡ joined a b }
{
    Totals {
        writes: a.writes.saturating_add(b.writes),
        reads: a.reads.saturating_add(b.reads),
        errors: a.errors.saturating_add(b.errors),
        sum: a.sum.wrapping_add(b.sum),
    }
}

// The totals with those of a pair more, in code for each of the two.
#[inline(always)]
fn with_pair(all: Totals, pair: &Pair) -> Totals
    ensures value { result ≡ joined all (totals (pair.now ∷ [])) }
{
    let errors = refusals(pair.answer);
    if pair.op.write {
        let one = Totals {
            writes: 1,
            errors,
            ..NOTHING
        };
        joined(all, one)
    } else {
        let one = Totals {
            reads: 1,
            errors,
            sum: word_in(pair.answer),
            ..NOTHING
        };
        joined(all, one)
    }
}

/// A recorder that counts beside another one: its cycles, and their operations.
#[derive(Drop)]
pub struct Counted<R: Recorder> {
    recorder: R,
    cycles: u64,
    ended: Totals,
    opened: Totals,
    ghost of_cycles: { cycles ≡ capped (length (R.made recorder)) },
    ghost of_ended: { ended ≡ totals (operations (R.made recorder)) },
    ghost of_opened: { opened ≡ totals (R.opened recorder) },
}

impl<R: Recorder> Counted<R> {
    /// Counts what the recorder gets, which has nothing yet.
    pub fn new(recorder: R) -> Counted<R>
        requires made { R.made recorder ≡ [] }
        requires opened { R.opened recorder ≡ [] }
        ensures made { R.made result.recorder ≡ [] }
        ensures opened { R.opened result.recorder ≡ [] }
    {
        Counted {
            recorder,
            cycles: 0,
            ended: NOTHING,
            opened: NOTHING,
        }
    }

    // How many cycles ended.
    pub(crate) fn cycles(&self) -> u64
        ensures value { result ≡ capped (length (R.made self.now.recorder)) }
    {
        self.cycles
    }

    // What is counted of the operations of the cycles that ended.
    pub(crate) fn ended(&self) -> Totals
        ensures value { result ≡ totals (operations (R.made self.now.recorder)) }
    {
        self.ended
    }
}

impl<R: Recorder> Recorder for Counted<R> {
    ghost made = { λ c. R.made c.recorder };

    ghost opened = { λ c. R.opened c.recorder };

    ghost room = { λ c. R.room c.recorder };

    ghost spare = { λ c. R.spare c.recorder };

    fn reserve(&mut self, count: usize) -> Result<(), NoMemory> {
        self.recorder.reserve(count)
    }

    #[tactic(auto, using(crate::proofs::SummaryLemmas::pair_added))]
    fn add(&mut self, pair: Pair) {
        self.opened = with_pair(self.opened, &pair);
        self.recorder.add(pair);
    }

    fn end(&mut self, number: u8, cut: bool) {
        self.cycles = self.cycles.saturating_add(1);
        self.ended = joined(self.ended, self.opened);
        self.opened = NOTHING;
        self.recorder.end(number, cut);
    }

    fn is_open(&self) -> bool {
        self.recorder.is_open()
    }
}
