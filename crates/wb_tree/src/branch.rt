//! The inside of a bus.
ghost use Rattle.std.specs.Prelude.{◌≡◌, ◌<◌, true, false, map, length, IfOk};
ghost use Rattle.std.specs.Option.{ForSome};
ghost use Rattle.wb_signals.specs.Slave.{given, ticked, is_stalled, owes};
ghost use Rattle.wb_signals.specs.Parts.{child_at, child_of, part_at, AllFitIn, AllQuiet};
ghost use Rattle.wb_signals.specs.Turn.{aim_of, goes, top_if};
ghost use Rattle.wb_tree.specs.Tree.{branch_slave, part_slave, IsSoundBranch, AllSound, IsNew, Keeps, branch_parts, branch_debtor, branch_children};

use crate::Part;
use circular_buffer::HeapCircularBuffer;
use eb_base::{NoMemory, Width};
use std::alloc::Global;
use wb_signals::{Answer, Debtor, Op};

/// The inside of a bus.
#[cycle(tree)]
#[derive(Drop)]
pub struct Branch {
    width: Width,
    parts: Vec<Part>,
    pub(crate) debtor: Debtor,
    pub(crate) uppers: HeapCircularBuffer<bool>, // of the answers owed behind a port of 64 data bits
}

impl Branch {
    /// A bus of this width with these children, which owe nothing, and room to keep the halves of so many answers.
    pub(crate) fn new(
        alloc: Global,
        parts: Vec<Part>,
        width: Width,
        room: usize,
    ) -> Result<Branch, NoMemory>
        requires sound { AllSound parts.items }
        requires fits { AllFitIn width (map part_slave parts.items) }
        requires quiet { AllQuiet (map part_slave parts.items) }
        ensures new { IfOk result (IsNew width (map part_slave parts.items) room) }
        ensures sound { IfOk result IsSoundBranch }
    {
        let uppers = HeapCircularBuffer::with_capacity(alloc, room)?;
        Ok(Branch {
            width,
            parts,
            debtor: Debtor::Nobody,
            uppers,
        })
    }

    #[cycle(stalled)]
    pub(crate) fn stalled(&self, op: &Op) -> bool
        requires sound { IsSoundBranch self.now }
        requires taken { (branch_slave self.now).wiring.accepts op.now ≡ true }
        ensures stalled { result ≡ is_stalled (branch_slave self.now).wiring (branch_slave self.now).owed op.now }
    {
        let to = find(&self.parts, op.adr);
        match self.debtor {
            Debtor::Nobody => false,
            Debtor::Miss => to < self.parts.len(),
            Debtor::Top(k) => {
                if to == k {
                    let part = &self.parts[k];
                    part.stalled(op)
                } else {
                    true // another child owes an answer
                }
            }
        }
    }

    /// Whether an answer is owed.
    pub(crate) fn owes(&self) -> bool
        requires sound { IsSoundBranch self.now }
        ensures owes { result ≡ owes (branch_slave self.now).owed }
    {
        match self.debtor {
            Debtor::Nobody => false,
            _ => true,
        }
    }

    #[cycle(tick)]
    pub(crate) fn tick(&mut self, op: Option<Op>) -> Option<Answer>
        requires sound { IsSoundBranch self.old }
        requires taken { ForSome op (λ r. (branch_slave self.old).wiring.accepts r ≡ true) }
        requires unstalled { ForSome op (λ r.
            is_stalled (branch_slave self.old).wiring (branch_slave self.old).owed r ≡ false) }
        ensures answer { result ≡ given (branch_slave self.old).owed }
        ensures after { branch_slave self.new ≡ ticked (branch_slave self.old) op }
        ensures kept { Keeps self.old self.new }
        ensures sound { IsSoundBranch self.new }
    {
        let k = self.goes(&op);
        self.tick_at(k, op)
    }

    /// The child that ticks: where the operation goes, or who owes answers.
    fn goes(&self, op: &Option<Op>) -> usize
        ensures goes { result ≡
            goes (length (branch_parts self.now)) (branch_debtor self.now)
            (aim_of (branch_children self.now) op.now) op.now }
    {
        let to = aim(&self.parts, op);
        self.debtor.goes(self.parts.len(), to, op)
    }

    #[cycle(tick)]
    fn tick_at(&mut self, k: usize, op: Option<Op>) -> Option<Answer>
        requires sound { IsSoundBranch self.old }
        requires taken { ForSome op (λ r. (branch_slave self.old).wiring.accepts r ≡ true) }
        requires unstalled { ForSome op (λ r.
            is_stalled (branch_slave self.old).wiring (branch_slave self.old).owed r ≡ false) }
        requires goes { k ≡
            goes (length (branch_parts self.old)) (branch_debtor self.old) (aim_of (branch_children self.old) op) op }
        ensures answer { result ≡ given (branch_slave self.old).owed }
        ensures after { branch_slave self.new ≡ ticked (branch_slave self.old) op }
        ensures kept { Keeps self.old self.new }
        ensures sound { IsSoundBranch self.new }
    {
        if k < self.parts.len() {
            let part = &mut self.parts[k];
            let answer = part.tick(op);
            self.debtor = debtor_of(&self.parts, k);
            answer
        } else {
            let answer = self.debtor.missed();
            self.debtor = Debtor::miss_if(&op);
            answer
        }
    }
}

/// Child `k`, where it owes an answer.
fn debtor_of(parts: &[Part], k: usize) -> Debtor
    requires k_in { k < length parts.now }
    requires sound { AllSound parts.now }
    ensures debtor { result ≡ top_if (owes (part_at (map part_slave parts.now) k).slave.owed) k }
{
    let part = &parts[k];
    Debtor::top_if(part.owes(), k)
}

/// The number of the child that holds an address, or the number of children.
fn find(parts: &[Part], adr: u64) -> usize
    ensures at { result ≡ child_at (map child_of (map part_slave parts.now)) adr }
{
    for (i, part) in parts.iter().enumerate() {
        if part.first <= adr && adr <= part.last {
            return i;
        }
    }
    parts.len()
}

/// Where an operation goes, or the number of children.
fn aim(parts: &[Part], op: &Option<Op>) -> usize
    ensures aim { result ≡ aim_of (map child_of (map part_slave parts.now)) op.now }
{
    match op {
        Some(op) => find(parts, op.adr),
        None => parts.len(),
    }
}
