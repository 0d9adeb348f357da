//! A bus of 32 data bits behind a port of 64.
ghost use Rattle.std.specs.Prelude.{◌≡◌, true, false, Some};
ghost use Rattle.std.specs.Option.{ForSome};
ghost use Rattle.eb_base.specs.declared.width.Width.TheVariants.{W32};
ghost use Rattle.wb_signals.specs.Slave.{given, ticked, is_stalled};
ghost use Rattle.wb_signals.specs.Narrow.{lost, halved_op};
ghost use Rattle.wb_tree.specs.Tree.{branch_slave, narrow_branch, branch_width, branch_children, IsSoundBranch, IsNarrow, Keeps};

use crate::Branch;
use crate::half::{go_back, one_half};
use wb_signals::{Answer, Debtor, Op};

/// A bus of 32 data bits behind a port of 64. It does what the bus does at the half of an operation.
impl Branch {
    #[cycle(stalled)]
    pub(crate) fn narrow_stalled(&self, op: &Op) -> bool
        requires sound { IsSoundBranch self.now }
        requires narrow { IsNarrow self.now }
        requires taken { (narrow_branch self.now).wiring.accepts op.now ≡ true }
        ensures stalled { result ≡ is_stalled (narrow_branch self.now).wiring (narrow_branch self.now).owed op.now }
    {
        match one_half(op) {
            Some(op) => self.stalled(&op),
            None => self.lost_stalled(),
        }
    }

    /// Whether the bus stalls an operation that goes to none of its children.
    fn lost_stalled(&self) -> bool
        requires sound { IsSoundBranch self.now }
        requires width { branch_width self.now ≡ W32 }
        ensures stalled { result ≡
            is_stalled (branch_slave self.now).wiring (branch_slave self.now).owed (lost (branch_children self.now)) }
    {
        match self.debtor {
            Debtor::Nobody => false,
            Debtor::Miss => false,
            Debtor::Top(_) => true,
        }
    }

    #[cycle(tick)]
    pub(crate) fn narrow_tick(&mut self, op: Option<Op>) -> Option<Answer>
        requires sound { IsSoundBranch self.old }
        requires narrow { IsNarrow self.old }
        requires taken { ForSome op (λ r. (narrow_branch self.old).wiring.accepts r ≡ true) }
        requires unstalled { ForSome op (λ r.
            is_stalled (narrow_branch self.old).wiring (narrow_branch self.old).owed r ≡ false) }
        ensures answer { result ≡ given (narrow_branch self.old).owed }
        ensures after { narrow_branch self.new ≡ ticked (narrow_branch self.old) op }
        ensures sound { IsSoundBranch self.new }
        ensures narrow { IsNarrow self.new }
    {
        let answer = self.half_tick(op);
        go_back(&mut self.uppers, answer, &op)
    }

    /// One clock of the bus itself, with the operation in its half.
    #[cycle(tick)]
    fn half_tick(&mut self, op: Option<Op>) -> Option<Answer>
        requires sound { IsSoundBranch self.old }
        requires narrow { IsNarrow self.old }
        requires taken { ForSome op (λ r. (narrow_branch self.old).wiring.accepts r ≡ true) }
        requires unstalled { ForSome op (λ r.
            is_stalled (narrow_branch self.old).wiring (narrow_branch self.old).owed r ≡ false) }
        ensures answer { result ≡ given (branch_slave self.old).owed }
        ensures after { branch_slave self.new ≡
            ticked (branch_slave self.old) (halved_op (branch_children self.old) op) }
        ensures kept { Keeps self.old self.new }
        ensures sound { IsSoundBranch self.new }
    {
        match op {
            None => self.tick(None),
            Some(op) => self.one_tick(op),
        }
    }

    #[cycle(tick)]
    fn one_tick(&mut self, op: Op) -> Option<Answer>
        requires sound { IsSoundBranch self.old }
        requires narrow { IsNarrow self.old }
        requires taken { (narrow_branch self.old).wiring.accepts op ≡ true }
        requires unstalled { is_stalled (narrow_branch self.old).wiring (narrow_branch self.old).owed op ≡ false }
        ensures answer { result ≡ given (branch_slave self.old).owed }
        ensures after { branch_slave self.new ≡
            ticked (branch_slave self.old) (halved_op (branch_children self.old) (Some op)) }
        ensures kept { Keeps self.old self.new }
        ensures sound { IsSoundBranch self.new }
    {
        match one_half(&op) {
            Some(op) => self.tick(Some(op)),
            None => self.lost_tick(),
        }
    }

    /// One clock in which an operation passes that goes to none of the children.
    fn lost_tick(&mut self) -> Option<Answer>
        requires sound { IsSoundBranch self.old }
        requires width { branch_width self.old ≡ W32 }
        requires unstalled { is_stalled (branch_slave self.old).wiring (branch_slave self.old).owed
            (lost (branch_children self.old)) ≡ false }
        ensures answer { result ≡ given (branch_slave self.old).owed }
        ensures after { branch_slave self.new ≡
            ticked (branch_slave self.old) (Some (lost (branch_children self.old))) }
        ensures kept { Keeps self.old self.new }
        ensures sound { IsSoundBranch self.new }
    {
        let answer = self.debtor.missed();
        self.debtor = Debtor::Miss;
        answer
    }
}
