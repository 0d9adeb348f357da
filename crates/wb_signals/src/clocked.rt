//! A slave on a clock.
ghost use Rattle.std.specs.Prelude.{◌≡◌, true, false};
ghost use Rattle.std.specs.Option.{ForSome};
ghost use Rattle.wb_signals.specs.Slave.{Slave, given, ticked, is_stalled, owes};

use crate::{Answer, Op};

/// A slave that a clock drives (Wishbone B4, 3.1.3.2 and 3.3: pipelined cycles).
///
/// Contracts see it as its wiring, what its places hold, and the answers that it owes.
pub trait Clocked {
    ghost slave: { Self → Slave };

    // what its constructors establish and each tick keeps
    ghost is_sound: { Self → Type 0 };

    /// Whether the slave stalls an operation in this clock (STALL_O).
    fn stalled(&self, op: &Op) -> bool
        requires sound { is_sound self.now }
        requires taken { (slave self.now).wiring.accepts op.now ≡ true }
        ensures stalled { result ≡ is_stalled (slave self.now).wiring (slave self.now).owed op.now };

    /// Whether an answer is owed.
    fn owes(&self) -> bool
        requires sound { is_sound self.now }
        ensures owes { result ≡ owes (slave self.now).owed };

    /// One clock, in which this operation passes, or none. It gives the first answer owed before, where that is due.
    fn tick(&mut self, op: Option<Op>) -> Option<Answer>
        requires sound { is_sound self.old }
        requires taken { ForSome op (λ r. (slave self.old).wiring.accepts r ≡ true) }
        requires unstalled { ForSome op (λ r. is_stalled (slave self.old).wiring (slave self.old).owed r ≡ false) }
        ensures answer { result ≡ given (slave self.old).owed }
        ensures after { slave self.new ≡ ticked (slave self.old) op }
        ensures sound { is_sound self.new };
}
