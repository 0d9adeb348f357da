//! A classic slave.
ghost use Rattle.std.specs.Prelude.{◌≡◌, true};
ghost use Rattle.std.specs.Option.{ForSome};
ghost use Rattle.wb_signals.specs.Standing.{ClassicSlave, KeepsStanding, told_by, stood_by};

use crate::{Answer, Op};

/// A slave at which a request stands until it is answered (Wishbone B4, 3.2: classic cycles).
pub trait Classic {
    ghost slave: { Self → ClassicSlave };

    // what its constructors establish and each tick keeps
    ghost is_sound: { Self → Type 0 };

    /// One clock, in which this request stands, or none.
    fn tick(&mut self, op: Option<Op>) -> Option<Answer>
        requires sound { is_sound self.old }
        requires taken { ForSome op (λ r. (slave self.old).wiring.accepts r ≡ true) }
        requires kept { KeepsStanding (slave self.old).standing op }
        ensures answer { result ≡ told_by (slave self.old) op }
        ensures after { slave self.new ≡ stood_by (slave self.old) op }
        ensures sound { is_sound self.new };
}
