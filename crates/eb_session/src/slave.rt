//! A slave, and the widths that it has.
ghost use Rattle.std.specs.Prelude.{◌≡◌};
ghost use Rattle.eb_codec.specs.Stream.{HaveWidths};
ghost use Rattle.eb_session.specs.Replies.{sets_of};

use eb_base::{Width, Widths};

/// An Etherbone slave: the width of its bus, and the address of its root SDB table there.
#[derive(Clone, Copy, Debug, PartialEq, Eq)]
pub struct Slave {
    pub bus: Width,
    pub root: u64,
}

/// The widths that a slave on a bus of this width has: all of addresses, and each of a port up to the bus.
pub fn widths(bus: Width) -> Widths
    ensures value { result ≡ sets_of bus }
    ensures has { HaveWidths result }
{
    Widths {
        addresses: 0xf,
        ports: 2 * bus.bit() - 1,
    }
}
