//! What a host and a slave do together. These functions do nothing: their clauses say it.

ghost use Rattle.eb_loopback.specs.Loopback.{AsksMeet, AsksSpell, HeaderMeets, OpeningSpells, ProbeMeets, RepliesMeet, RootAsks, RootMeets, RootSpells};

/// The octets that a host sends to open a link spell its probe and its header, for a slave with which it has widths in
/// common (`spelled`). The slave's answers to them are those that the host expects (`probed`, `headed`), and the sets
/// that the host takes from the first are the slave's.
pub fn opening()
    ensures spelled { OpeningSpells }
    ensures probed { ProbeMeets }
    ensures headed { HeaderMeets }
{}

/// The octets that a host sends for a cycle spell its records (`spelled`). These have its operations, each one
/// operation of the bus, as one cycle (`asked`). The slave's replies to them are those that the host expects, and the
/// host's answers are those that the bus gave (`replied`).
pub fn cycle()
    ensures spelled { AsksSpell }
    ensures asked { AsksMeet }
    ensures replied { RepliesMeet }
{}

/// The octets that a host sends for the address of the root table spell their record (`spelled`), which has no
/// operation of the bus (`asked`). The slave's reply is expected, and has that address (`replied`).
pub fn root()
    ensures spelled { RootSpells }
    ensures asked { RootAsks }
    ensures replied { RootMeets }
{}
