//! Laws of the core of a bus, as the contracts of functions that do nothing.

ghost use Rattle.soc_core.specs.Built.{DescribedIsFabric};
ghost use Rattle.soc_core.specs.Laws.{BuiltIsSound, EventsKeepSound, EventsChangeOwn, LoadLeaves, TickLowers, NoneLeftIsNonePending, LoadIsAnswered, AloneIsGranted, TickNeedsNoRoom};

/// The core is sound at every moment.
pub fn soundness()
    ensures described { DescribedIsFabric }
    ensures built { BuiltIsSound }
    ensures events { EventsKeepSound }
{}

/// What an event changes is its own master's.
pub fn own_changes()
    ensures own { EventsChangeOwn }
{}

/// When a load has all its answers.
pub fn load_bound()
    ensures load { LoadLeaves }
    ensures lowers { TickLowers }
    ensures none { NoneLeftIsNonePending }
    ensures answered { LoadIsAnswered }
{}

/// When a waiting port is granted.
pub fn grants()
    ensures alone { AloneIsGranted }
{}

/// What a tick needs of memory.
pub fn room()
    ensures tick { TickNeedsNoRoom }
{}
