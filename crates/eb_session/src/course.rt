//! The laws of whole runs.
ghost use Rattle.eb_session.specs.Course.{Begins, FedGoes, RunsAll, FinishEnds, FedEnds, IsShort};

/// What a session did since it was new is told by one list of items: its cycles, its replies, its register and its end.
///
/// A new session is on its course (`begins`), each `feed` that doesn't end it keeps it there (`goes`), the items that
/// ran are all those of the octets taken (`all`), and its end, by `finish` (`finish`) or `feed` (`fed`), is that of the
/// stream.
/// A reply is no longer than its request (`short`).
pub fn whole_runs()
    ensures begins { Begins }
    ensures goes { FedGoes }
    ensures all { RunsAll }
    ensures finish { FinishEnds }
    ensures fed { FedEnds }
    ensures short { IsShort }
{}
