//! Where a port stands.
use wb_signals::SlaveSet;

/// Where a port stands: it asks for nothing, it has raised CYC for a set of slaves, it is granted them, or it has
/// released them since the last tick.
#[derive(Clone, Copy, Debug, PartialEq, Eq)]
pub enum Phase {
    Idle,
    Wants(SlaveSet),
    Holds(SlaveSet),
    Leaves,
}
