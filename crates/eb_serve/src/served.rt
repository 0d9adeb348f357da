//! What is kept of served ports, and of datagrams.
use eb_ports::Ends;
use eb_shared::SharedBus;
use std::marker::Model;

/// Served ports: how the connections of each ended, in the order of the doors, and the bus with the journal.
#[derive(Drop)]
pub struct ServedPorts {
    pub(crate) ports: Vec<Ends>,
    pub(crate) bus: SharedBus,
}

impl Model for ServedPorts {
    ghost use Rattle.eb_serve.specs.Serves.{ServeState};

    ghost Value = { ServeState };

    ghost view = { λ r. record { ports = r.ports.items; journal = r.bus.core.journal } };
}

/// Served datagrams: how they ended, in their order, and the bus with the journal.
#[derive(Drop)]
pub struct ServedDatagrams {
    pub(crate) ends: Ends,
    pub(crate) bus: SharedBus,
}

impl Model for ServedDatagrams {
    ghost use Rattle.eb_serve.specs.Datagrams.{PostState};

    ghost Value = { PostState };

    ghost view = { λ r. record { ends = r.ends; journal = r.bus.core.journal } };
}
