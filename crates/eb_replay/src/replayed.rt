//! What is kept of a replay.
use eb_server::Ending;
use eb_shared::SharedBus;
use std::marker::Model;

/// A port of a replay: how its stream ended, and its reply.
#[derive(Drop)]
pub struct ReplayedPort {
    pub ending: Ending,
    pub reply: Vec<u8>,
}

impl Model for ReplayedPort {
    ghost use Rattle.eb_replay.specs.Ports.{PortOutcome};

    ghost Value = { PortOutcome };

    ghost view = { λ p. record { ending = p.ending; reply = p.reply.items } };
}

/// A replay: its ports in the order of the captures, and the bus with the journal.
#[derive(Drop)]
pub struct Replayed {
    pub(crate) ports: Vec<ReplayedPort>,
    pub(crate) bus: SharedBus,
}

impl Model for Replayed {
    ghost use Rattle.eb_replay.specs.Replay.{ReplayState};

    ghost Value = { ReplayState };

    ghost view = { λ r. record { ports = r.ports.items; journal = r.bus.core.journal } };
}
