//! The signals of a bus.
ghost use Rattle.std.specs.Prelude.{◌≡◌, ◌≤◌, ◌<◌, length, slice_get, Some};

use crate::port_row::PortRow;
use std::marker::Model;

/// The signals of a bus in one clock: those of its ports, at most 16, and for each of its top slaves, at most 128, the
/// port that holds it.
#[derive(Debug, Drop)]
pub struct WaveRow {
    ports: Vec<PortRow>,
    holders: Vec<Option<u8>>,
}

impl Model for WaveRow {
    ghost use Rattle.std.specs.Prelude.{◌≤◌, length};
    ghost use Rattle.wb_signals.specs.Wave.{WaveRowState};

    ghost Value = { WaveRowState };

    ghost view = { λ r. record { ports = r.ports.items; holders = r.holders.items } };

    ghost invariant = { λ r. (length r.ports.items ≤ 16) × (length r.holders.items ≤ 128) };
}

impl WaveRow {
    /// The row of these ports and holders.
    pub fn new(ports: Vec<PortRow>, holders: Vec<Option<u8>>) -> WaveRow
        requires ports { length ports.items ≤ 16 }
        requires holders { length holders.items ≤ 128 }
        ensures row { result ≡ record { ports = ports.items; holders = holders.items } }
    {
        WaveRow { ports, holders }
    }

    /// The signals of a port.
    pub fn port(&self, m: u8) -> PortRow
        requires below { m < length self.now.ports }
        ensures port { slice_get self.now.ports m ≡ Some result }
    {
        self.ports[m as usize]
    }

    /// The port that holds a top slave, where one does.
    pub fn holder(&self, i: u32) -> Option<u8>
        requires below { i < length self.now.holders }
        ensures holder { slice_get self.now.holders i ≡ Some result }
    {
        self.holders[i as usize]
    }
}
