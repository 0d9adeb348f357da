//! A row of a wave where it lies.
ghost use Rattle.std.specs.Prelude.{◌≡◌, ◌<◌, length, slice_get, Some};

use std::marker::Model;
use wb_signals::PortRow;

/// The signals of a bus in one clock, as they lie in its wave.
#[derive(Drop)]
pub struct RowView<'a> {
    ports: &'a [PortRow],
    holders: &'a [Option<u8>],
}

impl<'a> Model for RowView<'a> {
    ghost use Rattle.wb_signals.specs.Wave.{WaveRowState};

    ghost Value = { WaveRowState };

    ghost view = { λ v. record { ports = v.ports.now; holders = v.holders.now } };
}

impl<'a> RowView<'a> {
    /// A row of these ports and holders.
    pub(crate) fn of(ports: &'a [PortRow], holders: &'a [Option<u8>]) -> RowView<'a>
        ensures row { result ≡ record { ports = ports.now; holders = holders.now } }
    {
        RowView { ports, holders }
    }

    /// The signals of a port.
    pub fn port(&self, m: u8) -> PortRow
        requires below { m < length self.now.ports }
        ensures port { slice_get self.now.ports m ≡ Some result }
    {
        self.ports[usize::from(m)]
    }

    /// The port that holds a top slave, where one does.
    pub fn holder(&self, i: u32) -> Option<u8>
        requires below { i < length self.now.holders }
        ensures holder { slice_get self.now.holders i ≡ Some result }
    {
        self.holders[i as usize]
    }

    /// The signals of all ports.
    pub fn ports(&self) -> &'a [PortRow]
        ensures ports { result.now ≡ self.now.ports }
    {
        self.ports
    }

    /// Who holds each top slave.
    pub fn holders(&self) -> &'a [Option<u8>]
        ensures holders { result.now ≡ self.now.holders }
    {
        self.holders
    }
}
