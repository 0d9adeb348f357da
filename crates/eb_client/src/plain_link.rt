//! A link of which nothing is known but its octets.
ghost use Rattle.std.specs.Prelude.{◌≡◌};

use eb_host::HostLink;
use eb_io::{Got, Link, Put, Sink, Source};

/// A link with anyone at its other end: what it tells is what the link inside tells.
pub struct PlainLink<L> {
    link: L,
}

impl<L: Link> PlainLink<L> {
    ghost use Rattle.eb_client.specs.PlainLink.{inner_link};

    /// The link as one that a host talks over.
    pub fn new(link: L) -> PlainLink<L>
        ensures link { inner_link result ≡ link }
    {
        PlainLink { link }
    }

    /// Gives the link back, as the last call left it.
    pub fn into_link(self) -> L
        ensures link { result ≡ inner_link self }
    {
        let PlainLink { link } = self;
        link
    }
}

impl<L: Link> Source for PlainLink<L> {
    ghost use Rattle.eb_client.specs.PlainLink.{told_inside};

    ghost reading = { told_inside L.reading };

    ghost beside_reads = { told_inside L.beside_reads };

    fn read(&mut self, room: &mut [u8]) -> Got {
        self.link.read(room)
    }
}

impl<L: Link> Sink for PlainLink<L> {
    ghost use Rattle.eb_client.specs.PlainLink.{told_inside};

    ghost writing = { told_inside L.writing };

    ghost beside_writes = { told_inside L.beside_writes };

    fn write(&mut self, piece: &[u8]) -> Put {
        self.link.write(piece)
    }
}

impl<L: Link> Link for PlainLink<L> {
    ghost tells_writes = { λ l. L.tells_writes l.link };

    ghost tells_reads = { λ l. L.tells_reads l.link };
}

impl<L: Link> HostLink for PlainLink<L> {
    ghost OtherEnd = { Unit {0} };

    ghost other_end = { λ _. tt };

    fn receive(&mut self, room: &mut [u8]) -> Got {
        self.read(room)
    }

    fn send(&mut self, piece: &[u8]) -> Put {
        self.write(piece)
    }
}
