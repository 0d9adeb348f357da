//! A reader of words over a host whose port has 32 bits.

ghost use Rattle.std.specs.Prelude.{◌≡◌, ◌<◌, ◌^◌};
ghost use Rattle.eb_base.specs.declared.width.Width.TheVariants.{W32};
ghost use Rattle.sdb_walk.specs.Told.{with_exchange};
ghost use Rattle.eb_host.specs.View.{link_of, sent_header, host_state};
ghost use Rattle.eb_reader.specs.Reader.{HasReadWords, ReadsWord, began_with, new_reader, told_of};

use eb_host::{Host, HostAnswer, HostFault, HostLink};
use sdb_walk::{Exchange, NoWord, WordReader};
use soc_trail::Trail;
use std::marker::Model;
use std::snapshot::Snapshot;

/// Reads words through a host whose port has 32 bits, each as a cycle of its own. Clauses see all that was asked and
/// answered, and the host with which the reader began; memory keeps none of it, and no read takes any.
#[derive(Drop)]
pub struct HostReader<L: HostLink> {
    host: Host<L>,
    began: Snapshot<Host<L>>,
    asked: Trail<Exchange<HostFault>>,
}

impl<L: HostLink> Model for HostReader<L> {
    ghost use Rattle.eb_reader.specs.Reader.{ReaderState, HasReadWords, reader_of};

    ghost Value = { ReaderState L };

    ghost view = { λ r. reader_of r.began.value r.host r.asked };

    ghost invariant = { λ r. HasReadWords L.reading L.writing L.other_end (reader_of r.began.value r.host r.asked) };
}

impl<L: HostLink> HostReader<L> {
    /// A reader over this host, which was asked for nothing yet.
    pub fn new(host: Host<L>) -> HostReader<L>
        requires port { (sent_header host).port ≡ W32 }
        ensures new { result ≡ new_reader host }
    {
        let began = Snapshot::of(&host);
        HostReader {
            host,
            began,
            asked: Trail::new(),
        }
    }

    /// Gives the host back, as the last read left it. It read what was asked, one word after another.
    pub fn into_host(self) -> Host<L>
        ensures host { result ≡ self.host }
        ensures read { HasReadWords L.reading L.writing L.other_end self }
    {
        self.host
    }
}

// The answer to a read.
fn ask<L: HostLink>(host: &mut Host<L>, adr: u64) -> Result<u32, NoWord<HostFault>>
    requires port { (sent_header host.old).port ≡ W32 }
    ensures reads { ReadsWord (host_state L.reading L.writing host.old) (host_state L.reading L.writing host.new)
        adr result }
    ensures header { sent_header host.new ≡ sent_header host.old }
    ensures other_end { L.other_end (link_of host.new) ≡ L.other_end (link_of host.old) }
{
    match host.read(adr) {
        Ok(HostAnswer::Done(word)) => Ok(word as u32),
        Ok(HostAnswer::Error) => Err(NoWord::BusError),
        Err(fault) => Err(NoWord::Cause(fault)),
    }
}

impl<L: HostLink> WordReader for HostReader<L> {
    type Cause = HostFault;

    ghost use Rattle.eb_host.specs.declared.host.Host.{Host};
    ghost use Rattle.eb_reader.specs.Reader.{began_with, told_of};

    ghost told = { told_of };

    ghost Origin = { Host L };

    ghost origin = { began_with };

    /// The word that the host reads at the address, `BusError` for an error of the bus, or the host's fault.
    fn word(&mut self, adr: u64) -> Result<u32, NoWord<HostFault>>
        ensures told { told_of self.new ≡ with_exchange (told_of self.old) adr result }
        ensures origin { began_with self.new ≡ began_with self.old }
        ensures reads { ReadsWord (host_state L.reading L.writing self.old.host)
            (host_state L.reading L.writing self.new.host) adr result }
    {
        let word = ask(&mut self.host, adr);
        self.asked.push(Exchange { adr, word });
        word
    }
}
