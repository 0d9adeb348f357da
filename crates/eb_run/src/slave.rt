// A slave with the master that it has for itself, on which a stream is served.
ghost use Rattle.std.specs.Prelude.{◌≡◌, [], List, IfOk};
ghost use Rattle.wb_signals.specs.History.{Entry};
ghost use Rattle.eb_base.specs.declared.width.Width.TheVariants.{W32};
ghost use Rattle.soc_machine.specs.Machine.{machine_width};
ghost use Rattle.eb_run.specs.Streams.{System, ServedOn};
ghost use Rattle.eb_run.specs.Slave.{IsMade, entries_of};

use eb_base::{NoMemory, Width};
use eb_io::{Sink, Source};
use eb_server::{Ending, Rooms, serve};
use eb_session::{Session, Slave};
use soc_machine::{Machine, PlainMaster};
use soc_trail::Recorder;
use std::alloc::Global;

/// How many octets of a stream are read at once.
pub const ROOM: usize = 65_536;

/// A slave of which the master is its own, so that its entries are a legal history by themselves.
pub trait StreamSlave {
    // The slave, and the bus as it was when the session began.
    ghost system: { Self → System };

    // No stream was served on it.
    ghost is_new: { Self → Type 0 };

    // The entries of its cycles.
    ghost entries: { Self → List Entry };

    /// Serves the stream of a source, and writes the replies to a sink.
    fn serve<S: Source, K: Sink>(&mut self, source: &mut S, sink: &mut K) -> Ending
        requires new { is_new self.old }
        ensures served { ServedOn (system self.old) (S.reading source.old) (S.reading source.new)
            (K.writing sink.old) (K.writing sink.new) (entries self.new) result };
}

/// A slave on a bus of 32 data bits with the machine behind it, and the rooms of its stream. Its recorder has what
/// becomes of the bus cycles.
#[derive(Drop)]
pub struct PlainSlave<R: Recorder> {
    session: Session,
    master: PlainMaster<R>,
    rooms: Rooms,
}

impl<R: Recorder> PlainSlave<R> {
    /// Takes all that a stream needs but what the recorder takes. The root SDB table stands at the address `root`.
    pub fn new(
        alloc: Global,
        recorder: R,
        machine: Machine,
        root: u64,
    ) -> Result<PlainSlave<R>, NoMemory>
        requires made { R.made recorder ≡ [] }
        requires opened { R.opened recorder ≡ [] }
        requires width { machine_width machine ≡ W32 }
        ensures new { IfOk result (IsMade machine root) }
    {
        let bus = Width::W32;
        let session = Session::new(alloc, Slave { bus, root })?;
        let rooms = Rooms::new(alloc, ROOM)?;
        Ok(PlainSlave {
            session,
            master: PlainMaster::new(alloc, recorder, machine, 0),
            rooms,
        })
    }

    /// The recorder with the entries of the cycles.
    pub fn recorder(&self) -> &R
        ensures entries { R.made result.now ≡ entries_of self.now }
    {
        self.master.recorder()
    }
}

impl<R: Recorder> StreamSlave for PlainSlave<R> {
    ghost use Rattle.eb_run.specs.Slave.{IsNewSlave, system_of, entries_of};

    ghost system = { system_of };

    ghost is_new = { IsNewSlave };

    ghost entries = { entries_of };

    fn serve<S: Source, K: Sink>(&mut self, source: &mut S, sink: &mut K) -> Ending {
        let ending = serve(
            source,
            sink,
            &mut self.session,
            &mut self.master,
            &mut self.rooms,
        );
        // The entries are a legal history.
        let _ = self.master.recorder();
        ending
    }
}
